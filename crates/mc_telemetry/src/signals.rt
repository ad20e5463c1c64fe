//! Pending signals. A parent may start the program with signals blocked; they then stay pending and
//! end nothing by themselves. See docs/DECISIONS.md, S1.
use std::alloc::Global;
use std::fs::File;
use std::io;
use std::io::{Read, Seek, SeekFrom};
use std::rt::Files;

/// SIGINT and SIGTERM, as bits of a signal set (proc(5), /proc/pid/status).
const ENDING: u64 = (1 << 1) | (1 << 14);

/// Names of the lines of blocked signals and of signals pending for the process.
const BLOCKED: &str = "SigBlk:";

const PENDING: &str = "ShdPnd:";

/// The status file of the process. It stays open, and is read from its start each time.
pub struct Signals {
    alloc: Global,
    status: File,
}

impl Drop for Signals {
    /// Written by hand, so that its owners drop it by a single call (docs/DECISIONS.md, F20).
    fn drop(self) {
        let Signals {
            alloc: _alloc,
            status: _status,
        } = self;
    }
}

impl Signals {
    /// Opens the file if SIGTERM or SIGINT is blocked. Otherwise `None`, since such a signal ends
    /// the process at once.
    pub fn blocked<R: Files<File = File>>(rt: &R, alloc: Global) -> Option<Signals> {
        let status = File::open(rt, "/proc/self/status").ok()?;
        let signals = Signals { alloc, status };
        if signals.has_ending(BLOCKED) {
            Some(signals)
        } else {
            None
        }
    }

    /// Whether SIGTERM or SIGINT is pending.
    pub fn ask_to_end(&self) -> bool {
        self.has_ending(PENDING)
    }

    /// Whether SIGTERM or SIGINT is in the set of this name; `false` if it can't be read.
    fn has_ending(&self, name: &str) -> bool {
        match self.text() {
            Ok(text) => set_in(text.as_str(), name) & ENDING != 0,
            Err(_) => false,
        }
    }

    /// Reads the current status of the process.
    fn text(&self) -> io::Result<String> {
        let mut text = String::new(self.alloc);
        let mut status = &self.status;
        status.seek(SeekFrom::Start(0))?;
        status.read_to_string(&mut text)?;
        Ok(text)
    }
}

/// The signal set on the line of this name; empty if there is no such line.
fn set_in(status: &str, name: &str) -> u64 {
    for line in status.lines() {
        if let Some(digits) = line.strip_prefix(name) {
            return u64::from_str_radix(digits.trim(), 16).unwrap_or(0);
        }
    }
    0
}
