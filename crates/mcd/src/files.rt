//! The files that are open at the start, and how many more may be opened.
ghost use Rattle.std.specs.Prelude.{◌≡◌, ◌+◌, ◌*◌, ◌-◌, ◌^◌, min};

use libc::types::rlimit;
use std::fs::File;
use std::io::Eprint;
use std::os::fd::{AsRawFd, IntoRawFd};
use std::rt::Files;

/// Files of each shard's thread: two for its poll, and its waker.
const FILES_A_SHARD: u64 = 3;

/// Other open files: the three standard ones, the three of the accepting thread, a connection that
/// waits for a slot, the status file with the pending signals, and the last one, which the
/// accepting thread leaves to others.
const OTHER_FILES: u64 = 9;

/// The last descriptor of standard input, output and error.
const LAST_STANDARD: i32 = 2;

/// Opens an empty file for each standard descriptor that is closed. Otherwise a socket could get
/// its number, and what is written to standard error would reach a client. The file is read-only,
/// so a write fails as it would on a closed descriptor. Without `/dev/null` the root directory is
/// opened.
pub fn open_standard<R: Files<File = File>>(rt: &R) {
    for _ in 0..=LAST_STANDARD {
        let opened = File::open(rt, "/dev/null").or_else(|_| File::open(rt, "/"));
        match opened {
            Ok(file) if file.as_raw_fd() <= LAST_STANDARD => {
                file.into_raw_fd();
            }
            _ => return,
        }
    }
}

/// The number of open files if each slot has a connection, listeners included.
fn files_for(seats: usize, shards: usize, listeners: usize) -> u64
    ensures { result ≡
        min
        (min (min (seats + min (shards * 3) (2 ^ 64 - 1)) (2 ^ 64 - 1) + listeners)
        (2 ^ 64 - 1) + 9) (2 ^ 64 - 1) }
{
    let threads = (shards as u64).saturating_mul(FILES_A_SHARD);
    (seats as u64)
        .saturating_add(threads)
        .saturating_add(listeners as u64)
        .saturating_add(OTHER_FILES)
}

/// Warns on standard error if fewer files may be open than a connection on each slot needs.
/// Connections that find no file wait like those that find no slot. See docs/DECISIONS.md, N10.
pub fn tell_files(rt: &impl Eprint, seats: usize, shards: usize, listeners: usize) {
    let mut limit = rlimit {
        rlim_cur: 0,
        rlim_max: 0,
    };
    let needed = files_for(seats, shards, listeners);
    if libc::getrlimit(libc::RLIMIT_NOFILE, &mut limit) == 0 && limit.rlim_cur < needed {
        let most = limit.rlim_cur;
        let _ = eprintln!(rt;
            "mcd: warning: --seats {seats} needs {needed} open files, but only {most} are allowed (ulimit -n)"
        );
    }
}
