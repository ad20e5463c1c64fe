//! Resource usage of the process.
ghost use Rattle.std.specs.Prelude.{◌≡◌, ◌==◌, count_by};

use libc::types::rlimit;
use std::alloc::Global;
use std::fs::File;
use std::io;
use std::io::{Read, Seek, SeekFrom};
use std::os::fd::AsRawFd;
use std::os::unix::fs::FileExt;
use std::rt::Files;

/// Size of a memory page in bytes, on x86-64: the unit of /proc/self/stat.
const PAGE: u64 = 4_096;

/// Word positions in /proc/self/stat, counted after the program's name (proc(5)): user time, system
/// time (both in hundredths of a second), and resident pages.
const USER: usize = 11;

const SYSTEM: usize = 12;

const PAGES: usize = 21;

/// Buffer size for reading a directory or the process's times, in bytes: more than a hundred names.
const ROOM: usize = 4_096;

/// Maximum number of such reads: enough for some eight million files.
const MAX_READS: usize = 1 << 16;

/// Resource usage of the process; 0 for what can't be read.
#[derive(Clone, Copy, Debug, Default, PartialEq, Eq)]
pub struct Process {
    /// CPU time in hundredths of a second.
    pub cpu: u64,
    /// Resident set size in bytes.
    pub resident: u64,
    /// Number of open file descriptors.
    pub open_files: u64,
    /// Soft limit of open file descriptors; 2^64 - 1 if unlimited.
    pub most_files: u64,
}

/// The files of /proc to read. They stay open, and are read from their start each time.
pub(crate) struct ProcessFiles {
    alloc: Global,
    /// /proc/self/stat, if it can be opened.
    stat: Option<File>,
    /// /proc/self/fd, if it can be opened.
    directory: Option<File>,
}

impl Drop for ProcessFiles {
    /// Written by hand, so that its owners drop it by a single call (docs/DECISIONS.md, F20).
    fn drop(self) {
        let ProcessFiles {
            alloc: _alloc,
            stat: _stat,
            directory: _directory,
        } = self;
    }
}

/// The process's number and its CPU time; 0 for what can't be read.
#[derive(Clone, Copy, Debug, Default, PartialEq, Eq)]
pub struct ProcessTimes {
    /// Its number.
    pub pid: u64,
    /// CPU time in user mode, in hundredths of a second.
    pub user: u64,
    /// CPU time in the kernel, in hundredths of a second.
    pub system: u64,
}

impl ProcessTimes {
    /// The current times, by /proc/self/stat. The file is read without its position, so that any
    /// thread may call this.
    pub fn now(stat: &File) -> ProcessTimes {
        let mut buffer = [0; ROOM];
        let text = text_at_start(stat, &mut buffer);
        let words = behind_name(text);
        ProcessTimes {
            pid: number_at(text, 0),
            user: number_at(words, USER),
            system: number_at(words, SYSTEM),
        }
    }
}

/// The beginning of a file, as far as the buffer has room; empty if it can't be read.
fn text_at_start<'a>(file: &File, buffer: &'a mut [u8]) -> &'a str {
    match file.read_at(buffer, 0) {
        Ok(count) => str::from_utf8(&buffer[..count]).unwrap_or(""),
        Err(_) => "",
    }
}

impl ProcessFiles {
    /// Opens both. If one is missing, as on systems other than Linux, its numbers are 0.
    pub(crate) fn open<R: Files<File = File>>(rt: &R, alloc: Global) -> ProcessFiles {
        ProcessFiles {
            alloc,
            stat: File::open(rt, "/proc/self/stat").ok(),
            directory: File::open(rt, "/proc/self/fd").ok(),
        }
    }

    /// The current resource usage.
    pub(crate) fn now(&self) -> Process {
        let text = match self.text() {
            Ok(text) => text,
            Err(_) => String::new(self.alloc),
        };
        let words = behind_name(text.as_str());
        Process {
            cpu: number_at(words, USER).saturating_add(number_at(words, SYSTEM)),
            resident: number_at(words, PAGES).saturating_mul(PAGE),
            open_files: self.open_files(),
            most_files: most_files(),
        }
    }

    /// The current text of /proc/self/stat.
    fn text(&self) -> io::Result<String> {
        let mut text = String::new(self.alloc);
        if let Some(stat) = &self.stat {
            let mut stat = stat;
            stat.seek(SeekFrom::Start(0))?;
            stat.read_to_string(&mut text)?;
        }
        Ok(text)
    }

    /// Number of open file descriptors.
    fn open_files(&self) -> u64 {
        match &self.directory {
            Some(directory) => count_files(directory).unwrap_or(0),
            None => 0,
        }
    }
}

/// The words of /proc/self/stat after the program's name, which may itself contain spaces and
/// parentheses.
fn behind_name(stat: &str) -> &str {
    match stat.rsplit_once(") ") {
        Some((_, words)) => words,
        None => "",
    }
}

/// Word number `place` as a number, counted from 0; 0 if there is none.
fn number_at(words: &str, place: usize) -> u64 {
    let word = words.split(' ').nth(place).unwrap_or("");
    word.parse::<u64>().unwrap_or(0)
}

/// Number of entries of the directory, read from its start.
fn count_files(directory: &File) -> io::Result<u64> {
    let mut directory = directory;
    directory.seek(SeekFrom::Start(0))?;
    let mut names: u64 = 0;
    for _ in 0..MAX_READS {
        let mut buffer = [0; ROOM];
        let length = os::read_dir(directory.as_raw_fd(), &mut buffer);
        if length == 0 {
            break;
        }
        names = names.saturating_add(names_in(&buffer[..length]) as u64);
    }
    // `.` and `..` are entries too.
    Ok(names.saturating_sub(2))
}

/// Number of names in the buffer; each ends with a zero byte.
fn names_in(names: &[u8]) -> usize
    ensures { result ≡ count_by (λ byte. byte == 0) names.now }
{
    names.iter().filter(|byte| **byte == 0).count()
}

/// The current limit of open file descriptors.
fn most_files() -> u64 {
    let mut limit = rlimit {
        rlim_cur: 0,
        rlim_max: 0,
    };
    if libc::getrlimit(libc::RLIMIT_NOFILE, &mut limit) == 0 {
        limit.rlim_cur
    } else {
        0
    }
}
