//! The number of connections in the listen backlog, from Linux' socket tables. See
//! docs/DECISIONS.md, W3.
ghost use Rattle.std.specs.Prelude.{◌≡◌, nat_eq};
ghost use Rattle.std.specs.List.{list_any};
ghost use Rattle.mc_metrics.specs.Backlog.{AreWaiting, behind_colon, hexadecimal, waiting_at, waiting_in, word_at};

use std::alloc::{AllocError, Global};
use std::fs::File;
use std::io;
use std::io::{Read, Seek, SeekFrom};
use std::rt::Files;

/// The state code of a listening socket.
const LISTENING: &str = "0A";

/// Word positions on a line: local address, state, and the queue sizes. For a listening socket, the
/// receive queue is the length of its backlog (proc(5), /proc/net/tcp).
const ADDRESS: usize = 1;

const STATE: usize = 3;

const QUEUES: usize = 4;

/// The system's tables of TCP sockets, which stay open, and of each the lines of listening sockets
/// when it was last read. A table has some 150 bytes for each socket of the system.
pub(crate) struct Tables {
    alloc: Global,
    /// The table of IPv4, if it can be opened.
    four: Option<File>,
    /// The table of IPv6, if it can be opened.
    six: Option<File>,
    four_text: String,
    six_text: String,
}

impl Drop for Tables {
    /// Written by hand, so that its owners drop it by a single call (docs/DECISIONS.md, F20).
    fn drop(self) {
        let Tables {
            alloc: _alloc,
            four: _four,
            six: _six,
            four_text: _four_text,
            six_text: _six_text,
        } = self;
    }
}

impl Tables {
    /// Opens the tables, and reads none yet. A missing table, as on systems other than Linux,
    /// counts as empty.
    pub(crate) fn open<R: Files<File = File>>(rt: &R, alloc: Global) -> Tables {
        Tables {
            alloc,
            four: File::open(rt, "/proc/self/net/tcp").ok(),
            six: File::open(rt, "/proc/self/net/tcp6").ok(),
            four_text: String::new(alloc),
            six_text: String::new(alloc),
        }
    }

    /// Reads both tables from their start. One that can't be read counts as empty.
    pub(crate) fn refresh(&mut self) {
        self.four_text = table_text(self.alloc, &self.four);
        self.six_text = table_text(self.alloc, &self.six);
    }

    /// How many connections waited at the sockets that listen at one of the ports when the tables
    /// were last read.
    pub(crate) fn waiting(&self, ports: &[u16]) -> u64
        ensures { AreWaiting ports.now result }
    {
        let four = waiting_at(&self.four_text, ports);
        four.saturating_add(waiting_at(&self.six_text, ports))
    }
}

/// The current lines of listening sockets of a table; none if it can't be read.
fn table_text(alloc: Global, table: &Option<File>) -> String {
    match read_table(alloc, table) {
        Ok(text) => text,
        Err(_) => String::new(alloc),
    }
}

/// Reads a table from its start, and keeps the lines of listening sockets.
fn read_table(alloc: Global, table: &Option<File>) -> io::Result<String> {
    let mut text = String::new(alloc);
    if let Some(file) = table {
        let mut file = file;
        file.seek(SeekFrom::Start(0))?;
        file.read_to_string(&mut text)?;
    }
    Ok(listening_lines(alloc, &text)?)
}

/// The lines of a table that are of listening sockets. The others count for nothing.
fn listening_lines(alloc: Global, table: &str) -> Result<String, AllocError> {
    let mut kept = String::new(alloc);
    for line in table.lines() {
        if word_at(line, STATE) == LISTENING {
            kept.push_str(line)?;
            kept.push('\n')?;
        }
    }
    Ok(kept)
}

/// How many connections wait, by this table, at the sockets that listen at one of the ports.
fn waiting_at(table: &str, ports: &[u16]) -> u64
    ensures { result ≡ waiting_at ports.now table.now }
{
    table.lines().fold(0, |sum: u64, line| {
        sum.saturating_add(waiting_in(line, ports))
    })
}

/// How many wait at the socket of a line, if it listens at one of the ports.
#[tactic(auto, unfolding(crate::specs::Backlog::waiting_in))]
fn waiting_in(line: &str, ports: &[u16]) -> u64
    ensures { result ≡ waiting_in ports.now line.now }
{
    if word_at(line, STATE) != LISTENING {
        return 0;
    }
    let at = behind_colon(word_at(line, ADDRESS));
    let waiting = behind_colon(word_at(line, QUEUES));
    match (at, waiting) {
        (Some(at), Some(waiting)) if is_one_of(at, ports) => waiting,
        _ => 0,
    }
}

/// Whether the number is one of the ports.
fn is_one_of(at: u64, ports: &[u16]) -> bool
    ensures { result ≡ list_any (λ port. nat_eq at port) ports.now }
{
    ports.iter().any(|port| at == u64::from(*port))
}

/// Word number `place` of a line, counted from 0; empty if there is none.
fn word_at(line: &str, place: usize) -> &str
    ensures { result.now ≡ word_at place line.now }
{
    let mut words = line.split(' ').filter(|word| !word.is_empty());
    words.nth(place).unwrap_or("")
}

/// The hexadecimal number after the first colon of a word, if there is one.
fn behind_colon(word: &str) -> Option<u64>
    ensures { result ≡ behind_colon word.now }
{
    hexadecimal(word.split(':').nth(1).unwrap_or(""))
}

/// Parses a hexadecimal number of 64 bits.
fn hexadecimal(text: &str) -> Option<u64>
    ensures { result ≡ hexadecimal text.now }
{
    u64::from_str_radix(text, 16).ok()
}
