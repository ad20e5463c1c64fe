//! The commands of a load, and their expected replies.
use crate::line::{Cutting, MemoryLine};
use mc_net::ServedLine;
use std::alloc::{AllocError, Global};

/// Number of keys of each line.
const KEYS: u64 = 100;

/// Of every `ROUNDS` commands on a key, the first stores it and the others read it.
const ROUNDS: u64 = 10;

/// The load of one line.
#[derive(Drop)]
pub struct Load {
    alloc: Global,
    /// The number of the line.
    line: u64,
    input: Vec<u8>,
    /// Where each batch of commands ends.
    ends: Vec<usize>,
    /// The expected replies.
    replies: Vec<u8>,
}

impl Load {
    /// A load of `commands` commands, in batches of this size per read.
    pub fn new(alloc: Global, line: u64, commands: u64, batch: u64) -> Result<Load, AllocError> {
        let mut load = Load {
            alloc,
            line,
            input: Vec::new(alloc),
            ends: Vec::new(alloc),
            replies: Vec::new(alloc),
        };
        let mut gathered = 0u64;
        for number in 0..commands {
            load.add(number)?;
            gathered = gathered.saturating_add(1);
            if gathered >= batch {
                load.ends.push(load.input.len())?;
                gathered = 0;
            }
        }
        Ok(load)
    }

    /// Appends command number `number`: the keys take turns, and each tenth command on a key stores
    /// it.
    fn add(&mut self, number: u64) -> Result<(), AllocError> {
        let line = self.line;
        let key = number % KEYS;
        let round = number / KEYS;
        let stored = round.saturating_sub(round % ROUNDS);
        if round == stored {
            let command = format!(in self.alloc;
                "set key-{line}-{key} 0 0 32\r\n{stored:032}\r\n"
            )?;
            self.input.extend_from_slice(command.as_bytes())?;
            self.replies.extend_from_slice(b"STORED\r\n")
        } else {
            let command = format!(in self.alloc; "get key-{line}-{key}\r\n")?;
            self.input.extend_from_slice(command.as_bytes())?;
            let reply = format!(in self.alloc;
                "VALUE key-{line}-{key} 0 32\r\n{stored:032}\r\nEND\r\n"
            )?;
            self.replies.extend_from_slice(reply.as_bytes())
        }
    }

    /// The line that sends the load, and its expected replies.
    pub fn start(self) -> Result<(MemoryLine, Vec<u8>), AllocError> {
        let Load {
            alloc,
            line: _,
            input,
            ends,
            replies,
        } = self;
        let room = replies.len();
        let line = MemoryLine::new(alloc, input, ends, Cutting::NONE, room)?;
        Ok((line, replies))
    }
}

/// The lines of a load, and the expected replies of each.
#[derive(Drop)]
pub struct Loads {
    pub lines: Vec<MemoryLine>,
    pub replies: Vec<Vec<u8>>,
}

impl Loads {
    /// The loads of `count` lines with `commands` commands each, in batches of this size per read.
    pub fn new(alloc: Global, count: u64, commands: u64, batch: u64) -> Result<Loads, AllocError> {
        let mut loads = Loads {
            lines: Vec::new(alloc),
            replies: Vec::new(alloc),
        };
        for number in 0..count {
            let (line, replies) = Load::new(alloc, number, commands, batch)?.start()?;
            loads.lines.push(line)?;
            loads.replies.push(replies)?;
        }
        Ok(loads)
    }
}

/// Number of lines with wrong replies.
pub fn wrong_among(served: &[ServedLine<MemoryLine>], replies: &[Vec<u8>]) -> u64 {
    let mut right = 0u64;
    for (one, replies) in served.iter().zip(replies) {
        if !one.broke && one.line.output.as_slice() == replies.as_slice() {
            right = right.saturating_add(1);
        }
    }
    let all = u64::try_from(replies.len()).unwrap_or(u64::MAX);
    all.saturating_sub(right)
}
