//! Loads whose time is measured.
use crate::line::MemoryLine;
use crate::load::{Loads, wrong_among};
use crate::server::Server;
use mc_command::Profile;
use mc_net::ServedLine;
use mc_sizes::Sizes;
use mc_wire::number_u64;
use std::alloc::Global;
use std::fs::Files;
use std::io::Print;
use std::random::RandomSource;
use std::sync::Wait;
use std::thread::Threads;
use std::time::Instant;
use std::{fs, io, time};

/// The file with the processor time of this program.
const TOLD: &str = "/proc/self/stat";

/// The server's sizes in a measurement, except for slots and shards.
pub const SIZES: Sizes = Sizes {
    profile: Profile::Own,
    seats: 1,
    shards: 1,
    bytes: 67_108_864,
    ring: 64,
    value: 1_048_576,
    line: 65_536,
    window: 256,
    shutdown: false,
};

/// The parameters: number of lines, shards, commands of each line, and commands per read.
#[derive(Clone, Copy)]
struct Asked {
    lines: u64,
    shards: usize,
    commands: u64,
    batch: u64,
    /// Whether a single thread serves, without rings.
    alone: bool,
}

impl Asked {
    /// Parses the parameters; `None` if they are invalid.
    fn read(words: &[String]) -> Option<Asked> {
        let (lines, shards, commands, batch, alone) = match words {
            [_, kind, lines, shards, commands, batch] if kind.as_str() == "threads" => {
                (number(lines)?, shards, commands, batch, false)
            }
            [_, kind, shards, commands, batch] if kind.as_str() == "alone" => {
                (1, shards, commands, batch, true)
            }
            _ => return None,
        };
        Some(Asked {
            lines,
            shards: usize::try_from(number(shards)?).ok()?,
            commands: number(commands)?,
            batch: number(batch)?,
            alone,
        })
    }
}

/// Parses a number.
pub fn number(word: &String) -> Option<u64> {
    number_u64(word.as_bytes()).ok()
}

impl<
    R: Threads
        + Wait
        + RandomSource
        + Files
        + time::Clock
        + Print
        + Alloc<A = Global>
        + Copy
        + Send
        + Drop
        + 'static,
> Server<R> {
    /// Serves the load with these parameters, and prints the result.
    pub fn measure(&self, words: &[String]) -> io::Result<()> {
        let rt = &self.rt;
        let Some(asked) = Asked::read(words) else {
            return println!(rt;
                "mc_trials threads LINES SHARDS COMMANDS BATCH | mc_trials alone SHARDS COMMANDS BATCH | mc_trials history LINES SHARDS COMMANDS SEED"
            );
        };
        let loads = Loads::new(self.alloc, asked.lines, asked.commands, asked.batch)?;
        let sizes = Sizes {
            shards: asked.shards,
            ..SIZES
        };
        let before = fs::read_to_string(rt, TOLD)?;
        let start = Instant::now(rt)?;
        let served = self.serve_load(loads.lines, sizes, asked.alone)?;
        let took = start.elapsed(rt)?;
        let after = fs::read_to_string(rt, TOLD)?;
        let Some(served) = served else {
            return println!(rt; "refused");
        };
        let wrong = wrong_among(served.as_slice(), loads.replies.as_slice());
        let commands = commands_of(served.as_slice());
        let nanoseconds = took.as_nanos();
        println!(rt; "commands {commands}\nwrong {wrong}\nnanoseconds {nanoseconds}")?;
        print!(rt; "before {before}after {after}")
    }

    /// Serves the lines by threads, or only the last one by a single thread, and returns them;
    /// `None` if the server refuses.
    fn serve_load(
        &self,
        lines: Vec<MemoryLine>,
        sizes: Sizes,
        alone: bool,
    ) -> io::Result<Option<Vec<ServedLine<MemoryLine>>>> {
        if !alone {
            return Ok(self.serve(lines, sizes));
        }
        let mut back = Vec::new(self.alloc);
        for line in lines {
            let Some(served) = self.serve_alone(line, sizes) else {
                return Ok(None);
            };
            back.push(served)?;
        }
        Ok(Some(back))
    }
}

/// Total number of commands of the lines.
fn commands_of(served: &[ServedLine<MemoryLine>]) -> u64 {
    let mut commands = 0u64;
    for one in served {
        commands = commands.saturating_add(one.commands);
    }
    commands
}
