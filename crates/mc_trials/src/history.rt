//! The history of lines that use the same few keys: the commands of each, their replies, and their
//! times.
use crate::asking::Asking;
use crate::chooser::Chooser;
use crate::gates::Come;
use crate::measured::{SIZES, number};
use crate::server::{MOMENT, Server};
use mc_server::FixedClock;
use mc_sizes::Sizes;
use mc_worker::OpenGate;
use std::alloc::{AllocError, Global};
use std::io;
use std::io::Print;
use std::random::RandomSource;
use std::sync::atomic::AtomicU64;
use std::sync::{Arc, Wait};
use std::thread::Threads;

/// The parameters: number of lines, shards and commands of each line, and the random seed.
#[derive(Clone, Copy)]
pub struct Asked {
    lines: u64,
    shards: usize,
    commands: u64,
    seed: u64,
}

impl Asked {
    /// Parses the parameters; `None` if they are invalid.
    pub fn read(words: &[String]) -> Option<Asked> {
        let [lines, shards, commands, seed] = words else {
            return None;
        };
        Some(Asked {
            lines: number(lines)?,
            shards: usize::try_from(number(shards)?).ok()?,
            commands: number(commands)?,
            seed: number(seed)?,
        })
    }
}

impl<
    R: Threads + Wait + RandomSource + Print + Alloc<A = Global> + Copy + Send + Drop + 'static,
> Server<R> {
    /// Serves lines that wait for each reply, and prints their histories, each behind a row with
    /// the line's number.
    pub fn tell_history(&self, asked: Asked) -> io::Result<()> {
        let rt = &self.rt;
        let sizes = Sizes {
            shards: asked.shards,
            ..SIZES
        };
        let lines = self.asking(asked)?;
        let Some(served) = self.serve_by(lines, sizes, OpenGate, FixedClock(MOMENT)) else {
            return println!(rt; "refused");
        };
        for (number, one) in served.into_iter().enumerate() {
            let history = String::from_utf8(one.line.into_history()).unwrap_or(String::new(
                self.alloc,
            ));
            print!(rt; "line {number}\n{history}")?;
        }
        Ok(())
    }

    /// The lines, with a common clock.
    fn asking(&self, asked: Asked) -> Result<Vec<Asking>, AllocError> {
        let moments: Come = Arc::new(self.alloc, AtomicU64::new(0))?;
        let mut lines = Vec::new(self.alloc);
        for number in 0..asked.lines {
            let chooser = Chooser::new(self.alloc, number, asked.seed);
            lines.push(Asking::new(self.alloc, chooser, &moments, asked.commands)?)?;
        }
        Ok(lines)
    }
}
