//! Random commands for a line, on a few keys that all lines share.
use crate::text::split_line;
use mc_wire::{number_u64, words};
use std::alloc::{AllocError, Global};

/// Number of keys that are registers; the remaining ones are counters.
const REGISTERS: usize = 10;

/// Number of keys.
const KEYS: usize = 16;

/// A kind of command on a key.
#[derive(Clone, Copy, Debug, PartialEq, Eq)]
enum KeyCommand {
    Get,
    Gets,
    Set,
    Cas,
    Add,
    Delete,
    Incr,
}

/// Chooses the commands of a line.
#[derive(Drop)]
pub struct Chooser {
    alloc: Global,
    /// The line's number. No two lines store the same value.
    line: u64,
    /// Number of values made.
    values: u64,
    /// State of the random number generator.
    state: u64,
    /// The cas unique last seen of each key.
    uniques: [Option<u64>; KEYS],
    /// The kind of the last command, and its key.
    kind: KeyCommand,
    key: usize,
}

impl Chooser {
    /// A chooser for line number `line`. Each seed has another list of commands.
    pub fn new(alloc: Global, line: u64, seed: u64) -> Chooser {
        let mut chooser = Chooser {
            alloc,
            line,
            values: 0,
            state: seed.wrapping_mul(1_000_003).wrapping_add(line),
            uniques: [None; KEYS],
            kind: KeyCommand::Get,
            key: 0,
        };
        for _ in 0..10 {
            chooser.chance(1);
        }
        chooser
    }

    /// A random number below this one, from the high bits of a linear congruential generator
    /// (Knuth's MMIX).
    fn chance(&mut self, below: u64) -> u64 {
        self.state = self
            .state
            .wrapping_mul(6_364_136_223_846_793_005)
            .wrapping_add(1_442_695_040_888_963_407);
        (self.state >> 33) % below.max(1)
    }

    /// A value that no line stores twice. Those of counters are far apart.
    fn fresh(&mut self) -> Result<String, AllocError> {
        self.values = self.values.wrapping_add(1);
        let stamp = self.line.wrapping_mul(1_000_000).wrapping_add(self.values);
        if self.key < REGISTERS {
            format!(in self.alloc; "v{stamp}")
        } else {
            format!(in self.alloc; "{stamp}000000")
        }
    }

    /// The next command, as it is sent.
    pub fn next(&mut self) -> Result<String, AllocError> {
        self.key = usize::try_from(self.chance(16)).unwrap_or(0);
        let chance = self.chance(22);
        self.kind = if self.key < REGISTERS {
            of_register(chance)
        } else {
            of_counter(chance)
        };
        self.spell()
    }

    /// The text of the chosen command. A `cas` without a known unique becomes a `gets`.
    fn spell(&mut self) -> Result<String, AllocError> {
        let key = self.key;
        match self.kind {
            KeyCommand::Get => format!(in self.alloc; "get linear-{key}\r\n"),
            KeyCommand::Gets => format!(in self.alloc; "gets linear-{key}\r\n"),
            KeyCommand::Set => self.storage("set", ""),
            KeyCommand::Add => self.storage("add", ""),
            KeyCommand::Delete => format!(in self.alloc; "delete linear-{key}\r\n"),
            KeyCommand::Incr => {
                let by = self.chance(999).wrapping_add(1);
                format!(in self.alloc; "incr linear-{key} {by}\r\n")
            }
            KeyCommand::Cas => match self.uniques.get(key) {
                Some(Some(unique)) => {
                    let unique = format!(in self.alloc; " {unique}")?;
                    self.storage("cas", unique.as_str())
                }
                _ => {
                    self.kind = KeyCommand::Gets;
                    format!(in self.alloc; "gets linear-{key}\r\n")
                }
            },
        }
    }

    /// A command that stores a new value.
    fn storage(&mut self, name: &str, unique: &str) -> Result<String, AllocError> {
        let value = self.fresh()?;
        let (key, count) = (self.key, value.len());
        format!(in self.alloc; "{name} linear-{key} 0 0 {count}{unique}\r\n{value}\r\n")
    }

    /// Whether the reply to the last command is complete.
    pub fn is_whole(&self, reply: &[u8]) -> bool {
        match self.kind {
            KeyCommand::Get | KeyCommand::Gets => reply.ends_with(b"END\r\n"),
            _ => reply.ends_with(b"\r\n"),
        }
    }

    /// Records the unique in the reply to the last command.
    pub fn hears(&mut self, reply: &[u8]) {
        if self.kind != KeyCommand::Gets {
            return;
        }
        if let (Some(unique), Some(kept)) = (unique_of(reply), self.uniques.get_mut(self.key)) {
            *kept = Some(unique);
        }
    }
}

/// Maps a random number below 22 to a command on a register.
fn of_register(chance: u64) -> KeyCommand {
    match chance {
        0..=5 => KeyCommand::Get,
        6..=9 => KeyCommand::Gets,
        10..=13 => KeyCommand::Set,
        14..=17 => KeyCommand::Cas,
        18..=19 => KeyCommand::Add,
        _ => KeyCommand::Delete,
    }
}

/// Maps a random number below 22 to a command on a counter.
fn of_counter(chance: u64) -> KeyCommand {
    match chance {
        0..=6 => KeyCommand::Get,
        7..=15 => KeyCommand::Incr,
        16..=17 => KeyCommand::Set,
        18..=20 => KeyCommand::Add,
        _ => KeyCommand::Delete,
    }
}

/// The unique in the reply to `gets` of one key: the last word of `VALUE KEY FLAGS BYTES UNIQUE`.
fn unique_of(reply: &[u8]) -> Option<u64> {
    let (line, _) = split_line(reply);
    number_u64(words(line).nth(4)?).ok()
}
