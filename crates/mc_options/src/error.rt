//! Errors of the command line.
ghost use Rattle.std.specs.Prelude.{◌≡◌};
ghost use Rattle.mc_options.specs.Faults.{status_of};

use clap::error::ErrorKind;
use std::io;
use std::io::{Eprint, Print};
use thiserror::Error;

/// Why a command line is invalid, or the help text that it requests. Options are named without
/// their dashes.
#[derive(Debug, Drop, Error)]
pub enum OptionError<'a> {
    /// An unknown option or a wrong use of one, or a request for help.
    #[error(transparent)]
    Call(#[from] clap::Error),
    /// `--items`: items are limited by their cost, not by their number.
    #[error("there is no option --items: limit the items of each shard by --bytes")]
    Items,
    /// An option that can't be combined with `--replay`.
    #[error("--{option} can't be used with --replay, which takes no other option")]
    NotOfReplay {
        option: &'static str,
    },
    /// An option of TCP servers, with `--stdio`.
    #[error("--{option} can't be used with --stdio, which takes only --at, --shards, --bytes, --memory, --memory-limit, --value-limit, --line-limit, --window and --drop-in")]
    NotOfStdio {
        option: &'static str,
    },
    /// An option that requires `--stdio`.
    #[error("--{option} needs --stdio")]
    NotOfTcp {
        option: &'static str,
    },
    /// More than one option sets the memory for items.
    #[error("use only one of --bytes (for each shard), --memory and --memory-limit (for all shards)")]
    TwoBudgets,
    /// Not a number, or out of its range.
    #[error("--{option} expects a number from {least} to {most}, not '{word}'")]
    Number {
        option: &'static str,
        word: &'a str,
        least: u64,
        most: u64,
    },
    /// Not a size in bytes, or out of its range.
    #[error("--{option} expects a size from {least} to {most} bytes, such as 64k, 64m or 4g, not '{word}'")]
    Size {
        option: &'static str,
        word: &'a str,
        least: u64,
        most: u64,
    },
    /// Not a file mode for a Unix socket.
    #[error("--unix-mask expects an octal mode from 0 to 777, not '{word}'")]
    Mode {
        word: &'a str,
    },
}

impl OptionError<'_> {
    /// The exit status: 0 for help, 1 if memory was refused, else 2.
    pub fn status(&self) -> u8
        ensures { result ≡ status_of self.now }
    {
        match self {
            OptionError::Call(error) => match error.kind() {
                ErrorKind::DisplayHelp => 0,
                ErrorKind::OutOfMemory => 1,
                _ => 2,
            },
            _ => 2,
        }
    }

    /// Prints the help to standard output, or the error to standard error.
    pub fn print<R: Print + Eprint>(&self, rt: &R) -> io::Result<()> {
        match self {
            OptionError::Call(error) if error.kind() == ErrorKind::OutOfMemory => {
                eprintln!(rt; "mcd: out of memory")
            }
            OptionError::Call(error) => error.print(rt),
            _ => eprintln!(rt; "mcd: {self}"),
        }
    }
}
