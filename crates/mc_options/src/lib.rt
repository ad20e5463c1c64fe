//! The command line: what the program does, and with which sizes.
#![tactic(auto)]

mod address;
mod error;
mod options;
mod program;

pub use address::{listening_address, listening_path};
pub use error::OptionError;
pub use options::{Options, read_options};
