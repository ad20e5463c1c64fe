//! The worker of a shard: it takes pieces from the channels of the seats, runs them and sends the
//! replies. A gate is called before each piece, and a scribe may record what was run.
#![tactic(auto)]

mod gate;
mod scribe;
mod worker;

pub use gate::{Gate, OpenGate};
pub use scribe::Scribe;
pub use worker::{Served, Turn, Worker};
