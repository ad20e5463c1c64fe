//! A server of one line without threads, and clocks.
#![tactic(auto)]

mod clocks;
mod line_history;
mod serve;

pub use clocks::{FixedClock, MachineClock};
pub use line_history::open_one;
pub use serve::{LineError, serve_one};
