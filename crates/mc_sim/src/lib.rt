//! The simulator: the server's real connections, rings, workers and shards in one thread, driven by
//! one event at a time. Each step is an event of the model in `mc_model`.
#![tactic(auto)]

mod sim;

pub use sim::{Connection, LogEntry, Sim, SimError};
