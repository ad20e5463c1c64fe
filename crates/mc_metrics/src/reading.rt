//! The state of a server at one time, as input of metrics and page.
use crate::process::Process;
use mc_telemetry::Totals;

/// Configuration of the server.
#[derive(Clone, Copy)]
pub struct Facts {
    /// Version of the program.
    pub version: &'static str,
    /// The ports at which it listens for clients, each once, that of the first place first.
    pub ports: &'static [u16],
    /// Number of shards, each with a thread.
    pub shards: u64,
    /// Number of connection slots.
    pub seats: u64,
    /// Memory budget of all shards together, in bytes.
    pub limit_bytes: u64,
    /// Start time, in seconds since 1970.
    pub started: u64,
}

/// The state of a server at one time.
#[derive(Clone, Copy)]
pub struct Reading {
    /// Its configuration.
    pub facts: Facts,
    /// Totals of its threads.
    pub totals: Totals,
    /// Number of connections in the listen backlog.
    pub waiting: u64,
    /// Uptime in seconds.
    pub uptime: u64,
    /// Resource usage of its process.
    pub process: Process,
}
