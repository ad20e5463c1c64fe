//! The server: threads that serve connection slots and shards by an event loop each. A slot serves
//! the connections of its source, one after another. A connection is a socket, or a line in memory
//! for tests.
#![tactic(auto)]

mod connection_slot;
mod error;
mod idle_reaper;
mod outcome;
mod over;
mod placed_line;
mod reactor;
mod recorded;
mod serving;
mod settling;
mod shard_telemetry;
mod slot_table;
mod streams;
mod tcp;

pub use error::ServeError;
pub use outcome::Outcome;
pub use over::{Report, serve_over};
pub use placed_line::PlacedLine;
pub use serving::serve;
pub use streams::serve_streams;
pub use tcp::serve_tcp;
