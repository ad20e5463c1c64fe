//! What a thread does for its seats and its workers: sessions that carry pieces and replies over the
//! channels, and a worker's turns.
#![tactic(auto)]

mod session;
mod shard_link;
mod workers;
mod working;

pub use session::Session;
pub use shard_link::ShardLink;
pub use workers::make_recorded_workers;
pub use working::Working;
