//! The report on all connections.
use mc_history::Evidence;
use mc_net::{ClosedConnection, Stream};
use mc_poll::GhostLog;

/// The connections that were served and have ended, by slot.
#[derive(Drop)]
pub struct Outcome<S: Stream> {
    /// Their number; it saturates.
    pub ended: u64,
    /// Those of each slot, in order. Contracts alone see the lists; they take no memory.
    pub seats: GhostLog<GhostLog<ClosedConnection<S, Evidence>, ()>, ()>,
    /// Evidence of the history in which they were served.
    pub evidence: Evidence,
}
