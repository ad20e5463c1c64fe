//! Gate: a hook that a worker calls before and after it runs pieces.
use mc_reply::Ticket;
use mc_store::Shard;

/// A hook of a worker. Tests use one to stop workers or to observe what they run; the server uses
/// one to publish counters.
pub trait Gate {
    /// Called before the shard of this number runs a piece of the command of this ticket.
    fn before(&self, shard: usize, ticket: Ticket);

    /// Called after the shard of this number has run all pieces that were there, to read its
    /// contents and counts. Does nothing by default.
    fn after(&self, _number: usize, _shard: &Shard) {}
}

/// A gate that does nothing.
#[derive(Clone, Copy)]
pub struct OpenGate;

impl Gate for OpenGate {
    fn before(&self, _shard: usize, _ticket: Ticket) {}
}
