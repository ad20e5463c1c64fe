//! Events of the model, and the result of a step.

/// An event of a slot's connection, of a shard, or of both.
#[derive(Drop)]
pub enum Event {
    /// Opens a new connection on the slot, if it has had none or the last one may be replaced.
    Open { seat: usize },
    /// Feeds bytes to the connection.
    Feed { seat: usize, bytes: Vec<u8> },
    /// Parses the next command at this time, in seconds since 1970.
    Take { seat: usize, moment: u64 },
    /// Sends the oldest unsent piece to its shard's ring.
    Send { seat: usize },
    /// The shard takes the oldest piece that the slot sent, and runs it.
    Pop { shard: usize, seat: usize },
    /// The shard sends the reply that its worker holds.
    Give { shard: usize },
    /// The slot receives the oldest reply that the shard sent.
    Receive { seat: usize, shard: usize },
    /// Writes the replies that are due.
    Hand { seat: usize },
    /// Ends the connection's input.
    End { seat: usize },
    /// The connection fails.
    Break { seat: usize },
}

/// The result of an event.
#[derive(Clone, Copy, Debug, PartialEq, Eq)]
pub enum StepReply {
    /// It was done.
    Done,
    /// It was not enabled. Nothing changed.
    Idle,
    /// It was enabled, but memory was refused. Nothing changed.
    NoMemory,
}
