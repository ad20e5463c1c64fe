//! The sequence number of a command on its connection.

/// The index of a command in its connection's list of commands, from 0.
#[derive(Clone, Copy, Debug, PartialEq, Eq)]
pub struct Ticket(pub u64);
