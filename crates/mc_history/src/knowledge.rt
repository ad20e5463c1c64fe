//! What a token knows. No value of these types is ever made.
use crate::event::Event;
use mc_sizes::Sizes;
use std::collections::LinkedList;

/// Whose events a token may append.
pub enum Role {
    /// Nobody's.
    Reader,
    /// Those of the connections on this slot.
    Seat { number: usize },
    /// Those of this shard.
    Shard { index: usize },
    /// Those of the slots from number `seats` on, and of the shards from number `shards` on.
    Rest { seats: usize, shards: usize },
}

/// A token's knowledge of the history.
pub struct Knowledge {
    pub sizes: Sizes,
    pub role: Role,
    /// Everything that had happened at its last look.
    pub seen: LinkedList<Event>,
    /// What another token had seen, received as evidence since its last look.
    pub heard: LinkedList<Event>,
}
