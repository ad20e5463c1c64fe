//! What a shard keeps under a key.
ghost use Rattle.std.specs.Prelude.{◌≡◌, ◌+◌, ◌≤◌, length, IfOk};
ghost use Rattle.mc_item.specs.Expiry.{is_dead, seconds_left};
ghost use Rattle.mc_item.specs.Value.{number_in, joined};

use crate::memory::NoMemory;
use crate::packed::PackedExpiry;
use crate::value::Value;
use mc_wire::MAX_VALUE_LIMIT;
use std::alloc::{AllocError, Global};

/// When an item dies (protocol.txt, "Expiration times").
#[derive(Clone, Copy, Debug, PartialEq, Eq)]
pub enum Expiry {
    Never,
    /// It is dead from this second on.
    At(u64),
}

/// An item. Its key is the map's.
#[derive(Drop)]
pub struct Item {
    pub value: Value,
    /// The client's flags.
    pub flags: u32,
    /// It was fetched since it was stored.
    pub fetched: bool,
    /// It was marked stale, and not stored since.
    pub stale: bool,
    /// A client was asked to recompute it.
    pub sent: bool,
    pub expiry: PackedExpiry,
    /// The cas unique.
    pub unique: u64,
    /// The second at which it was last made the most recent one.
    pub last_access: u64,
}

impl Expiry {
    /// Whether the second `now` is at or past it.
    #[tactic(auto, unfolding(crate::specs::Expiry::is_dead))]
    pub fn is_dead(self, now: u64) -> bool
        ensures { result ≡ is_dead self now }
    {
        match self {
            Expiry::Never => false,
            Expiry::At(second) => second <= now,
        }
    }

    /// The seconds that are left at the second `now`, 0 where it is past; none is never.
    #[tactic(auto, unfolding(crate::specs::Expiry::seconds_left))]
    pub fn seconds_left(self, now: u64) -> Option<u64>
        ensures { result ≡ seconds_left self now }
    {
        match self {
            Expiry::Never => None,
            Expiry::At(second) => Some(second.saturating_sub(now)),
        }
    }
}

impl Item {
    /// Whether the item is dead at the second `now`.
    pub fn is_dead(&self, now: u64) -> bool
        ensures { result ≡ is_dead self.now.expiry now }
    {
        self.expiry.is_dead(now)
    }

    /// The number that the item's value holds, if it is one.
    pub fn number(&self) -> Option<u64>
        ensures { result ≡ number_in self.now.value }
    {
        self.value.number()
    }

    /// The item's value with the block after it or before it. The item stays as it is.
    pub fn joined(&self, alloc: Global, block: &Value, after: bool) -> Result<Value, NoMemory>
        requires { length self.now.value + length block.now ≤ MAX_VALUE_LIMIT }
        ensures { IfOk result (λ value. value ≡ joined self.now.value block.now after) }
    {
        self.value.joined(alloc, block, after)
    }
}

impl Clone for Item {
    ghost is_clone = { λ item copy. copy ≡ item };

    fn clone(&self) -> Result<Item, AllocError> {
        Ok(Item {
            value: self.value.clone()?,
            flags: self.flags,
            fetched: self.fetched,
            stale: self.stale,
            sent: self.sent,
            expiry: self.expiry,
            unique: self.unique,
            last_access: self.last_access,
        })
    }
}
