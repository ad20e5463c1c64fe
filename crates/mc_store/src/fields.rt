//! What is known of an item besides its value.
ghost use Rattle.std.specs.Prelude.{◌≡◌};
ghost use Rattle.mc_item.specs.Expiry.{is_dead};
ghost use Rattle.mc_store.specs.internal.Stored.{fields_in, item_with};

use mc_item::{Item, PackedExpiry, Value};

/// An item without its value.
#[derive(Clone, Copy)]
pub struct Fields {
    /// The client's flags.
    pub flags: u32,
    /// It was fetched since it was stored.
    pub fetched: bool,
    /// It was marked stale, and not stored since.
    pub stale: bool,
    /// A client was asked to recompute it.
    pub sent: bool,
    pub expiry: PackedExpiry,
    /// The cas unique.
    pub unique: u64,
    /// The second at which it was last made the most recent one.
    pub last_access: u64,
}

impl Fields {
    /// The item's fields.
    #[inline(always)]
    pub fn of(item: &Item) -> Fields
        ensures { result ≡ fields_in item.now }
    {
        Fields {
            flags: item.flags,
            fetched: item.fetched,
            stale: item.stale,
            sent: item.sent,
            expiry: item.expiry,
            unique: item.unique,
            last_access: item.last_access,
        }
    }

    /// The item with these fields and a value.
    #[inline(always)]
    pub fn with_value(self, value: Value) -> Item
        ensures { result ≡ item_with self value }
    {
        Item {
            value,
            flags: self.flags,
            fetched: self.fetched,
            stale: self.stale,
            sent: self.sent,
            expiry: self.expiry,
            unique: self.unique,
            last_access: self.last_access,
        }
    }

    /// Whether the item is dead at the second `now`.
    #[inline(always)]
    pub fn is_dead(&self, now: u64) -> bool
        ensures { result ≡ is_dead self.now.expiry now }
    {
        self.expiry.is_dead(now)
    }
}
