//! A map in the order of last use that grows in parts: while it does, it is two.
//!
//! A table that is full is left as it is, and a larger one is made for what is used or stored from
//! then on. Each store moves a few items there, until the older table is empty.
ghost use Rattle.std.specs.Prelude.{◌≡◌, ◌+◌, ◌-◌, ◌<◌, [], false, length, None, take, OnOk, OnErr, IfOk, IfErr, IsOk};
ghost use Rattle.std.specs.NonZero.{non_zero_usize_get};
ghost use Rattle.std.specs.Borrow.{sem};
ghost use Rattle.std.specs.Option.{IsSome, option_copied, option_copied_mut};
ghost use Rattle.std.specs.Map.{lookup, remove_entry, set_value};
ghost use Rattle.lru.specs.LruCache.{last_entry, lru_cache, promoted, put_entries};
ghost use Rattle.mc_wire.specs.SameKey.{same_key};
ghost use Rattle.mc_store.specs.internal.Growing.{entries_of};

use crate::flushed::{Entries, ItemMap};
use crate::hashing::PolynomialState;
use crate::stored::Stored;
use lru::LruCache;
use mc_wire::Key;
use std::alloc::{AllocError, AllocFailed, Global};
use std::marker::Model;
use std::mem;
use std::num::NonZeroUsize;

/// The first table grows at once up to this many items: 2^16 groups of nine.
const FIRST_ROOM: usize = 589_824;

/// The first table has room for one of this many items that fit the budget, at most.
const FIRST_PART: usize = 16;

/// How many items a store moves from the older map to the recent one.
const MOVED_ITEMS: usize = 4;

/// What is known of each item, by key.
///
/// The order of last use is that of the recent map, and then that of the older one.
pub struct GrowingMap {
    /// The items used most recently.
    recent: ItemMap,
    /// The others, in a smaller table, until each was moved.
    older: ItemMap,
    /// How many items there may be.
    cap: NonZeroUsize,
    hashing: PolynomialState,
}

/// Puts what is known of an item under a key that is not there. Where memory is refused nothing
/// changes.
///
/// The map's `put` is called by `put_recent` alone, so that a store has it inlined.
fn add(map: &mut ItemMap, key: Key, stored: Stored) -> Result<(), AllocError>
    requires { lookup (same_key key) map.old.entries ≡ None }
    ensures put { OnOk result (map.new ≡
        lru_cache (put_entries same_key map.old key stored) map.old.cap) }
    ensures err { OnErr result (map.new ≡ map.old) }
{
    let _added = map.get_or_insert(key, || stored)?;
    Ok(())
}

/// Makes room for one item more where the map is full. Its table then grows at once: that takes as
/// many refused moves as it has room.
fn widen(map: &mut ItemMap)
    ensures entries { map.new.entries ≡ map.old.entries }
    ensures room { length map.new.entries < map.new.cap }
{
    let cap = map.cap().get();
    if map.len() >= cap {
        map.resize(NonZeroUsize::new(cap.saturating_mul(2)).unwrap());
    }
}

impl Drop for GrowingMap {
    /// By hand, so that its drop is one call for its owner (docs/DECISIONS.md).
    fn drop(self) {
        let GrowingMap {
            recent: _recent,
            older: _older,
            cap: _,
            hashing: _,
        } = self;
    }
}

impl Model for GrowingMap {
    ghost use Rattle.std.specs.NonZero.{non_zero_usize_get};
    ghost use Rattle.mc_store.specs.internal.Growing.{AreApart, GrowingEntries};

    ghost Value = { GrowingEntries };

    ghost view = { λ map.
        record { recent = map.recent; older = map.older; cap = non_zero_usize_get map.cap } };

    ghost invariant = { λ map. AreApart map.recent.entries map.older.entries };
}

impl Entries for GrowingMap {
    ghost count = { λ map. length (entries_of map) };

    fn count(&self) -> usize {
        self.len()
    }

    fn free_one(&mut self) {
        let _freed = self.pop_lru();
    }
}

impl GrowingMap {
    ghost use Rattle.mc_store.specs.internal.GrowingLends.{LendsUsed};

    /// No items, of which there may be `cap`.
    pub fn new(
        alloc: Global,
        cap: NonZeroUsize,
        hashing: PolynomialState,
    ) -> Result<GrowingMap, AllocError>
        ensures none { IfOk result (λ map. entries_of map ≡ []) }
        ensures cap { IfOk result (λ map. map.cap ≡ non_zero_usize_get cap) }
    {
        let mut recent = LruCache::unbounded_with_hasher(alloc, hashing)?;
        let older = LruCache::unbounded_with_hasher(alloc, hashing)?;
        let room = NonZeroUsize::new((cap.get() / FIRST_PART).clamp(1, FIRST_ROOM)).unwrap();
        recent.resize(room);
        Ok(GrowingMap {
            recent,
            older,
            cap,
            hashing,
        })
    }

    /// How many items there are.
    pub fn len(&self) -> usize
        ensures { result ≡ length (entries_of self.now) }
    {
        self.recent.len() + self.older.len()
    }

    /// How many items there may be.
    pub fn cap(&self) -> NonZeroUsize
        ensures { non_zero_usize_get result ≡ self.now.cap }
    {
        self.cap
    }

    /// The allocator of the items.
    pub fn allocator(&self) -> &Global {
        self.recent.allocator()
    }

    /// Whether some items are not yet in the larger table.
    #[inline(always)]
    pub fn is_growing(&self) -> bool
        ensures { result ≡ false → self.now.older.entries ≡ [] }
    {
        !self.older.is_empty()
    }

    /// What is known of the item under the key.
    #[inline(always)]
    pub fn peek(&self, key: &Key) -> Option<&Stored>
        ensures { option_copied result ≡ lookup (same_key key.now) (entries_of self.now) }
    {
        match self.recent.peek(key) {
            Some(stored) => Some(stored),
            None => self.peek_older(key),
        }
    }

    /// What is known of the item under the key, where it is one of the older ones.
    #[inline(always)]
    fn peek_older(&self, key: &Key) -> Option<&Stored>
        ensures { option_copied result ≡ lookup (same_key key.now) self.now.older.entries }
    {
        if self.older.is_empty() {
            return None;
        }
        self.older.peek(key)
    }

    /// What is known of the item under the key, to write to, and makes the item the most recently
    /// used one. It is not among the older ones: `bring` sees to that.
    #[inline(always)]
    pub fn get_mut(&mut self, key: &Key) -> Option<&mut Stored>
        requires { lookup (same_key key.now) self.old.older.entries ≡ None }
        ensures* writes_back { sem 𝓛 (LendsUsed (same_key key.now) self.entry result) }
        ensures value { option_copied_mut result ≡ lookup (same_key key.now) (entries_of self.old) }
    {
        self.recent.get_mut(key)
    }

    /// Sees that the item under the key is not among the older ones: one that is becomes the most
    /// recently used one. Where memory is refused the items and their order stay the same.
    #[inline(always)]
    pub fn bring(&mut self, key: &Key) -> Result<(), AllocError>
        ensures recent { OnOk result (lookup (same_key key.now) self.new.older.entries ≡ None) }
        ensures found { OnOk result (lookup (same_key key.now) (entries_of self.new) ≡
            lookup (same_key key.now) (entries_of self.old)) }
        ensures promoted { OnOk result (promoted (same_key key.now) (entries_of self.new) ≡
            promoted (same_key key.now) (entries_of self.old)) }
        ensures none { lookup (same_key key.now) (entries_of self.old) ≡ None →
            self.new ≡ self.old }
        ensures err { OnErr result (entries_of self.new ≡ entries_of self.old) }
        ensures cap { self.new.cap ≡ self.old.cap }
    {
        if self.is_growing() {
            return self.fetch(key);
        }
        Ok(())
    }

    /// Moves the item under the key out of the older map, and makes it the most recently used one.
    /// An item that is not there stays where it is. Where memory is refused the items and their order
    /// stay the same.
    #[cold]
    #[inline(never)]
    fn fetch(&mut self, key: &Key) -> Result<(), AllocError>
        ensures recent { OnOk result (lookup (same_key key.now) self.new.older.entries ≡ None) }
        ensures found { OnOk result (lookup (same_key key.now) (entries_of self.new) ≡
            lookup (same_key key.now) (entries_of self.old)) }
        ensures promoted { OnOk result (promoted (same_key key.now) (entries_of self.new) ≡
            promoted (same_key key.now) (entries_of self.old)) }
        ensures none { lookup (same_key key.now) (entries_of self.old) ≡ None →
            self.new ≡ self.old }
        ensures err { OnErr result (entries_of self.new ≡ entries_of self.old) }
        ensures cap { self.new.cap ≡ self.old.cap }
    {
        let Some(found) = self.older.peek(key) else {
            return Ok(());
        };
        let stored = *found;
        let _older = self.older.len();
        let copy = key.clone()?;
        widen(&mut self.recent);
        add(&mut self.recent, copy, stored)?;
        let _moved = self.older.pop(key);
        Ok(())
    }

    /// Moves the most recently used one of the older items behind the recent ones, so that the order
    /// stays the same. Where memory is refused nothing changes.
    fn move_one(&mut self) -> Result<(), AllocError>
        ensures entries { entries_of self.new ≡ entries_of self.old }
        ensures cap { self.new.cap ≡ self.old.cap }
        ensures moved { OnOk result
            (length self.new.older.entries ≡ length self.old.older.entries - 1) }
    {
        let Some((key, found)) = self.older.peek_mru() else {
            return Ok(());
        };
        let stored = *found;
        let _older = self.older.len();
        let copy = key.clone()?;
        let last = key.clone()?;
        widen(&mut self.recent);
        add(&mut self.recent, copy, stored)?;
        let _is_there = self.recent.demote(&last);
        let _moved = self.older.pop_mru();
        Ok(())
    }

    /// Moves some of the older items behind the recent ones, or all if there are fewer, and frees the
    /// older table once it is empty. Where memory is refused the rest stays.
    #[cold]
    #[inline(never)]
    fn move_some(&mut self)
        ensures entries { entries_of self.new ≡ entries_of self.old }
        ensures cap { self.new.cap ≡ self.old.cap }
    {
        for _ in 0..MOVED_ITEMS {
            let _refused = self.move_one();
        }
        self.free_table();
    }

    /// Frees the older table, where no item is left in it.
    fn free_table(&mut self)
        ensures entries { entries_of self.new ≡ entries_of self.old }
        ensures cap { self.new.cap ≡ self.old.cap }
    {
        if self.older.is_empty() {
            self.older.resize(NonZeroUsize::MIN);
        }
    }

    /// Makes a table of twice the size for what is used or stored from then on.
    fn grow(&mut self) -> Result<(), AllocError>
        requires { self.old.older.entries ≡ [] }
        ensures recent { OnOk result (self.new.recent.entries ≡ []) }
        ensures room { OnOk result (0 < self.new.recent.cap) }
        ensures older { OnOk result (self.new.older.entries ≡ self.old.recent.entries) }
        ensures err { OnErr result (self.new ≡ self.old) }
        ensures cap { self.new.cap ≡ self.old.cap }
    {
        let room = NonZeroUsize::new(self.recent.cap().get().saturating_mul(2)).unwrap();
        let larger = LruCache::with_hasher(*self.recent.allocator(), room, self.hashing)?;
        self.older = mem::replace(&mut self.recent, larger);
        Ok(())
    }

    /// Sees that the recent map has room for the key, which is not in the older one. Where memory is
    /// refused nothing changes.
    fn make_room(&mut self, key: &Key) -> Result<(), AllocError>
        requires { lookup (same_key key.now) self.old.older.entries ≡ None }
        ensures entries { OnOk result (entries_of self.new ≡ entries_of self.old) }
        ensures apart { OnOk result (lookup (same_key key.now) self.new.older.entries ≡ None) }
        ensures room { OnOk result (lookup (same_key key.now) self.new.recent.entries ≡ None →
            length self.new.recent.entries < self.new.recent.cap) }
        ensures err { OnErr result (self.new ≡ self.old) }
        ensures absent { OnErr result (lookup (same_key key.now) (entries_of self.old) ≡ None) }
        ensures cap { self.new.cap ≡ self.old.cap }
    {
        if !self.is_full() {
            return Ok(());
        }
        if self.recent.contains(key) {
            return Ok(());
        }
        if self.is_growing() {
            widen(&mut self.recent);
            return Ok(());
        }
        self.grow()
    }

    /// Puts what is known of the item under the key into the recent map, which has room for it. Where
    /// memory is refused nothing changes, and the key is returned.
    #[inline(always)]
    fn put_recent(&mut self, key: Key, stored: Stored) -> Result<Option<Stored>, Key>
        requires absent { lookup (same_key key) self.old.older.entries ≡ None }
        requires recent { lookup (same_key key) self.old.recent.entries ≡ None →
            length self.old.recent.entries < self.old.recent.cap }
        requires room { lookup (same_key key) (entries_of self.old) ≡ None →
            length (entries_of self.old) < self.old.cap }
        ensures old { IfOk result
            (λ old. old ≡ lookup (same_key key) (entries_of self.old)) }
        ensures put { OnOk result (entries_of self.new ≡
            put_entries same_key (lru_cache (entries_of self.old) self.old.cap) key stored) }
        ensures err { OnErr result (self.new ≡ self.old) }
        ensures key { IfErr result (λ returned. returned ≡ key) }
        ensures cap { self.new.cap ≡ self.old.cap }
        ensures succeeds { IsSome (lookup (same_key key) (entries_of self.old)) → IsOk result }
    {
        let refused = match self.recent.put(key, stored) {
            Ok(old) => return Ok(old),
            Err(refused) => refused,
        };
        let AllocFailed {
            value: (key, _stored),
        } = refused;
        Err(key)
    }

    /// Whether the recent map has no room for one item more.
    fn is_full(&self) -> bool
        ensures { result ≡ false → length self.now.recent.entries < self.now.recent.cap }
    {
        self.recent.len() >= self.recent.cap().get()
    }

    /// Puts what is known of the item under the key, as the most recently used one, and returns what
    /// was there. Where memory is refused the items and their order stay the same, and the key is
    /// returned.
    #[inline(always)]
    pub fn put(&mut self, key: Key, stored: Stored) -> Result<Option<Stored>, Key>
        requires { length (entries_of self.old) < self.old.cap }
        ensures old { IfOk result
            (λ old. old ≡ lookup (same_key key) (entries_of self.old)) }
        ensures put { OnOk result (entries_of self.new ≡
            put_entries same_key (lru_cache (entries_of self.old) self.old.cap) key stored) }
        ensures err { OnErr result (entries_of self.new ≡ entries_of self.old) }
        ensures key { IfErr result (λ returned. returned ≡ key) }
        ensures cap { self.new.cap ≡ self.old.cap }
    {
        let Ok(()) = self.prepare(&key) else {
            return Err(key);
        };
        self.put_recent(key, stored)
    }

    /// Sees that the recent map has room for the key, and that the older one has no item under it:
    /// one that is there becomes the most recently used one. Where memory is refused the items and
    /// their order stay the same.
    #[inline(always)]
    fn prepare(&mut self, key: &Key) -> Result<(), AllocError>
        ensures absent { OnOk result (lookup (same_key key.now) self.new.older.entries ≡ None) }
        ensures room { OnOk result (lookup (same_key key.now) self.new.recent.entries ≡ None →
            length self.new.recent.entries < self.new.recent.cap) }
        ensures found { OnOk result (lookup (same_key key.now) (entries_of self.new) ≡
            lookup (same_key key.now) (entries_of self.old)) }
        ensures promoted { OnOk result (promoted (same_key key.now) (entries_of self.new) ≡
            promoted (same_key key.now) (entries_of self.old)) }
        ensures none { OnOk result (lookup (same_key key.now) (entries_of self.old) ≡ None →
            entries_of self.new ≡ entries_of self.old) }
        ensures err { OnErr result (entries_of self.new ≡ entries_of self.old) }
        ensures cap { self.new.cap ≡ self.old.cap }
    {
        if self.is_growing() {
            return self.continue_growth(key);
        }
        if self.is_full() {
            return self.continue_growth(key);
        }
        Ok(())
    }

    /// Moves some of the older items, and then does what `prepare` does.
    #[cold]
    #[inline(never)]
    fn continue_growth(&mut self, key: &Key) -> Result<(), AllocError>
        ensures absent { OnOk result (lookup (same_key key.now) self.new.older.entries ≡ None) }
        ensures room { OnOk result (lookup (same_key key.now) self.new.recent.entries ≡ None →
            length self.new.recent.entries < self.new.recent.cap) }
        ensures found { OnOk result (lookup (same_key key.now) (entries_of self.new) ≡
            lookup (same_key key.now) (entries_of self.old)) }
        ensures promoted { OnOk result (promoted (same_key key.now) (entries_of self.new) ≡
            promoted (same_key key.now) (entries_of self.old)) }
        ensures none { OnOk result (lookup (same_key key.now) (entries_of self.old) ≡ None →
            entries_of self.new ≡ entries_of self.old) }
        ensures err { OnErr result (entries_of self.new ≡ entries_of self.old) }
        ensures cap { self.new.cap ≡ self.old.cap }
    {
        self.move_some();
        self.fetch(key)?;
        self.make_room(key)?;
        Ok(())
    }

    /// Sets what is known of the item under the key, which stays where it is.
    pub fn set(&mut self, key: &Key, stored: Stored)
        ensures entries { entries_of self.new ≡
            set_value (same_key key.now) (entries_of self.old) stored }
        ensures cap { self.new.cap ≡ self.old.cap }
    {
        if let Some(there) = self.recent.peek_mut(key) {
            *there = stored;
            return;
        }
        let Some(there) = self.older.peek_mut(key) else {
            return;
        };
        *there = stored;
    }

    /// Takes the item under the key out.
    pub fn pop(&mut self, key: &Key) -> Option<Stored>
        ensures value { result ≡ lookup (same_key key.now) (entries_of self.old) }
        ensures entries { entries_of self.new ≡
            remove_entry (same_key key.now) (entries_of self.old) }
        ensures cap { self.new.cap ≡ self.old.cap }
    {
        match self.recent.pop(key) {
            Some(stored) => Some(stored),
            None => self.older.pop(key),
        }
    }

    /// Takes the least recently used item out.
    pub fn pop_lru(&mut self) -> Option<(Key, Stored)>
        ensures value { result ≡ last_entry (entries_of self.old) }
        ensures entries { entries_of self.new ≡
            take (length (entries_of self.old) - 1) (entries_of self.old) }
        ensures cap { self.new.cap ≡ self.old.cap }
    {
        if self.older.is_empty() {
            return self.recent.pop_lru();
        }
        self.older.pop_lru()
    }

    /// Takes all items out.
    pub fn clear(&mut self)
        ensures entries { entries_of self.new ≡ [] }
        ensures cap { self.new.cap ≡ self.old.cap }
    {
        self.recent.clear();
        self.older.clear();
    }
}
