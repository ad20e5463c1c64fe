//! The items of a shard, in the order of their last use, and what they cost.
ghost use Rattle.std.specs.Prelude.{◌≡◌, ◌+◌, ◌<◌, ◌≤◌, ◌^◌, [], true, false, length, Some, IfErr, IfNone, IfOk, IfSome, OnOk, OnErr};
ghost use Rattle.std.specs.Option.{IsSome, option_map};
ghost use Rattle.std.specs.Map.{lookup, remove_entry, set_value};
ghost use Rattle.lru.specs.LruCache.{promoted};
ghost use Rattle.mc_wire.specs.SameKey.{same_key};
ghost use Rattle.mc_item.specs.declared.item.Item.{Item as TheItem};
ghost use Rattle.mc_store.specs.State.{item_overhead, cost};
ghost use Rattle.mc_store.specs.Step.{is_other};
ghost use Rattle.mc_store.specs.internal.Access.{met, read_shelf, seen_shelf};
ghost use Rattle.mc_store.specs.internal.Listed.{FitsBudget, listed_cost, put_in, within};
ghost use Rattle.mc_store.specs.internal.Stored.{fields_in};

use crate::ITEM_OVERHEAD;
use crate::access::{Access, Use};
use crate::fields::Fields;
use crate::item_cache::{ItemCache, Staling};
use crate::reserve::Reserve;
use mc_item::{Item, NoMemory, Value};
use mc_sizes::{MAX_BUDGET, MIN_BUDGET};
use mc_wire::{KEY_LIMIT, Key, LATEST_MOMENT};
use std::alloc::{AllocError, Global};
use std::hash::RandomState;
use std::marker::Model;

/// The items of a shard, the most recently used first, which cost no more than its budget together.
#[derive(Drop)]
pub struct Items {
    cache: ItemCache,
    /// What they cost together, in bytes.
    cost: usize,
    /// How many were evicted. The count starts again at 0 after 2^64 - 1.
    evicted: u64,
    /// For a value that is read while memory is refused. None is left once it was used, and where
    /// no memory was found for it.
    reserve: Option<Reserve>,
}

impl Model for Items {
    ghost use Rattle.std.specs.Prelude.{◌≡◌, ◌+◌, ◌/◌, ◌≤◌};
    ghost use Rattle.mc_store.specs.Shelf.{Shelf};
    ghost use Rattle.mc_store.specs.internal.Listed.{IsCounted};

    ghost Value = { Shelf };

    ghost view = { λ items.
        record {
          entries = items.cache.entries;
          budget = items.cache.budget;
          evicted = items.evicted;
        } };

    ghost invariant = { λ items.
        IsCounted items.cache.entries items.cache.cap items.cost items.cache.budget };
}

/// Whether a unique is asked for that is not this one.
pub fn is_other(compare: Option<u64>, unique: u64) -> bool
    ensures { result ≡ is_other compare unique }
{
    match compare {
        Some(asked) => unique != asked,
        None => false,
    }
}

/// What an item costs with a key of `key_length` bytes and a value of `value_length` bytes, in
/// bytes.
pub fn cost_of(key_length: usize, value_length: usize) -> usize
    requires { key_length + value_length + item_overhead < 2 ^ 64 }
    ensures { result ≡ key_length + value_length + item_overhead }
{
    key_length + value_length + ITEM_OVERHEAD
}

/// What an item under a key of `key_length` bytes cost, in bytes, whose value had the length `old`;
/// nothing where there was none.
fn freed_by(old: Option<usize>, key_length: usize) -> usize
    requires { IfSome old (λ length. key_length + length + item_overhead < 2 ^ 64) }
    ensures some { IfSome old (λ length. result ≡ key_length + length + item_overhead) }
    ensures none { IfNone old (result ≡ 0) }
{
    match old {
        Some(length) => cost_of(key_length, length),
        None => 0,
    }
}

/// Evicts the least recently used items, as long as the rest cost more than the budget. Returns
/// what the rest cost, in bytes.
fn evict(cache: &mut ItemCache, cost: usize) -> usize
    requires { cost ≡ listed_cost cache.old.entries }
    ensures left { cache.new ≡
        record cache.old { entries = within cache.old.budget cache.old.entries } }
    ensures counted { result ≡ listed_cost (within cache.old.budget cache.old.entries) }
{
    let budget = cache.budget();
    let mut left = cost;
    while left > budget {
        let Some((key, length)) = cache.pop_lru() else {
            break;
        };
        left -= cost_of(key.bytes().len(), length);
    }
    left
}

impl Items {
    /// No items, which may cost `budget` bytes together. Before they come they take address space
    /// alone. They are hashed under words that are drawn from the random state.
    pub fn new(alloc: Global, hasher: RandomState, budget: usize) -> Result<Items, AllocError>
        requires least { MIN_BUDGET ≤ budget }
        requires most { budget ≤ MAX_BUDGET }
        ensures { IfOk result
            (λ items. items ≡ record { entries = []; budget = budget; evicted = 0 }) }
    {
        let cache = ItemCache::new(alloc, hasher, budget)?;
        Ok(Items {
            cache,
            cost: 0,
            evicted: 0,
            reserve: Reserve::new(alloc).ok(),
        })
    }

    /// How many items there are.
    pub fn len(&self) -> usize
        ensures { result ≡ length self.now.entries }
    {
        self.cache.len()
    }

    /// What the items cost together, in bytes.
    pub fn cost(&self) -> usize
        ensures cost { result ≡ listed_cost self.now.entries }
        ensures room { result ≤ self.now.budget }
    {
        self.cost
    }

    /// What the items may cost together, in bytes.
    pub fn budget(&self) -> usize
        ensures budget { result ≡ self.now.budget }
        ensures least { MIN_BUDGET ≤ result }
        ensures most { result ≤ MAX_BUDGET }
    {
        self.cache.budget()
    }

    /// How many were evicted.
    pub fn evicted(&self) -> u64
        ensures { result ≡ self.now.evicted }
    {
        self.evicted
    }

    /// Begins the count of those at 0 again.
    pub fn reset_evicted(&mut self)
        ensures { self.new ≡ record self.old { evicted = 0 } }
    {
        self.evicted = 0;
    }

    /// The item under the key, without its value.
    #[inline(always)]
    pub fn peek(&self, key: &Key) -> Option<Fields>
        ensures { result ≡ option_map fields_in (lookup (same_key key.now) self.now.entries) }
    {
        self.cache.peek(key)
    }

    /// The value of the item under the key. Where memory is refused nothing changes either.
    pub fn value(&mut self, key: &Key) -> Result<Option<Value>, AllocError>
        ensures value { IfOk result (λ value. value ≡
            option_map (λ item. item.value) (lookup (same_key key.now) self.old.entries)) }
        ensures unchanged { self.new ≡ self.old }
    {
        self.cache.value(key)
    }

    /// Returns the item under the key as it is, unless it is dead, and makes it the most recently
    /// used one and what it becomes by the access. A dead item is taken out. Where memory is
    /// refused nothing changes.
    #[inline(always)]
    pub fn read(&mut self, key: &Key, access: Access) -> Result<Option<Item>, NoMemory>
        requires { access.time ≤ LATEST_MOMENT }
        ensures item { IfOk result (λ item. item ≡ met access key.now self.old.entries) }
        ensures read { OnOk result (self.new ≡ read_shelf access key.now self.old) }
        ensures alive { OnErr result (IsSome (met access key.now self.old.entries)) }
        ensures err { OnErr result (self.new ≡ self.old) }
    {
        if self.reserve.is_none() {
            return self.read_after_copy(key, access);
        }
        let Ok(found) = self.cache.read_item(key, access, &mut self.reserve) else {
            return self.read_after_copy(key, access);
        };
        let Some(item) = found else {
            return Ok(None);
        };
        if item.is_dead(access.time) {
            self.remove_read(key, item);
            return Ok(None);
        }
        Ok(Some(item))
    }

    /// Takes the item under the key out, and drops what was read of it.
    #[cold]
    #[inline(never)]
    fn remove_read(&mut self, key: &Key, _read: Item)
        ensures { self.new ≡
            record self.old { entries = remove_entry (same_key key.now) self.old.entries } }
    {
        self.remove(key);
    }

    /// As `read`, without a reserve, or where memory was refused. The item is looked up twice, since
    /// its copy may be refused, and then nothing may have changed.
    #[cold]
    #[inline(never)]
    fn read_after_copy(&mut self, key: &Key, access: Access) -> Result<Option<Item>, NoMemory>
        requires { access.time ≤ LATEST_MOMENT }
        ensures item { IfOk result (λ item. item ≡ met access key.now self.old.entries) }
        ensures read { OnOk result (self.new ≡ read_shelf access key.now self.old) }
        ensures alive { OnErr result (IsSome (met access key.now self.old.entries)) }
        ensures err { OnErr result (self.new ≡ self.old) }
    {
        let Some(old) = self.peek(key) else {
            return Ok(None);
        };
        if old.is_dead(access.time) {
            self.remove(key);
            return Ok(None);
        }
        let Some(value) = self.value(key)? else {
            return Ok(None);
        };
        self.promote(key, access.use_of(&old))?;
        Ok(Some(old.with_value(value)))
    }

    /// Returns the item under the key as it is, unless it is dead, and makes it what it becomes by
    /// the access, but for what shows its use: its place in the order, its last access, and
    /// whether it was fetched. A dead item is taken out. Where memory is refused nothing changes.
    pub fn get_without_touch(&mut self, key: &Key, access: Access) -> Result<Option<Item>, NoMemory>
        requires { access.time ≤ LATEST_MOMENT }
        ensures item { IfOk result (λ item. item ≡ met access key.now self.old.entries) }
        ensures seen { OnOk result (self.new ≡ seen_shelf access key.now self.old) }
        ensures alive { OnErr result (IsSome (met access key.now self.old.entries)) }
        ensures err { OnErr result (self.new ≡ self.old) }
    {
        let Some(old) = self.peek(key) else {
            return Ok(None);
        };
        if old.is_dead(access.time) {
            self.remove(key);
            return Ok(None);
        }
        let Some(value) = self.value(key)? else {
            return Ok(None);
        };
        self.mark_seen(key, access.use_of(&old));
        Ok(Some(old.with_value(value)))
    }

    /// Takes the item under the key out, and returns it without its value.
    pub fn remove(&mut self, key: &Key) -> Option<Fields>
        ensures item { result ≡ option_map fields_in (lookup (same_key key.now) self.old.entries) }
        ensures left { self.new ≡
            record self.old { entries = remove_entry (same_key key.now) self.old.entries } }
    {
        let (fields, length) = self.cache.pop(key)?;
        self.cost -= cost_of(key.bytes().len(), length);
        Some(fields)
    }

    /// Takes all items out.
    pub fn clear(&mut self)
        ensures { self.new ≡ record self.old { entries = [] } }
    {
        self.cache.clear();
        self.cost = 0;
    }

    /// Puts the item under the key as the most recently used one. Then the least recently used ones
    /// are evicted, as long as the items cost more than the budget, and counted. If memory is
    /// refused nothing changes, and the key is returned.
    pub fn put(&mut self, key: Key, item: Item) -> Result<(), Key>
        requires time { item.last_access ≤ LATEST_MOMENT }
        requires fits { FitsBudget self.old.budget key item.value }
        ensures put { OnOk result (self.new ≡ put_in key item self.old) }
        ensures small { OnOk result (cost key item.value ≤ self.old.budget) }
        ensures err { OnErr result (self.new ≡ self.old) }
        ensures key { IfErr result (λ returned. returned ≡ key) }
    {
        let key_length = key.bytes().len();
        let added = cost_of(key_length, item.value.len());
        let old = self.cache.put(key, item)?;
        let freed = freed_by(old, key_length);
        let before = self.cache.len();
        self.cost = evict(&mut self.cache, self.cost + added - freed);
        let went = before.saturating_sub(self.cache.len());
        self.evicted = self.evicted.wrapping_add(went as u64);
        Ok(())
    }

    /// Makes the item under the key the most recently used one, and what it becomes by that. Where
    /// memory is refused nothing changes.
    pub fn promote(&mut self, key: &Key, new: Use) -> Result<(), NoMemory>
        requires { new.time ≤ LATEST_MOMENT }
        ensures promoted { (item : TheItem) →
            lookup (same_key key.now) self.old.entries ≡ Some item →
            OnOk result (self.new ≡
            record self.old {
              entries = set_value (same_key key.now)
                  (promoted (same_key key.now) self.old.entries)
                  (record item {
                    last_access = new.time;
                    expiry = new.expiry;
                    fetched = new.fetched;
                    sent = new.sent;
                  });
            }) }
        ensures err { OnErr result (self.new ≡ self.old) }
    {
        self.cache.use_item(key, new)?;
        Ok(())
    }

    /// Marks the item under the key stale in place.
    pub fn mark_stale(&mut self, key: &Key, new: Staling)
        ensures { (item : TheItem) → lookup (same_key key.now) self.old.entries ≡ Some item →
            self.new ≡
            record self.old {
              entries = set_value (same_key key.now) self.old.entries
                  (record item {
                    unique = new.unique;
                    expiry = new.expiry;
                    stale = true;
                    sent = false;
                  });
            } }
    {
        self.cache.mark_stale(key, new);
    }

    /// Sets another expiry of the item under the key, and notes in it whether a client is to
    /// recompute it. It stays where it is.
    fn mark_seen(&mut self, key: &Key, new: Use)
        ensures { (item : TheItem) → lookup (same_key key.now) self.old.entries ≡ Some item →
            self.new ≡
            record self.old {
              entries = set_value (same_key key.now) self.old.entries
                  (record item { expiry = new.expiry; sent = new.sent });
            } }
    {
        self.cache.mark_seen(key, new);
    }
}
