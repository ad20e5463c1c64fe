//! A map of items in the order of their last use, whose values are in cells.
ghost use Rattle.std.specs.Prelude.{◌≡◌, ◌+◌, ◌/◌, ◌<◌, ◌≤◌, [], ◌-◌, true, false, length, take, None, Some, IfOk, IfErr, OnOk, OnErr};
ghost use Rattle.std.specs.Option.{IsSome, option_map};
ghost use Rattle.std.specs.Map.{lookup, remove_entry, set_value};
ghost use Rattle.lru.specs.LruCache.{last_entry, lru_cache, promoted, put_entries};
ghost use Rattle.mc_cells.specs.Contents.{HasValue, value_at};
ghost use Rattle.mc_wire.specs.SameKey.{same_key};
ghost use Rattle.mc_wire.specs.declared.TheConstants.{MAX_VALUE_LIMIT};
ghost use Rattle.mc_item.specs.declared.item.Item.{Item as TheItem};
ghost use Rattle.mc_store.specs.State.{item_overhead};
ghost use Rattle.mc_store.specs.internal.Access.{read_item};
ghost use Rattle.mc_store.specs.internal.Listed.{listed_cost};
ghost use Rattle.mc_store.specs.internal.Growing.{entries_of};
ghost use Rattle.mc_store.specs.internal.Stored.{fields_in, fields_of, place_in};

use crate::ITEM_OVERHEAD;
use crate::access::{Access, Use};
use crate::fields::Fields;
use crate::flushed::Flushed;
use crate::growing::GrowingMap;
use crate::hashing::PolynomialState;
use crate::reserve::Reserve;
use crate::stored::Stored;
use bytes::Bytes;
use mc_cells::{CELL_BYTES, Cells, LONG_VALUE, Place, every_kept};
use mc_item::{Item, PackedExpiry, Value};
use mc_sizes::{MAX_BUDGET, MIN_BUDGET};
use mc_wire::{KEY_LIMIT, Key, LATEST_MOMENT, MAX_VALUE_LIMIT};
use std::alloc::{AllocError, Global};
use std::hash::RandomState;
use std::marker::Model;
use std::num::NonZeroUsize;

/// No item costs less: its key has a byte.
const MIN_COST: usize = ITEM_OVERHEAD + 1;

/// How many flushed items a store frees. With 4 their table is there for so long that memory passes
/// what it was before the flush by 7 %, and with 8 by 4 %.
const FREED_ITEMS: usize = 8;

/// What an item becomes when it is marked stale in place.
#[derive(Clone, Copy)]
pub struct Staling {
    pub unique: u64,
    pub expiry: PackedExpiry,
}

/// Items by key, the most recently used first.
///
/// The map has what is known of each item besides its value, and the place of that. There is always
/// memory for the values of as many items as fit the budget, and for one value more.
pub struct ItemCache {
    cache: GrowingMap,
    cells: Cells,
    /// What the items may cost together, in bytes.
    budget: usize,
    /// How keys are hashed.
    hashing: PolynomialState,
    /// The maps of flushed items.
    flushed: Flushed<GrowingMap>,
}

impl Drop for ItemCache {
    /// By hand, so that its drop is one call for its owner (docs/DECISIONS.md).
    fn drop(self) {
        let ItemCache {
            cache: _cache,
            cells: _cells,
            budget: _,
            hashing: _,
            flushed: _flushed,
        } = self;
    }
}

impl Model for ItemCache {
    ghost use Rattle.mc_store.specs.internal.Cached.{AreCached, CachedItems, shown_entries};
    ghost use Rattle.mc_store.specs.internal.Growing.{entries_of};

    ghost Value = { CachedItems };

    ghost view = { λ items.
        record {
          entries = shown_entries items.cells (entries_of items.cache);
          cap = items.cache.cap;
          budget = items.budget;
        } };

    ghost invariant = { λ items. AreCached (entries_of items.cache) items.cells items.budget };
}

/// Notes in an item that it is made the most recently used one.
#[inline(always)]
fn note_use(stored: &mut Stored, new: Use)
    requires { new.time ≤ LATEST_MOMENT }
    ensures fields { fields_of stored.new ≡
        record (fields_of stored.old) {
          fetched = new.fetched;
          sent = new.sent;
          expiry = new.expiry;
          last_access = new.time;
        } }
    ensures place { place_in stored.new ≡ place_in stored.old }
{
    let old = stored.fields();
    stored.set_fields(&Fields {
        fetched: new.fetched,
        sent: new.sent,
        expiry: new.expiry,
        last_access: new.time,
        ..old
    });
}

/// Marks an item stale.
fn note_stale(stored: &mut Stored, new: Staling)
    ensures fields { fields_of stored.new ≡
        record (fields_of stored.old) {
          stale = true;
          sent = false;
          expiry = new.expiry;
          unique = new.unique;
        } }
    ensures place { place_in stored.new ≡ place_in stored.old }
{
    let old = stored.fields();
    stored.set_fields(&Fields {
        stale: true,
        sent: false,
        expiry: new.expiry,
        unique: new.unique,
        ..old
    });
}

/// Sets another expiry of an item, and notes in it whether a client is to recompute it.
fn note_seen(stored: &mut Stored, new: Use)
    ensures fields { fields_of stored.new ≡
        record (fields_of stored.old) { sent = new.sent; expiry = new.expiry } }
    ensures place { place_in stored.new ≡ place_in stored.old }
{
    let old = stored.fields();
    stored.set_fields(&Fields {
        sent: new.sent,
        expiry: new.expiry,
        ..old
    });
}

/// The value at the place. Where memory is refused, it is copied to what was put aside.
#[inline(always)]
fn read_value(cells: &mut Cells, place: Place, reserve: &mut Option<Reserve>) -> Bytes
    requires there { HasValue cells.old place }
    requires len { length (value_at cells.old place) ≡ place.len }
    requires within { place.len ≤ MAX_VALUE_LIMIT }
    requires reserve { IsSome reserve.old }
    ensures value { result ≡ value_at cells.old place }
    ensures unchanged { cells.new ≡ cells.old }
{
    match cells.read(place) {
        Ok(bytes) => bytes,
        Err(_refused) => reserve.take().unwrap().filled(cells, place),
    }
}

/// Takes all items out of the map, to be freed later. Where memory is refused nothing changes.
fn set_aside(
    flushed: &mut Flushed<GrowingMap>,
    map: &mut GrowingMap,
    hashing: PolynomialState,
) -> Result<(), AllocError>
    ensures taken { OnOk result (flushed.new ≡ flushed.old + length (entries_of map.old)) }
    ensures left { OnOk result (entries_of map.new ≡ []) }
    ensures cap { map.new.cap ≡ map.old.cap }
    ensures err { OnErr result (flushed.new ≡ flushed.old) }
    ensures unchanged { OnErr result (map.new ≡ map.old) }
{
    if map.len() == 0 {
        return Ok(());
    }
    let empty = GrowingMap::new(*map.allocator(), map.cap(), hashing)?;
    flushed.take(map, empty)
}

impl ItemCache {
    /// No items, which may cost `budget` bytes together. Before they come they take address space
    /// alone. They are hashed under words that are drawn from the random state.
    pub fn new(alloc: Global, hasher: RandomState, budget: usize) -> Result<ItemCache, AllocError>
        requires least { MIN_BUDGET ≤ budget }
        requires most { budget ≤ MAX_BUDGET }
        ensures { IfOk result (λ items. items ≡
            record { entries = []; cap = budget / (item_overhead + 1) + 1; budget = budget }) }
    {
        let capacity = NonZeroUsize::new(budget / MIN_COST + 1).unwrap();
        let hashing = PolynomialState::new(hasher);
        let cache = GrowingMap::new(alloc, capacity, hashing)?;
        let mut cells = Cells::new(alloc);
        cells.reserve(
            budget / CELL_BYTES + LONG_VALUE / CELL_BYTES + 2,
            budget / LONG_VALUE + 1,
        )?;
        Ok(ItemCache {
            cache,
            cells,
            budget,
            hashing,
            flushed: Flushed::new(alloc),
        })
    }

    /// How many items there are.
    pub fn len(&self) -> usize
        ensures { result ≡ length self.now.entries }
    {
        self.cache.len()
    }

    /// What the items may cost together, in bytes.
    pub fn budget(&self) -> usize
        ensures { result ≡ self.now.budget }
    {
        self.budget
    }

    /// The item under the key, without its value.
    #[inline(always)]
    pub fn peek(&self, key: &Key) -> Option<Fields>
        ensures { result ≡ option_map fields_in (lookup (same_key key.now) self.now.entries) }
    {
        let stored = self.cache.peek(key)?;
        Some(stored.fields())
    }

    /// The value of the item under the key. Where memory is refused nothing changes either.
    pub fn value(&mut self, key: &Key) -> Result<Option<Value>, AllocError>
        ensures value { IfOk result (λ value. value ≡
            option_map (λ item. item.value) (lookup (same_key key.now) self.old.entries)) }
        ensures unchanged { self.new ≡ self.old }
    {
        let Some(stored) = self.cache.peek(key) else {
            return Ok(None);
        };
        let place = stored.place();
        every_kept();
        let bytes = self.cells.read(place)?;
        Ok(Some(Value::of_bytes(bytes)))
    }

    /// Returns the item under the key as it is, and makes it the most recently used one and what it
    /// becomes by the access. Where memory is refused for its value the reserve is used up, and where
    /// it is refused for its move to a larger table nothing changes.
    #[inline(always)]
    pub fn read_item(
        &mut self,
        key: &Key,
        access: Access,
        reserve: &mut Option<Reserve>,
    ) -> Result<Option<Item>, AllocError>
        requires time { access.time ≤ LATEST_MOMENT }
        requires reserve { IsSome reserve.old }
        ensures found { IfOk result (λ found. found ≡
            lookup (same_key key.now) self.old.entries) }
        ensures read { (item : TheItem) →
            lookup (same_key key.now) self.old.entries ≡ Some item →
            OnOk result (self.new ≡
            record self.old {
              entries = set_value (same_key key.now)
                  (promoted (same_key key.now) self.old.entries) (read_item access item);
            }) }
        ensures err { OnErr result (self.new ≡ self.old) }
        ensures none { lookup (same_key key.now) self.old.entries ≡ None → self.new ≡ self.old }
    {
        self.cache.bring(key)?;
        let Some(stored) = self.cache.get_mut(key) else {
            return Ok(None);
        };
        let (fields, place) = (stored.fields(), stored.place());
        note_use(stored, access.use_of(&fields));
        every_kept();
        let value = read_value(&mut self.cells, place, reserve);
        Ok(Some(fields.with_value(Value::of_bytes(value))))
    }

    /// Makes the item under the key the most recently used one, and what it becomes by that. Where
    /// memory is refused nothing changes.
    pub fn use_item(&mut self, key: &Key, new: Use) -> Result<(), AllocError>
        requires { new.time ≤ LATEST_MOMENT }
        ensures used { (item : TheItem) →
            lookup (same_key key.now) self.old.entries ≡ Some item →
            OnOk result (self.new ≡
            record self.old {
              entries = set_value (same_key key.now)
                  (promoted (same_key key.now) self.old.entries)
                  (record item {
                    last_access = new.time;
                    expiry = new.expiry;
                    fetched = new.fetched;
                    sent = new.sent;
                  });
            }) }
        ensures err { OnErr result (self.new ≡ self.old) }
        ensures none { lookup (same_key key.now) self.old.entries ≡ None → self.new ≡ self.old }
    {
        every_kept();
        self.cache.bring(key)?;
        let Some(stored) = self.cache.get_mut(key) else {
            return Ok(());
        };
        note_use(stored, new);
        Ok(())
    }

    /// Marks the item under the key stale in place.
    pub fn mark_stale(&mut self, key: &Key, new: Staling)
        ensures marked { (item : TheItem) →
            lookup (same_key key.now) self.old.entries ≡ Some item →
            self.new ≡
            record self.old {
              entries = set_value (same_key key.now) self.old.entries
                  (record item {
                    unique = new.unique;
                    expiry = new.expiry;
                    stale = true;
                    sent = false;
                  });
            } }
        ensures none { lookup (same_key key.now) self.old.entries ≡ None → self.new ≡ self.old }
    {
        let Some(marked) = self.cache.peek(key) else {
            return;
        };
        let mut stored = *marked;
        note_stale(&mut stored, new);
        self.cache.set(key, stored);
    }

    /// Sets another expiry of the item under the key, and notes in it whether a client is to
    /// recompute it. It stays where it is.
    pub fn mark_seen(&mut self, key: &Key, new: Use)
        ensures marked { (item : TheItem) →
            lookup (same_key key.now) self.old.entries ≡ Some item →
            self.new ≡
            record self.old {
              entries = set_value (same_key key.now) self.old.entries
                  (record item { expiry = new.expiry; sent = new.sent });
            } }
        ensures none { lookup (same_key key.now) self.old.entries ≡ None → self.new ≡ self.old }
    {
        let Some(seen) = self.cache.peek(key) else {
            return;
        };
        let mut stored = *seen;
        note_seen(&mut stored, new);
        self.cache.set(key, stored);
    }

    /// Puts the item under the key as the most recently used one, and returns the length of the
    /// value that was there. If memory is refused nothing changes, and the key is returned. First some
    /// flushed items are freed.
    pub fn put(&mut self, key: Key, item: Item) -> Result<Option<usize>, Key>
        requires time { item.last_access ≤ LATEST_MOMENT }
        requires fits { listed_cost self.old.entries ≤ self.old.budget }
        requires room { length self.old.entries < self.old.cap }
        ensures old { IfOk result (λ old. old ≡
            option_map (λ item. length item.value) (lookup (same_key key) self.old.entries)) }
        ensures put { OnOk result (self.new ≡
            record self.old {
              entries = put_entries same_key (lru_cache self.old.entries self.old.cap) key item;
            }) }
        ensures err { OnErr result (self.new ≡ self.old) }
        ensures key { IfErr result (λ returned. returned ≡ key) }
    {
        every_kept();
        self.flushed.free_some(FREED_ITEMS);
        let fields = Fields::of(&item);
        let Ok(place) = self.cells.keep(item.value.into_bytes()) else {
            return Err(key);
        };
        match self.cache.put(key, Stored::new(&fields, place)) {
            Ok(None) => Ok(None),
            Ok(Some(old)) => {
                let freed = old.place();
                self.cells.remove(freed);
                Ok(Some(freed.len()))
            }
            Err(key) => {
                self.cells.remove(place);
                Err(key)
            }
        }
    }

    /// Takes the item under the key out, and returns it without its value, and the value's length.
    pub fn pop(&mut self, key: &Key) -> Option<(Fields, usize)>
        ensures item { result ≡
            option_map (λ item. (fields_in item, length item.value))
            (lookup (same_key key.now) self.old.entries) }
        ensures left { self.new ≡
            record self.old { entries = remove_entry (same_key key.now) self.old.entries } }
    {
        let stored = self.cache.pop(key)?;
        let place = stored.place();
        every_kept();
        self.cells.remove(place);
        Some((stored.fields(), place.len()))
    }

    /// Takes the least recently used item out, and returns its key and the length of its value.
    pub fn pop_lru(&mut self) -> Option<(Key, usize)>
        ensures item { result ≡
            option_map (λ entry. (entry.0, length entry.1.value)) (last_entry self.old.entries) }
        ensures left { self.new ≡
            record self.old {
              entries = take (length self.old.entries - 1) self.old.entries;
            } }
    {
        let (key, stored) = self.cache.pop_lru()?;
        let place = stored.place();
        every_kept();
        self.cells.remove(place);
        Some((key, place.len()))
    }

    /// Takes all items out. The stores that follow free them. If memory is refused for that, they are
    /// freed at once.
    pub fn clear(&mut self)
        ensures { self.new ≡ record self.old { entries = [] } }
    {
        if set_aside(&mut self.flushed, &mut self.cache, self.hashing).is_err() {
            self.cache.clear();
        }
        self.cells.clear();
    }
}
