//! The values of a shard.
ghost use Rattle.std.specs.Prelude.{◌≡◌, ◌+◌, ◌<◌, ◌≤◌, ◌^◌, List, [], ◌∷◌, ◌++◌, ℕ, length, vec_len, vec_capacity, IsOk, IfOk, OnOk, OnErr};
ghost use Rattle.mc_cells.specs.declared.TheConstants.{PAGE_BYTES};
ghost use Rattle.mc_cells.specs.Kept.{KeptValue, cells_of, slots_of};
ghost use Rattle.mc_cells.specs.Contents.{AreKept, HasRoom, HasValue, value_at, with_room};

use crate::chain::{keep_chain, piece_count, remove_chain};
use crate::pages::ValuePages;
use crate::piece_pool::PiecePool;
use crate::place::Place;
use crate::reading::{append_short, read_short};
use crate::{CELL_BYTES, LONG_VALUE, MAX_CELLS, PAGE_BYTES};
use bytes::Bytes;
use slab::Slab;
use std::alloc::{AllocError, Global};
use std::marker::Model;

/// More long values than this have no places: the number of a place would exceed 50 bits.
const MAX_LONG: usize = 33_554_432;

/// Values, each at a place of its own.
///
/// A short value is kept in a chain of cells of one size, whose last one may be half a cell. A long
/// value is kept by itself. A place that is freed is used again, whatever its value's length was.
pub struct Cells {
    /// Pieces of short values.
    cells: PiecePool,
    /// Long values.
    long: Slab<Bytes>,
    /// The bytes of short values that are read are cut from them.
    pages: ValuePages,
    ghost size: { pages.size ≡ PAGE_BYTES },
}

impl Drop for Cells {
    /// Written by hand, so that its owners drop it by a single call (docs/DECISIONS.md, F20).
    fn drop(self) {
        let Cells {
            cells: _cells,
            long: _long,
            pages: _pages,
        } = self;
    }
}

impl Model for Cells {
    ghost use Rattle.mc_cells.specs.Contents.{Contents};

    ghost Value = { Contents };

    ghost view = { λ cells.
        record {
          slots = cells.cells.slots;
          used = cells.cells.used;
          cell_room = cells.cells.capacity;
          long = cells.long.slots;
          long_room = cells.long.capacity;
        } };
}

impl Cells {
    /// No values. Memory is allocated when values come.
    pub fn new(alloc: Global) -> Cells
        ensures { AreKept result [] }
    {
        Cells {
            cells: PiecePool::new(alloc),
            long: Slab::new(alloc),
            pages: ValuePages::new(alloc, PAGE_BYTES),
        }
    }

    /// Allocates memory for `cells` more cells and `long` more long values. With that room `keep`
    /// succeeds.
    /// Fails if memory is refused, or if there would be more than `MAX_CELLS` cells or 2^25 long values.
    pub fn reserve(&mut self, cells: usize, long: usize) -> Result<(), AllocError>
        ensures room { OnOk result (HasRoom self.new cells long) }
        ensures succeeds { HasRoom self.old cells long → IsOk result }
        ensures had_room { HasRoom self.old cells long → self.new ≡ self.old }
        ensures kept { self.new ≡ with_room self.old self.new }
        ensures cells { self.old.cell_room ≤ self.new.cell_room }
        ensures long { self.old.long_room ≤ self.new.long_room }
    {
        self.cells.reserve(cells)?;
        self.long.reserve(long)?;
        if self.cells.capacity() > MAX_CELLS || self.long.capacity() > MAX_LONG {
            return Err(AllocError);
        }
        Ok(())
    }

    /// Keeps a value at a place that was free. Fails if memory is refused, and then the values are
    /// as before; with room for it it never fails.
    #[inline(always)]
    pub fn keep(&mut self, value: Bytes) -> Result<Place, AllocError>
        requires fits { length value < 2 ^ 32 }
        ensures kept { IfOk result (λ place. (kept : List KeptValue) → AreKept self.old kept →
            AreKept self.new ((place, value) ∷ kept)) }
        ensures len { IfOk result (λ place. place.len ≡ length value) }
        ensures few { IfOk result (λ place. LONG_VALUE ≤ place.len → place.first < 2 ^ 25) }
        ensures succeeds { HasRoom self.old (cells_of (length value)) (slots_of (length value)) →
            IsOk result }
        ensures had_room { HasRoom self.old (cells_of (length value)) (slots_of (length value)) →
            self.new ≡ with_room self.new self.old }
        ensures err { OnErr result (self.new ≡ with_room self.old self.new) }
    {
        let len = value.len();
        if len >= LONG_VALUE {
            return self.keep_long(value);
        }
        self.cells.reserve(piece_count(len))?;
        if self.cells.capacity() > MAX_CELLS {
            return Err(AllocError);
        }
        let first = keep_chain(&mut self.cells, value.as_slice());
        Ok(Place {
            first,
            len: len as u32,
        })
    }

    /// Keeps a long value.
    #[inline(never)]
    fn keep_long(&mut self, value: Bytes) -> Result<Place, AllocError>
        requires fits { length value < 2 ^ 32 }
        requires long { LONG_VALUE ≤ length value }
        ensures kept { IfOk result (λ place. (kept : List KeptValue) → AreKept self.old kept →
            AreKept self.new ((place, value) ∷ kept)) }
        ensures len { IfOk result (λ place. place.len ≡ length value) }
        ensures few { IfOk result (λ place. LONG_VALUE ≤ place.len → place.first < 2 ^ 25) }
        ensures succeeds { HasRoom self.old 0 1 → IsOk result }
        ensures had_room { HasRoom self.old 0 1 → self.new ≡ with_room self.new self.old }
        ensures err { OnErr result (self.new ≡ with_room self.old self.new) }
    {
        let len = value.len() as u32;
        self.reserve(0, 1)?;
        Ok(Place {
            first: self.long.insert_reserved(value) as u32,
            len,
        })
    }

    /// The value at a place. A short one is cut from a page that many values share, a long one is
    /// shared, and one without bytes takes no memory. Fails if memory is refused; the values stay
    /// as they are.
    #[inline(always)]
    pub fn read(&mut self, place: Place) -> Result<Bytes, AllocError>
        requires { HasValue self.old place }
        ensures value { IfOk result (λ value. value ≡ value_at self.old place) }
        ensures empty { place.len ≡ 0 → IsOk result }
        ensures unchanged { self.new ≡ self.old }
    {
        if place.is_empty() {
            return Ok(Bytes::new());
        }
        let len = place.len();
        if len >= LONG_VALUE {
            return self.long[place.first as usize].clone();
        }
        read_short(&self.cells, place.first, len, &mut self.pages)
    }

    /// Appends the value at a place. If memory is refused, nothing is appended. With room for the
    /// value and for a cell more, none is refused.
    pub fn append_to(&self, place: Place, out: &mut Vec<u8>) -> Result<(), AllocError>
        requires { HasValue self.now place }
        ensures ok { OnOk result (out.new.items ≡ out.old.items ++ value_at self.now place) }
        ensures err { OnErr result (out.new.items ≡ out.old.items) }
        ensures succeeds { length (value_at self.now place) ≡ place.len →
            vec_len out.old + place.len + CELL_BYTES ≤ vec_capacity out.old → IsOk result }
    {
        let len = place.len();
        if len >= LONG_VALUE {
            return out.extend_from_slice(self.long[place.first as usize].as_slice());
        }
        append_short(&self.cells, place.first, len, out)
    }

    /// Frees a place for other values.
    #[inline(always)]
    pub fn remove(&mut self, place: Place)
        requires { HasValue self.old place }
        ensures removed { (before after : List KeptValue) (value : List ℕ) →
            AreKept self.old (before ++ (place, value) ∷ after) →
            AreKept self.new (before ++ after) }
        ensures room { self.new ≡ with_room self.new self.old }
    {
        let len = place.len();
        if len >= LONG_VALUE {
            let _long = self.long.remove(place.first as usize);
            return;
        }
        remove_chain(&mut self.cells, place.first, piece_count(len));
    }

    /// Frees all places.
    pub fn clear(&mut self)
        ensures none { AreKept self.new [] }
        ensures room { self.new ≡ with_room self.new self.old }
    {
        self.cells.clear();
        self.long.clear();
    }
}
