//! The cells of a shard, whether in use or vacant.
ghost use Rattle.std.specs.Prelude.{◌≡◌, ◌+◌, ◌<◌, ◌≤◌, ◌^◌, ℕ, [], Some, IsSome, IsOk, OnOk, is_some, count_by, length, slice_set};
ghost use Rattle.mc_cells.specs.Chain.{cell_at};
ghost use Rattle.mc_cells.specs.Pool.{HasRoomFor, IsAdded, IsRemoved};

use crate::cell::Cell;
use std::alloc::{AllocError, Global};
use std::marker::Model;

/// Memory grows by at least this many cells, 1 MiB; doubling would reserve up to twice what is
/// needed. The C library moves the pages of a block above 32 MiB; a smaller one may be copied.
const GROWTH: usize = 16_384;

/// Cells, by their numbers.
///
/// The vacant ones are in a chain of their own by the same links, the last vacated first. They are
/// used again before memory behind them is. So a cell needs no mark whether it is in use.
#[derive(Drop)]
pub(crate) struct CellPool {
    cells: Vec<Cell>,
    /// The number of the first vacant cell, if there is one.
    free: u32,
    /// How many cells are vacant.
    vacant: usize,
}

impl Model for CellPool {
    ghost use Rattle.std.specs.Prelude.{map, Some, vec_capacity};
    ghost use Rattle.mc_cells.specs.Pool.{Pool, vacate};
    ghost use Rattle.mc_cells.specs.Chain.{IsChain};

    ghost Value = { Pool };

    ghost view = { λ p.
        record {
          slots = vacate (map Some p.cells.items) p.vacant p.free;
          capacity = vec_capacity p.cells;
        } };

    ghost invariant = { λ p. IsChain (map Some p.cells.items) p.vacant p.free };
}

impl CellPool {
    /// No cells. Memory is allocated by `reserve`.
    pub(crate) fn new(alloc: Global) -> CellPool
        ensures { result.slots ≡ [] }
    {
        CellPool {
            cells: Vec::new(alloc),
            free: 0,
            vacant: 0,
        }
    }

    /// How many cells are in use.
    pub(crate) fn len(&self) -> usize
        ensures { result ≡ count_by is_some self.now.slots }
    {
        self.cells.len() - self.vacant
    }

    /// How many cells there is memory for.
    pub(crate) fn capacity(&self) -> usize
        ensures { result ≡ self.now.capacity }
    {
        self.cells.capacity()
    }

    /// Allocates memory for `additional` cells beside those in use. Fails if memory is refused.
    pub(crate) fn reserve(&mut self, additional: usize) -> Result<(), AllocError>
        ensures room { OnOk result (HasRoomFor self.new additional) }
        ensures succeeds { HasRoomFor self.old additional → IsOk result }
        ensures had_room { HasRoomFor self.old additional → self.new ≡ self.old }
        ensures capacity { self.old.capacity ≤ self.new.capacity }
        ensures slots { self.new.slots ≡ self.old.slots }
    {
        if self.cells.capacity() - self.len() >= additional {
            return Ok(());
        }
        let more = additional - self.vacant;
        self.cells.reserve_exact(more.max(GROWTH))?;
        Ok(())
    }

    /// Puts a cell in use, and returns its number.
    pub(crate) fn insert_reserved(&mut self, cell: Cell) -> u32
        requires room { HasRoomFor self.old 1 }
        requires few { count_by is_some self.old.slots < 2 ^ 32 }
        ensures added { IsAdded self.old.slots self.new.slots result cell }
        ensures length { (n : ℕ) → length self.old.slots ≤ n →
            count_by is_some self.old.slots + 1 ≤ n → length self.new.slots ≤ n }
        ensures capacity { self.new.capacity ≡ self.old.capacity }
    {
        if self.vacant == 0 {
            let number = self.cells.len() as u32;
            self.cells.push_reserved(cell);
            return number;
        }
        let number = self.free;
        self.free = self.cells[number as usize].next;
        self.cells[number as usize] = cell;
        self.vacant -= 1;
        number
    }

    /// Makes a cell vacant, and returns the number that it had of the next.
    pub(crate) fn remove(&mut self, number: u32) -> u32
        requires { IsSome (cell_at self.old.slots number) }
        ensures removed { IsRemoved self.old.slots self.new.slots number result }
        ensures length { length self.new.slots ≡ length self.old.slots }
        ensures capacity { self.new.capacity ≡ self.old.capacity }
    {
        let next = self.cells[number as usize].next;
        self.cells[number as usize].next = self.free;
        self.free = number;
        self.vacant += 1;
        next
    }

    /// The cell with a number.
    pub(crate) fn get(&self, number: u32) -> &Cell
        requires { IsSome (cell_at self.now.slots number) }
        ensures { cell_at self.now.slots number ≡ Some result.now }
    {
        &self.cells[number as usize]
    }

    /// Changes a cell in use.
    pub(crate) fn set(&mut self, number: u32, cell: Cell)
        requires { IsSome (cell_at self.old.slots number) }
        ensures slots { self.new.slots ≡ slice_set self.old.slots number (Some cell) }
        ensures capacity { self.new.capacity ≡ self.old.capacity }
    {
        self.cells[number as usize] = cell;
    }

    /// Makes all cells vacant.
    pub(crate) fn clear(&mut self)
        ensures empty { self.new.slots ≡ [] }
        ensures capacity { self.new.capacity ≡ self.old.capacity }
    {
        self.cells.clear();
        self.free = 0;
        self.vacant = 0;
    }
}
