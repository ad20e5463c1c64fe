//! The pieces of values: whole cells, and halves of cells that are split.
ghost use Rattle.std.specs.Prelude.{◌≡◌, ◌+◌, ◌-◌, ◌*◌, ◌/◌, ◌<◌, ◌≤◌, [], ◌++◌, Some, IsSome, IsOk, OnOk, ℕ, false, count_by, is_some, length, slice_set, vec_len, vec_capacity};
ghost use Rattle.std.specs.List.{slice_get};
ghost use Rattle.mc_cells.specs.Chain.{bytes_in, cell_at, cell_of, next_in};
ghost use Rattle.mc_cells.specs.Pool.{HasRoomFor, IsAdded, IsRemoved};
ghost use Rattle.mc_cells.specs.Halves.{AreLinked, ArePieces, HasRoomIn, IsHalfAdded, IsHalfRemoved, half_beside, is_number, pieces_in};

use crate::cell::Cell;
use crate::pool::CellPool;
use crate::{CELL_BYTES, HALF_BYTES, MAX_CELLS, SPLIT};
use bytes::BytesMut;
use std::alloc::{AllocError, Global};
use std::marker::Model;

/// Cells, each in use whole, or split into two halves of which one or both are in use.
///
/// A half has the number of its cell times two, plus one if it is the second. A whole cell has the
/// number of its first half. A cell whose halves are both vacant is a vacant cell again.
#[derive(Drop)]
pub(crate) struct PiecePool {
    cells: CellPool,
    /// The vacant halves beside one that is in use, in no order. Each one's cell is linked with its
    /// position here; a split cell of which both halves are in use has a link that is out of date.
    halves: Vec<u32>,
    /// How many cells there is memory for, in `cells` and in `halves`.
    room: usize,
}

impl Model for PiecePool {
    ghost use Rattle.std.specs.Prelude.{◌≤◌, is_some, count_by, vec_capacity, length};
    ghost use Rattle.mc_cells.specs.declared.TheConstants.{MAX_CELLS};
    ghost use Rattle.mc_cells.specs.Halves.{Pieces, pieces_in, AreLinked};

    ghost Value = { Pieces };

    ghost view = { λ p.
        record {
          slots = pieces_in p.halves.items p.cells.slots;
          used = count_by is_some p.cells.slots;
          capacity = p.room;
        } };

    ghost invariant = { λ p. AreLinked p.halves.items p.cells.slots
        × (length p.cells.slots ≤ p.room) × (length p.cells.slots ≤ MAX_CELLS)
        × (p.room ≤ p.cells.capacity) × (p.room ≤ vec_capacity p.halves) };
}

impl PiecePool {
    /// No cells. Memory is allocated by `reserve`.
    pub(crate) fn new(alloc: Global) -> PiecePool
        ensures slots { result.slots ≡ [] }
        ensures used { result.used ≡ 0 }
    {
        PiecePool {
            cells: CellPool::new(alloc),
            halves: Vec::new(alloc),
            room: 0,
        }
    }

    /// How many cells there is memory for.
    pub(crate) fn capacity(&self) -> usize
        ensures { result ≡ self.now.capacity }
    {
        self.room
    }

    /// Allocates memory for `additional` cells beside those in use. Fails if memory is refused.
    pub(crate) fn reserve(&mut self, additional: usize) -> Result<(), AllocError>
        ensures room { OnOk result (HasRoomIn self.new additional) }
        ensures succeeds { HasRoomIn self.old additional → IsOk result }
        ensures had_room { HasRoomIn self.old additional → self.new ≡ self.old }
        ensures capacity { self.old.capacity ≤ self.new.capacity }
        ensures slots { self.new.slots ≡ self.old.slots }
        ensures used { self.new.used ≡ self.old.used }
    {
        if self.room - self.cells.len() >= additional {
            return Ok(());
        }
        self.cells.reserve(additional)?;
        let cells = self.cells.capacity();
        self.halves
            .reserve_exact(cells.saturating_sub(self.halves.len()))?;
        self.room = cells;
        Ok(())
    }

    /// Puts a whole cell in use, before the piece with the number `next`. Returns its number.
    pub(crate) fn insert_whole(&mut self, next: u32, bytes: [u8; CELL_BYTES]) -> u32
        requires room { HasRoomIn self.old 1 }
        requires few { self.old.capacity ≤ MAX_CELLS }
        requires link { next < SPLIT }
        ensures added { IsAdded self.old.slots self.new.slots result (cell_of next bytes) }
        ensures used { self.new.used ≤ self.old.used + 1 }
        ensures pieces { ArePieces self.new.used self.new.slots }
        ensures below { result < SPLIT }
        ensures capacity { self.new.capacity ≡ self.old.capacity }
    {
        self.cells.insert_reserved(Cell::new(next, bytes)) * 2
    }

    /// Puts a half in use, and returns its number. The last half that became vacant is used first.
    pub(crate) fn insert_half(&mut self, bytes: [u8; HALF_BYTES]) -> u32
        requires room { HasRoomIn self.old 1 }
        requires few { self.old.capacity ≤ MAX_CELLS }
        ensures added { IsAdded self.old.slots self.new.slots result (cell_of 0 bytes) }
        ensures used { self.new.used ≤ self.old.used + 1 }
        ensures pieces { ArePieces self.new.used self.new.slots }
        ensures below { result < SPLIT }
        ensures capacity { self.new.capacity ≡ self.old.capacity }
    {
        if self.halves.is_empty() {
            split(&mut self.cells, &mut self.halves, bytes)
        } else {
            fill(&mut self.cells, &mut self.halves, bytes)
        }
    }

    /// Makes a piece vacant, and returns the number that it had of the next.
    pub(crate) fn remove(&mut self, number: u32) -> u32
        requires { IsSome (cell_at self.old.slots number) }
        ensures removed { IsRemoved self.old.slots self.new.slots number result }
        ensures pieces { ArePieces self.new.used self.new.slots }
        ensures capacity { self.new.capacity ≡ self.old.capacity }
    {
        let next = self.cells.get(number / 2).next;
        if next < SPLIT {
            return self.cells.remove(number / 2);
        }
        let at = (next - SPLIT) as usize;
        remove_half(&mut self.cells, &mut self.halves, number, at);
        0
    }

    /// Appends the bytes of a piece to a page, and returns the number of the next. Each copy is of
    /// a size that is known ahead.
    #[inline(always)]
    pub(crate) fn read_piece(&self, number: u32, page: &mut BytesMut) -> u32
        requires in_use { IsSome (cell_at self.now.slots number) }
        requires room { CELL_BYTES ≤ page.old.spare }
        ensures next { result ≡ next_in (cell_at self.now.slots number) }
        ensures bytes { page.new.items ≡
            page.old.items ++ bytes_in (cell_at self.now.slots number) }
        ensures spare { page.old.spare ≤ page.new.spare + CELL_BYTES }
    {
        let cell = self.cells.get(number / 2);
        if cell.next < SPLIT {
            page.extend_reserved(cell.bytes());
            return cell.next;
        }
        page.extend_reserved(cell.half(number));
        0
    }

    /// Appends the bytes of a piece, for which there is room, and returns the number of the next.
    pub(crate) fn append_piece(&self, number: u32, out: &mut Vec<u8>) -> u32
        requires in_use { IsSome (cell_at self.now.slots number) }
        requires room { vec_len out.old + CELL_BYTES ≤ vec_capacity out.old }
        ensures next { result ≡ next_in (cell_at self.now.slots number) }
        ensures bytes { out.new.items ≡ out.old.items ++ bytes_in (cell_at self.now.slots number) }
        ensures len { vec_len out.new ≤ vec_len out.old + CELL_BYTES }
        ensures capacity { vec_capacity out.old ≤ vec_capacity out.new }
    {
        let cell = self.cells.get(number / 2);
        // Neither fails, since there is room.
        if cell.next < SPLIT {
            let _ = out.extend_from_slice(cell.bytes());
            return cell.next;
        }
        let _ = out.extend_from_slice(cell.half(number));
        0
    }

    /// Makes all cells vacant.
    pub(crate) fn clear(&mut self)
        ensures empty { self.new.slots ≡ [] }
        ensures used { self.new.used ≡ 0 }
        ensures capacity { self.new.capacity ≡ self.old.capacity }
    {
        self.cells.clear();
        self.halves.clear();
    }
}

/// Splits a vacant cell, and puts its first half in use. Returns that half's number.
fn split(cells: &mut CellPool, halves: &mut Vec<u32>, bytes: [u8; HALF_BYTES]) -> u32
    requires none { halves.old.items ≡ [] }
    requires room { HasRoomFor cells.old 1 }
    requires few { count_by is_some cells.old.slots + 1 ≤ MAX_CELLS }
    requires within { length cells.old.slots ≤ MAX_CELLS }
    requires fits { 0 < vec_capacity halves.old }
    ensures added { IsHalfAdded halves.old.items cells.old.slots
        halves.new.items cells.new.slots result (cell_of 0 bytes) }
    ensures used { count_by is_some cells.new.slots ≡ count_by is_some cells.old.slots + 1 }
    ensures length { (n : ℕ) → length cells.old.slots ≤ n → count_by is_some cells.old.slots + 1 ≤ n
        → length cells.new.slots ≤ n }
    ensures below { result < SPLIT }
    ensures capacity { cells.new.capacity ≡ cells.old.capacity }
    ensures halves { vec_capacity halves.new ≡ vec_capacity halves.old }
{
    let cell = Cell::new(SPLIT, [0; CELL_BYTES]).with_half(0, bytes);
    let number = cells.insert_reserved(cell) * 2;
    halves.push_reserved(number + 1);
    number
}

/// Puts the last of the vacant halves in use, and returns its number.
fn fill(cells: &mut CellPool, halves: &mut Vec<u32>, bytes: [u8; HALF_BYTES]) -> u32
    requires some { 0 < vec_len halves.old }
    requires linked { AreLinked halves.old.items cells.old.slots }
    requires within { length cells.old.slots ≤ MAX_CELLS }
    ensures added { IsHalfAdded halves.old.items cells.old.slots
        halves.new.items cells.new.slots result (cell_of 0 bytes) }
    ensures used { count_by is_some cells.new.slots ≡ count_by is_some cells.old.slots }
    ensures length { length cells.new.slots ≡ length cells.old.slots }
    ensures below { result < SPLIT }
    ensures capacity { cells.new.capacity ≡ cells.old.capacity }
    ensures halves { vec_capacity halves.new ≡ vec_capacity halves.old }
{
    let number = halves.pop().unwrap();
    let cell = cells.get(number / 2).with_half(number, bytes);
    cells.set(number / 2, cell);
    number
}

/// Makes a half vacant whose cell has a link with the position `at`.
fn remove_half(cells: &mut CellPool, halves: &mut Vec<u32>, number: u32, at: usize)
    requires linked { AreLinked halves.old.items cells.old.slots }
    requires link { next_in (cell_at cells.old.slots (number / 2)) ≡ SPLIT + at }
    requires in_use { IsSome (cell_at (pieces_in halves.old.items cells.old.slots) number) }
    requires few { length cells.old.slots ≤ MAX_CELLS }
    requires fits { length cells.old.slots ≤ vec_capacity halves.old }
    ensures removed { IsHalfRemoved halves.old.items cells.old.slots
        halves.new.items cells.new.slots number }
    ensures length { length cells.new.slots ≡ length cells.old.slots }
    ensures capacity { cells.new.capacity ≡ cells.old.capacity }
    ensures halves { vec_capacity halves.new ≡ vec_capacity halves.old }
{
    if is_at(halves, at, beside(number)) {
        join(cells, halves, number, at);
    } else {
        vacate_half(cells, halves, number);
    }
}

/// Whether a half is at a position.
fn is_at(halves: &[u32], at: usize, number: u32) -> bool
    ensures { result ≡ is_number number (slice_get halves.now at) }
{
    match halves.get(at) {
        Some(other) => *other == number,
        None => false,
    }
}

/// Makes a cell vacant of which the other half was. The last of the vacant halves moves there.
fn join(cells: &mut CellPool, halves: &mut Vec<u32>, number: u32, at: usize)
    requires linked { AreLinked halves.old.items cells.old.slots }
    requires beside { slice_get halves.old.items at ≡ Some (half_beside number) }
    requires few { length cells.old.slots ≤ MAX_CELLS }
    ensures removed { IsHalfRemoved halves.old.items cells.old.slots
        halves.new.items cells.new.slots number }
    ensures length { length cells.new.slots ≡ length cells.old.slots }
    ensures capacity { cells.new.capacity ≡ cells.old.capacity }
    ensures halves { vec_capacity halves.new ≡ vec_capacity halves.old }
{
    let last = halves.pop().unwrap();
    if at == halves.len() {
        cells.remove(number / 2);
        return;
    }
    halves[at] = last;
    link(cells, last, at);
    cells.remove(number / 2);
}

/// Makes a half vacant beside one that is in use.
fn vacate_half(cells: &mut CellPool, halves: &mut Vec<u32>, number: u32)
    requires linked { AreLinked halves.old.items cells.old.slots }
    requires split { SPLIT ≤ next_in (cell_at cells.old.slots (number / 2)) }
    requires in_use { is_number number
        (slice_get halves.old.items (next_in (cell_at cells.old.slots (number / 2)) - SPLIT))
        ≡ false }
    requires beside { is_number (half_beside number)
        (slice_get halves.old.items (next_in (cell_at cells.old.slots (number / 2)) - SPLIT))
        ≡ false }
    requires few { length cells.old.slots ≤ MAX_CELLS }
    requires fits { length cells.old.slots ≤ vec_capacity halves.old }
    ensures removed { IsHalfRemoved halves.old.items cells.old.slots
        halves.new.items cells.new.slots number }
    ensures length { length cells.new.slots ≡ length cells.old.slots }
    ensures capacity { cells.new.capacity ≡ cells.old.capacity }
    ensures halves { vec_capacity halves.new ≡ vec_capacity halves.old }
{
    link(cells, number, halves.len());
    halves.push_reserved(number);
}

/// Links the cell of a half with a position.
fn link(cells: &mut CellPool, number: u32, at: usize)
    requires in_use { IsSome (cell_at cells.old.slots (number / 2)) }
    requires few { at < MAX_CELLS }
    ensures slots { cells.new.slots ≡ slice_set cells.old.slots (number / 2)
        (Some (cell_of (SPLIT + at) (bytes_in (cell_at cells.old.slots (number / 2))))) }
    ensures capacity { cells.new.capacity ≡ cells.old.capacity }
{
    let bytes = cells.get(number / 2).bytes;
    cells.set(number / 2, Cell::new(SPLIT + at as u32, bytes));
}

/// The number of the other half of a cell.
fn beside(number: u32) -> u32
    ensures { result ≡ half_beside number }
{
    if number % 2 == 0 {
        number + 1
    } else {
        number - 1
    }
}
