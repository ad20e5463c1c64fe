//! Chains of cells.
ghost use Rattle.std.specs.Prelude.{◌≡◌, ◌+◌, ◌-◌, ◌*◌, ◌<◌, ◌≤◌, ℕ, List, ◌∷◌, ◌++◌, length, take, drop, IsSome};
ghost use Rattle.mc_cells.specs.Chain.{cell_at, pieces, IsChain};
ghost use Rattle.mc_cells.specs.Halves.{ArePieces, HasRoomIn};
ghost use Rattle.mc_cells.specs.Kept.{CellsHold, IsBeside, KeptValue, place_at};

use crate::piece_pool::PiecePool;
use crate::{CELL_BYTES, HALF_BYTES, LONG_VALUE, MAX_CELLS, SPLIT};

/// How many cells a short value of this many bytes takes.
pub(crate) fn piece_count(len: usize) -> usize
    requires { len < LONG_VALUE }
    ensures { result ≡ pieces len }
{
    (len + CELL_BYTES - 1) / CELL_BYTES
}

/// Puts a piece before the chain that begins at `next`, and returns its number.
fn add_cell(cells: &mut PiecePool, next: u32, bytes: [u8; CELL_BYTES]) -> u32
    requires room { HasRoomIn cells.old 1 }
    requires few { cells.old.capacity ≤ MAX_CELLS }
    requires link { next < SPLIT }
    ensures before { (text : List ℕ) (kept : List KeptValue) →
        length text + CELL_BYTES < LONG_VALUE →
        CellsHold cells.old.slots ((place_at next (length text), text) ∷ kept) →
        CellsHold cells.new.slots
        ((place_at result (length text + CELL_BYTES), bytes ++ text) ∷ kept) }
    ensures used { cells.new.used ≤ cells.old.used + 1 }
    ensures pieces { ArePieces cells.new.used cells.new.slots }
    ensures below { result < SPLIT }
    ensures capacity { cells.new.capacity ≡ cells.old.capacity }
{
    cells.insert_whole(next, bytes)
}

/// Removes the first piece of a chain, and returns the number of the next.
fn take_cell(cells: &mut PiecePool, first: u32) -> u32
    requires { IsSome (cell_at cells.old.slots first) }
    ensures chain { (count : ℕ) → 0 < count → IsChain cells.old.slots count first →
        IsChain cells.new.slots (count - 1) result }
    ensures beside { (count : ℕ) (kept : List KeptValue) → 0 < count →
        IsBeside cells.old.slots count first kept →
        IsBeside cells.new.slots (count - 1) result kept }
    ensures pieces { ArePieces cells.new.used cells.new.slots }
    ensures capacity { cells.new.capacity ≡ cells.old.capacity }
{
    cells.remove(first)
}

/// The piece that begins at `start`.
fn piece_at(bytes: &[u8], start: usize) -> [u8; CELL_BYTES]
    requires { start + CELL_BYTES ≤ length bytes.now }
    ensures { result ≡ take CELL_BYTES (drop start bytes.now) }
{
    match bytes.split_at(start).1.first_chunk::<CELL_BYTES>() {
        Some(piece) => *piece,
        None => unreachable!(),
    }
}

/// The last piece of a value, filled up with zeros to a cell or to half of one.
fn padded<const N: usize>(bytes: &[u8]) -> [u8; N]
    requires { length bytes.now ≤ N }
    ensures { take (length bytes.now) result ≡ bytes.now }
{
    let mut piece = [0; N];
    piece[..bytes.len()].copy_from_slice(bytes);
    piece
}

/// Keeps the last piece of a value, if it isn't whole, in half a cell where it fits. Returns its
/// number.
fn keep_last(cells: &mut PiecePool, bytes: &[u8]) -> u32
    requires short { length bytes.now ≤ CELL_BYTES }
    requires room { HasRoomIn cells.old (pieces (length bytes.now)) }
    requires few { cells.old.capacity ≤ MAX_CELLS }
    ensures kept { (kept : List KeptValue) → CellsHold cells.old.slots kept →
        CellsHold cells.new.slots
        ((place_at result (length bytes.now), bytes.now) ∷ kept) }
    ensures used { cells.new.used ≤ cells.old.used + pieces (length bytes.now) }
    ensures dense { ArePieces cells.old.used cells.old.slots →
        ArePieces cells.new.used cells.new.slots }
    ensures below { result < SPLIT }
    ensures capacity { cells.new.capacity ≡ cells.old.capacity }
{
    if bytes.is_empty() {
        return 0;
    }
    if bytes.len() <= HALF_BYTES {
        return cells.insert_half(padded::<HALF_BYTES>(bytes));
    }
    cells.insert_whole(0, padded::<CELL_BYTES>(bytes))
}

/// Keeps a value in a chain of cells, and returns the number of the first. The chain is made from
/// its last cell to its first, so that each is written once.
pub(crate) fn keep_chain(cells: &mut PiecePool, bytes: &[u8]) -> u32
    requires short { length bytes.now < LONG_VALUE }
    requires room { HasRoomIn cells.old (pieces (length bytes.now)) }
    requires few { cells.old.capacity ≤ MAX_CELLS }
    ensures kept { (kept : List KeptValue) → CellsHold cells.old.slots kept →
        CellsHold cells.new.slots
        ((place_at result (length bytes.now), bytes.now) ∷ kept) }
    ensures dense { ArePieces cells.old.used cells.old.slots →
        ArePieces cells.new.used cells.new.slots }
    ensures capacity { cells.new.capacity ≡ cells.old.capacity }
{
    let mut full = bytes.len() / CELL_BYTES;
    let (_, last) = bytes.split_at(full * CELL_BYTES);
    let mut first = keep_last(cells, last);
    while full > 0 {
        full -= 1;
        first = add_cell(cells, first, piece_at(bytes, full * CELL_BYTES));
    }
    first
}

/// Removes the cells of a chain.
pub(crate) fn remove_chain(cells: &mut PiecePool, first: u32, count: usize)
    requires { IsChain cells.old.slots count first }
    ensures removed { (kept : List KeptValue) → IsBeside cells.old.slots count first kept →
        CellsHold cells.new.slots kept }
    ensures dense { ArePieces cells.old.used cells.old.slots →
        ArePieces cells.new.used cells.new.slots }
    ensures capacity { cells.new.capacity ≡ cells.old.capacity }
{
    let mut at = first;
    let mut left = count;
    while left > 0 {
        at = take_cell(cells, at);
        left -= 1;
    }
}
