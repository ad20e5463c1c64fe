//! Cells.
ghost use Rattle.std.specs.Prelude.{◌≡◌, ◌≢◌, ◌+◌, ◌%◌, ◌≤◌, ℕ, length, take, drop};
ghost use Rattle.mc_cells.specs.Chain.{cell_of};
ghost use Rattle.mc_cells.specs.Halves.{half_of};

use crate::{CELL_BYTES, HALF_BYTES};

/// A piece of a value, and the number of the next piece; or two halves, each the last piece of a
/// value, and where the vacant one is noted. A vacant cell has the number of the next vacant one.
#[derive(Clone, Copy)]
pub(crate) struct Cell {
    pub(crate) next: u32,
    pub(crate) bytes: [u8; CELL_BYTES],
}

const _: () = prove!(size_of::<Cell>() == 64);

impl Cell {
    /// A cell before the one with the number `next`.
    pub(crate) fn new(next: u32, bytes: [u8; CELL_BYTES]) -> Cell
        ensures cell { result ≡ cell_of next bytes }
        ensures whole { length result.bytes ≡ CELL_BYTES }
    {
        Cell { next, bytes }
    }

    /// The cell with other bytes in the half with a number.
    pub(crate) fn with_half(&self, number: u32, half: [u8; HALF_BYTES]) -> Cell
        ensures next { result.next ≡ self.now.next }
        ensures here { half_of number result.bytes ≡ half }
        ensures beside { (other : ℕ) → other % 2 ≢ number % 2 →
            half_of other result.bytes ≡ half_of other self.now.bytes }
    {
        let start = (number % 2) as usize * HALF_BYTES;
        Cell::new(self.next, with_bytes(self.bytes, start, half))
    }

    /// The bytes of the half with a number.
    pub(crate) fn half(&self, number: u32) -> &[u8]
        ensures bytes { result.now ≡ half_of number self.now.bytes }
        ensures len { length result.now ≡ HALF_BYTES }
    {
        let start = (number % 2) as usize * HALF_BYTES;
        &self.bytes[start..start + HALF_BYTES]
    }

    /// The bytes of the piece.
    pub(crate) fn bytes(&self) -> &[u8]
        ensures bytes { result.now ≡ self.now.bytes }
        ensures whole { length result.now ≡ CELL_BYTES }
    {
        &self.bytes
    }
}

/// The bytes with others from `start` on.
fn with_bytes(bytes: [u8; CELL_BYTES], start: usize, half: [u8; HALF_BYTES]) -> [u8; CELL_BYTES]
    requires { start + HALF_BYTES ≤ CELL_BYTES }
    ensures before { take start result ≡ take start bytes }
    ensures here { take HALF_BYTES (drop start result) ≡ half }
    ensures behind { drop (start + HALF_BYTES) result ≡ drop (start + HALF_BYTES) bytes }
{
    let mut changed = bytes;
    changed[start..start + HALF_BYTES].copy_from_slice(&half);
    changed
}
