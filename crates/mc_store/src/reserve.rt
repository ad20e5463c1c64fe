//! Memory that is put aside for a value that is read while memory is refused.
ghost use Rattle.std.specs.Prelude.{◌≡◌, ◌+◌, ◌≤◌, [], IfOk, length, vec_capacity};
ghost use Rattle.mc_cells.specs.declared.TheConstants.{CELL_BYTES};
ghost use Rattle.mc_cells.specs.Contents.{HasValue, value_at};
ghost use Rattle.mc_wire.specs.declared.TheConstants.{MAX_VALUE_LIMIT};

use bytes::Bytes;
use mc_cells::{CELL_BYTES, Cells, Place};
use mc_item::NoMemory;
use mc_wire::MAX_VALUE_LIMIT;
use std::alloc::Global;

/// Memory that is put aside for one copy of a value, so that a value which is found is returned
/// even if the allocator refuses memory. Nothing writes to it before it is used, so until then it takes
/// address space alone.
#[derive(Drop)]
pub struct Reserve {
    block: Vec<u8>,
    ghost empty: { block.items ≡ [] },
    ghost room: { MAX_VALUE_LIMIT + CELL_BYTES ≤ vec_capacity block },
}

impl Reserve {
    /// Puts the memory aside.
    pub fn new(alloc: Global) -> Result<Reserve, NoMemory>
        ensures empty { IfOk result (λ reserve. reserve.block.items ≡ []) }
        ensures room { IfOk result (λ reserve.
            MAX_VALUE_LIMIT + CELL_BYTES ≤ vec_capacity reserve.block) }
    {
        let block = Vec::with_capacity(alloc, MAX_VALUE_LIMIT + CELL_BYTES)?;
        Ok(Reserve { block })
    }

    /// The value at the place, in the memory that was put aside. That is never freed: no memory is
    /// left in which its owners could be counted.
    pub fn filled(self, cells: &Cells, place: Place) -> Bytes
        requires there { HasValue cells.now place }
        requires len { length (value_at cells.now place) ≡ place.len }
        requires within { place.len ≤ MAX_VALUE_LIMIT }
        ensures { result ≡ value_at cells.now place }
    {
        let Reserve { mut block } = self;
        cells.append_to(place, &mut block).unwrap();
        Bytes::from_static(block.leak())
    }
}
