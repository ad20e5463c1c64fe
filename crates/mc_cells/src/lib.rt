//! The values of a shard, in cells of one size and halves of them, so that memory is used again
//! whatever the sizes of the values are; and the pages that values are cut from.
#![tactic(auto)]

mod cell;
mod cells;
mod chain;
mod laws;
mod pages;
mod piece_pool;
mod place;
mod pool;
mod reading;

pub use cells::Cells;
pub use laws::every_kept;
pub use pages::ValuePages;
pub use place::Place;

/// Number of bytes of a value in one cell.
pub const CELL_BYTES: usize = 60;

/// Number of bytes of a value in half a cell.
pub(crate) const HALF_BYTES: usize = 30;

/// A value of at least this many bytes is kept by itself and shared.
pub const LONG_VALUE: usize = 8_192;

/// Size of a page in bytes, of which values that are read are cut.
const PAGE_BYTES: usize = 32_768;

/// More cells than this have no numbers for their halves below `SPLIT`.
pub const MAX_CELLS: usize = 1_431_655_765;

/// The link of a whole cell is less. That of a split one is this and a position.
pub const SPLIT: u32 = 2_863_311_530;
