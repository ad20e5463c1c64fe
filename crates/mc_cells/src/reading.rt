//! Reads of short values. Their bytes are cut from a page that many of them share.
ghost use Rattle.std.specs.Prelude.{◌≡◌, ◌+◌, ◌*◌, ◌<◌, ◌≤◌, ◌++◌, length, take, vec_len, vec_capacity, IsOk, IfOk, OnOk, OnErr};
ghost use Rattle.mc_cells.specs.Chain.{pieces, IsChain, chain_bytes};

use crate::chain::piece_count;
use crate::pages::ValuePages;
use crate::piece_pool::PiecePool;
use crate::{CELL_BYTES, LONG_VALUE, PAGE_BYTES};
use bytes::{Bytes, BytesMut};
use std::alloc::AllocError;

/// Appends the bytes of a chain's pieces to a page.
fn read_chain(cells: &PiecePool, first: u32, count: usize, page: &mut BytesMut)
    requires chain { IsChain cells.now.slots count first }
    requires room { count * CELL_BYTES ≤ page.old.spare }
    ensures bytes { page.new.items ≡
        page.old.items ++ chain_bytes cells.now.slots count first }
{
    let mut at = first;
    let mut left = count;
    while left > 0 {
        at = cells.read_piece(at, page);
        left -= 1;
    }
}

/// The value of a chain of cells, cut from a page. Whole cells are copied, and then what the last
/// has behind the value is cut off.
pub(crate) fn read_short(
    cells: &PiecePool,
    first: u32,
    len: usize,
    pages: &mut ValuePages,
) -> Result<Bytes, AllocError>
    requires short { len < LONG_VALUE }
    requires size { pages.old.size ≡ PAGE_BYTES }
    requires chain { IsChain cells.now.slots (pieces len) first }
    requires whole { len ≤ length (chain_bytes cells.now.slots (pieces len) first) }
    ensures value { IfOk result (λ value.
        value ≡ take len (chain_bytes cells.now.slots (pieces len) first)) }
    ensures size { pages.new.size ≡ PAGE_BYTES }
{
    let count = piece_count(len);
    pages.make_room(count * CELL_BYTES)?;
    let page = &mut pages.current;
    read_chain(cells, first, count, page);
    page.truncate(len);
    page.freeze_to(len)
}

/// Appends the bytes of a chain's cells. There is room for them.
fn append_cells(cells: &PiecePool, first: u32, count: usize, out: &mut Vec<u8>)
    requires chain { IsChain cells.now.slots count first }
    requires room { vec_len out.old + count * CELL_BYTES ≤ vec_capacity out.old }
    ensures { out.new.items ≡ out.old.items ++ chain_bytes cells.now.slots count first }
{
    let mut at = first;
    let mut left = count;
    while left > 0 {
        at = cells.append_piece(at, out);
        left -= 1;
    }
}

/// Appends the value of a chain of cells. If memory is refused, nothing is appended.
pub(crate) fn append_short(
    cells: &PiecePool,
    first: u32,
    len: usize,
    out: &mut Vec<u8>,
) -> Result<(), AllocError>
    requires short { len < LONG_VALUE }
    requires chain { IsChain cells.now.slots (pieces len) first }
    ensures ok { OnOk result (out.new.items ≡
        out.old.items ++ take len (chain_bytes cells.now.slots (pieces len) first)) }
    ensures err { OnErr result (out.new.items ≡ out.old.items) }
    ensures succeeds { vec_len out.old + len + CELL_BYTES ≤ vec_capacity out.old → IsOk result }
{
    let before = out.len();
    let count = piece_count(len);
    out.reserve(count * CELL_BYTES)?;
    append_cells(cells, first, count, out);
    out.truncate(before + len);
    Ok(())
}
