//! The pieces that were not sent yet.
ghost use Rattle.std.specs.Prelude.{◌≡◌, ◌<◌, ◌≤◌, ◌==◌, ◌∷◌, ◌++◌, [], IfNone, IfOk, IfSome, OnOk, OnErr, length};
ghost use Rattle.mc_wire.specs.declared.TheConstants.{MAX_VALUE_LIMIT};
ghost use Rattle.std.specs.VecDeque.{deque_len, deque_capacity};
ghost use Rattle.mc_split.specs.declared.queue.TheConstants.{PAGE_BYTES};
ghost use Rattle.mc_split.specs.internal.Queue.{IsBegun, begun_left, run_left};

use crate::plan::Piece;
use crate::planner::Planner;
use crate::run::Run;
use mc_cells::ValuePages;
use mc_item::{NoMemory, Op, Value};
use std::alloc::{AllocError, Global};
use std::collections::VecDeque;
use std::marker::Model;

/// The number of entries for which an idle queue keeps its memory.
const KEPT_ENTRIES: usize = 32;

/// Size of a page in bytes. The values of short data blocks are cut from it.
const PAGE_BYTES: usize = 2_048;

/// The longest value that is cut from a page, in bytes.
const PAGE_LIMIT: usize = 512;

/// An entry of a queue.
#[derive(Drop)]
pub(crate) enum Entry {
    One(usize, Piece),
    Many(Run),
}

/// Pieces with their shards, oldest first. Those of a command with many of them are made one at a
/// time, as they are taken, so that a get of many keys holds its keys and no pieces. Contracts see
/// the list of all pieces.
#[derive(Drop)]
pub struct PieceQueue {
    /// The pieces that come first: what is left of a command whose first piece was taken.
    begun: Option<Run>,
    entries: VecDeque<Entry>,
    /// The values of short blocks are cut from them.
    pages: ValuePages,
    ghost size: { pages.size ≡ PAGE_BYTES },
}

impl Model for PieceQueue {
    ghost use Rattle.std.specs.List.{AllByRecursion};
    ghost use Rattle.mc_split.specs.Queued.{Queued};
    ghost use Rattle.mc_split.specs.internal.Queue.{IsBegun, IsFilled, queued};

    ghost Value = { Queued };

    ghost view = { λ queue. record { items = queued queue.begun queue.entries.items } };

    ghost invariant = { λ queue.
        IsBegun queue.begun × AllByRecursion IsFilled queue.entries.items };
}

/// Makes room for one entry more.
#[inline(always)]
fn make_room(entries: &mut VecDeque<Entry>) -> Result<(), AllocError>
    ensures items { entries.new.items ≡ entries.old.items }
    ensures room { OnOk result (deque_len entries.new < deque_capacity entries.new) }
{
    if entries.len() < entries.capacity() {
        return Ok(());
    }
    grow(entries)
}

/// Takes more memory for the queue. It is kept out of line, so that a piece is moved whole into a
/// queue with room.
#[cold]
#[inline(never)]
fn grow(entries: &mut VecDeque<Entry>) -> Result<(), AllocError>
    ensures items { entries.new.items ≡ entries.old.items }
    ensures room { OnOk result (deque_len entries.new < deque_capacity entries.new) }
{
    entries.reserve(1)
}

/// Drops the piece of a command that found no memory. It is kept out of line, so that one that
/// found some is moved whole and not field by field.
#[cold]
#[inline(never)]
fn drop_refused(_op: Op) {}

/// Takes the next piece of the run, and drops the run with its last piece.
#[inline(never)]
fn take_next(begun: &mut Option<Run>) -> Option<(usize, Piece)>
    requires { IsBegun begun.old }
    ensures some { IfSome result (λ piece. begun_left begun.old ≡ piece ∷ begun_left begun.new) }
    ensures none { IfNone result (begun.old ≡ None) }
    ensures begun { IsBegun begun.new }
{
    let Some(run) = begun else {
        return None;
    };
    let piece = run.next();
    if run.is_over() {
        *begun = None;
    }
    piece
}

impl PieceQueue {
    /// An empty queue. Allocates nothing.
    pub fn new(alloc: Global) -> PieceQueue
        ensures { result.items ≡ [] }
    {
        PieceQueue {
            begun: None,
            entries: VecDeque::new(alloc),
            pages: ValuePages::new(alloc, PAGE_BYTES),
        }
    }

    /// The value with a copy of these bytes. A short one is cut from a page that many share.
    #[inline(always)]
    pub(crate) fn value_of(&mut self, alloc: Global, bytes: &[u8]) -> Result<Value, NoMemory>
        requires { length bytes.now ≤ MAX_VALUE_LIMIT }
        ensures value { IfOk result (λ value. value ≡ bytes.now) }
        ensures unchanged { self.new ≡ self.old }
    {
        if bytes.len() > PAGE_LIMIT {
            return Value::of_slice(alloc, bytes);
        }
        let held = self.pages.copy(bytes)?;
        Ok(Value::of_bytes(held))
    }

    /// Whether no piece is queued.
    pub fn is_empty(&self) -> bool
        ensures { result ≡ (length self.now.items == 0) }
    {
        self.begun.is_none() && self.entries.is_empty()
    }

    /// Takes out the oldest piece. Allocates nothing.
    #[inline(always)]
    pub fn pop(&mut self) -> Option<(usize, Piece)>
        ensures some { IfSome result (λ piece. self.old.items ≡ piece ∷ self.new.items) }
        ensures none { IfNone result (self.old.items ≡ []) }
        ensures left { IfNone result (self.new.items ≡ []) }
    {
        if self.begun.is_none() {
            match self.entries.pop_front()? {
                Entry::One(shard, piece) => return Some((shard, piece)),
                Entry::Many(run) => self.begun = Some(run),
            }
        }
        take_next(&mut self.begun)
    }

    /// Puts a piece, which is this part of the planner's command, behind the others.
    #[tactic(auto, using(crate::proofs::Entries::queued_push))]
    #[inline(always)]
    pub(crate) fn push(
        &mut self,
        planner: Planner,
        shard: usize,
        part: usize,
        op: Op,
    ) -> Result<(), AllocError>
        ensures ok { OnOk result
            (self.new.items ≡
            self.old.items ++ (
              shard,
              record {
                ticket = planner.ticket;
                part = part;
                op = op;
                moment = planner.moment;
              },
            ) ∷ []) }
        ensures err { OnErr result (self.new ≡ self.old) }
    {
        if make_room(&mut self.entries).is_err() {
            drop_refused(op);
            return Err(AllocError);
        }
        self.entries
            .push_back_reserved(Entry::One(shard, planner.piece(part, op)));
        Ok(())
    }

    /// Puts the pieces of a run behind the others.
    #[tactic(auto, using(crate::proofs::Entries::queued_push))]
    pub(crate) fn push_run(&mut self, run: Run) -> Result<(), AllocError>
        requires { 0 < length (run_left run) }
        ensures ok { OnOk result (self.new.items ≡ self.old.items ++ run_left run) }
        ensures err { OnErr result (self.new ≡ self.old) }
    {
        make_room(&mut self.entries)?;
        self.entries.push_back_reserved(Entry::Many(run));
        Ok(())
    }

    /// Whether the queue has memory that it wouldn't keep if it were idle.
    #[inline(always)]
    pub fn has_spare(&self) -> bool {
        self.entries.capacity() > KEPT_ENTRIES
    }

    /// Frees memory that no piece needs, but for a little that an idle queue keeps.
    #[cold]
    #[inline(never)]
    pub fn free_spare(&mut self)
        ensures { self.new ≡ self.old }
    {
        self.entries.shrink_to(KEPT_ENTRIES);
    }
}
