//! From a command to its pieces.
ghost use Rattle.std.specs.Prelude.{◌≡◌, ◌<◌, IfOk, IsTrue, OnErr, length};
ghost use Rattle.mc_command.specs.Command.{can_give_up};
ghost use Rattle.mc_split.specs.Pieces.{pieces_of};
ghost use Rattle.mc_split.specs.Plan.{SplitsInto, pending_reply_of, parts_from};

use crate::planner::Planner;
use crate::queue::PieceQueue;
use mc_command::Command;
use mc_item::{NoMemory, Op};
use mc_reply::{Fixed, PendingReply, Ticket};
use std::alloc::Global;

/// One part of a command, for one shard.
pub struct Piece {
    pub ticket: Ticket,
    /// The place of the part in the command's pieces, from 0.
    pub part: usize,
    pub op: Op,
    /// The moment at which the command was taken, in seconds since 1970.
    pub moment: u64,
}

impl Drop for Piece {
    /// Written by hand, so that its owners drop it by a single call (docs/DECISIONS.md, F20).
    #[inline(always)]
    fn drop(self) {
        let Piece {
            ticket: _ticket,
            part: _part,
            op: _op,
            moment: _moment,
        } = self;
    }
}

impl Piece {
    /// What the shard is asked.
    #[inline(always)]
    pub fn into_op(self) -> Op
        ensures { result ≡ self.op }
    {
        let Piece {
            ticket: _ticket,
            part: _part,
            op: asked,
            moment: _moment,
        } = self;
        asked
    }
}

/// What becomes of a command: the pending reply of its reply, and its pieces with their shards, in
/// order.
#[derive(Drop)]
pub struct Plan {
    pub pending_reply: PendingReply,
    pub pieces: PieceQueue,
}

/// Splits a command into a queue of its own.
pub fn split(
    alloc: Global,
    command: Command,
    ticket: Ticket,
    moment: u64,
    shards: usize,
) -> Result<Plan, NoMemory>
    requires { 0 < shards }
    ensures pending_reply { IfOk result
        (λ plan. plan.pending_reply ≡ pending_reply_of shards ticket command) }
    ensures pieces { IfOk result
        (λ plan. plan.pieces.items ≡ parts_from 0 ticket moment (pieces_of shards command)) }
    ensures asks { OnErr result (0 < length (pieces_of shards command)) }
    ensures gives_up { OnErr result (IsTrue (can_give_up command)) }
{
    let mut pieces = PieceQueue::new(alloc);
    let planner = Planner {
        alloc,
        ticket,
        moment,
        shards,
    };
    let pending_reply = planner.split_into(&mut pieces, command)?;
    Ok(Plan {
        pending_reply,
        pieces,
    })
}

impl Planner {
    /// Splits a command: puts its pieces behind those of the queue, and returns its pending
    /// reply. All growth happens here, before the first piece goes out. Where memory runs out,
    /// the queue holds what it held.
    #[tactic(auto, unfolding(crate::specs::Pieces::pieces_of, mc_reply::specs::ReplyKind::reply_kind_of))]
    pub fn split_into(
        self,
        queue: &mut PieceQueue,
        command: Command,
    ) -> Result<PendingReply, NoMemory>
        ensures { SplitsInto self command result queue.old.items queue.new.items }
    {
        match command {
            Command::Store(storage) => self.store(queue, storage),
            Command::Get(retrieval) => self.get(queue, retrieval),
            Command::Delete { key, noreply } => self.delete(queue, key, noreply),
            Command::Count {
                key,
                direction,
                amount,
                noreply,
            } => self.count(queue, key, direction, amount, noreply),
            Command::Touch {
                key,
                exptime,
                noreply,
            } => self.touch(queue, key, exptime, noreply),
            Command::FlushAll { delay, noreply } => self.flush_all(queue, delay, noreply),
            Command::Version(profile) => Ok(self.fixed(Fixed::Version(profile))),
            Command::Verbosity { noreply: false } => Ok(self.fixed(Fixed::Ok)),
            Command::Verbosity { noreply: true } | Command::Quit | Command::Shutdown => {
                Ok(self.fixed(Fixed::Nothing))
            }
            Command::Stats(asked) => self.stats(queue, asked),
            Command::MetaNoop => Ok(self.fixed(Fixed::MetaNoop)),
            Command::MetaGet(get) => self.split_meta_get(queue, get),
            Command::MetaSet(set) => self.meta_set(queue, set),
            Command::MetaDelete(delete) => self.meta_delete(queue, delete),
            Command::MetaArithmetic(arithmetic) => self.meta_arithmetic(queue, arithmetic),
            Command::Refused(refusal) => Ok(self.fixed(Fixed::Refused(refusal))),
            Command::Discard { key, refusal } => self.discard(queue, key, refusal),
        }
    }
}
