//! The pieces of one command, numbered, and the pending reply of its reply.
ghost use Rattle.std.specs.Prelude.{◌≡◌, ◌<◌, ◌++◌, ◌∷◌, [], IfOk, OnOk, OnErr, None, replicate};

use crate::plan::Piece;
use crate::queue::PieceQueue;
use mc_item::{Kind, NoMemory, Op};
use mc_reply::{Fixed, PendingReply, ReplyKind, Slots, Ticket};
use std::alloc::{AllocError, Global};

/// What all pieces of a command share.
#[derive(Clone, Copy)]
pub struct Planner {
    pub alloc: Global,
    pub ticket: Ticket,
    /// The moment at which the command was taken, in seconds since 1970.
    pub moment: u64,
    pub shards: usize,
    ghost some_shards: { 0 < shards },
}

impl Planner {
    ghost use Rattle.mc_split.specs.Pieces.{ShardOp};
    ghost use Rattle.mc_split.specs.Plan.{pending_reply_with};
    ghost use Rattle.mc_split.specs.internal.Splits.{Splits};

    /// The pending reply of a reply that asks no shard, so that its kind is of no meaning.
    pub(crate) fn fixed(self, fixed: Fixed) -> PendingReply
        ensures { result ≡ pending_reply_with self.ticket (ReplyKind.Fixed fixed) [] }
    {
        PendingReply {
            ticket: self.ticket,
            kind: Kind::Flush,
            reply_kind: ReplyKind::Fixed(fixed),
            slots: Slots::none(self.alloc),
        }
    }

    /// Asks one shard: puts the piece behind those of the queue.
    #[inline(always)]
    pub(crate) fn one(
        self,
        queue: &mut PieceQueue,
        reply_kind: ReplyKind,
        shard: usize,
        op: Op,
    ) -> Result<PendingReply, NoMemory>
        ensures { let asked : ShardOp = record { shard = shard; op = op } in Splits result
            self.ticket self.moment reply_kind (asked ∷ []) queue.old.items queue.new.items }
    {
        let kind = op.kind();
        self.push(queue, shard, 0, op)?;
        Ok(self.pending_reply_of_one(reply_kind, kind))
    }

    /// The pending reply of a reply to one piece of this kind. It takes no memory.
    #[inline(always)]
    pub(crate) fn pending_reply_of_one(self, reply_kind: ReplyKind, kind: Kind) -> PendingReply
        ensures { result ≡
            record {
              ticket = self.ticket;
              kind = kind;
              reply_kind = reply_kind;
              slots = None ∷ [];
            } }
    {
        PendingReply {
            ticket: self.ticket,
            kind,
            reply_kind,
            slots: Slots::one(),
        }
    }

    /// Puts a piece, which is this part of the command, behind those of the queue.
    #[inline(always)]
    pub(crate) fn push(
        self,
        queue: &mut PieceQueue,
        shard: usize,
        part: usize,
        op: Op,
    ) -> Result<(), AllocError>
        ensures ok { OnOk result
            (queue.new.items ≡
            queue.old.items ++
            (shard, record { ticket = self.ticket; part = part; op = op; moment = self.moment })
            ∷ []) }
        ensures err { OnErr result (queue.new.items ≡ queue.old.items) }
    {
        queue.push(self, shard, part, op)
    }

    /// The piece that is this part of the command.
    #[inline(always)]
    pub(crate) fn piece(self, part: usize, op: Op) -> Piece
        ensures { result ≡
            record { ticket = self.ticket; part = part; op = op; moment = self.moment } }
    {
        Piece {
            ticket: self.ticket,
            part,
            op,
            moment: self.moment,
        }
    }

    /// The pending reply of a reply to `count` pieces, all of this kind.
    pub(crate) fn pending_reply(
        self,
        reply_kind: ReplyKind,
        kind: Kind,
        count: usize,
    ) -> Result<PendingReply, NoMemory>
        ensures { IfOk result (λ pending_reply.
            pending_reply ≡
            record {
              ticket = self.ticket;
              kind = kind;
              reply_kind = reply_kind;
              slots = replicate count None;
            }) }
    {
        let slots = Slots::empty(self.alloc, count)?;
        Ok(PendingReply {
            ticket: self.ticket,
            kind,
            reply_kind,
            slots,
        })
    }
}
