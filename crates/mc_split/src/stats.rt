//! The pieces of what every shard is asked, and of `stats`.
ghost use Rattle.std.specs.Prelude.{◌≡◌};
ghost use Rattle.mc_split.specs.Pieces.{asked_of_all};
ghost use Rattle.mc_split.specs.Plan.{SplitsInto};
ghost use Rattle.mc_split.specs.internal.Splits.{Splits};
ghost use Rattle.mc_split.specs.internal.ToAll.{op_of};

use crate::classic::plain_line;
use crate::planner::Planner;
use crate::queue::PieceQueue;
use crate::run::{Asks, Run};
use mc_command::{Command, StatsRequest};
use mc_item::{NoMemory, Op};
use mc_reply::{Fixed, PendingReply, ReplyKind, ServerStats};

/// What every shard is asked.
#[derive(Clone, Copy)]
pub(crate) enum ToAll {
    /// `flush_all`.
    Flush { delay: i64 },
    /// `stats`.
    Stats,
    /// `stats reset`.
    ResetStats,
}

impl ToAll {
    /// The piece for a shard.
    pub(crate) fn op(self) -> Op
        ensures { result ≡ op_of self }
    {
        match self {
            ToAll::Flush { delay } => Op::Flush { delay },
            ToAll::Stats => Op::Stats,
            ToAll::ResetStats => Op::ResetStats,
        }
    }
}

impl Planner {
    /// `stats`, whose form knows nothing of the server yet, and `stats reset`. Other counts are
    /// none, and ask no shard.
    #[tactic(auto, unfolding(crate::specs::Pieces::pieces_of, mc_reply::specs::ReplyKind::reply_kind_of))]
    pub(crate) fn stats(
        self,
        queue: &mut PieceQueue,
        asked: StatsRequest,
    ) -> Result<PendingReply, NoMemory>
        ensures { SplitsInto self (Command.Stats asked) result queue.old.items queue.new.items }
    {
        match asked {
            StatsRequest::General => self.all(
                queue,
                ReplyKind::Stats(ServerStats::none()),
                ToAll::Stats,
            ),
            StatsRequest::Reset => self.all(queue, plain_line(false), ToAll::ResetStats),
            StatsRequest::Empty => Ok(self.fixed(Fixed::End)),
        }
    }

    /// Asks every shard: one piece a shard, rising. Where memory runs out, the queue holds what it
    /// held.
    #[tactic(auto, using(crate::proofs::Parts::asks_some))]
    pub(crate) fn all(
        self,
        queue: &mut PieceQueue,
        reply_kind: ReplyKind,
        asked: ToAll,
    ) -> Result<PendingReply, NoMemory>
        ensures { Splits result self.ticket self.moment reply_kind
            (asked_of_all self.shards (op_of asked)) queue.old.items queue.new.items }
    {
        let pending_reply = self.pending_reply(reply_kind, asked.op().kind(), self.shards)?;
        let asks = Asks {
            planner: self,
            asked,
            next: 0,
        };
        queue.push_run(Run::Asks(asks))?;
        Ok(pending_reply)
    }
}
