//! The pieces of the classic commands.
ghost use Rattle.std.specs.Prelude.{◌≡◌, ◌<◌, IfOk, false, length};
ghost use Rattle.mc_split.specs.Plan.{SplitsInto};

use crate::planner::Planner;
use crate::queue::PieceQueue;
use crate::run::{Fetches, Run};
use crate::stats::ToAll;
use mc_command::{Block, Command, CommandError, Direction, Keys, Retrieval, Storage, StoreRequest};
use mc_item::{Kind, NoMemory, Op, Value};
use mc_reply::{Fixed, PendingReply, ReplyKind};
use mc_wire::Key;
use std::alloc::{AllocError, Global};
use std::collections::VecDeque;

/// The value of a data block. A short one is copied, and a long one takes memory for the count of
/// its owners.
pub fn value_of(block: Block) -> Result<Value, NoMemory>
    ensures { IfOk result (λ value. value ≡ block) }
{
    Value::new(block.into_bytes())
}

/// What a storage command asks of its shard: the bytes of its block are the value.
pub(crate) fn asked_of_shard(asked: StoreRequest<Block>) -> Result<StoreRequest<Value>, NoMemory>
    ensures { IfOk result (λ request. request ≡ asked) }
{
    Ok(StoreRequest {
        key: asked.key,
        mode: asked.mode,
        compare: asked.compare,
        unique: asked.unique,
        flags: asked.flags,
        exptime: asked.exptime,
        value: value_of(asked.value)?,
    })
}

/// Copies of the keys of a get.
fn keys_of(alloc: Global, keys: &Keys) -> Result<VecDeque<Key>, AllocError>
    ensures copies { IfOk result (λ copies. copies.items ≡ keys.now) }
    ensures some { 0 < length keys.now }
{
    let (first, others) = keys.parts();
    let mut copies = Vec::new(alloc);
    let key = first.clone()?;
    copies.push(key)?;
    for word in others {
        let key = Key::from_key_word(alloc, word)?;
        copies.push(key)?;
    }
    Ok(VecDeque::from_vec(copies))
}

/// What the request asks of its shard, with this value in place of its block, which is dropped.
pub(crate) fn asked_with(asked: StoreRequest<Block>, value: Value) -> StoreRequest<Value>
    ensures { result ≡ record asked { value = value } }
{
    let StoreRequest {
        key,
        mode,
        compare,
        unique,
        flags,
        exptime,
        value: _block,
    } = asked;
    StoreRequest {
        key,
        mode,
        compare,
        unique,
        flags,
        exptime,
        value,
    }
}

/// The line of the answer, or nothing; where it says that a value is too large, that is an error.
#[inline(always)]
pub(crate) fn plain_line(noreply: bool) -> ReplyKind
    ensures { result ≡ ReplyKind.Line noreply false }
{
    ReplyKind::Line {
        noreply,
        lenient: false,
    }
}

impl Planner {
    /// `set`, `add`, `replace`, `append`, `prepend`, `cas`.
    #[tactic(auto, unfolding(crate::specs::Pieces::pieces_of, mc_reply::specs::ReplyKind::reply_kind_of))]
    pub(crate) fn store(
        self,
        queue: &mut PieceQueue,
        storage: Storage,
    ) -> Result<PendingReply, NoMemory>
        ensures { SplitsInto self (Command.Store storage) result queue.old.items queue.new.items }
    {
        let reply_kind = ReplyKind::Line {
            noreply: storage.noreply,
            lenient: storage.lenient,
        };
        let shard = storage.asked.key.place(self.shards);
        self.one(
            queue,
            reply_kind,
            shard,
            Op::Store(asked_of_shard(storage.asked)?),
        )
    }

    /// `get`, `gets`, `gat`, `gats`: one piece a key, in the order of the request. Where memory
    /// runs out, the queue holds what it held.
    #[tactic(auto, using(crate::proofs::Parts::get_asks), unfolding(crate::specs::Pieces::pieces_of, mc_reply::specs::ReplyKind::reply_kind_of))]
    pub(crate) fn get(
        self,
        queue: &mut PieceQueue,
        retrieval: Retrieval,
    ) -> Result<PendingReply, NoMemory>
        ensures { SplitsInto self (Command.Get retrieval) result queue.old.items queue.new.items }
    {
        let keys = keys_of(self.alloc, &retrieval.keys)?;
        let count = keys.len();
        let touch = retrieval.touch;
        let reply_kind = ReplyKind::Values {
            keys: retrieval.keys,
            with_unique: retrieval.with_unique,
        };
        let pending_reply = self.pending_reply(reply_kind, Kind::Fetch, count)?;
        queue.push_run(Run::Fetches(Fetches::new(self, keys, touch)))?;
        Ok(pending_reply)
    }

    /// `delete`.
    #[tactic(auto, unfolding(crate::specs::Pieces::pieces_of, mc_reply::specs::ReplyKind::reply_kind_of))]
    pub(crate) fn delete(
        self,
        queue: &mut PieceQueue,
        key: Key,
        noreply: bool,
    ) -> Result<PendingReply, NoMemory>
        ensures { SplitsInto self (Command.Delete key noreply) result
            queue.old.items queue.new.items }
    {
        let shard = key.place(self.shards);
        self.one(queue, plain_line(noreply), shard, Op::Delete { key })
    }

    /// A set whose value is too large, by memcached's rules: the item is deleted, whatever the
    /// shard answers, and the line is refused.
    #[tactic(auto, unfolding(crate::specs::Pieces::pieces_of, mc_reply::specs::ReplyKind::reply_kind_of))]
    pub(crate) fn discard(
        self,
        queue: &mut PieceQueue,
        key: Key,
        refusal: CommandError,
    ) -> Result<PendingReply, NoMemory>
        ensures { SplitsInto self (Command.Discard key refusal) result
            queue.old.items queue.new.items }
    {
        let shard = key.place(self.shards);
        let reply_kind = ReplyKind::Fixed(Fixed::Refused(refusal));
        self.one(queue, reply_kind, shard, Op::Discard { key })
    }

    /// `incr`, `decr`.
    #[tactic(auto, unfolding(crate::specs::Pieces::pieces_of, mc_reply::specs::ReplyKind::reply_kind_of))]
    pub(crate) fn count(
        self,
        queue: &mut PieceQueue,
        key: Key,
        direction: Direction,
        amount: u64,
        noreply: bool,
    ) -> Result<PendingReply, NoMemory>
        ensures { SplitsInto self (Command.Count key direction amount noreply) result
            queue.old.items queue.new.items }
    {
        let shard = key.place(self.shards);
        let op = Op::Count {
            key,
            direction,
            amount,
        };
        self.one(queue, plain_line(noreply), shard, op)
    }

    /// `touch`.
    #[tactic(auto, unfolding(crate::specs::Pieces::pieces_of, mc_reply::specs::ReplyKind::reply_kind_of))]
    pub(crate) fn touch(
        self,
        queue: &mut PieceQueue,
        key: Key,
        exptime: i64,
        noreply: bool,
    ) -> Result<PendingReply, NoMemory>
        ensures { SplitsInto self (Command.Touch key exptime noreply) result
            queue.old.items queue.new.items }
    {
        let shard = key.place(self.shards);
        self.one(
            queue,
            plain_line(noreply),
            shard,
            Op::Touch { key, exptime },
        )
    }

    /// `flush_all`: one piece a shard, rising.
    #[tactic(auto, unfolding(crate::specs::Pieces::pieces_of, mc_reply::specs::ReplyKind::reply_kind_of))]
    pub(crate) fn flush_all(
        self,
        queue: &mut PieceQueue,
        delay: i64,
        noreply: bool,
    ) -> Result<PendingReply, NoMemory>
        ensures { SplitsInto self (Command.FlushAll delay noreply) result
            queue.old.items queue.new.items }
    {
        self.all(queue, plain_line(noreply), ToAll::Flush { delay })
    }
}
