//! The pieces of the meta commands.
ghost use Rattle.std.specs.Prelude.{◌≡◌, IfOk};
ghost use Rattle.std.specs.List.{list_any};
ghost use Rattle.mc_reply.specs.ReplyKind.{is_key_flag, is_lenient_in, shown_key};
ghost use Rattle.mc_split.specs.Plan.{SplitsInto};

use crate::classic::asked_of_shard;
use crate::planner::Planner;
use crate::queue::PieceQueue;
use mc_command::{
    Command, MetaArithmetic, MetaDelete, MetaFlags, MetaGet, MetaKind, MetaSet, Profile,
    ReturnFlag, StoreMode, StoreRequest,
};
use mc_item::{NoMemory, Op, Value};
use mc_reply::{PendingReply, ReplyKind};
use mc_wire::Key;
use std::alloc::AllocError;

/// Whether it is the flag `k`.
fn is_key(flag: ReturnFlag) -> bool
    ensures { result ≡ is_key_flag flag }
{
    matches!(flag, ReturnFlag::Key)
}

/// Whether the flag `k` is among those that are returned.
fn shows_key(flags: &MetaFlags) -> bool
    ensures { result ≡ list_any is_key_flag flags.now.returned }
{
    flags.returned.flags().iter().any(|flag| is_key(*flag))
}

/// A copy of the key, where the reply shows it.
fn copy_shown(flags: &MetaFlags, key: &Key) -> Result<Option<Key>, AllocError>
    ensures { IfOk result (λ shown. shown ≡ shown_key flags.now key.now) }
{
    if !shows_key(flags) {
        return Ok(None);
    }
    let copy = key.clone()?;
    Ok(Some(copy))
}

/// Whether a value that `ms` joins in this mode counts as not stored where it is too large.
fn is_lenient_in(profile: Profile, mode: StoreMode) -> bool
    ensures { result ≡ is_lenient_in profile mode }
{
    matches!(profile, Profile::DropIn) && matches!(mode, StoreMode::Append | StoreMode::Prepend)
}

impl Planner {
    /// Splits `mg` with any flags, as `split_into` does.
    #[tactic(auto, unfolding(crate::specs::Pieces::pieces_of, mc_reply::specs::ReplyKind::reply_kind_of))]
    pub fn split_meta_get(
        self,
        queue: &mut PieceQueue,
        get: MetaGet,
    ) -> Result<PendingReply, NoMemory>
        ensures { SplitsInto self (Command.MetaGet get) result queue.old.items queue.new.items }
    {
        let reply_kind = ReplyKind::Meta {
            kind: MetaKind::Get,
            value: get.value,
            key: copy_shown(&get.flags, &get.asked.key)?,
            flags: get.flags,
            lenient: false,
        };
        let shard = get.asked.key.place(self.shards);
        self.one(queue, reply_kind, shard, Op::MetaGet(get.asked))
    }

    /// `ms`.
    #[tactic(auto, unfolding(crate::specs::Pieces::pieces_of, mc_reply::specs::ReplyKind::reply_kind_of))]
    pub(crate) fn meta_set(
        self,
        queue: &mut PieceQueue,
        set: MetaSet,
    ) -> Result<PendingReply, NoMemory>
        ensures { SplitsInto self (Command.MetaSet set) result queue.old.items queue.new.items }
    {
        let asked = asked_of_shard(set.asked)?;
        self.meta_store(queue, set.flags, asked)
    }

    /// `ms` with these flags, by what its shard is asked.
    #[tactic(auto, unfolding(crate::specs::Pieces::pieces_of, mc_reply::specs::ReplyKind::reply_kind_of))]
    pub(crate) fn meta_store(
        self,
        queue: &mut PieceQueue,
        flags: MetaFlags,
        asked: StoreRequest<Value>,
    ) -> Result<PendingReply, NoMemory>
        ensures { SplitsInto self (Command.MetaSet (record { asked = asked; flags = flags })) result
            queue.old.items queue.new.items }
    {
        let reply_kind = ReplyKind::Meta {
            kind: MetaKind::Set,
            value: false,
            key: copy_shown(&flags, &asked.key)?,
            lenient: is_lenient_in(flags.profile, asked.mode),
            flags,
        };
        let shard = asked.key.place(self.shards);
        self.one(queue, reply_kind, shard, Op::MetaStore(asked))
    }

    /// `md`.
    #[tactic(auto, unfolding(crate::specs::Pieces::pieces_of, mc_reply::specs::ReplyKind::reply_kind_of))]
    pub(crate) fn meta_delete(
        self,
        queue: &mut PieceQueue,
        delete: MetaDelete,
    ) -> Result<PendingReply, NoMemory>
        ensures { SplitsInto self (Command.MetaDelete delete) result
            queue.old.items queue.new.items }
    {
        let reply_kind = ReplyKind::Meta {
            kind: MetaKind::Delete,
            value: false,
            key: copy_shown(&delete.flags, &delete.asked.key)?,
            flags: delete.flags,
            lenient: false,
        };
        let shard = delete.asked.key.place(self.shards);
        self.one(queue, reply_kind, shard, Op::MetaDelete(delete.asked))
    }

    /// `ma`.
    #[tactic(auto, unfolding(crate::specs::Pieces::pieces_of, mc_reply::specs::ReplyKind::reply_kind_of))]
    pub(crate) fn meta_arithmetic(
        self,
        queue: &mut PieceQueue,
        arithmetic: MetaArithmetic,
    ) -> Result<PendingReply, NoMemory>
        ensures { SplitsInto self (Command.MetaArithmetic arithmetic) result
            queue.old.items queue.new.items }
    {
        let reply_kind = ReplyKind::Meta {
            kind: MetaKind::Arithmetic,
            value: arithmetic.value,
            key: copy_shown(&arithmetic.flags, &arithmetic.asked.key)?,
            flags: arithmetic.flags,
            lenient: false,
        };
        let shard = arithmetic.asked.key.place(self.shards);
        self.one(queue, reply_kind, shard, Op::MetaCount(arithmetic.asked))
    }
}
