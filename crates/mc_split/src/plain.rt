//! The commands that are split without a value of a command: from their words to their piece and
//! the pending reply of their reply.
ghost use Rattle.std.specs.Prelude.{◌≡◌, ◌≤◌, ◌∷◌, [], Bool, IfOk, List, None, ℕ, ℤ, length};
ghost use Rattle.mc_command.specs.Command.{with_block};
ghost use Rattle.mc_command.specs.Field.{AreKeys};
ghost use Rattle.mc_command.specs.declared.command.Command.TheVariants as command;
ghost use Rattle.mc_command.specs.declared.rules.Profile.{Profile};
ghost use Rattle.mc_wire.specs.Key.{key_fault};
ghost use Rattle.mc_wire.specs.Words.{words_of};
ghost use Rattle.mc_wire.specs.declared.TheConstants.{MAX_VALUE_LIMIT};
ghost use Rattle.mc_fast.specs.FastCommand.{get_of, meta_get_of, set_of};
ghost use Rattle.mc_split.specs.Plan.{pending_reply_of, Queues, SplitsInto};

use crate::classic::{asked_with, plain_line};
use crate::planner::Planner;
use crate::queue::PieceQueue;
use mc_command::{
    CommandError, Keys, MetaFetch, MetaFlags, MetaKind, MetaSet, Opaque, Profile, Retrieval,
    Returned, StoreMode, StoreRequest,
};
use mc_item::{Kind, NoMemory, Op};
use mc_reply::{Fixed, PendingReply, ReplyKind};
use mc_wire::Key;

impl Planner {
    /// The pending reply of the reply to `mn`.
    #[inline(always)]
    #[tactic(auto, unfolding(crate::specs::Pieces::pieces_of, mc_reply::specs::ReplyKind::reply_kind_of))]
    pub fn split_no_op(self) -> PendingReply
        ensures { result ≡ pending_reply_of self.shards self.ticket command.MetaNoop }
    {
        self.fixed(Fixed::MetaNoop)
    }

    /// The pending reply of the reply to a command that is refused. It takes no memory.
    #[tactic(auto, unfolding(crate::specs::Pieces::pieces_of, mc_reply::specs::ReplyKind::reply_kind_of))]
    pub fn pending_reply_of_refusal(self, refusal: CommandError) -> PendingReply
        ensures { result ≡ pending_reply_of self.shards self.ticket (command.Refused refusal) }
    {
        self.fixed(Fixed::Refused(refusal))
    }

    /// Puts the piece of `get KEY`, or `gets KEY`, behind those of the queue, and returns the key
    /// that the reply shows. Where memory runs out, the queue holds what it held.
    #[inline(always)]
    #[tactic(auto, unfolding(crate::specs::Pieces::pieces_of))]
    pub fn queue_get_one(self, queue: &mut PieceQueue, key: &[u8]) -> Result<Key, NoMemory>
        requires key { key_fault key.now ≡ None }
        ensures shown { IfOk result (λ shown. shown ≡ key.now) }
        ensures queues { (with_unique : Bool) →
            Queues self (get_of (key.now ∷ []) with_unique) result
            queue.old.items queue.new.items }
    {
        let shown = Key::from_key_word(self.alloc, key)?;
        let key = Key::from_key_word(self.alloc, key)?;
        let shard = key.place(self.shards);
        self.push(queue, shard, 0, Op::Fetch { key, touch: None })?;
        Ok(shown)
    }

    /// The pending reply of the reply to `get KEY`, or to `gets KEY`, which shows the unique. It
    /// takes no memory.
    #[inline(always)]
    #[tactic(auto, unfolding(crate::specs::Pieces::pieces_of, mc_reply::specs::ReplyKind::reply_kind_of))]
    pub fn pending_reply_of_get_one(self, key: Key, with_unique: bool) -> PendingReply
        ensures { (shards : ℕ) →
            result ≡ pending_reply_of shards self.ticket (get_of (key ∷ []) with_unique) }
    {
        let reply_kind = ReplyKind::Values {
            keys: Keys::one(self.alloc, key),
            with_unique,
        };
        self.pending_reply_of_one(reply_kind, Kind::Fetch)
    }

    /// Splits `get KEY ..`, or `gets KEY ..`, by the first key and the text of the others, as
    /// `split_into` does.
    #[tactic(auto, unfolding(crate::specs::Pieces::pieces_of, mc_reply::specs::ReplyKind::reply_kind_of))]
    pub fn split_get(
        self,
        queue: &mut PieceQueue,
        first: &[u8],
        others: &[u8],
        with_unique: bool,
    ) -> Result<PendingReply, NoMemory>
        requires first { key_fault first.now ≡ None }
        requires others { AreKeys (words_of others.now) }
        ensures { SplitsInto self (get_of (first.now ∷ words_of others.now) with_unique) result
            queue.old.items queue.new.items }
    {
        let keys = Keys::from_key_words(self.alloc, first, others)?;
        self.get(
            queue,
            Retrieval {
                keys,
                touch: None,
                with_unique,
            },
        )
    }

    /// Puts the piece of `mg KEY v` behind those of the queue. Where memory runs out, the queue
    /// holds what it held.
    #[inline(always)]
    #[tactic(auto, unfolding(crate::specs::Pieces::pieces_of))]
    pub fn queue_meta_get_value(self, queue: &mut PieceQueue, key: &[u8]) -> Result<(), NoMemory>
        requires key { key_fault key.now ≡ None }
        ensures { (profile : Profile) →
            Queues self (meta_get_of profile key.now) result queue.old.items queue.new.items }
    {
        let key = Key::from_key_word(self.alloc, key)?;
        let shard = key.place(self.shards);
        let op = Op::MetaGet(MetaFetch {
            key,
            touch: None,
            vivify: None,
            recache: None,
            unnoted: false,
        });
        self.push(queue, shard, 0, op)?;
        Ok(())
    }

    /// The pending reply of the reply to `mg KEY v`, which follows these rules. It takes no memory.
    #[inline(always)]
    #[tactic(auto, unfolding(crate::specs::Pieces::pieces_of, mc_reply::specs::ReplyKind::reply_kind_of))]
    pub fn pending_reply_of_meta_get_value(self, profile: Profile) -> PendingReply
        ensures { (shards : ℕ) (key : List ℕ) →
            result ≡ pending_reply_of shards self.ticket (meta_get_of profile key) }
    {
        let reply_kind = ReplyKind::Meta {
            kind: MetaKind::Get,
            flags: MetaFlags {
                base64: false,
                quiet: false,
                profile,
                returned: Returned::new(),
                opaque: Opaque::empty(),
            },
            value: true,
            key: None,
            lenient: false,
        };
        self.pending_reply_of_one(reply_kind, Kind::MetaGet)
    }

    /// Splits `ms` with this block in place of its own, as `split_into` does.
    #[tactic(auto, unfolding(crate::specs::Pieces::pieces_of, mc_reply::specs::ReplyKind::reply_kind_of))]
    pub fn split_meta_set(
        self,
        queue: &mut PieceQueue,
        set: MetaSet,
        block: &[u8],
    ) -> Result<PendingReply, NoMemory>
        requires { length block.now ≤ MAX_VALUE_LIMIT }
        ensures { SplitsInto self (with_block (command.MetaSet set) block.now) result
            queue.old.items queue.new.items }
    {
        let value = queue.value_of(self.alloc, block)?;
        self.meta_store(queue, set.flags, asked_with(set.asked, value))
    }

    /// Puts the piece of `set KEY FLAGS E N [noreply]` with its block behind those of the queue.
    /// Where memory runs out, the queue holds what it held.
    #[inline(always)]
    #[tactic(auto, unfolding(crate::specs::Pieces::pieces_of))]
    pub fn queue_set(
        self,
        queue: &mut PieceQueue,
        key: &[u8],
        flags: u32,
        exptime: i64,
        block: &[u8],
    ) -> Result<(), NoMemory>
        requires key { key_fault key.now ≡ None }
        requires small { length block.now ≤ MAX_VALUE_LIMIT }
        ensures { (noreply : Bool) →
            Queues self (set_of key.now flags exptime noreply block.now) result
            queue.old.items queue.new.items }
    {
        let key = Key::from_key_word(self.alloc, key)?;
        let value = queue.value_of(self.alloc, block)?;
        let shard = key.place(self.shards);
        let op = Op::Store(StoreRequest {
            key,
            mode: StoreMode::Set,
            compare: None,
            unique: None,
            flags,
            exptime,
            value,
        });
        self.push(queue, shard, 0, op)?;
        Ok(())
    }

    /// The pending reply of the reply to `set`, which `noreply` hides. It takes no memory.
    #[inline(always)]
    #[tactic(auto, unfolding(crate::specs::Pieces::pieces_of, mc_reply::specs::ReplyKind::reply_kind_of))]
    pub fn pending_reply_of_set(self, noreply: bool) -> PendingReply
        ensures { (shards : ℕ) (key : List ℕ) (flags : ℕ) (exptime : ℤ) (block : List ℕ) →
            result ≡ pending_reply_of shards self.ticket (set_of key flags exptime noreply block) }
    {
        self.pending_reply_of_one(plain_line(noreply), Kind::Store)
    }
}
