//! What a shard is asked: the twelve kinds of piece.
ghost use Rattle.std.specs.Prelude.{◌≡◌};
ghost use Rattle.std.specs.Option.{option_copied};
ghost use Rattle.mc_item.specs.Kind.{kind_of, key_of};

use crate::answer::Kind;
use crate::value::Value;
use mc_command::{Direction, MetaCount, MetaFetch, MetaRemoval, StoreRequest};
use mc_wire::Key;

/// One piece of a command, for the shard of its key.
#[derive(Drop)]
pub enum Op {
    /// `set`, `add`, `replace`, `append`, `prepend`, `cas`.
    Store(StoreRequest<Value>),
    /// `get` and `gets`; with an exptime `gat` and `gats`.
    Fetch {
        key: Key,
        touch: Option<i64>,
    },
    /// `incr` and `decr`.
    Count {
        key: Key,
        direction: Direction,
        amount: u64,
    },
    /// `delete`.
    Delete {
        key: Key,
    },
    /// The item under the key of a value that is too large is deleted, by memcached's rules.
    Discard {
        key: Key,
    },
    /// `touch`.
    Touch {
        key: Key,
        exptime: i64,
    },
    /// `flush_all`: on one shard.
    Flush {
        delay: i64,
    },
    /// `stats`: of one shard.
    Stats,
    /// `stats reset`: of one shard.
    ResetStats,
    MetaGet(MetaFetch),
    MetaStore(StoreRequest<Value>),
    MetaDelete(MetaRemoval),
    MetaCount(MetaCount),
}

impl Op {
    /// The kind of the piece.
    #[tactic(auto, unfolding(crate::specs::Kind::kind_of))]
    pub fn kind(&self) -> Kind
        ensures { result ≡ kind_of self.now }
    {
        match self {
            Op::Store(_) => Kind::Store,
            Op::Fetch { .. } => Kind::Fetch,
            Op::Count { .. } => Kind::Count,
            Op::Delete { .. } | Op::Discard { .. } => Kind::Delete,
            Op::Touch { .. } => Kind::Touch,
            Op::Flush { .. } => Kind::Flush,
            Op::Stats => Kind::Stats,
            Op::ResetStats => Kind::ResetStats,
            Op::MetaGet(_) => Kind::MetaGet,
            Op::MetaStore(_) => Kind::MetaStore,
            Op::MetaDelete(_) => Kind::MetaDelete,
            Op::MetaCount(_) => Kind::MetaCount,
        }
    }

    /// The key whose item is asked for; `flush_all` and `stats` have none.
    #[tactic(auto, unfolding(crate::specs::Kind::key_of))]
    pub fn key(&self) -> Option<&Key>
        ensures { option_copied result ≡ key_of self.now }
    {
        match self {
            Op::Fetch { key, .. }
            | Op::Count { key, .. }
            | Op::Delete { key }
            | Op::Discard { key }
            | Op::Touch { key, .. } => Some(key),
            Op::MetaGet(get) => Some(&get.key),
            Op::Store(store) | Op::MetaStore(store) => Some(&store.key),
            Op::MetaDelete(delete) => Some(&delete.key),
            Op::MetaCount(count) => Some(&count.key),
            Op::Flush { .. } | Op::Stats | Op::ResetStats => None,
        }
    }
}
