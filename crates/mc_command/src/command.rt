//! Parsed commands, with typed fields.
ghost use Rattle.std.specs.Prelude.{◌≡◌};

use crate::block::Block;
use crate::error::CommandError;
use crate::keys::Keys;
use crate::meta::{MetaArithmetic, MetaDelete, MetaGet, MetaSet};
use crate::rules::Profile;
use mc_wire::Key;

/// A command of a client.
#[derive(Drop)]
pub enum Command {
    /// `set`, `add`, `replace`, `append`, `prepend`, `cas`.
    Store(Storage),
    /// `get`, `gets`, `gat`, `gats`.
    Get(Retrieval),
    /// `delete KEY`.
    Delete {
        key: Key,
        noreply: bool,
    },
    /// `incr KEY AMOUNT`, `decr KEY AMOUNT`.
    Count {
        key: Key,
        direction: Direction,
        amount: u64,
        noreply: bool,
    },
    /// `touch KEY EXPTIME`.
    Touch {
        key: Key,
        exptime: i64,
        noreply: bool,
    },
    /// `flush_all [DELAY]`; the default delay is 0.
    FlushAll {
        delay: i64,
        noreply: bool,
    },
    /// `version`, answered with the profile's version.
    Version(Profile),
    /// `verbosity LEVEL`, which has no effect.
    Verbosity {
        noreply: bool,
    },
    /// `stats [WHAT]`, under memcached's rules.
    Stats(StatsRequest),
    /// `quit`, which closes the stream.
    Quit,
    /// `shutdown`, which closes the stream and requests the server's end, by memcached's rules.
    Shutdown,
    /// `mn`.
    MetaNoop,
    /// `mg`.
    MetaGet(MetaGet),
    /// `ms`.
    MetaSet(MetaSet),
    /// `md`.
    MetaDelete(MetaDelete),
    /// `ma`.
    MetaArithmetic(MetaArithmetic),
    /// A refused line, or a refused data block.
    Refused(CommandError),
    /// A line whose value is too large, under memcached's rules: the item under the key is deleted,
    /// and the line is refused.
    Discard {
        key: Key,
        refusal: CommandError,
    },
}

impl Command {
    ghost use Rattle.mc_command.specs.Command.{with_block};

    /// The command with this data block, which replaces its own; that is dropped. A command without
    /// a block is returned unchanged (protocol.txt, "Storage commands").
    pub fn with_block(self, block: Block) -> Command
        ensures { result ≡ with_block self block }
    {
        match self {
            Command::Store(storage) => Command::Store(Storage {
                asked: storage.asked.with_value(block),
                ..storage
            }),
            Command::MetaSet(set) => Command::MetaSet(MetaSet {
                asked: set.asked.with_value(block),
                ..set
            }),
            other => other,
        }
    }
}

/// A classic storage command with its data block (protocol.txt, "Storage commands").
#[derive(Drop)]
pub struct Storage {
    /// The request to the shard.
    pub asked: StoreRequest<Block>,
    pub noreply: bool,
    /// A joined value that is too large counts as not stored, which is no error: `append` and
    /// `prepend` under memcached's rules.
    pub lenient: bool,
}

/// A request to store an item, by a classic command or by `ms`. A parsed line has a data block in
/// it, a shard gets it with a value that can be shared.
#[derive(Drop)]
pub struct StoreRequest<V> {
    /// The item's key, decoded if it was sent in base64.
    pub key: Key,
    /// How the value is stored: the command's name, or the flag `M`.
    pub mode: StoreMode,
    /// `cas`, or the flag `C`: the unique that the item must have.
    pub compare: Option<u64>,
    /// The flag `E`: the item's new unique. By default the shard assigns its next one.
    pub unique: Option<u64>,
    /// The client flags; 0 by default.
    pub flags: u32,
    /// The exptime; 0 by default.
    pub exptime: i64,
    /// The bytes of the data block, without its line end.
    pub value: V,
}

impl<V: Drop> StoreRequest<V> {
    ghost use Rattle.mc_command.specs.Command.{with_value};

    /// The request with this value, which replaces its own; that is dropped.
    pub fn with_value(self, value: V) -> StoreRequest<V>
        ensures { result ≡ with_value self value }
    {
        StoreRequest { value, ..self }
    }
}

/// How a storage command treats the existing item: the name of a classic command, or the flag `M`
/// of `ms`.
#[derive(Clone, Copy, Debug, PartialEq, Eq)]
pub enum StoreMode {
    /// `set` and `cas`, and `S`.
    Set,
    /// `add`, and `E`.
    Add,
    /// `replace`, and `R`.
    Replace,
    /// `append`, and `A`.
    Append,
    /// `prepend`, and `P`.
    Prepend,
}

/// A classic get (protocol.txt, "Retrieval command" and "Get And Touch").
#[derive(Drop)]
pub struct Retrieval {
    pub keys: Keys,
    /// The exptime that `gat` and `gats` set on the items found.
    pub touch: Option<i64>,
    /// Whether uniques are returned, as for `gets` and `gats`.
    pub with_unique: bool,
}

/// A section of `stats` (protocol.txt, "Statistics").
#[derive(Clone, Copy)]
pub enum StatsRequest {
    /// `stats`: the statistics summed over all shards.
    General,
    /// `stats reset`: sets the counters to 0.
    Reset,
    /// `stats settings`, `items`, `slabs`, `sizes`, `conns` and `cachedump`: this server has nothing
    /// to show there.
    Empty,
}

/// Whether a number is incremented or decremented.
#[derive(Clone, Copy, Debug, PartialEq, Eq)]
pub enum Direction {
    /// Increment, modulo 2^64.
    Increment,
    /// Decrement, but not below 0.
    Decrement,
}
