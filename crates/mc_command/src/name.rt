//! Command names.
ghost use Rattle.std.specs.Prelude.{◌≡◌};
ghost use Rattle.mc_command.specs.Name.{name_of};

use crate::command::{Direction, StoreMode};
use crate::meta::MetaKind;
use crate::table::find_word;

/// The command that the first word of a line names.
#[derive(Clone, Copy)]
pub(crate) enum CommandName {
    /// `set`, `add`, `replace`, `append` and `prepend`.
    Store(StoreMode),
    /// `cas`.
    CompareAndSwap,
    /// `get` and `gets`.
    Get { with_unique: bool },
    /// `gat` and `gats`.
    GetAndTouch { with_unique: bool },
    /// `delete`.
    Delete,
    /// `incr` and `decr`.
    Count(Direction),
    /// `touch`.
    Touch,
    /// `flush_all`.
    FlushAll,
    /// `version`.
    Version,
    /// `verbosity`.
    Verbosity,
    /// `stats`.
    Stats,
    /// `quit`.
    Quit,
    /// `shutdown`.
    Shutdown,
    /// `mn`.
    MetaNoop,
    /// `mg`, `ms`, `md` and `ma`.
    Meta(MetaKind),
}

/// Each name with its command. Names are lower case.
const NAMES: [(&[u8], CommandName); 25] = [
    (b"get", CommandName::Get { with_unique: false }),
    (b"gets", CommandName::Get { with_unique: true }),
    (b"gat", CommandName::GetAndTouch { with_unique: false }),
    (b"gats", CommandName::GetAndTouch { with_unique: true }),
    (b"set", CommandName::Store(StoreMode::Set)),
    (b"add", CommandName::Store(StoreMode::Add)),
    (b"replace", CommandName::Store(StoreMode::Replace)),
    (b"append", CommandName::Store(StoreMode::Append)),
    (b"prepend", CommandName::Store(StoreMode::Prepend)),
    (b"cas", CommandName::CompareAndSwap),
    (b"mg", CommandName::Meta(MetaKind::Get)),
    (b"ms", CommandName::Meta(MetaKind::Set)),
    (b"md", CommandName::Meta(MetaKind::Delete)),
    (b"ma", CommandName::Meta(MetaKind::Arithmetic)),
    (b"mn", CommandName::MetaNoop),
    (b"delete", CommandName::Delete),
    (b"incr", CommandName::Count(Direction::Increment)),
    (b"decr", CommandName::Count(Direction::Decrement)),
    (b"touch", CommandName::Touch),
    (b"flush_all", CommandName::FlushAll),
    (b"version", CommandName::Version),
    (b"verbosity", CommandName::Verbosity),
    (b"quit", CommandName::Quit),
    (b"stats", CommandName::Stats),
    (b"shutdown", CommandName::Shutdown),
];

/// Looks up a command name.
#[tactic(auto, unfolding(crate::specs::Name::name_of))]
pub(crate) fn read_name(word: &[u8]) -> Option<CommandName>
    ensures { result ≡ name_of word.now }
{
    find_word(&NAMES, word)
}
