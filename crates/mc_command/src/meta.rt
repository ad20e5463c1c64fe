//! The meta commands (protocol.txt, "Meta Commands") and their flags.
ghost use Rattle.std.specs.Prelude.{◌≡◌, ◌<◌, ◌≤◌, [], ◌∷◌, ◌++◌, length};
ghost use Rattle.std.specs.Option.{SomeIff};

use crate::block::Block;
use crate::command::{Direction, StoreRequest};
use crate::rules::{Profile, Rules};
use arrayvec::ArrayVec;
use mc_wire::{Key, OPAQUE_LIMIT};
use std::marker::Model;

/// Number of flags that a reply can return.
pub const RETURN_FLAGS: usize = 8;

/// A flag that is returned in the reply.
#[derive(Clone, Copy, Debug, Default, PartialEq, Eq)]
pub enum ReturnFlag {
    /// `c`: the cas unique.
    #[default]
    Unique,
    /// `f`: the client flags.
    ClientFlags,
    /// `h`: whether the item was fetched before.
    Fetched,
    /// `k`: the key.
    Key,
    /// `l`: the seconds since the last access.
    LastAccess,
    /// `O`: the opaque token.
    Opaque,
    /// `s`: the length of the value.
    Size,
    /// `t`: the seconds to live.
    TimeLeft,
}

/// The token of the flag `O` (protocol.txt, "Meta Commands": "opaque value, consumes a token and
/// copies back with response"): at most `OPAQUE_LIMIT` bytes, stored inline.
#[derive(Drop)]
pub struct Opaque {
    bytes: ArrayVec<u8, OPAQUE_LIMIT>,
}

impl Model for Opaque {
    ghost use Rattle.std.specs.Prelude.{ℕ, List};
    ghost use Rattle.std.specs.Prelude.{◌≤◌, length};
    ghost use Rattle.mc_wire.specs.declared.TheConstants.{OPAQUE_LIMIT};

    ghost Value = { List ℕ };

    ghost view = { λ opaque. opaque.bytes.items };

    ghost invariant = { λ opaque. length opaque.bytes.items ≤ OPAQUE_LIMIT };
}

impl Opaque {
    /// The empty token.
    pub fn empty() -> Opaque
        ensures { result ≡ [] }
    {
        Opaque {
            bytes: ArrayVec::new(),
        }
    }

    /// A token with these bytes; `None` if there are more than `OPAQUE_LIMIT`.
    pub fn from_token(token: &[u8]) -> Option<Opaque>
        ensures { SomeIff result (length token.now ≤ OPAQUE_LIMIT) token.now }
    {
        let mut bytes = ArrayVec::new();
        match bytes.try_extend_from_slice(token) {
            Ok(()) => Some(Opaque { bytes }),
            Err(_) => None,
        }
    }

    /// The bytes of the token.
    pub fn bytes(&self) -> &[u8]
        ensures value { result.now ≡ self.now }
        ensures short { length result.now ≤ OPAQUE_LIMIT }
    {
        self.bytes.as_slice()
    }
}

/// The flags to return, in the order of the request, each of the `RETURN_FLAGS` at most once.
/// Stored inline.
#[derive(Drop)]
pub struct Returned {
    flags: ArrayVec<ReturnFlag, RETURN_FLAGS>,
}

impl Model for Returned {
    ghost use Rattle.std.specs.Prelude.{List};
    ghost use Rattle.mc_command.specs.declared.meta.ReturnFlag.{ReturnFlag};
    ghost use Rattle.std.specs.Prelude.{◌≤◌, length};
    ghost use Rattle.mc_command.specs.declared.meta.TheConstants.{RETURN_FLAGS};

    ghost Value = { List ReturnFlag };

    ghost view = { λ returned. returned.flags.items };

    ghost invariant = { λ returned. length returned.flags.items ≤ RETURN_FLAGS };
}

impl Returned {
    /// No flags.
    pub fn new() -> Returned
        ensures { result ≡ [] }
    {
        Returned {
            flags: ArrayVec::new(),
        }
    }

    /// Appends a flag.
    pub fn push(&mut self, flag: ReturnFlag)
        requires { length self.old < RETURN_FLAGS }
        ensures { self.new ≡ self.old ++ flag ∷ [] }
    {
        self.flags.push(flag);
    }

    /// The flags, in the order of the request.
    pub fn flags(&self) -> &[ReturnFlag]
        ensures value { result.now ≡ self.now }
        ensures short { length result.now ≤ RETURN_FLAGS }
    {
        self.flags.as_slice()
    }
}

/// A meta command with a key.
#[derive(Clone, Copy)]
pub enum MetaKind {
    /// `mg`.
    Get,
    /// `ms`.
    Set,
    /// `md`.
    Delete,
    /// `ma`.
    Arithmetic,
}

impl MetaKind {
    ghost use Rattle.mc_command.specs.Meta.{is_among, letters_by};

    /// Whether the command has a flag of this letter under these rules.
    pub(crate) fn has_flag(self, rules: Rules, letter: u8) -> bool
        ensures { result ≡ is_among (letters_by rules.profile self) letter }
    {
        self.letters(rules).contains(&letter)
    }

    /// The letters of its flags under these rules.
    fn letters(self, rules: Rules) -> &'static [u8]
        ensures { result.now ≡ letters_by rules.profile self }
    {
        match (rules.profile, self) {
            (Profile::Own, MetaKind::Get) => b"bcfhklOqstvNRT",
            (Profile::Own, MetaKind::Set) => b"bkOqcsCEFTM",
            (Profile::Own, MetaKind::Delete) => b"bkOqCEIT",
            (Profile::Own, MetaKind::Arithmetic) => b"bkOqctvCDEJMNT",
            (Profile::DropIn, MetaKind::Get) => b"bcfhklOqstvNRTPLu",
            (Profile::DropIn, MetaKind::Set) => b"bkOqcsCEFTMINPL",
            (Profile::DropIn, MetaKind::Delete) => b"bkOqCEITPL",
            (Profile::DropIn, MetaKind::Arithmetic) => b"bkOqctvCDEJMNTPL",
        }
    }
}

/// Flags of all meta commands that affect the reply.
#[derive(Drop)]
pub struct MetaFlags {
    /// `b`: the key is in base64, and is returned so.
    pub base64: bool,
    /// `q`: uninteresting replies are hidden.
    pub quiet: bool,
    /// The profile whose rules the reply follows.
    pub profile: Profile,
    /// The flags to return, in the order of the request.
    pub returned: Returned,
    /// The token of `O`; empty by default.
    pub opaque: Opaque,
}

/// `mg`.
#[derive(Drop)]
pub struct MetaGet {
    /// The request to the shard.
    pub asked: MetaFetch,
    pub flags: MetaFlags,
    /// `v`: return the value.
    pub value: bool,
}

/// The request of `mg` to the shard.
#[derive(Drop)]
pub struct MetaFetch {
    pub key: Key,
    /// `T`: the new exptime on a hit.
    pub touch: Option<i64>,
    /// `N`: on a miss, create an empty item with this exptime.
    pub vivify: Option<i64>,
    /// `R`: if fewer seconds are left, the client is asked to recache.
    pub recache: Option<i64>,
    /// `u`, under memcached's rules: don't record the fetch.
    pub unnoted: bool,
}

/// `ms`, with its data block.
#[derive(Drop)]
pub struct MetaSet {
    /// The request to the shard.
    pub asked: StoreRequest<Block>,
    pub flags: MetaFlags,
}

/// `md`.
#[derive(Drop)]
pub struct MetaDelete {
    /// The request to the shard.
    pub asked: MetaRemoval,
    pub flags: MetaFlags,
}

/// The request of `md` to the shard.
#[derive(Drop)]
pub struct MetaRemoval {
    pub key: Key,
    /// `C`: the unique that the item must have.
    pub compare: Option<u64>,
    /// `E`: the new unique of an item marked stale. By default the shard assigns its next one.
    pub unique: Option<u64>,
    /// `I`: mark the item stale instead of deleting it.
    pub invalidate: bool,
    /// `T`: the new exptime of an item marked stale.
    pub exptime: Option<i64>,
}

/// `ma`.
#[derive(Drop)]
pub struct MetaArithmetic {
    /// The request to the shard.
    pub asked: MetaCount,
    pub flags: MetaFlags,
    /// `v`: return the number.
    pub value: bool,
}

/// The request of `ma` to the shard.
#[derive(Drop)]
pub struct MetaCount {
    pub key: Key,
    /// `C`: the unique that the item must have.
    pub compare: Option<u64>,
    /// `E`: the item's new unique. By default the shard assigns its next one.
    pub unique: Option<u64>,
    pub direction: Direction,
    /// `D`: the amount; 1 by default.
    pub amount: u64,
    /// `T`: the new exptime of an existing item.
    pub exptime: Option<i64>,
    /// `N` and `J`: the item to create on a miss.
    pub vivify: Option<Vivify>,
}

/// The item that `ma` creates on a miss, by its flags `N` and `J`.
#[derive(Clone, Copy)]
pub struct Vivify {
    pub exptime: i64,
    /// The initial number; 0 by default.
    pub initial: u64,
}
