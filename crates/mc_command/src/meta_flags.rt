//! Parsing of meta flags (protocol.txt, "Meta Commands"): each is one letter, directly followed by
//! its token.
ghost use Rattle.std.specs.Prelude.{◌≡◌, [], OnOk, IfErr};
ghost use Rattle.mc_wire.specs.Words.{words_left};
ghost use Rattle.mc_command.specs.Meta.{flags_refusal, unless};
ghost use Rattle.mc_command.specs.Meta as table;
ghost use Rattle.mc_command.specs.internal.FlagsAsked.{asked_of};
ghost use Rattle.mc_command.specs.internal.FlagReading.{CountsFlags, nothing_asked, unseen, with_flag, with_word};
ghost use Rattle.mc_command.specs.internal.FlagReading as spec;

use crate::command::{Direction, StoreMode};
use crate::error::CommandError;
use crate::field::{read_i64, read_u32, read_u64};
use crate::meta::{MetaFlags, MetaKind, Opaque, ReturnFlag, Returned};
use crate::rules::{Profile, Rules};
use mc_wire::WordWalk;

/// The flags of a line.
#[derive(Drop)]
pub(crate) struct FlagsRead {
    pub(crate) flags: MetaFlags,
    /// `v`.
    pub(crate) value: bool,
    /// `I`.
    pub(crate) invalidate: bool,
    /// `u`.
    pub(crate) unnoted: bool,
    /// `T`.
    pub(crate) exptime: Option<i64>,
    /// `N`.
    pub(crate) vivify: Option<i64>,
    /// `R`.
    pub(crate) recache: Option<i64>,
    /// `C`.
    pub(crate) compare: Option<u64>,
    /// `E`.
    pub(crate) unique: Option<u64>,
    /// `D`.
    pub(crate) amount: Option<u64>,
    /// `J`.
    pub(crate) initial: Option<u64>,
    /// `F`.
    pub(crate) client_flags: Option<u32>,
    /// `M` of `ms`.
    pub(crate) mode: Option<StoreMode>,
    /// `M` of `ma`.
    pub(crate) direction: Option<Direction>,
}

/// A parsed flag, with its token's value.
#[derive(Drop)]
enum Flag {
    /// `b`.
    Base64,
    /// `q`.
    Quiet,
    /// `v`.
    Value,
    /// `I`.
    Invalidate,
    /// `u`.
    Unnoted,
    /// `O`.
    Opaque(Opaque),
    /// `M` of `ms`.
    Mode(StoreMode),
    /// `M` of `ma`.
    Direction(Direction),
    /// `T`.
    Exptime(i64),
    /// `N`.
    Vivify(i64),
    /// `R`.
    Recache(i64),
    /// `C`.
    Compare(u64),
    /// `E`.
    Unique(u64),
    /// `D`.
    Amount(u64),
    /// `J`.
    Initial(u64),
    /// `F`.
    ClientFlags(u32),
    /// A flag that is only returned.
    Bare,
}

/// Parses the flags of a line: the words after the key and the length. The first invalid flag
/// determines the refusal.
pub(crate) fn read_flags(
    rules: Rules,
    name: MetaKind,
    walk: WordWalk<'_>,
) -> Result<FlagsRead, CommandError>
    ensures { result ≡
        unless (flags_refusal rules name [] (words_left walk.entry))
        (Ok (asked_of rules name (words_left walk.entry))) }
{
    let mut reader = FlagReader::new(rules.profile);
    for word in walk {
        reader.read(rules, name, word)?;
    }
    Ok(reader.asked)
}

/// The parser's state.
#[derive(Drop)]
struct FlagReader {
    /// For each byte, whether a flag of this letter was parsed.
    seen: [bool; 256],
    asked: FlagsRead,
}

impl FlagReader {
    fn new(profile: Profile) -> FlagReader
        ensures seen { result.seen ≡ unseen }
        ensures asked { result.asked ≡ nothing_asked profile }
    {
        FlagReader {
            seen: [false; 256],
            asked: FlagsRead::nothing(profile),
        }
    }

    /// Parses one more flag. If it is refused, nothing changes.
    fn read(&mut self, rules: Rules, name: MetaKind, word: &[u8]) -> Result<(), CommandError>
        requires { CountsFlags self.old }
        ensures counted { OnOk result (CountsFlags self.new) }
        ensures ok { OnOk result (with_word rules name self.old word.now ≡ Ok self.new) }
        ensures err { IfErr result
            (λ refusal. with_word rules name self.old word.now ≡ Err refusal) }
    {
        let Some((letter, token)) = word.split_first() else {
            return Err(CommandError::InvalidFlag);
        };
        let letter = *letter;
        if !name.has_flag(rules, letter) {
            return Err(CommandError::InvalidFlag);
        }
        if self.seen[usize::from(letter)] {
            return Err(CommandError::DuplicateFlag);
        }
        let flag = flag_of(name, letter, token)?;
        self.asked.add(flag);
        if let Some(shown) = return_flag(letter) {
            self.asked.flags.returned.push(shown);
        }
        self.seen[usize::from(letter)] = true;
        Ok(())
    }
}

impl FlagsRead {
    /// The state without flags, for a reply under this profile's rules.
    fn nothing(profile: Profile) -> FlagsRead
        ensures { result ≡ nothing_asked profile }
    {
        FlagsRead {
            flags: MetaFlags {
                base64: false,
                quiet: false,
                profile,
                returned: Returned::new(),
                opaque: Opaque::empty(),
            },
            value: false,
            invalidate: false,
            unnoted: false,
            exptime: None,
            vivify: None,
            recache: None,
            compare: None,
            unique: None,
            amount: None,
            initial: None,
            client_flags: None,
            mode: None,
            direction: None,
        }
    }

    /// Records what a flag means besides being returned.
    fn add(&mut self, flag: Flag)
        ensures { self.new ≡ with_flag self.old flag }
    {
        match flag {
            Flag::Base64 => self.flags.base64 = true,
            Flag::Quiet => self.flags.quiet = true,
            Flag::Value => self.value = true,
            Flag::Invalidate => self.invalidate = true,
            Flag::Unnoted => self.unnoted = true,
            Flag::Opaque(token) => self.flags.opaque = token,
            Flag::Mode(mode) => self.mode = Some(mode),
            Flag::Direction(direction) => self.direction = Some(direction),
            Flag::Exptime(exptime) => self.exptime = Some(exptime),
            Flag::Vivify(exptime) => self.vivify = Some(exptime),
            Flag::Recache(seconds) => self.recache = Some(seconds),
            Flag::Compare(unique) => self.compare = Some(unique),
            Flag::Unique(unique) => self.unique = Some(unique),
            Flag::Amount(amount) => self.amount = Some(amount),
            Flag::Initial(number) => self.initial = Some(number),
            Flag::ClientFlags(flags) => self.client_flags = Some(flags),
            Flag::Bare => {}
        }
    }
}

/// Parses a flag's token, by its letter.
fn flag_of(name: MetaKind, letter: u8, token: &[u8]) -> Result<Flag, CommandError>
    ensures { result ≡ spec.flag_of name letter token.now }
{
    match letter {
        b'b' => Ok(Flag::Base64),
        b'q' => Ok(Flag::Quiet),
        b'v' => Ok(Flag::Value),
        b'I' => Ok(Flag::Invalidate),
        b'u' => Ok(Flag::Unnoted),
        b'O' => opaque_flag(token),
        b'M' => mode_flag(name, token),
        b'T' => Ok(Flag::Exptime(read_i64(token)?)),
        b'N' => Ok(Flag::Vivify(read_i64(token)?)),
        b'R' => Ok(Flag::Recache(read_i64(token)?)),
        b'C' => Ok(Flag::Compare(read_u64(token)?)),
        b'E' => Ok(Flag::Unique(read_u64(token)?)),
        b'D' => Ok(Flag::Amount(read_u64(token)?)),
        b'J' => Ok(Flag::Initial(read_u64(token)?)),
        b'F' => Ok(Flag::ClientFlags(read_u32(token)?)),
        _ => Ok(Flag::Bare),
    }
}

fn opaque_flag(token: &[u8]) -> Result<Flag, CommandError>
    ensures { result ≡ spec.opaque_flag token.now }
{
    match Opaque::from_token(token) {
        Some(opaque) => Ok(Flag::Opaque(opaque)),
        None => Err(CommandError::OpaqueTooLong),
    }
}

fn mode_flag(name: MetaKind, token: &[u8]) -> Result<Flag, CommandError>
    ensures { result ≡ spec.mode_flag name token.now }
{
    match name {
        MetaKind::Set => match mode_of(token) {
            Some(mode) => Ok(Flag::Mode(mode)),
            None => Err(CommandError::BadFormat),
        },
        MetaKind::Arithmetic => match direction_of(token) {
            Some(direction) => Ok(Flag::Direction(direction)),
            None => Err(CommandError::BadFormat),
        },
        MetaKind::Get | MetaKind::Delete => Err(CommandError::BadFormat),
    }
}

/// Parses the mode of `ms`, in either case.
fn mode_of(token: &[u8]) -> Option<StoreMode>
    ensures { result ≡ table.mode_of token.now }
{
    match token {
        [b'E' | b'e'] => Some(StoreMode::Add),
        [b'A' | b'a'] => Some(StoreMode::Append),
        [b'P' | b'p'] => Some(StoreMode::Prepend),
        [b'R' | b'r'] => Some(StoreMode::Replace),
        [b'S' | b's'] => Some(StoreMode::Set),
        _ => None,
    }
}

/// Parses the mode of `ma`.
fn direction_of(token: &[u8]) -> Option<Direction>
    ensures { result ≡ table.direction_of token.now }
{
    match token {
        [b'I' | b'i' | b'+'] => Some(Direction::Increment),
        [b'D' | b'd' | b'-'] => Some(Direction::Decrement),
        _ => None,
    }
}

/// The flag to return for a letter, if there is one.
fn return_flag(letter: u8) -> Option<ReturnFlag>
    ensures { result ≡ table.return_flag letter }
{
    match letter {
        b'c' => Some(ReturnFlag::Unique),
        b'f' => Some(ReturnFlag::ClientFlags),
        b'h' => Some(ReturnFlag::Fetched),
        b'k' => Some(ReturnFlag::Key),
        b'l' => Some(ReturnFlag::LastAccess),
        b'O' => Some(ReturnFlag::Opaque),
        b's' => Some(ReturnFlag::Size),
        b't' => Some(ReturnFlag::TimeLeft),
        _ => None,
    }
}
