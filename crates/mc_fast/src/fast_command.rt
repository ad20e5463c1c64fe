//! Parsing of common lines without copies: the result borrows its words from the line.
ghost use Rattle.std.specs.Prelude.{◌≡◌, ◌≤◌, Bool, IfSome, IsTrue, Some, codes};
ghost use Rattle.mc_command.specs.Meta.{line_with_block, line_without_block};
ghost use Rattle.mc_command.specs.declared.meta.MetaKind.TheVariants as kind;
ghost use Rattle.mc_wire.specs.Words.{words_left, words_of};
ghost use Rattle.mc_command.specs.Blocks.{block_count, whole_line};
ghost use Rattle.mc_command.specs.Classic.{get_words, storage_line};
ghost use Rattle.mc_command.specs.Rules.{own};
ghost use Rattle.mc_command.specs.Hiding.{shown_line};
ghost use Rattle.mc_command.specs.Table.{line_of};
ghost use Rattle.mc_command.specs.declared.command.StoreMode.TheVariants as mode;
ghost use Rattle.mc_fast.specs.FastCommand.{IsFastCommand};

use mc_command::{Rules, are_keys, read_block_count, read_exptime, read_last_word, read_u32};
use mc_wire::{MAX_VALUE_LIMIT, WordWalk, key_fault, words};

/// A parsed common line; its words are borrowed from the line.
#[derive(Clone, Copy)]
pub enum FastCommand<'a> {
    /// `mn`.
    NoOp,
    /// `get KEY`, or `gets KEY`, which also returns the cas unique.
    GetOne {
        key: &'a [u8],
        with_unique: bool,
    },
    /// `get KEY ..` or `gets KEY ..`: the first key, and the text of the remaining keys.
    Get {
        first: &'a [u8],
        others: &'a [u8],
        with_unique: bool,
    },
    /// `mg KEY v`.
    MetaGetValue(&'a [u8]),
    /// `mg` with any flags: the key word and the text of the flags, which are not validated yet.
    MetaGet {
        word: &'a [u8],
        flags: &'a [u8],
    },
    /// `set KEY FLAGS EXPTIME LEN [noreply]`; the length of the block is within the value limit.
    Set {
        key: &'a [u8],
        flags: u32,
        exptime: i64,
        noreply: bool,
        count: u32,
    },
    /// `ms KEY LEN` with any flags. Key and flags are not validated yet; the length is within the
    /// value limit.
    MetaSet {
        word: &'a [u8],
        flags: &'a [u8],
        count: u32,
    },
    /// Any other line, valid or not.
    Other,
}

/// Parses a line without its line end, under the native rules; values have at most `limit` bytes.
/// Anything uncommon or invalid is `Other`. Allocates nothing.
pub fn read_fast(line: &[u8], limit: usize) -> FastCommand<'_>
    requires { limit ≤ MAX_VALUE_LIMIT }
    ensures { IsFastCommand (own limit) (line_of (own limit) (words_of line.now)) result }
{
    read_fast_with_rules(line, Rules::own(limit))
}

/// Parses a line without its line end, under these rules. Anything uncommon or invalid is `Other`.
/// Allocates nothing.
#[tactic(auto, unfolding(mc_command::specs::Table::line_of, mc_command::specs::Name::name_of, mc_command::specs::Meta::meta_line_of), using(mc_command::proofs::Hidings::shown_as_it_is))]
#[inline(always)]
pub fn read_fast_with_rules(line: &[u8], rules: Rules) -> FastCommand<'_>
    requires { rules.value_limit ≤ MAX_VALUE_LIMIT }
    ensures { IsFastCommand rules (line_of rules (words_of line.now)) result }
{
    let mut walk = words(line);
    match walk.next() {
        Some(b"get") => read_get(walk, rules, false),
        Some(b"set") => read_set(walk, rules),
        Some(b"mg") => read_meta_get(walk, rules),
        Some(b"mn") => FastCommand::NoOp,
        Some(b"ms") => read_meta_set(walk, rules),
        Some(b"gets") => read_get(walk, rules, true),
        _ => FastCommand::Other,
    }
}

/// Parses the words after `get` or `gets`.
fn read_get<'a>(mut walk: WordWalk<'a>, rules: Rules, with_unique: bool) -> FastCommand<'a>
    ensures { IsFastCommand rules (whole_line (get_words rules with_unique (words_left walk.entry)))
        result }
{
    let Some(first) = walk.next() else {
        return FastCommand::Other;
    };
    if key_fault(first).is_some() {
        return FastCommand::Other;
    }
    let others = walk.text();
    if others.is_empty() {
        return FastCommand::GetOne {
            key: first,
            with_unique,
        };
    }
    if !are_keys(walk) {
        return FastCommand::Other;
    }
    FastCommand::Get {
        first,
        others,
        with_unique,
    }
}

/// Parses the words after `mg`.
fn read_meta_get<'a>(mut walk: WordWalk<'a>, rules: Rules) -> FastCommand<'a>
    ensures { IsFastCommand rules (line_without_block rules kind.Get (words_left walk.entry))
        result }
{
    let Some(word) = walk.next() else {
        return FastCommand::Other;
    };
    let flags = walk.text();
    if is_value_flag(flags) && key_fault(word).is_none() {
        return FastCommand::MetaGetValue(word);
    }
    FastCommand::MetaGet { word, flags }
}

/// Parses the words after `ms`.
fn read_meta_set<'a>(mut walk: WordWalk<'a>, rules: Rules) -> FastCommand<'a>
    requires { rules.value_limit ≤ MAX_VALUE_LIMIT }
    ensures { IsFastCommand rules (line_with_block rules (words_left walk.entry)) result }
{
    let (Some(word), Some(count)) = (walk.next(), walk.next()) else {
        return FastCommand::Other;
    };
    let Some(count) = read_count(rules, count) else {
        return FastCommand::Other;
    };
    let flags = walk.text();
    FastCommand::MetaSet { word, flags, count }
}

/// Whether the flags are exactly `v`.
fn is_value_flag(flags: &[u8]) -> bool
    ensures { IsTrue result → flags.now ≡ codes "v" }
{
    matches!(flags, b"v")
}

/// Parses the words after `set`.
fn read_set<'a>(mut walk: WordWalk<'a>, rules: Rules) -> FastCommand<'a>
    ensures { (hides : Bool) →
        IsFastCommand rules (shown_line hides (storage_line rules mode.Set (words_left walk.entry)))
        result }
{
    let (Some(key), Some(flags), Some(exptime), Some(count), noreply, None) = (
        walk.next(),
        walk.next(),
        walk.next(),
        walk.next(),
        walk.next(),
        walk.next(),
    ) else {
        return FastCommand::Other;
    };
    if key_fault(key).is_some() {
        return FastCommand::Other;
    }
    let (Ok(flags), Ok(exptime), Some(count), Ok(noreply)) = (
        read_u32(flags),
        read_exptime(rules, exptime),
        read_count(rules, count),
        read_last_word(rules, noreply),
    ) else {
        return FastCommand::Other;
    };
    FastCommand::Set {
        key,
        flags,
        exptime,
        noreply,
        count,
    }
}

/// The length of a data block, if it is a number within the value limit.
fn read_count(rules: Rules, word: &[u8]) -> Option<u32>
    ensures { IfSome result
        (λ count. (block_count rules word.now ≡ Some count) × (count ≤ rules.value_limit)) }
{
    let count = read_block_count(rules, word)?;
    if count as usize > rules.value_limit {
        return None;
    }
    Some(count)
}
