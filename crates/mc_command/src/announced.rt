//! The bytes after a line that belong to it, computed from the length of its block alone.
ghost use Rattle.std.specs.Prelude.{ℕ, ◌≡◌};
ghost use Rattle.std.specs.Option.{option_and_then, option_copied};
ghost use Rattle.std.specs.List.{slice_get};
ghost use Rattle.mc_wire.specs.Words.{words_of, words_left};
ghost use Rattle.mc_command.specs.Line.{bytes_behind};
ghost use Rattle.mc_command.specs.Blocks.{block_count, bytes_with};
ghost use Rattle.mc_command.specs.Classic.{cas_count_in};
ghost use Rattle.mc_command.specs.internal.CasCounts.{count_before};
ghost use Rattle.mc_command.specs.Rules.{own};
ghost use Rattle.mc_command.specs.Table.{line_of, count_named};

use crate::field::read_u64;
use crate::meta::MetaKind;
use crate::name::{CommandName, read_name};
use crate::rules::Rules;
use mc_wire::{WordWalk, words};

/// Number of bytes after a line that belong to it, under the native rules; see
/// `announced_bytes_with_rules`. It doesn't depend on the value limit.
pub fn announced_bytes(line: &[u8]) -> u64
    ensures { (limit : ℕ) → result ≡ bytes_behind (line_of (own limit) (words_of line.now)) }
{
    announced_bytes_with_rules(line, Rules::own(0))
}

/// Number of bytes after a line that belong to it (protocol.txt, "Storage commands"): its data
/// block with the line end, or what is skipped after a refused line. 0 if there is nothing. Parses
/// the line as `read_line_with_rules` does; the result doesn't depend on the value limit. Allocates
/// nothing.
#[tactic(auto, unfolding(crate::specs::Table::line_of), using(crate::proofs::Behind::behind_shown))]
pub fn announced_bytes_with_rules(line: &[u8], rules: Rules) -> u64
    ensures { (limit : ℕ) →
        result ≡ bytes_behind (line_of (record rules { value_limit = limit }) (words_of line.now)) }
{
    let mut walk = words(line);
    match walk.next().and_then(read_name) {
        Some(name) => block_bytes(announced_behind(rules, name, walk)),
        None => 0,
    }
}

/// The size of a block with its line end, from the block's length; 0 if there is none.
fn block_bytes(count: Option<u32>) -> u64
    ensures { result ≡ bytes_with count }
{
    match count {
        Some(count) => u64::from(count) + 2,
        None => 0,
    }
}

/// The length of the block announced by a command of this name, from the words after the name.
fn announced_behind(rules: Rules, name: CommandName, walk: WordWalk<'_>) -> Option<u32>
    ensures { result ≡ count_named rules name (words_left walk.entry) }
{
    match name {
        CommandName::Store(_) => announced(rules, fourth_word(walk)),
        CommandName::CompareAndSwap => announced_behind_cas(rules, walk),
        CommandName::Meta(MetaKind::Set) => announced(rules, second_word(walk)),
        _ => None,
    }
}

/// The length of the block announced by `cas`, from the words after the name.
fn announced_behind_cas(rules: Rules, mut walk: WordWalk<'_>) -> Option<u32>
    ensures { result ≡ cas_count_in rules (words_left walk.entry) }
{
    walk.next()?;
    walk.next()?;
    walk.next()?;
    let count = walk.next();
    announced_by_cas(rules, count, walk.next())
}

/// The length of the block announced by `cas`, from its word and the unique after it. By
/// memcached's rules there is no block if the unique is missing.
pub(crate) fn announced_by_cas(
    rules: Rules,
    count: Option<&[u8]>,
    unique: Option<&[u8]>,
) -> Option<u32>
    ensures { result ≡ count_before rules (option_copied count.entry) (option_copied unique.entry) }
{
    if unique.is_none() && rules.is_drop_in() {
        return None;
    }
    announced(rules, count)
}

/// The length of a block, if the word is valid.
pub(crate) fn announced(rules: Rules, word: Option<&[u8]>) -> Option<u32>
    ensures { result ≡ option_and_then (block_count rules) (option_copied word.entry) }
{
    read_block_count(rules, word?)
}

/// Parses the length of a block; `None` if it is invalid.
pub fn read_block_count(rules: Rules, word: &[u8]) -> Option<u32>
    ensures { result ≡ block_count rules word.now }
{
    match read_u64(word) {
        Ok(count) if count < rules.count_bound() => Some(count as u32),
        _ => None,
    }
}

fn second_word<'a>(mut walk: WordWalk<'a>) -> Option<&'a [u8]>
    ensures { option_copied result ≡ slice_get (words_left walk.entry) 1 }
{
    walk.next()?;
    walk.next()
}

fn fourth_word<'a>(mut walk: WordWalk<'a>) -> Option<&'a [u8]>
    ensures { option_copied result ≡ slice_get (words_left walk.entry) 3 }
{
    walk.next()?;
    walk.next()?;
    walk.next()?;
    walk.next()
}
