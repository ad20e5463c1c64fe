//! Parsing of meta commands from the words after the name (protocol.txt, "Meta Commands").
ghost use Rattle.std.specs.Prelude.{◌≡◌};
ghost use Rattle.mc_wire.specs.Words.{words_left};
ghost use Rattle.mc_command.specs.Line.{Says};
ghost use Rattle.mc_command.specs.Field.{Reads};
ghost use Rattle.mc_command.specs.Meta.{as_meta_get, as_meta_set, decoded_key, line_with_block, line_without_block, meta_command_of, meta_key_of, meta_line_of};
ghost use Rattle.mc_command.specs.internal.FlagsAsked.{arithmetic_by, command_by, delete_by, get_by, set_by};

use crate::announced::read_block_count;
use crate::block::Block;
use crate::command::{Command, Direction, StoreMode, StoreRequest};
use crate::error::CommandError;
use crate::field::read_key;
use crate::line::{Line, block_line, whole_line};
use crate::meta::{
    MetaArithmetic, MetaCount, MetaDelete, MetaFetch, MetaGet, MetaKind, MetaRemoval, MetaSet,
    Vivify,
};
use crate::meta_flags::{FlagsRead, read_flags};
use crate::rules::Rules;
use mc_wire::{Key, WordWalk};
use std::alloc::Global;

/// Parses a meta command from the words after its name.
#[tactic(auto, unfolding(crate::specs::Meta::meta_line_of))]
pub(crate) fn read_meta(alloc: Global, name: MetaKind, walk: WordWalk<'_>, rules: Rules) -> Line
    ensures { Says (meta_line_of rules name (words_left walk.entry)) result }
{
    match name {
        MetaKind::Set => read_with_block(alloc, walk, rules),
        MetaKind::Get | MetaKind::Delete | MetaKind::Arithmetic => {
            read_without_block(alloc, rules, name, walk)
        }
    }
}

#[tactic(auto, using(crate::proofs::Told::words_told))]
fn read_without_block(alloc: Global, rules: Rules, name: MetaKind, mut walk: WordWalk<'_>) -> Line
    ensures { Says (line_without_block rules name (words_left walk.entry)) result }
{
    let Some(word) = walk.next() else {
        return Line::Refused(rules.word_count_refusal());
    };
    whole_line(read_command(alloc, rules, name, word, walk))
}

#[tactic(auto, using(crate::proofs::Told::words_told))]
fn read_with_block(alloc: Global, mut walk: WordWalk<'_>, rules: Rules) -> Line
    ensures { Says (line_with_block rules (words_left walk.entry)) result }
{
    let Some(word) = walk.next() else {
        return Line::Refused(rules.word_count_refusal());
    };
    let Some(count) = walk.next() else {
        return Line::Refused(CommandError::BadFormat);
    };
    let count = read_block_count(rules, count);
    block_line(
        rules,
        count,
        read_command(alloc, rules, MetaKind::Set, word, walk),
    )
}

/// Parses the key and the flags after it.
fn read_command(
    alloc: Global,
    rules: Rules,
    name: MetaKind,
    word: &[u8],
    walk: WordWalk<'_>,
) -> Result<Command, CommandError>
    ensures { Reads (meta_command_of rules name word.now (words_left walk.entry)) result }
{
    let asked = read_flags(rules, name, walk)?;
    let key = read_meta_key(alloc, asked.flags.base64, word)?;
    asked.into_command(alloc, rules, name, key)
}

/// Parses `mg` from its key word and the words of its flags, with the refusals of a whole line.
pub fn read_meta_get(
    alloc: Global,
    rules: Rules,
    word: &[u8],
    flags: WordWalk<'_>,
) -> Result<MetaGet, CommandError>
    ensures { Reads (meta_command_of rules MetaKind.Get word.now (words_left flags.entry))
        (as_meta_get result) }
{
    let asked = read_flags(rules, MetaKind::Get, flags)?;
    let key = read_meta_key(alloc, asked.flags.base64, word)?;
    Ok(asked.into_get(rules, key))
}

/// Parses `ms` from its key word and the words of its flags, with a placeholder as its block. The
/// refusals are those of a whole line, except for those of its block.
pub fn read_meta_set(
    alloc: Global,
    rules: Rules,
    word: &[u8],
    flags: WordWalk<'_>,
) -> Result<MetaSet, CommandError>
    ensures { Reads (meta_command_of rules MetaKind.Set word.now (words_left flags.entry))
        (as_meta_set result) }
{
    let asked = read_flags(rules, MetaKind::Set, flags)?;
    let key = read_meta_key(alloc, asked.flags.base64, word)?;
    asked.into_checked_set(alloc, rules, key)
}

/// Parses a key, which may be in base64.
fn read_meta_key(alloc: Global, base64: bool, word: &[u8]) -> Result<Key, CommandError>
    ensures { Reads (meta_key_of base64 word.now) result }
{
    if base64 {
        read_base64_key(alloc, word)
    } else {
        read_key(alloc, word)
    }
}

/// Parses a key in base64.
#[tactic(auto, unfolding(crate::specs::Meta::decoded_key))]
fn read_base64_key(alloc: Global, word: &[u8]) -> Result<Key, CommandError>
    ensures { Reads (decoded_key word.now) result }
{
    let key = Key::from_base64(alloc, word)?;
    Ok(key)
}

impl FlagsRead {
    /// Builds the command of this name and key, with defaults for missing flags.
    fn into_command(
        self,
        alloc: Global,
        rules: Rules,
        name: MetaKind,
        key: Key,
    ) -> Result<Command, CommandError>
        ensures { result ≡ command_by rules name key self }
    {
        match name {
            MetaKind::Get => Ok(Command::MetaGet(self.into_get(rules, key))),
            MetaKind::Set => Ok(Command::MetaSet(self.into_checked_set(alloc, rules, key)?)),
            MetaKind::Delete => Ok(Command::MetaDelete(self.into_delete(rules, key))),
            MetaKind::Arithmetic => Ok(Command::MetaArithmetic(self.into_arithmetic(rules, key))),
        }
    }

    /// Builds `ms`. Under the native rules, `C` is refused in modes other than `S`.
    fn into_checked_set(
        self,
        alloc: Global,
        rules: Rules,
        key: Key,
    ) -> Result<MetaSet, CommandError>
        ensures { as_meta_set result ≡ command_by rules MetaKind.Set key self }
    {
        let set = self.into_set(alloc, rules, key);
        if !rules.is_drop_in() && set.asked.compare.is_some() && set.asked.mode != StoreMode::Set {
            return Err(CommandError::BadFormat);
        }
        Ok(set)
    }

    fn into_get(self, rules: Rules, key: Key) -> MetaGet
        ensures { result ≡ get_by rules key self }
    {
        MetaGet {
            asked: MetaFetch {
                key,
                touch: rules.exptime_in(self.exptime),
                vivify: rules.exptime_in(self.vivify),
                recache: rules.exptime_in(self.recache),
                unnoted: self.unnoted,
            },
            flags: self.flags,
            value: self.value,
        }
    }

    fn into_set(self, alloc: Global, rules: Rules, key: Key) -> MetaSet
        ensures { result ≡ set_by rules key self }
    {
        let mode = self.mode.unwrap_or(StoreMode::Set);
        MetaSet {
            asked: StoreRequest {
                key,
                mode,
                compare: rules.compared(mode, self.compare),
                unique: self.unique,
                flags: self.client_flags.unwrap_or(0),
                exptime: rules.exptime_in(self.exptime).unwrap_or(0),
                value: Block::empty(alloc),
            },
            flags: self.flags,
        }
    }

    fn into_delete(self, rules: Rules, key: Key) -> MetaDelete
        ensures { result ≡ delete_by rules key self }
    {
        MetaDelete {
            asked: MetaRemoval {
                key,
                compare: self.compare,
                unique: self.unique,
                invalidate: self.invalidate,
                exptime: rules.exptime_in(self.exptime),
            },
            flags: self.flags,
        }
    }

    fn into_arithmetic(self, rules: Rules, key: Key) -> MetaArithmetic
        ensures { result ≡ arithmetic_by rules key self }
    {
        let initial = self.initial.unwrap_or(0);
        let vivify = rules.exptime_in(self.vivify);
        MetaArithmetic {
            asked: MetaCount {
                key,
                compare: rules.compared(StoreMode::Append, self.compare),
                unique: self.unique,
                direction: self.direction.unwrap_or(Direction::Increment),
                amount: self.amount.unwrap_or(1),
                exptime: rules.exptime_in(self.exptime),
                vivify: vivify.map(|exptime| Vivify { exptime, initial }),
            },
            flags: self.flags,
            value: self.value,
        }
    }
}
