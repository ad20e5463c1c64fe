//! Classic storage commands, with the length of the block after the line.
ghost use Rattle.std.specs.Prelude.{◌≡◌};
ghost use Rattle.std.specs.Option.{option_copied};
ghost use Rattle.mc_wire.specs.Words.{words_left};
ghost use Rattle.mc_command.specs.Blocks as blocks;
ghost use Rattle.mc_command.specs.Field.{Reads, word_count_refusal};
ghost use Rattle.mc_command.specs.Line.{Says};
ghost use Rattle.mc_command.specs.Classic as spec;

use crate::announced::{announced, announced_by_cas};
use crate::block::Block;
use crate::command::{Command, Storage, StoreMode, StoreRequest};
use crate::error::CommandError;
use crate::field::{read_exptime, read_key, read_last_word, read_u32, read_u64};
use crate::line::{Line, block_line};
use crate::rules::Rules;
use mc_wire::WordWalk;
use std::alloc::Global;

/// Parses `set`, `add`, `replace`, `append` and `prepend`: `KEY FLAGS EXPTIME LEN [noreply]`.
pub(crate) fn read_storage(
    alloc: Global,
    mode: StoreMode,
    mut walk: WordWalk<'_>,
    rules: Rules,
) -> Line
    ensures { Says (spec.storage_line rules mode (words_left walk.entry)) result }
{
    let (key, flags, exptime, count) = (walk.next(), walk.next(), walk.next(), walk.next());
    let (noreply, more) = (walk.next(), walk.next());
    let block = announced(rules, count);
    match (key, flags, exptime, count, more) {
        (Some(key), Some(flags), Some(exptime), Some(_), None) => {
            block_line(
                rules,
                block,
                storage(alloc, rules, mode, key, flags, exptime, None, noreply),
            )
        }
        _ => miscounted(rules, block),
    }
}

/// Parses `cas KEY FLAGS EXPTIME LEN UNIQUE [noreply]`.
pub(crate) fn read_cas(alloc: Global, mut walk: WordWalk<'_>, rules: Rules) -> Line
    ensures { Says (spec.cas_line rules (words_left walk.entry)) result }
{
    let (key, flags, exptime, count) = (walk.next(), walk.next(), walk.next(), walk.next());
    let (unique, noreply, more) = (walk.next(), walk.next(), walk.next());
    let block = announced_by_cas(rules, count, unique);
    match (key, flags, exptime, count, unique, more) {
        (Some(key), Some(flags), Some(exptime), Some(_), Some(unique), None) => {
            block_line(
                rules,
                block,
                storage(
                    alloc,
                    rules,
                    StoreMode::Set,
                    key,
                    flags,
                    exptime,
                    Some(unique),
                    noreply,
                ),
            )
        }
        _ => miscounted(rules, block),
    }
}

/// A line with too few or too many words; its block is skipped if it has a length.
#[tactic(auto, using(crate::proofs::Told::words_told))]
fn miscounted(rules: Rules, block: Option<u32>) -> Line
    ensures { Says (blocks.block_line rules block (Err (word_count_refusal rules))) result }
{
    block_line(rules, block, Err(rules.word_count_refusal()))
}

/// Builds a storage command from its words. Only `cas` has a unique.
fn storage(
    alloc: Global,
    rules: Rules,
    mode: StoreMode,
    key: &[u8],
    flags: &[u8],
    exptime: &[u8],
    unique: Option<&[u8]>,
    noreply: Option<&[u8]>,
) -> Result<Command, CommandError>
    ensures { Reads
        (spec.storage_of rules mode key.now flags.now exptime.now
        (option_copied unique.entry) (option_copied noreply.entry)) result }
{
    let key = read_key(alloc, key)?;
    let flags = read_u32(flags)?;
    let exptime = read_exptime(rules, exptime)?;
    let compare = read_compare(unique)?;
    let noreply = read_last_word(rules, noreply)?;
    Ok(Command::Store(Storage {
        asked: StoreRequest {
            key,
            mode,
            compare,
            unique: None,
            flags,
            exptime,
            value: Block::empty(alloc),
        },
        noreply,
        lenient: rules.is_lenient(mode),
    }))
}

/// Parses the unique of `cas`.
fn read_compare(unique: Option<&[u8]>) -> Result<Option<u64>, CommandError>
    ensures { result ≡ spec.compare_of (option_copied unique.entry) }
{
    match unique {
        Some(word) => Ok(Some(read_u64(word)?)),
        None => Ok(None),
    }
}
