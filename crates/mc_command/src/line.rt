//! Parsing of a line.
ghost use Rattle.mc_wire.specs.Words.{words_of, words_left};
ghost use Rattle.mc_command.specs.Line.{Says};
ghost use Rattle.mc_command.specs.Rules.{own};
ghost use Rattle.mc_command.specs.Table.{line_of, line_named, may_take_memory, takes_memory};
ghost use Rattle.std.specs.Prelude.{◌≡◌, ◌+◌, false};
ghost use Rattle.mc_command.specs.declared.line.Line.TheVariants.{Skip};
ghost use Rattle.mc_command.specs.declared.error.CommandError.TheVariants.{TooLarge};
ghost use Rattle.mc_command.specs.Blocks.{discarded_by};
ghost use Rattle.mc_command.specs.Blocks as spec;

use crate::classic::{
    read_count, read_delete, read_flush_all, read_gat, read_get, read_shutdown, read_stats,
    read_touch, read_verbosity,
};
use crate::command::{Command, Storage, StoreMode, StoreRequest};
use crate::error::CommandError;
use crate::hiding::hide_fault;
use crate::meta_line::read_meta;
use crate::name::{CommandName, read_name};
use crate::rules::Rules;
use crate::storage::{read_cas, read_storage};
use mc_wire::{Key, WordWalk, words};
use std::alloc::Global;

/// A parsed line.
#[derive(Drop)]
pub enum Line {
    /// A command without a data block.
    Whole(Command),
    /// A storage command with a placeholder as its block, and the block's length.
    Data(Command, u32),
    /// A refused line; nothing after it is skipped.
    Refused(CommandError),
    /// A refused line, and the number of bytes to skip behind it: its block and line end. If there
    /// is a key, its item is deleted: by memcached's rules a value that is too large leaves no old
    /// one behind.
    Skip {
        discarded: Option<Key>,
        refusal: CommandError,
        count: u64,
    },
}

/// Parses a line without its line end, under the native rules, for values of at most `limit` bytes.
pub fn read_line(alloc: Global, line: &[u8], limit: usize) -> Line
    ensures says { Says (line_of (own limit) (words_of line.now)) result }
    ensures told { may_take_memory (words_of line.now) ≡ false →
        result ≡ line_of (own limit) (words_of line.now) }
{
    read_line_with_rules(alloc, line, Rules::own(limit))
}

/// Parses a line without its line end, under these rules.
#[tactic(auto, unfolding(crate::specs::Table::line_of), using(crate::proofs::Hidings::says_shown))]
pub fn read_line_with_rules(alloc: Global, line: &[u8], rules: Rules) -> Line
    ensures says { Says (line_of rules (words_of line.now)) result }
    // A line without keys is never refused for want of memory.
    ensures told { may_take_memory (words_of line.now) ≡ false →
        result ≡ line_of rules (words_of line.now) }
{
    let mut walk = words(line);
    let Some(name) = walk.next().and_then(read_name) else {
        return Line::Refused(CommandError::Unknown);
    };
    let behind = walk.text();
    let mut read = read_named(alloc, name, walk, rules);
    hide_fault(&mut read, rules, name, behind);
    read
}

/// Parses the words after a command's name.
#[tactic(auto, using(crate::proofs::GivingUp::says_whole, crate::proofs::Lines::get_may, crate::proofs::Lines::gat_may, crate::proofs::Lines::delete_may, crate::proofs::Lines::count_may, crate::proofs::Lines::touch_may, crate::proofs::Lines::flush_may, crate::proofs::Told::verbosity_told, crate::proofs::Told::stats_told, crate::proofs::Told::shutdown_told, crate::proofs::Told::says_told))]
fn read_named(alloc: Global, name: CommandName, walk: WordWalk<'_>, rules: Rules) -> Line
    ensures says { Says (line_named rules name (words_left walk.entry)) result }
    ensures told { takes_memory name ≡ false →
        result ≡ line_named rules name (words_left walk.entry) }
{
    match name {
        CommandName::Store(mode) => read_storage(alloc, mode, walk, rules),
        CommandName::CompareAndSwap => read_cas(alloc, walk, rules),
        CommandName::Get { with_unique } => whole_line(read_get(alloc, rules, with_unique, walk)),
        CommandName::GetAndTouch { with_unique } => whole_line(read_gat(
            alloc,
            rules,
            with_unique,
            walk,
        )),
        CommandName::Delete => whole_line(read_delete(alloc, rules, walk)),
        CommandName::Count(direction) => whole_line(read_count(alloc, rules, direction, walk)),
        CommandName::Touch => whole_line(read_touch(alloc, rules, walk)),
        CommandName::FlushAll => whole_line(read_flush_all(rules, walk)),
        CommandName::Version => Line::Whole(Command::Version(rules.profile)),
        CommandName::Verbosity => whole_line(read_verbosity(rules, walk)),
        CommandName::Stats => whole_line(read_stats(rules, walk)),
        CommandName::Quit => Line::Whole(Command::Quit),
        CommandName::Shutdown => whole_line(read_shutdown(rules, walk)),
        CommandName::MetaNoop => Line::Whole(Command::MetaNoop),
        CommandName::Meta(name) => read_meta(alloc, name, walk, rules),
    }
}

/// A line without a block.
#[inline(always)]
pub(crate) fn whole_line(read: Result<Command, CommandError>) -> Line
    ensures { result ≡ spec.whole_line read }
{
    match read {
        Ok(command) => Line::Whole(command),
        Err(refusal) => Line::Refused(refusal),
    }
}

/// A line with a block of this length, if that is valid: then the block and its line end are
/// skipped whatever else is wrong with the line.
#[inline(always)]
pub(crate) fn block_line(
    rules: Rules,
    count: Option<u32>,
    read: Result<Command, CommandError>,
) -> Line
    ensures { result ≡ spec.block_line rules count read }
{
    match (count, read) {
        (Some(count), Ok(command)) => {
            if count as usize > rules.value_limit {
                return too_large(rules, command, count);
            }
            Line::Data(command, count)
        }
        (Some(count), Err(refusal)) => Line::Skip {
            discarded: None,
            refusal,
            count: u64::from(count) + 2,
        },
        (None, Ok(command)) => {
            let_go(command);
            Line::Refused(CommandError::BadFormat)
        }
        (None, Err(refusal)) => Line::Refused(refusal),
    }
}

/// A line whose value is too large.
#[cold]
#[inline(never)]
fn too_large(rules: Rules, command: Command, count: u32) -> Line
    ensures { result ≡ Skip (discarded_by rules command) TooLarge (count + 2) }
{
    let key = key_set(command);
    let discarded = if rules.is_drop_in() { key } else { None };
    let skipped = u64::from(count) + 2;
    Line::Skip {
        discarded,
        refusal: CommandError::TooLarge,
        count: skipped,
    }
}

/// The key whose item is deleted if the command's value is too large: for `set`, and for `ms` in
/// each mode.
fn key_set(command: Command) -> Option<Key>
    ensures { result ≡ spec.key_set command }
{
    match command {
        Command::Store(
            Storage {
                asked: StoreRequest {
                    key,
                    mode: StoreMode::Set,
                    compare: None,
                    ..
                },
                ..
            },
        ) => Some(key),
        Command::MetaSet(set) => Some(set.asked.key),
        other => {
            let_go(other);
            None
        }
    }
}

/// Drops a command. A function of its own, since dropping a command inspects each of its kinds.
fn let_go(_command: Command) {}
