//! Classic commands without a data block: retrieval, deletion, arithmetic, touch, flush, verbosity,
//! statistics and shutdown.
ghost use Rattle.std.specs.Prelude.{◌≡◌};
ghost use Rattle.mc_wire.specs.Words.{words_left};
ghost use Rattle.mc_command.specs.Field.{Reads};
ghost use Rattle.mc_command.specs.Classic as spec;

use crate::command::{Command, Direction, Retrieval, StatsRequest};
use crate::error::CommandError;
use crate::field::{read_exptime, read_key, read_last_word, read_noreply, read_u64};
use crate::hiding::is_noreply;
use crate::keys::Keys;
use crate::rules::{Profile, Rules};
use crate::table::find_word;
use mc_wire::WordWalk;
use std::alloc::Global;

/// Parses `get KEY..` and `gets KEY..`.
pub(crate) fn read_get(
    alloc: Global,
    rules: Rules,
    with_unique: bool,
    mut walk: WordWalk<'_>,
) -> Result<Command, CommandError>
    ensures { Reads (spec.get_words rules with_unique (words_left walk.entry)) result }
{
    let Some(first) = walk.next() else {
        return Err(rules.word_count_refusal());
    };
    let keys = Keys::read(alloc, first, walk)?;
    Ok(Command::Get(Retrieval {
        keys,
        touch: None,
        with_unique,
    }))
}

/// Parses `gat EXPTIME KEY..` and `gats EXPTIME KEY..`.
pub(crate) fn read_gat(
    alloc: Global,
    rules: Rules,
    with_unique: bool,
    mut walk: WordWalk<'_>,
) -> Result<Command, CommandError>
    ensures { Reads (spec.gat_words rules with_unique (words_left walk.entry)) result }
{
    let (Some(exptime), Some(first)) = (walk.next(), walk.next()) else {
        return Err(rules.word_count_refusal());
    };
    let exptime = read_exptime(rules, exptime)?;
    let keys = Keys::read(alloc, first, walk)?;
    Ok(Command::Get(Retrieval {
        keys,
        touch: Some(exptime),
        with_unique,
    }))
}

/// Parses `delete KEY [0] [noreply]`.
pub(crate) fn read_delete(
    alloc: Global,
    rules: Rules,
    mut walk: WordWalk<'_>,
) -> Result<Command, CommandError>
    ensures { Reads (spec.delete_words rules (words_left walk.entry)) result }
{
    let (Some(key), second, third, None) = (walk.next(), walk.next(), walk.next(), walk.next())
    else {
        return Err(rules.word_count_refusal());
    };
    let key = read_key(alloc, key)?;
    let noreply = match (second, third) {
        (Some(b"0"), word) | (word, None) => read_noreply(word)?,
        _ => return Err(CommandError::BadFormat),
    };
    Ok(Command::Delete { key, noreply })
}

/// Parses `incr KEY AMOUNT [noreply]` and `decr KEY AMOUNT [noreply]`.
pub(crate) fn read_count(
    alloc: Global,
    rules: Rules,
    direction: Direction,
    mut walk: WordWalk<'_>,
) -> Result<Command, CommandError>
    ensures { Reads (spec.count_words rules direction (words_left walk.entry)) result }
{
    let (Some(key), Some(amount), noreply, None) = (
        walk.next(),
        walk.next(),
        walk.next(),
        walk.next(),
    ) else {
        return Err(rules.word_count_refusal());
    };
    let key = read_key(alloc, key)?;
    let amount = read_u64(amount)?;
    let noreply = read_last_word(rules, noreply)?;
    Ok(Command::Count {
        key,
        direction,
        amount,
        noreply,
    })
}

/// Parses `touch KEY EXPTIME [noreply]`.
pub(crate) fn read_touch(
    alloc: Global,
    rules: Rules,
    mut walk: WordWalk<'_>,
) -> Result<Command, CommandError>
    ensures { Reads (spec.touch_words rules (words_left walk.entry)) result }
{
    let (Some(key), Some(exptime), noreply, None) = (
        walk.next(),
        walk.next(),
        walk.next(),
        walk.next(),
    ) else {
        return Err(rules.word_count_refusal());
    };
    let key = read_key(alloc, key)?;
    let exptime = read_exptime(rules, exptime)?;
    let noreply = read_last_word(rules, noreply)?;
    Ok(Command::Touch {
        key,
        exptime,
        noreply,
    })
}

/// Parses `flush_all [DELAY] [noreply]`.
pub(crate) fn read_flush_all(rules: Rules, mut walk: WordWalk<'_>) -> Result<Command, CommandError>
    ensures { result ≡ spec.flush_words rules (words_left walk.entry) }
{
    let (first, second, None) = (walk.next(), walk.next(), walk.next()) else {
        return Err(rules.word_count_refusal());
    };
    let (delay, noreply) = match (first, second) {
        (None, _) => return Ok(Command::FlushAll {
            delay: 0,
            noreply: false,
        }),
        (Some(word), None) if is_noreply(word) => return Ok(Command::FlushAll {
            delay: 0,
            noreply: true,
        }),
        (Some(delay), noreply) => (delay, noreply),
    };
    let delay = rules.flush_delay(read_exptime(rules, delay)?);
    let noreply = read_last_word(rules, noreply)?;
    Ok(Command::FlushAll { delay, noreply })
}

/// Parses `verbosity LEVEL [noreply]`.
pub(crate) fn read_verbosity(rules: Rules, mut walk: WordWalk<'_>) -> Result<Command, CommandError>
    ensures { result ≡ spec.verbosity_words rules (words_left walk.entry) }
{
    let (Some(level), noreply, None) = (walk.next(), walk.next(), walk.next()) else {
        return Err(rules.word_count_refusal());
    };
    read_u64(level)?;
    let noreply = read_last_word(rules, noreply)?;
    Ok(Command::Verbosity { noreply })
}

/// Parses `shutdown [graceful]` (protocol.txt, "Other commands"). The native rules don't have this
/// command. Where clients may not end the server, each form of it is refused.
pub(crate) fn read_shutdown(rules: Rules, walk: WordWalk<'_>) -> Result<Command, CommandError>
    ensures { result ≡ spec.shutdown_words rules (words_left walk.entry) }
{
    match (rules.profile, rules.shutdown) {
        (Profile::Own, _) => Err(CommandError::Unknown),
        (Profile::DropIn, false) => Err(CommandError::ShutdownDisabled),
        (Profile::DropIn, true) => read_shutdown_mode(walk),
    }
}

/// Parses the mode of `shutdown`: none, or `graceful`.
fn read_shutdown_mode(mut walk: WordWalk<'_>) -> Result<Command, CommandError>
    ensures { result ≡ spec.shutdown_of (words_left walk.entry) }
{
    match (walk.next(), walk.next()) {
        (None, _) => Ok(Command::Shutdown),
        (Some(mode), None) if is_graceful(mode) => Ok(Command::Shutdown),
        _ => Err(CommandError::ShutdownMode),
    }
}

/// Whether a word is `graceful`, the mode in which memcached closes its connections in order.
fn is_graceful(word: &[u8]) -> bool
    ensures { result ≡ spec.is_graceful word.now }
{
    word == b"graceful".as_slice()
}

/// Parses `stats [WHAT..]`. The native rules don't have this command.
pub(crate) fn read_stats(rules: Rules, mut walk: WordWalk<'_>) -> Result<Command, CommandError>
    ensures { result ≡ spec.stats_words rules (words_left walk.entry) }
{
    if !rules.is_drop_in() {
        return Err(CommandError::Unknown);
    }
    let Some(word) = walk.next() else {
        return Ok(Command::Stats(StatsRequest::General));
    };
    match find_word(&REQUESTS, word) {
        Some(request) => Ok(Command::Stats(request)),
        None => Err(CommandError::Unknown),
    }
}

/// The sections of `stats` that can be requested.
const REQUESTS: [(&[u8], StatsRequest); 7] = [
    (b"reset", StatsRequest::Reset),
    (b"settings", StatsRequest::Empty),
    (b"items", StatsRequest::Empty),
    (b"slabs", StatsRequest::Empty),
    (b"sizes", StatsRequest::Empty),
    (b"conns", StatsRequest::Empty),
    (b"cachedump", StatsRequest::Empty),
];
