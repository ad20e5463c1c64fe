//! The header of a replay file: the sizes and the profile of the server.
ghost use Rattle.std.specs.Prelude.{◌≡◌, ◌∷◌, [], codes};
ghost use Rattle.std.specs.Str.{bytes_eq};
ghost use Rattle.mc_replay.specs.Text.{words_in};
ghost use Rattle.mc_replay.specs.Header.{header_of, sizes_of, with_limits, with_line, with_rules};
ghost use Rattle.mc_replay.specs.internal.Parts.{parts_left};

use crate::number::number_within;
use crate::parts::{PartWalk, parts};
use mc_command::Profile;
use mc_sizes::{
    DEFAULT_WINDOW, MAX_BUDGET, MAX_RING, MAX_SEATS, MAX_SHARDS, MAX_WINDOW, MIN, MIN_BUDGET, Sizes,
};
use mc_wire::{
    DEFAULT_LINE_LIMIT, DEFAULT_VALUE_LIMIT, DROP_IN_LINE_LIMIT, MAX_LINE_LIMIT, MAX_VALUE_LIMIT,
    MIN_LINE_LIMIT, MIN_VALUE_LIMIT,
};

/// Parses a header: `sim SEATS SHARDS BYTES RING [VALUE WINDOW [LINE] [drop-in]]`
pub(crate) fn read_header(line: &[u8]) -> Option<Sizes>
    ensures { result ≡ header_of (words_in line.now) }
{
    let mut walk = parts(line, b' ');
    let name = walk.next();
    let (seats, shards, bytes, ring) = (walk.next(), walk.next(), walk.next(), walk.next());
    match (name, seats, shards, bytes, ring) {
        (Some(b"sim"), Some(seats), Some(shards), Some(bytes), Some(ring)) => {
            read_sizes(seats, shards, bytes, ring, walk)
        }
        _ => None,
    }
}

/// Parses the counts of a header, and the limits after them, if there are any.
fn read_sizes(
    seats: &[u8],
    shards: &[u8],
    bytes: &[u8],
    ring: &[u8],
    more: PartWalk<'_>,
) -> Option<Sizes>
    ensures { result ≡
        sizes_of seats.now shards.now bytes.now ring.now (parts_left more.entry) }
{
    let sizes = Sizes {
        profile: Profile::Own,
        seats: number_within(seats, MIN, MAX_SEATS)?,
        shards: number_within(shards, MIN, MAX_SHARDS)?,
        bytes: number_within(bytes, MIN_BUDGET, MAX_BUDGET)?,
        ring: number_within(ring, MIN, MAX_RING)?,
        value: DEFAULT_VALUE_LIMIT,
        line: DEFAULT_LINE_LIMIT,
        window: DEFAULT_WINDOW,
        shutdown: false,
    };
    with_limits(sizes, more)
}

/// Sets the limits from the remaining words: none, or a value limit and a window, optionally
/// followed by the rules.
fn with_limits(sizes: Sizes, mut more: PartWalk<'_>) -> Option<Sizes>
    ensures { result ≡ with_limits sizes (parts_left more.entry) }
{
    match (more.next(), more.next()) {
        (None, _) => Some(sizes),
        (Some(value), Some(window)) => {
            let sizes = Sizes {
                value: number_within(value, MIN_VALUE_LIMIT, MAX_VALUE_LIMIT)?,
                window: number_within(window, MIN, MAX_WINDOW)?,
                ..sizes
            };
            with_rules(sizes, more)
        }
        (Some(_), None) => None,
    }
}

/// Sets the rules from the remaining words: a line limit, `drop-in`, both or neither.
fn with_rules(sizes: Sizes, mut more: PartWalk<'_>) -> Option<Sizes>
    ensures { result ≡ with_rules sizes (parts_left more.entry) }
{
    match (more.next(), more.next(), more.next()) {
        (None, _, _) => Some(sizes),
        (Some(last), None, _) => with_rule(sizes, last),
        (Some(line), Some(last), None) => {
            if is_drop_in(last) {
                let sizes = Sizes {
                    profile: Profile::DropIn,
                    ..sizes
                };
                with_line(sizes, line)
            } else {
                None
            }
        }
        _ => None,
    }
}

/// Sets the rules from one word: `drop-in`, or a line limit.
fn with_rule(sizes: Sizes, word: &[u8]) -> Option<Sizes>
    ensures { result ≡ with_rules sizes (word.now ∷ []) }
{
    if is_drop_in(word) {
        Some(Sizes {
            profile: Profile::DropIn,
            line: DROP_IN_LINE_LIMIT,
            ..sizes
        })
    } else {
        with_line(sizes, word)
    }
}

/// Whether the word is `drop-in`.
fn is_drop_in(word: &[u8]) -> bool
    ensures { result ≡ bytes_eq word.now (codes "drop-in") }
{
    word == b"drop-in".as_slice()
}

/// Sets the line limit from a word.
fn with_line(sizes: Sizes, word: &[u8]) -> Option<Sizes>
    ensures { result ≡ with_line sizes word.now }
{
    Some(Sizes {
        line: number_within(word, MIN_LINE_LIMIT, MAX_LINE_LIMIT)?,
        ..sizes
    })
}
