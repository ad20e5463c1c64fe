//! The lines after the header of a replay file: one event each (docs/REPLAY.md).
ghost use Rattle.std.specs.Prelude.{◌≡◌, ◌∷◌, ◌^◌, [], IfOk, option_map};
ghost use Rattle.mc_wire.specs.Number.{number_of};
ghost use Rattle.mc_model.specs.Events.Event.{Feed, Pop, Receive, Take};
ghost use Rattle.mc_replay.specs.Text.{words_in, hex_bytes};
ghost use Rattle.mc_sim.specs.Asked.{event_of as shown};
ghost use Rattle.mc_replay.specs.Event.{both, event_of};
ghost use Rattle.mc_replay.specs.Event as spec;

use crate::number::number_below;
use crate::parts::parts;
use hex::FromHexError;
use mc_model::Event;
use mc_sizes::Sizes;
use mc_wire::number_u64;
use std::alloc::{AllocError, Global};

/// Parses an event of a server of these sizes: its name, and one or two words.
pub(crate) fn read_event(
    alloc: Global,
    line: &[u8],
    sizes: Sizes,
) -> Result<Option<Event>, AllocError>
    ensures { IfOk result
        (λ event. option_map shown event ≡ event_of sizes (words_in line.now)) }
{
    let mut walk = parts(line, b' ');
    match (walk.next(), walk.next(), walk.next(), walk.next()) {
        (Some(name), Some(word), None, _) => Ok(event_at(name, word, sizes)),
        (Some(name), Some(first), Some(second), None) => {
            event_between(alloc, name, first, second, sizes)
        }
        _ => Ok(None),
    }
}

/// An event of a shard or a slot alone.
fn event_at(name: &[u8], word: &[u8], sizes: Sizes) -> Option<Event>
    ensures { option_map shown result ≡
        event_of sizes (name.now ∷ word.now ∷ []) }
{
    match name {
        b"give" => Some(Event::Give {
            shard: number_below(word, sizes.shards)?,
        }),
        _ => seat_event(name, number_below(word, sizes.seats)?),
    }
}

/// The event of this name of a slot alone.
fn seat_event(name: &[u8], seat: usize) -> Option<Event>
    ensures { option_map shown result ≡ spec.seat_event name.now seat }
{
    match name {
        b"open" => Some(Event::Open { seat }),
        b"send" => Some(Event::Send { seat }),
        b"hand" => Some(Event::Hand { seat }),
        b"end" => Some(Event::End { seat }),
        b"break" => Some(Event::Break { seat }),
        _ => None,
    }
}

/// An event of a slot with bytes or a time, or of a slot and a shard.
fn event_between(
    alloc: Global,
    name: &[u8],
    first: &[u8],
    second: &[u8],
    sizes: Sizes,
) -> Result<Option<Event>, AllocError>
    ensures { IfOk result (λ event. option_map shown event ≡
        event_of sizes (name.now ∷ first.now ∷ second.now ∷ [])) }
{
    if name == b"receive".as_slice() {
        return Ok(read_receive(first, second, sizes));
    }
    match name {
        b"feed" => read_feed(alloc, first, second, sizes),
        b"take" => Ok(read_take(first, second, sizes)),
        b"pop" => Ok(read_pop(first, second, sizes)),
        _ => Ok(None),
    }
}

/// `take SEAT TIME`
#[tactic(auto, unfolding(crate::specs::Event::both))]
fn read_take(seat: &[u8], moment: &[u8], sizes: Sizes) -> Option<Event>
    ensures { option_map shown result ≡
        both Take (number_of sizes.seats seat.now) (number_of (2 ^ 64) moment.now) }
{
    let seat = number_below(seat, sizes.seats)?;
    let moment = number_u64(moment).ok()?;
    Some(Event::Take { seat, moment })
}

/// `pop SHARD SEAT`
#[tactic(auto, unfolding(crate::specs::Event::both))]
fn read_pop(shard: &[u8], seat: &[u8], sizes: Sizes) -> Option<Event>
    ensures { option_map shown result ≡
        both Pop (number_of sizes.shards shard.now) (number_of sizes.seats seat.now) }
{
    let shard = number_below(shard, sizes.shards)?;
    let seat = number_below(seat, sizes.seats)?;
    Some(Event::Pop { shard, seat })
}

/// `receive SEAT SHARD`
#[tactic(auto, unfolding(crate::specs::Event::both))]
fn read_receive(seat: &[u8], shard: &[u8], sizes: Sizes) -> Option<Event>
    ensures { option_map shown result ≡
        both Receive (number_of sizes.seats seat.now) (number_of sizes.shards shard.now) }
{
    let seat = number_below(seat, sizes.seats)?;
    let shard = number_below(shard, sizes.shards)?;
    Some(Event::Receive { seat, shard })
}

/// `feed SEAT HEX`
#[tactic(auto, unfolding(crate::specs::Event::both))]
fn read_feed(
    alloc: Global,
    seat: &[u8],
    text: &[u8],
    sizes: Sizes,
) -> Result<Option<Event>, AllocError>
    ensures { IfOk result (λ event. option_map shown event ≡
        both Feed (number_of sizes.seats seat.now) (hex_bytes text.now)) }
{
    let Some(seat) = number_below(seat, sizes.seats) else {
        return Ok(None);
    };
    match read_hex(alloc, text)? {
        Some(bytes) => Ok(Some(Event::Feed { seat, bytes })),
        None => Ok(None),
    }
}

/// Decodes hexadecimal text of at least one byte; `None` if it is invalid.
fn read_hex(alloc: Global, text: &[u8]) -> Result<Option<Vec<u8>>, AllocError>
    ensures { IfOk result (λ bytes. option_map (λ some. some.items) bytes ≡ hex_bytes text.now) }
{
    match hex::decode(alloc, text) {
        Ok(bytes) if bytes.is_empty() => Ok(None),
        Ok(bytes) => Ok(Some(bytes)),
        Err(FromHexError::OutOfMemory) => Err(AllocError),
        Err(_) => Ok(None),
    }
}
