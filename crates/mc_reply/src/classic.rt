//! Replies of the classic commands.
ghost use Rattle.std.specs.Prelude.{◌≡◌, ◌≤◌, ◌+◌, ◌∷◌, [], ◌++◌, length, codes, decimal};
ghost use Rattle.std.specs.List.{concat, list_any};
ghost use Rattle.mc_wire.specs.Sink.{Writes};
ghost use Rattle.mc_wire.specs.Words.{words_left};
ghost use Rattle.mc_command.specs.Field.{AreKeys};
ghost use Rattle.mc_reply.specs.Text.{answer_line, told, item_text};
ghost use Rattle.mc_reply.specs.internal.SlotTexts.{fixed_line, slot_text, first_text, items_text, lacks_memory, plain_item, unique_item};

use crate::block::put_block;
use crate::fixed::MEMORY_LINE;
use crate::header::{
    BESIDE_KEY, HEADER_LIMIT, SHORT_HEADER, SHORT_VALUE, place, place_item, place_line,
    place_unique,
};
use itoa::Buffer;
use mc_command::Keys;
use mc_item::{Answer, Value};
use mc_wire::{KEY_LIMIT, Sink, SinkError, WordWalk, put_parts, write_all};

/// The longest key for which a short header has room for `END` too.
const SHORT_KEY: usize = SHORT_HEADER - BESIDE_KEY - 5;

/// Whether some answer reports that memory was refused.
pub fn any_lacks_memory(slots: &[Option<Answer>]) -> bool
    ensures { result ≡ list_any lacks_memory slots.now }
{
    slots.iter().any(slot_lacks_memory)
}

fn slot_lacks_memory(slot: &Option<Answer>) -> bool
    ensures { result ≡ lacks_memory slot.now }
{
    matches!(slot, Some(Answer::NoMemory))
}

/// Writes the line of the first answer. With `lenient`, too large counts as not stored.
pub fn put_first_line<O: Sink>(
    out: &mut O,
    lenient: bool,
    slots: &[Option<Answer>],
) -> Result<(), SinkError>
    ensures { Writes (first_text (λ answer. answer_line (told answer lenient)) slots.now) result
        (O.sight out.old) (O.sight out.new) }
{
    match slots {
        [Some(Answer::TooLarge), ..] if lenient => write_all(out, b"NOT_STORED\r\n"),
        [Some(answer), ..] => put_line(out, answer),
        [None, ..] | [] => write_all(out, b""),
    }
}

/// Writes the line of an answer; nothing if it has none.
pub fn put_line<O: Sink>(out: &mut O, answer: &Answer) -> Result<(), SinkError>
    ensures { Writes (answer_line answer.now) result (O.sight out.old) (O.sight out.new) }
{
    match answer {
        Answer::Number(number) => put_number_line(out, *number),
        answer => write_all(out, line_of(answer)),
    }
}

/// The fixed line of an answer; empty if it has none, or if it is a number.
pub fn line_of(answer: &Answer) -> &'static [u8]
    ensures { result.now ≡ fixed_line answer.now }
{
    match answer {
        Answer::Stored => b"STORED\r\n",
        Answer::NotStored => b"NOT_STORED\r\n",
        Answer::Exists => b"EXISTS\r\n",
        Answer::NotFound => b"NOT_FOUND\r\n",
        Answer::TooLarge => b"SERVER_ERROR object too large for cache\r\n",
        Answer::NoCas => b"SERVER_ERROR out of cas uniques\r\n",
        Answer::NoMemory => MEMORY_LINE,
        Answer::NonNumeric => b"CLIENT_ERROR cannot increment or decrement non-numeric value\r\n",
        Answer::Deleted => b"DELETED\r\n",
        Answer::Touched => b"TOUCHED\r\n",
        Answer::Done => b"OK\r\n",
        Answer::Reset => b"RESET\r\n",
        Answer::Hit { .. }
        | Answer::Miss
        | Answer::Number(_)
        | Answer::MetaHit(_)
        | Answer::MetaDone(_)
        | Answer::Stats(_) => b"",
    }
}

fn put_number_line<O: Sink>(out: &mut O, number: u64) -> Result<(), SinkError>
    ensures { Writes (concat (decimal number ∷ codes "\r\n" ∷ [])) result (O.sight out.old)
        (O.sight out.new) }
{
    let mut digits = Buffer::new();
    put_parts(out, &[digits.format(number).as_bytes(), b"\r\n"])
}

/// Writes the items found, in the order of the keys, and `END`.
pub fn put_values<O: Sink>(
    out: &mut O,
    keys: &Keys,
    with_unique: bool,
    slots: &[Option<Answer>],
) -> Result<(), SinkError>
    ensures { Writes (items_text with_unique keys.now slots.now ++ codes "END\r\n") result
        (O.sight out.old) (O.sight out.new) }
{
    let (first, others) = keys.parts();
    let Some((slot, more)) = slots.split_first() else {
        return write_all(out, b"END\r\n");
    };
    if more.is_empty() {
        return put_one(out, first.bytes(), with_unique, slot);
    }
    put_slot(out, first.bytes(), with_unique, slot)?;
    put_items(out, others, with_unique, more)?;
    write_all(out, b"END\r\n")
}

/// Writes the item of the only key, if it was found, and `END`. An item with a short value is
/// written at once with what follows it.
fn put_one<O: Sink>(
    out: &mut O,
    key: &[u8],
    with_unique: bool,
    slot: &Option<Answer>,
) -> Result<(), SinkError>
    requires { length key.now ≤ KEY_LIMIT }
    ensures { Writes (slot_text (item_text with_unique key.now) slot.now ++ codes "END\r\n") result
        (O.sight out.old) (O.sight out.new) }
{
    match slot {
        Some(Answer::Hit { flags, value, .. })
            if !with_unique && key.len() <= SHORT_KEY && value.len() <= SHORT_VALUE => {
            let mut room = [0; SHORT_HEADER];
            let end = place_item(&mut room, key, *flags, value.bytes());
            let end = place(&mut room, end, b"END\r\n");
            write_all(out, room.split_at(end).0)
        }
        _ => {
            put_slot(out, key, with_unique, slot)?;
            write_all(out, b"END\r\n")
        }
    }
}

/// Writes the items found.
fn put_items<O: Sink>(
    out: &mut O,
    mut keys: WordWalk<'_>,
    with_unique: bool,
    slots: &[Option<Answer>],
) -> Result<(), SinkError>
    requires { AreKeys (words_left keys) }
    ensures { Writes (items_text with_unique (words_left keys.entry) slots.now) result
        (O.sight out.old) (O.sight out.new) }
{
    for slot in slots {
        let Some(key) = keys.next() else {
            return Ok(());
        };
        put_slot(out, key, with_unique, slot)?;
    }
    Ok(())
}

/// Writes an item, if one was found.
fn put_slot<O: Sink>(
    out: &mut O,
    key: &[u8],
    with_unique: bool,
    slot: &Option<Answer>,
) -> Result<(), SinkError>
    requires { length key.now ≤ KEY_LIMIT }
    ensures { Writes (slot_text (item_text with_unique key.now) slot.now) result (O.sight out.old)
        (O.sight out.new) }
{
    match slot {
        Some(answer) => put_item(out, key, with_unique, answer),
        None => write_all(out, b""),
    }
}

fn put_item<O: Sink>(
    out: &mut O,
    key: &[u8],
    with_unique: bool,
    answer: &Answer,
) -> Result<(), SinkError>
    requires { length key.now ≤ KEY_LIMIT }
    ensures { Writes (item_text with_unique key.now answer.now) result (O.sight out.old)
        (O.sight out.new) }
{
    match answer {
        Answer::Hit {
            flags,
            unique,
            value,
        } => {
            if with_unique {
                put_unique_item(out, key, *flags, *unique, value)
            } else if key.len() <= SHORT_HEADER - BESIDE_KEY {
                put_plain_item::<O, SHORT_HEADER>(out, key, *flags, value)
            } else {
                put_plain_item::<O, HEADER_LIMIT>(out, key, *flags, value)
            }
        }
        Answer::Stored
        | Answer::NotStored
        | Answer::Exists
        | Answer::NotFound
        | Answer::TooLarge
        | Answer::NoCas
        | Answer::NoMemory
        | Answer::Miss
        | Answer::Number(_)
        | Answer::NonNumeric
        | Answer::Deleted
        | Answer::Touched
        | Answer::Done
        | Answer::MetaHit(_)
        | Answer::MetaDone(_)
        | Answer::Stats(_)
        | Answer::Reset => write_all(out, b""),
    }
}

/// Writes an item whose header, with a short value, fits into `ROOM` bytes.
fn put_plain_item<O: Sink, const ROOM: usize>(
    out: &mut O,
    key: &[u8],
    flags: u32,
    value: &Value,
) -> Result<(), SinkError>
    requires room { length key.now + BESIDE_KEY ≤ ROOM }
    requires small { ROOM ≤ HEADER_LIMIT }
    ensures { Writes (plain_item key.now flags value.now) result (O.sight out.old)
        (O.sight out.new) }
{
    let mut room = [0; ROOM];
    if value.len() <= SHORT_VALUE {
        let end = place_item(&mut room, key, flags, value.bytes());
        return write_all(out, room.split_at(end).0);
    }
    let end = place_line(&mut room, key, flags, value.len());
    let end = place(&mut room, end, b"\r\n");
    put_block(out, room.split_at(end).0, value)
}

fn put_unique_item<O: Sink>(
    out: &mut O,
    key: &[u8],
    flags: u32,
    unique: u64,
    value: &Value,
) -> Result<(), SinkError>
    requires { length key.now ≤ KEY_LIMIT }
    ensures { Writes (unique_item key.now flags unique value.now) result (O.sight out.old)
        (O.sight out.new) }
{
    let mut room = [0; HEADER_LIMIT];
    let end = place_line(&mut room, key, flags, value.len());
    let end = place_unique(&mut room, end, unique);
    put_block(out, room.split_at(end).0, value)
}
