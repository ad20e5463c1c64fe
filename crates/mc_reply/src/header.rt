//! The header line of a value, assembled in a stack buffer together with a short value, so that
//! both are written at once.
ghost use Rattle.std.specs.Prelude.{◌≡◌, ◌+◌, ◌++◌, ◌≤◌, ◌∷◌, [], codes, decimal, length, take};
ghost use Rattle.std.specs.List.{concat};
ghost use Rattle.mc_reply.specs.internal.SlotTexts.{plain_item};

use crate::number::{DIGIT_LIMIT, place_number};

/// Buffer size for the longest header: `VALUE`, key, client flags, size and cas unique, with a
/// short value after it.
pub const HEADER_LIMIT: usize = 512;

/// Buffer size that suffices for a short key. A buffer is zeroed before use, so a smaller one is
/// cheaper.
pub const SHORT_HEADER: usize = 256;

/// Maximum length of a header without its key, with a short value and its line end.
pub const BESIDE_KEY: usize = 172;

/// Maximum length of the reply of a hit of `mg` without flags, with a short value, but for its marks.
pub const BESIDE_MARKS: usize = 145;

/// Maximum length of a header without its key, up to the size.
pub const LINE_BESIDE_KEY: usize = 48;

/// Maximum size of a value that is written together with its header.
pub const SHORT_VALUE: usize = 120;

/// Copies a part to index `at` of the buffer, and returns the index after it.
#[inline(always)]
pub fn place(room: &mut [u8], at: usize, part: &[u8]) -> usize
    requires { at + length part.now ≤ length room.old }
    ensures text { take result room.new ≡ take at room.old ++ part.now }
    ensures end { result ≡ at + length part.now }
{
    let end = at + part.len();
    room[at..end].copy_from_slice(part);
    end
}

/// Writes the header up to the size to the front of the buffer, and returns its length. Each part
/// is copied by a call of its own, so that the compiler knows the lengths of the constant ones.
#[inline(always)]
pub fn place_line(room: &mut [u8], key: &[u8], flags: u32, size: usize) -> usize
    requires { length key.now + LINE_BESIDE_KEY ≤ length room.old }
    ensures most { result ≤ length key.now + LINE_BESIDE_KEY }
    ensures text { take result room.new ≡
        concat
        (codes "VALUE " ∷ key.now ∷ codes " " ∷ decimal flags ∷ codes " " ∷ decimal size ∷ []) }
{
    let end = place(room, 0, b"VALUE ");
    let end = place(room, end, key);
    let end = place(room, end, b" ");
    let end = place_number(room, end, u64::from(flags));
    let end = place(room, end, b" ");
    place_number(room, end, size as u64)
}

/// Writes an item with a short value to the front of the buffer, and returns its length.
#[inline(always)]
pub fn place_item(room: &mut [u8], key: &[u8], flags: u32, value: &[u8]) -> usize
    requires short { length value.now ≤ SHORT_VALUE }
    requires room { length key.now + BESIDE_KEY ≤ length room.old }
    ensures most { result ≤ length key.now + BESIDE_KEY }
    ensures text { take result room.new ≡ plain_item key.now flags value.now }
{
    let end = place_line(room, key, flags, value.len());
    let end = place(room, end, b"\r\n");
    let end = place(room, end, value);
    place(room, end, b"\r\n")
}

/// Writes the reply of a hit of `mg` without flags to the front of the buffer, and returns its
/// length. The value is short, and `marks` ends the line.
#[inline(always)]
pub fn place_hit(room: &mut [u8], marks: &[u8], value: &[u8]) -> usize
    requires short { length value.now ≤ SHORT_VALUE }
    requires room { length marks.now + BESIDE_MARKS ≤ length room.old }
    ensures most { result ≤ length marks.now + BESIDE_MARKS }
    ensures text { take result room.new ≡
        concat
        (codes "VA " ∷ decimal (length value.now) ∷ marks.now ∷ value.now ∷ codes "\r\n" ∷ []) }
{
    let end = place(room, 0, b"VA ");
    let end = place_number(room, end, value.len() as u64);
    let end = place(room, end, marks);
    let end = place(room, end, value);
    place(room, end, b"\r\n")
}

/// Copies a cas unique and the line end to index `at`, and returns the index after them.
#[inline(always)]
pub fn place_unique(room: &mut [u8], at: usize, unique: u64) -> usize
    requires { at + DIGIT_LIMIT + 3 ≤ length room.old }
    ensures most { result ≤ at + DIGIT_LIMIT + 3 }
    ensures text { take result room.new ≡
        take at room.old ++ concat (codes " " ∷ decimal unique ∷ codes "\r\n" ∷ []) }
{
    let end = place(room, at, b" ");
    let end = place_number(room, end, unique);
    place(room, end, b"\r\n")
}

/// Writes `VA` and the size to the front of the buffer, and returns them: the start of a meta reply
/// with a value.
#[inline(always)]
pub fn sized(room: &mut [u8], size: usize) -> &[u8]
    requires { DIGIT_LIMIT + 3 ≤ length room.old }
    ensures { result.now ≡ concat (codes "VA " ∷ decimal size ∷ []) }
{
    let end = place(room, 0, b"VA ");
    let end = place_number(room, end, size as u64);
    room.split_at(end).0
}
