//! Escape sequences in the file of rows.
use std::alloc::{AllocError, Global};

/// Decodes a text: `\r`, `\n`, `\t`, `\\` and `\xHH` are one byte each, `{N*TEXT}` is TEXT N times,
/// and every other byte is itself.
pub fn unescape(alloc: Global, text: &[u8]) -> Result<Vec<u8>, AllocError> {
    let mut bytes = Vec::new(alloc);
    let mut rest = text;
    while let [first, after @ ..] = rest {
        let taken = match first {
            b'\\' => push_escape(&mut bytes, after)?,
            b'{' => push_repeated(&mut bytes, after)?,
            byte => {
                bytes.push(*byte)?;
                0
            }
        };
        rest = after.split_at(taken.min(after.len())).1;
    }
    Ok(bytes)
}

/// Appends the byte of an escape sequence, without its backslash. Returns the length of the
/// sequence.
fn push_escape(bytes: &mut Vec<u8>, text: &[u8]) -> Result<usize, AllocError> {
    let (byte, taken) = match text {
        [b'r', ..] => (b'\r', 1),
        [b'n', ..] => (b'\n', 1),
        [b't', ..] => (b'\t', 1),
        [b'x', high, low, ..] => (hex_digit(*high).wrapping_mul(16) | hex_digit(*low), 3),
        [other, ..] => (*other, 1),
        [] => return Ok(0),
    };
    bytes.push(byte)?;
    Ok(taken)
}

fn hex_digit(byte: u8) -> u8 {
    match byte {
        b'0'..=b'9' => byte - b'0',
        b'a'..=b'f' => byte - b'a' + 10,
        _ => 0,
    }
}

/// Appends the repeated text behind an opening brace. Returns the number of bytes consumed.
fn push_repeated(bytes: &mut Vec<u8>, text: &[u8]) -> Result<usize, AllocError> {
    let Some(close) = text.iter().position(|byte| *byte == b'}') else {
        return Ok(0);
    };
    let (inside, _) = text.split_at(close);
    let Some(star) = inside.iter().position(|byte| *byte == b'*') else {
        return Ok(0);
    };
    let (count, repeated) = inside.split_at(star);
    let repeated = repeated.split_at(1).1;
    for _ in 0..number(count) {
        bytes.extend_from_slice(repeated)?;
    }
    Ok(close + 1)
}

/// Parses decimal digits; at most a thousand million.
pub fn number(digits: &[u8]) -> u64 {
    let mut value = 0u64;
    for digit in digits {
        value = value
            .saturating_mul(10)
            .saturating_add(u64::from(digit.saturating_sub(b'0')));
    }
    value
}
