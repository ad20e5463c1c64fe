//! Parsing of decimal numbers in a line (protocol.txt, Protocol).
ghost use Rattle.std.specs.Prelude.{◌≡◌, ◌^◌, true, false, drop, MatchOption};
ghost use Rattle.std.specs.Option.{ok_or};
ghost use Rattle.std.specs.Str.Parse.{starts_with_minus};
ghost use Rattle.mc_wire.specs.Number.{number_of, integer_of};
ghost use Rattle.mc_wire.specs.internal.Steps.{with_digit};
ghost use Rattle.mc_wire.specs.internal.Steps as step;

use crate::DIGIT_LIMIT;
use crate::error::WireError;

/// Parses an unsigned 64-bit number: 1 to `DIGIT_LIMIT` digits, leading zeros allowed. Any other
/// word is `NotNumber`. Allocates nothing.
pub fn number_u64(word: &[u8]) -> Result<u64, WireError>
    ensures { result ≡ ok_or (number_of (2 ^ 64) word.now) WireError.NotNumber }
{
    if word.is_empty() || word.len() > DIGIT_LIMIT {
        return Err(WireError::NotNumber);
    }
    let mut value = 0;
    for byte in word {
        let Some(more) = append_digit(value, *byte) else {
            return Err(WireError::NotNumber);
        };
        value = more;
    }
    Ok(value)
}

/// Parses a signed 64-bit number: an optional `-` and 1 to `DIGIT_LIMIT` digits, leading zeros
/// allowed. Any other word is `NotNumber`, including numbers below -2^63 or above 2^63-1. Allocates
/// nothing.
pub fn number_i64(word: &[u8]) -> Result<i64, WireError>
    ensures { result ≡ ok_or (integer_of word.now) WireError.NotNumber }
{
    match behind_minus(word) {
        Some(digits) => negative(number_u64(digits)?),
        None => positive(number_u64(word)?),
    }
}

/// Appends a decimal digit to the value: `10 * value + digit`. `None` if the byte isn't a digit, or
/// on overflow.
fn append_digit(value: u64, digit: u8) -> Option<u64>
    ensures { result ≡ with_digit value digit }
{
    if !digit.is_ascii_digit() {
        return None;
    }
    value.checked_mul(10)?.checked_add(u64::from(digit - b'0'))
}

/// The text after a leading minus; `None` if there is no minus.
fn behind_minus(word: &[u8]) -> Option<&[u8]>
    ensures { MatchOption result (starts_with_minus word.now ≡ false)
        (λ rest. (starts_with_minus word.now ≡ true) × (rest.now ≡ drop 1 word.now)) }
{
    match word {
        [b'-', rest @ ..] => Some(rest),
        _ => None,
    }
}

/// Negates the magnitude; an error if the result is below -2^63.
fn negative(size: u64) -> Result<i64, WireError>
    ensures { result ≡ ok_or (step.negative size) WireError.NotNumber }
{
    0i64.checked_sub_unsigned(size).ok_or(WireError::NotNumber)
}

/// The magnitude as a signed number; an error if it is above 2^63-1.
fn positive(size: u64) -> Result<i64, WireError>
    ensures { result ≡ ok_or (step.positive size) WireError.NotNumber }
{
    0i64.checked_add_unsigned(size).ok_or(WireError::NotNumber)
}
