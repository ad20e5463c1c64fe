//! Decimal numbers, written to the buffer in which a reply's line is assembled.
ghost use Rattle.std.specs.Prelude.{◌≡◌, ◌+◌, ◌++◌, ◌<◌, ◌≤◌, decimal, length, take};

use crate::header::place;
use itoa::Buffer;

/// Maximum number of digits.
pub const DIGIT_LIMIT: usize = 20;

/// Writes a number to index `at` of the buffer, and returns the index after it. Numbers of up to
/// three digits, as most client flags and sizes are, are written directly, others through a
/// temporary buffer.
#[inline(always)]
#[tactic(auto, using(crate::proofs::Digits::decimal_one, crate::proofs::Digits::decimal_two, crate::proofs::Digits::decimal_three))]
pub fn place_number(room: &mut [u8], at: usize, number: u64) -> usize
    requires { at + DIGIT_LIMIT ≤ length room.old }
    ensures text { take result room.new ≡ take at room.old ++ decimal number }
    ensures most { result ≤ at + DIGIT_LIMIT }
{
    if number < 10 {
        return place(room, at, &[digit(number)]);
    }
    if number < 100 {
        return place(room, at, &[digit(number / 10), digit(number % 10)]);
    }
    if number < 1_000 {
        let (tens, ones) = (number / 10 % 10, number % 10);
        return place(room, at, &[digit(number / 100), digit(tens), digit(ones)]);
    }
    let mut digits = Buffer::new();
    place(room, at, digits.format(number).as_bytes())
}

/// The ASCII digit of a number below 10.
#[inline(always)]
fn digit(number: u64) -> u8
    requires { number < 10 }
    ensures { result ≡ 48 + number }
{
    b'0' + number as u8
}
