//! Iteration over the set bits of a word.
ghost use Rattle.std.specs.Prelude.{◌≡◌, ◌*◌, ◌-◌, ◌^◌, min};
ghost use Rattle.std.specs.Iterator.{at_most};
ghost use Rattle.mc_poll.specs.SetBits.{GivesLowest};

use crate::bit_set::WORD;

/// Iterator over the numbers of the set bits of a word, in ascending order.
#[derive(Drop)]
pub struct SetBits {
    /// The number of the lowest bit.
    first: usize,
    bits: u64,
}

impl SetBits {
    /// The set bits of word number `word`, whose lowest bit has the number `64 * word`.
    pub fn of(word: usize, bits: u64) -> SetBits
        ensures first { result.first ≡ min (word * 64) (2 ^ 64 - 1) }
        ensures bits { result.bits ≡ bits }
    {
        SetBits {
            first: word.saturating_mul(WORD),
            bits,
        }
    }
}

impl Iterator for SetBits {
    type Item = usize;

    ghost next_gives = { GivesLowest };

    ghost remaining = { λ marked. at_most marked.bits };

    fn next(&mut self) -> Option<usize> {
        if self.bits == 0 {
            return None;
        }
        let place = self.bits.trailing_zeros();
        let number = self.first.saturating_add(place as usize);
        self.bits = self.bits >> place >> 1;
        self.first = number.saturating_add(1);
        Some(number)
    }
}
