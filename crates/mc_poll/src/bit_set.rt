//! Atomic bit sets: any thread sets bits, one thread takes them, 64 at a time.
ghost use Rattle.std.specs.Prelude.{◌≡◌, ◌≤◌, ◌-◌, ◌^◌, IfOk};
ghost use Rattle.std.specs.Int.{div_ceil};

use std::alloc::{AllocError, Global};
use std::marker::Model;
use std::sync::atomic::{AtomicU64, Ordering};

/// Number of bits of a word.
pub(crate) const WORD: usize = 64;

/// The last bit of a word.
const LAST: usize = 63;

/// An atomic bit set over the numbers below a bound. Contracts see its number of words.
#[derive(Drop)]
pub(crate) struct AtomicBitSet {
    words: Vec<AtomicU64>,
    /// A bit for each word that may have marks. The last bit is that of all words from there on.
    /// Only marked numbers are visited (docs/DECISIONS.md, E3).
    some: AtomicU64,
}

impl Model for AtomicBitSet {
    ghost use Rattle.std.specs.Prelude.{ℕ, length};

    ghost Value = { ℕ };

    ghost view = { λ bit_set. length bit_set.words.items };
}

impl AtomicBitSet {
    /// A bit set for `numbers` numbers, all clear.
    pub(crate) fn new(alloc: Global, numbers: usize) -> Result<AtomicBitSet, AllocError>
        ensures { IfOk result (λ bit_set. bit_set ≡ div_ceil numbers 64) }
    {
        let count = numbers.div_ceil(WORD);
        let mut words = Vec::with_capacity(alloc, count)?;
        for _ in 0..count {
            words.push(AtomicU64::new(0))?;
        }
        Ok(AtomicBitSet {
            words,
            some: AtomicU64::new(0),
        })
    }

    /// Sets the bit of the number.
    pub(crate) fn mark(&self, number: usize) {
        self.add(number / WORD, 1u64 << (number % WORD));
    }

    /// Marks those of the 64 numbers from `64 * word` on that have a bit.
    pub(crate) fn add(&self, word: usize, bits: u64) {
        let Some(marks) = self.words.get(word) else {
            return;
        };
        if bits != 0 {
            set(marks, bits);
            // In this order: a thread that takes this bit finds the marks.
            set(&self.some, 1u64 << word.min(LAST));
        }
    }

    /// Takes the range of words that may have marks since the last call: from the first index to
    /// before the second.
    pub(crate) fn range(&self) -> (usize, usize) {
        let some = take(&self.some);
        if some >> LAST == 1 {
            return (0, self.words.len());
        }
        let first = some.trailing_zeros() as usize;
        (first, WORD - some.leading_zeros() as usize)
    }

    /// Takes and clears the bits of the 64 numbers from `64 * word` on. For a word out of range,
    /// all bits are returned set.
    pub(crate) fn take(&self, word: usize) -> u64
        ensures beyond { self.now ≤ word → result ≡ 2 ^ 64 - 1 }
    {
        let Some(marks) = self.words.get(word) else {
            return u64::MAX;
        };
        take(marks)
    }

    /// Moves all set bits of the other set into this one; the other one is then clear.
    pub(crate) fn take_all(&self, other: &AtomicBitSet) {
        for word in 0..self.words.len() {
            self.add(word, other.take(word));
        }
    }

    /// Whether no bit is set.
    pub(crate) fn is_empty(&self) -> bool {
        self.words
            .iter()
            .all(|word| word.load(Ordering::SeqCst) == 0)
    }
}

/// Sets the bits.
fn set(word: &AtomicU64, bits: u64) {
    // Bits that are still there are taken after this look at them.
    if word.load(Ordering::SeqCst) & bits != bits {
        word.fetch_or(bits, Ordering::SeqCst);
    }
}

/// Takes all bits.
fn take(word: &AtomicU64) -> u64 {
    if word.load(Ordering::SeqCst) == 0 {
        return 0;
    }
    word.swap(0, Ordering::SeqCst)
}
