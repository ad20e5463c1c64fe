//! What flushes took out. It still takes memory, and each store frees some of it.
//!
//! So a flush takes no longer where there are more items (docs/DECISIONS.md, F30).
ghost use Rattle.std.specs.Prelude.{◌≡◌, ◌+◌, ◌-◌, ◌<◌, length, OnErr, OnOk};
ghost use Rattle.std.specs.VecDeque.{deque_len};

use crate::hashing::PolynomialState;
use crate::stored::Stored;
use lru::LruCache;
use mc_wire::Key;
use std::alloc::{AllocError, Global};
use std::collections::VecDeque;
use std::marker::Model;
use std::mem;

/// What is freed one by one.
pub trait Entries: Drop {
    ghost use Rattle.std.specs.Prelude.{ℕ};

    /// How many there are.
    ghost count: { Self → ℕ };

    fn count(&self) -> usize
        ensures { result ≡ count self.now };

    /// Frees one of them, if any is left.
    fn free_one(&mut self)
        ensures { count self.new ≡ count self.old - 1 };
}

/// What is known of each item, by key.
pub type ItemMap = LruCache<Key, Stored, PolynomialState>;

impl Entries for ItemMap {
    ghost count = { λ map. length map.entries };

    fn count(&self) -> usize {
        LruCache::len(self)
    }

    fn free_one(&mut self) {
        let _freed = self.pop_lru();
    }
}

/// Turns of items with an expiry, the next one first: the key of each, and the unique that its item
/// had then.
pub type Turns = VecDeque<(Key, u64)>;

impl Entries for Turns {
    ghost count = { λ turns. deque_len turns };

    fn count(&self) -> usize {
        VecDeque::len(self)
    }

    fn free_one(&mut self) {
        let _freed = self.pop_back();
    }
}

/// What flushes took out and is not freed yet. Contracts see how many entries that is.
///
/// Each flush adds a part, and the latest part is freed first. It has at most one entry for each
/// store since the flush before, and each of those freed several entries. So each part is several
/// times smaller than the one before it, and there are few.
#[derive(Drop)]
pub struct Flushed<T: Entries> {
    /// Those of each flush, the latest last.
    parts: Vec<T>,
}

impl<T: Entries> Model for Flushed<T> {
    ghost use Rattle.std.specs.Prelude.{ℕ, ◌<◌};
    ghost use Rattle.std.specs.List.{All, sum_by};

    ghost Value = { ℕ };

    ghost view = { λ flushed. sum_by T.count flushed.parts.items };

    ghost invariant = { λ flushed. All (λ part. 0 < T.count part) flushed.parts.items };
}

impl<T: Entries> Flushed<T> {
    /// Nothing.
    pub fn new(alloc: Global) -> Flushed<T>
        ensures { result ≡ 0 }
    {
        Flushed {
            parts: Vec::new(alloc),
        }
    }

    /// Takes all entries over, and leaves what is empty in their place. Where memory is refused
    /// nothing changes.
    pub fn take(&mut self, full: &mut T, empty: T) -> Result<(), AllocError>
        requires { 0 < T.count full.old }
        ensures taken { OnOk result (self.new ≡ self.old + T.count full.old) }
        ensures left { OnOk result (full.new ≡ empty) }
        ensures err { OnErr result (self.new ≡ self.old) }
        ensures unchanged { OnErr result (full.new ≡ full.old) }
    {
        self.parts.reserve(1)?;
        let part = mem::replace(full, empty);
        self.parts.push_reserved(part);
        Ok(())
    }

    /// Frees this many entries, or all if there are fewer.
    #[inline(always)]
    pub fn free_some(&mut self, count: usize)
        ensures { self.new ≡ self.old - count }
    {
        if !self.parts.is_empty() {
            self.free(count);
        }
    }

    /// Frees this many entries, or all if there are fewer.
    #[cold]
    #[inline(never)]
    fn free(&mut self, count: usize)
        ensures { self.new ≡ self.old - count }
    {
        for _ in 0..count {
            self.free_one();
        }
    }

    /// Frees one entry, if any is left, and with the last one of a part the memory that those shared.
    fn free_one(&mut self)
        ensures { self.new ≡ self.old - 1 }
    {
        let Some(mut part) = self.parts.pop() else {
            return;
        };
        part.free_one();
        if part.count() > 0 {
            self.parts.push_reserved(part);
        }
    }
}
