//! Counters that one thread increments and any thread reads.
ghost use Rattle.std.specs.Prelude.{⊤};

use std::sync::atomic::{AtomicU64, Ordering};

/// A counter that threads share. Since any thread may change it, no contract states its value. Code
/// is generic over the counter instead, so that contracts can say which counter was given which
/// number, and which one was read.
pub trait Count: Drop {
    ghost use Rattle.std.specs.Prelude.{ℕ};

    /// The number was passed to `add`.
    ghost was_added: { Self → ℕ → Type 0 };

    /// The number was passed to `set`.
    ghost was_set: { Self → ℕ → Type 0 };

    /// The number was returned by `get`.
    ghost has_told: { Self → ℕ → Type 0 };

    /// Adds `count`. Only one thread may call this: concurrent additions would be lost.
    fn add(&self, count: u64)
        ensures { was_added self.now count };

    /// Sets the value. Only one thread may call this.
    fn set(&self, count: u64)
        ensures { was_set self.now count };

    /// Returns the value.
    fn get(&self) -> u64
        ensures { has_told self.now result };
}

/// A lock-free counter of 64 bits with one writer; any thread reads it. It wraps after 2^64 - 1.
/// See docs/DECISIONS.md, W1.
#[derive(Drop)]
pub struct Counter {
    word: AtomicU64,
}

impl Counter {
    /// A counter at 0.
    pub fn new() -> Counter {
        Counter {
            word: AtomicU64::new(0),
        }
    }
}

/// No contract knows the word's value, since any thread may change it, so these relations hold for
/// any number. A clause that cites them says nothing about `Counter` itself, but it does wherever
/// it is proved for any `Count`, as in this crate.
impl Count for Counter {
    ghost was_added = { λ _ _. ⊤ };

    ghost was_set = { λ _ _. ⊤ };

    ghost has_told = { λ _ _. ⊤ };

    fn add(&self, count: u64) {
        let before = self.word.load(Ordering::SeqCst);
        self.word
            .store(before.wrapping_add(count), Ordering::SeqCst);
    }

    fn set(&self, count: u64) {
        self.word.store(count, Ordering::SeqCst);
    }

    fn get(&self) -> u64 {
        self.word.load(Ordering::SeqCst)
    }
}
