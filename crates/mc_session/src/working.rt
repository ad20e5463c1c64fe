//! Serves the seats that called a worker.
ghost use Rattle.std.specs.Prelude.{◌≡◌, ◌≢◌, ◌<◌, ◌%◌, ◌⊎◌, ◌↔◌, ℕ, Some, None, true, false, IfOk, IsTrue, length};
ghost use Rattle.std.specs.Bool.{OnTrue};
ghost use Rattle.std.specs.Int.{bit_at};
ghost use Rattle.std.specs.List.{slice_get};
ghost use Rattle.mc_worker.specs.WorkerState.{Goes, HasEnded};
ghost use Rattle.mc_worker.specs.Serves.{LeavesNothing, ServesSeat};
ghost use Rattle.mc_worker.specs.Turns.{FindsNothing};

use mc_poll::{SetBits, Wakers};
use mc_ring::Token;
use mc_worker::{Gate, Scribe, Served, Worker};
use std::alloc::{AllocError, Global};
use std::sync::Arc;

/// Seats a block, each with a bit of a word.
const BLOCK: usize = 64;

/// A worker, its gate, and the wakers of its seats. Its scribe records what it runs; each reply
/// carries a token of the scribe.
pub struct Working<G, T: Token = (), S: Scribe<T> = ()> {
    pub worker: Worker<T, S>,
    gate: Arc<G, Global>,
    seats: Wakers,
    /// For each seat, whether a reply was sent to it since it was last woken.
    given: Vec<bool>,
    alloc: Global,
    ghost each_seat: { length given.items ≡ length worker.ends.channels },
    // After a turn no seat is left to be woken.
    ghost none_left: { (seat : ℕ) → slice_get given.items seat ≢ Some true },
}

impl<G: Drop, T: Token + Drop, S: Scribe<T> + Drop> Drop for Working<G, T, S> {
    /// Written by hand, so that its owners drop it by a single call (docs/DECISIONS.md, F20).
    fn drop(self) {
        let Working {
            worker: _worker,
            gate: _gate,
            seats: _seats,
            given: _given,
            alloc: _alloc,
        } = self;
    }
}

impl<G: Gate + Drop, T: Token + Drop, S: Scribe<T> + Drop> Working<G, T, S> {
    /// A worker before its first turn. It calls the gate before each piece, and `seats` has the
    /// wakers of its seats. `AllocError`: memory ran out.
    pub fn new(
        alloc: Global,
        worker: Worker<T, S>,
        gate: Arc<G, Global>,
        seats: Wakers,
    ) -> Result<Working<G, T, S>, AllocError>
        ensures { IfOk result (λ working. working.worker ≡ worker) }
    {
        let count = worker.seats();
        let given = vec![in alloc; false; count]?;
        Ok(Working {
            worker,
            gate,
            seats,
            given,
            alloc,
        })
    }

    /// Serves the seats of a block of 64, from `64 * block` on, whose bit is set in `called`, and wakes
    /// each seat that it sends a reply to. Where it served something, it shows its shard to the gate.
    /// Returns a bit for each seat whose channel may hold more.
    pub fn turn(&mut self, block: usize, called: u64) -> u64
        ensures { Goes self.old.worker self.new.worker }
    {
        let mut more = 0;
        let mut found = false;
        for seat in SetBits::of(block, called) {
            if self.serve_seat(seat, &mut more) {
                found = true;
            }
        }
        if found {
            self.worker.show(&*self.gate);
        }
        more
    }

    /// Serves the seat, if there is one of this number, and wakes each seat that a reply was sent to.
    /// Sets the seat's bit in `more` if its channel may hold more. Returns whether it served
    /// anything.
    fn serve_seat(&mut self, seat: usize, more: &mut u64) -> bool
        ensures goes { Goes self.old.worker self.new.worker }
        ensures rests { seat < length self.old.worker.ends.channels → result ≡ false →
            FindsNothing self.old.worker seat self.new.worker }
        ensures left { seat < length self.old.worker.ends.channels →
            bit_at more.new (seat % 64) ≡ 0 →
            LeavesNothing self.old.worker seat self.new.worker }
        ensures serves { bit_at more.new (seat % 64) ≡ 1 →
            (bit_at more.old (seat % 64) ≡ 1) ⊎ ServesSeat self.old.worker seat self.new.worker }
        ensures others { (place : ℕ) → place ≢ seat % 64 →
            bit_at more.new place ≡ bit_at more.old place }
    {
        if seat >= self.given.len() {
            return false;
        }
        let holder = self.worker.holder();
        let served = self
            .worker
            .serve(self.alloc, seat, &*self.gate, &mut self.given);
        wake_given(&mut self.given, &self.seats, holder);
        wake_given(&mut self.given, &self.seats, Some(seat));
        match served {
            Served::Nothing => false,
            Served::All => true,
            Served::Part => {
                *more = marked(*more, seat);
                true
            }
        }
    }

    /// Whether the `End` of every channel was received; no reply is pending then.
    pub fn ended(&self) -> bool
        ensures ended { IsTrue result ↔ HasEnded self.now.worker }
        ensures given { OnTrue result (self.now.worker.hand ≡ None) }
        ensures marked { length self.now.worker.live ≡ length self.now.worker.ends.channels }
    {
        self.worker.ended()
    }
}

/// Wakes the seat, if there is one, if it is marked as having been sent a reply, and clears its mark.
fn wake_given(given: &mut [bool], seats: &Wakers, seat: Option<usize>)
    ensures many { length given.new ≡ length given.old }
    ensures taken { (one : ℕ) → seat ≡ Some one → slice_get given.new one ≢ Some true }
    ensures others { (other : ℕ) → seat ≢ Some other →
        slice_get given.new other ≡ slice_get given.old other }
{
    let Some(seat) = seat else {
        return;
    };
    if seat >= given.len() {
        return;
    }
    if !given[seat] {
        return;
    }
    given[seat] = false;
    seats.rouse(seat);
}

/// The word with the seat's bit set.
fn marked(word: u64, seat: usize) -> u64
    ensures seat { bit_at result (seat % 64) ≡ 1 }
    ensures others { (place : ℕ) → place ≢ seat % 64 → bit_at result place ≡ bit_at word place }
{
    word | 1u64 << (seat % BLOCK)
}
