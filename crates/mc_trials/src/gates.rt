//! Gates at which shards wait for each other, round after round.
use mc_reply::Ticket;
use mc_worker::Gate;
use std::alloc::{AllocError, Global};
use std::sync::Arc;
use std::sync::atomic::{AtomicU64, Ordering};
use std::thread;

/// Maximum number of polls of a waiting shard.
pub const LOOKS: u64 = 1_000_000;

/// Number of times that a shard saw the other one at the gate.
pub type Met = Arc<AtomicU64, Global>;

/// A counter shared by lines and gates: arrivals at the first read or at the gate, or the clock of
/// a history.
pub type Come = Arc<AtomicU64, Global>;

/// A gate for two shards: with each piece a shard counts its arrival, and waits until the other one
/// has arrived as often. A shard that times out reports it; from then on none waits or meets.
#[derive(Drop)]
pub struct Meeting {
    /// Number of arrivals of the first and of the second shard.
    come: [AtomicU64; 2],
    /// Number of timeouts.
    missed: AtomicU64,
    met: Met,
    arrived: Come,
}

impl Meeting {
    /// A gate without arrivals. Meetings are counted in `met`, arriving pieces in `arrived`.
    pub fn new(met: &Met, arrived: &Come) -> Result<Meeting, AllocError> {
        Ok(Meeting {
            come: [AtomicU64::new(0), AtomicU64::new(0)],
            missed: AtomicU64::new(0),
            met: Arc::try_clone(met)?,
            arrived: Arc::try_clone(arrived)?,
        })
    }

    /// Whether the other shard has arrived that often, after at most [`LOOKS`] polls.
    fn sees(&self, other: &AtomicU64, often: u64) -> bool {
        for _ in 0..LOOKS {
            if self.missed.load(Ordering::SeqCst) > 0 {
                return false;
            }
            if other.load(Ordering::SeqCst) >= often {
                return true;
            }
            thread::yield_now();
        }
        false
    }
}

impl Gate for Meeting {
    fn before(&self, shard: usize, _ticket: Ticket) {
        let [first, second] = &self.come;
        let (mine, other) = if shard == 0 {
            (first, second)
        } else {
            (second, first)
        };
        let often = mine.fetch_add(1, Ordering::SeqCst).saturating_add(1);
        self.arrived.fetch_add(1, Ordering::SeqCst);
        if self.sees(other, often) {
            self.met.fetch_add(1, Ordering::SeqCst);
        } else {
            self.missed.store(1, Ordering::SeqCst);
        }
    }
}
