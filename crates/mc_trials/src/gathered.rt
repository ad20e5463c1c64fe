//! Lines that return nothing before the other lines, or pieces at the gate, have arrived.
use crate::gates::{Come, LOOKS};
use mc_transport::{Transport, TransportError};
use mc_wire::SinkError;
use std::alloc::{AllocError, Global};
use std::sync::Arc;
use std::sync::atomic::{AtomicU64, Ordering};
use std::thread;

/// A line whose first read waits until `all` have arrived, itself included.
#[derive(Drop)]
pub struct Gathered<L> {
    pub line: L,
    come: Come,
    all: u64,
    has_waited: bool,
    /// Whether all arrived before the timeout.
    pub saw_all: bool,
}

impl<L: Drop> Gathered<L> {
    /// A line that waits until `all` have arrived, itself included.
    pub fn new(line: L, come: &Come, all: u64) -> Result<Gathered<L>, AllocError> {
        Ok(Gathered {
            line,
            come: Arc::try_clone(come)?,
            all,
            has_waited: false,
            saw_all: false,
        })
    }
}

impl<L: Transport> Transport for Gathered<L> {
    type Warrant = L::Warrant;

    ghost sight = { λ gathered. L.sight gathered.line };

    ghost place = { λ gathered. L.place gathered.line };

    fn begin(&mut self, seen: L::Warrant) {
        self.line.begin(seen);
    }

    fn read(&mut self, room: &mut [u8]) -> Result<usize, TransportError> {
        if !self.has_waited {
            self.has_waited = true;
            self.come.fetch_add(1, Ordering::SeqCst);
            self.saw_all = have_come(&self.come, self.all);
        }
        self.line.read(room)
    }

    fn write_if_ready(&mut self, bytes: &[u8], seen: &L::Warrant) -> Result<usize, SinkError> {
        self.line.write_if_ready(bytes, seen)
    }
}

/// Whether `all` have arrived, after the maximum number of polls.
fn have_come(come: &AtomicU64, all: u64) -> bool {
    for _ in 0..LOOKS {
        if come.load(Ordering::SeqCst) >= all {
            return true;
        }
        thread::yield_now();
    }
    false
}
