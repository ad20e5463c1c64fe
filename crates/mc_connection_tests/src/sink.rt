//! A sink in memory.
ghost use Rattle.mc_wire.specs.Sink.{Listed, sight_out};

use mc_wire::{Sink, SinkError};
use std::alloc::Global;

/// Counts the writes, takes `left` more bytes, and fails after them.
#[derive(Drop)]
pub struct MemorySink {
    pub taken: Vec<u8>,
    pub writes: u64,
    left: usize,
    failed: bool,
}

impl Sink for MemorySink {
    ghost sight = { λ out. sight_out (Listed out.taken.items) out.failed };

    fn write(&mut self, bytes: &[u8]) -> Result<usize, SinkError> {
        self.writes = self.writes.wrapping_add(1);
        if self.failed || (self.left == 0 && !bytes.is_empty()) {
            self.failed = true;
            return Err(SinkError);
        }
        let count = bytes.len().min(self.left);
        let (front, _) = bytes.split_at(count);
        if self.taken.extend_from_slice(front).is_err() {
            self.failed = true;
            return Err(SinkError);
        }
        self.left -= count;
        Ok(count)
    }
}

impl MemorySink {
    /// Makes it work again after a failure, for `left` more bytes.
    pub fn allow(&mut self, left: usize) {
        self.left = left;
        self.failed = false;
    }
}

/// A sink that takes `left` bytes.
pub fn sink(alloc: Global, left: usize) -> MemorySink {
    sink_over(Vec::new(alloc), left)
}

/// A sink that appends up to `left` bytes to these.
pub fn sink_over(taken: Vec<u8>, left: usize) -> MemorySink {
    MemorySink {
        taken,
        writes: 0,
        left,
        failed: false,
    }
}
