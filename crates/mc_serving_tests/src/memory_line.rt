//! A line over memory, which records the bytes that it gave and took.
ghost use Rattle.std.specs.Prelude.{◌≤◌, None, length, take};

use mc_transport::{Transport, TransportError};
use mc_wire::{Sink, SinkError};
use std::alloc::{AllocError, Global};

/// A line over memory.
#[derive(Drop)]
pub struct MemoryLine {
    input: &'static [u8],
    /// Number of input bytes read.
    at: usize,
    pub output: Vec<u8>,
    /// Number of reads and of writes.
    pub calls: usize,
    failed: bool,
    ended: bool,
    ghost within: { at ≤ length input.now },
}

impl MemoryLine {
    /// A line of which nothing was read, with room for its output.
    pub fn new(alloc: Global, input: &'static [u8]) -> Result<MemoryLine, AllocError> {
        Ok(MemoryLine {
            input,
            at: 0,
            output: Vec::with_capacity(alloc, 4096)?,
            calls: 0,
            failed: false,
            ended: false,
        })
    }
}

impl Transport for MemoryLine {
    ghost use Rattle.mc_ring.specs.Route.{no_history};
    ghost use Rattle.mc_transport.specs.Place.{unbegun};

    type Warrant = ();

    ghost sight = { ⟦<MemoryLine as Sink>⟧.sight };

    ghost place = { λ line. unbegun no_history };

    fn begin(&mut self, _seen: ()) {}

    fn read(&mut self, room: &mut [u8]) -> Result<usize, TransportError> {
        self.calls = self.calls.wrapping_add(1);
        if self.failed {
            return Err(TransportError);
        }
        let (_, rest) = self.input.split_at(self.at);
        let count = room.len().min(rest.len());
        let (front, _) = rest.split_at(count);
        let (place, _) = room.split_at_mut(count);
        place.copy_from_slice(front);
        self.at += count;
        self.ended = count == 0;
        Ok(count)
    }

    fn write_if_ready(&mut self, bytes: &[u8], _seen: &()) -> Result<usize, SinkError> {
        Sink::write(self, bytes)
    }
}

/// It is a sink too, for reports and for replies that are handed out at once.
impl Sink for MemoryLine {
    ghost use Rattle.std.specs.Prelude.{take};
    ghost use Rattle.mc_wire.specs.Sink.{Listed};

    ghost sight = { λ line.
        record {
          given = Listed (take line.at line.input.now);
          ended = line.ended;
          reads = None;
          taken = Listed line.output.items;
          failed = line.failed;
        } };

    fn write(&mut self, bytes: &[u8]) -> Result<usize, SinkError> {
        self.calls = self.calls.wrapping_add(1);
        match self.output.extend_from_slice(bytes) {
            Ok(()) => Ok(bytes.len()),
            Err(_) => {
                self.failed = true;
                Err(SinkError)
            }
        }
    }
}
