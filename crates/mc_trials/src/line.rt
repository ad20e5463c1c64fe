//! A line in memory that returns its input in pieces, takes its output in portions, and may fail.
ghost use Rattle.std.specs.Prelude.{◌≤◌, None, length, take};

use mc_transport::{Transport, TransportError};
use mc_wire::SinkError;
use std::alloc::{AllocError, Global};

/// Where a line fails, if it does: the index of the read or write, from 0.
#[derive(Clone, Copy, Debug, PartialEq, Eq)]
pub enum Fault {
    Never,
    Reading(usize),
    Writing(usize),
}

/// How a line is cut, and where it fails.
#[derive(Clone, Copy)]
pub struct Cutting {
    /// Maximum number of bytes per read.
    pub piece: usize,
    /// Maximum number of bytes per write.
    pub portion: usize,
    pub fault: Fault,
}

impl Cutting {
    /// Nothing is cut, and nothing fails.
    pub const NONE: Cutting = Cutting {
        piece: usize::MAX,
        portion: usize::MAX,
        fault: Fault::Never,
    };

    /// One byte per write.
    pub const ONE_BYTE_A_WRITE: Cutting = Cutting {
        piece: usize::MAX,
        portion: 1,
        fault: Fault::Never,
    };

    /// Seven bytes per read.
    pub const SEVEN_BYTES_A_READ: Cutting = Cutting {
        piece: 7,
        portion: usize::MAX,
        fault: Fault::Never,
    };

    /// One byte per read and write.
    pub const ONE_BYTE_A_CALL: Cutting = Cutting {
        piece: 1,
        portion: 1,
        fault: Fault::Never,
    };
}

/// A line that stores its output.
#[derive(Drop)]
pub struct MemoryLine {
    input: Vec<u8>,
    /// Where the first reads end; only the cutting limits later ones.
    ends: Vec<usize>,
    cutting: Cutting,
    /// Number of bytes read.
    given: usize,
    pub output: Vec<u8>,
    reads: usize,
    writes: usize,
    pub failed: bool,
    /// The last read returned the end of input.
    ended: bool,
    ghost within: { given ≤ length input.items },
}

impl MemoryLine {
    /// A line that was not read yet, with space for `room` bytes of output. The first reads end at
    /// these indices.
    pub fn new(
        alloc: Global,
        input: Vec<u8>,
        ends: Vec<usize>,
        cutting: Cutting,
        room: usize,
    ) -> Result<MemoryLine, AllocError> {
        Ok(MemoryLine {
            input,
            ends,
            cutting,
            given: 0,
            output: Vec::with_capacity(alloc, room)?,
            reads: 0,
            writes: 0,
            failed: false,
            ended: false,
        })
    }

    /// A line with this input and cutting.
    pub fn of(alloc: Global, input: &[u8], cutting: Cutting) -> Result<MemoryLine, AllocError> {
        let input = Vec::from_slice(alloc, input)?;
        MemoryLine::new(alloc, input, Vec::new(alloc), cutting, 0)
    }

    /// The bytes read so far.
    pub fn given(&self) -> &[u8] {
        self.input.as_slice().split_at(self.given).0
    }

    /// Maximum number of bytes of the next read.
    fn most(&self) -> usize {
        match self.ends.get(self.reads) {
            Some(end) if *end > self.given => *end - self.given,
            _ => self.cutting.piece,
        }
    }
}

impl Transport for MemoryLine {
    ghost use Rattle.std.specs.Prelude.{take};
    ghost use Rattle.mc_wire.specs.Sink.{Listed};
    ghost use Rattle.mc_ring.specs.Route.{no_history};
    ghost use Rattle.mc_transport.specs.Place.{unbegun};

    type Warrant = ();

    ghost sight = { λ line.
        record {
          given = Listed (take line.given line.input.items);
          ended = line.ended;
          reads = None;
          taken = Listed line.output.items;
          failed = line.failed;
        } };

    ghost place = { λ line. unbegun no_history };

    fn begin(&mut self, _seen: ()) {}

    fn read(&mut self, room: &mut [u8]) -> Result<usize, TransportError> {
        if self.failed || self.cutting.fault == Fault::Reading(self.reads) {
            self.failed = true;
            return Err(TransportError);
        }
        let most = self.most();
        self.reads = self.reads.wrapping_add(1);
        let (_, rest) = self.input.as_slice().split_at(self.given);
        let count = most.min(rest.len()).min(room.len());
        let (front, _) = rest.split_at(count);
        let (place, _) = room.split_at_mut(count);
        place.copy_from_slice(front);
        self.given += count;
        self.ended = count == 0;
        Ok(count)
    }

    fn write_if_ready(&mut self, bytes: &[u8], _seen: &()) -> Result<usize, SinkError> {
        if self.failed || self.cutting.fault == Fault::Writing(self.writes) {
            self.failed = true;
            return Err(SinkError);
        }
        self.writes = self.writes.wrapping_add(1);
        let count = bytes.len().min(self.cutting.portion.max(1));
        let (front, _) = bytes.split_at(count);
        match self.output.extend_from_slice(front) {
            Ok(()) => Ok(count),
            Err(_) => {
                self.failed = true;
                Err(SinkError)
            }
        }
    }
}
