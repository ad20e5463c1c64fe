//! A line in memory that is cut into pieces and may fail.
ghost use Rattle.std.specs.Prelude.{◌≡◌, None, IsTrue, false};
ghost use Rattle.mc_history.specs.Places.{place_in};
ghost use Rattle.mc_transport.specs.Place.{place_by, unbegun};
ghost use Rattle.mc_wire.specs.Sink.{Unlisted, sight_out};

use mc_history::Evidence;
use mc_transport::{Transport, TransportError};
use mc_wire::SinkError;
use std::alloc::Global;
use std::snapshot::Snapshot;

/// How a line is cut, and where it fails.
#[derive(Clone, Copy)]
pub struct Cutting {
    /// Maximum number of bytes per read.
    pub piece: usize,
    /// Maximum number of bytes per write.
    pub portion: usize,
    /// The index of the read or write that fails, from 0.
    pub fails_at: usize,
}

/// Returns its input in pieces, and stores its output.
#[derive(Drop)]
pub struct MemoryLine<'a> {
    input: &'a [u8],
    cutting: Cutting,
    given: usize,
    output: Vec<u8>,
    calls: usize,
    failed: bool,
    failed_reading: bool,
    /// The last read returned the end of input.
    ended: bool,
    /// The history that it is of. Contracts alone see it.
    history: Snapshot<Evidence>,
    /// What was shown when it began, if it has. Contracts alone see it.
    begun: Snapshot<Option<Evidence>>,
}

impl<'a> MemoryLine<'a> {
    /// A line of the history that is shown, which has not begun.
    pub fn new(
        alloc: Global,
        input: &'a [u8],
        cutting: Cutting,
        history: &Evidence,
    ) -> MemoryLine<'a>
        ensures { place_by place_in result.history.value.name result.begun.value
            (sight_out Unlisted false) ≡ unbegun history.now.name }
    {
        let begun: Option<Evidence> = None;
        MemoryLine {
            input,
            cutting,
            given: 0,
            output: Vec::new(alloc),
            calls: 0,
            failed: false,
            failed_reading: false,
            ended: false,
            history: Snapshot::of(history),
            begun: Snapshot::of(&begun),
        }
    }

    /// The bytes read so far.
    pub fn given(&self) -> &'a [u8] {
        let input = self.input;
        input.split_at(self.given.min(input.len())).0
    }

    /// The bytes written so far.
    pub fn output(&self) -> &[u8] {
        self.output.as_slice()
    }

    /// Number of reads and writes.
    pub fn calls(&self) -> usize {
        self.calls
    }

    /// Whether it has failed.
    pub fn has_failed(&self) -> bool {
        self.failed
    }

    /// Whether a read failed.
    pub fn has_failed_reading(&self) -> bool {
        self.failed_reading
    }

    /// Counts a call. Returns whether it fails.
    fn fails(&mut self) -> bool
        ensures failed { result ≡ self.new.failed }
        ensures stays { IsTrue self.old.failed → IsTrue self.new.failed }
        ensures ended { self.new.ended ≡ self.old.ended }
        ensures history { self.new.history ≡ self.old.history }
        ensures begun { self.new.begun ≡ self.old.begun }
    {
        if self.calls == self.cutting.fails_at {
            self.failed = true;
        }
        self.calls = self.calls.wrapping_add(1);
        self.failed
    }
}

impl Transport for MemoryLine<'_> {
    ghost use Rattle.std.specs.Prelude.{false};
    ghost use Rattle.mc_history.specs.Places.{place_in};
    ghost use Rattle.mc_transport.specs.Place.{place_by};
    ghost use Rattle.mc_wire.specs.Sink.{Unlisted, sight_out};

    type Warrant = Evidence;

    ghost sight = { λ line.
        record {
          given = Unlisted;
          ended = line.ended;
          reads = None;
          taken = Unlisted;
          failed = line.failed;
        } };

    ghost place = { λ line.
        place_by place_in line.history.value.name line.begun.value (sight_out Unlisted false) };

    fn begin(&mut self, seen: Evidence) {
        let begun = Some(seen);
        self.begun = Snapshot::of(&begun);
    }

    fn read(&mut self, room: &mut [u8]) -> Result<usize, TransportError> {
        if self.fails() {
            self.failed_reading = true;
            return Err(TransportError);
        }
        let rest = self.input;
        let rest = rest.split_at(self.given.min(rest.len())).1;
        let count = rest.len().min(self.cutting.piece).min(room.len());
        let (now, _) = rest.split_at(count);
        room.split_at_mut(count).0.copy_from_slice(now);
        self.given = self.given.saturating_add(count);
        self.ended = count == 0;
        Ok(count)
    }

    fn write_if_ready(&mut self, bytes: &[u8], _seen: &Evidence) -> Result<usize, SinkError> {
        if self.fails() {
            return Err(SinkError);
        }
        let count = bytes.len().min(self.cutting.portion.max(1));
        let (front, _) = bytes.split_at(count);
        if self.output.extend_from_slice(front).is_err() {
            self.failed = true;
            return Err(SinkError);
        }
        Ok(count)
    }
}
