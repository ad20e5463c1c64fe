//! A line in memory that records which connection of a history it is.
ghost use Rattle.std.specs.Prelude.{◌≡◌};
ghost use Rattle.mc_transport.specs.Place.{unbegun};

use mc_history::Evidence;
use mc_transport::{Ready, Taking, Transport, TransportError};
use mc_wire::SinkError;
use std::io::IoSlice;
use std::snapshot::Snapshot;

/// A line of a history, over a line that accepts any writes. A write needs evidence of the history.
/// Contracts alone see which connection it is.
#[derive(Drop)]
pub struct PlacedLine<L> {
    pub line: L,
    /// Evidence of its history.
    history: Snapshot<Evidence>,
    /// The evidence with which it began; `None` before that.
    seen: Snapshot<Option<Evidence>>,
    /// The line in the state in which it began.
    begin: Snapshot<L>,
}

impl<L: Transport<Warrant = ()> + Drop> PlacedLine<L> {
    ghost use Rattle.mc_transport.specs.Place.{bytes_seen, place_by};
    ghost use Rattle.mc_history.specs.Places.{place_in};

    /// A line of this token's history that has not begun.
    pub fn new(line: L, history: &Evidence) -> PlacedLine<L>
        ensures line { result.line ≡ line }
        ensures new { place_by place_in result.history.value.name result.seen.value
            (bytes_seen (L.sight result.begin.value)) ≡ unbegun history.now.name }
    {
        let seen: Option<Evidence> = None;
        let begin = Snapshot::of(&line);
        PlacedLine {
            line,
            history: Snapshot::of(history),
            seen: Snapshot::of(&seen),
            begin,
        }
    }

    /// Returns the inner line.
    pub fn into_line(self) -> L
        ensures { result ≡ self.line }
    {
        let PlacedLine { line, .. } = self;
        line
    }
}

impl<L: Transport<Warrant = ()> + Drop> Transport for PlacedLine<L> {
    ghost use Rattle.mc_transport.specs.Place.{bytes_seen, place_by};
    ghost use Rattle.mc_history.specs.Places.{place_in};

    type Warrant = Evidence;

    ghost sight = { λ placed. L.sight placed.line };

    ghost place = { λ placed. place_by place_in placed.history.value.name placed.seen.value
        (bytes_seen (L.sight placed.begin.value)) };

    fn begin(&mut self, seen: Evidence) {
        let seen = Some(seen);
        self.seen = Snapshot::of(&seen);
        self.begin = Snapshot::of(&self.line);
    }

    fn read(&mut self, room: &mut [u8]) -> Result<usize, TransportError> {
        self.line.read(room)
    }

    fn read_if_ready(&mut self, room: &mut [u8]) -> Result<Option<usize>, TransportError> {
        self.line.read_if_ready(room)
    }

    fn write_if_ready(&mut self, bytes: &[u8], _seen: &Evidence) -> Result<usize, SinkError> {
        self.line.write_if_ready(bytes, &())
    }

    fn write_vectored_if_ready(
        &mut self,
        bufs: &[IoSlice<'_>],
        _seen: &Evidence,
    ) -> Result<usize, SinkError> {
        self.line.write_vectored_if_ready(bufs, &())
    }

    fn note_taken(&mut self, commands: u64, taking: Taking) {
        self.line.note_taken(commands, taking);
    }

    fn rouse(&mut self, ready: Ready) {
        self.line.rouse(ready);
    }
}
