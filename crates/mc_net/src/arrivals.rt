//! Sources of a slot's streams, and the source of sockets.
ghost use Rattle.std.specs.Prelude.{◌≡◌, None};
ghost use Rattle.mc_net.specs.Arrivals.{StreamArrives};

use crate::acceptor::{Handoff, NewConnection};
use crate::connection_source::Accept;
use crate::socket::Socket;
use crate::stream::Stream;
use mc_telemetry::Meter;

/// A new stream and its meter.
#[derive(Drop)]
pub struct NewStream<S> {
    pub stream: S,
    pub meter: Meter,
    /// Whether a poll reports when it is ready. Otherwise it is tried in each step.
    pub is_polled: bool,
}

/// The source of one slot's streams, one at a time. See docs/DECISIONS.md, N14.
pub trait Arrivals {
    ghost use Rattle.std.specs.Prelude.{List, Option};

    /// The type of the streams.
    type Stream: Stream + Drop;

    /// The streams to come, in order, if they are known.
    ghost coming: { Self → Option (List Self.Stream) };

    /// Returns the next stream, if there is one. Never blocks.
    fn next(&mut self) -> Accept<NewStream<Self::Stream>>
        ensures { StreamArrives result (coming self.old) (coming self.new) };

    /// Records the end of the last stream's connection: the number of commands, and whether it
    /// failed.
    fn close(&mut self, meter: &Meter, commands: u64, broke: bool)
        ensures { coming self.new ≡ coming self.old };

    /// Requests another step of the slot: at once, or after a pause.
    fn call_again(&self, at_once: bool);

    /// Whether no further connection could be accepted because of a fault, though more may come.
    fn has_failed(&self) -> bool;
}

/// The accepting thread hands each connection to a free slot. Contracts don't know which
/// connections come.
impl Arrivals for Handoff {
    type Stream = Socket;

    ghost coming = { λ _. None };

    fn next(&mut self) -> Accept<NewStream<Socket>> {
        // Read first: a connection that was handed over before the end is then found below.
        let is_last = self.handle.is_over();
        if let Some(new) = self.take() {
            return Accept::Came(new);
        }
        if is_last {
            return Accept::Over;
        }
        self.report_free();
        Accept::NotYet
    }

    fn close(&mut self, meter: &Meter, commands: u64, broke: bool) {
        self.telemetry.close(meter, commands, broke);
    }

    fn call_again(&self, at_once: bool) {
        if at_once {
            self.seats.rouse(self.seat);
        } else {
            self.seats.remind(self.seat);
        }
    }

    fn has_failed(&self) -> bool {
        self.handle.has_failed()
    }
}

impl Handoff {
    /// Takes the connection that was handed to the slot, if there is one.
    fn take(&mut self) -> Option<NewStream<Socket>> {
        let NewConnection { mut stream, peer } = self.come.pop().ok()?;
        self.reported_free = false;
        if stream.register(&self.seats, self.seat).is_err() {
            // It could never be read from, so it is closed at once.
            self.telemetry.turn_away();
            return None;
        }
        let meter = self.telemetry.open(peer);
        Some(NewStream {
            stream,
            meter,
            is_polled: true,
        })
    }

    /// Reports the slot as free to the accepting thread, once.
    fn report_free(&mut self) {
        if !self.reported_free {
            self.reported_free = true;
            self.handle.report_free(self.seat);
        }
    }
}
