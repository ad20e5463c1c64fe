//! Connections over streams, such as TCP and Unix sockets.
ghost use Rattle.std.specs.Prelude.{◌≡◌, ◌<◌, ◌≤◌, ◌==◌, ◌+◌, ◌-◌, ◌^◌, false, true, IfNone, IfOk, IfSome, OnErr, length, min, take};
ghost use Rattle.std.specs.Io.KnownBytes.{Consumes, Keeps};
ghost use Rattle.std.specs.Io.Slices.{io_slices_bytes};
ghost use Rattle.mc_wire.specs.Sink.{ReadsIntoRoom, asked, broke, took};
ghost use Rattle.mc_transport.specs.Lines.{ReadsIfReady};
ghost use Rattle.mc_transport.specs.Place.{unbegun};
ghost use Rattle.mc_net.specs.Beginning.{place_of};
ghost use Rattle.mc_net.specs.Foreign.{EndsWhere};
ghost use Rattle.mc_net.specs.Tcp.{ReadsStream, TellsWrite, WritesStream, new_line, sight_of};

use crate::beginning::Beginning;
use crate::stream::Stream;
use crate::tap::Tap;
use crate::trail::Trail;
use mc_poll::GhostLog;
use mc_telemetry::{Manner, Meter};
use mc_transport::{Ready, Taking, Transport, TransportError, Warrant};
use mc_wire::SinkError;
use std::io::{ErrorKind, IoSlice};
use std::{io, thread};

/// The reply to a line beyond the line limit, after which the connection is closed.
const TOO_LONG: &[u8] = b"CLIENT_ERROR line too long\r\n";

/// A connection over a stream. Its history of all bytes read and written is visible to contracts
/// alone.
pub struct TcpConnection<S: Stream, T = ()> {
    pub(crate) tap: Tap<S>,
    /// Whether a poll reports events of the stream. If so, it is only used after an event.
    is_polled: bool,
    /// The stream may be readable.
    may_read: bool,
    /// The stream may be writable.
    may_write: bool,
    /// Input has ended, failed or is urgent, so a short read doesn't mean that nothing is left.
    is_closing: bool,
    /// Nothing was read yet, and first bytes of another protocol end the connection.
    sniff_protocol: bool,
    /// No command is parsed any more, though the input has not ended.
    is_over: bool,
    failed: bool,
    /// The last read returned the end of input.
    ended: bool,
    /// The bytes read and written before each read.
    reads: GhostLog<Trail, Trail>,
    /// The connection's meter.
    meter: Meter,
    /// Which connection it is.
    begun: Beginning<T>,
}

impl<S: Stream + Drop, T: Drop> Drop for TcpConnection<S, T> {
    /// Written by hand, so that its owners drop it by a single call (docs/DECISIONS.md, F20).
    fn drop(self) {
        let TcpConnection {
            tap: _tap,
            is_polled: _is_polled,
            may_read: _may_read,
            may_write: _may_write,
            is_closing: _is_closing,
            sniff_protocol: _sniff_protocol,
            is_over: _is_over,
            failed: _failed,
            ended: _ended,
            reads: _reads,
            meter: _meter,
            begun: _begun,
        } = self;
    }
}

impl<S: Stream, T: Warrant + Drop> TcpConnection<S, T> {
    /// A connection of this token's history; nothing was read or written yet. Each call tries the
    /// stream. Other protocols are not detected.
    pub fn new(stream: S, history: &T) -> TcpConnection<S, T>
        ensures stream { result.tap.stream ≡ stream }
        ensures new { sight_of result ≡ new_line (S.remaining stream) (S.contents stream) }
        ensures serves { result.sniff_protocol ≡ false }
        ensures place { place_of T.place_at T.name result.begun ≡ unbegun (T.name history.now) }
    {
        TcpConnection {
            tap: Tap::new(stream),
            is_polled: false,
            may_read: true,
            may_write: true,
            is_closing: false,
            sniff_protocol: false,
            is_over: false,
            failed: false,
            ended: false,
            reads: GhostLog::new(),
            meter: Meter::unwatched(),
            begun: Beginning::none(history),
        }
    }

    /// Such a connection with a meter; it fails once the meter reports it idle. With `is_polled`, a
    /// poll reports its events, and it is only read after one. With `sniff_protocol`, first bytes
    /// of another protocol end it and are left unread.
    pub fn begin(
        stream: S,
        meter: Meter,
        is_polled: bool,
        sniff_protocol: bool,
        history: &T,
    ) -> TcpConnection<S, T>
        ensures stream { result.tap.stream ≡ stream }
        ensures new { sight_of result ≡ new_line (S.remaining stream) (S.contents stream) }
        ensures sniff_protocol { result.sniff_protocol ≡ sniff_protocol }
        ensures place { place_of T.place_at T.name result.begun ≡ unbegun (T.name history.now) }
    {
        let mut line = TcpConnection::new(stream, history);
        line.is_polled = is_polled;
        line.may_read = !is_polled;
        line.sniff_protocol = sniff_protocol;
        line.meter = meter;
        line
    }

    /// The connection's meter.
    pub(crate) fn meter(&self) -> &Meter {
        &self.meter
    }

    /// Shuts down the output. Nothing is read or written; the connection may still be served later.
    pub(crate) fn end_output(&mut self)
        ensures sight { sight_of self.new ≡ sight_of self.old }
        ensures begun { self.new.begun ≡ self.old.begun }
    {
        self.tap.end_output();
    }

    /// Marks the connection as failed for this reason.
    fn fail(&mut self, manner: Manner)
        ensures sight { sight_of self.new ≡ broke (sight_of self.old) }
        ensures tap { self.new.tap ≡ self.old.tap }
        ensures begun { self.new.begun ≡ self.old.begun }
    {
        self.failed = true;
        self.meter.note_end(manner);
    }

    /// Whether the connection ends now without an error: it exceeded the idle timeout, or the
    /// server cuts connections off.
    fn lapses(&mut self, may_move: bool) -> bool
        ensures sight { sight_of self.new ≡ sight_of self.old }
        ensures tap { self.new.tap ≡ self.old.tap }
        ensures sniff_protocol { self.new.sniff_protocol ≡ self.old.sniff_protocol }
        ensures begun { self.new.begun ≡ self.old.begun }
    {
        if self.meter.is_cut() {
            self.meter.note_end(Manner::Shutdown);
            return true;
        }
        if !may_move && self.meter.is_idle() {
            self.meter.note_end(Manner::Idle);
            return true;
        }
        false
    }

    /// Notes the output after the last command: whether it is the reply to a line beyond the line
    /// limit. The reason of an end is known from it (docs/DECISIONS.md, W5).
    fn note_last(&mut self, bytes: &[u8])
        ensures sight { sight_of self.new ≡ sight_of self.old }
        ensures tap { self.new.tap ≡ self.old.tap }
        ensures sniff_protocol { self.new.sniff_protocol ≡ self.old.sniff_protocol }
        ensures begun { self.new.begun ≡ self.old.begun }
    {
        if bytes.ends_with(TOO_LONG) {
            self.meter.note_end(Manner::LineTooLong);
        }
    }

    /// Requests the server's shutdown, which is the reason of the connection's end.
    #[cold]
    #[inline(never)]
    fn request_shutdown(&mut self)
        ensures sight { sight_of self.new ≡ sight_of self.old }
        ensures tap { self.new.tap ≡ self.old.tap }
        ensures sniff_protocol { self.new.sniff_protocol ≡ self.old.sniff_protocol }
        ensures begun { self.new.begun ≡ self.old.begun }
    {
        self.meter.note_end(Manner::ShutdownRequested);
        self.meter.request_shutdown();
    }

    /// Records that a read is tried.
    fn ask(&mut self)
        ensures sight { sight_of self.new ≡ asked (sight_of self.old) }
        ensures stream { self.new.tap.stream ≡ self.old.tap.stream }
        ensures same { self.new.sniff_protocol ≡ self.old.sniff_protocol }
        ensures begun { self.new.begun ≡ self.old.begun }
    {
        self.reads = self.reads.and(&self.tap.given, &self.tap.taken);
    }

    /// Records that a read into a buffer of `room` bytes returned `count` bytes. At 0 the input has
    /// ended for this reason.
    fn give(&mut self, count: usize, room: usize, manner: Manner)
        ensures given { self.new.ended ≡ (count == 0) }
        ensures tap { self.new.tap ≡ self.old.tap }
        ensures reads { self.new.reads ≡ self.old.reads }
        ensures failed { self.new.failed ≡ self.old.failed }
        ensures serves { self.new.sniff_protocol ≡ false }
        ensures measured { self.new.meter.read ≡ min (self.old.meter.read + count) (2 ^ 64 - 1) }
        ensures begun { self.new.begun ≡ self.old.begun }
    {
        self.sniff_protocol = false;
        self.ended = count == 0;
        self.meter.note_read(count);
        if self.ended {
            self.meter.note_end(manner);
        }
        // A short read leaves nothing behind, unless the end or urgent bytes follow. See
        // docs/DECISIONS.md, N4.
        self.may_read = !self.is_polled || self.is_closing || self.ended || count == room;
    }

    /// The result of a write: the number of bytes written, 0 if it would block. If the stream
    /// otherwise accepts nothing, the connection has failed.
    fn after_write(&mut self, done: io::Result<usize>) -> Result<usize, SinkError>
        ensures flow { TellsWrite done result }
        ensures ok { IfOk result (λ _. sight_of self.new ≡ sight_of self.old) }
        ensures err { OnErr result (sight_of self.new ≡ broke (sight_of self.old)) }
        ensures tap { self.new.tap ≡ self.old.tap }
        ensures begun { self.new.begun ≡ self.old.begun }
    {
        match done {
            Ok(count) if count > 0 => {
                self.meter.note_written(count);
                Ok(count)
            }
            Err(fault) if fault.kind() == ErrorKind::WouldBlock => {
                self.may_write = !self.is_polled;
                Ok(0)
            }
            _ => {
                self.fail(Manner::WriteFailed);
                Err(SinkError)
            }
        }
    }
}

impl<S: Stream + Drop, T: Drop> TcpConnection<S, T> {
    /// The stream, if it is still usable: its input has not ended, and it has neither failed nor
    /// been given up, except by the server's shutdown.
    pub(crate) fn into_open(self, given_up: bool) -> Option<S>
        ensures { IfSome result (λ stream. stream ≡ self.tap.stream) }
    {
        let TcpConnection {
            tap,
            failed,
            ended,
            meter,
            is_polled: _is_polled,
            may_read: _may_read,
            may_write: _may_write,
            is_closing: _is_closing,
            sniff_protocol: _sniff_protocol,
            is_over: _is_over,
            reads: _reads,
            begun: _begun,
        } = self;
        let has_failed = (failed || given_up) && !matches!(meter.manner(), Manner::Shutdown);
        if has_failed || ended {
            return None;
        }
        Some(tap.into_stream())
    }
}

/// The bytes of the last nonempty buffer.
fn last_filled<'a>(bufs: &[IoSlice<'a>]) -> &'a [u8] {
    for buf in bufs.iter().rev() {
        let bytes = buf.as_slice();
        if !bytes.is_empty() {
            return bytes;
        }
    }
    &[]
}

/// The reason of an end by a failed read: `WouldBlock` means that the server shuts down.
fn failed_read(fault: &io::Error) -> Manner {
    match fault.kind() {
        ErrorKind::WouldBlock => Manner::Shutdown,
        _ => Manner::ReadFailed,
    }
}

/// Whether all buffers are empty.
fn are_empty(bufs: &[IoSlice<'_>]) -> bool {
    bufs.iter().all(|buf| buf.as_slice().is_empty())
}

impl<S: Stream, T: Warrant + Drop> Transport for TcpConnection<S, T> {
    type Warrant = T;

    ghost sight = { sight_of };

    ghost place = { λ line. place_of T.place_at T.name line.begun };

    fn begin(&mut self, seen: T) {
        let tap = &self.tap;
        let begun = Beginning::new(seen, &tap.given, &tap.taken);
        self.begun = begun;
    }

    fn read(&mut self, room: &mut [u8]) -> Result<usize, TransportError>
        ensures within { IfOk result (λ count. count ≤ length room.old) }
        ensures read { ReadsIntoRoom room.new result (sight_of self.old) (sight_of self.new) }
        // Exactly the bytes reported were read from the stream.
        ensures stream { IfOk result (λ count.
            Consumes (S.remaining self.old.tap.stream) (S.remaining self.new.tap.stream)
            (take count room.new)) }
        ensures fault { OnErr result
            (Keeps (S.remaining self.old.tap.stream) (S.remaining self.new.tap.stream)) }
        ensures place { place_of T.place_at T.name self.new.begun ≡
            place_of T.place_at T.name self.old.begun }
    {
        for _ in 0..u64::MAX {
            if let Some(count) = self.read_if_ready(room)? {
                return Ok(count);
            }
            self.may_read = true;
            thread::yield_now();
        }
        self.ask();
        self.failed = true;
        Err(TransportError)
    }

    fn read_if_ready(&mut self, room: &mut [u8]) -> Result<Option<usize>, TransportError>
        ensures within { IfOk result (λ given. IfSome given (λ count. count ≤ length room.old)) }
        ensures read { ReadsIfReady room.new result (sight_of self.old) (sight_of self.new) }
        // Exactly the bytes reported were read from the stream.
        ensures stream { ReadsStream room.new result (S.remaining self.old.tap.stream)
            (S.remaining self.new.tap.stream) }
        // The result is the end of input exactly if nothing is left, or if first bytes of another
        // protocol are detected. Detection is over after a read.
        ensures end { 0 < length room.old →
            IfOk result
            (λ given. IfSome given (EndsWhere self.old.sniff_protocol
            (S.remaining self.old.tap.stream))) }
        ensures serves { IfOk result
            (λ given. IfSome given (λ _. self.new.sniff_protocol ≡ false)) }
        ensures waits { IfOk result
            (λ given. IfNone given (self.new.sniff_protocol ≡ self.old.sniff_protocol)) }
        ensures place { place_of T.place_at T.name self.new.begun ≡
            place_of T.place_at T.name self.old.begun }
    {
        let may_read = self.may_read;
        if self.failed || self.lapses(may_read) {
            self.ask();
            self.failed = true;
            return Err(TransportError);
        }
        let drains = self.meter.is_draining();
        if !self.may_read && !drains {
            return Ok(None);
        }
        // The bytes read and written before this read, if it is one.
        let reads = self.reads.and(&self.tap.given, &self.tap.taken);
        let mut manner = Manner::ByClient;
        match self.tap.read(room, self.sniff_protocol, &mut manner) {
            Ok(count) => {
                self.reads = reads;
                self.give(count, room.len(), manner);
                Ok(Some(count))
            }
            Err(fault) if fault.kind() == ErrorKind::WouldBlock && !drains => {
                self.may_read = !self.is_polled;
                Ok(None)
            }
            Err(fault) => {
                self.reads = reads;
                self.fail(failed_read(&fault));
                Err(TransportError)
            }
        }
    }

    fn write_if_ready(&mut self, bytes: &[u8], _seen: &T) -> Result<usize, SinkError>
        ensures within { IfOk result (λ count. count ≤ length bytes.now) }
        ensures ok { IfOk result
            (λ count. sight_of self.new ≡ took (take count bytes.now) (sight_of self.old)) }
        ensures err { OnErr result (sight_of self.new ≡ broke (sight_of self.old)) }
        // Exactly the bytes reported were written to the stream.
        ensures stream { WritesStream bytes.now result (S.contents self.old.tap.stream)
            (S.contents self.new.tap.stream) }
        ensures place { place_of T.place_at T.name self.new.begun ≡
            place_of T.place_at T.name self.old.begun }
    {
        let may_write = self.may_write;
        if self.failed || self.lapses(may_write) {
            self.failed = true;
            return Err(SinkError);
        }
        if bytes.is_empty() || !self.may_write {
            return Ok(0);
        }
        if self.is_over {
            self.note_last(bytes);
        }
        let done = self.tap.write(bytes);
        self.after_write(done)
    }

    fn write_vectored_if_ready(
        &mut self,
        bufs: &[IoSlice<'_>],
        _seen: &T,
    ) -> Result<usize, SinkError>
        ensures within { IfOk result (λ count. count ≤ length (io_slices_bytes bufs.now)) }
        ensures ok { IfOk result (λ count.
            sight_of self.new ≡ took (take count (io_slices_bytes bufs.now)) (sight_of self.old)) }
        ensures err { OnErr result (sight_of self.new ≡ broke (sight_of self.old)) }
        // Exactly the bytes reported were written to the stream.
        ensures stream { WritesStream (io_slices_bytes bufs.now) result
            (S.contents self.old.tap.stream) (S.contents self.new.tap.stream) }
        ensures place { place_of T.place_at T.name self.new.begun ≡
            place_of T.place_at T.name self.old.begun }
    {
        let may_write = self.may_write;
        if self.failed || self.lapses(may_write) {
            self.failed = true;
            return Err(SinkError);
        }
        if are_empty(bufs) || !self.may_write {
            return Ok(0);
        }
        if self.is_over {
            self.note_last(last_filled(bufs));
        }
        let done = self.tap.write_vectored(bufs);
        self.after_write(done)
    }

    fn note_taken(&mut self, commands: u64, taking: Taking) {
        self.meter.note_commands(commands);
        self.is_over = matches!(taking, Taking::Over) && !self.ended;
        if matches!(taking, Taking::Shutdown) {
            self.request_shutdown();
        }
    }

    fn rouse(&mut self, ready: Ready) {
        self.may_read = true;
        self.may_write = true;
        if ready == Ready::Closing {
            self.is_closing = true;
        }
    }
}
