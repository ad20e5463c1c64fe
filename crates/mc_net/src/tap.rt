//! A stream with the history of its bytes.
ghost use Rattle.std.specs.Prelude.{◌≡◌, ◌<◌, ◌++◌, [], false, true, IfOk, OnErr, length, take};
ghost use Rattle.std.specs.Io.{ReadsAtMost, WritesAtMost};
ghost use Rattle.std.specs.Io.KnownBytes.{Appends, Consumes, Keeps};
ghost use Rattle.std.specs.Io.Slices.{io_slices_bytes};
ghost use Rattle.mc_net.specs.Foreign.{EndsWhere, ShowsNext};
ghost use Rattle.mc_net.specs.Known.{Appends-prop, Consumes-prop};

use crate::foreign::{FIRST_BYTES, is_foreign, protocol_of};
use crate::stream::Stream;
use crate::trail::Trail;
use mc_telemetry::Manner;
use std::io;
use std::io::{ErrorKind, IoSlice};
use std::snapshot::Snapshot;

/// A stream, and the bytes read from and written to it since it was accepted, which only contracts
/// see. The stream is reachable by these methods alone. See docs/DECISIONS.md, N12.
#[derive(Drop)]
pub(crate) struct Tap<S: Stream> {
    stream: S,
    /// The stream in the state in which it was accepted.
    begin: Snapshot<S>,
    pub(crate) given: Trail,
    pub(crate) taken: Trail,
    ghost gave: { Consumes (S.remaining begin.value) (S.remaining stream) given } by { Consumes-prop (S.remaining begin.value) (S.remaining stream) given },
    ghost took: { Appends (S.contents begin.value) (S.contents stream) taken } by { Appends-prop (S.contents begin.value) (S.contents stream) taken },
}

impl<S: Stream> Tap<S> {
    /// A stream that was just accepted.
    pub(crate) fn new(stream: S) -> Tap<S>
        ensures stream { result.stream ≡ stream }
        ensures begin { result.begin.value ≡ stream }
        ensures given { result.given ≡ [] }
        ensures taken { result.taken ≡ [] }
    {
        Tap {
            begin: Snapshot::of(&stream),
            stream,
            given: Trail::new(),
            taken: Trail::new(),
        }
    }

    /// Reads, and retries if a signal interrupts (EINTR). With `sniff_protocol`, if the first bytes
    /// are another protocol's, it reads nothing and sets `manner` to the reason to end.
    pub(crate) fn read(
        &mut self,
        room: &mut [u8],
        sniffs_protocol: bool,
        manner: &mut Manner,
    ) -> io::Result<usize>
        ensures bound { ReadsAtMost result room.new }
        ensures same { length room.new ≡ length room.old }
        ensures begin { self.new.begin ≡ self.old.begin }
        ensures taken { self.new.taken ≡ self.old.taken }
        ensures given { IfOk result (λ count.
            self.new.given ≡ self.old.given ++ take count room.new) }
        ensures none { OnErr result (self.new.given ≡ self.old.given) }
        ensures end { 0 < length room.old →
            IfOk result (EndsWhere sniffs_protocol (S.remaining self.old.stream)) }
        ensures stream { IfOk result (λ count.
            Consumes (S.remaining self.old.stream) (S.remaining self.new.stream)
            (take count room.new)) }
        ensures fault { OnErr result
            (Keeps (S.remaining self.old.stream) (S.remaining self.new.stream)) }
    {
        let done = if sniffs_protocol {
            read_first(&mut self.stream, room, manner)
        } else {
            read_some(&mut self.stream, room)
        };
        let count = done?;
        self.given.add(room.split_at(count).0);
        Ok(count)
    }

    /// Writes, and retries if a signal interrupts (EINTR).
    pub(crate) fn write(&mut self, bytes: &[u8]) -> io::Result<usize>
        ensures bound { WritesAtMost result bytes.now }
        ensures begin { self.new.begin ≡ self.old.begin }
        ensures given { self.new.given ≡ self.old.given }
        ensures taken { IfOk result (λ count.
            self.new.taken ≡ self.old.taken ++ take count bytes.now) }
        ensures none { OnErr result (self.new.taken ≡ self.old.taken) }
        ensures stream { IfOk result (λ count.
            Appends (S.contents self.old.stream) (S.contents self.new.stream)
            (take count bytes.now)) }
        ensures fault { OnErr result
            (Keeps (S.contents self.old.stream) (S.contents self.new.stream)) }
    {
        let count = write_some(&mut self.stream, bytes)?;
        self.taken.add(bytes.split_at(count).0);
        Ok(count)
    }

    /// Writes several buffers, and retries if a signal interrupts (EINTR).
    pub(crate) fn write_vectored(&mut self, bufs: &[IoSlice<'_>]) -> io::Result<usize>
        ensures bound { WritesAtMost result (io_slices_bytes bufs.now) }
        ensures begin { self.new.begin ≡ self.old.begin }
        ensures given { self.new.given ≡ self.old.given }
        ensures taken { IfOk result (λ count.
            self.new.taken ≡ self.old.taken ++ take count (io_slices_bytes bufs.now)) }
        ensures none { OnErr result (self.new.taken ≡ self.old.taken) }
        ensures stream { IfOk result (λ count.
            Appends (S.contents self.old.stream) (S.contents self.new.stream)
            (take count (io_slices_bytes bufs.now))) }
        ensures fault { OnErr result
            (Keeps (S.contents self.old.stream) (S.contents self.new.stream)) }
    {
        let count = write_some_of(&mut self.stream, bufs)?;
        self.taken.add_first(bufs, count);
        Ok(count)
    }
}

impl<S: Stream> Tap<S> {
    /// Shuts down the output of the stream. If that fails, its client sees no end.
    pub(crate) fn end_output(&mut self)
        ensures begin { self.new.begin ≡ self.old.begin }
        ensures given { self.new.given ≡ self.old.given }
        ensures taken { self.new.taken ≡ self.old.taken }
    {
        let _ = self.stream.end_output();
    }
}

impl<S: Stream + Drop> Tap<S> {
    /// The stream in its current state.
    pub(crate) fn into_stream(self) -> S
        ensures { result ≡ self.stream }
    {
        let Tap {
            stream,
            begin: _begin,
            given: _given,
            taken: _taken,
        } = self;
        stream
    }
}

/// Reads, and retries if a signal interrupts (EINTR).
pub(crate) fn read_some<S: Stream>(stream: &mut S, room: &mut [u8]) -> io::Result<usize>
    ensures bound { ReadsAtMost result room.new }
    ensures same { length room.new ≡ length room.old }
    ensures ok { IfOk result (λ count.
        Consumes (S.remaining stream.old) (S.remaining stream.new) (take count room.new)) }
    ensures err { OnErr result (Keeps (S.remaining stream.old) (S.remaining stream.new)) }
    ensures writes_none { Keeps (S.contents stream.old) (S.contents stream.new) }
    ensures end { 0 < length room.old → IfOk result (EndsWhere false (S.remaining stream.old)) }
{
    for _ in 0..u64::MAX {
        match stream.read(room) {
            Err(fault) if fault.kind() == ErrorKind::Interrupted => {}
            done => return done,
        }
    }
    Err(io::Error::from(ErrorKind::Interrupted))
}

/// Peeks, and retries if a signal interrupts (EINTR).
fn peek_some<S: Stream>(stream: &S, room: &mut [u8]) -> io::Result<usize>
    ensures bound { ReadsAtMost result room.new }
    ensures same { length room.new ≡ length room.old }
    ensures next { IfOk result (ShowsNext (S.remaining stream.now) room.new) }
{
    for _ in 0..u64::MAX {
        match stream.peek(room) {
            Err(fault) if fault.kind() == ErrorKind::Interrupted => {}
            done => return done,
        }
    }
    Err(io::Error::from(ErrorKind::Interrupted))
}

/// Reads the first bytes. If they are another protocol's, it reads nothing and sets `manner` to the
/// reason.
fn read_first<S: Stream>(stream: &mut S, room: &mut [u8], manner: &mut Manner) -> io::Result<usize>
    ensures bound { ReadsAtMost result room.new }
    ensures same { length room.new ≡ length room.old }
    ensures ok { IfOk result (λ count.
        Consumes (S.remaining stream.old) (S.remaining stream.new) (take count room.new)) }
    ensures err { OnErr result (Keeps (S.remaining stream.old) (S.remaining stream.new)) }
    ensures writes_none { Keeps (S.contents stream.old) (S.contents stream.new) }
    ensures end { 0 < length room.old → IfOk result (EndsWhere true (S.remaining stream.old)) }
{
    let mut first = [0; FIRST_BYTES];
    let count = peek_some(stream, &mut first)?;
    let (begin, _) = first.split_at(count);
    if is_foreign(begin) {
        *manner = protocol_of(begin);
        return Ok(0);
    }
    read_some(stream, room)
}

/// Writes, and retries if a signal interrupts (EINTR).
fn write_some<S: Stream>(stream: &mut S, bytes: &[u8]) -> io::Result<usize>
    ensures bound { WritesAtMost result bytes.now }
    ensures ok { IfOk result (λ count.
        Appends (S.contents stream.old) (S.contents stream.new) (take count bytes.now)) }
    ensures err { OnErr result (Keeps (S.contents stream.old) (S.contents stream.new)) }
    ensures reads_none { Keeps (S.remaining stream.old) (S.remaining stream.new) }
{
    for _ in 0..u64::MAX {
        match stream.write(bytes) {
            Err(fault) if fault.kind() == ErrorKind::Interrupted => {}
            done => return done,
        }
    }
    Err(io::Error::from(ErrorKind::Interrupted))
}

/// Writes several buffers, and retries if a signal interrupts (EINTR).
fn write_some_of<S: Stream>(stream: &mut S, bufs: &[IoSlice<'_>]) -> io::Result<usize>
    ensures bound { WritesAtMost result (io_slices_bytes bufs.now) }
    ensures ok { IfOk result (λ count.
        Appends (S.contents stream.old) (S.contents stream.new)
        (take count (io_slices_bytes bufs.now))) }
    ensures err { OnErr result (Keeps (S.contents stream.old) (S.contents stream.new)) }
    ensures reads_none { Keeps (S.remaining stream.old) (S.remaining stream.new) }
{
    for _ in 0..u64::MAX {
        match stream.write_vectored(bufs) {
            Err(fault) if fault.kind() == ErrorKind::Interrupted => {}
            done => return done,
        }
    }
    Err(io::Error::from(ErrorKind::Interrupted))
}
