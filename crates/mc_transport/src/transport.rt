//! The source of commands, which takes the replies, and the clock.
ghost use Rattle.std.specs.Prelude.{◌≡◌, ◌<◌, ◌≤◌, ℕ, IfOk, IfSome, OnErr, length, take};
ghost use Rattle.std.specs.Io.{StartsWith};
ghost use Rattle.std.specs.Io.Slices.{io_slices_bytes};
ghost use Rattle.mc_wire.specs.Sink.{ReadsIntoRoom, broke, took};
ghost use Rattle.mc_transport.specs.Lines.{ReadsIfReady};
ghost use Rattle.mc_transport.specs.Place.{bytes_seen, unbegun};

use crate::warrant::Warrant;
use mc_conn::StatsSource;
use mc_wire::SinkError;
use std::io::IoSlice;
use thiserror::Error;

/// A line has failed: no more bytes are read of it.
#[derive(Clone, Copy, Debug, Error)]
#[error("the line has failed: it gives no more bytes")]
pub struct TransportError;

/// What became possible on a line that had no bytes, or took none.
#[derive(Clone, Copy)]
pub enum Ready {
    /// It may give bytes, or take some.
    Open,
    /// It may give bytes, or take some. Its input is at its end, or it has failed: from now on
    /// there is always something to read.
    Closing,
}

/// Whether more commands of a line are taken.
#[derive(Clone, Copy, Debug, PartialEq, Eq)]
pub enum Taking {
    /// They are.
    Continues,
    /// None is taken any more.
    Over,
    /// None is taken any more, and the last one asks for the server's end.
    Shutdown,
}

/// The bytes of the first buffer that isn't empty.
fn first_filled<'a>(bufs: &[IoSlice<'a>]) -> &'a [u8]
    ensures { StartsWith (io_slices_bytes bufs.now) result.now }
{
    for buf in bufs {
        let bytes = buf.as_slice();
        if !bytes.is_empty() {
            return bytes;
        }
    }
    &[]
}

/// A line of bytes in both directions, over memory, a stream or a socket. Each write requires that
/// its warrant allows the bytes. No other method writes.
pub trait Transport {
    ghost use Rattle.mc_wire.specs.Sink.{Sight};
    ghost use Rattle.mc_transport.specs.Place.{Place};

    /// What allows bytes to be written to it.
    type Warrant: Warrant;

    // What is seen of it: what it gave and took, if it lists its bytes.
    ghost sight: { Self → Sight };

    // Of which history it is and, once it has begun, which connection there.
    ghost place: { Self → Place };

    /// Notes that it begins to be served, as the connection that was opened last in its history. It
    /// begins once.
    fn begin(&mut self, seen: Self::Warrant)
        requires { Self.place self.old ≡ unbegun (Self.Warrant.name seen) }
        ensures place { Self.place self.new ≡
            Self.Warrant.place_at seen (bytes_seen (Self.sight self.old)) }
        ensures sight { Self.sight self.new ≡ Self.sight self.old };

    /// Reads some bytes into the front of the room, and returns how many: none only at the end of
    /// the input. At a fault it reads none, and has failed.
    fn read(&mut self, room: &mut [u8]) -> Result<usize, TransportError>
        requires { 0 < length room.old }
        ensures within { IfOk result (λ count. count ≤ length room.old) }
        ensures read { ReadsIntoRoom room.new result (Self.sight self.old) (Self.sight self.new) }
        ensures place { Self.place self.new ≡ Self.place self.old };

    /// Reads as `read` does, of a line that may have nothing to give yet: then it returns `None`,
    /// and is as it was. By default a line waits until there is something.
    fn read_if_ready(&mut self, room: &mut [u8]) -> Result<Option<usize>, TransportError>
        requires { 0 < length room.old }
        ensures within { IfOk result (λ given. IfSome given (λ count. count ≤ length room.old)) }
        ensures read { ReadsIfReady room.new result (Self.sight self.old) (Self.sight self.new) }
        ensures place { Self.place self.new ≡ Self.place self.old }
    {
        let count = self.read(room)?;
        Ok(Some(count))
    }

    /// Takes a beginning of the bytes, and returns how many bytes it took: none where it takes
    /// nothing now. At a fault it takes none, and has failed. The bytes may be written, by what the
    /// warrant shows.
    fn write_if_ready(&mut self, bytes: &[u8], seen: &Self::Warrant) -> Result<usize, SinkError>
        requires may { Self.Warrant.may_write (Self.place self.old) (Self.sight self.old) bytes.now
            seen.now }
        ensures within { IfOk result (λ count. count ≤ length bytes.now) }
        ensures ok { IfOk result
            (λ count. Self.sight self.new ≡ took (take count bytes.now) (Self.sight self.old)) }
        ensures err { OnErr result (Self.sight self.new ≡ broke (Self.sight self.old)) }
        ensures place { Self.place self.new ≡ Self.place self.old };

    /// Takes a beginning of the bytes of all the buffers, one after another, as `write_if_ready`
    /// does. By default a line is offered the first of them that isn't empty.
    fn write_vectored_if_ready(
        &mut self,
        bufs: &[IoSlice<'_>],
        seen: &Self::Warrant,
    ) -> Result<usize, SinkError>
        requires may { Self.Warrant.may_write (Self.place self.old) (Self.sight self.old)
            (io_slices_bytes bufs.now) seen.now }
        ensures within { IfOk result (λ count. count ≤ length (io_slices_bytes bufs.now)) }
        ensures ok { IfOk result (λ count.
            Self.sight self.new ≡
            took (take count (io_slices_bytes bufs.now)) (Self.sight self.old)) }
        ensures err { OnErr result (Self.sight self.new ≡ broke (Self.sight self.old)) }
        ensures place { Self.place self.new ≡ Self.place self.old }
    {
        self.write_if_ready(first_filled(bufs), seen)
    }

    /// Notes how many of its commands were taken so far, and whether more are. Nothing that is seen
    /// of it changes.
    fn note_taken(&mut self, _commands: u64, _taking: Taking)
        ensures sight { Self.sight self.new ≡ Self.sight self.old }
        ensures place { Self.place self.new ≡ Self.place self.old }
    {}

    /// Notifies the line that it may give bytes or take some again. Nothing that is seen of it
    /// changes.
    fn rouse(&mut self, _ready: Ready)
        ensures sight { Self.sight self.new ≡ Self.sight self.old }
        ensures place { Self.place self.new ≡ Self.place self.old }
    {}
}

/// Returns the time in seconds since 1970, and reports to `stats` what it shows of the server
/// then.
pub trait Clock: StatsSource {
    /// The moments that it may answer.
    ghost may_answer: { Self → ℕ → Type 0 };

    /// The moment at which it is asked.
    fn now(&self) -> u64
        ensures { may_answer self.now result };
}
