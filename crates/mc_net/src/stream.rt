//! Byte streams in both directions.
ghost use Rattle.std.specs.Prelude.{IfOk};
ghost use Rattle.std.specs.Io.{ReadsAtMost, WritesAtMost};
ghost use Rattle.std.specs.Io.KnownBytes.{Keeps, ReadConsumes, WriteAppends};
ghost use Rattle.std.specs.Io.Slices.{io_slices_bytes};
ghost use Rattle.mc_net.specs.Foreign.{ShowsNext};

use std::io;
use std::io::IoSlice;

/// A bidirectional byte stream, such as a TCP connection. Reading and writing are independent. It
/// can't be copied, so its owner has exclusive access. std's `Read` and `Write` can't state this
/// (docs/DECISIONS.md, N12).
pub trait Stream {
    ghost use Rattle.std.specs.Prelude.{ℕ, List, Option, None};

    /// The bytes that reads will return from here on, if they are known.
    ghost remaining: { Self → Option (List ℕ) } = { λ _. None };

    /// The bytes written so far, if they are known.
    ghost contents: { Self → Option (List ℕ) } = { λ _. None };

    /// Reads bytes to the front of `room` and returns their number: 0 only at the end of input.
    fn read(&mut self, room: &mut [u8]) -> io::Result<usize>
        ensures bound { ReadsAtMost result room.new }
        ensures bytes { ReadConsumes (remaining self.old) (remaining self.new) result room.new }
        ensures writes_none { Keeps (contents self.old) (contents self.new) };

    /// Copies the next bytes to the front of `room` without consuming them, and returns their
    /// number: 0 only at the end of input.
    fn peek(&self, room: &mut [u8]) -> io::Result<usize>
        ensures bound { ReadsAtMost result room.new }
        ensures next { IfOk result (ShowsNext (remaining self.now) room.new) };

    /// Writes a prefix of `bytes` and returns its length.
    fn write(&mut self, bytes: &[u8]) -> io::Result<usize>
        ensures bound { WritesAtMost result bytes.now }
        ensures bytes { WriteAppends (contents self.old) (contents self.new) result bytes.now }
        ensures reads_none { Keeps (remaining self.old) (remaining self.new) };

    /// Writes a prefix of the concatenated buffers and returns its length.
    fn write_vectored(&mut self, bufs: &[IoSlice<'_>]) -> io::Result<usize>
        ensures bound { WritesAtMost result (io_slices_bytes bufs.now) }
        ensures bytes { WriteAppends (contents self.old) (contents self.new) result
            (io_slices_bytes bufs.now) }
        ensures reads_none { Keeps (remaining self.old) (remaining self.new) };

    /// Shuts down the output.
    fn end_output(&mut self) -> io::Result<()>
        ensures writes_none { Keeps (contents self.old) (contents self.new) }
        ensures reads_none { Keeps (remaining self.old) (remaining self.new) };
}

impl<S: Stream> Stream for &mut S {
    ghost remaining = { λ stream. S.remaining stream.now };

    ghost contents = { λ stream. S.contents stream.now };

    fn read(&mut self, room: &mut [u8]) -> io::Result<usize> {
        (**self).read(room)
    }

    fn peek(&self, room: &mut [u8]) -> io::Result<usize> {
        (**self).peek(room)
    }

    fn write(&mut self, bytes: &[u8]) -> io::Result<usize> {
        (**self).write(bytes)
    }

    fn write_vectored(&mut self, bufs: &[IoSlice<'_>]) -> io::Result<usize> {
        (**self).write_vectored(bufs)
    }

    fn end_output(&mut self) -> io::Result<()> {
        (**self).end_output()
    }
}
