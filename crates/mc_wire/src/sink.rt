//! Sinks for replies, and writing whole texts to them.
ghost use Rattle.std.specs.Prelude.{◌≡◌, ◌<◌, ◌≤◌, OnErr, IfOk, length, take};
ghost use Rattle.std.specs.List.{flat_map};
ghost use Rattle.mc_wire.specs.Sink.{Sight, Writes, broke, took};

use crate::error::SinkError;
use bytes::Bytes;

/// A sink for replies: a socket, a stream or memory.
pub trait Sink {
    /// The history for contracts: bytes read from the line, bytes accepted by writes, and whether
    /// it has failed.
    ghost sight: { Self → Sight };

    /// Writes a nonempty prefix of `bytes` (nothing if `bytes` is empty) and returns its length. On
    /// an error nothing is written, and the sink has failed permanently.
    fn write(&mut self, bytes: &[u8]) -> Result<usize, SinkError>
        ensures within { IfOk result (λ count. count ≤ length bytes.now) }
        ensures some { IfOk result (λ count. 0 < length bytes.now → 0 < count) }
        ensures ok { IfOk result
            (λ count. sight self.new ≡ took (take count bytes.now) (sight self.old)) }
        ensures err { OnErr result (sight self.new ≡ broke (sight self.old)) };

    /// Writes all bytes of a shared block, like `write_all`. A sink that keeps its bytes may keep
    /// a reference to the block instead of a copy.
    fn put_shared(&mut self, block: &Bytes) -> Result<(), SinkError>
        ensures { Writes block.now result (sight self.old) (sight self.new) }
    {
        let mut left = block.as_slice();
        while !left.is_empty() {
            let count = self.write(left)?;
            left = left.split_at(count).1;
        }
        Ok(())
    }

    /// Whether `put_shared` keeps references to shared blocks instead of copying them.
    fn shares(&self) -> bool {
        false
    }
}

/// Writes all bytes, with as many calls of `write` as needed. On an error, a prefix was written.
/// Allocates nothing.
pub fn write_all<O: Sink>(out: &mut O, bytes: &[u8]) -> Result<(), SinkError>
    ensures { Writes bytes.now result (O.sight out.old) (O.sight out.new) }
{
    let mut rest = bytes;
    while !rest.is_empty() {
        let count = out.write(rest)?;
        rest = rest.split_at(count).1;
    }
    Ok(())
}

/// Writes the parts one after another. On an error, a prefix of the whole text was written.
/// Allocates nothing.
pub fn put_parts<O: Sink>(out: &mut O, parts: &[&[u8]]) -> Result<(), SinkError>
    ensures { Writes (flat_map (λ part. part.now) parts.now) result (O.sight out.old)
        (O.sight out.new) }
{
    for part in parts {
        write_all(out, part)?;
    }
    Ok(())
}
