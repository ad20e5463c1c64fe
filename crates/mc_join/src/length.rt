//! Lengths of replies: they are written to a sink that counts bytes.
ghost use Rattle.std.specs.Prelude.{◌≡◌, ◌-◌, ◌^◌, ◌<◌, IsTrue, false};
ghost use Rattle.mc_wire.specs.Sink.{Counted, sight_out};

use mc_wire::{Sink, SinkError};

/// A sink that counts bytes and stores none. It fails beyond `u64::MAX`.
#[derive(Drop)]
pub(crate) struct ByteCounter {
    pub(crate) count: u64,
    full: bool,
    ghost within: { count < 2 ^ 64 },
    ghost is_full: { IsTrue full → count ≡ 2 ^ 64 - 1 },
}

impl ByteCounter {
    /// A counter at 0.
    pub(crate) fn new() -> ByteCounter
        ensures sight { ⟦<ByteCounter as Sink>⟧.sight result ≡ sight_out (Counted 0) false }
    {
        ByteCounter {
            count: 0,
            full: false,
        }
    }
}

impl Sink for ByteCounter {
    ghost sight = { λ counter. sight_out (Counted counter.count) counter.full };

    fn write(&mut self, bytes: &[u8]) -> Result<usize, SinkError> {
        let room = u64::MAX - self.count;
        if room == 0 && !bytes.is_empty() {
            self.full = true;
            return Err(SinkError);
        }
        let count = room.min(bytes.len() as u64);
        self.count += count;
        Ok(count as usize)
    }
}
