//! An output stream as a sink.
ghost use Rattle.std.specs.Prelude.{◌≡◌, ◌<◌, ◌≤◌, true, false, IfOk, OnErr, OnOk, length, take};
ghost use Rattle.std.specs.Io.KnownBytes.{Appends};
ghost use Rattle.mc_wire.specs.Sink.{Unlisted, sight_out};

use mc_wire::{Sink, SinkError};
use std::io::Write;

/// An output stream that takes nothing more once it has failed. Contracts know nothing of its
/// bytes.
#[derive(Drop)]
pub struct Output<W> {
    pub(crate) stream: W,
    pub(crate) failed: bool,
}

impl<W> Output<W> {
    /// The stream, which has not failed.
    pub fn new(stream: W) -> Output<W>
        ensures { result.failed ≡ false }
    {
        Output {
            stream,
            failed: false,
        }
    }
}

impl<W: Write> Sink for Output<W> {
    ghost sight = { λ output. sight_out Unlisted output.failed };

    fn write(&mut self, bytes: &[u8]) -> Result<usize, SinkError>
        ensures within { IfOk result (λ count. count ≤ length bytes.now) }
        ensures some { IfOk result (λ count. 0 < length bytes.now → 0 < count) }
        ensures ok { OnOk result (self.new.failed ≡ self.old.failed) }
        ensures err { OnErr result (self.new.failed ≡ true) }
        // Exactly the bytes that the call reports as written.
        ensures written { IfOk result (λ count.
            Appends (W.contents self.old.stream) (W.contents self.new.stream)
            (take count bytes.now)) }
    {
        if self.failed {
            return Err(SinkError);
        }
        match self.stream.write(bytes) {
            Ok(count) if count > 0 || bytes.is_empty() => Ok(count),
            _ => {
                self.failed = true;
                Err(SinkError)
            }
        }
    }
}
