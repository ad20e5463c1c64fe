//! The sink of a simulated connection's replies: a buffer of at most `limit` bytes.
ghost use Rattle.std.specs.Prelude.{◌≡◌, ◌≤◌, ◌+◌, ◌<◌, ◌^◌, IsTrue, IfOk, IfErr, false, length, vec_capacity};

use mc_wire::{Sink, SinkError};

/// A buffer with reserved capacity. It takes what fits, and fails only if it is full.
#[derive(Drop)]
pub(crate) struct Page {
    pub(crate) bytes: Vec<u8>,
    /// Maximum number of bytes.
    pub(crate) limit: usize,
    pub(crate) failed: bool,
    ghost room: { limit ≤ vec_capacity bytes },
    ghost within: { length bytes.items ≤ limit },
    ghost full: { IsTrue failed → limit ≤ length bytes.items },
}

impl Sink for Page {
    ghost use Rattle.std.specs.Prelude.{None};
    ghost use Rattle.mc_wire.specs.Sink.{Counted, Listed};

    // A page isn't read from; the history of its input holds its limit instead.
    ghost sight = { λ page.
        record {
          given = Counted page.limit;
          ended = false;
          reads = None;
          taken = Listed page.bytes.items;
          failed = page.failed;
        } };

    fn write(&mut self, bytes: &[u8]) -> Result<usize, SinkError> {
        let Some(byte) = bytes.first() else {
            return Ok(0);
        };
        if self.bytes.len() < self.limit {
            self.bytes.push_reserved(*byte);
            return Ok(1);
        }
        self.failed = true;
        Err(SinkError)
    }
}

impl Page {
    /// A page with these bytes, and capacity for `more` + 1 further ones. `Err` returns the bytes:
    /// memory was refused.
    pub(crate) fn with_room(bytes: Vec<u8>, more: u64) -> Result<Page, Vec<u8>>
        ensures bytes { IfOk result (λ page. page.bytes.items ≡ bytes.items) }
        ensures limit { IfOk result (λ page. page.limit ≡ length bytes.items + more + 1) }
        ensures small { IfOk result (λ page. more + 1 < 2 ^ 64) }
        ensures begins { IfOk result (λ page. page.failed ≡ false) }
        ensures back { IfErr result (λ back. back.items ≡ bytes.items) }
    {
        let mut bytes = bytes;
        let Ok(more) = usize::try_from(more) else {
            return Err(bytes);
        };
        let Some(room) = more.checked_add(1) else {
            return Err(bytes);
        };
        let before = bytes.len();
        if bytes.reserve(room).is_err() {
            return Err(bytes);
        }
        Ok(Page {
            bytes,
            limit: before + room,
            failed: false,
        })
    }

    /// The bytes of the page.
    pub(crate) fn into_bytes(self) -> Vec<u8>
        ensures { result.items ≡ self.bytes.items }
    {
        self.bytes
    }
}
