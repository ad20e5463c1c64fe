//! Ghost histories of bytes.
ghost use Rattle.std.specs.Prelude.{◌≡◌, ◌++◌, [], take};
ghost use Rattle.std.specs.Io.Slices.{io_slices_bytes};

use mc_poll::GhostLog;
use std::io::IoSlice;
use std::marker::Model;

/// The bytes of one direction of a connection, as contracts see them. It stores nothing and takes
/// no memory.
#[derive(Drop)]
pub struct Trail {
    log: GhostLog<u8, ()>,
}

impl Model for Trail {
    ghost use Rattle.std.specs.Prelude.{ℕ, List, map};

    ghost Value = { List ℕ };

    ghost view = { λ trail. map (λ one. one.0) trail.log.items };
}

impl Trail {
    /// The empty history.
    pub fn new() -> Trail
        ensures { result ≡ [] }
    {
        Trail {
            log: GhostLog::new(),
        }
    }

    /// Appends these bytes.
    pub fn add(&mut self, bytes: &[u8])
        ensures { self.new ≡ self.old ++ bytes.now }
    {
        for byte in bytes {
            self.log = self.log.and(byte, &());
        }
    }

    /// Appends the first `count` bytes of the concatenated buffers.
    pub fn add_first(&mut self, bufs: &[IoSlice<'_>], count: usize)
        ensures { self.new ≡ self.old ++ take count (io_slices_bytes bufs.now) }
    {
        let mut left = count;
        for buf in bufs {
            let bytes = buf.as_slice();
            let (front, _) = bytes.split_at(left.min(bytes.len()));
            self.add(front);
            left -= front.len();
        }
    }
}
