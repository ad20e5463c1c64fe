//! The data block of a storage command.
ghost use Rattle.std.specs.Prelude.{◌≡◌, ◌≤◌, [], length, vec_len};

use mc_wire::MAX_VALUE_LIMIT;
use std::alloc::Global;
use std::marker::Model;

/// The data block of a storage command (protocol.txt, "Storage commands"): at most
/// `MAX_VALUE_LIMIT` bytes. Contracts see the list of its bytes.
#[derive(Drop)]
pub struct Block {
    bytes: Vec<u8>,
}

impl Model for Block {
    ghost use Rattle.std.specs.Prelude.{ℕ, List};
    ghost use Rattle.std.specs.Prelude.{◌≤◌, length};
    ghost use Rattle.mc_wire.specs.declared.TheConstants.{MAX_VALUE_LIMIT};

    ghost Value = { List ℕ };

    ghost view = { λ block. block.bytes.items };

    ghost invariant = { λ block. length block.bytes.items ≤ MAX_VALUE_LIMIT };
}

impl Block {
    /// A block with these bytes.
    pub fn new(bytes: Vec<u8>) -> Block
        requires { vec_len bytes ≤ MAX_VALUE_LIMIT }
        ensures { result ≡ bytes.items }
    {
        Block { bytes }
    }

    /// A placeholder, for a command whose data hasn't come yet.
    pub fn empty(alloc: Global) -> Block
        ensures { result ≡ [] }
    {
        Block {
            bytes: Vec::new(alloc),
        }
    }

    /// The bytes of the block.
    pub fn bytes(&self) -> &[u8]
        ensures value { result.now ≡ self.now }
        ensures short { length result.now ≤ MAX_VALUE_LIMIT }
    {
        self.bytes.as_slice()
    }

    /// The bytes of the block, moved out of it.
    pub fn into_bytes(self) -> Vec<u8>
        ensures value { result.items ≡ self }
        ensures short { vec_len result ≤ MAX_VALUE_LIMIT }
    {
        self.bytes
    }
}
