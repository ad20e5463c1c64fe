//! Errors of parsing a word and of writing replies.
ghost use Rattle.std.specs.Prelude.{◌≡◌};
ghost use Rattle.mc_wire.specs.declared.error.WireError.TheVariants.{Memory};

use crate::{DIGIT_LIMIT, KEY_LIMIT};
use std::alloc::AllocError;
use thiserror::Error;

/// Why a word isn't a valid key or number. If several errors apply, the first in this list is
/// reported.
#[derive(Clone, Copy, Debug, PartialEq, Eq, Error)]
pub enum WireError {
    /// The key word is empty.
    #[error("a key needs at least one byte")]
    NoKey,
    /// A key word has more than `KEY_LIMIT` bytes.
    #[error("a key has at most {max} bytes", max = KEY_LIMIT)]
    KeyTooLong,
    /// A byte of a key is a control byte, the space or 127.
    #[error("a key has no space and no control byte: send such a key in base64, with the flag b")]
    KeyByte,
    /// A word is not the base64 text of any bytes.
    #[error("the key is not the base64 text of any bytes, in the standard alphabet with padding")]
    NotBase64,
    /// A word is no number, or the number is out of range.
    #[error("a number of at most {max} digits that fits 64 bits is wanted", max = DIGIT_LIMIT)]
    NotNumber,
    /// Memory for the key could not be allocated.
    #[error("no memory is left for the key")]
    Memory,
}

/// A write failed. The sink has failed permanently: it accepts no more bytes.
#[derive(Clone, Copy, Debug, PartialEq, Eq, Error)]
#[error("the outlet has failed, and takes no more bytes")]
pub struct SinkError;

impl From<AllocError> for WireError {
    ghost from_gives = { λ _ fault. fault ≡ Memory };

    fn from(_error: AllocError) -> WireError {
        WireError::Memory
    }
}
