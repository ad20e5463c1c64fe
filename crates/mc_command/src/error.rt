//! Why a line or its command is refused.
ghost use Rattle.std.specs.Prelude.{◌≡◌};
ghost use Rattle.mc_command.specs.declared.error.CommandError.TheVariants.{Memory};

use mc_wire::WireError;
use std::alloc::AllocError;

/// A refusal by the parser. It is answered in order, like any command, unless it is hidden.
#[derive(Clone, Copy, Debug, PartialEq, Eq)]
pub enum CommandError {
    /// The command name is unknown or missing.
    Unknown,
    /// Too few or too many words, or an invalid number.
    BadFormat,
    /// A key is too long or has an invalid byte.
    BadKey,
    /// The meta command has no such flag.
    InvalidFlag,
    /// A flag occurs twice.
    DuplicateFlag,
    /// The token of the flag `O` is longer than 32 bytes.
    OpaqueTooLong,
    /// The length of the value is above the value limit.
    TooLarge,
    /// The data block isn't followed by CR LF.
    BadChunk,
    /// The line is longer than the line limit. The stream is closed.
    LineTooLong,
    /// Memory was refused.
    Memory,
    /// Too few or too many words, which memcached treats as an unknown command.
    WordCount,
    /// An error that isn't reported, since the line ends in `noreply` and memcached's rules apply.
    Hidden,
    /// `shutdown`, where clients may not end the server.
    ShutdownDisabled,
    /// `shutdown` with words that name no mode.
    ShutdownMode,
}

impl From<WireError> for CommandError {
    ghost use Rattle.mc_command.specs.Field.{refusal_for};

    ghost from_gives = { λ fault refusal. refusal ≡ refusal_for fault };

    /// The refusal of a line with this error in a word.
    fn from(fault: WireError) -> CommandError {
        match fault {
            WireError::NoKey | WireError::KeyTooLong | WireError::KeyByte | WireError::NotBase64 =>
                CommandError::BadKey,
            WireError::NotNumber => CommandError::BadFormat,
            WireError::Memory => CommandError::Memory,
        }
    }
}

impl From<AllocError> for CommandError {
    ghost from_gives = { λ _ refusal. refusal ≡ Memory };

    /// The refusal of a command for which memory was refused.
    fn from(_error: AllocError) -> CommandError {
        CommandError::Memory
    }
}
