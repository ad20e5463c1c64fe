//! Replies that don't depend on answers.
ghost use Rattle.std.specs.Prelude.{◌≡◌};
ghost use Rattle.mc_wire.specs.Sink.{Writes};
ghost use Rattle.mc_reply.specs.Text.{refusal_line, fixed_text, memory_line};

use crate::pending_reply::Fixed;
use mc_command::{CommandError, Profile};
use mc_wire::{Sink, SinkError, write_all};

/// The reply to a command for which memory was refused.
pub const MEMORY_LINE: &[u8] = b"SERVER_ERROR out of memory\r\n";

/// Writes a reply that doesn't depend on answers. On an error, a prefix was written.
pub fn put_fixed<O: Sink>(out: &mut O, fixed: Fixed) -> Result<(), SinkError>
    ensures { Writes (fixed_text fixed) result (O.sight out.old) (O.sight out.new) }
{
    write_all(out, fixed_line(fixed))
}

/// The text of a reply that doesn't depend on answers.
pub fn fixed_line(fixed: Fixed) -> &'static [u8]
    ensures { result.now ≡ fixed_text fixed }
{
    match fixed {
        Fixed::Nothing => b"",
        Fixed::Ok => b"OK\r\n",
        Fixed::Version(Profile::Own) => b"VERSION 1.6.0-sharded\r\n",
        Fixed::Version(Profile::DropIn) => b"VERSION 1.6.18\r\n",
        Fixed::End => b"END\r\n",
        Fixed::MetaNoop => b"MN\r\n",
        Fixed::Refused(refusal) => refused_line(refusal),
    }
}

/// The line of a refusal (protocol.txt, "Error strings").
fn refused_line(refusal: CommandError) -> &'static [u8]
    ensures { result.now ≡ refusal_line refusal }
{
    match refusal {
        CommandError::Unknown => b"ERROR\r\n",
        CommandError::BadFormat => b"CLIENT_ERROR bad command line format\r\n",
        CommandError::BadKey => b"CLIENT_ERROR bad key\r\n",
        CommandError::InvalidFlag => b"CLIENT_ERROR invalid flag\r\n",
        CommandError::DuplicateFlag => b"CLIENT_ERROR duplicate flag\r\n",
        CommandError::OpaqueTooLong => b"CLIENT_ERROR opaque token too long\r\n",
        CommandError::TooLarge => b"SERVER_ERROR object too large for cache\r\n",
        CommandError::BadChunk => b"CLIENT_ERROR bad data chunk\r\n",
        CommandError::LineTooLong => b"CLIENT_ERROR line too long\r\n",
        CommandError::Memory => MEMORY_LINE,
        CommandError::WordCount => b"ERROR\r\n",
        CommandError::Hidden => b"",
        CommandError::ShutdownDisabled => b"ERROR: shutdown not enabled\r\n",
        CommandError::ShutdownMode => b"CLIENT_ERROR invalid shutdown mode\r\n",
    }
}

/// Writes the reply to a command for which memory was refused.
pub fn put_memory_line<O: Sink>(out: &mut O) -> Result<(), SinkError>
    ensures { Writes memory_line result (O.sight out.old) (O.sight out.new) }
{
    write_all(out, MEMORY_LINE)
}
