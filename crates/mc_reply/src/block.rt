//! Writing a value's data block.
ghost use Rattle.std.specs.Prelude.{◌++◌, codes};
ghost use Rattle.mc_wire.specs.Sink.{Writes};

use mc_item::Value;
use mc_wire::{Sink, SinkError, put_parts, write_all};

/// Smallest size of a value, in bytes, that a sink may share. A reference to a smaller one would
/// keep its page of 32 KiB alive for less than an eighth of it.
const MIN_SHARED: usize = 4_096;

/// Writes the end of the header line, the value and its line end. A sink that stores its bytes
/// may share a large value instead of copying it.
pub(crate) fn put_block<O: Sink>(out: &mut O, line: &[u8], value: &Value) -> Result<(), SinkError>
    ensures { Writes (line.now ++ (value.now ++ codes "\r\n")) result (O.sight out.old)
        (O.sight out.new) }
{
    let bytes = value.bytes();
    if bytes.len() < MIN_SHARED || !out.shares() {
        return put_parts(out, &[line, bytes, b"\r\n"]);
    }
    write_all(out, line)?;
    value.put_to(out)?;
    write_all(out, b"\r\n")
}
