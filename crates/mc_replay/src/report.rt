//! The report of a replay: a line for each connection, one for each log entry, and one with counts.
ghost use Rattle.std.specs.Prelude.{◌≡◌, ◌++◌, IfOk, OnOk};
ghost use Rattle.mc_replay.specs.Report.{connection_line, counts_line, entry_line, handed_word};

use crate::text::push_parts;
use itoa::Buffer;
use mc_sim::LogEntry;
use std::alloc::{AllocError, Global};

/// Appends the line of a connection: the replies written to it.
pub(crate) fn push_connection(
    alloc: Global,
    text: &mut Vec<u8>,
    number: usize,
    seat: usize,
    handed: &[u8],
) -> Result<(), AllocError>
    ensures { OnOk result
        (text.new.items ≡ text.old.items ++ connection_line number seat handed.now) }
{
    let word = handed_word(alloc, handed)?;
    let (mut first, mut second) = (Buffer::new(), Buffer::new());
    let number = first.format(number).as_bytes();
    let seat = second.format(seat).as_bytes();
    push_parts(
        text,
        &[b"conn ", number, b" seat ", seat, b" ", &word, b"\n"],
    )
}

/// Bytes in hexadecimal, or a dash for none.
fn handed_word(alloc: Global, bytes: &[u8]) -> Result<Vec<u8>, AllocError>
    ensures { IfOk result (λ word. word.items ≡ handed_word bytes.now) }
{
    if bytes.is_empty() {
        return Vec::from_slice(alloc, b"-");
    }
    Ok(hex::encode(alloc, bytes)?.into_bytes())
}

/// Appends the line of a piece: the shard that ran it, and its connection.
pub(crate) fn push_entry(text: &mut Vec<u8>, entry: &LogEntry) -> Result<(), AllocError>
    ensures { OnOk result (text.new.items ≡ text.old.items ++ entry_line entry.now) }
{
    let (mut first, mut second, mut third) = (Buffer::new(), Buffer::new(), Buffer::new());
    let (mut fourth, mut fifth) = (Buffer::new(), Buffer::new());
    let shard = first.format(entry.shard).as_bytes();
    let connection = second.format(entry.connection).as_bytes();
    let ticket = third.format(entry.ticket.0).as_bytes();
    let part = fourth.format(entry.part).as_bytes();
    let moment = fifth.format(entry.moment).as_bytes();
    push_parts(
        text,
        &[
            b"log ", shard, b" ", connection, b" ", ticket, b" ", part, b" ", moment, b"\n",
        ],
    )
}

/// Appends the number of events that were done, and that were idle.
pub(crate) fn push_counts(text: &mut Vec<u8>, done: u64, idle: u64) -> Result<(), AllocError>
    ensures { OnOk result (text.new.items ≡ text.old.items ++ counts_line done idle) }
{
    let (mut first, mut second) = (Buffer::new(), Buffer::new());
    let done = first.format(done).as_bytes();
    let idle = second.format(idle).as_bytes();
    push_parts(text, &[b"done ", done, b" idle ", idle, b"\n"])
}
