//! The queue of the open tickets' pending replies.
ghost use Rattle.std.specs.Prelude.{◌≡◌, ◌<◌, ◌≤◌, [], ◌∷◌, ◌++◌, IfOk, IsTrue, OnErr, false, Some, None, drop, length, map, ◌↔◌};
ghost use Rattle.std.specs.List.{concat, prefix_len};
ghost use Rattle.mc_ring.specs.Reply.{shown};
ghost use Rattle.mc_reply.specs.declared.pending_reply.PendingReply.{PendingReply};
ghost use Rattle.mc_wire.specs.Sink.{Writes};
ghost use Rattle.mc_join.specs.Held.{Awaits, Fills, HasPart, IsDue};
ghost use Rattle.mc_join.specs.Length.{capped};
ghost use Rattle.mc_join.specs.Replies.{complete, pending_reply_text, is_answered};

use crate::length::ByteCounter;
use circular_buffer::HeapCircularBuffer;
use mc_item::Answer;
use mc_reply::{PendingReply, put_reply};
use mc_ring::Reply;
use mc_wire::{Sink, SinkError};

/// Appends a pending reply. If the queue is full, the pending reply is dropped.
pub(crate) fn add(
    pending_replies: &mut HeapCircularBuffer<PendingReply>,
    pending_reply: PendingReply,
) -> bool
    ensures added { IsTrue result → pending_replies.new.items ≡ pending_replies.old.items ++
        pending_reply ∷ [] }
    ensures room { length pending_replies.old.items < pending_replies.old.capacity → IsTrue result }
    ensures full { result ≡ false →
        (pending_replies.new ≡ pending_replies.old) ×
        (length pending_replies.old.items ≡ pending_replies.old.capacity) }
    ensures capacity { pending_replies.new.capacity ≡ pending_replies.old.capacity }
{
    if pending_replies.len() >= pending_replies.capacity() {
        drop_cold(pending_reply);
        return false;
    }
    match pending_replies.try_push_back(pending_reply) {
        Ok(()) => true,
        // Never reached, since there is space. Dropping the pending reply in this arm would move it
        // field by field.
        Err(pending_reply) => {
            drop_cold(pending_reply);
            false
        }
    }
}

/// Drops a pending reply. Out of line, so that the pending reply appended on the hot path is moved
/// as a whole (docs/DECISIONS.md, F20).
#[cold]
#[inline(never)]
fn drop_cold(_pending_reply: PendingReply) {}

/// Number of leading pending replies that are completely answered.
pub(crate) fn count_complete(pending_replies: &HeapCircularBuffer<PendingReply>) -> usize
    ensures count { result ≡ prefix_len is_answered pending_replies.now.items }
    ensures within { result ≤ length pending_replies.now.items }
{
    // Read so that the count is known to fit.
    let _len = pending_replies.len();
    let mut count = 0;
    for pending_reply in pending_replies.iter() {
        if !is_complete(pending_reply) {
            return count;
        }
        count += 1;
    }
    count
}

/// Whether each part of a pending reply is answered.
fn is_complete(pending_reply: &PendingReply) -> bool
    ensures { result ≡ is_answered pending_reply.now }
{
    pending_reply.slots.is_filled()
}

/// Writes the replies of the leading answered pending replies, and returns how many these are. On an
/// error, a prefix was written.
pub(crate) fn put_first<O: Sink>(
    out: &mut O,
    pending_replies: &HeapCircularBuffer<PendingReply>,
) -> Result<usize, SinkError>
    ensures writes { Writes (concat (map pending_reply_text (complete pending_replies.now.items)))
        result (O.sight out.old) (O.sight out.new) }
    ensures count { IfOk result (λ count.
        count ≡ prefix_len is_answered pending_replies.now.items) }
    ensures within { IfOk result (λ count. count ≤ length pending_replies.now.items) }
    ensures owed { OnErr result (0 < prefix_len is_answered pending_replies.now.items) }
{
    // Read so that the count is known to fit.
    let _len = pending_replies.len();
    let mut count = 0;
    for pending_reply in pending_replies.iter() {
        if !is_complete(pending_reply) {
            return Ok(count);
        }
        put_due(out, pending_reply)?;
        count += 1;
    }
    Ok(count)
}

/// Writes the reply of a completely answered pending reply.
fn put_due<O: Sink>(out: &mut O, pending_reply: &PendingReply) -> Result<(), SinkError>
    requires { IsDue pending_reply.now }
    ensures { Writes (pending_reply_text pending_reply.now) result (O.sight out.old)
        (O.sight out.new) }
{
    put_reply(out, pending_reply)
}

/// Drops the first `count` pending replies. If none is left, the queue restarts at its first place,
/// so that a connection that waits for each reply touches few cache lines. See docs/DECISIONS.md,
/// F19.
pub(crate) fn drop_first(pending_replies: &mut HeapCircularBuffer<PendingReply>, count: usize)
    requires { count ≤ length pending_replies.old.items }
    ensures items { pending_replies.new.items ≡ drop count pending_replies.old.items }
    ensures capacity { pending_replies.new.capacity ≡ pending_replies.old.capacity }
{
    let left = pending_replies.len() - count;
    if left == 0 {
        pending_replies.clear();
        return;
    }
    pending_replies.truncate_front(left);
}

/// Total length of these replies in bytes.
pub(crate) fn texts_len(pending_replies: &HeapCircularBuffer<PendingReply>) -> u64
    ensures { result ≡ capped
        (length (concat (map pending_reply_text (complete pending_replies.now.items)))) }
{
    let mut counter = ByteCounter::new();
    // A full counter reports the maximum.
    let _ = put_first(&mut counter, pending_replies);
    counter.count
}

/// Whether a pending reply expects the reply: the part exists, has no answer yet, and is of the
/// reply's kind.
pub(crate) fn awaits(pending_reply: &PendingReply, reply: &Reply) -> bool
    ensures { IsTrue result ↔ Awaits pending_reply.now (shown reply.now) }
{
    match pending_reply.slots.answers().get(reply.part) {
        Some(None) => pending_reply.kind == reply.kind,
        Some(Some(_)) | None => false,
    }
}

/// Stores an answer in the slot of a part of the pending reply at this index.
pub(crate) fn fill(
    pending_replies: &mut HeapCircularBuffer<PendingReply>,
    place: usize,
    part: usize,
    answer: Answer,
)
    requires { HasPart pending_replies.old.items place part }
    ensures items { Fills pending_replies.old.items pending_replies.new.items place part answer }
    ensures capacity { pending_replies.new.capacity ≡ pending_replies.old.capacity }
{
    let Some(pending_reply) = pending_replies.get_mut(place) else {
        unreachable!()
    };
    pending_reply.fill(part, answer);
}
