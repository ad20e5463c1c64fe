//! Writing one reply.
ghost use Rattle.std.specs.Prelude.{◌≡◌, List, Some, map, Option};
ghost use Rattle.mc_item.specs.declared.answer.Answer.{Answer};
ghost use Rattle.mc_wire.specs.Sink.{Writes};
ghost use Rattle.mc_reply.specs.Text.{reply_kind_text};
ghost use Rattle.mc_reply.specs.internal.SlotTexts.{slots_text};

use crate::classic::{any_lacks_memory, put_first_line, put_values};
use crate::fixed::{put_fixed, put_memory_line};
use crate::meta::put_meta;
use crate::pending_reply::{PendingReply, ReplyKind};
use crate::stats::put_stats;
use mc_item::Answer;
use mc_wire::{Sink, SinkError, write_all};

/// Writes the reply of a completely answered form. On an error, a prefix was written.
pub fn put_reply<O: Sink>(out: &mut O, pending_reply: &PendingReply) -> Result<(), SinkError>
    ensures { (answers : List Answer) → pending_reply.now.slots ≡
        map (λ answer. Some answer) answers →
        Writes (reply_kind_text pending_reply.now.reply_kind answers) result (O.sight out.old)
        (O.sight out.new) }
{
    put_slots(
        out,
        &pending_reply.reply_kind,
        pending_reply.slots.answers(),
    )
}

/// Writes the reply of a shape from its filled slots.
#[tactic(auto, unfolding(crate::specs::internal::SlotTexts::slots_text))]
fn put_slots<O: Sink>(
    out: &mut O,
    reply_kind: &ReplyKind,
    slots: &[Option<Answer>],
) -> Result<(), SinkError>
    ensures { Writes (slots_text reply_kind.now slots.now) result (O.sight out.old)
        (O.sight out.new) }
{
    match reply_kind {
        ReplyKind::Fixed(fixed) => put_fixed(out, *fixed),
        ReplyKind::Line { noreply: true, .. } => write_all(out, b""),
        _ if any_lacks_memory(slots) => put_memory_line(out),
        ReplyKind::Line {
            noreply: false,
            lenient,
        } => put_first_line(out, *lenient, slots),
        ReplyKind::Values { keys, with_unique } => put_values(out, keys, *with_unique, slots),
        ReplyKind::Stats(server) => put_stats(out, server, slots),
        ReplyKind::Meta {
            kind,
            flags,
            value,
            key,
            lenient,
        } => match slots {
            [Some(answer), ..] => put_meta(out, *kind, flags, *value, key, *lenient, answer),
            [None, ..] | [] => write_all(out, b""),
        },
    }
}
