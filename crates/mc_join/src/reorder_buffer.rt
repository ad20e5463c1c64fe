//! The reorder buffer: it holds answers that arrive early until all earlier replies are written.
ghost use Rattle.std.specs.Prelude.{◌≡◌, ◌≢◌, ◌<◌, ◌≤◌, ◌+◌, ◌^◌, ◌-◌, ◌∷◌, ◌++◌, [], ℕ, List, true, false, IsTrue, IsOk, IfOk, IfErr, IfSome, IfNone, OnOk, OnErr, Ok, length, drop};
ghost use Rattle.mc_ring.specs.Reply.{Shown, shown};
ghost use Rattle.mc_reply.specs.declared.pending_reply.PendingReply.{PendingReply};
ghost use Rattle.mc_wire.specs.Sink.{Writes};
ghost use Rattle.mc_join.specs.Expects.{Expects};
ghost use Rattle.mc_join.specs.Held.{AreNumbered, AwaitsAt, IsAwaited, TakesIn, due_text, held_at_rest, nothing_held, opened_count};
ghost use Rattle.mc_join.specs.Joined.{IsReorderBuffer, unhanded};
ghost use Rattle.mc_join.specs.Length.{capped};
ghost use Rattle.mc_join.specs.Replies.{complete, replies};

use crate::queue::{add, awaits, count_complete, drop_first, fill, put_first, texts_len};
use crate::resting::RestingReplies;
use circular_buffer::HeapCircularBuffer;
use mc_reply::{PendingReply, Ticket};
use mc_ring::Reply;
use mc_wire::Sink;
use std::alloc::{AllocError, Global};
use std::fmt;
use std::fmt::{Debug, Formatter};
use std::marker::Model;
use thiserror::Error;

/// The maximum number of tickets is open.
#[derive(Clone, Copy, Debug, Error, PartialEq, Eq)]
#[error("as many commands are open as the window has room for")]
pub struct Full;

/// The sink has failed; nothing more is written.
#[derive(Clone, Copy, Debug, Error, PartialEq, Eq)]
#[error("the outlet of a connection has failed")]
pub struct Gone;

/// A reply that no open command expects; it is returned.
#[derive(Drop, Error)]
#[error("no open command awaits a reply to part {part} of command {ticket}", part = .reply.part, ticket = .reply.ticket.0)]
pub struct UnexpectedReply {
    /// The unexpected reply.
    pub reply: Reply,
}

impl Debug for UnexpectedReply {
    fn fmt<W: fmt::Write>(&self, f: &mut Formatter<W>) -> fmt::Result {
        f.write_str("UnexpectedReply(..)")
    }
}

/// Puts the replies of one connection into the order of its commands, in whatever order the answers
/// arrive.
pub struct ReorderBuffer {
    /// The pending replies of the open tickets, in order.
    pending_replies: HeapCircularBuffer<PendingReply>,
    /// Number of commands whose replies were written. It may exceed the greatest ticket by one.
    handed: u128,
    /// The sink has failed.
    gone: bool,
}

impl Drop for ReorderBuffer {
    /// Written by hand, so that its owners drop it by a single call (docs/DECISIONS.md, F20).
    fn drop(self) {
        let ReorderBuffer {
            pending_replies: _pending_replies,
            handed: _handed,
            gone: _gone,
        } = self;
    }
}

impl Model for ReorderBuffer {
    ghost use Rattle.std.specs.Prelude.{◌≤◌, ◌+◌, ◌^◌, length};
    ghost use Rattle.mc_join.specs.Expects.{Expects};
    ghost use Rattle.mc_join.specs.Held.{Held, AreNumbered};

    ghost Value = { Held };

    ghost view = { λ reorder_buffer.
        record {
          window = reorder_buffer.pending_replies.capacity;
          handed = reorder_buffer.handed;
          pending_replies = reorder_buffer.pending_replies.items;
          gone = reorder_buffer.gone;
        } };

    ghost invariant = { λ reorder_buffer.
        AreNumbered reorder_buffer.handed reorder_buffer.pending_replies.items ×
        (reorder_buffer.handed + length reorder_buffer.pending_replies.items ≤ 2 ^ 64) };
}

impl ReorderBuffer {
    /// An empty buffer for up to `window` open tickets. All memory is allocated here.
    pub fn new(alloc: Global, window: usize) -> Result<ReorderBuffer, AllocError>
        requires { 0 < window }
        ensures held { IfOk result (λ reorder_buffer. reorder_buffer ≡ nothing_held window) }
        ensures joined { IfOk result (λ reorder_buffer. IsReorderBuffer reorder_buffer [] [] []) }
    {
        Ok(ReorderBuffer {
            pending_replies: HeapCircularBuffer::with_capacity(alloc, window)?,
            handed: 0,
            gone: false,
        })
    }

    /// Opens the next ticket. If the maximum number of tickets is open, the pending reply is
    /// dropped. Allocates nothing.
    pub fn open(&mut self, pending_reply: PendingReply) -> Result<(), Full>
        requires { pending_reply.ticket.0 ≡ opened_count self.old }
        ensures ok { OnOk result
            (self.new ≡ record self.old
            { pending_replies = self.old.pending_replies ++ pending_reply ∷ [] }) }
        ensures opened { OnOk result (opened_count self.new ≡ opened_count self.old + 1) }
        ensures room { length self.old.pending_replies < self.old.window → IsOk result }
        ensures full { OnErr result (length self.old.pending_replies ≡ self.old.window) }
        ensures err { OnErr result (self.new ≡ self.old) }
        ensures joined { OnOk result
            ((opened : List PendingReply) (accepted : List Shown) (handed : List (List ℕ)) →
            IsReorderBuffer self.old opened accepted handed →
            IsReorderBuffer self.new (opened ++ pending_reply ∷ []) accepted handed) }
    {
        // Read so that the number is known to fit 64 bits.
        let _number = pending_reply.ticket.0;
        if !add(&mut self.pending_replies, pending_reply) {
            return Err(Full);
        }
        Ok(())
    }

    /// The index of an open ticket's pending reply.
    fn place_of(&self, ticket: Ticket) -> Option<usize>
        ensures numbered { AreNumbered self.now.handed self.now.pending_replies }
        ensures some { IfSome result
            (λ place. (place < length self.now.pending_replies) ×
            (ticket.0 ≡ self.now.handed + place)) }
        ensures none { IfNone result
            ((place : ℕ) → place < length self.now.pending_replies →
            ticket.0 ≢ self.now.handed + place) }
    {
        let ticket = u128::from(ticket.0);
        if ticket < self.handed || ticket - self.handed >= self.waiting() as u128 {
            return None;
        }
        Some((ticket - self.handed) as usize)
    }

    /// The index of the pending reply that expects the reply.
    fn awaiting(&self, reply: &Reply) -> Option<usize>
        ensures some { IfSome result (λ place. AwaitsAt self.now (shown reply.now) place) }
        ensures none { IfNone result (¬ IsAwaited self.now (shown reply.now)) }
    {
        let place = self.place_of(reply.ticket)?;
        let pending_reply = self.pending_replies.get(place)?;
        if awaits(pending_reply, reply) {
            Some(place)
        } else {
            None
        }
    }

    /// Stores a reply in its slot, whichever open ticket and part it answers. Allocates nothing.
    #[inline(always)]
    pub fn accept(&mut self, reply: Reply) -> Result<(), UnexpectedReply>
        ensures awaited { OnOk result (IsAwaited self.old (shown reply)) }
        ensures takes_in { OnOk result (TakesIn self.old self.new (shown reply)) }
        ensures opened { opened_count self.new ≡ opened_count self.old }
        ensures unexpected_reply { IfErr result
            (λ unexpected_reply. shown unexpected_reply.reply ≡ shown reply) }
        ensures unawaited { OnErr result (¬ IsAwaited self.old (shown reply)) }
        ensures unchanged { OnErr result (self.new ≡ self.old) }
        ensures joined { OnOk result
            ((opened : List PendingReply) (accepted : List Shown) (handed : List (List ℕ)) →
            IsReorderBuffer self.old opened accepted handed →
            IsReorderBuffer self.new opened (accepted ++ shown reply ∷ []) handed) }
        // In terms of the pending replies opened and the replies accepted.
        ensures expected { OnOk result
            ((opened : List PendingReply) (accepted : List Shown) (handed : List (List ℕ)) →
            IsReorderBuffer self.old opened accepted handed →
            Expects opened accepted (shown reply)) }
        ensures unexpected { OnErr result
            ((opened : List PendingReply) (accepted : List Shown) (handed : List (List ℕ)) →
            IsReorderBuffer self.old opened accepted handed →
            ¬ Expects opened accepted (shown reply)) }
    {
        let Some(place) = self.awaiting(&reply) else {
            return Err(UnexpectedReply { reply });
        };
        let part = reply.part;
        fill(&mut self.pending_replies, place, part, reply.into_answer());
        Ok(())
    }

    /// Number of bytes that `hand` would write; it saturates.
    pub fn ready(&self) -> u64
        ensures count { result ≡ capped (length (due_text self.now)) }
        ensures turn { (opened : List PendingReply) (accepted : List Shown) (handed : List (List ℕ))
            →
            self.now.gone ≡ false → IsReorderBuffer self.now opened accepted handed →
            due_text self.now ≡ unhanded opened accepted handed }
    {
        if self.gone {
            return 0;
        }
        texts_len(&self.pending_replies)
    }

    /// Number of open tickets.
    pub fn waiting(&self) -> usize
        ensures count { result ≡ length self.now.pending_replies }
        ensures joined { (opened : List PendingReply) (accepted : List Shown)
            (handed : List (List ℕ)) →
            IsReorderBuffer self.now opened accepted handed → length handed + result ≡
            length opened }
    {
        self.pending_replies.len()
    }

    /// Whether the maximum number of tickets is open.
    pub fn is_full(&self) -> bool
        ensures full { IsTrue result → length self.now.pending_replies ≡ self.now.window }
        ensures room { result ≡ false → length self.now.pending_replies < self.now.window }
    {
        self.waiting() >= self.pending_replies.capacity()
    }

    /// The ticket that is opened next; `None` after 2^64 tickets. See docs/DECISIONS.md, F24.
    pub fn next_ticket(&self) -> Option<Ticket>
        ensures some { IfSome result (λ ticket. ticket.0 ≡ opened_count self.now) }
        ensures none { IfNone result (opened_count self.now ≡ 2 ^ 64) }
    {
        let opened = self.handed + self.waiting() as u128;
        if opened > u64::MAX as u128 {
            return None;
        }
        Some(Ticket(opened as u64))
    }

    /// Number of leading open tickets that are completely answered, silent ones included. `hand`
    /// completes as many commands, unless the sink has failed.
    pub fn passes(&self) -> usize
        ensures count { result ≡ length (complete self.now.pending_replies) }
        ensures joined { (opened : List PendingReply) (accepted : List Shown)
            (handed : List (List ℕ)) →
            IsReorderBuffer self.now opened accepted handed →
            length handed + result ≡ length (replies opened accepted) }
    {
        count_complete(&self.pending_replies)
    }

    /// Writes the replies of the leading answered commands, in the order of their tickets, and
    /// returns the number of commands. After an error nothing is written any more. Allocates
    /// nothing.
    pub fn hand<O: Sink>(&mut self, out: &mut O) -> Result<u64, Gone>
        // After an error of the sink.
        ensures silent { IsTrue self.old.gone →
            (result ≡ Ok 0) × (self.new ≡ self.old) × (O.sight out.new ≡ O.sight out.old) }
        // Without an earlier error.
        ensures count { self.old.gone ≡ false →
            IfOk result (λ count. count ≡ length (complete self.old.pending_replies)) }
        ensures left { IfOk result (λ count.
            self.new ≡
            record self.old {
              handed = self.old.handed + count;
              pending_replies = drop count self.old.pending_replies;
            }) }
        ensures opened { opened_count self.new ≡ opened_count self.old }
        ensures none_left { self.old.gone ≡ false →
            OnOk result (complete self.new.pending_replies ≡ []) }
        ensures writes { Writes (due_text self.old) result (O.sight out.old) (O.sight out.new) }
        ensures gone { OnErr result (self.new ≡ record self.old { gone = true }) }
        // In terms of the pending replies opened, the replies accepted and the texts written.
        ensures turn { (opened : List PendingReply) (accepted : List Shown) (handed : List (List ℕ))
            →
            self.old.gone ≡ false → IsReorderBuffer self.old opened accepted handed →
            due_text self.old ≡ unhanded opened accepted handed }
        ensures joined { self.old.gone ≡ false →
            OnOk result
            ((opened : List PendingReply) (accepted : List Shown) (handed : List (List ℕ)) →
            IsReorderBuffer self.old opened accepted handed →
            IsReorderBuffer self.new opened accepted (replies opened accepted)) }
        ensures joined_gone { OnErr result
            ((opened : List PendingReply) (accepted : List Shown) (handed : List (List ℕ)) →
            IsReorderBuffer self.old opened accepted handed →
            IsReorderBuffer self.new opened accepted handed) }
        // The sink fails only at a reply that was due.
        ensures owed { OnErr result
            ((opened : List PendingReply) (accepted : List Shown) (handed : List (List ℕ)) →
            IsReorderBuffer self.old opened accepted handed →
            length handed < length (replies opened accepted)) }
    {
        if self.gone {
            return Ok(0);
        }
        let count = match put_first(out, &self.pending_replies) {
            Ok(count) => count,
            Err(_fault) => {
                self.gone = true;
                return Err(Gone);
            }
        };
        if count == 0 {
            return Ok(0);
        }
        drop_first(&mut self.pending_replies, count);
        self.handed += count as u128;
        Ok(count as u64)
    }

    /// The numbers of the buffer, if nothing else is to be kept: no ticket is open, and the sink has
    /// not failed.
    #[inline(always)]
    pub fn at_rest(&self) -> Option<RestingReplies>
        ensures { IfSome result (λ resting. self.now ≡ held_at_rest resting) }
    {
        if !self.pending_replies.is_empty() || self.gone {
            return None;
        }
        Some(RestingReplies {
            window: self.pending_replies.capacity(),
            handed: self.handed,
        })
    }

    /// Becomes the buffer that rested, and returns whether it did: only if no ticket is open, and
    /// as many may be. Allocates nothing.
    #[inline(always)]
    pub fn resume(&mut self, resting: &RestingReplies) -> bool
        ensures { IsTrue result → self.new ≡ held_at_rest resting.now }
    {
        if !self.pending_replies.is_empty() || self.pending_replies.capacity() != resting.window {
            return false;
        }
        self.handed = resting.handed;
        self.gone = false;
        true
    }

    /// Resets the buffer for another connection. Allocates nothing.
    pub fn reset(&mut self)
        ensures held { self.new ≡ nothing_held self.old.window }
        ensures joined { IsReorderBuffer self.new [] [] [] }
    {
        self.pending_replies.clear();
        self.handed = 0;
        self.gone = false;
    }
}
