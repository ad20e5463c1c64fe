//! Pending replies: what a reply depends on besides its answers, and a slot for each answer.
ghost use Rattle.std.specs.Prelude.{◌≡◌, ◌<◌, ◌↔◌, ◌∷◌, [], Some, None, IsTrue, IfOk, is_none, length, replicate, slice_set};
ghost use Rattle.mc_reply.specs.Server.{pending_reply_of_server};
ghost use Rattle.mc_reply.specs.Slots.{missing_in};

use crate::server_stats::ServerStats;
use crate::ticket::Ticket;
use mc_command::{CommandError, Keys, MetaFlags, MetaKind, Profile};
use mc_item::{Answer, Kind};
use mc_wire::Key;
use std::alloc::{AllocError, Global};
use std::marker::Model;
use std::slice;

/// What a reply's text depends on besides the answers.
#[derive(Drop)]
pub enum ReplyKind {
    /// A text that doesn't depend on answers.
    Fixed(Fixed),
    /// The line of the answer, or nothing with `noreply`.
    Line {
        noreply: bool,
        /// Too large counts as not stored.
        lenient: bool,
    },
    /// The items found, then `END`.
    Values {
        keys: Keys,
        with_unique: bool,
    },
    /// The sums over all shards, and the server's statistics.
    Stats(ServerStats),
    /// The reply of a meta command.
    Meta {
        kind: MetaKind,
        flags: MetaFlags,
        /// Whether the value, or the number, is returned on a hit.
        value: bool,
        /// The key, if the reply returns it.
        key: Option<Key>,
        /// Too large counts as not stored.
        lenient: bool,
    },
}

/// A reply that doesn't depend on answers.
#[derive(Clone, Copy)]
pub enum Fixed {
    /// No reply: `quit`, `shutdown`, or `verbosity` with `noreply`.
    Nothing,
    /// `OK`, for `verbosity`.
    Ok,
    /// `VERSION` and the profile's version.
    Version(Profile),
    /// `END`, for a `stats` with nothing to show.
    End,
    /// `MN`.
    MetaNoop,
    /// The line of a refusal.
    Refused(CommandError),
}

/// The answers of a command's parts received so far. A single part needs no allocation.
pub struct Slots {
    kept: Kept,
    /// Number of answers still to come.
    missing: usize,
}

impl Drop for Slots {
    /// Written by hand, so that its owners drop it by a single call (docs/DECISIONS.md, F20).
    #[inline(always)]
    fn drop(self) {
        let Slots {
            kept: _kept,
            missing: _missing,
        } = self;
    }
}

/// Storage of the slots.
#[derive(Drop)]
enum Kept {
    One(Option<Answer>),
    Many(Vec<Option<Answer>>),
}

impl Model for Slots {
    ghost use Rattle.std.specs.Prelude.{◌≡◌, List, Option};
    ghost use Rattle.mc_item.specs.declared.answer.Answer.{Answer};

    ghost Value = { List (Option Answer) };

    ghost use Rattle.mc_reply.specs.Slots.{answers_in, missing_in};

    ghost view = { λ slots. answers_in slots.kept };

    ghost invariant = { λ slots. slots.missing ≡ missing_in (answers_in slots.kept) };
}

impl Slots {
    /// No slots, for a command without pieces.
    pub fn none(alloc: Global) -> Slots
        ensures { result ≡ [] }
    {
        Slots {
            kept: Kept::Many(Vec::new(alloc)),
            missing: 0,
        }
    }

    /// One empty slot. Allocates nothing.
    pub fn one() -> Slots
        ensures { result ≡ None ∷ [] }
    {
        Slots {
            kept: Kept::One(None),
            missing: 1,
        }
    }

    /// `count` empty slots.
    pub fn empty(alloc: Global, count: usize) -> Result<Slots, AllocError>
        ensures { IfOk result (λ slots. slots ≡ replicate count None) }
    {
        if count == 1 {
            return Ok(Slots::one());
        }
        let mut answers = Vec::with_capacity(alloc, count)?;
        for _ in 0..count {
            answers.push(None)?;
        }
        Ok(Slots {
            kept: Kept::Many(answers),
            missing: count,
        })
    }

    /// The answers by part; `None` for one that hasn't come.
    pub fn answers(&self) -> &[Option<Answer>]
        ensures { result.now ≡ self.now }
    {
        match &self.kept {
            Kept::One(answer) => slice::from_ref(answer),
            Kept::Many(answers) => answers.as_slice(),
        }
    }

    /// Whether each part is answered, by a counter.
    pub fn is_filled(&self) -> bool
        ensures { IsTrue result ↔ (missing_in self.now ≡ 0) }
    {
        self.missing == 0
    }

    /// Stores the answer of a part.
    pub fn fill(&mut self, part: usize, answer: Answer)
        requires { part < length self.old }
        ensures { self.new ≡ slice_set self.old part (Some answer) }
    {
        let vacant = match &mut self.kept {
            Kept::One(slot) => put_in(slot, answer),
            Kept::Many(slots) => put_in(&mut slots[part], answer),
        };
        if vacant {
            self.missing -= 1;
        }
    }
}

/// Stores an answer in a slot, and returns whether the slot was empty.
fn put_in(slot: &mut Option<Answer>, answer: Answer) -> bool
    ensures filled { slot.new ≡ Some answer }
    ensures vacant { result ≡ is_none slot.old }
{
    let vacant = slot.is_none();
    *slot = Some(answer);
    vacant
}

/// A pending reply, with a slot for the answer of each part.
pub struct PendingReply {
    pub ticket: Ticket,
    /// The kind of the command's pieces; meaningless if it has none.
    pub kind: Kind,
    pub reply_kind: ReplyKind,
    pub slots: Slots,
}

impl Drop for PendingReply {
    /// Written by hand, so that its owners drop it by a single call (docs/DECISIONS.md, F20).
    #[inline(always)]
    fn drop(self) {
        let PendingReply {
            ticket: _ticket,
            kind: _kind,
            reply_kind: _reply_kind,
            slots: _slots,
        } = self;
    }
}

impl PendingReply {
    /// Sets the server's statistics of a pending reply to `stats`; any other is returned unchanged.
    pub fn of_server(self, server: ServerStats) -> PendingReply
        ensures { result ≡ pending_reply_of_server server self }
    {
        let PendingReply {
            ticket,
            kind,
            reply_kind,
            slots,
        } = self;
        let reply_kind = match reply_kind {
            ReplyKind::Stats(_unknown) => ReplyKind::Stats(server),
            reply_kind => reply_kind,
        };
        PendingReply {
            ticket,
            kind,
            reply_kind,
            slots,
        }
    }

    /// Stores the answer of a part.
    pub fn fill(&mut self, part: usize, answer: Answer)
        requires { part < length self.old.slots }
        ensures { self.new ≡
            record self.old { slots = slice_set self.old.slots part (Some answer) } }
    {
        self.slots.fill(part, answer);
    }
}
