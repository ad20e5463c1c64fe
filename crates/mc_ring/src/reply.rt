//! What a shard sends back to a seat.
ghost use Rattle.std.specs.Prelude.{◌≡◌, true};
ghost use Rattle.mc_item.specs.Kind.{is_lawful};

use mc_item::{Answer, Kind};
use mc_reply::Ticket;

/// The answer to one piece. Its receiver knows that the answer is lawful for the piece's kind.
pub struct Reply {
    /// The piece's ticket.
    pub ticket: Ticket,
    /// The piece's place among the pieces of its command, from 0.
    pub part: usize,
    /// The piece's kind.
    pub kind: Kind,
    pub answer: Answer,
    pub ghost lawful: { is_lawful kind answer ≡ true },
}

impl Drop for Reply {
    /// Written by hand, so that its owners drop it by a single call (docs/DECISIONS.md, F20).
    #[inline(always)]
    fn drop(self) {
        let Reply {
            ticket: _ticket,
            part: _part,
            kind: _kind,
            answer: _answer,
        } = self;
    }
}

impl Reply {
    ghost use Rattle.mc_ring.specs.Reply.{shown};

    /// The reply to a piece of this ticket, part and kind. No memory is taken.
    pub fn new(ticket: Ticket, part: usize, kind: Kind, answer: Answer) -> Reply
        requires { is_lawful kind answer ≡ true }
        ensures { shown result ≡
            record { ticket = ticket; part = part; kind = kind; answer = answer } }
    {
        Reply {
            ticket,
            part,
            kind,
            answer,
        }
    }

    /// What the shard answers.
    #[inline(always)]
    pub fn into_answer(self) -> Answer
        ensures { result ≡ self.answer }
    {
        let Reply {
            ticket: _ticket,
            part: _part,
            kind: _kind,
            answer: given,
        } = self;
        given
    }
}
