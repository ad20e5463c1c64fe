//! Replies that no open command expects.
use mc_item::Kind;
use mc_join::UnexpectedReply;
use mc_reply::Ticket;

/// The ticket, part and kind of a refused reply; `None` if it was accepted.
fn flow(accepted: &Result<(), UnexpectedReply>) -> Option<(Ticket, usize, Kind)> {
    match accepted {
        Ok(()) => None,
        Err(UnexpectedReply { reply }) => Some((reply.ticket, reply.part, reply.kind)),
    }
}

/// The ticket, part and kind of a refused reply, which is dropped.
pub fn unexpected_reply_of(accepted: Result<(), UnexpectedReply>) -> Option<(Ticket, usize, Kind)> {
    flow(&accepted)
}
