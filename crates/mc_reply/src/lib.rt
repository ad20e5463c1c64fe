//! The text of each reply: pending replies, their specification and its laws, and the code that
//! writes them.
#![tactic(auto)]

mod block;
mod classic;
mod fixed;
mod header;
mod laws;
mod meta;
mod number;
mod pending_reply;
mod server_stats;
mod stats;
mod text;
mod ticket;

pub use laws::{
    flags_change_their_order_alone, only_stats_shows_the_server, quiet_replies_are_empty_or_loud,
};
pub use pending_reply::{Fixed, PendingReply, ReplyKind, Slots};
pub use server_stats::ServerStats;
pub use text::put_reply;
pub use ticket::Ticket;
