//! Reordering of replies: the pending replies of open commands, and the answers held until all
//! earlier replies are written.
#![tactic(auto)]

mod length;
mod queue;
mod reorder_buffer;
mod resting;

pub use reorder_buffer::{Full, Gone, ReorderBuffer, UnexpectedReply};
pub use resting::RestingReplies;
