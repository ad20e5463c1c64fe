//! A shard's part of a history as the record of what its worker runs, a seat's part as the record
//! of what its connections take, and the opening and closing of a history.
#![tactic(auto)]

mod clerk;
mod closing;
mod laws;
mod opening;
mod recorder;

pub use clerk::SeatClerk;
pub use closing::close;
pub use laws::what_was_handed_out_may_be_written;
pub use opening::Opening;
pub use recorder::Recorder;
