//! The model: a server as one world of lists and counts, the events that change it, and the laws
//! that hold after every list of events. Workers and simulator are proved against it.
#![tactic(auto)]

mod event;
mod handed;
mod laws;

pub use event::{Event, StepReply};
pub use handed::a_connection_is_served_as_alone;
pub use laws::{
    every_event_keeps_the_law, every_schedule, nothing_is_taken_back,
    one_connection_is_served_as_alone,
};
