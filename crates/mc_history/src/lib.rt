//! One history of all connections opened, commands parsed and operations run, and evidence of it:
//! tokens without bytes, any two of which show prefixes of one lawful history. Each thread appends
//! its own events and sends evidence with its messages; nothing of it is stored.
#![tactic(auto)]

mod actor;
mod actors;
mod event;
mod evidence;
mod history;
mod knowledge;
mod laws;
mod member;
mod rule;

pub use actor::Actor;
pub use actors::Actors;
pub use event::Event;
pub use evidence::Evidence;
pub use history::History;
pub use knowledge::Role;
pub use laws::{
    a_channels_next_piece_is_its_connections_next, a_channels_work_is_its_seats_own,
    a_command_added_is_the_next_taken, a_connection_opened_is_the_last_on_its_seat,
    an_entry_added_is_the_next_run, commands_added_are_the_next_taken,
    hearing_adds_nothing_of_ones_own, lawful_histories_hold, what_may_be_written_stays,
    what_was_shown_stays, worlds_have_the_connections_opened,
};
pub use member::Member;
