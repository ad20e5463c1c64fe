//! One connection: it reads commands from the bytes fed, makes the pieces that the shards are to
//! run, accepts their answers in any order, and hands out the replies in the order of the commands.
#![tactic(auto)]

mod command_log;
mod conn;
mod dispatcher;
mod laws;
mod resting;
mod source;
mod taken_log;

pub use conn::{Conn, Taken};
pub use laws::{
    accepted_answers_fit, answers_fit_before_any_command, come_answers_complete_the_first_commands,
    connections_are_sound, connections_log_what_they_take, handed_replies_stay,
    keys_name_one_place, more_commands_fit, only_shards_are_asked,
    received_answers_tell_the_history, replies_of_shards_fit, serving_keeps_answers,
};
pub use resting::RestingConn;
pub use source::StatsSource;
