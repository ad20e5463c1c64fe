//! Laws over all schedules that relate several times: no deadlock, quiescence, progress of every
//! command, and linearizability of each key.
#![tactic(auto)]

mod order;
mod progress;
mod settling;

pub use order::{keys_are_linearizable, what_was_handed_out_ran_before};
pub use progress::{
    all_comes_to_rest, bytes_are_taken_at_rest, fair_runs_come_to_rest, never_stuck,
    none_waits_forever, what_is_tried_is_fair,
};
pub use settling::settle;
