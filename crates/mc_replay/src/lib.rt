//! Replay files: a schedule of events as text is parsed, run and reported.
#![tactic(auto)]

mod event;
mod header;
mod number;
mod parts;
mod report;
mod run;
mod schedule;
mod text;

pub use run::{ReplayError, replay};
pub use schedule::{Schedule, ScheduleError, read_schedule};
