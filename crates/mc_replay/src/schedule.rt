//! Parsing of a replay file.
ghost use Rattle.std.specs.Prelude.{◌≡◌};
ghost use Rattle.mc_replay.specs.Text.{without_last_end};
ghost use Rattle.mc_replay.specs.Schedule.{SpellsSchedule, SpellsEvents};
ghost use Rattle.mc_replay.specs.internal.Parts.{parts_left};
ghost use Rattle.mc_replay.specs.declared.schedule.ScheduleError.TheVariants.{Memory};

use crate::event::read_event;
use crate::header::read_header;
use crate::parts::{PartWalk, parts};
use mc_model::Event;
use mc_sizes::Sizes;
use std::alloc::{AllocError, Global};
use thiserror::Error;

/// A parsed replay file: a server and a list of events.
#[derive(Drop)]
pub struct Schedule {
    /// The sizes and the profile of the server.
    pub sizes: Sizes,
    /// The events in order.
    pub events: Vec<Event>,
}

/// Why a replay file is invalid.
#[derive(Clone, Copy, Debug, Error)]
pub enum ScheduleError {
    /// The number, counted from 1, of the first line that is no header or no event.
    #[error("line {0}: bad event")]
    Bad(usize),
    /// Memory for the events was refused.
    #[error("out of memory")]
    Memory,
}

impl From<AllocError> for ScheduleError {
    ghost from_gives = { λ _ fault. fault ≡ Memory };

    fn from(_error: AllocError) -> ScheduleError {
        ScheduleError::Memory
    }
}

/// Parses a replay file completely, before any event runs.
pub fn read_schedule(alloc: Global, text: &[u8]) -> Result<Schedule, ScheduleError>
    ensures { SpellsSchedule text.now result }
{
    let mut lines = parts(without_last_end(text), b'\n');
    let Some(sizes) = lines.next().and_then(read_header) else {
        return Err(ScheduleError::Bad(1));
    };
    let events = read_events(alloc, lines, sizes)?;
    Ok(Schedule { sizes, events })
}

/// The text without its trailing line feed, if it has one.
fn without_last_end(text: &[u8]) -> &[u8]
    ensures { result.now ≡ without_last_end text.now }
{
    text.strip_suffix(b"\n").unwrap_or(text)
}

/// Parses the events of a server of these sizes, one per line. The first of these lines is line 2
/// of the file.
fn read_events(
    alloc: Global,
    lines: PartWalk<'_>,
    sizes: Sizes,
) -> Result<Vec<Event>, ScheduleError>
    ensures { SpellsEvents sizes (parts_left lines.entry) result }
{
    let mut events = Vec::new(alloc);
    for line in lines {
        match read_event(alloc, line, sizes)? {
            Some(event) => {
                if events.push(event).is_err() {
                    return Err(ScheduleError::Memory);
                }
            }
            None => return Err(ScheduleError::Bad(events.len() + 2)),
        }
    }
    Ok(events)
}
