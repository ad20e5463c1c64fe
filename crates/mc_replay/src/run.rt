//! Runs a schedule and reports its results.
ghost use Rattle.std.specs.Prelude.{◌≡◌, ◌++◌, ◌+◌, IfOk, OnOk, map};
ghost use Rattle.std.specs.List.{flat_map};
ghost use Rattle.mc_sizes.specs.declared.sizes.Sizes.{Sizes};
ghost use Rattle.mc_model.specs.World.{IsLink, Link, World};
ghost use Rattle.mc_model.specs.Headline.{handed_bytes};
ghost use Rattle.mc_sim.specs.Asked.{event_of};
ghost use Rattle.mc_sim.specs.Runs.{Runs};
ghost use Rattle.mc_sim.specs.Stands.{Stands};
ghost use Rattle.mc_replay.specs.Report.{connection_line, entry_line};
ghost use Rattle.mc_replay.specs.Replay.{Replays, GivesReport, connection_lines, report};
ghost use Rattle.mc_replay.specs.declared.run.ReplayError.TheVariants.{Memory};

use crate::report::{push_connection, push_counts, push_entry};
use crate::schedule::Schedule;
use mc_item::NoMemory;
use mc_model::Event;
use mc_sim::{LogEntry, Sim, SimError};
use mc_sizes::SizeError;
use mc_wire::{Sink, write_all};
use std::alloc::{AllocError, Global};
use std::random::RandomSource;
use thiserror::Error;

/// Why a schedule wasn't replayed completely.
#[derive(Clone, Copy, Debug, PartialEq, Eq, Error)]
pub enum ReplayError {
    /// A size of the server is out of range. Nothing was written.
    #[error(transparent)]
    Size(SizeError),
    /// Memory was refused. Nothing was written.
    #[error("out of memory")]
    Memory,
    /// The sink has failed; a prefix of the report was written.
    #[error("cannot write")]
    Gone,
}

impl From<AllocError> for ReplayError {
    ghost from_gives = { λ _ fault. fault ≡ Memory };

    fn from(_error: AllocError) -> ReplayError {
        ReplayError::Memory
    }
}

/// Runs the events of a schedule, then writes the report to the sink. It has the replies to each
/// connection, the log of the shards, and the numbers of events done and idle.
pub fn replay<R: RandomSource, O: Sink>(
    rt: &R,
    alloc: Global,
    schedule: &Schedule,
    out: &mut O,
) -> Result<(), ReplayError>
    ensures { Replays schedule.now result (O.sight out.old) (O.sight out.new) }
{
    let text = report_of(rt, alloc, schedule)?;
    match write_all(out, &text) {
        Ok(()) => Ok(()),
        Err(_) => Err(ReplayError::Gone),
    }
}

/// The report of a schedule after its events were run.
fn report_of<R: RandomSource>(
    rt: &R,
    alloc: Global,
    schedule: &Schedule,
) -> Result<Vec<u8>, ReplayError>
    ensures { GivesReport schedule.now result }
{
    let mut sim = match Sim::new(rt, alloc, schedule.sizes) {
        Ok(sim) => sim,
        Err(SimError::Size(fault)) => return Err(ReplayError::Size(fault)),
        Err(SimError::Memory) => return Err(ReplayError::Memory),
    };
    let Ok(done) = run_all(alloc, &mut sim, &schedule.events) else {
        return Err(ReplayError::Memory);
    };
    let idle = (schedule.events.len() as u64).saturating_sub(done);
    match report(alloc, &sim, done, idle) {
        Ok(text) => Ok(text),
        Err(_) => Err(ReplayError::Memory),
    }
}

/// Runs all events and returns the number of those done. Fails at the first event that is refused
/// memory; nothing is reported then. A report is complete before it is written (docs/DECISIONS.md,
/// Y4).
fn run_all(alloc: Global, sim: &mut Sim, events: &[Event]) -> Result<u64, ReplayError>
    ensures { IfOk result (λ done. Runs sim.old (map event_of events.now) done sim.new) }
{
    match sim.run(alloc, events) {
        Ok(done) => Ok(done),
        Err(NoMemory) => Err(ReplayError::Memory),
    }
}

/// The report of the simulator's current state.
fn report(alloc: Global, sim: &Sim, done: u64, idle: u64) -> Result<Vec<u8>, AllocError>
    ensures { IfOk result (λ text.
        (sizes : Sizes) (w : World) → Stands sizes sim.now w →
        text.items ≡ report sizes w done idle) }
{
    let mut text = Vec::new(alloc);
    push_connections(alloc, &mut text, sim)?;
    push_log(&mut text, sim.log())?;
    push_counts(&mut text, done, idle)?;
    Ok(text)
}

/// Appends the line of each connection.
fn push_connections(alloc: Global, text: &mut Vec<u8>, sim: &Sim) -> Result<(), AllocError>
    ensures { OnOk result
        ((sizes : Sizes) (w : World) → Stands sizes sim.now w →
        text.new.items ≡ text.old.items ++ connection_lines sizes w 0 w.links) }
{
    let connections = sim.connections();
    for (number, connection) in connections.iter().enumerate() {
        push_handed(alloc, text, sim, number, connection.seat)?;
    }
    Ok(())
}

/// Appends the line of one connection, which is on that slot.
fn push_handed(
    alloc: Global,
    text: &mut Vec<u8>,
    sim: &Sim,
    number: usize,
    seat: usize,
) -> Result<(), AllocError>
    ensures { OnOk result
        ((sizes : Sizes) (w : World) (link : Link) → Stands sizes sim.now w → IsLink w number link →
        seat ≡ link.seat →
        text.new.items ≡
        text.old.items ++ connection_line number link.seat (handed_bytes sizes w number link)) }
{
    match sim.handed(number) {
        Some(handed) => push_connection(alloc, text, number, seat, handed),
        // There is no connection of this number.
        None => Ok(()),
    }
}

/// Appends the line of each log entry.
fn push_log(text: &mut Vec<u8>, log: &[LogEntry]) -> Result<(), AllocError>
    ensures { OnOk result (text.new.items ≡ text.old.items ++ flat_map entry_line log.now) }
{
    for entry in log {
        push_entry(text, entry)?;
    }
    Ok(())
}
