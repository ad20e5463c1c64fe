//! Serves lines in memory, each as the single connection of a slot.
ghost use Rattle.std.specs.Prelude.{◌≡◌, ◌≢◌, [], IfErr, IfOk, length, map};
ghost use Rattle.std.specs.List.{AllByRecursion};
ghost use Rattle.mc_sizes.specs.Sizes.{MayServe};
ghost use Rattle.mc_record.specs.Opening.{IsOpening};
ghost use Rattle.mc_transport.specs.Place.{unbegun};
ghost use Rattle.mc_poll.specs.Zips.{Zips};
ghost use Rattle.mc_serve.specs.Over.{ServesAll, came_back};
ghost use Rattle.mc_serve.specs.declared.error.ServeError.TheVariants.{Bind};
ghost use Rattle.mc_net.specs.One.{IsBack, flow_of, waits};

use crate::error::ServeError;
use crate::serving::serve;
use mc_budget::ClientMemory;
use mc_history::Evidence;
use mc_net::{ServedLine, SingleSource};
use mc_poll::{Poller, SpinPolicy};
use mc_record::Opening;
use mc_sizes::Sizes;
use mc_transport::{Clock, Transport};
use mc_worker::Gate;
use std::alloc::{AllocError, Global};
use std::random::RandomSource;
use std::sync::Wait;
use std::thread::Threads;

/// The lines after they were served.
#[derive(Drop)]
pub struct Report<L> {
    /// The lines, in the order of the call.
    pub lines: Vec<ServedLine<L>>,
    /// Evidence of the history in which they were served.
    pub evidence: Evidence,
}

/// Serves the lines until each has ended, quit or failed, and returns them. All of them belong to
/// the opened history. Each line has a slot, and each slot and each shard has a thread;
/// `sizes.seats` is ignored. The workers call the gate before each piece.
///
/// Errors: `Memory`, or `Thread` if a thread can't be started. Nothing was read from any line or
/// written to it then.
pub fn serve_over<
    R: Threads + Wait + RandomSource + Copy + Send + Drop + 'static,
    L: Transport<Warrant = Evidence> + Send + Drop + 'static,
    G: Gate + Send + Sync + Drop + 'static,
    K: Clock + Copy + Send + Drop + 'static,
>(
    rt: &R,
    alloc: Global,
    opening: Opening,
    lines: Vec<L>,
    sizes: Sizes,
    gate: G,
    clock: K,
) -> Result<Report<L>, ServeError>
    requires sizes { MayServe (record sizes { seats = length lines.items }) }
    requires opening { IsOpening (record sizes { seats = length lines.items })
        opening.recorders.items opening.clerks.items opening.witness }
    // None of the lines has begun.
    requires new { AllByRecursion (λ line. L.place line ≡ unbegun opening.witness.name)
        lines.items }
    // One log, of the history that the evidence shows, explains what was read from all lines, what
    // was written to them and what the shards ran.
    ensures explained { IfOk result (λ report.
        ServesAll (record sizes { seats = length lines.items }) (K.may_answer clock)
        (map (λ line. L.sight line) lines.items)
        (map (λ one. came_back (L.sight one.line) one.commands one.broke) report.lines.items)
        report.evidence) }
    ensures shown { IfOk result (λ report. report.evidence.name ≡ opening.witness.name) }
    ensures refused { IfErr result (λ refusal. refusal ≢ Bind) }
{
    // Space for the report is reserved first, so that no line can be lost after it was served.
    let room = Vec::with_capacity(alloc, lines.len())?;
    let mut opening = opening;
    let shown = opening.show();
    let sources = sources_for(alloc, lines, &shown)?;
    let pollers = pollers_for(rt, alloc, sources.len(), sizes.shards)?;
    let memory = ClientMemory::unlimited();
    let (back, evidence) = serve(
        rt, alloc, opening, sources, pollers, sizes, gate, clock, memory,
    )?;
    gather(back, room, evidence)
}

/// Pollers of a thread for each of `seats` slots, and then of one for each of `shards` shards.
pub(crate) fn pollers_for<R: Threads>(
    rt: &R,
    alloc: Global,
    seats: usize,
    shards: usize,
) -> Result<Vec<Poller>, AllocError> {
    let threads = seats.saturating_add(shards);
    let spin_policy = SpinPolicy::among(rt, threads);
    let mut pollers = Vec::with_capacity(alloc, threads)?;
    for thread in 0..threads {
        let (callers, places, workers) = if thread < seats {
            (0, 1, 0)
        } else {
            (seats, 0, 1)
        };
        pollers.push(Poller::new(alloc, spin_policy, callers, places, workers)?)?;
    }
    Ok(pollers)
}

/// Creates a source for each line. The lines are of the token's history.
fn sources_for<L: Transport<Warrant = Evidence> + Drop>(
    alloc: Global,
    lines: Vec<L>,
    history: &Evidence,
) -> Result<Vec<SingleSource<L>>, AllocError>
    requires { AllByRecursion (λ line. L.place line ≡ unbegun history.now.name) lines.items }
    ensures flow { IfOk result (λ sources.
        map (λ source. flow_of (λ line. L.sight line) source)
        sources.items ≡ map (λ line. waits (L.sight line)) lines.items) }
    ensures history { IfOk result (λ sources.
        AllByRecursion (λ source. source.history.value.name ≡ history.now.name) sources.items) }
{
    let mut sources = Vec::with_capacity(alloc, lines.len())?;
    for line in lines {
        sources.push(SingleSource::new(line, history))?;
    }
    Ok(sources)
}

/// Reports the lines that were returned to their sources. `room` has space for them.
fn gather<L: Transport + Drop>(
    sources: Vec<SingleSource<L>>,
    room: Vec<ServedLine<L>>,
    evidence: Evidence,
) -> Result<Report<L>, ServeError>
    requires { room.items ≡ [] }
    ensures evidence { IfOk result (λ report. report.evidence ≡ evidence) }
    ensures back { IfOk result (λ report.
        Zips (λ source one.
        IsBack (flow_of (λ line. L.sight line) source)
        (L.sight one.line) one.commands one.broke) sources.items report.lines.items) }
    ensures refused { IfErr result (λ refusal. refusal ≢ Bind) }
{
    let mut lines = room;
    for source in sources {
        let Some(served) = source.served() else {
            return Err(ServeError::Memory);
        };
        let Ok(()) = lines.push(served) else {
            return Err(ServeError::Memory);
        };
    }
    Ok(Report { lines, evidence })
}
