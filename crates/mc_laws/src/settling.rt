//! Settling a simulated server: it does all its own work.
ghost use Rattle.std.specs.Prelude.{◌≡◌, ◌++◌, map, IfOk, OnErr};
ghost use Rattle.std.specs.List.{AllByRecursion};
ghost use Rattle.mc_sim.specs.Asked.{event_of};
ghost use Rattle.mc_laws.specs.Progress.{IsWork};
ghost use Rattle.mc_laws.specs.Settling.{Settles, Works, channel_round, round, seat_round};
ghost use Rattle.mc_laws.specs.internal.Rounds.{Repeats};

use mc_item::NoMemory;
use mc_model::Event;
use mc_sim::Sim;
use std::alloc::{AllocError, Global};

/// Runs the server's own events until none is enabled, with this time for each command. Each round
/// takes a command and sends a piece for each slot, runs one on each shard, and passes its reply
/// back. Then all connections are at rest. Stops if memory is refused.
pub fn settle(sim: &mut Sim, alloc: Global, moment: u64) -> Result<(), NoMemory>
    ensures settled { IfOk result (λ _. Settles sim.old moment sim.new) }
    ensures stopped { OnErr result (Works sim.old sim.new) }
{
    let Ok(events) = round_of(alloc, sim.seats(), sim.shards(), moment) else {
        return Err(NoMemory);
    };
    // No connection has more work than one of these repetitions does.
    for _ in 0..sim.connections().len() {
        if repeat(sim, alloc, &events)? {
            return Ok(());
        }
    }
    Ok(())
}

/// Repeats the events until none of them is done. Returns whether that was reached.
fn repeat(sim: &mut Sim, alloc: Global, events: &[Event]) -> Result<bool, NoMemory>
    requires { AllByRecursion IsWork (map event_of events.now) }
    ensures repeated { IfOk result
        (λ quiet. Repeats sim.old (map event_of events.now) quiet sim.new) }
    ensures stopped { OnErr result (Works sim.old sim.new) }
{
    for _ in 0..u128::MAX {
        if sim.run(alloc, events)? == 0 {
            return Ok(true);
        }
    }
    Ok(false)
}

/// Every event that `seats` slots and `shards` shards can do by themselves, once.
fn round_of(
    alloc: Global,
    seats: usize,
    shards: usize,
    moment: u64,
) -> Result<Vec<Event>, AllocError>
    ensures { IfOk result (λ events. map event_of events.items ≡ round seats shards moment) }
{
    let mut events = Vec::new(alloc);
    for seat in 0..seats {
        add_seat(&mut events, seat, shards, moment)?;
    }
    Ok(events)
}

/// Appends the events of a slot.
fn add_seat(
    events: &mut Vec<Event>,
    seat: usize,
    shards: usize,
    moment: u64,
) -> Result<(), AllocError>
    ensures { IfOk result (λ _.
        map event_of events.new.items ≡
        map event_of events.old.items ++ seat_round shards moment seat) }
{
    events.push(Event::Take { seat, moment })?;
    events.push(Event::Send { seat })?;
    for shard in 0..shards {
        add_channel(events, seat, shard)?;
    }
    events.push(Event::Hand { seat })?;
    Ok(())
}

/// Appends the events between a slot and a shard.
fn add_channel(events: &mut Vec<Event>, seat: usize, shard: usize) -> Result<(), AllocError>
    ensures { IfOk result (λ _.
        map event_of events.new.items ≡ map event_of events.old.items ++ channel_round seat shard) }
{
    events.push(Event::Pop { shard, seat })?;
    events.push(Event::Give { shard })?;
    events.push(Event::Receive { seat, shard })?;
    Ok(())
}
