//! A core that is settled. What no clause says: that it comes to rest with ample memory, and which
//! sizes it reports.
use crate::asserting::{equal, holds};
use crate::sim::{MOMENT, core_of, feed, handed_both, handed_to, ran, take};
use crate::sizes::SMALL;
use mc_laws::settle;
use mc_model::{Event, StepReply};
use mc_reply::Ticket;
use mc_sim::{LogEntry, Sim};
use mc_sizes::Sizes;
use std::alloc::{AllocError, Global};
use std::process::Abort;
use std::test::Fail;

/// The input of two connections. `a` belongs to the first shard, `d` to the second.
const FIRST: &[u8] = b"set a 0 0 1\r\nx\r\nget d\r\nmn\r\n";

const SECOND: &[u8] = b"set d 0 0 1\r\nz\r\nget d a\r\n";

/// Their output if their commands alternate.
const TO_FIRST: &[u8] = b"STORED\r\nVALUE d 0 1\r\nz\r\nEND\r\nMN\r\n";

const TO_SECOND: &[u8] = b"STORED\r\nVALUE d 0 1\r\nz\r\nVALUE a 0 1\r\nx\r\nEND\r\n";

/// Both connections begin and send all of their input.
fn begin_both(alloc: Global) -> Result<[Event; 4], AllocError> {
    Ok([
        Event::Open { seat: 0 },
        Event::Open { seat: 1 },
        feed(alloc, 0, FIRST)?,
        feed(alloc, 1, SECOND)?,
    ])
}

/// What is kept of a part of a command.
fn entry(shard: usize, connection: usize, ticket: u64, part: usize) -> LogEntry {
    LogEntry {
        shard,
        connection,
        ticket: Ticket(ticket),
        part,
        moment: MOMENT,
    }
}

/// Asserts that nothing is left to do, for two seats and two shards.
fn rests(rt: &impl Abort, alloc: Global, sim: &mut Sim) {
    for seat in 0..2 {
        equal(rt, sim.step(alloc, &take(seat)), StepReply::Idle);
        equal(rt, sim.step(alloc, &Event::Send { seat }), StepReply::Idle);
        equal(rt, sim.step(alloc, &Event::Hand { seat }), StepReply::Idle);
        for shard in 0..2 {
            for event in [
                Event::Pop { shard, seat },
                Event::Give { shard },
                Event::Receive { seat, shard },
            ] {
                equal(rt, sim.step(alloc, &event), StepReply::Idle);
            }
        }
    }
}

#[test]
fn all_replies_are_out(rt: HostRuntime) -> Result<(), Fail> {
    let alloc = rt.alloc();
    let mut sim = core_of(&rt, alloc, 2)?;
    equal(&rt, sim.run(alloc, &begin_both(alloc)?)?, 4);
    settle(&mut sim, alloc, MOMENT)?;
    holds(&rt, handed_both(&sim, TO_FIRST, TO_SECOND));
    rests(&rt, alloc, &mut sim);
    // A core at rest is settled, and takes more input.
    settle(&mut sim, alloc, MOMENT)?;
    holds(&rt, handed_both(&sim, TO_FIRST, TO_SECOND));
    let more = [Event::End { seat: 0 }, feed(alloc, 1, b"delete a\r\n")?];
    equal(&rt, sim.run(alloc, &more)?, 2);
    settle(&mut sim, alloc, MOMENT)?;
    let deleted = b"STORED\r\nVALUE d 0 1\r\nz\r\nVALUE a 0 1\r\nx\r\nEND\r\nDELETED\r\n";
    holds(&rt, handed_both(&sim, TO_FIRST, deleted));
    Ok(())
}

/// In each round a slot has a command taken and a piece sent, and each shard runs one piece of it;
/// then the next slot follows.
#[test]
fn seats_take_turns(rt: HostRuntime) -> Result<(), Fail> {
    let alloc = rt.alloc();
    let mut sim = core_of(&rt, alloc, 2)?;
    sim.run(alloc, &begin_both(alloc)?)?;
    settle(&mut sim, alloc, MOMENT)?;
    let entries = [
        entry(0, 0, 0, 0),
        entry(1, 1, 0, 0),
        entry(1, 0, 1, 0),
        entry(1, 1, 1, 0),
        entry(0, 1, 1, 1),
    ];
    holds(&rt, ran(&sim, &entries));
    Ok(())
}

#[test]
fn a_core_without_connections_rests(rt: HostRuntime) -> Result<(), Fail> {
    let alloc = rt.alloc();
    let mut sim = core_of(&rt, alloc, 2)?;
    settle(&mut sim, alloc, MOMENT)?;
    equal(&rt, sim.connections().len(), 0);
    equal(&rt, sim.log().len(), 0);
    Ok(())
}

#[test]
fn a_core_tells_its_sizes(rt: HostRuntime) -> Result<(), Fail> {
    let alloc = rt.alloc();
    for (seats, shards) in [(1, 1), (3, 2), (2, 16), (64, 1)] {
        let sizes = Sizes {
            seats,
            shards,
            ring: 1,
            window: 1,
            ..SMALL
        };
        let sim = Sim::new(&rt, alloc, sizes)?;
        equal(&rt, (sim.seats(), sim.shards()), (seats, shards));
    }
    Ok(())
}

/// The events, each repeated if it found no memory; false if it found none again.
fn all_done(alloc: Global, sim: &mut Sim, events: &[Event]) -> bool {
    for event in events {
        if sim.step(alloc, event) == StepReply::NoMemory
            && sim.step(alloc, event) == StepReply::NoMemory
        {
            return false;
        }
    }
    true
}

/// Whether the bytes written to the connections are a prefix of these.
fn handed_some(sim: &Sim, first: &[u8], second: &[u8]) -> bool {
    first.starts_with(handed_to(sim, 0)) && second.starts_with(handed_to(sim, 1))
}

/// Holds with all allocations, and with any one of them refused. If memory ran out, part of the
/// work is done, and the rest when the core is settled again; at most one command is given up.
#[test]
fn a_refused_allocation_stops_it(rt: HostRuntime) {
    let alloc = rt.alloc();
    let Ok(mut sim) = core_of(&rt, alloc, 2) else {
        return;
    };
    let (Ok(first), Ok(second)) = (
        feed(alloc, 0, b"get d\r\n"),
        feed(alloc, 1, b"set d 0 0 1\r\nz\r\n"),
    ) else {
        return;
    };
    let events = [
        Event::Open { seat: 0 },
        Event::Open { seat: 1 },
        first,
        second,
    ];
    holds(&rt, all_done(alloc, &mut sim, &events));
    let (end, stored) = (b"END\r\n", b"STORED\r\n");
    let memory = b"SERVER_ERROR out of memory\r\n";
    if settle(&mut sim, alloc, MOMENT).is_err() {
        holds(&rt, !handed_both(&sim, end, stored));
        holds(&rt, handed_some(&sim, end, stored));
        holds(&rt, settle(&mut sim, alloc, MOMENT).is_ok());
        holds(&rt, handed_both(&sim, end, stored));
    }
    rests(&rt, alloc, &mut sim);
    holds(
        &rt,
        handed_both(&sim, end, stored)
            || handed_both(&sim, memory, stored)
            || handed_both(&sim, end, memory),
    );
}
