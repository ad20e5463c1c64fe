//! Schedules, event by event. What no clause says: with ample memory a core is made and each event
//! done, and with one allocation refused only one command finds no memory.
use crate::asserting::{equal, holds};
use crate::sizes::{ONE_CHANNEL, SMALL};
use mc_model::{Event, StepReply};
use mc_reply::Ticket;
use mc_ring::channels;
use mc_sim::{LogEntry, Sim, SimError};
use mc_sizes::Sizes;
use mc_store::Shard;
use mc_worker::Worker;
use std::alloc::{AllocError, Global};
use std::hash::RandomState;
use std::random::RandomSource;
use std::test::Fail;

/// The time of all commands.
pub(crate) const MOMENT: u64 = 1000;

/// The budget of a shard, in bytes.
const BUDGET: usize = 1_024;

/// The maximum size of a value, in bytes.
const VALUE_LIMIT: usize = 1_024;

/// A core with `seats` slots and two shards.
pub(crate) fn core_of<R: RandomSource>(
    rt: &R,
    alloc: Global,
    seats: usize,
) -> Result<Sim, SimError> {
    let sizes = Sizes {
        seats,
        bytes: BUDGET,
        ring: 4,
        value: VALUE_LIMIT,
        window: 64,
        ..SMALL
    };
    Sim::new(rt, alloc, sizes)
}

/// Feeds these bytes to the slot.
pub(crate) fn feed(alloc: Global, seat: usize, text: &[u8]) -> Result<Event, AllocError> {
    let bytes = Vec::from_slice(alloc, text)?;
    Ok(Event::Feed { seat, bytes })
}

/// Takes the slot's next command.
pub(crate) fn take(seat: usize) -> Event {
    Event::Take {
        seat,
        moment: MOMENT,
    }
}

/// What is kept of a command's first part.
fn entry(shard: usize, connection: usize, ticket: u64) -> LogEntry {
    LogEntry {
        shard,
        connection,
        ticket: Ticket(ticket),
        part: 0,
        moment: MOMENT,
    }
}

/// The bytes written to the connection of this number.
pub(crate) fn handed_to(sim: &Sim, number: usize) -> &[u8] {
    sim.handed(number).unwrap_or(b"")
}

/// The result of an event, the number of pieces that the shards have run, and the number of bytes
/// written to the first two connections.
fn moved(alloc: Global, sim: &mut Sim, event: &Event) -> (StepReply, usize, usize, usize) {
    let reply = sim.step(alloc, event);
    (
        reply,
        sim.log().len(),
        handed_to(sim, 0).len(),
        handed_to(sim, 1).len(),
    )
}

/// Whether these bytes were written to the two connections.
pub(crate) fn handed_both(sim: &Sim, first: &[u8], second: &[u8]) -> bool {
    handed_to(sim, 0) == first && handed_to(sim, 1) == second
}

/// Whether the shards ran exactly these pieces, in this order.
pub(crate) fn ran(sim: &Sim, entries: &[LogEntry]) -> bool {
    sim.log() == entries
}

/// The second of two connections stores `d`, and then the first one reads it.
fn store_and_get(alloc: Global) -> Result<[Event; 16], AllocError> {
    Ok([
        Event::Open { seat: 0 },
        Event::Open { seat: 1 },
        feed(alloc, 1, b"set d 0 0 1\r\nz\r\n")?,
        take(1),
        Event::Send { seat: 1 },
        Event::Pop { shard: 1, seat: 1 },
        Event::Give { shard: 1 },
        Event::Receive { seat: 1, shard: 1 },
        Event::Hand { seat: 1 },
        feed(alloc, 0, b"gets d\r\n")?,
        take(0),
        Event::Send { seat: 0 },
        Event::Pop { shard: 1, seat: 0 },
        Event::Give { shard: 1 },
        Event::Receive { seat: 0, shard: 1 },
        Event::Hand { seat: 0 },
    ])
}

#[test]
fn two_connections(rt: HostRuntime) -> Result<(), Fail> {
    let alloc = rt.alloc();
    let mut sim = core_of(&rt, alloc, 2)?;
    // The number of pieces run so far, and of bytes written to each connection.
    let rows = [
        (0, 0, 0),
        (0, 0, 0),
        (0, 0, 0),
        (0, 0, 0),
        (0, 0, 0),
        (1, 0, 0),
        (1, 0, 0),
        (1, 0, 0),
        (1, 0, 8),
        (1, 0, 8),
        (1, 0, 8),
        (1, 0, 8),
        (2, 0, 8),
        (2, 0, 8),
        (2, 0, 8),
        (2, 23, 8),
    ];
    let events = store_and_get(alloc)?;
    for (event, row) in events.iter().zip(&rows) {
        let (ran, first, second) = *row;
        let seen = moved(alloc, &mut sim, event);
        equal(&rt, seen, (StepReply::Done, ran, first, second));
    }
    let (value, stored) = (b"VALUE d 0 1 2\r\nz\r\nEND\r\n", b"STORED\r\n");
    holds(&rt, handed_both(&sim, value, stored));
    holds(&rt, ran(&sim, &[entry(1, 1, 0), entry(1, 0, 0)]));
    Ok(())
}

/// Holds with all allocations, and with any one of them refused. An event that finds no memory is
/// repeated, and one that needs none never lacks it.
#[test]
fn a_refused_allocation_gives_up_one_command(rt: HostRuntime) {
    let alloc = rt.alloc();
    let Ok(events) = store_and_get(alloc) else {
        return;
    };
    let Ok(mut sim) = core_of(&rt, alloc, 2) else {
        return;
    };
    for event in &events {
        if sim.step(alloc, event) == StepReply::NoMemory {
            holds(&rt, sim.step(alloc, event) != StepReply::NoMemory);
            holds(
                &rt,
                !matches!(
                    event,
                    Event::Send { .. } | Event::Give { .. } | Event::Receive { .. }
                ),
            );
        }
    }
    let (value, end) = (b"VALUE d 0 1 2\r\nz\r\nEND\r\n", b"END\r\n");
    let (stored, memory) = (b"STORED\r\n", b"SERVER_ERROR out of memory\r\n");
    holds(
        &rt,
        handed_both(&sim, value, stored)
            || handed_both(&sim, end, memory)
            || handed_both(&sim, memory, stored),
    );
}

#[test]
fn an_early_answer(rt: HostRuntime) -> Result<(), Fail> {
    let alloc = rt.alloc();
    let mut sim = core_of(&rt, alloc, 1)?;
    let rows = [
        (Event::Open { seat: 0 }, StepReply::Done, 0, 0),
        (
            feed(alloc, 0, b"get a\r\ntouch b 0\r\n")?,
            StepReply::Done,
            0,
            0,
        ),
        (take(0), StepReply::Done, 0, 0),
        (take(0), StepReply::Done, 0, 0),
        (Event::Send { seat: 0 }, StepReply::Done, 0, 0),
        (Event::Send { seat: 0 }, StepReply::Done, 0, 0),
        (Event::Pop { shard: 1, seat: 0 }, StepReply::Done, 1, 0),
        (Event::Give { shard: 1 }, StepReply::Done, 1, 0),
        (Event::Receive { seat: 0, shard: 1 }, StepReply::Done, 1, 0),
        (Event::Hand { seat: 0 }, StepReply::Idle, 1, 0),
        (Event::Pop { shard: 0, seat: 0 }, StepReply::Done, 2, 0),
        (Event::Give { shard: 0 }, StepReply::Done, 2, 0),
        (Event::Receive { seat: 0, shard: 0 }, StepReply::Done, 2, 0),
        (Event::Hand { seat: 0 }, StepReply::Done, 2, 16),
    ];
    for (event, reply, ran, first) in &rows {
        equal(
            &rt,
            moved(alloc, &mut sim, event),
            (*reply, *ran, *first, 0),
        );
    }
    holds(
        &rt,
        handed_to(&sim, 0) == b"END\r\nNOT_FOUND\r\n".as_slice(),
    );
    holds(&rt, ran(&sim, &[entry(1, 0, 1), entry(0, 0, 0)]));
    Ok(())
}

#[test]
fn what_is_kept_of_a_connection(rt: HostRuntime) -> Result<(), Fail> {
    let alloc = rt.alloc();
    let mut sim = core_of(&rt, alloc, 2)?;
    let events = [
        Event::Open { seat: 1 },
        feed(alloc, 1, b"mn\r\n")?,
        take(1),
        Event::Hand { seat: 0 },
        Event::Hand { seat: 1 },
        Event::End { seat: 1 },
    ];
    equal(&rt, sim.run(alloc, &events)?, 5);
    holds(&rt, sim.fed(0) == Some(b"mn\r\n"));
    holds(&rt, sim.fed(1) == None);
    let shown = sim.connections();
    holds(&rt, shown.len() == 1);
    let kept = &shown[0];
    equal(&rt, (kept.seat, kept.ended, kept.broken), (1, true, false));
    Ok(())
}

/// Holds with all allocations, and with any one of them refused: once a worker is made, only its
/// shard's items take memory.
#[test]
fn a_worker_takes_no_memory(rt: HostRuntime) {
    let alloc = rt.alloc();
    let (Ok((mut seats, mut shards)), Ok(hasher)) = (
        channels(alloc, ONE_CHANNEL),
        RandomState::new(&rt),
    ) else {
        return;
    };
    let Ok(shard) = Shard::new(alloc, hasher, 0, 1, BUDGET, 0, VALUE_LIMIT) else {
        return;
    };
    let Ok(mut worker) = Worker::new(alloc, shard, shards.remove(0)) else {
        return;
    };
    let seat = &mut seats[0];
    equal(&rt, worker.beside(seat), (0, 0));
    holds(&rt, !worker.ended());
}
