//! A worker between two slots, on rings of one place.
ghost use Rattle.mc_ring.specs.Ends.{AreSameEnds};

use crate::asserting::{equal, holds};
use crate::sizes::{ONE_CHANNEL, SMALL};
use mc_item::Op;
use mc_reply::Ticket;
use mc_ring::{Request, SeatEnds, channels};
use mc_sizes::Sizes;
use mc_split::Piece;
use mc_store::Shard;
use mc_worker::{Gate, OpenGate, Served, Turn, Worker};
use std::alloc::Global;
use std::cell::Cell;
use std::hash::RandomState;
use std::test::Fail;

/// The time of all pieces.
const MOMENT: u64 = 1000;

/// The budget of the shard, in bytes.
const BUDGET: usize = 65_536;

/// The maximum size of a value, in bytes.
const VALUE_LIMIT: usize = 1_024;

/// A piece of the command of this number.
fn piece(number: u64) -> Request {
    Request::Piece(Piece {
        ticket: Ticket(number),
        part: 0,
        op: Op::Flush { delay: 0 },
        moment: MOMENT,
    })
}

/// The result of a turn that ran the piece.
fn ran(number: u64) -> Option<Turn> {
    Some(Turn::Ran {
        ticket: Ticket(number),
        part: 0,
        moment: MOMENT,
    })
}

/// A turn for a slot, if it exists.
fn turn(alloc: Global, worker: &mut Worker, seat: usize) -> Option<Turn>
    ensures { AreSameEnds worker.old.ends worker.new.ends }
{
    if seat < worker.seats() {
        Some(worker.turn(alloc, seat, &OpenGate))
    } else {
        None
    }
}

/// Turns for a slot, if it exists and each slot has a mark.
fn serve(alloc: Global, worker: &mut Worker, seat: usize, given: &mut [bool]) -> Option<Served> {
    if seat < worker.seats() && given.len() == worker.seats() {
        Some(worker.serve(alloc, seat, &OpenGate, given))
    } else {
        None
    }
}

/// Sends a parcel to the last shard. Returns whether it was sent.
fn sends(seat: &mut SeatEnds, request: Request) -> bool
    ensures { AreSameEnds seat.old seat.new }
{
    let shards = seat.shards();
    0 < shards && seat.send(shards - 1, request).is_ok()
}

/// The command number of the last shard's next reply.
fn receives(seat: &mut SeatEnds) -> Option<u64> {
    let shards = seat.shards();
    if shards == 0 {
        return None;
    }
    seat.receive(shards - 1).map(|reply| reply.ticket.0)
}

/// Both slots, and the worker of the second of two shards.
fn two_seats(alloc: Global, hasher: RandomState) -> Result<(SeatEnds, SeatEnds, Worker), Fail> {
    let sizes = Sizes { ring: 1, ..SMALL };
    let (mut seats, mut shards) = channels(alloc, sizes)?;
    let shard = Shard::new(alloc, hasher, 1, 2, BUDGET, 0, VALUE_LIMIT)?;
    let worker = Worker::new(alloc, shard, shards.remove(1))?;
    let second = seats.remove(1);
    let first = seats.remove(0);
    Ok((first, second, worker))
}

#[test]
fn a_full_ring_holds_the_worker_up(rt: HostRuntime) -> Result<(), Fail> {
    let alloc = rt.alloc();
    let (mut first, mut second, mut worker) = two_seats(alloc, RandomState::new(&rt)?)?;
    equal(&rt, turn(alloc, &mut worker, 0), Some(Turn::Nothing));
    holds(&rt, sends(&mut first, piece(0)));
    equal(&rt, turn(alloc, &mut worker, 0), ran(0));
    holds(&rt, sends(&mut first, piece(1)));
    holds(&rt, sends(&mut second, piece(0)));
    equal(&rt, turn(alloc, &mut worker, 1), Some(Turn::Gave));
    equal(&rt, turn(alloc, &mut worker, 0), ran(1));
    equal(&rt, turn(alloc, &mut worker, 0), Some(Turn::Blocked));
    equal(&rt, turn(alloc, &mut worker, 1), Some(Turn::Blocked));
    equal(&rt, receives(&mut first), Some(0));
    equal(&rt, turn(alloc, &mut worker, 1), Some(Turn::Gave));
    equal(&rt, receives(&mut first), Some(1));
    equal(&rt, turn(alloc, &mut worker, 1), ran(0));
    Ok(())
}

#[test]
fn it_has_ended_when_every_channel_has(rt: HostRuntime) -> Result<(), Fail> {
    let alloc = rt.alloc();
    let (mut first, mut second, mut worker) = two_seats(alloc, RandomState::new(&rt)?)?;
    holds(&rt, sends(&mut second, Request::End));
    equal(&rt, turn(alloc, &mut worker, 1), Some(Turn::Ended));
    equal(&rt, turn(alloc, &mut worker, 1), Some(Turn::Nothing));
    holds(&rt, !worker.ended());
    holds(&rt, sends(&mut first, Request::End));
    equal(&rt, turn(alloc, &mut worker, 0), Some(Turn::Ended));
    holds(&rt, worker.ended());
    Ok(())
}

#[test]
fn a_seat_is_served_until_nothing_waits(rt: HostRuntime) -> Result<(), Fail> {
    let alloc = rt.alloc();
    let (mut first, mut second, mut worker) = two_seats(alloc, RandomState::new(&rt)?)?;
    let mut given = [false, false];
    equal(
        &rt,
        serve(alloc, &mut worker, 1, &mut given),
        Some(Served::Nothing),
    );
    holds(&rt, sends(&mut second, piece(4)));
    equal(
        &rt,
        serve(alloc, &mut worker, 1, &mut given),
        Some(Served::All),
    );
    equal(&rt, given, [false, true]);
    holds(&rt, sends(&mut first, piece(7)));
    equal(
        &rt,
        serve(alloc, &mut worker, 0, &mut given),
        Some(Served::All),
    );
    equal(&rt, given, [true, true]);
    equal(
        &rt,
        (receives(&mut first), receives(&mut second)),
        (Some(7), Some(4)),
    );
    equal(
        &rt,
        serve(alloc, &mut worker, 0, &mut given),
        Some(Served::Nothing),
    );
    Ok(())
}

#[test]
fn what_waits_for_a_worker_is_counted(rt: HostRuntime) -> Result<(), Fail> {
    let alloc = rt.alloc();
    let (mut seats, mut shards) = channels(alloc, ONE_CHANNEL)?;
    let shard = Shard::new(alloc, RandomState::new(&rt)?, 0, 1, BUDGET, 0, VALUE_LIMIT)?;
    let mut worker = Worker::new(alloc, shard, shards.remove(0))?;
    let seat = &mut seats[0];
    equal(&rt, worker.beside(seat), (0, 0));
    holds(&rt, sends(seat, piece(7)));
    equal(&rt, worker.beside(seat), (1, 0));
    equal(&rt, turn(alloc, &mut worker, 0), ran(7));
    equal(&rt, turn(alloc, &mut worker, 0), Some(Turn::Gave));
    equal(&rt, worker.beside(seat), (0, 1));
    Ok(())
}

/// A gate that records its calls: each time the shard's number and the command's, as four digits.
#[derive(Drop)]
struct Recording(Cell<u64>);

impl Gate for Recording {
    fn before(&self, shard: usize, ticket: Ticket) {
        let call = (shard as u64).wrapping_mul(100).wrapping_add(ticket.0);
        self.0
            .set(self.0.get().wrapping_mul(10_000).wrapping_add(call));
    }
}

/// A turn for a slot, if it exists, through this gate.
fn turn_by(alloc: Global, worker: &mut Worker, seat: usize, gate: &Recording) -> Option<Turn> {
    if seat < worker.seats() {
        Some(worker.turn(alloc, seat, gate))
    } else {
        None
    }
}

#[test]
fn the_gate_is_asked_before_each_piece(rt: HostRuntime) -> Result<(), Fail> {
    let alloc = rt.alloc();
    let (mut first, mut second, mut worker) = two_seats(alloc, RandomState::new(&rt)?)?;
    let gate = Recording(Cell::new(7));
    equal(
        &rt,
        turn_by(alloc, &mut worker, 1, &gate),
        Some(Turn::Nothing),
    );
    equal(&rt, gate.0.get(), 7);
    holds(&rt, sends(&mut second, piece(5)));
    holds(&rt, sends(&mut first, piece(6)));
    equal(&rt, turn_by(alloc, &mut worker, 1, &gate), ran(5));
    equal(&rt, gate.0.get(), 7_0105);
    // Its reply is given, for which the gate isn't called.
    equal(&rt, turn_by(alloc, &mut worker, 0, &gate), Some(Turn::Gave));
    equal(&rt, gate.0.get(), 7_0105);
    equal(&rt, turn_by(alloc, &mut worker, 0, &gate), ran(6));
    equal(&rt, gate.0.get(), 7_0105_0106);
    holds(&rt, sends(&mut second, Request::End));
    equal(&rt, turn_by(alloc, &mut worker, 1, &gate), Some(Turn::Gave));
    equal(
        &rt,
        turn_by(alloc, &mut worker, 1, &gate),
        Some(Turn::Ended),
    );
    equal(&rt, gate.0.get(), 7_0105_0106);
    Ok(())
}
