//! Channels: they are made, filled, emptied and inspected; and a reply is made.
ghost use Rattle.std.specs.Prelude.{◌<◌, length};
ghost use Rattle.mc_ring.specs.Ends.{AreSameEnds};

use crate::asserting::{equal, holds};
use mc_command::Profile;
use mc_item::{Answer, Kind, Op};
use mc_reply::Ticket;
use mc_ring::{Reply, Request, RingError, SeatEnds, ShardEnds, beside, channels};
use mc_sizes::Sizes;
use mc_split::Piece;
use std::test::Fail;

/// Two slots, three shards, and rings of capacity 1.
const SIZES: Sizes = Sizes {
    profile: Profile::Own,
    seats: 2,
    shards: 3,
    bytes: 65_536,
    ring: 1,
    value: 1_048_576,
    line: 65_536,
    window: 256,
    shutdown: false,
};

/// A piece of command number `number`.
fn piece(number: u64) -> Request {
    Request::Piece(Piece {
        ticket: Ticket(number),
        part: 0,
        op: Op::Flush { delay: 0 },
        moment: 1000,
    })
}

/// The answer to it.
#[tactic(auto, unfolding(mc_item::specs::Kind::is_lawful))]
fn reply(number: u64) -> Reply {
    Reply::new(Ticket(number), 0, Kind::Flush, Answer::Done)
}

/// The content of a request, if there is one: the number of its piece's command, or the end.
fn content(request: &Option<Request>) -> Option<Option<u64>> {
    match request {
        Some(Request::Piece(piece)) => Some(Some(piece.ticket.0)),
        Some(Request::End) => Some(None),
        None => None,
    }
}

/// The content of a request, which is dropped.
fn request_of(request: Option<Request>) -> Option<Option<u64>> {
    content(&request)
}

/// The number of a reply's command, if there is a reply.
fn number(reply: &Option<Reply>) -> Option<u64> {
    match reply {
        Some(reply) => Some(reply.ticket.0),
        None => None,
    }
}

/// The number of a reply's command; the reply is dropped.
fn reply_of(reply: Option<Reply>) -> Option<u64> {
    number(&reply)
}

#[test]
fn a_ring_of_one_holds_one_request(rt: HostRuntime) -> Result<(), Fail> {
    let (mut seats, mut shards) = channels(rt.alloc(), SIZES)?;
    let (seat, shard) = (&mut seats[1], &mut shards[2]);
    equal(&rt, request_of(shard.take(1)), None);
    equal(&rt, request_of(seat.send(2, piece(7)).err()), None);
    equal(&rt, request_of(seat.send(2, piece(8)).err()), Some(Some(8)));
    equal(&rt, request_of(shard.take(1)), Some(Some(7)));
    equal(&rt, request_of(seat.send(2, Request::End).err()), None);
    equal(&rt, request_of(shard.take(1)), Some(None));
    Ok(())
}

#[test]
fn a_ring_of_one_holds_one_reply(rt: HostRuntime) -> Result<(), Fail> {
    let (mut seats, mut shards) = channels(rt.alloc(), SIZES)?;
    let (seat, shard) = (&mut seats[1], &mut shards[2]);
    equal(&rt, reply_of(seat.receive(2)), None);
    equal(&rt, reply_of(shard.give(1, reply(7)).err()), None);
    equal(&rt, reply_of(shard.give(1, reply(8)).err()), Some(8));
    equal(&rt, reply_of(seat.receive(2)), Some(7));
    equal(&rt, reply_of(seat.receive(2)), None);
    Ok(())
}

#[test]
fn what_waits_is_seen_on_its_channel_alone(rt: HostRuntime) -> Result<(), Fail> {
    let (mut seats, mut shards) = channels(rt.alloc(), SIZES)?;
    let (seat, shard) = (&mut seats[1], &mut shards[2]);
    equal(&rt, (seat.number(), seat.shards()), (1, 3));
    equal(&rt, (shard.number(), shard.seats()), (2, 2));
    equal(&rt, request_of(seat.send(2, piece(7)).err()), None);
    holds(&rt, shard.has_request(1));
    holds(&rt, !shard.has_request(0));
    equal(&rt, reply_of(shard.give(1, reply(7)).err()), None);
    holds(&rt, seat.has_reply(2));
    holds(&rt, !seat.has_reply(0));
    Ok(())
}

/// Sends a piece of this command to the first shard. Returns whether it was sent.
fn sends(seat: &mut SeatEnds, number: u64) -> bool
    requires { 0 < length seat.old.channels }
    ensures { AreSameEnds seat.old seat.new }
{
    request_of(seat.send(0, piece(number)).err()).is_none()
}

/// Sends the reply to this piece to the first slot. Returns whether it was sent.
fn gives(shard: &mut ShardEnds, number: u64) -> bool
    requires { 0 < length shard.old.channels }
    ensures { AreSameEnds shard.old shard.new }
{
    reply_of(shard.give(0, reply(number)).err()).is_none()
}

/// Takes the first slot's next request, if there is one.
fn takes(shard: &mut ShardEnds) -> Option<Option<u64>>
    requires { 0 < length shard.old.channels }
    ensures { AreSameEnds shard.old shard.new }
{
    request_of(shard.take(0))
}

#[test]
fn what_waits_is_counted(rt: HostRuntime) -> Result<(), Fail> {
    let sizes = Sizes {
        seats: 1,
        shards: 1,
        ring: 3,
        ..SIZES
    };
    let (mut seats, mut shards) = channels(rt.alloc(), sizes)?;
    let (seat, shard) = (&mut seats[0], &mut shards[0]);
    equal(&rt, beside(seat, shard), (0, 0));
    holds(&rt, sends(seat, 0));
    holds(&rt, sends(seat, 1));
    equal(&rt, takes(shard), Some(Some(0)));
    holds(&rt, gives(shard, 0));
    equal(&rt, beside(seat, shard), (1, 1));
    Ok(())
}

/// Numbers of slots, shards and places of a ring, and whether there are channels for them.
static NUMBERS: [(usize, usize, usize, bool); 8] = [
    (0, 1, 1, false),
    (65_537, 1, 1, false),
    (1, 0, 1, false),
    (1, 65, 1, false),
    (1, 1, 0, false),
    (1, 1, 1025, false),
    (64, 64, 1, true),
    (1, 1, 1024, true),
];

#[test]
fn numbers_out_of_range_are_refused(rt: HostRuntime) {
    for (seats, shards, ring, are_made) in &NUMBERS {
        let sizes = Sizes {
            seats: *seats,
            shards: *shards,
            ring: *ring,
            ..SIZES
        };
        let refusal = channels(rt.alloc(), sizes).err();
        let want = if *are_made {
            None
        } else {
            Some(RingError::Size)
        };
        equal(&rt, refusal, want);
    }
}

#[test]
fn a_lawful_answer_makes_a_reply(rt: HostRuntime) {
    let answer = Answer::Done;
    holds(&rt, answer.is_lawful(Kind::Flush));
    let reply = Reply::new(Ticket(3), 1, Kind::Flush, answer);
    equal(&rt, reply.ticket, Ticket(3));
    equal(&rt, reply.part, 1);
    equal(&rt, reply.kind, Kind::Flush);
    holds(&rt, matches!(&reply.answer, Answer::Done));
    holds(&rt, matches!(&Request::End, Request::End));
}
