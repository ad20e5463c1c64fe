//! The calls that take no memory, each made after everything that it needs. The tests hold
//! whichever allocation is refused, alone or with all later ones: if something that a call needs
//! can't be made, its test ends.
ghost use Rattle.std.specs.Prelude.{◌<◌};

use crate::asserting::{equal, holds};
use crate::memory_line::MemoryLine;
use crate::sizes::ONE_CHANNEL;
use mc_command::{Command, CommandError, MetaRemoval, StoreMode, StoreRequest};
use mc_conn::{Conn, Taken};
use mc_item::{Answer, Expiry, Item, Kind, Op, PackedExpiry, Value, expiry};
use mc_reader::{Next, Reader};
use mc_reply::{ServerStats, Ticket};
use mc_ring::{Reply, Request, SeatEnds, ShardEnds, channels};
use mc_sizes::Sizes;
use mc_split::Piece;
use mc_store::Shard;
use mc_transport::Transport;
use mc_wire::{
    DEFAULT_LINE_LIMIT, DEFAULT_VALUE_LIMIT, Key, WireError, key_fault, number_i64, number_u64,
    words,
};
use std::alloc::{AllocError, Global};
use std::hash::RandomState;
use std::process::Abort;

static LONG: [u8; DEFAULT_LINE_LIMIT] = [b'x'; DEFAULT_LINE_LIMIT];

/// One channel, with rings of three places.
const THREE_PLACES: Sizes = Sizes {
    ring: 3,
    ..ONE_CHANNEL
};

/// A key that takes memory.
const LONG_KEY: &[u8] = b"aaaaaaaaaaaaaaaaaaaaaaaaaaaaaaaaaaaaaaa";

fn key_of(alloc: Global) -> Result<Key, AllocError> {
    Key::from_word(alloc, LONG_KEY).map_err(|_| AllocError)
}

/// The value `17`.
fn value_of(alloc: Global) -> Result<Value, AllocError> {
    let bytes = Vec::from_slice(alloc, b"17")?;
    if bytes.len() > DEFAULT_VALUE_LIMIT {
        return Err(AllocError);
    }
    Value::new(bytes).map_err(|_| AllocError)
}

fn item_of(alloc: Global) -> Result<Item, AllocError> {
    Ok(Item {
        value: value_of(alloc)?,
        flags: 0,
        expiry: PackedExpiry::from_exptime(10, 1_000),
        unique: 1,
        last_access: 1_000,
        fetched: false,
        stale: false,
        sent: false,
    })
}

/// With ample memory everything that these tests need is made: none of them ends before its calls.
#[test]
fn what_is_needed_is_made(rt: HostRuntime) {
    let alloc = rt.alloc();
    holds(&rt, key_of(alloc).is_ok() && item_of(alloc).is_ok());
    holds(&rt, set(alloc).is_ok() && invalidation(alloc).is_ok());
    holds(&rt, Reader::new(alloc, DEFAULT_VALUE_LIMIT).is_ok());
    holds(&rt, holding(&rt, alloc).is_ok());
    holds(&rt, channels(alloc, THREE_PLACES).is_ok());
    holds(&rt, Conn::new(alloc, 2, DEFAULT_VALUE_LIMIT, 4).is_ok());
}

#[test]
fn words_numbers_and_items(rt: HostRuntime) {
    let alloc = rt.alloc();
    let (Ok(key), Ok(item), Ok(mut line)) = (
        key_of(alloc),
        item_of(alloc),
        MemoryLine::new(alloc, b""),
    ) else {
        return;
    };
    let mut walk = words(b" a  bc ");
    equal(&rt, walk.next(), Some(b"a".as_slice()));
    equal(&rt, walk.text(), b" bc ".as_slice());
    equal(&rt, walk.next(), Some(b"bc".as_slice()));
    equal(&rt, walk.next(), None);
    equal(&rt, key_fault(b"a b"), Some(WireError::KeyByte));
    equal(&rt, number_u64(b"18446744073709551615"), Ok(u64::MAX));
    equal(&rt, number_i64(b"-17"), Ok(-17));
    equal(&rt, key.bytes(), LONG_KEY);
    holds(&rt, key.place(16) < 16);
    equal(&rt, expiry(10, 1_000), Expiry::At(1_010));
    holds(&rt, !item.is_dead(1_009));
    holds(&rt, item.is_dead(1_010));
    equal(&rt, item.number(), Some(17));
    holds(&rt, Answer::Stored.is_lawful(Kind::Store));
    holds(&rt, line.write_if_ready(b"abc", &()).is_ok());
    equal(&rt, line.output.as_slice(), b"abc".as_slice());
}

/// The name of a result of a stream.
fn name_of(next: &Next) -> &'static str {
    match next {
        Next::Command(Command::MetaNoop) => "mn",
        Next::Command(Command::Version(_)) => "version",
        Next::Command(Command::Verbosity { .. }) => "verbosity",
        Next::Command(Command::Quit) => "quit",
        Next::Command(Command::Refused(CommandError::Unknown)) => "unknown",
        Next::Command(Command::Refused(CommandError::LineTooLong)) => "too long",
        Next::Command(_) => "another",
        Next::NeedMore => "more",
        Next::Closed => "closed",
    }
}

/// The name of a stream's next item.
fn next(alloc: Global, reader: &mut Reader) -> &'static str {
    name_of(&reader.next(alloc))
}

/// Feeds the bytes, all of which are taken, and asserts the next item.
fn reads(rt: &impl Abort, alloc: Global, reader: &mut Reader, bytes: &[u8], names: &[&str]) {
    equal(rt, reader.feed(bytes), bytes.len());
    for name in names {
        equal(rt, next(alloc, reader), *name);
    }
}

#[test]
fn lines_without_a_key_and_skipped_blocks(rt: HostRuntime) {
    let alloc = rt.alloc();
    let Ok(mut reader) = Reader::new(alloc, DEFAULT_VALUE_LIMIT) else {
        return;
    };
    let lines = b"mn\r\nversion\r\nverbosity 1\r\nstats\r\n";
    let names = ["mn", "version", "verbosity", "unknown", "more"];
    reads(&rt, alloc, &mut reader, lines, &names);
    // A line that is refused, with a block longer than the value limit.
    reads(&rt, alloc, &mut reader, b"set a 0 0 65536 x\r\n", &["more"]);
    holds(&rt, reader.is_skipping());
    reads(&rt, alloc, &mut reader, &LONG, &["more"]);
    holds(&rt, reader.held() <= DEFAULT_LINE_LIMIT);
    reads(&rt, alloc, &mut reader, b"\r\nmn\r\n", &["another"]);
    holds(&rt, reader.whole());
    reads(
        &rt,
        alloc,
        &mut reader,
        b"quit\r\n",
        &["mn", "quit", "closed"],
    );
    reader.reset();
    reads(&rt, alloc, &mut reader, &LONG, &["too long", "closed"]);
    reader.reset();
    reader.end();
    equal(&rt, reader.feed(b"mn\r\n"), 0);
    equal(&rt, next(alloc, &mut reader), "closed");
}

/// Runs the operation on the shard, and asserts the name of its answer.
fn asks(rt: &impl Abort, alloc: Global, shard: &mut Shard, op: Op, name: &str) {
    let found = match &shard.run(alloc, op, 1_000) {
        Answer::Stored => "stored",
        Answer::Touched => "touched",
        Answer::Deleted => "deleted",
        Answer::Done => "done",
        _ => "another",
    };
    equal(rt, found, name);
}

/// A set of `17` under the key `a`.
fn set(alloc: Global) -> Result<Op, AllocError> {
    Ok(Op::Store(StoreRequest {
        key: key_of(alloc)?,
        mode: StoreMode::Set,
        compare: None,
        unique: None,
        flags: 0,
        exptime: 0,
        value: value_of(alloc)?,
    }))
}

/// A shard that holds the key `a`.
fn holding(rt: &HostRuntime, alloc: Global) -> Result<Shard, AllocError> {
    let Ok(hasher) = RandomState::new(rt) else {
        return Err(AllocError);
    };
    let Ok(mut shard) = Shard::new(alloc, hasher, 0, 1, 1_024, 0, DEFAULT_VALUE_LIMIT) else {
        return Err(AllocError);
    };
    match shard.run(alloc, set(alloc)?, 1_000) {
        Answer::Stored => Ok(shard),
        _ => Err(AllocError),
    }
}

/// `md` of the key `a`, which marks the item stale.
fn invalidation(alloc: Global) -> Result<Op, AllocError> {
    Ok(Op::MetaDelete(MetaRemoval {
        key: key_of(alloc)?,
        compare: None,
        unique: None,
        invalidate: true,
        exptime: None,
    }))
}

#[test]
fn operations_on_a_present_key(rt: HostRuntime) {
    let alloc = rt.alloc();
    let (Ok(mut shard), Ok(stored), Ok(stale), Ok(touched), Ok(deleted)) = (
        holding(&rt, alloc),
        set(alloc),
        invalidation(alloc),
        key_of(alloc),
        key_of(alloc),
    ) else {
        return;
    };
    asks(&rt, alloc, &mut shard, stored, "stored");
    asks(&rt, alloc, &mut shard, stale, "done");
    let touch = Op::Touch {
        key: touched,
        exptime: 10,
    };
    asks(&rt, alloc, &mut shard, touch, "touched");
    asks(
        &rt,
        alloc,
        &mut shard,
        Op::Delete { key: deleted },
        "deleted",
    );
    equal(&rt, shard.len(), 0);
    asks(&rt, alloc, &mut shard, Op::Flush { delay: 0 }, "done");
    equal(&rt, shard.now(), 1_000);
}

fn piece(ticket: u64) -> Piece {
    Piece {
        ticket: Ticket(ticket),
        part: 0,
        op: Op::Flush { delay: 0 },
        moment: 1_000,
    }
}

/// Whether the first shard's ring accepts the parcel.
fn is_sent(seat: &mut SeatEnds, request: Request) -> bool {
    seat.shards() > 0 && seat.send(0, request).is_ok()
}

/// The first slot's next parcel.
fn taken(shard: &mut ShardEnds) -> Option<Request> {
    if shard.seats() == 0 {
        return None;
    }
    shard.take(0)
}

/// Whether the first slot's ring accepts a reply to this ticket.
fn is_given(shard: &mut ShardEnds, ticket: u64) -> bool {
    if shard.seats() == 0 || !Answer::Done.is_lawful(Kind::Flush) {
        return false;
    }
    let reply = Reply::new(Ticket(ticket), 0, Kind::Flush, Answer::Done);
    shard.give(0, reply).is_ok()
}

/// The ticket of the first shard's next reply.
fn received(seat: &mut SeatEnds) -> Option<u64> {
    if seat.shards() == 0 {
        return None;
    }
    Some(seat.receive(0)?.ticket.0)
}

#[test]
fn rings_that_have_room(rt: HostRuntime) {
    let Ok((mut seats, mut shards)) = channels(rt.alloc(), THREE_PLACES) else {
        return;
    };
    let (Some(mut seat), Some(mut shard)) = (seats.pop(), shards.pop()) else {
        return;
    };
    holds(&rt, is_sent(&mut seat, Request::Piece(piece(0))));
    holds(&rt, is_sent(&mut seat, Request::Piece(piece(1))));
    holds(&rt, is_sent(&mut seat, Request::End));
    for ticket in 0..2 {
        holds(&rt, matches!(taken(&mut shard), Some(Request::Piece(_))));
        holds(&rt, is_given(&mut shard, ticket));
        equal(&rt, received(&mut seat), Some(ticket));
    }
    holds(&rt, matches!(taken(&mut shard), Some(Request::End)));
}

/// Misses the next piece of the connection, which is put back once.
fn misses(rt: &impl Abort, conn: &mut Conn) {
    let Some((shard, piece)) = conn.next_piece() else {
        assert!(rt; false, "there is a piece");
        return;
    };
    conn.not_sent(shard, piece);
    let Some((_, piece)) = conn.next_piece() else {
        assert!(rt; false, "it was put back");
        return;
    };
    holds(rt, Answer::Miss.is_lawful(Kind::Fetch));
    let reply = Reply::new(piece.ticket, piece.part, Kind::Fetch, Answer::Miss);
    holds(rt, conn.accept(reply).is_ok());
}

#[test]
fn a_connection_whose_commands_are_taken(rt: HostRuntime) {
    let alloc = rt.alloc();
    let (Ok(mut conn), Ok(mut line)) = (
        Conn::new(alloc, 2, DEFAULT_VALUE_LIMIT, 4),
        MemoryLine::new(alloc, b""),
    ) else {
        return;
    };
    let bytes =
        b"get aaaaaaaaaaaaaaaaaaaaaaaaaaaaaaaaaaaaaaa bbbbbbbbbbbbbbbbbbbbbbbbbbbbbbbbbbbbbbb\r\nmn\r\n";
    equal(&rt, conn.feed(bytes), bytes.len());
    holds(
        &rt,
        matches!(
            conn.take(alloc, 1_000, &ServerStats::none()),
            Taken::Opened(_)
        ),
    );
    if conn.passes() > 0 {
        // The get found no memory.
        return;
    }
    misses(&rt, &mut conn);
    misses(&rt, &mut conn);
    holds(&rt, conn.next_piece().is_none());
    holds(&rt, conn.whole());
    holds(
        &rt,
        matches!(
            conn.take(alloc, 1_000, &ServerStats::none()),
            Taken::Opened(_)
        ),
    );
    equal(&rt, conn.ready(), 9);
    equal(&rt, conn.hand(&mut line), Ok(2));
    equal(&rt, line.output.as_slice(), b"END\r\nMN\r\n".as_slice());
    holds(&rt, conn.is_at_rest());
    conn.end();
    holds(&rt, conn.renew());
    equal(&rt, conn.feed(b"mn\r\n"), 4);
    conn.broken();
    equal(&rt, conn.hand(&mut line), Ok(0));
    holds(&rt, conn.is_at_rest());
    holds(&rt, conn.renew());
}
