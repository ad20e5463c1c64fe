//! Tests of whole conversations: commands in, pieces out, answers in any order, and failing
//! sinks. They cover what no contract states: that calls succeed with ample memory, and the
//! texts.
ghost use Rattle.std.specs.Prelude.{◌<◌};

use crate::asserting::{equal, holds};
use crate::sink::{MemorySink, sink, sink_over};
use crate::unexpected_reply::unexpected_reply_of;
use mc_command::Rules;
use mc_conn::{Conn, Taken};
use mc_item::{Answer, Kind};
use mc_reply::{ServerStats, Ticket};
use mc_ring::Reply;
use mc_split::Piece;
use mc_wire::DEFAULT_VALUE_LIMIT;
use std::alloc::Global;
use std::process::Abort;
use std::test::Fail;

static LONG: [u8; 65_536] = [b'x'; 65_536];

const CONVERSATION: &[u8] =
    b"set a 0 0 1\r\nx\r\nget a b\r\nstats\r\nset b 0 0 1 noreply\r\ny\r\nflush_all\r\ndelete c\r\nmn\r\nquit\r\nmn\r\n";

const REPLIES: &[u8] = b"STORED\r\nEND\r\nERROR\r\nOK\r\nNOT_FOUND\r\nMN\r\n";

/// A connection over two shards with this window, and this input.
fn fed(rt: &impl Abort, alloc: Global, window: usize, bytes: &[u8]) -> Result<Conn, Fail>
    requires { 0 < window }
{
    let mut conn = Conn::new(alloc, 2, DEFAULT_VALUE_LIMIT, window)?;
    feeds(rt, &mut conn, bytes, bytes.len());
    Ok(conn)
}

/// Asserts that the first `count` bytes are taken.
fn feeds(rt: &impl Abort, conn: &mut Conn, bytes: &[u8], count: usize) {
    equal(rt, conn.feed(bytes), count);
}

/// Asserts the result of parsing the next command.
fn takes(rt: &impl Abort, alloc: Global, conn: &mut Conn, want: Taken) {
    equal(rt, conn.take(alloc, 1000, &ServerStats::none()), want);
}

/// Asserts that a reply is accepted.
fn accepts(rt: &impl Abort, conn: &mut Conn, reply: Reply) {
    equal(rt, unexpected_reply_of(conn.accept(reply)), None);
}

/// Asserts that the replies of `count` commands are written.
fn hands(rt: &impl Abort, conn: &mut Conn, out: &mut MemorySink, count: u64) {
    holds(rt, conn.hand(out) == Ok(count));
}

/// Asserts whether the connection is at rest, and can therefore be reused.
fn renews(rt: &impl Abort, conn: &mut Conn, is_at_rest: bool) {
    equal(rt, conn.is_at_rest(), is_at_rest);
    equal(rt, conn.renew(), is_at_rest);
}

fn reply(rt: &impl Abort, ticket: u64, part: usize, kind: Kind, answer: Answer) -> Reply {
    holds(rt, answer.is_lawful(kind));
    Reply::new(Ticket(ticket), part, kind, answer)
}

/// The answer of a shard that stores everything and finds nothing.
fn answer(rt: &impl Abort, piece: &Piece) -> Reply {
    let kind = piece.op.kind();
    let answer = match kind {
        Kind::Store => Answer::Stored,
        Kind::Fetch => Answer::Miss,
        Kind::Flush => Answer::Done,
        _ => Answer::NotFound,
    };
    reply(rt, piece.ticket.0, piece.part, kind, answer)
}

/// Parses commands until none is opened.
fn take_all(alloc: Global, conn: &mut Conn) -> Taken {
    for _ in 0..CONVERSATION.len() {
        let taken = conn.take(alloc, 1000, &ServerStats::none());
        if !matches!(taken, Taken::Opened(_)) {
            return taken;
        }
    }
    Taken::Full
}

/// Answers all pieces.
fn answer_all(rt: &impl Abort, conn: &mut Conn) {
    for _ in 0..CONVERSATION.len() {
        let Some((_, piece)) = conn.next_piece() else {
            return;
        };
        accepts(rt, conn, answer(rt, &piece));
    }
}

/// Parses, answers and writes until no command is complete.
fn serve(rt: &impl Abort, alloc: Global, conn: &mut Conn, out: &mut MemorySink) -> Taken {
    for _ in 0..CONVERSATION.len() {
        let taken = take_all(alloc, conn);
        answer_all(rt, conn);
        holds(rt, conn.hand(out).is_ok());
        if taken != Taken::Full {
            return taken;
        }
    }
    Taken::Full
}

/// Serves the conversation with this window, cut into pieces of this size.
fn converses(rt: &impl Abort, alloc: Global, window: usize, size: usize) -> Result<(), Fail>
    requires window { 0 < window }
    requires size { 0 < size }
{
    let mut conn = fed(rt, alloc, window, b"")?;
    let mut out = sink(alloc, usize::MAX);
    let mut taken = Taken::NeedMore;
    for piece in CONVERSATION.chunks(size) {
        feeds(rt, &mut conn, piece, piece.len());
        taken = serve(rt, alloc, &mut conn, &mut out);
    }
    equal(rt, taken, Taken::Closed);
    equal(rt, out.taken.as_slice(), REPLIES);
    renews(rt, &mut conn, true);
    Ok(())
}

#[test]
fn a_conversation_in_pieces_with_windows(rt: HostRuntime) -> Result<(), Fail> {
    let alloc = rt.alloc();
    for window in [1usize, 2, 256] {
        converses(&rt, alloc, window.max(1), 1)?;
        converses(&rt, alloc, window.max(1), 16)?;
        converses(&rt, alloc, window.max(1), CONVERSATION.len().max(1))?;
    }
    Ok(())
}

/// The first command, a silent one and the last one are answered in this order, by index; a refusal
/// follows the first.
fn answers_in_order(rt: &impl Abort, alloc: Global, order: [u64; 3]) -> Result<(), Fail> {
    let mut conn = fed(
        rt,
        alloc,
        4,
        b"touch a 0\r\nstats\r\ndelete b noreply\r\ntouch c 0\r\n",
    )?;
    let mut out = sink(alloc, usize::MAX);
    equal(rt, take_all(alloc, &mut conn), Taken::Full);
    let mut answered = [false; 4];
    for ticket in order {
        let kind = if ticket == 2 {
            Kind::Delete
        } else {
            Kind::Touch
        };
        accepts(rt, &mut conn, reply(rt, ticket, 0, kind, Answer::NotFound));
        answered = [
            answered[0] || ticket == 0,
            true,
            answered[2] || ticket == 2,
            answered[3] || ticket == 3,
        ];
        let ready = conn.ready();
        let before = out.taken.len() as u64;
        holds(rt, conn.hand(&mut out).is_ok());
        equal(rt, out.taken.len() as u64, before.saturating_add(ready));
        let text: &[u8] = match answered {
            [false, ..] => b"",
            [true, _, false, _] | [true, _, _, false] => b"NOT_FOUND\r\nERROR\r\n",
            [true, _, true, true] => b"NOT_FOUND\r\nERROR\r\nNOT_FOUND\r\n",
        };
        equal(rt, out.taken.as_slice(), text);
    }
    holds(rt, !conn.is_at_rest());
    Ok(())
}

#[test]
fn answers_come_in_every_order(rt: HostRuntime) -> Result<(), Fail> {
    let alloc = rt.alloc();
    for order in [
        [0, 2, 3],
        [0, 3, 2],
        [2, 0, 3],
        [2, 3, 0],
        [3, 0, 2],
        [3, 2, 0],
    ] {
        answers_in_order(&rt, alloc, order)?;
    }
    Ok(())
}

#[test]
fn the_last_command_closes_a_full_window(rt: HostRuntime) -> Result<(), Fail> {
    let alloc = rt.alloc();
    let mut out = sink(alloc, usize::MAX);
    let mut conn = fed(&rt, alloc, 1, b"mn\r\nquit\r\nmn\r\n")?;
    takes(&rt, alloc, &mut conn, Taken::Opened(Ticket(0)));
    takes(&rt, alloc, &mut conn, Taken::Full);
    hands(&rt, &mut conn, &mut out, 1);
    takes(&rt, alloc, &mut conn, Taken::Opened(Ticket(1)));
    takes(&rt, alloc, &mut conn, Taken::Closed);
    renews(&rt, &mut conn, false);
    hands(&rt, &mut conn, &mut out, 1);
    renews(&rt, &mut conn, true);
    feeds(&rt, &mut conn, b"mn\r\n", 4);
    takes(&rt, alloc, &mut conn, Taken::Opened(Ticket(0)));
    feeds(&rt, &mut conn, &LONG, 65_536);
    equal(&rt, conn.held(), 65_536);
    takes(&rt, alloc, &mut conn, Taken::Full);
    hands(&rt, &mut conn, &mut out, 1);
    takes(&rt, alloc, &mut conn, Taken::Opened(Ticket(1)));
    takes(&rt, alloc, &mut conn, Taken::Closed);
    hands(&rt, &mut conn, &mut out, 1);
    equal(
        &rt,
        out.taken.as_slice(),
        b"MN\r\nMN\r\nCLIENT_ERROR line too long\r\n".as_slice(),
    );
    Ok(())
}

/// Bytes of a line are taken up to the line limit, then it is refused.
#[test]
fn a_line_limit_of_2048(rt: HostRuntime) -> Result<(), Fail> {
    let alloc = rt.alloc();
    let mut out = sink(alloc, usize::MAX);
    let rules = Rules {
        line_limit: 2_048,
        ..Rules::own(DEFAULT_VALUE_LIMIT)
    };
    let mut conn = Conn::under(alloc, 2, rules, 4)?;
    feeds(&rt, &mut conn, &LONG, 2_048);
    equal(&rt, conn.held(), 2_048);
    takes(&rt, alloc, &mut conn, Taken::Opened(Ticket(0)));
    takes(&rt, alloc, &mut conn, Taken::Closed);
    feeds(&rt, &mut conn, &LONG, 65_536);
    hands(&rt, &mut conn, &mut out, 1);
    equal(
        &rt,
        out.taken.as_slice(),
        b"CLIENT_ERROR line too long\r\n".as_slice(),
    );
    Ok(())
}

/// The sink fails after `left` bytes.
fn fails_after(rt: &impl Abort, alloc: Global, left: usize) -> Result<(), Fail> {
    let text = b"END\r\nMN\r\n".as_slice();
    let mut conn = fed(rt, alloc, 4, b"get a\r\nmn\r\n")?;
    let mut out = sink(alloc, left);
    equal(rt, take_all(alloc, &mut conn), Taken::NeedMore);
    answer_all(rt, &mut conn);
    holds(rt, conn.hand(&mut out).is_err());
    let (front, _) = text.split_at(left.min(text.len()));
    equal(rt, out.taken.as_slice(), front);
    equal(rt, conn.ready(), 0);
    hands(rt, &mut conn, &mut out, 0);
    feeds(rt, &mut conn, b"mn\r\n", 0);
    takes(rt, alloc, &mut conn, Taken::Closed);
    renews(rt, &mut conn, true);
    Ok(())
}

#[test]
fn a_sink_fails_at_every_byte(rt: HostRuntime) -> Result<(), Fail> {
    let alloc = rt.alloc();
    for left in 0..9usize {
        fails_after(&rt, alloc, left)?;
    }
    Ok(())
}

#[test]
fn a_broken_connection_still_answers_its_pieces(rt: HostRuntime) -> Result<(), Fail> {
    let alloc = rt.alloc();
    let mut out = sink(alloc, usize::MAX);
    let mut conn = fed(&rt, alloc, 4, b"get a b\r\nget c\r\n")?;
    equal(&rt, take_all(alloc, &mut conn), Taken::NeedMore);
    let Some((shard, piece)) = conn.next_piece() else {
        return Err(Fail::from("no piece"));
    };
    conn.not_sent(shard, piece);
    conn.broken();
    renews(&rt, &mut conn, false);
    answer_all(&rt, &mut conn);
    hands(&rt, &mut conn, &mut out, 0);
    renews(&rt, &mut conn, true);
    feeds(&rt, &mut conn, b"get", 3);
    holds(&rt, !conn.whole());
    takes(&rt, alloc, &mut conn, Taken::NeedMore);
    equal(&rt, conn.held(), 3);
    feeds(&rt, &mut conn, b" d\r\n", 4);
    holds(&rt, conn.whole());
    conn.end();
    equal(&rt, serve(&rt, alloc, &mut conn, &mut out), Taken::Closed);
    equal(&rt, out.taken.as_slice(), b"END\r\n".as_slice());
    Ok(())
}

/// Asserts that a reply is returned unchanged.
fn is_unexpected_reply(
    rt: &impl Abort,
    conn: &mut Conn,
    ticket: u64,
    part: usize,
    kind: Kind,
    answer: Answer,
) {
    let unexpected_reply = unexpected_reply_of(conn.accept(reply(rt, ticket, part, kind, answer)));
    equal(rt, unexpected_reply, Some((Ticket(ticket), part, kind)));
}

#[test]
fn strangers_are_handed_back(rt: HostRuntime) -> Result<(), Fail> {
    let alloc = rt.alloc();
    let mut out = sink(alloc, usize::MAX);
    let mut conn = fed(&rt, alloc, 2, b"get a b\r\n")?;
    is_unexpected_reply(&rt, &mut conn, 0, 0, Kind::Fetch, Answer::Miss);
    takes(&rt, alloc, &mut conn, Taken::Opened(Ticket(0)));
    is_unexpected_reply(&rt, &mut conn, 1, 0, Kind::Fetch, Answer::Miss);
    is_unexpected_reply(&rt, &mut conn, 0, 2, Kind::Fetch, Answer::Miss);
    is_unexpected_reply(&rt, &mut conn, 0, 0, Kind::Touch, Answer::NotFound);
    let second = reply(&rt, 0, 1, Kind::Fetch, Answer::Miss);
    accepts(&rt, &mut conn, second);
    is_unexpected_reply(&rt, &mut conn, 0, 1, Kind::Fetch, Answer::NoMemory);
    let first = reply(&rt, 0, 0, Kind::Fetch, Answer::Miss);
    accepts(&rt, &mut conn, first);
    hands(&rt, &mut conn, &mut out, 1);
    is_unexpected_reply(&rt, &mut conn, 0, 0, Kind::Fetch, Answer::Miss);
    equal(&rt, out.taken.as_slice(), b"END\r\n".as_slice());
    Ok(())
}

/// Passes whichever single allocation is refused. Keys are long enough to need an allocation: those
/// of at most 38 bytes don't.
#[test]
fn a_refused_allocation_gives_up_one_command(rt: HostRuntime) {
    let alloc = rt.alloc();
    let Ok(taken) = Vec::with_capacity(alloc, 64) else {
        return;
    };
    let mut out = sink_over(taken, 64);
    let Ok(mut conn) = Conn::new(alloc, 2, DEFAULT_VALUE_LIMIT, 4) else {
        return;
    };
    let bytes = b"\
        get a:key:of:39:bytes:lies:in:its:own:block b:key:of:39:bytes:lies:in:its:own:block\r\n\
        set c:key:of:39:bytes:lies:in:its:own:block 0 0 4\r\nmn\r\n\r\n\
        mn\r\n";
    equal(&rt, conn.feed(bytes), bytes.len());
    equal(&rt, take_all(alloc, &mut conn), Taken::NeedMore);
    answer_all(&rt, &mut conn);
    holds(&rt, conn.hand(&mut out).is_ok());
    let text = out.taken.as_slice();
    holds(
        &rt,
        text == b"END\r\nSTORED\r\nMN\r\n".as_slice()
            || text == b"SERVER_ERROR out of memory\r\nSTORED\r\nMN\r\n".as_slice()
            || text == b"END\r\nSERVER_ERROR out of memory\r\nMN\r\n".as_slice(),
    );
    holds(&rt, conn.is_at_rest());
}
