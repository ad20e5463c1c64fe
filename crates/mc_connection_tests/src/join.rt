//! Replies of a few commands, whose answers come in any order, and sinks that count or fail.
ghost use Rattle.std.specs.Prelude.{◌≡◌, ◌+◌, Some, IfOk, IfSome, OnOk, false};
ghost use Rattle.mc_wire.specs.Sink.{Listed, Unlisted, sight_out};
ghost use Rattle.mc_join.specs.Held.{opened_count};

use crate::asserting::{equal, holds};
use crate::sink::{MemorySink, sink};
use crate::unexpected_reply::unexpected_reply_of;
use mc_command::{Command, Keys, Retrieval};
use mc_item::{Answer, Kind, Value};
use mc_join::ReorderBuffer;
use mc_reply::{PendingReply, Ticket};
use mc_ring::Reply;
use mc_split::split;
use mc_wire::{Sink, SinkError, words};
use std::alloc::Global;
use std::process::Abort;
use std::test::Fail;

/// The form of a get of the keys in this text.
fn get_words(alloc: Global, ticket: Ticket, text: &[u8]) -> Result<PendingReply, Fail>
    ensures { IfOk result (λ pending_reply. pending_reply.ticket ≡ ticket) }
{
    let mut walk = words(text);
    let Some(first) = walk.next() else {
        return Err(Fail::from("no key"));
    };
    let command = Command::Get(Retrieval {
        keys: Keys::read(alloc, first, walk)?,
        touch: None,
        with_unique: false,
    });
    Ok(split(alloc, command, ticket, 1000, 2)?.pending_reply)
}

/// The form of a get of these keys.
fn get(alloc: Global, ticket: Ticket, keys: &[&[u8]]) -> Result<PendingReply, Fail>
    ensures { IfOk result (λ pending_reply. pending_reply.ticket ≡ ticket) }
{
    let mut text = Vec::new(alloc);
    for key in keys {
        text.extend_from_slice(key)?;
        text.push(b' ')?;
    }
    get_words(alloc, ticket, text.as_slice())
}

/// The form of `mn`.
fn noop(alloc: Global, ticket: Ticket) -> Result<PendingReply, Fail>
    ensures { IfOk result (λ pending_reply. pending_reply.ticket ≡ ticket) }
{
    Ok(split(alloc, Command::MetaNoop, ticket, 1000, 2)?.pending_reply)
}

fn hit(alloc: Global, value: &[u8]) -> Result<Answer, Fail> {
    let bytes = Vec::from_slice(alloc, value)?;
    if bytes.len() > 8_388_608 {
        return Err(Fail::from("too large"));
    }
    Ok(Answer::Hit {
        flags: 0,
        unique: 1,
        value: Value::new(bytes)?,
    })
}

fn reply(rt: &impl Abort, ticket: u64, part: usize, kind: Kind, answer: Answer) -> Reply {
    holds(rt, answer.is_lawful(kind));
    Reply::new(Ticket(ticket), part, kind, answer)
}

/// Opens the next ticket, for which there is space.
fn open(rt: &impl Abort, reorder_buffer: &mut ReorderBuffer, pending_reply: PendingReply)
    requires { pending_reply.ticket.0 ≡ opened_count reorder_buffer.old }
    ensures { opened_count reorder_buffer.new ≡ opened_count reorder_buffer.old + 1 }
{
    holds(rt, reorder_buffer.open(pending_reply).is_ok());
}

/// Opens a get of these keys, for which there is space.
fn open_get(
    rt: &impl Abort,
    alloc: Global,
    reorder_buffer: &mut ReorderBuffer,
    ticket: u64,
    keys: &[&[u8]],
) -> Result<(), Fail>
    requires { ticket ≡ opened_count reorder_buffer.old }
    ensures { OnOk result (opened_count reorder_buffer.new ≡ opened_count reorder_buffer.old + 1) }
{
    open(rt, reorder_buffer, get(alloc, Ticket(ticket), keys)?);
    Ok(())
}

/// Opens an `mn`, for which there is space.
fn open_noop(
    rt: &impl Abort,
    alloc: Global,
    reorder_buffer: &mut ReorderBuffer,
    ticket: u64,
) -> Result<(), Fail>
    requires { ticket ≡ opened_count reorder_buffer.old }
    ensures { OnOk result (opened_count reorder_buffer.new ≡ opened_count reorder_buffer.old + 1) }
{
    open(rt, reorder_buffer, noop(alloc, Ticket(ticket))?);
    Ok(())
}

/// Asserts that there is no space for an `mn`.
fn is_full(
    rt: &impl Abort,
    alloc: Global,
    reorder_buffer: &mut ReorderBuffer,
    ticket: u64,
) -> Result<(), Fail>
    requires { ticket ≡ opened_count reorder_buffer.old }
    ensures { opened_count reorder_buffer.new ≡ opened_count reorder_buffer.old }
{
    holds(
        rt,
        reorder_buffer.open(noop(alloc, Ticket(ticket))?).is_err(),
    );
    Ok(())
}

/// Whether the reply was accepted.
fn takes(reorder_buffer: &mut ReorderBuffer, reply: Reply) -> bool
    ensures { opened_count reorder_buffer.new ≡ opened_count reorder_buffer.old }
{
    unexpected_reply_of(reorder_buffer.accept(reply)).is_none()
}

/// Asserts that a miss is accepted.
fn misses(rt: &impl Abort, reorder_buffer: &mut ReorderBuffer, ticket: u64, part: usize)
    ensures { opened_count reorder_buffer.new ≡ opened_count reorder_buffer.old }
{
    let miss = reply(rt, ticket, part, Kind::Fetch, Answer::Miss);
    holds(rt, takes(reorder_buffer, miss));
}

/// Asserts that a hit is accepted.
fn hits(
    rt: &impl Abort,
    alloc: Global,
    reorder_buffer: &mut ReorderBuffer,
    ticket: u64,
    part: usize,
    value: &[u8],
) -> Result<(), Fail>
    ensures { opened_count reorder_buffer.new ≡ opened_count reorder_buffer.old }
{
    let found = reply(rt, ticket, part, Kind::Fetch, hit(alloc, value)?);
    holds(rt, takes(reorder_buffer, found));
    Ok(())
}

/// Asserts the result and the output of `hand`, and that `ready` returned its length.
fn hands(
    rt: &impl Abort,
    alloc: Global,
    reorder_buffer: &mut ReorderBuffer,
    commands: u64,
    text: &[u8],
)
    ensures { opened_count reorder_buffer.new ≡ opened_count reorder_buffer.old }
{
    let mut out = sink(alloc, usize::MAX);
    equal(rt, reorder_buffer.ready(), text.len() as u64);
    equal(rt, reorder_buffer.hand(&mut out), Ok(commands));
    equal(rt, out.taken.as_slice(), text);
    equal(rt, reorder_buffer.ready(), 0);
}

#[test]
fn a_get_waits_for_its_first_key(rt: HostRuntime) -> Result<(), Fail> {
    let alloc = rt.alloc();
    let mut reorder_buffer = ReorderBuffer::new(alloc, 1)?;
    open_get(&rt, alloc, &mut reorder_buffer, 0, &[b"a", b"b"])?;
    equal(&rt, reorder_buffer.waiting(), 1);
    misses(&rt, &mut reorder_buffer, 0, 1);
    hands(&rt, alloc, &mut reorder_buffer, 0, b"");
    let again = reply(&rt, 0, 1, Kind::Fetch, Answer::Miss);
    holds(&rt, !takes(&mut reorder_buffer, again));
    hits(&rt, alloc, &mut reorder_buffer, 0, 0, b"x")?;
    equal(&rt, reorder_buffer.ready(), 21);
    hands(
        &rt,
        alloc,
        &mut reorder_buffer,
        1,
        b"VALUE a 0 1\r\nx\r\nEND\r\n",
    );
    equal(&rt, reorder_buffer.waiting(), 0);
    Ok(())
}

/// Whether each of the first `count` parts is among the digits of the code in base 4.
fn names_each(code: usize, count: usize) -> bool {
    let mut seen = [false; 4];
    let mut rest = code;
    for _ in 0..4 {
        seen[rest % 4] = true;
        rest /= 4;
    }
    for is_seen in seen.iter().take(count) {
        if !*is_seen {
            return false;
        }
    }
    true
}

/// Accepts the answers of a get in the order of the code's digits; a part that is repeated, or
/// doesn't exist, is refused.
fn accept_in_order(
    rt: &impl Abort,
    alloc: Global,
    reorder_buffer: &mut ReorderBuffer,
    code: usize,
    count: usize,
) -> Result<(), Fail> {
    let values: [&[u8]; 4] = [b"w", b"", b"yy", b"z"];
    let mut seen = [false; 4];
    let mut rest = code;
    for _ in 0..4 {
        let part = rest % 4;
        rest /= 4;
        let answer = if part == 1 {
            Answer::Miss
        } else {
            hit(alloc, values[part])?
        };
        let fresh = part < count && !seen[part];
        equal(
            rt,
            takes(reorder_buffer, reply(rt, 0, part, Kind::Fetch, answer)),
            fresh,
        );
        seen[part] = true;
    }
    Ok(())
}

#[test]
fn a_get_of_which_a_later_key_found_no_memory_shows_no_value(rt: HostRuntime) -> Result<(), Fail> {
    let alloc = rt.alloc();
    let mut reorder_buffer = ReorderBuffer::new(alloc, 1)?;
    open_get(&rt, alloc, &mut reorder_buffer, 0, &[b"a", b"b"])?;
    hits(&rt, alloc, &mut reorder_buffer, 0, 0, b"x")?;
    let refused = reply(&rt, 0, 1, Kind::Fetch, Answer::NoMemory);
    holds(&rt, takes(&mut reorder_buffer, refused));
    hands(
        &rt,
        alloc,
        &mut reorder_buffer,
        1,
        b"SERVER_ERROR out of memory\r\n",
    );
    equal(&rt, reorder_buffer.waiting(), 0);
    Ok(())
}

#[test]
fn answers_come_in_every_order(rt: HostRuntime) -> Result<(), Fail> {
    let alloc = rt.alloc();
    let keys: [&[u8]; 4] = [b"a", b"b", b"c", b"d"];
    let texts: [&[u8]; 4] = [
        b"VALUE a 0 1\r\nw\r\nEND\r\n",
        b"VALUE a 0 1\r\nw\r\nEND\r\n",
        b"VALUE a 0 1\r\nw\r\nVALUE c 0 2\r\nyy\r\nEND\r\n",
        b"VALUE a 0 1\r\nw\r\nVALUE c 0 2\r\nyy\r\nVALUE d 0 1\r\nz\r\nEND\r\n",
    ];
    for count in 1..5 {
        for code in 0..256 {
            let mut reorder_buffer = ReorderBuffer::new(alloc, 1)?;
            open_get(&rt, alloc, &mut reorder_buffer, 0, keys.split_at(count).0)?;
            accept_in_order(&rt, alloc, &mut reorder_buffer, code, count)?;
            if names_each(code, count) {
                hands(&rt, alloc, &mut reorder_buffer, 1, texts[count - 1]);
            } else {
                hands(&rt, alloc, &mut reorder_buffer, 0, b"");
            }
        }
    }
    Ok(())
}

#[test]
fn a_repeated_key_is_shown_each_time(rt: HostRuntime) -> Result<(), Fail> {
    let alloc = rt.alloc();
    let mut reorder_buffer = ReorderBuffer::new(alloc, 1)?;
    open_get(&rt, alloc, &mut reorder_buffer, 0, &[b"a", b"b", b"a"])?;
    hits(&rt, alloc, &mut reorder_buffer, 0, 2, b"2")?;
    hits(&rt, alloc, &mut reorder_buffer, 0, 0, b"1")?;
    misses(&rt, &mut reorder_buffer, 0, 1);
    hands(
        &rt,
        alloc,
        &mut reorder_buffer,
        1,
        b"VALUE a 0 1\r\n1\r\nVALUE a 0 1\r\n2\r\nEND\r\n",
    );
    Ok(())
}

/// Asserts that the reply is refused and returned unchanged.
fn is_unexpected_reply(
    rt: &impl Abort,
    reorder_buffer: &mut ReorderBuffer,
    ticket: u64,
    part: usize,
    kind: Kind,
    answer: Answer,
)
    ensures { opened_count reorder_buffer.new ≡ opened_count reorder_buffer.old }
{
    let unexpected_reply = unexpected_reply_of(reorder_buffer.accept(reply(
        rt, ticket, part, kind, answer,
    )));
    equal(rt, unexpected_reply, Some((Ticket(ticket), part, kind)));
}

#[test]
fn strangers_are_handed_back(rt: HostRuntime) -> Result<(), Fail> {
    let alloc = rt.alloc();
    let mut reorder_buffer = ReorderBuffer::new(alloc, 2)?;
    // No ticket is open.
    is_unexpected_reply(&rt, &mut reorder_buffer, 0, 0, Kind::Fetch, Answer::Miss);
    open_get(&rt, alloc, &mut reorder_buffer, 0, &[b"a", b"b"])?;
    // A part that doesn't exist, a ticket that isn't open yet, another kind.
    is_unexpected_reply(&rt, &mut reorder_buffer, 0, 2, Kind::Fetch, Answer::Miss);
    is_unexpected_reply(&rt, &mut reorder_buffer, 1, 0, Kind::Fetch, Answer::Miss);
    is_unexpected_reply(
        &rt,
        &mut reorder_buffer,
        u64::MAX,
        0,
        Kind::Fetch,
        Answer::Miss,
    );
    is_unexpected_reply(&rt, &mut reorder_buffer, 0, 0, Kind::MetaGet, Answer::Miss);
    misses(&rt, &mut reorder_buffer, 0, 0);
    // A part that is answered already, whatever the second answer is.
    is_unexpected_reply(
        &rt,
        &mut reorder_buffer,
        0,
        0,
        Kind::Fetch,
        hit(alloc, b"x")?,
    );
    misses(&rt, &mut reorder_buffer, 0, 1);
    hands(&rt, alloc, &mut reorder_buffer, 1, b"END\r\n");
    // A ticket that was closed.
    is_unexpected_reply(&rt, &mut reorder_buffer, 0, 0, Kind::Fetch, Answer::Miss);
    equal(&rt, reorder_buffer.waiting(), 0);
    Ok(())
}

#[test]
fn a_failed_sink_is_written_to_no_more(rt: HostRuntime) -> Result<(), Fail> {
    let alloc = rt.alloc();
    let text = b"MN\r\nEND\r\n";
    for left in 0..9 {
        let mut reorder_buffer = ReorderBuffer::new(alloc, 4)?;
        open_noop(&rt, alloc, &mut reorder_buffer, 0)?;
        open_get(&rt, alloc, &mut reorder_buffer, 1, &[b"a"])?;
        open_get(&rt, alloc, &mut reorder_buffer, 2, &[b"b"])?;
        misses(&rt, &mut reorder_buffer, 1, 0);
        let mut out = sink(alloc, left);
        equal(&rt, reorder_buffer.ready(), 9);
        holds(&rt, reorder_buffer.hand(&mut out).is_err());
        equal(&rt, out.taken.as_slice(), text.split_at(left).0);
        let writes = out.writes;
        equal(&rt, reorder_buffer.ready(), 0);
        out.allow(99);
        equal(&rt, reorder_buffer.hand(&mut out), Ok(0));
        equal(&rt, out.taken.len(), left);
        equal(&rt, out.writes, writes);
        // Answers are still accepted.
        misses(&rt, &mut reorder_buffer, 2, 0);
        equal(&rt, reorder_buffer.hand(&mut out), Ok(0));
        equal(&rt, reorder_buffer.waiting(), 3);
        reorder_buffer.reset();
        equal(&rt, reorder_buffer.waiting(), 0);
        open_noop(&rt, alloc, &mut reorder_buffer, 0)?;
        hands(&rt, alloc, &mut reorder_buffer, 1, b"MN\r\n");
    }
    Ok(())
}

#[test]
fn a_large_value_goes_out_in_its_turn(rt: HostRuntime) -> Result<(), Fail> {
    let alloc = rt.alloc();
    let value = vec![in alloc; 7; 16_384]?;
    let mut reorder_buffer = ReorderBuffer::new(alloc, 4)?;
    open_noop(&rt, alloc, &mut reorder_buffer, 0)?;
    open_get(&rt, alloc, &mut reorder_buffer, 1, &[b"a"])?;
    open_noop(&rt, alloc, &mut reorder_buffer, 2)?;
    hits(&rt, alloc, &mut reorder_buffer, 1, 0, value.as_slice())?;
    let mut out = sink(alloc, usize::MAX);
    let text = b"MN\r\nVALUE a 0 16384\r\n";
    let len = text.len() + 16_384 + b"\r\nEND\r\nMN\r\n".len();
    equal(&rt, reorder_buffer.ready(), len as u64);
    equal(&rt, reorder_buffer.hand(&mut out), Ok(3));
    equal(&rt, out.taken.len(), len);
    holds(&rt, out.taken.as_slice().starts_with(text));
    holds(
        &rt,
        out.taken.as_slice().ends_with(b"\x07\r\nEND\r\nMN\r\n"),
    );
    Ok(())
}

/// Takes one byte per write.
#[derive(Drop)]
struct Drip {
    taken: Vec<u8>,
    failed: bool,
}

impl Sink for Drip {
    ghost sight = { λ out. sight_out (Listed out.taken.items) out.failed };

    fn write(&mut self, bytes: &[u8]) -> Result<usize, SinkError> {
        let count = bytes.len().min(1);
        let (front, _) = bytes.split_at(count);
        if self.failed || self.taken.extend_from_slice(front).is_err() {
            self.failed = true;
            return Err(SinkError);
        }
        Ok(count)
    }
}

/// A long reply between two short ones: `mn`, a get of a value, and `mn`.
fn long_between_short(rt: &impl Abort, alloc: Global) -> Result<ReorderBuffer, Fail> {
    let value = vec![in alloc; 7; 1_000]?;
    let mut reorder_buffer = ReorderBuffer::new(alloc, 4)?;
    open_noop(rt, alloc, &mut reorder_buffer, 0)?;
    open_get(rt, alloc, &mut reorder_buffer, 1, &[b"a"])?;
    open_noop(rt, alloc, &mut reorder_buffer, 2)?;
    hits(rt, alloc, &mut reorder_buffer, 1, 0, value.as_slice())?;
    Ok(reorder_buffer)
}

#[test]
fn replies_may_break_off_at_each_byte(rt: HostRuntime) -> Result<(), Fail> {
    let alloc = rt.alloc();
    let mut whole = sink(alloc, usize::MAX);
    equal(&rt, long_between_short(&rt, alloc)?.hand(&mut whole), Ok(3));
    let text = whole.taken.as_slice();
    equal(&rt, text.len(), 4 + 16 + 1_000 + 7 + 4);
    let mut drip = Drip {
        taken: Vec::new(alloc),
        failed: false,
    };
    equal(&rt, long_between_short(&rt, alloc)?.hand(&mut drip), Ok(3));
    equal(&rt, drip.taken.as_slice(), text);
    for left in 0..text.len() {
        let mut out = sink(alloc, left);
        holds(&rt, long_between_short(&rt, alloc)?.hand(&mut out).is_err());
        equal(&rt, out.taken.as_slice(), text.split_at(left).0);
    }
    Ok(())
}

/// The length of a value that is shared, not copied.
const LARGE: usize = 100_000;

/// A key that is one byte longer than those without an allocation.
const LONG_KEY: &[u8] = b"a:key:of:39:bytes:lies:in:its:own:block";

/// Counts its writes, with those of at least `LARGE` bytes apart, and stores nothing.
#[derive(Drop)]
struct WriteTally {
    small: u64,
    large: u64,
    bytes: u64,
}

impl Sink for WriteTally {
    ghost sight = { λ _. sight_out Unlisted false };

    fn write(&mut self, bytes: &[u8]) -> Result<usize, SinkError> {
        let (small, large) = if bytes.len() < LARGE { (1, 0) } else { (0, 1) };
        self.small = self.small.wrapping_add(small);
        self.large = self.large.wrapping_add(large);
        self.bytes = self.bytes.wrapping_add(bytes.len() as u64);
        Ok(bytes.len())
    }
}

/// A large value, as an item holds it, and the form of a get of one key that needs an allocation;
/// `None` if memory was refused.
fn large_value(alloc: Global) -> Option<(Value, PendingReply)>
    ensures { IfSome result (λ made. made.1.ticket.0 ≡ 0) }
{
    let bytes = vec![in alloc; 7; LARGE].ok()?;
    let value = Value::new(bytes).ok()?;
    let keys = Keys::read(alloc, LONG_KEY, words(b"")).ok()?;
    let command = Command::Get(Retrieval {
        keys,
        touch: None,
        with_unique: false,
    });
    let plan = split(alloc, command, Ticket(0), 1000, 2).ok()?;
    Some((value, plan.pending_reply))
}

/// A hit shares the value of its item: the value is written by one call, beside a few for the text
/// around it, and nothing on the way allocates. Passes whichever allocation is refused, as with `rt
/// try --test --fail-alloc N` for each N.
#[test]
fn a_hit_copies_no_value(rt: HostRuntime) {
    let alloc = rt.alloc();
    let Ok(mut reorder_buffer) = ReorderBuffer::new(alloc, 1) else {
        return;
    };
    let Some((item, pending_reply)) = large_value(alloc) else {
        return;
    };
    open(&rt, &mut reorder_buffer, pending_reply);
    let Ok(value) = item.clone() else {
        panic!(&rt; "the clone of a value takes memory")
    };
    let found = Answer::Hit {
        flags: 0,
        unique: 1,
        value,
    };
    let found = reply(&rt, 0, 0, Kind::Fetch, found);
    holds(&rt, takes(&mut reorder_buffer, found));
    let mut out = WriteTally {
        small: 0,
        large: 0,
        bytes: 0,
    };
    let len = b"VALUE a:key:of:39:bytes:lies:in:its:own:block 0 100000\r\n".len()
        + LARGE
        + b"\r\nEND\r\n".len();
    equal(&rt, reorder_buffer.ready(), len as u64);
    equal(&rt, reorder_buffer.hand(&mut out), Ok(1));
    equal(&rt, out.bytes, len as u64);
    equal(&rt, out.large, 1);
    // The header of the value, the end of its block, and the end of the reply.
    equal(&rt, out.small, 3);
}

#[test]
fn a_window_of_one_is_full_with_one(rt: HostRuntime) -> Result<(), Fail> {
    let alloc = rt.alloc();
    let mut reorder_buffer = ReorderBuffer::new(alloc, 1)?;
    open_noop(&rt, alloc, &mut reorder_buffer, 0)?;
    is_full(&rt, alloc, &mut reorder_buffer, 1)?;
    hands(&rt, alloc, &mut reorder_buffer, 1, b"MN\r\n");
    open_get(&rt, alloc, &mut reorder_buffer, 1, &[b"a"])?;
    hands(&rt, alloc, &mut reorder_buffer, 0, b"");
    misses(&rt, &mut reorder_buffer, 1, 0);
    hands(&rt, alloc, &mut reorder_buffer, 1, b"END\r\n");
    Ok(())
}

#[test]
fn a_window_of_four_goes_round(rt: HostRuntime) -> Result<(), Fail> {
    let alloc = rt.alloc();
    let mut reorder_buffer = ReorderBuffer::new(alloc, 4)?;
    open_get(&rt, alloc, &mut reorder_buffer, 0, &[b"a"])?;
    open_get(&rt, alloc, &mut reorder_buffer, 1, &[b"b"])?;
    open_noop(&rt, alloc, &mut reorder_buffer, 2)?;
    open_get(&rt, alloc, &mut reorder_buffer, 3, &[b"c"])?;
    is_full(&rt, alloc, &mut reorder_buffer, 4)?;
    // A later, complete reply waits for the first.
    hits(&rt, alloc, &mut reorder_buffer, 1, 0, b"1")?;
    hands(&rt, alloc, &mut reorder_buffer, 0, b"");
    misses(&rt, &mut reorder_buffer, 0, 0);
    hands(
        &rt,
        alloc,
        &mut reorder_buffer,
        3,
        b"END\r\nVALUE b 0 1\r\n1\r\nEND\r\nMN\r\n",
    );
    equal(&rt, reorder_buffer.waiting(), 1);
    open_noop(&rt, alloc, &mut reorder_buffer, 4)?;
    open_get(&rt, alloc, &mut reorder_buffer, 5, &[b"d"])?;
    open_noop(&rt, alloc, &mut reorder_buffer, 6)?;
    is_full(&rt, alloc, &mut reorder_buffer, 7)?;
    hits(&rt, alloc, &mut reorder_buffer, 5, 0, b"5")?;
    hits(&rt, alloc, &mut reorder_buffer, 3, 0, b"3")?;
    hands(
        &rt,
        alloc,
        &mut reorder_buffer,
        4,
        b"VALUE c 0 1\r\n3\r\nEND\r\nMN\r\nVALUE d 0 1\r\n5\r\nEND\r\nMN\r\n",
    );
    equal(&rt, reorder_buffer.waiting(), 0);
    Ok(())
}
