//! Plans of a few commands: their pieces and their forms.
ghost use Rattle.std.specs.Prelude.{◌<◌};

use crate::asserting::{equal, holds};
use mc_command::{
    Block, Command, CommandError, Keys, MetaFetch, MetaFlags, MetaGet, Opaque, Profile, Retrieval,
    ReturnFlag, Returned, Storage, StoreMode, StoreRequest,
};
use mc_item::{Answer, Kind, NoMemory, Op};
use mc_reply::{PendingReply, ReplyKind, Ticket};
use mc_split::{Piece, Plan, split};
use mc_wire::{Key, words};
use std::alloc::Global;
use std::process::Abort;
use std::test::Fail;

const TICKET: Ticket = Ticket(7);

const MOMENT: u64 = 1000;

/// Keys that need an allocation: those of at most 38 bytes don't. The first belongs to the first of
/// two shards, the second to the second.
const KEY_A: &[u8] = b"a:key:of:39:bytes:lies:in:its:own:block";

const KEY_B: &[u8] = b"b:key:of:39:bytes:lies:in:its:own:block";

/// Both again, and a third one, which belongs to the first of two shards.
const OTHER_KEYS: &[u8] = b"\
    b:key:of:39:bytes:lies:in:its:own:block \
    a:key:of:39:bytes:lies:in:its:own:block \
    c:key:of:39:bytes:lies:in:its:own:block";

fn get(alloc: Global) -> Result<Command, CommandError> {
    Ok(Command::Get(Retrieval {
        keys: Keys::read(alloc, KEY_A, words(OTHER_KEYS))?,
        touch: Some(10),
        with_unique: true,
    }))
}

fn set(alloc: Global) -> Result<Command, CommandError> {
    Ok(Command::Store(Storage {
        asked: StoreRequest {
            key: Key::from_word(alloc, KEY_B)?,
            mode: StoreMode::Set,
            compare: None,
            unique: None,
            flags: 5,
            exptime: 0,
            value: Block::new(Vec::from_slice(alloc, b"xyz")?),
        },
        noreply: true,
        lenient: false,
    }))
}

fn meta_get(alloc: Global, shows_key: bool) -> Result<Command, CommandError> {
    let mut returned = Returned::new();
    if shows_key {
        returned.push(ReturnFlag::Key);
    }
    Ok(Command::MetaGet(MetaGet {
        asked: MetaFetch {
            key: Key::from_word(alloc, KEY_A)?,
            touch: None,
            vivify: None,
            recache: Some(30),
            unnoted: false,
        },
        flags: MetaFlags {
            base64: false,
            quiet: false,
            profile: Profile::Own,
            returned,
            opaque: Opaque::empty(),
        },
        value: true,
    }))
}

/// The plan of a command.
struct PlanOf {
    plan: Plan,
}

impl Drop for PlanOf {
    /// Written by hand, so that its owners drop it by a single call (docs/DECISIONS.md, F20).
    fn drop(self) {
        let PlanOf { plan: _plan } = self;
    }
}

/// Splits a command over this number of shards.
fn planned(alloc: Global, command: Command, shards: usize) -> Result<PlanOf, NoMemory>
    requires { 0 < shards }
{
    Ok(PlanOf {
        plan: split(alloc, command, TICKET, MOMENT, shards)?,
    })
}

/// Asserts the shards of a plan's pieces, that the pieces are numbered, and that each has a slot.
/// Takes the pieces out, and returns the last one.
fn has_shards(rt: &impl Abort, plan: &mut Plan, shards: &[usize]) -> Option<(usize, Piece)> {
    equal(rt, plan.pending_reply.ticket, TICKET);
    equal(rt, plan.pending_reply.slots.answers().len(), shards.len());
    let mut last = None;
    for (part, shard) in shards.iter().enumerate() {
        holds(rt, !plan.pieces.is_empty());
        if let Some((found, piece)) = plan.pieces.pop() {
            equal(rt, (part, found), (piece.part, *shard));
            equal(rt, piece.ticket, TICKET);
            equal(rt, piece.moment, MOMENT);
            equal(rt, piece.op.kind(), plan.pending_reply.kind);
            last = Some((found, piece));
        }
    }
    holds(rt, plan.pieces.is_empty() && plan.pieces.pop().is_none());
    last
}

#[test]
fn a_get_asks_its_keys_in_order(rt: HostRuntime) -> Result<(), Fail> {
    let alloc = rt.alloc();
    let mut get = planned(alloc, get(alloc)?, 2)?;
    has_shards(&rt, &mut get.plan, &[0, 1, 0, 0]);
    fills(&rt, &mut get.plan.pending_reply, &[2, 0, 3, 1]);
    Ok(())
}

/// Fills the slots in this order, and asserts that the last one completes the form.
fn fills(rt: &impl Abort, pending_reply: &mut PendingReply, parts: &[usize]) {
    for part in parts {
        holds(rt, !pending_reply.slots.is_filled());
        holds(rt, *part < pending_reply.slots.answers().len());
        pending_reply.fill(*part, Answer::Miss);
    }
    holds(rt, pending_reply.slots.is_filled());
}

/// Whether a piece, with its shard, stores three bytes with flags 5.
fn stores_three(piece: Option<&(usize, Piece)>) -> bool {
    match piece {
        Some((_, piece)) => match &piece.op {
            Op::Store(asked) => asked.value.len() == 3 && asked.flags == 5,
            _ => false,
        },
        None => false,
    }
}

#[test]
fn one_key_is_one_piece(rt: HostRuntime) -> Result<(), Fail> {
    let alloc = rt.alloc();
    let mut set = planned(alloc, set(alloc)?, 2)?;
    let piece = has_shards(&rt, &mut set.plan, &[1]);
    holds(
        &rt,
        matches!(
            &set.plan.pending_reply.reply_kind,
            ReplyKind::Line { noreply: true, .. }
        ),
    );
    holds(&rt, stores_three(piece.as_ref()));
    fills(&rt, &mut set.plan.pending_reply, &[0]);
    Ok(())
}

#[test]
fn a_flush_asks_every_shard(rt: HostRuntime) -> Result<(), Fail> {
    let alloc = rt.alloc();
    let flush = Command::FlushAll {
        delay: -1,
        noreply: false,
    };
    let mut flush = planned(alloc, flush, 3)?;
    has_shards(&rt, &mut flush.plan, &[0, 1, 2]);
    equal(&rt, flush.plan.pending_reply.kind, Kind::Flush);
    Ok(())
}

#[test]
fn some_commands_ask_no_shard(rt: HostRuntime) -> Result<(), Fail> {
    let alloc = rt.alloc();
    for noreply in [false, true] {
        let mut verbosity = planned(alloc, Command::Verbosity { noreply }, 2)?;
        has_shards(&rt, &mut verbosity.plan, &[]);
        holds(&rt, verbosity.plan.pending_reply.slots.is_filled());
    }
    let mut noop = planned(alloc, Command::MetaNoop, 2)?;
    has_shards(&rt, &mut noop.plan, &[]);
    Ok(())
}

/// Whether the reply to an `mg` returns its value, and whether it then keeps its key.
fn keeps_key(reply_kind: &ReplyKind) -> Option<bool> {
    match reply_kind {
        ReplyKind::Meta { key, value, .. } if *value => Some(key.is_some()),
        _ => None,
    }
}

#[test]
fn a_meta_reply_keeps_the_key_where_it_shows_it(rt: HostRuntime) -> Result<(), Fail> {
    let alloc = rt.alloc();
    for shows_key in [false, true] {
        let mut get = planned(alloc, meta_get(alloc, shows_key)?, 2)?;
        has_shards(&rt, &mut get.plan, &[0]);
        equal(
            &rt,
            keeps_key(&get.plan.pending_reply.reply_kind),
            Some(shows_key),
        );
    }
    Ok(())
}

/// A get that names a key 32,766 times: as often as fits into the longest line.
fn longest_get(alloc: Global) -> Result<Command, Fail> {
    let mut others = Vec::new(alloc);
    for _ in 1..32_766u32 {
        others.extend_from_slice(b" a")?;
    }
    Ok(Command::Get(Retrieval {
        keys: Keys::read(alloc, b"a", words(others.as_slice()))?,
        touch: None,
        with_unique: false,
    }))
}

#[test]
fn a_get_of_32766_keys(rt: HostRuntime) -> Result<(), Fail> {
    let alloc = rt.alloc();
    let mut get = planned(alloc, longest_get(alloc)?, 2)?;
    equal(&rt, get.plan.pending_reply.slots.answers().len(), 32_766);
    let mut last = None;
    for _ in 0..32_766u32 {
        last = get.plan.pieces.pop();
    }
    holds(&rt, get.plan.pieces.is_empty());
    let last = match last {
        Some((shard, piece)) => Some((shard, piece.part)),
        None => None,
    };
    equal(&rt, last, Some((0, 32_765)));
    Ok(())
}

/// Whether the command was made and split over two shards; its pieces are then for these shards.
fn is_split(
    rt: &impl Abort,
    alloc: Global,
    command: Result<Command, CommandError>,
    shards: &[usize],
) -> bool {
    let Ok(command) = command else {
        return false;
    };
    let Ok(mut planned) = planned(alloc, command, 2) else {
        return false;
    };
    has_shards(rt, &mut planned.plan, shards);
    true
}

/// Passes whichever allocation is refused, as with `rt try --test --fail-alloc N` for each N: one
/// command isn't split, and the others are.
#[test]
fn a_refused_allocation_refuses_one_plan(rt: HostRuntime) {
    let alloc = rt.alloc();
    let mut refused = 0usize;
    for _ in 0..2u8 {
        let flush = Command::FlushAll {
            delay: 0,
            noreply: false,
        };
        let made = [
            is_split(&rt, alloc, get(alloc), &[0, 1, 0, 0]),
            is_split(&rt, alloc, set(alloc), &[1]),
            is_split(&rt, alloc, meta_get(alloc, true), &[0]),
            is_split(&rt, alloc, Ok(flush), &[0, 1]),
        ];
        for is_made in made {
            refused = refused.saturating_add(usize::from(!is_made));
        }
    }
    holds(&rt, refused <= 1);
}
