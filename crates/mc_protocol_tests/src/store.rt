//! Sequences of operations on a shard, with the answers of the protocol's worked rows.
ghost use Rattle.std.specs.Prelude.{◌≤◌};

mod asked;
mod shown;

use crate::asserting::equal;
use asked::{Ask, Row, op_of};
use mc_command::{Direction, StoreMode, Vivify};
use mc_item::{Answer, Op};
use mc_store::Shard;
use mc_wire::{MAX_VALUE_LIMIT, WireError};
use shown::shown;
use std::alloc::{AllocError, Global};
use std::hash::RandomState;
use std::process::Abort;
use std::random::RandomSource;
use std::test::Fail;

/// The first of two shards, with this memory budget in bytes.
fn new_shard(rt: &impl RandomSource, alloc: Global, budget: usize) -> Result<Shard, Fail>
    requires least { 1024 ≤ budget }
    requires most { budget ≤ 68719476736 }
{
    Ok(Shard::new(alloc, RandomState::new(rt)?, 0, 2, budget, 0, 1_048_576)?)
}

/// Runs the operation, and returns whether the answer is as expected.
fn answers(alloc: Global, shard: &mut Shard, row: Row) -> Result<bool, Fail> {
    let (at, key, ask, want) = row;
    let op = op_of(alloc, key, ask)?;
    let answer = shard.run(alloc, op, at);
    let shown = shown(alloc, &answer)?;
    Ok(shown.as_str() == want)
}

/// Runs each row, and stops at the first unexpected answer.
fn ask_all(rt: &impl Abort, alloc: Global, shard: &mut Shard, rows: &[Row]) -> Result<(), Fail> {
    for (place, row) in rows.iter().enumerate() {
        let wanted = answers(alloc, shard, *row)?;
        assert!(rt; wanted, "row {place}");
    }
    Ok(())
}

/// Runs each row on a new shard with this memory budget in bytes.
fn ask_new<R: Abort + RandomSource>(
    rt: &R,
    alloc: Global,
    budget: usize,
    rows: &[Row],
) -> Result<(), Fail>
    requires least { 1024 ≤ budget }
    requires most { budget ≤ 68719476736 }
{
    let mut shard = new_shard(rt, alloc, budget)?;
    ask_all(rt, alloc, &mut shard, rows)
}

static EXPIRY: [(i64, u64, u64, &str); 8] = [
    (1, 1000, 1000, "0 1 x"),
    (1, 1000, 1001, "miss"),
    (2_592_000, 1000, 2_592_999, "0 1 x"),
    (2_592_000, 1000, 2_593_000, "miss"),
    (2_592_001, 1000, 2_592_000, "0 1 x"),
    (2_592_001, 1000, 2_592_001, "miss"),
    (2_592_001, 3_000_000, 3_000_000, "miss"),
    (-1, 1000, 1000, "miss"),
];

#[test]
fn an_item_dies_at_its_second(rt: HostRuntime) -> Result<(), Fail> {
    for (exptime, set_at, get_at, want) in &EXPIRY {
        let rows = [
            (*set_at, "a", Ask::SetFor(*exptime, "x"), "stored"),
            (*get_at, "a", Ask::Get, *want),
        ];
        ask_new(&rt, rt.alloc(), 16_777_216, &rows)?;
    }
    Ok(())
}

static LAST_UNIQUE: [Row; 9] = [
    (1000, "a", Ask::Set("x"), "stored"),
    (1000, "a", Ask::Get, "0 18446744073709551615 x"),
    (1000, "a", Ask::Set("y"), "no cas"),
    (1000, "a", Ask::Md(None, true), "no cas"),
    (
        1000,
        "a",
        Ask::Count(Direction::Increment, 1),
        "non-numeric",
    ),
    (1000, "a", Ask::Get, "0 18446744073709551615 x"),
    // A unique chosen by a client may be assigned again.
    (1000, "a", Ask::MsAs(3, "z"), "c3 s1 t99 0"),
    (1000, "a", Ask::MdAs(5, true), "done"),
    (1000, "a", Ask::Set("y"), "no cas"),
];

#[test]
fn the_last_unique(rt: HostRuntime) -> Result<(), Fail> {
    let a = rt.alloc();
    let hasher = RandomState::new(&rt)?;
    let mut shard = Shard::new(a, hasher, 0, 2, 1_024, 9_223_372_036_854_775_807, 1_024)?;
    ask_all(&rt, a, &mut shard, &LAST_UNIQUE)
}

static FLUSH_LATER: [Row; 9] = [
    (1000, "a", Ask::Flush(10), "done"),
    (1005, "a", Ask::Set("x"), "stored"),
    (1009, "a", Ask::Get, "0 1 x"),
    (1010, "a", Ask::Get, "miss"),
    (1010, "a", Ask::Set("x"), "stored"),
    (1010, "a", Ask::Get, "0 3 x"),
    (1011, "a", Ask::Get, "0 3 x"),
    // The latest flush replaces a pending one, even if it is immediate.
    (1020, "a", Ask::Flush(10), "done"),
    (1021, "a", Ask::Flush(0), "done"),
];

static FLUSH_AT_ONCE: [Row; 4] = [
    (1022, "a", Ask::Set("x"), "stored"),
    (1031, "a", Ask::Get, "0 5 x"),
    (3_000_000, "a", Ask::Flush(2_592_001), "done"),
    (3_000_000, "a", Ask::Get, "miss"),
];

#[test]
fn a_delayed_flush(rt: HostRuntime) -> Result<(), Fail> {
    let a = rt.alloc();
    let mut shard = new_shard(&rt, a, 16_777_216)?;
    ask_all(&rt, a, &mut shard, &FLUSH_LATER)?;
    equal(&rt, shard.len(), 0);
    ask_all(&rt, a, &mut shard, &FLUSH_AT_ONCE)
}

// A flush is applied at the time of each shard: with one delay it may be pending on one shard and
// done on the other.
static EARLY_SHARD: [Row; 14] = [
    (2_600_005, "a", Ask::Set("x"), "stored"),
    (2_600_005, "a", Ask::Flush(2_600_010), "done"),
    (2_600_009, "a", Ask::Get, "0 1 x"),
    (2_600_010, "a", Ask::Get, "miss"),
    (2_600_010, "a", Ask::Set("x"), "stored"),
    (2_600_010, "a", Ask::Flush(2_600_010), "done"),
    (2_600_010, "a", Ask::Get, "miss"),
    (2_600_010, "a", Ask::Set("x"), "stored"),
    (2_600_010, "a", Ask::Flush(2_600_011), "done"),
    (2_600_010, "a", Ask::Get, "0 5 x"),
    (2_600_010, "a", Ask::Flush(10), "done"),
    (2_600_019, "a", Ask::Get, "0 5 x"),
    (2_600_020, "a", Ask::Get, "miss"),
    (2_600_020, "a", Ask::Flush(-1), "done"),
];

static LATE_SHARD: [Row; 14] = [
    (2_600_015, "b", Ask::Set("x"), "stored"),
    (2_600_005, "b", Ask::Flush(2_600_010), "done"),
    (2_600_009, "b", Ask::Get, "miss"),
    (2_600_010, "b", Ask::Set("x"), "stored"),
    (2_600_010, "b", Ask::Flush(2_600_015), "done"),
    (2_600_010, "b", Ask::Get, "miss"),
    (2_600_010, "b", Ask::Set("x"), "stored"),
    (2_600_010, "b", Ask::Flush(2_600_016), "done"),
    (2_600_010, "b", Ask::Get, "0 6 x"),
    (2_600_010, "b", Ask::Flush(10), "done"),
    (2_600_024, "b", Ask::Get, "0 6 x"),
    (2_600_025, "b", Ask::Get, "miss"),
    (2_600_025, "b", Ask::Set("x"), "stored"),
    (2_600_025, "b", Ask::Get, "0 8 x"),
];

#[test]
fn two_shards_at_their_times(rt: HostRuntime) -> Result<(), Fail> {
    let a = rt.alloc();
    let mut early = new_shard(&rt, a, 16_777_216)?;
    ask_all(&rt, a, &mut early, &EARLY_SHARD)?;
    let mut late = Shard::new(a, RandomState::new(&rt)?, 1, 2, 1_024, 0, 1_024)?;
    ask_all(&rt, a, &mut late, &LATE_SHARD)
}

// Two items of some 300 bytes fit a budget of 1,024; three don't.
static LEAST_USED: [Row; 15] = [
    (1000, "a", Ask::Long(300), "stored"),
    (1000, "c", Ask::Long(301), "stored"),
    (1000, "a", Ask::Get, "0 1 300 bytes"),
    (1000, "e", Ask::Long(302), "stored"),
    (1000, "c", Ask::Get, "miss"),
    (1000, "e", Ask::Get, "0 5 302 bytes"),
    // A refused `add` makes its item the most recently used one; a refused `cas` or `replace`
    // doesn't.
    (1000, "a", Ask::Put(StoreMode::Add, "y"), "not stored"),
    (1000, "e", Ask::Cas(99, "y"), "exists"),
    (1000, "c", Ask::Put(StoreMode::Replace, "y"), "not stored"),
    (1000, "g", Ask::Long(303), "stored"),
    (1000, "e", Ask::Get, "miss"),
    (1000, "a", Ask::Get, "0 1 300 bytes"),
    // An item marked stale keeps its position.
    (1000, "g", Ask::Md(None, true), "done"),
    (1000, "e", Ask::Long(304), "stored"),
    (1000, "g", Ask::Mg(None, None, None), "miss"),
];

#[test]
fn the_least_recently_used_item_goes(rt: HostRuntime) -> Result<(), Fail> {
    let a = rt.alloc();
    let mut shard = new_shard(&rt, a, 1_024)?;
    ask_all(&rt, a, &mut shard, &LEAST_USED)?;
    equal(&rt, shard.len(), 2);
    Ok(())
}

static COUNTED: [Row; 10] = [
    (1000, "a", Ask::Long(300), "stored"),
    (1000, "a", Ask::Get, "0 1 300 bytes"),
    (1000, "b", Ask::Get, "miss"),
    (
        1000,
        "a",
        Ask::Mg(Some(60), None, None),
        "f0 c1 h1 l0 t60 300 bytes",
    ),
    (
        1000,
        "a",
        Ask::Stats,
        "get 1/1 set 1/0 touch 1/0 other 0/0 n1 b365 of 1024 e0",
    ),
    (1000, "c", Ask::Long(400), "stored"),
    (1000, "d", Ask::Long(400), "stored"),
    // The item of `a` was evicted, and one `stats` was run.
    (
        1000,
        "a",
        Ask::Stats,
        "get 1/1 set 3/0 touch 1/0 other 1/0 n2 b930 of 1024 e1",
    ),
    (1000, "a", Ask::ResetStats, "reset"),
    // The reset itself is counted, in the new counters.
    (
        1000,
        "a",
        Ask::Stats,
        "get 0/0 set 0/0 touch 0/0 other 1/0 n2 b930 of 1024 e0",
    ),
];

#[test]
fn a_shard_counts(rt: HostRuntime) -> Result<(), Fail> {
    ask_new(&rt, rt.alloc(), 1_024, &COUNTED)
}

static DEAD_ITEM: [Row; 2] = [
    (1000, "a", Ask::Long(400), "stored"),
    (1000, "c", Ask::LongFor(-1, 400), "stored"),
];

static DEAD_ITEM_MET: [Row; 7] = [
    // An expired item of the same key is dropped first.
    (1000, "c", Ask::LongFor(-1, 400), "stored"),
    (1000, "a", Ask::Get, "0 1 400 bytes"),
    (1000, "c", Ask::LongFor(5, 400), "stored"),
    // An expired item of another key is evicted only as the least recently used one.
    (2000, "a", Ask::Get, "0 1 400 bytes"),
    (2000, "e", Ask::Long(400), "stored"),
    (2000, "a", Ask::Get, "0 1 400 bytes"),
    (2000, "e", Ask::Get, "0 9 400 bytes"),
];

#[test]
fn a_dead_item_takes_room(rt: HostRuntime) -> Result<(), Fail> {
    let a = rt.alloc();
    let mut shard = new_shard(&rt, a, 1_024)?;
    ask_all(&rt, a, &mut shard, &DEAD_ITEM)?;
    equal(&rt, shard.len(), 2);
    ask_all(&rt, a, &mut shard, &DEAD_ITEM_MET)
}

// The first two get a turn. The first one is fetched while it is alive, so it gets another turn.
static TURNS: [Row; 2] = [
    (1000, "a", Ask::LongFor(5, 100), "stored"),
    (1000, "c", Ask::LongFor(2000, 100), "stored"),
];

static TURNS_COME: [Row; 2] = [
    (2000, "e", Ask::Long(100), "stored"),
    (2000, "c", Ask::Get, "0 3 100 bytes"),
];

#[test]
fn a_dead_item_gives_its_room_back(rt: HostRuntime) -> Result<(), Fail> {
    let a = rt.alloc();
    let mut shard = new_shard(&rt, a, 1_024)?;
    ask_all(&rt, a, &mut shard, &TURNS)?;
    equal(&rt, shard.len(), 2);
    ask_all(&rt, a, &mut shard, &TURNS_COME)?;
    equal(&rt, (shard.len(), shard.evicted()), (2, 0));
    Ok(())
}

// An item of 959 bytes with a key of one byte costs 1,024.
static WHOLE_BUDGET: [Row; 8] = [
    (1000, "a", Ask::Long(300), "stored"),
    (1000, "c", Ask::Long(300), "stored"),
    (1000, "a", Ask::Long(960), "too large"),
    (1000, "a", Ask::Get, "0 1 300 bytes"),
    (1000, "a", Ask::Long(959), "stored"),
    (1000, "c", Ask::Get, "miss"),
    (1000, "a", Ask::Put(StoreMode::Append, "y"), "too large"),
    (1000, "a", Ask::Get, "0 5 959 bytes"),
];

#[test]
fn an_item_of_the_whole_budget(rt: HostRuntime) -> Result<(), Fail> {
    let a = rt.alloc();
    let mut shard = new_shard(&rt, a, 1_024)?;
    ask_all(&rt, a, &mut shard, &WHOLE_BUDGET)?;
    equal(&rt, shard.cost(), 1_024);
    Ok(())
}

// Items that cost 365, 366 and 293: together the budget.
static FULL: [Row; 3] = [
    (1000, "a", Ask::Long(300), "stored"),
    (1000, "c", Ask::Long(301), "stored"),
    (1000, "e", Ask::Long(228), "stored"),
];

static GROWS_BY_ONE: [Row; 4] = [
    (1000, "c", Ask::Put(StoreMode::Append, "y"), "stored"),
    (1000, "a", Ask::Get, "miss"),
    (1000, "c", Ask::Get, "0 7 302 bytes"),
    (1000, "e", Ask::Get, "0 5 228 bytes"),
];

static COUNTS_TO_TEN: [Row; 7] = [
    // 9 becomes one byte longer; the items cost the whole budget before.
    (1000, "c", Ask::Put(StoreMode::Replace, "9"), "stored"),
    (1000, "e", Ask::Long(893), "stored"),
    (1000, "c", Ask::Count(Direction::Increment, 0), "9"),
    (1000, "e", Ask::Get, "0 11 893 bytes"),
    (1000, "c", Ask::Count(Direction::Increment, 1), "10"),
    (1000, "e", Ask::Get, "miss"),
    (1000, "c", Ask::Get, "0 15 10"),
];

#[test]
fn growth_makes_others_go(rt: HostRuntime) -> Result<(), Fail> {
    let a = rt.alloc();
    let mut shard = new_shard(&rt, a, 1_024)?;
    ask_all(&rt, a, &mut shard, &FULL)?;
    equal(&rt, shard.cost(), 1_024);
    ask_all(&rt, a, &mut shard, &GROWS_BY_ONE)?;
    ask_all(&rt, a, &mut shard, &COUNTS_TO_TEN)
}

static GROWS_TO_ALL: [Row; 4] = [
    (1000, "e", Ask::Long(700), "stored"),
    (1000, "a", Ask::Get, "miss"),
    (1000, "c", Ask::Get, "miss"),
    (1000, "e", Ask::Get, "0 7 700 bytes"),
];

#[test]
fn growth_makes_all_others_go(rt: HostRuntime) -> Result<(), Fail> {
    let a = rt.alloc();
    let mut shard = new_shard(&rt, a, 1_024)?;
    ask_all(&rt, a, &mut shard, &FULL)?;
    ask_all(&rt, a, &mut shard, &GROWS_TO_ALL)?;
    equal(&rt, shard.len(), 1);
    Ok(())
}

static APPENDS_TO_ALL: [Row; 4] = [
    (1000, "c", Ask::LongPut(StoreMode::Append, 600), "stored"),
    (1000, "a", Ask::Get, "miss"),
    (1000, "e", Ask::Get, "miss"),
    (1000, "c", Ask::Get, "0 7 901 bytes"),
];

#[test]
fn an_append_makes_all_others_go(rt: HostRuntime) -> Result<(), Fail> {
    let a = rt.alloc();
    let mut shard = new_shard(&rt, a, 1_024)?;
    ask_all(&rt, a, &mut shard, &FULL)?;
    ask_all(&rt, a, &mut shard, &APPENDS_TO_ALL)?;
    equal(&rt, shard.len(), 1);
    equal(&rt, shard.cost(), 966);
    Ok(())
}

static CLIENTS_UNIQUES: [Row; 11] = [
    (1000, "a", Ask::MsAs(77, "x"), "c77 s1 t99 0"),
    (1000, "a", Ask::Cas(76, "y"), "exists"),
    (1000, "a", Ask::Cas(77, "y"), "stored"),
    (1000, "a", Ask::Get, "0 1 y"),
    (1000, "a", Ask::MdAs(0, true), "done"),
    (
        1000,
        "a",
        Ask::Mg(None, None, None),
        "f0 c0 h1 l0 t-1 W X y",
    ),
    (1000, "a", Ask::MdAs(9, false), "deleted"),
    (
        1000,
        "c",
        Ask::MaAs(
            u64::MAX,
            Some(Vivify {
                exptime: 0,
                initial: 13,
            }),
        ),
        "c18446744073709551615 s2 t-1 13",
    ),
    (1000, "c", Ask::MaAs(4, None), "c4 s2 t-1 14"),
    (1000, "c", Ask::Ma(None, 1, None), "c3 s2 t-1 15"),
    (1000, "e", Ask::MaAs(8, None), "not found"),
];

#[test]
fn clients_give_uniques(rt: HostRuntime) -> Result<(), Fail> {
    ask_new(&rt, rt.alloc(), 1_024, &CLIENTS_UNIQUES)
}

#[test]
fn an_answer_keeps_its_value(rt: HostRuntime) -> Result<(), Fail> {
    let a = rt.alloc();
    let mut shard = new_shard(&rt, a, 1_024)?;
    ask_all(&rt, a, &mut shard, &[(1000, "a", Ask::Set("x"), "stored")])?;
    let fetch = op_of(a, "a", Ask::Get)?;
    let earlier = shard.run(a, fetch, 1000);
    let rows = [
        (1000, "a", Ask::Put(StoreMode::Append, "y"), "stored"),
        (1000, "a", Ask::Get, "0 3 xy"),
    ];
    ask_all(&rt, a, &mut shard, &rows)?;
    equal(&rt, shown(a, &earlier)?.as_str(), "0 1 x");
    Ok(())
}

static TIME_BACK: [Row; 2] = [
    (1020, "c", Ask::Get, "miss"),
    (1000, "a", Ask::SetFor(10, "x"), "stored"),
];

static TIME_AFTER: [Row; 2] = [
    (1029, "a", Ask::Get, "0 1 x"),
    (1030, "a", Ask::Get, "miss"),
];

static LATEST_TIME: [Row; 4] = [
    (u64::MAX, "a", Ask::SetFor(1_099_511_627_777, "x"), "stored"),
    (u64::MAX, "a", Ask::Mg(None, None, None), "f0 c3 h0 l0 t1 x"),
    (u64::MAX, "a", Ask::SetFor(1_099_511_627_776, "x"), "stored"),
    (u64::MAX, "a", Ask::Mg(None, None, None), "miss"),
];

#[test]
fn time_never_goes_back(rt: HostRuntime) -> Result<(), Fail> {
    let a = rt.alloc();
    let mut shard = new_shard(&rt, a, 16_777_216)?;
    ask_all(&rt, a, &mut shard, &TIME_BACK)?;
    equal(&rt, shard.now(), 1020);
    ask_all(&rt, a, &mut shard, &TIME_AFTER)?;
    ask_all(&rt, a, &mut shard, &LATEST_TIME)?;
    equal(&rt, shard.now(), 1_099_511_627_776);
    Ok(())
}

static NUMBERS: [(&str, Direction, u64, &str, &str); 8] = [
    (
        "18446744073709551615",
        Direction::Increment,
        1,
        "0",
        "0 3 0",
    ),
    ("5", Direction::Decrement, 9, "0", "0 3 0"),
    ("99", Direction::Increment, 1, "100", "0 3 100"),
    ("7  ", Direction::Increment, 1, "8", "0 3 8"),
    ("007", Direction::Increment, 0, "7", "0 3 7"),
    ("x", Direction::Increment, 1, "non-numeric", "0 1 x"),
    (" 9", Direction::Increment, 1, "non-numeric", "0 1  9"),
    ("", Direction::Increment, 1, "non-numeric", "0 1 "),
];

#[test]
fn numbers_are_counted(rt: HostRuntime) -> Result<(), Fail> {
    for (held, direction, amount, want, then) in &NUMBERS {
        let rows = [
            (1000, "c", Ask::Set(*held), "stored"),
            (1000, "c", Ask::Count(*direction, *amount), *want),
            (1000, "c", Ask::Get, *then),
            (1000, "a", Ask::Count(Direction::Increment, 1), "not found"),
        ];
        ask_new(&rt, rt.alloc(), 16_777_216, &rows)?;
    }
    Ok(())
}

static CLASSIC: [Row; 17] = [
    (1000, "a", Ask::Flagged("bc"), "stored"),
    (1000, "a", Ask::Put(StoreMode::Append, "d"), "stored"),
    (1000, "a", Ask::Put(StoreMode::Prepend, "a"), "stored"),
    (1000, "a", Ask::Mg(None, None, None), "f3 c5 h0 l0 t30 abcd"),
    (1000, "c", Ask::Put(StoreMode::Append, "d"), "not stored"),
    (1000, "a", Ask::Cas(4, "x"), "exists"),
    (1000, "a", Ask::Cas(5, "x"), "stored"),
    (1000, "c", Ask::Cas(5, "x"), "not found"),
    (1000, "a", Ask::Gat(-1), "0 7 x"),
    (1000, "a", Ask::Gat(-1), "miss"),
    (1000, "a", Ask::Put(StoreMode::Add, "5"), "stored"),
    (1001, "a", Ask::Touch(10), "touched"),
    (1002, "a", Ask::Count(Direction::Increment, 1), "6"),
    (1003, "a", Ask::Mg(None, None, None), "f0 c11 h0 l1 t8 6"),
    (1003, "a", Ask::Delete, "deleted"),
    (1003, "a", Ask::Delete, "not found"),
    (1003, "a", Ask::Touch(10), "not found"),
];

#[test]
fn classic_commands(rt: HostRuntime) -> Result<(), Fail> {
    ask_new(&rt, rt.alloc(), 16_777_216, &CLASSIC)
}

static LIMIT: [Row; 8] = [
    (1000, "a", Ask::Long(1_048_577), "too large"),
    (1000, "a", Ask::Long(1_048_575), "stored"),
    (1000, "a", Ask::Put(StoreMode::Append, "y"), "stored"),
    (1000, "a", Ask::Put(StoreMode::Append, "y"), "too large"),
    (1000, "a", Ask::Put(StoreMode::Prepend, "y"), "too large"),
    (1000, "a", Ask::Get, "0 3 1048576 bytes"),
    (1000, "a", Ask::Put(StoreMode::Replace, "z"), "stored"),
    (1000, "a", Ask::Get, "0 5 z"),
];

#[test]
fn the_largest_value(rt: HostRuntime) -> Result<(), Fail> {
    ask_new(&rt, rt.alloc(), 16_777_216, &LIMIT)
}

// A limit, the lengths of two parts of a value, and what a get returns.
static LIMITS: [(usize, usize, usize, &str); 4] = [
    (1_024, 1_023, 1, "0 3 1024 bytes"),
    (1_025, 0, 1_025, "0 3 1025 bytes"),
    (2_000_000, 1_000_000, 1_000_000, "0 3 2000000 bytes"),
    (MAX_VALUE_LIMIT, 1, 8_388_607, "0 3 8388608 bytes"),
];

/// The first of two shards, with this value limit.
fn limited_shard(rt: &HostRuntime, alloc: Global, limit: usize) -> Result<Shard, Fail> {
    let limit = limit.min(MAX_VALUE_LIMIT);
    let hasher = RandomState::new(rt)?;
    Ok(Shard::new(alloc, hasher, 0, 2, 16_777_216, 0, limit)?)
}

#[test]
fn a_joined_value_of_the_limit(rt: HostRuntime) -> Result<(), Fail> {
    let a = rt.alloc();
    for (limit, front, back, whole) in &LIMITS {
        let mut shard = limited_shard(&rt, a, *limit)?;
        let rows = [
            (1000, "a", Ask::Long(*front), "stored"),
            (1000, "a", Ask::LongPut(StoreMode::Append, *back), "stored"),
            (1000, "a", Ask::Get, *whole),
            (1000, "a", Ask::Put(StoreMode::Append, "y"), "too large"),
            (1000, "a", Ask::Put(StoreMode::Prepend, "y"), "too large"),
            (
                1000,
                "a",
                Ask::LongPut(StoreMode::Append, *limit),
                "too large",
            ),
            (1000, "a", Ask::Get, *whole),
        ];
        ask_all(&rt, a, &mut shard, &rows)?;
    }
    Ok(())
}

static TIME_LEFT: [Row; 9] = [
    (1000, "a", Ask::SetFor(100, "x"), "stored"),
    (1005, "a", Ask::Mg(None, None, None), "f0 c1 h0 l5 t95 x"),
    (1007, "a", Ask::Mg(None, None, None), "f0 c1 h1 l2 t93 x"),
    (
        1070,
        "a",
        Ask::Mg(None, None, Some(30)),
        "f0 c1 h1 l63 t30 x",
    ),
    (
        1080,
        "a",
        Ask::Mg(None, None, Some(30)),
        "f0 c1 h1 l10 t20 W x",
    ),
    (
        1080,
        "a",
        Ask::Mg(None, None, Some(30)),
        "f0 c1 h1 l0 t20 Z x",
    ),
    (1081, "a", Ask::Cas(99, "y"), "exists"),
    (1082, "a", Ask::Put(StoreMode::Add, "y"), "not stored"),
    (
        1083,
        "a",
        Ask::Mg(Some(0), None, None),
        "f0 c1 h1 l1 t-1 Z x",
    ),
];

#[test]
fn fetched_access_and_time_left(rt: HostRuntime) -> Result<(), Fail> {
    ask_new(&rt, rt.alloc(), 16_777_216, &TIME_LEFT)
}

static MARKS: [Row; 16] = [
    (
        1000,
        "a",
        Ask::Mg(Some(99), Some(30), Some(50)),
        "f0 c1 h0 l0 t30 W ",
    ),
    (
        1000,
        "a",
        Ask::Mg(None, Some(30), None),
        "f0 c1 h0 l0 t30 Z ",
    ),
    (
        1000,
        "a",
        Ask::Ms(StoreMode::Set, Some(1), "x"),
        "c3 s1 t99 0",
    ),
    (1000, "a", Ask::Md(None, true), "done"),
    (
        1000,
        "a",
        Ask::Mg(None, None, None),
        "f9 c5 h0 l0 t99 W X x",
    ),
    (
        1000,
        "a",
        Ask::Mg(None, None, None),
        "f9 c5 h1 l0 t99 X Z x",
    ),
    (1000, "a", Ask::Md(Some(4), true), "exists"),
    (1000, "a", Ask::Md(Some(5), true), "done"),
    (
        1000,
        "a",
        Ask::Mg(None, None, None),
        "f9 c7 h1 l0 t99 W X x",
    ),
    (
        1000,
        "a",
        Ask::Ms(StoreMode::Append, None, "y"),
        "c9 s2 t99 0",
    ),
    (1000, "a", Ask::Mg(None, None, None), "f9 c9 h0 l0 t99 xy"),
    (1000, "a", Ask::Ms(StoreMode::Add, None, "y"), "not stored"),
    (1000, "a", Ask::Md(None, false), "deleted"),
    (1000, "a", Ask::Md(None, false), "not found"),
    (
        1000,
        "a",
        Ask::Ms(StoreMode::Set, Some(1), "x"),
        "not found",
    ),
    (1000, "a", Ask::Mg(None, None, None), "miss"),
];

#[test]
fn recache_and_stale_marks(rt: HostRuntime) -> Result<(), Fail> {
    ask_new(&rt, rt.alloc(), 16_777_216, &MARKS)
}

/// The operations of the rows, with their times.
fn list_of(alloc: Global, rows: &[Row]) -> Result<Vec<(Op, u64)>, WireError> {
    let mut asked = Vec::with_capacity(alloc, rows.len())?;
    for (at, key, ask, _) in rows {
        let op = op_of(alloc, *key, *ask)?;
        if let Err(refused) = asked.push((op, *at)) {
            return Err(AllocError::from(refused).into());
        }
    }
    Ok(asked)
}

#[test]
fn a_list_of_operations(rt: HostRuntime) -> Result<(), Fail> {
    let a = rt.alloc();
    let mut shard = new_shard(&rt, a, 16_777_216)?;
    let asked = list_of(a, &MARKS)?;
    let answers = shard.run_all(a, asked)?;
    equal(&rt, answers.len(), MARKS.len());
    for (answer, row) in answers.iter().zip(MARKS.iter()) {
        let shown = shown(a, answer)?;
        equal(&rt, shown.as_str(), row.3);
    }
    Ok(())
}

static META_NUMBERS: [Row; 7] = [
    (
        1000,
        "c",
        Ask::Ma(
            Some(9),
            5,
            Some(Vivify {
                exptime: 0,
                initial: 13,
            }),
        ),
        "c1 s2 t-1 13",
    ),
    (
        1000,
        "c",
        Ask::Ma(
            None,
            2,
            Some(Vivify {
                exptime: 0,
                initial: 13,
            }),
        ),
        "c3 s2 t-1 15",
    ),
    (1000, "c", Ask::Ma(Some(1), 2, None), "exists"),
    (1000, "e", Ask::Ma(Some(1), 2, None), "not found"),
    (1000, "c", Ask::Md(None, true), "done"),
    (1000, "c", Ask::Count(Direction::Increment, 85), "100"),
    (
        1000,
        "c",
        Ask::Mg(None, None, None),
        "f0 c7 h0 l0 t-1 W X 100",
    ),
];

#[test]
fn meta_arithmetic(rt: HostRuntime) -> Result<(), Fail> {
    ask_new(&rt, rt.alloc(), 16_777_216, &META_NUMBERS)
}

// Keys of the first of two shards that need an allocation: those of at most 38 bytes don't.
const KEY_A: &str = "a:key:of:39:bytes:lies:in:its:own:block";

const KEY_C: &str = "c:key:of:39:bytes:lies:in:its:own:block";

const KEY_E: &str = "e:key:of:39:bytes:lies:in:its:own:block";

const KEY_G: &str = "g:key:of:39:bytes:lies:in:its:own:block";

const KEY_I: &str = "i:key:of:39:bytes:lies:in:its:own:block";

const KEY_K: &str = "k:key:of:39:bytes:lies:in:its:own:block";

const KEY_M: &str = "m:key:of:39:bytes:lies:in:its:own:block";

const KEY_O: &str = "o:key:of:39:bytes:lies:in:its:own:block";

const KEY_Q: &str = "q:key:of:39:bytes:lies:in:its:own:block";

const KEY_S: &str = "s:key:of:39:bytes:lies:in:its:own:block";

// Rows for a table that grows: it has room for 1 item, then for 2, for 4 and for 8. Items are used
// while they are in the smaller table, and the least recently used one is evicted at the end.
static GROWTH: [Row; 17] = [
    (1000, KEY_A, Ask::Set("x"), "stored"),
    (1000, KEY_C, Ask::Set("x"), "stored"),
    (1000, KEY_E, Ask::Set("x"), "stored"),
    (1000, KEY_A, Ask::Get, "0 1 x"),
    (1000, KEY_C, Ask::Touch(60), "touched"),
    (1000, KEY_G, Ask::Set("x"), "stored"),
    (1000, KEY_I, Ask::Set("x"), "stored"),
    (1000, KEY_C, Ask::Put(StoreMode::Add, "y"), "not stored"),
    (1000, KEY_A, Ask::Set("z"), "stored"),
    (1000, KEY_K, Ask::Set("x"), "stored"),
    (1000, KEY_M, Ask::Set("x"), "stored"),
    (1000, KEY_O, Ask::Set("x"), "stored"),
    (1000, KEY_Q, Ask::Set("x"), "stored"),
    (1000, KEY_S, Ask::Set("x"), "stored"),
    (1000, KEY_E, Ask::Get, "miss"),
    (1000, KEY_G, Ask::Get, "0 7 x"),
    (1000, KEY_A, Ask::Get, "0 11 z"),
];

// Rows for refused allocations, and whether running the operation needs no memory, once it was
// made: it deletes, marks stale, flushes, or stores under an existing key while the table isn't
// growing.
static SHORT: [(Row, bool); 18] = [
    ((1000, KEY_A, Ask::Set("x"), "stored"), false),
    ((1000, KEY_A, Ask::Get, "0 1 x"), false),
    ((1000, KEY_A, Ask::Set("7"), "stored"), true),
    (
        (1000, KEY_A, Ask::Put(StoreMode::Append, "0"), "stored"),
        false,
    ),
    (
        (1000, KEY_A, Ask::Count(Direction::Increment, 1), "71"),
        false,
    ),
    (
        (
            1000,
            KEY_C,
            Ask::Ms(StoreMode::Set, None, "5"),
            "c9 s1 t99 0",
        ),
        false,
    ),
    (
        (
            1000,
            KEY_C,
            Ask::Mg(None, Some(30), None),
            "f9 c9 h0 l0 t99 5",
        ),
        false,
    ),
    (
        (
            1000,
            KEY_E,
            Ask::Mg(None, Some(30), None),
            "f0 c11 h0 l0 t30 W ",
        ),
        false,
    ),
    ((1000, KEY_G, Ask::Get, "miss"), true),
    ((1000, KEY_C, Ask::Ma(None, 2, None), "c13 s1 t99 7"), false),
    ((1000, KEY_C, Ask::Md(None, true), "done"), true),
    ((1000, KEY_C, Ask::Cas(15, "6"), "stored"), false),
    ((1000, KEY_E, Ask::Touch(60), "touched"), false),
    ((1000, KEY_C, Ask::Delete, "deleted"), true),
    (
        (
            1000,
            KEY_E,
            Ask::Mg(None, None, None),
            "f0 c11 h0 l0 t60 Z ",
        ),
        false,
    ),
    ((1000, KEY_E, Ask::Flush(0), "done"), true),
    (
        (
            1000,
            KEY_E,
            Ask::Stats,
            "get 4/1 set 4/0 touch 1/0 other 1/0 n0 b0 of 1024 e0",
        ),
        false,
    ),
    ((1000, KEY_E, Ask::ResetStats, "reset"), true),
];

/// Makes the operation; tries again if memory was refused.
fn op_in_the_end(alloc: Global, row: Row) -> Result<Op, WireError> {
    match op_of(alloc, row.1, row.2) {
        Ok(op) => Ok(op),
        Err(_) => op_of(alloc, row.1, row.2),
    }
}

/// Runs the operation, and once more if memory was refused and the operation may need some.
fn answer_in_the_end(
    alloc: Global,
    shard: &mut Shard,
    row: Row,
    is_free: bool,
) -> Result<Answer, WireError> {
    let op = op_in_the_end(alloc, row)?;
    match shard.run(alloc, op, row.0) {
        Answer::NoMemory if !is_free => {
            let op = op_in_the_end(alloc, row)?;
            Ok(shard.run(alloc, op, row.0))
        }
        answer => Ok(answer),
    }
}

fn shown_in_the_end(alloc: Global, answer: &Answer) -> Result<String, AllocError> {
    match shown(alloc, answer) {
        Ok(shown) => Ok(shown),
        Err(_) => shown(alloc, answer),
    }
}

fn shard_in_the_end(rt: &HostRuntime, alloc: Global) -> Result<Shard, Fail> {
    match Shard::new(alloc, RandomState::new(rt)?, 0, 2, 1_024, 0, 1_024) {
        Ok(shard) => Ok(shard),
        Err(_) => Ok(Shard::new(alloc, RandomState::new(rt)?, 0, 2, 1_024, 0, 1_024)?),
    }
}

/// A refused allocation changes nothing: if the operation is repeated, it and all later ones have
/// the answers that they would have had. Run with each allocation refused in turn, this test shows
/// it for each.
#[test]
fn memory_may_be_refused_once(rt: HostRuntime) -> Result<(), Fail> {
    let a = rt.alloc();
    let mut shard = shard_in_the_end(&rt, a)?;
    for (place, (row, is_free)) in SHORT.iter().enumerate() {
        let answer = answer_in_the_end(a, &mut shard, *row, *is_free)?;
        let shown = shown_in_the_end(a, &answer)?;
        equal(&rt, (place, shown.as_str()), (place, row.3));
    }
    equal(&rt, shard.len(), 0);
    Ok(())
}

/// So it is where items are moved to a larger table: a refused move changes no answer, neither what
/// is found nor what is evicted.
#[test]
fn memory_may_be_refused_while_the_table_grows(rt: HostRuntime) -> Result<(), Fail> {
    let a = rt.alloc();
    let mut shard = shard_in_the_end(&rt, a)?;
    for (place, row) in GROWTH.iter().enumerate() {
        let answer = answer_in_the_end(a, &mut shard, *row, false)?;
        let shown = shown_in_the_end(a, &answer)?;
        equal(&rt, (place, shown.as_str()), (place, row.3));
    }
    equal(&rt, shard.len(), 9);
    Ok(())
}
