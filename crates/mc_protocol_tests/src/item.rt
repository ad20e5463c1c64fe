//! Each public call once, with the values of worked rows.
ghost use Rattle.std.specs.Prelude.{◌≤◌, length};

use crate::asserting::{equal, holds};
use mc_item::{Answer, Expiry, Item, Kind, NoMemory, Op, PackedExpiry, Value, expiry};
use mc_wire::Key;
use std::alloc::Global;
use std::process::Abort;
use std::test::Fail;

static EXPTIMES: [(i64, u64, Expiry); 8] = [
    (0, 1000, Expiry::Never),
    (-1, 1000, Expiry::At(1000)),
    (-1, 0, Expiry::At(0)),
    (1, 1000, Expiry::At(1001)),
    (2_592_000, 1000, Expiry::At(2_593_000)),
    (2_592_001, 1000, Expiry::At(2_592_001)),
    (2_592_001, 3_000_000, Expiry::At(2_592_001)),
    (10, 1_099_511_627_776, Expiry::At(1_099_511_627_786)),
];

#[test]
fn exptimes_mean_seconds(rt: HostRuntime) {
    for (exptime, now, want) in &EXPTIMES {
        holds(&rt, *now <= 1_099_511_627_776);
        equal(&rt, (*exptime, expiry(*exptime, *now)), (*exptime, *want));
    }
}

#[test]
fn items_die_at_their_second(rt: HostRuntime) {
    holds(&rt, !Expiry::At(1001).is_dead(1000));
    holds(&rt, Expiry::At(1001).is_dead(1001));
    holds(&rt, !Expiry::Never.is_dead(u64::MAX));
    equal(&rt, Expiry::At(1005).seconds_left(1000), Some(5));
    equal(&rt, Expiry::At(1005).seconds_left(1010), Some(0));
    equal(&rt, Expiry::Never.seconds_left(0), None);
}

fn value_of(alloc: Global, text: &[u8]) -> Result<Value, NoMemory>
    requires { length text.now ≤ 100 }
{
    let bytes = Vec::from_slice(alloc, text)?;
    Value::new(bytes)
}

/// Each copy of a value has its bytes, whether they are shared or none.
#[test]
fn copies_have_the_bytes(rt: HostRuntime) -> Result<(), Fail> {
    let a = rt.alloc();
    for text in [b"".as_slice(), b"some bytes".as_slice()] {
        holds(&rt, text.len() <= 100);
        let value = value_of(a, text)?;
        let shared = value.clone()?;
        equal(&rt, shared.bytes(), text);
        drop(value);
        let again = shared.clone()?;
        equal(&rt, again.bytes(), text);
    }
    Ok(())
}

/// The number in a value with this text.
fn number_of(alloc: Global, text: &[u8]) -> Result<Option<u64>, NoMemory>
    requires { length text.now ≤ 100 }
{
    Ok(value_of(alloc, text)?.number())
}

static NUMBERS: [(&[u8], Option<u64>); 10] = [
    (b"7  ", Some(7)),
    (b"00000000000000000009", Some(9)),
    (b"000000000000000000009", None),
    (b" 9", None),
    (b"", None),
    (b"18446744073709551615", Some(u64::MAX)),
    (b"18446744073709551616", None),
    (b"x", None),
    (b"5 5", None),
    (b"5\t", None),
];

#[test]
fn values_hold_numbers(rt: HostRuntime) -> Result<(), Fail> {
    for (text, want) in &NUMBERS {
        holds(&rt, text.len() <= 100);
        let number = number_of(rt.alloc(), *text)?;
        equal(&rt, (*text, number), (*text, *want));
    }
    Ok(())
}

/// An item that expires at second 1,000.
fn item_of(value: Value) -> Item {
    Item {
        value,
        flags: 3,
        expiry: PackedExpiry::from_exptime(1, 999),
        unique: 1,
        last_access: 1000,
        fetched: false,
        stale: false,
        sent: false,
    }
}

/// A short item's value joined with a short block.
fn short_joined(
    alloc: Global,
    item: &Item,
    block: &Value,
    is_behind: bool,
) -> Result<Value, NoMemory> {
    if item.value.len() > 100 || block.len() > 100 {
        return Ok(Value::empty());
    }
    item.joined(alloc, block, is_behind)
}

/// The value `bc` of an item joined with the block `d`.
fn joined(alloc: Global, is_behind: bool) -> Result<Value, NoMemory> {
    let item = item_of(value_of(alloc, b"bc")?);
    let block = value_of(alloc, b"d")?;
    short_joined(alloc, &item, &block, is_behind)
}

/// Asserts the bytes of the joined value, and that a clone has the same ones.
fn are_joined(rt: &impl Abort, alloc: Global, is_behind: bool, want: &[u8]) -> Result<(), Fail> {
    let value = joined(alloc, is_behind)?;
    equal(rt, value.bytes(), want);
    let clone = value.clone()?;
    equal(rt, (clone.bytes(), clone.is_empty()), (want, false));
    Ok(())
}

#[test]
fn values_are_joined(rt: HostRuntime) -> Result<(), Fail> {
    are_joined(&rt, rt.alloc(), true, b"bcd")?;
    are_joined(&rt, rt.alloc(), false, b"dbc")
}

#[test]
fn an_item_has_a_number(rt: HostRuntime) -> Result<(), Fail> {
    let item = item_of(value_of(rt.alloc(), b"17")?);
    equal(
        &rt,
        (item.number(), item.is_dead(1000), item.is_dead(999)),
        (Some(17), true, false),
    );
    Ok(())
}

#[test]
fn letters_are_no_number(rt: HostRuntime) -> Result<(), Fail> {
    equal(&rt, value_of(rt.alloc(), b"d")?.len(), 1);
    let letters = item_of(value_of(rt.alloc(), b"bc")?);
    equal(&rt, letters.number(), None);
    equal(
        &rt,
        (letters.value.len(), letters.value.is_empty()),
        (2, false),
    );
    Ok(())
}

/// Asserts the text of a number.
fn is_written(rt: &impl Abort, alloc: Global, number: u64, want: &[u8]) -> Result<(), Fail> {
    let value = Value::of_number(alloc, number)?;
    equal(rt, value.bytes(), want);
    Ok(())
}

#[test]
fn numbers_have_texts(rt: HostRuntime) -> Result<(), Fail> {
    is_written(&rt, rt.alloc(), u64::MAX, b"18446744073709551615")?;
    is_written(&rt, rt.alloc(), 0, b"0")
}

/// The kind of an operation, and the length of its key.
fn kind_and_key(op: Op) -> (Kind, Option<usize>) {
    let length = match op.key() {
        Some(key) => Some(key.bytes().len()),
        None => None,
    };
    (op.kind(), length)
}

#[test]
fn pieces_have_kinds_and_keys(rt: HostRuntime) -> Result<(), Fail> {
    let touch = Op::Touch {
        key: Key::from_word(rt.alloc(), b"a")?,
        exptime: 0,
    };
    equal(&rt, kind_and_key(touch), (Kind::Touch, Some(1)));
    let flush = Op::Flush { delay: 0 };
    equal(&rt, kind_and_key(flush), (Kind::Flush, None));
    Ok(())
}

/// Whether the answer is one to an operation of this kind.
fn answers(answer: Answer, kind: Kind) -> bool {
    answer.is_lawful(kind)
}

#[test]
fn answers_are_lawful_for_their_kinds(rt: HostRuntime) {
    holds(&rt, answers(Answer::Touched, Kind::Touch));
    holds(&rt, answers(Answer::NoMemory, Kind::Touch));
    holds(&rt, !answers(Answer::NoMemory, Kind::Delete));
    holds(&rt, !answers(Answer::Number(1), Kind::MetaCount));
}
