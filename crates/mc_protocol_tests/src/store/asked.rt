//! Operations of test rows, as plain data.
use mc_command::{Direction, MetaCount, MetaFetch, MetaRemoval, StoreMode, StoreRequest, Vivify};
use mc_item::{NoMemory, Op, Value};
use mc_wire::{Key, MAX_VALUE_LIMIT, WireError};
use std::alloc::Global;

/// An operation on the item of a key.
#[derive(Clone, Copy)]
pub enum Ask {
    /// `set` without an exptime.
    Set(&'static str),
    /// `set` with an exptime.
    SetFor(i64, &'static str),
    /// `set` with the flags 3 and the exptime 30.
    Flagged(&'static str),
    /// `set` of this number of bytes `x`.
    Long(usize),
    /// `set` of this number of bytes `x`, with an exptime.
    LongFor(i64, usize),
    Put(StoreMode, &'static str),
    Cas(u64, &'static str),
    /// A storage command of this mode, with this number of bytes `x`.
    LongPut(StoreMode, usize),
    Get,
    Gat(i64),
    Count(Direction, u64),
    Delete,
    Touch(i64),
    /// `flush_all` of the whole shard, whatever the key.
    Flush(i64),
    Stats,
    ResetStats,
    /// `mg` with its flags `T`, `N` and `R`.
    Mg(Option<i64>, Option<i64>, Option<i64>),
    /// `ms` with flags 9, exptime 99 and its flag `C`.
    Ms(StoreMode, Option<u64>, &'static str),
    /// `ms` with its flag `E`.
    MsAs(u64, &'static str),
    /// `md` with its flag `C`, and whether `I` is set.
    Md(Option<u64>, bool),
    /// `md` with its flag `E`, and whether `I` is set.
    MdAs(u64, bool),
    /// `ma` that adds, with its flags `C`, `D`, and `N` with `J`.
    Ma(Option<u64>, u64, Option<Vivify>),
    /// `ma` that adds 1, with its flag `E`, and with `N` and `J`.
    MaAs(u64, Option<Vivify>),
}

/// A Unix time, a key, the operation, and the expected answer as text.
pub type Row = (u64, &'static str, Ask, &'static str);

/// The text to store.
fn text_of(ask: Ask) -> &'static str {
    match ask {
        Ask::Set(text)
        | Ask::SetFor(_, text)
        | Ask::Flagged(text)
        | Ask::Put(_, text)
        | Ask::Cas(_, text)
        | Ask::Ms(_, _, text)
        | Ask::MsAs(_, text) => text,
        _ => "",
    }
}

fn long_value(alloc: Global, length: usize) -> Result<Value, NoMemory> {
    let bytes = vec![in alloc; b'x'; length.min(MAX_VALUE_LIMIT)]?;
    Value::new(bytes)
}

fn value_of(alloc: Global, ask: Ask) -> Result<Value, NoMemory> {
    if let Ask::Long(length) | Ask::LongFor(_, length) | Ask::LongPut(_, length) = ask {
        return long_value(alloc, length);
    }
    let bytes = Vec::from_slice(alloc, text_of(ask).as_bytes())?;
    if bytes.len() > 40 {
        return Ok(Value::empty());
    }
    Value::new(bytes)
}

fn stored(key: Key, value: Value, mode: StoreMode, flags: u32, exptime: i64) -> Op {
    Op::Store(StoreRequest {
        key,
        mode,
        compare: None,
        unique: None,
        flags,
        exptime,
        value,
    })
}

fn swapped(key: Key, value: Value, unique: u64) -> Op {
    Op::Store(StoreRequest {
        key,
        mode: StoreMode::Set,
        compare: Some(unique),
        unique: None,
        flags: 0,
        exptime: 0,
        value,
    })
}

/// `ms` with flags 9 and exptime 99.
fn meta_stored(
    key: Key,
    value: Value,
    mode: StoreMode,
    compare: Option<u64>,
    unique: Option<u64>,
) -> Op {
    Op::MetaStore(StoreRequest {
        key,
        mode,
        compare,
        unique,
        flags: 9,
        exptime: 99,
        value,
    })
}

/// An operation that stores a value; for any other one the key is returned.
fn storing(key: Key, value: Value, ask: Ask) -> Result<Op, Key> {
    match ask {
        Ask::Set(_) | Ask::Long(_) => Ok(stored(key, value, StoreMode::Set, 0, 0)),
        Ask::SetFor(exptime, _) | Ask::LongFor(exptime, _) => {
            Ok(stored(key, value, StoreMode::Set, 0, exptime))
        }
        Ask::Flagged(_) => Ok(stored(key, value, StoreMode::Set, 3, 30)),
        Ask::Put(mode, _) | Ask::LongPut(mode, _) => Ok(stored(key, value, mode, 0, 0)),
        Ask::Cas(unique, _) => Ok(swapped(key, value, unique)),
        Ask::Ms(mode, compare, _) => Ok(meta_stored(key, value, mode, compare, None)),
        Ask::MsAs(token, _) => Ok(meta_stored(key, value, StoreMode::Set, None, Some(token))),
        _ => Err(key),
    }
}

fn meta_deleted(key: Key, compare: Option<u64>, unique: Option<u64>, invalidate: bool) -> Op {
    Op::MetaDelete(MetaRemoval {
        key,
        compare,
        unique,
        invalidate,
        exptime: None,
    })
}

fn meta_counted(
    key: Key,
    compare: Option<u64>,
    unique: Option<u64>,
    amount: u64,
    vivify: Option<Vivify>,
) -> Op {
    Op::MetaCount(MetaCount {
        key,
        compare,
        unique,
        direction: Direction::Increment,
        amount,
        exptime: None,
        vivify,
    })
}

/// An operation without a value.
fn reading(key: Key, ask: Ask) -> Op {
    match ask {
        Ask::Gat(exptime) => Op::Fetch {
            key,
            touch: Some(exptime),
        },
        Ask::Count(direction, amount) => Op::Count {
            key,
            direction,
            amount,
        },
        Ask::Delete => Op::Delete { key },
        Ask::Touch(exptime) => Op::Touch { key, exptime },
        Ask::Flush(delay) => Op::Flush { delay },
        Ask::Stats => Op::Stats,
        Ask::ResetStats => Op::ResetStats,
        Ask::Mg(touch, vivify, recache) => Op::MetaGet(MetaFetch {
            key,
            touch,
            vivify,
            recache,
            unnoted: false,
        }),
        Ask::Md(compare, invalidate) => meta_deleted(key, compare, None, invalidate),
        Ask::MdAs(token, invalidate) => meta_deleted(key, None, Some(token), invalidate),
        Ask::Ma(compare, amount, vivify) => meta_counted(key, compare, None, amount, vivify),
        Ask::MaAs(token, vivify) => meta_counted(key, None, Some(token), 1, vivify),
        _ => Op::Fetch { key, touch: None },
    }
}

/// The operation with this key, and with its own value.
pub fn op_of(alloc: Global, word: &str, ask: Ask) -> Result<Op, WireError> {
    let key = Key::from_word(alloc, word.as_bytes())?;
    let Ok(value) = value_of(alloc, ask) else {
        return Err(WireError::Memory);
    };
    match storing(key, value, ask) {
        Ok(op) => Ok(op),
        Err(key) => Ok(reading(key, ask)),
    }
}
