//! The answer of a shard as a short text.
use mc_item::{Answer, Marks, MetaDone, MetaHit, OpStats, StatClass, Stats, Status, Value};
use std::alloc::{AllocError, Global};

/// The bytes of a value as text, or its length if it is long.
fn text(alloc: Global, value: &Value) -> Result<String, AllocError> {
    if value.len() > 40 {
        return format!(in alloc; "{} bytes", value.len());
    }
    let mut text = String::new(alloc);
    for byte in value.bytes() {
        text.push(char::from(*byte))?;
    }
    Ok(text)
}

fn left_text(alloc: Global, left: Option<u64>) -> Result<String, AllocError> {
    match left {
        Some(seconds) => format!(in alloc; "t{seconds}"),
        None => String::from_str(alloc, "t-1"),
    }
}

fn marks_text(marks: Marks) -> &'static str {
    match (marks.won, marks.stale, marks.sent) {
        (false, false, false) => "",
        (true, false, false) => " W",
        (true, true, false) => " W X",
        (false, true, true) => " X Z",
        (false, false, true) => " Z",
        _ => " ?",
    }
}

fn hit_text(alloc: Global, hit: &MetaHit) -> Result<String, AllocError> {
    let value = text(alloc, &hit.value)?;
    let left = left_text(alloc, hit.left)?;
    let fetched = u8::from(hit.fetched);
    let marks = marks_text(hit.marks);
    format!(in alloc;
        "f{} c{} h{fetched} l{} {left}{marks} {value}",
        hit.flags, hit.unique, hit.idle
    )
}

fn done_text(alloc: Global, done: &MetaDone) -> Result<String, AllocError> {
    let left = left_text(alloc, done.left)?;
    format!(in alloc; "c{} s{} {left} {}", done.unique, done.size, done.number)
}

/// The hits and misses of a kind.
fn counted_text(
    alloc: Global,
    name: &str,
    op_stats: &OpStats,
    asked: StatClass,
) -> Result<String, AllocError> {
    let hits = op_stats.count(asked, Status::Hit);
    let misses = op_stats.count(asked, Status::Miss);
    format!(in alloc; "{name} {hits}/{misses}")
}

fn stats_text(alloc: Global, stats: &Stats) -> Result<String, AllocError> {
    let get = counted_text(alloc, "get", &stats.op_stats, StatClass::Get)?;
    let set = counted_text(alloc, "set", &stats.op_stats, StatClass::Set)?;
    let touch = counted_text(alloc, "touch", &stats.op_stats, StatClass::Touch)?;
    let own = counted_text(alloc, "other", &stats.op_stats, StatClass::Other)?;
    format!(in alloc;
        "{get} {set} {touch} {own} n{} b{} of {} e{}",
        stats.items, stats.bytes, stats.budget, stats.evicted
    )
}

fn name(answer: &Answer) -> &'static str {
    match answer {
        Answer::Stored => "stored",
        Answer::NotStored => "not stored",
        Answer::Exists => "exists",
        Answer::NotFound => "not found",
        Answer::TooLarge => "too large",
        Answer::NoCas => "no cas",
        Answer::NoMemory => "no memory",
        Answer::Miss => "miss",
        Answer::NonNumeric => "non-numeric",
        Answer::Deleted => "deleted",
        Answer::Touched => "touched",
        Answer::Done => "done",
        Answer::Reset => "reset",
        _ => "",
    }
}

fn fetched_text(
    alloc: Global,
    flags: u32,
    unique: u64,
    value: &Value,
) -> Result<String, AllocError> {
    let value = text(alloc, value)?;
    format!(in alloc; "{flags} {unique} {value}")
}

/// The answer as text.
pub fn shown(alloc: Global, answer: &Answer) -> Result<String, AllocError> {
    match answer {
        Answer::Hit {
            flags,
            unique,
            value,
        } => fetched_text(alloc, *flags, *unique, value),
        Answer::Number(number) => format!(in alloc; "{number}"),
        Answer::MetaHit(hit) => hit_text(alloc, hit),
        Answer::MetaDone(done) => done_text(alloc, done),
        Answer::Stats(stats) => stats_text(alloc, stats.get()),
        _ => String::from_str(alloc, name(answer)),
    }
}
