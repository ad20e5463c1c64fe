//! Runs the worked rows of data/rows.txt through `serve_one`, under the native rules and
//! memcached's. Each row is run whole, cut into small pieces, with its output taken in small or
//! gathered writes, and with each read and write failing in turn. Prints the rows with wrong
//! output, and those whose connection held too many bytes.
#![tactic(auto)]

mod escape;
mod held;
mod line;
mod row;

use held::{blocks_held, is_bounded};
use line::{Cutting, MemoryLine};
use mc_command::Profile;
use mc_server::{FixedClock, open_one, serve_one};
use mc_sizes::{DEFAULT_RING, MAX_BUDGET, MIN_BUDGET, Sizes};
use mc_transport::Served;
use mc_wire::{DEFAULT_LINE_LIMIT, MAX_VALUE_LIMIT};
use row::{Row, split_at_tab};
use std::alloc::Global;
use std::io::Print;
use std::random::RandomSource;
use std::sync::Wait;
use std::{fs, io};

/// Bytes per read for a row that isn't cut.
const WHOLE: usize = 65_536;

/// Values of at least this size are shared, not copied, while they wait to be written.
const SHARED: usize = 1_024;

/// No read or write fails.
const NEVER: usize = usize::MAX;

/// Maximum sizes of a read and of a write, to be tried together.
const CUTTINGS: [(usize, usize); 7] = [
    (WHOLE, WHOLE),
    (1, WHOLE),
    (2, WHOLE),
    (3, WHOLE),
    (7, WHOLE),
    (WHOLE, 1),
    (1, 1),
];

/// Windows to try: one open command, or more than a read brings.
const WINDOWS: [usize; 2] = [1, WIDE];

/// A window that no row fills.
const WIDE: usize = 256;

/// Number of first reads and writes of a line that fail in turn.
const FAILURES: usize = 200;

/// Serves a line with this input by new shards, at the row's time and with this window. Returns the
/// line too; `None` if the server refuses.
fn served<'a, R: Wait + RandomSource>(
    rt: &R,
    alloc: Global,
    row: &Row,
    window: usize,
    input: &'a [u8],
    cutting: Cutting,
) -> Option<(Served, MemoryLine<'a>)> {
    let is_budget = row.bytes >= MIN_BUDGET && row.bytes <= MAX_BUDGET;
    if !is_budget || row.value > MAX_VALUE_LIMIT {
        return None;
    }
    let sizes = Sizes {
        profile: row.profile,
        seats: 1,
        shards: 2,
        bytes: row.bytes,
        ring: DEFAULT_RING,
        value: row.value,
        line: DEFAULT_LINE_LIMIT,
        window: window.max(1),
        shutdown: false,
    };
    let Ok((opening, seen)) = open_one(alloc, sizes) else {
        return None;
    };
    let mut line = MemoryLine::new(alloc, input, cutting, &seen);
    let clock = FixedClock(row.moment);
    let served = serve_one(rt, alloc, opening, &mut line, sizes, &clock).ok()?;
    Some((served, line))
}

/// Whether a line that is cut in this way, and doesn't fail, gets this output.
fn takes<R: Wait + RandomSource>(
    rt: &R,
    alloc: Global,
    row: &Row,
    window: usize,
    input: &[u8],
    cutting: Cutting,
    output: &[u8],
) -> bool {
    match served(rt, alloc, row, window, input, cutting) {
        Some((served, line)) => !served.broke && line.output() == output,
        None => false,
    }
}

/// Whether the row's output is right however its input and output are cut.
fn is_right_cut<R: Wait + RandomSource>(rt: &R, alloc: Global, row: &Row, window: usize) -> bool {
    for (piece, portion) in CUTTINGS {
        let cutting = Cutting {
            piece,
            portion,
            fails_at: NEVER,
        };
        if !takes(
            rt,
            alloc,
            row,
            window,
            row.input.as_slice(),
            cutting,
            row.output.as_slice(),
        ) {
            return false;
        }
    }
    true
}

/// Whether the row's output is right if nothing is cut; a short one must be a single write.
fn is_right_whole<R: Wait + RandomSource>(rt: &R, alloc: Global, row: &Row) -> bool {
    let cutting = Cutting {
        piece: WHOLE,
        portion: WHOLE,
        fails_at: NEVER,
    };
    let Some((served, line)) = served(rt, alloc, row, WIDE, row.input.as_slice(), cutting) else {
        return false;
    };
    // One read of the input, one of its end, and one write. A value of 1 KiB or more isn't copied
    // after its header: it takes a write of its own, and so does the text after it.
    let is_short = row.input.len() <= WHOLE && row.output.len() <= 16_384;
    let shared = row.values_longer_than(SHARED - 1);
    let few = !is_short || line.calls() <= shared.saturating_mul(2).saturating_add(3);
    !served.broke && few && line.output() == row.output.as_slice()
}

/// Whether a line that failed at one of its calls was reported as failed, and got a prefix of the
/// row's output. After a failed read, this prefix is the complete replies to what was read.
fn is_right_failed<R: Wait + RandomSource>(
    rt: &R,
    alloc: Global,
    row: &Row,
    served: Served,
    line: &MemoryLine<'_>,
) -> bool {
    if !served.broke || !row.output.as_slice().starts_with(line.output()) {
        return false;
    }
    let whole = Cutting {
        piece: WHOLE,
        portion: WHOLE,
        fails_at: NEVER,
    };
    !line.has_failed_reading() || takes(rt, alloc, row, WIDE, line.given(), whole, line.output())
}

/// Whether the row is right with each of its first reads and writes failing in turn.
fn is_right_failing<R: Wait + RandomSource>(
    rt: &R,
    alloc: Global,
    row: &Row,
    window: usize,
) -> bool {
    for fails_at in 0..FAILURES {
        let cutting = Cutting {
            piece: 5,
            portion: 3,
            fails_at,
        };
        let input = row.input.as_slice();
        let Some((served, line)) = served(rt, alloc, row, window, input, cutting) else {
            return false;
        };
        if !line.has_failed() {
            return !served.broke && line.output() == row.output.as_slice();
        }
        if !is_right_failed(rt, alloc, row, served, &line) {
            return false;
        }
    }
    true
}

/// What is wrong with a row, if anything.
fn fault_of<R: Wait + RandomSource>(rt: &R, alloc: Global, row: &Row) -> Option<&'static str> {
    if !is_right_whole(rt, alloc, row) {
        return Some("wrong where nothing is cut");
    }
    for window in WINDOWS {
        if !is_right_cut(rt, alloc, row, window) {
            return Some("wrong");
        }
        if !is_right_failing(rt, alloc, row, window) {
            return Some("wrong where the line fails");
        }
    }
    if !is_bounded(alloc, row.input.as_slice()) {
        return Some("held beyond its bound");
    }
    None
}

/// Runs the rows under this profile. Returns the number of rows, and of wrong ones.
fn try_rows<R: Print + Wait + RandomSource + Alloc<A = Global>>(
    rt: &R,
    text: &str,
    profile: Profile,
) -> io::Result<(u32, u32)> {
    let mut rows = 0u32;
    let mut failed = 0u32;
    for line in text.lines() {
        let bytes = line.as_bytes();
        let Some(row) = Row::read(rt.alloc(), profile, bytes)? else {
            continue;
        };
        rows = rows.saturating_add(1);
        if let Some(fault) = fault_of(rt, rt.alloc(), &row) {
            failed = failed.saturating_add(1);
            println!(rt; "{fault}: {line}")?;
        }
    }
    Ok((rows, failed))
}

fn main(rt: HostRuntime) -> io::Result<()> {
    let text = fs::read_to_string(&rt, "rows.txt")?;
    let (rows, failed) = try_rows(&rt, text.as_str(), Profile::Own)?;
    let (again, missed) = try_rows(&rt, text.as_str(), Profile::DropIn)?;
    let (blocks, wrong) = blocks_held(rt.alloc());
    println!(rt; "{blocks} blocks, {wrong} held beyond their bounds or not whole")?;
    println!(rt; "{rows} rows, {failed} wrong")?;
    println!(rt; "{again} rows by memcached's rules, {missed} wrong")
}
