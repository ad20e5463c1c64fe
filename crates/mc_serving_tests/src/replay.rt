//! What no clause says: with ample memory a whole file is read and replayed, and each kind of bad
//! line is reported.
use crate::asserting::{equal, holds};
use crate::memory_line::MemoryLine;
use mc_model::Event;
use mc_replay::{ReplayError, ScheduleError, read_schedule, replay};
use mc_sizes::SizeError;
use std::test::Fail;

#[test]
fn a_file_is_read(rt: HostRuntime) -> Result<(), Fail> {
    let file = b"sim 2 3 1024 4\nopen 1\nfeed 1 6D6e0d0a\ntake 01 1000\npop 2 1\ngive 2\n";
    let plan = read_schedule(rt.alloc(), file)?;
    equal(&rt, plan.sizes.seats, 2);
    equal(&rt, plan.sizes.shards, 3);
    equal(&rt, plan.sizes.bytes, 1024);
    equal(&rt, plan.sizes.ring, 4);
    equal(&rt, plan.sizes.value, 1_048_576);
    equal(&rt, plan.sizes.window, 256);
    equal(&rt, plan.events.len(), 5);
    let fed = match plan.events.get(1) {
        Some(Event::Feed { seat: 1, bytes }) => bytes.as_slice() == b"mn\r\n".as_slice(),
        _ => false,
    };
    holds(&rt, fed);
    holds(
        &rt,
        matches!(
            plan.events.get(2),
            Some(Event::Take {
                seat: 1,
                moment: 1000
            })
        ),
    );
    holds(
        &rt,
        matches!(plan.events.get(3), Some(Event::Pop { shard: 2, seat: 1 })),
    );
    Ok(())
}

/// The first bad line of each text.
#[test]
fn bad_lines_are_flow(rt: HostRuntime) {
    let files = [
        (b"".as_slice(), 1),
        (b"\n".as_slice(), 1),
        (b"sim 1 1 1024".as_slice(), 1),
        (b"sim 0 1 1024 1".as_slice(), 1),
        (b"sim 65537 1 1024 1".as_slice(), 1),
        (b"sim 1 65 1024 1".as_slice(), 1),
        (b"sim 1 1 1023 1".as_slice(), 1),
        (b"sim 1 1 1024 1025".as_slice(), 1),
        (b"sim 1 1 1024 1 1024".as_slice(), 1),
        (b"sim 1 1 1024 1 1024 4097".as_slice(), 1),
        (b"sim 1 1 1024 1 1024 1 1".as_slice(), 1),
        (b"sim  1 1 1024 1".as_slice(), 1),
        (b"sim 1 1 1024 1\r\nopen 0".as_slice(), 1),
        (b"sim 1 1 1024 1\nopen 0\n\n".as_slice(), 3),
        (b"sim 1 1 1024 1\nopen 0 \n".as_slice(), 2),
        (b"sim 1 1 1024 1\nopen 1\n".as_slice(), 2),
        (b"sim 1 1 1024 1\ngive 1\n".as_slice(), 2),
        (b"sim 1 1 1024 1\npop 0 1\n".as_slice(), 2),
        (b"sim 1 1 1024 1\nopen 0\nfeed 0 \n".as_slice(), 3),
        (b"sim 1 1 1024 1\nopen 0\nfeed 0 6\n".as_slice(), 3),
        (b"sim 1 1 1024 1\nopen 0\nfeed 0 6g\n".as_slice(), 3),
        (b"sim 1 1 1024 1\ntake 0\n".as_slice(), 2),
        (b"sim 1 1 1024 1\ncall 0\n".as_slice(), 2),
    ];
    for (file, line) in files {
        match read_schedule(rt.alloc(), file) {
            Err(ScheduleError::Bad(number)) => equal(&rt, (file, number), (file, line)),
            _ => assert!(rt; false, "{file:?}"),
        }
    }
}

/// One command, and then the end of the input. A second take, hand and end are idle, and so is a
/// feed after the end.
const ENDS: &[u8] =
    b"sim 1 1 1024 1\nopen 0\nfeed 0 6d6e0d0a\ntake 0 7\ntake 0 8\nhand 0\nhand 0\nend 0\nend 0\nfeed 0 6d6e0d0a\n";

/// The events that are done are counted, and the idle ones.
#[test]
fn what_was_done_is_flow(rt: HostRuntime) -> Result<(), Fail> {
    let plan = read_schedule(rt.alloc(), ENDS)?;
    let mut flow = MemoryLine::new(rt.alloc(), b"")?;
    replay(&rt, rt.alloc(), &plan, &mut flow)?;
    let wanted = b"conn 0 seat 0 4d4e0d0a\ndone 5 idle 4\n";
    equal(&rt, flow.output.as_slice(), wanted.as_slice());
    Ok(())
}

#[test]
fn a_size_out_of_its_limits_is_refused(rt: HostRuntime) -> Result<(), Fail> {
    let mut plan = read_schedule(rt.alloc(), ENDS)?;
    plan.sizes.seats = 65_537;
    let mut flow = MemoryLine::new(rt.alloc(), b"")?;
    let refused = replay(&rt, rt.alloc(), &plan, &mut flow);
    equal(&rt, refused, Err(ReplayError::Size(SizeError::Seats)));
    equal(&rt, flow.output.len(), 0);
    Ok(())
}
