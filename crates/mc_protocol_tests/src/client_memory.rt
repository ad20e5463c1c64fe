//! Tests of the memory that connections share: leases are granted while there is room, and blocks
//! that are cut short take one.
use crate::asserting::{equal, holds};
use mc_budget::{ClientMemory, Lease, Refused};
use mc_command::{Command, CommandError, Rules};
use mc_reader::{Next, Reader};
use std::alloc::{AllocError, Global};
use std::process::Abort;
use std::test::Fail;

/// Why these bytes are refused, if they are.
fn refused(leased: Result<Lease, Refused>) -> Option<Refused> {
    leased.err()
}

#[test]
fn leases_up_to_the_limit(rt: HostRuntime) -> Result<(), Fail> {
    let memory = ClientMemory::new(rt.alloc(), 100)?;
    let other = memory.share()?;
    let first = memory.lease(60);
    equal(&rt, refused(other.lease(41)), Some(Refused::Full(60)));
    let second = other.lease(40);
    holds(&rt, first.is_ok() && second.is_ok());
    equal(&rt, (memory.leased(), other.limit()), (100, Some(100)));
    equal(&rt, refused(memory.lease(1)), Some(Refused::Full(100)));
    drop(first);
    equal(&rt, other.leased(), 40);
    equal(
        &rt,
        refused(memory.lease(u64::MAX)),
        Some(Refused::Full(40)),
    );
    drop(second);
    equal(&rt, memory.leased(), 0);
    Ok(())
}

#[test]
fn unlimited_memory_refuses_nothing(rt: HostRuntime) -> Result<(), Fail> {
    let memory = ClientMemory::unlimited();
    let first = memory.lease(u64::MAX);
    let second = memory.lease(u64::MAX);
    holds(&rt, first.is_ok() && second.is_ok());
    equal(&rt, (memory.leased(), memory.limit()), (0, None));
    Ok(())
}

/// A reader with this memory, which was fed the front of a block of 600 bytes.
fn begun(rt: &impl Abort, alloc: Global, memory: &ClientMemory) -> Result<Reader, Fail> {
    let mut reader = Reader::sharing(alloc, Rules::own(1_024), memory.share()?).map_err(
        |_| AllocError,
    )?;
    let front = b"set a 0 0 600\r\nxxx";
    equal(rt, reader.feed(front), front.len());
    holds(rt, matches!(reader.next(alloc), Next::NeedMore));
    Ok(reader)
}

/// Feeds the rest of the block.
fn finish(rt: &impl Abort, alloc: Global, reader: &mut Reader) -> Next {
    equal(rt, reader.feed([b'x'; 597].as_slice()), 597);
    equal(rt, reader.feed(b"\r\n"), 2);
    reader.next(alloc)
}

#[test]
fn an_open_block_takes_a_lease(rt: HostRuntime) -> Result<(), Fail> {
    let alloc = rt.alloc();
    let memory = ClientMemory::new(alloc, 1_203)?;
    let mut first = begun(&rt, alloc, &memory)?;
    equal(&rt, memory.leased(), 602);
    let mut second = begun(&rt, alloc, &memory)?;
    holds(&rt, second.is_skipping() && !first.is_skipping());
    let stored = finish(&rt, alloc, &mut first);
    holds(&rt, matches!(stored, Next::Command(Command::Store(_))));
    equal(&rt, memory.leased(), 0);
    let skipped = finish(&rt, alloc, &mut second);
    holds(
        &rt,
        matches!(
            skipped,
            Next::Command(Command::Refused(CommandError::Memory)),
        ),
    );
    let third = begun(&rt, alloc, &memory)?;
    equal(&rt, memory.leased(), 602);
    drop(third);
    equal(&rt, memory.leased(), 0);
    Ok(())
}
