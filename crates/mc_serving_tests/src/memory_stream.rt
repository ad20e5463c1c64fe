//! Streams over memory, whose bytes are known, which come in at a slot one after another.
ghost use Rattle.std.specs.Prelude.{Some};
ghost use Rattle.std.specs.Vec.Iter.{into_iter_items};

use crate::asserting::{equal, holds};
use crate::sizes::SMALL;
use mc_budget::ClientMemory;
use mc_net::{Accept, Arrivals, NewStream, Stream};
use mc_poll::{Poller, SpinPolicy};
use mc_serve::{ServeError, serve_streams};
use mc_server::FixedClock;
use mc_telemetry::Meter;
use mc_worker::OpenGate;
use std::alloc::{AllocError, Global};
use std::io;
use std::io::{IoSlice, Read, Write};
use std::sync::Arc;
use std::sync::atomic::{AtomicU64, Ordering};
use std::test::Fail;
use std::vec::IntoIter;

/// A stream over memory.
#[derive(Drop)]
struct MemoryStream {
    input: &'static [u8],
    output: Vec<u8>,
    /// Number of bytes that this stream and others took.
    written: Arc<AtomicU64, Global>,
}

impl Stream for MemoryStream {
    ghost remaining = { λ stream. Some stream.input.now };

    ghost contents = { λ stream. Some stream.output.items };

    fn read(&mut self, room: &mut [u8]) -> io::Result<usize> {
        self.input.read(room)
    }

    fn peek(&self, room: &mut [u8]) -> io::Result<usize> {
        let mut input = self.input;
        input.read(room)
    }

    fn write(&mut self, bytes: &[u8]) -> io::Result<usize> {
        self.written.fetch_add(bytes.len() as u64, Ordering::SeqCst);
        self.output.write(bytes)
    }

    fn write_vectored(&mut self, bufs: &[IoSlice<'_>]) -> io::Result<usize> {
        let count = self.output.write_vectored(bufs)?;
        self.written.fetch_add(count as u64, Ordering::SeqCst);
        Ok(count)
    }

    fn end_output(&mut self) -> io::Result<()> {
        Ok(())
    }
}

/// The streams of one slot.
#[derive(Drop)]
struct MemoryArrivals {
    coming: IntoIter<MemoryStream>,
}

impl Arrivals for MemoryArrivals {
    type Stream = MemoryStream;

    ghost coming = { λ arrivals. Some (into_iter_items arrivals.coming) };

    fn next(&mut self) -> Accept<NewStream<MemoryStream>> {
        match self.coming.next() {
            Some(stream) => Accept::Came(NewStream {
                stream,
                meter: Meter::unwatched(),
                is_polled: false,
            }),
            None => Accept::Over,
        }
    }

    fn close(&mut self, _meter: &Meter, _commands: u64, _broke: bool) {}

    fn call_again(&self, _at_once: bool) {}

    fn has_failed(&self) -> bool {
        false
    }
}

/// Streams with these inputs.
fn arrivals(
    alloc: Global,
    inputs: &[&'static [u8]],
    written: &Arc<AtomicU64, Global>,
) -> Result<MemoryArrivals, AllocError> {
    let mut coming = Vec::new(alloc);
    for input in inputs {
        coming.push(MemoryStream {
            input: *input,
            output: Vec::new(alloc),
            written: Arc::try_clone(written)?,
        })?;
    }
    Ok(MemoryArrivals {
        coming: coming.into_iter(),
    })
}

/// Each stream of each slot is served in turn, and nothing after `quit` is read.
#[test]
fn streams_over_memory_are_served(rt: HostRuntime) -> Result<(), Fail> {
    let alloc = rt.alloc();
    let written = Arc::new(alloc, AtomicU64::new(0))?;
    let mut seats = Vec::new(alloc);
    seats.push(arrivals(alloc, &[b"mn\r\n", b"mn\r\nquit\r\nmn\r\n"], &written)?)?;
    seats.push(arrivals(alloc, &[b"set a 0 0 1\r\nx\r\nget a\r\n"], &written)?)?;
    let spin_policy = SpinPolicy::among(&rt, 4);
    let mut pollers = Vec::new(alloc);
    for _ in 0..2 {
        pollers.push(Poller::new(alloc, spin_policy, 0, 1, 0)?)?;
    }
    for _ in 0..2 {
        pollers.push(Poller::new(alloc, spin_policy, 2, 0, 1)?)?;
    }
    let clock = FixedClock(1000);
    let memory = ClientMemory::unlimited();
    match serve_streams(&rt, alloc, seats, pollers, SMALL, OpenGate, clock, memory) {
        Ok(served) => {
            equal(&rt, served.ended, 3);
            let replies = b"MN\r\nMN\r\nSTORED\r\nVALUE a 0 1\r\nx\r\nEND\r\n";
            equal(&rt, written.load(Ordering::SeqCst), replies.len() as u64);
        }
        Err(refusal) => holds(
            &rt,
            refusal == ServeError::Memory || refusal == ServeError::Thread,
        ),
    }
    Ok(())
}
