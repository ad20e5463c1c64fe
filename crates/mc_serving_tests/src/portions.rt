//! Replies that a line takes in portions, and sometimes not at all.
use crate::asserting::{equal, holds};
use crate::memory_line::MemoryLine;
use bytes::Bytes;
use mc_transport::{Transport, TransportError, WriteBuffer};
use mc_wire::{Sink, SinkError, write_all};
use std::alloc::{AllocError, Global};
use std::test::Fail;

/// A line that takes a few bytes at a time, and nothing every other time.
#[derive(Drop)]
struct Portions<L> {
    line: L,
    portion: usize,
    takes: bool,
}

impl<L: Transport> Transport for Portions<L> {
    type Warrant = L::Warrant;

    ghost sight = { λ portions. L.sight portions.line };

    ghost place = { λ portions. L.place portions.line };

    fn begin(&mut self, seen: L::Warrant) {
        self.line.begin(seen);
    }

    fn read(&mut self, room: &mut [u8]) -> Result<usize, TransportError> {
        self.line.read(room)
    }

    fn write_if_ready(&mut self, bytes: &[u8], seen: &L::Warrant) -> Result<usize, SinkError> {
        self.takes = !self.takes;
        let most = if self.takes { self.portion } else { 0 };
        let (front, _) = bytes.split_at(bytes.len().min(most));
        self.line.write_if_ready(front, seen)
    }
}

/// Flushes the replies until none are left. Returns whether a thousand flushes sufficed.
fn flush_all<L: Transport<Warrant = ()>>(unwritten: &mut WriteBuffer, line: &mut L) -> bool {
    for _ in 0..1_000 {
        match unwritten.flush(line, &()) {
            Ok(true) => return true,
            Ok(false) => {}
            Err(SinkError) => return false,
        }
    }
    false
}

/// Writes a reply with a block that has two owners, and another reply after it. Returns whether
/// memory sufficed.
fn hand_out(alloc: Global, unwritten: &mut WriteBuffer) -> Result<bool, AllocError> {
    let block = Bytes::copy_from_slice(alloc, b"hello")?;
    let line = write_all(unwritten, b"VALUE a 0 5\r\n");
    let value = unwritten.put_shared(&block);
    let end = write_all(unwritten, b"\r\nEND\r\nSTORED\r\n");
    Ok(line.is_ok() && value.is_ok() && end.is_ok())
}

#[test]
fn replies_go_out_whole_in_portions_of_any_size(rt: HostRuntime) -> Result<(), Fail> {
    for portion in 1..40 {
        let mut unwritten = WriteBuffer::new(rt.alloc());
        holds(&rt, hand_out(rt.alloc(), &mut unwritten)?);
        let mut line = Portions {
            line: MemoryLine::new(rt.alloc(), b"")?,
            portion,
            takes: false,
        };
        holds(&rt, flush_all(&mut unwritten, &mut line));
        let output = b"VALUE a 0 5\r\nhello\r\nEND\r\nSTORED\r\n";
        equal(&rt, line.line.output.as_slice(), output.as_slice());
    }
    Ok(())
}
