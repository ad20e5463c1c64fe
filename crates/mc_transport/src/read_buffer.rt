//! The bytes that were read from a line and not fed to its connection yet.
ghost use Rattle.std.specs.Prelude.{◌≡◌, ◌≢◌, ◌==◌, ◌≤◌, [], OnErr, IfOk, length, drop};
ghost use Rattle.mc_wire.specs.Sink.{asked, broke, gave};
ghost use Rattle.mc_transport.specs.declared.read_buffer.Refilled.TheVariants.{Bytes};

use crate::buffer_pool::BufferPool;
use crate::transport::{Transport, TransportError};
use std::alloc::Global;
use std::marker::Model;
use std::mem;

/// Bytes that were read and not fed yet. It has a buffer only while there are some.
#[derive(Drop)]
pub(crate) struct ReadBuffer {
    alloc: Global,
    room: Vec<u8>,
    start: usize,
    end: usize,
}

/// The result of a read.
#[derive(Clone, Copy)]
pub(crate) enum Refilled {
    /// Some bytes, or none at the end of its input.
    Bytes,
    /// Nothing yet.
    Nothing,
    /// The line was not read, since memory for a buffer was refused.
    NoRoom,
}

impl Model for ReadBuffer {
    ghost use Rattle.std.specs.Prelude.{ℕ, List, ◌-◌, ◌≤◌, take, drop, length};

    ghost Value = { List ℕ };

    ghost view = { λ unread.
        take (unread.end - unread.start) (drop unread.start unread.room.items) };

    ghost invariant = { λ unread.
        (unread.start ≤ unread.end) × (unread.end ≤ length unread.room.items) };
}

impl ReadBuffer {
    /// No bytes. It takes no memory.
    pub(crate) fn new(alloc: Global) -> ReadBuffer
        ensures { result ≡ [] }
    {
        ReadBuffer {
            alloc,
            room: Vec::new(alloc),
            start: 0,
            end: 0,
        }
    }

    /// Whether there are none.
    pub(crate) fn is_empty(&self) -> bool
        ensures { result ≡ (length self.now == 0) }
    {
        self.start == self.end
    }

    /// The bytes, in the order in which they were read.
    pub(crate) fn bytes(&self) -> &[u8]
        ensures { result.now ≡ self.now }
    {
        let (front, _) = self.room.as_slice().split_at(self.end);
        front.split_at(self.start).1
    }

    /// Notes that `count` bytes, from the front, were fed.
    pub(crate) fn advance(&mut self, count: usize)
        requires { count ≤ length self.old }
        ensures { self.new ≡ drop count self.old }
    {
        self.start += count;
    }

    /// Drops them and the buffer.
    pub(crate) fn clear(&mut self)
        ensures { self.new ≡ [] }
    {
        self.room = Vec::new(self.alloc);
        self.start = 0;
        self.end = 0;
    }

    /// Returns the buffer to the pool, if all its bytes were fed.
    pub(crate) fn give_back(&mut self, pool: &mut BufferPool)
        ensures { self.new ≡ self.old }
    {
        if self.start == self.end {
            self.start = 0;
            self.end = 0;
            pool.keep_input(mem::replace(&mut self.room, Vec::new(self.alloc)));
        }
    }

    /// Reads more bytes, in place of those that are there: none only at the end of the input. An
    /// error is one of the line.
    pub(crate) fn refill<L: Transport>(
        &mut self,
        line: &mut L,
        pool: &mut BufferPool,
    ) -> Result<Refilled, TransportError>
        ensures bytes { IfOk result
            (λ got. got ≡ Bytes → L.sight line.new ≡ gave self.new (asked (L.sight line.old))) }
        ensures same { IfOk result (λ got. got ≢ Bytes → L.sight line.new ≡ L.sight line.old) }
        ensures none { IfOk result (λ got. got ≢ Bytes → self.new ≡ []) }
        ensures err { OnErr result (L.sight line.new ≡ broke (asked (L.sight line.old))) }
        ensures place { L.place line.new ≡ L.place line.old }
    {
        self.start = 0;
        self.end = 0;
        if pool.prepare_input().is_err() {
            return Ok(Refilled::NoRoom);
        }
        let Some(count) = line.read_if_ready(pool.input.as_mut_slice())? else {
            return Ok(Refilled::Nothing);
        };
        self.room = pool.take_input();
        self.end = count;
        Ok(Refilled::Bytes)
    }
}
