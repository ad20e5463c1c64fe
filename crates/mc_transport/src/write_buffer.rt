//! Replies that are due and that their line has not taken yet.
ghost use Rattle.std.specs.Prelude.{◌≡◌, ◌↔◌, ◌<◌, ◌≤◌, ◌^◌, ◌++◌, [], false, IfOk, IsTrue, OnErr, OnOk, drop, length, take};
ghost use Rattle.mc_wire.specs.Sink.{Listed, broke, sight_out, took};
ghost use Rattle.mc_transport.specs.Lines.{HasGrown, TakesFront};
ghost use Rattle.mc_transport.specs.Chunks.{bytes_of};

use crate::buffer_pool::BufferPool;
use crate::reply_memory::ReplyMemory;
use crate::transport::Transport;
use bytes::Bytes;
use mc_budget::ClientMemory;
use mc_wire::{Sink, SinkError};
use std::alloc::{AllocError, Global};
use std::collections::VecDeque;
use std::io::IoSlice;
use std::mem;

/// The largest buffer of text that a thread keeps for later replies, in bytes; a larger one is
/// freed. It holds the replies to a full window of commands, unless these are longer than most.
const KEPT_TEXT: usize = 262_144;

/// The largest queue of chunks that a line keeps for later replies, in chunks.
const KEPT_CHUNKS: usize = 64;

/// The size of the buffer that a line has for its replies from the start, and the most that it
/// keeps while nothing waits, in bytes.
const OWN_ROOM: usize = 1_024;

/// Bytes that are contiguous.
#[derive(Drop)]
pub enum Chunk {
    /// Text that was copied.
    Text(Vec<u8>),
    /// A block that has other owners too.
    Shared(Bytes),
}

impl Chunk {
    /// The bytes.
    fn bytes(&self) -> &[u8]
        ensures { result.now ≡ bytes_of self.now }
    {
        match self {
            Chunk::Text(text) => text.as_slice(),
            Chunk::Shared(block) => block.as_slice(),
        }
    }
}

/// The replies that a line is to take. They wait in memory, so that no write blocks on a peer that
/// reads slowly. As a sink it fails where memory is refused.
#[derive(Drop)]
pub struct WriteBuffer {
    alloc: Global,
    /// What is written first, and how many of its bytes were written.
    pub(crate) front: Chunk,
    pub(crate) sent: usize,
    /// What is written after the front, before the tail.
    pub(crate) later: VecDeque<Chunk>,
    pub(crate) tail: Vec<u8>,
    /// Memory was refused.
    refused: bool,
    /// The memory of what waits, as a part of what all connections may hold.
    held: ReplyMemory,
    ghost within: { sent ≤ length (bytes_of front) },
}

impl WriteBuffer {
    ghost use Rattle.mc_transport.specs.Later.{IsAllWritten, IsAtTail, LacksRoom, ahead, behind, piece_behind, text_in};

    /// No replies. It takes no memory.
    pub fn new(alloc: Global) -> WriteBuffer
        ensures { text_in result ≡ [] }
    {
        WriteBuffer::empty(alloc, ReplyMemory::new(alloc, ClientMemory::unlimited()))
    }

    /// No replies. Their memory is counted there.
    fn empty(alloc: Global, held: ReplyMemory) -> WriteBuffer
        ensures { text_in result ≡ [] }
    {
        WriteBuffer {
            alloc,
            front: Chunk::Text(Vec::new(alloc)),
            sent: 0,
            later: VecDeque::new(alloc),
            tail: Vec::new(alloc),
            refused: false,
            held,
        }
    }

    /// No replies, with a buffer for small ones, so that they take no memory when they are due. What
    /// waits beyond some is leased from what connections share.
    pub(crate) fn sharing(alloc: Global, memory: ClientMemory) -> Result<WriteBuffer, AllocError>
        ensures { IfOk result (λ unwritten. text_in unwritten ≡ []) }
    {
        let mut unwritten = WriteBuffer::empty(alloc, ReplyMemory::new(alloc, memory));
        unwritten.tail = Vec::with_capacity(alloc, OWN_ROOM)?;
        Ok(unwritten)
    }

    /// Drops all replies, and frees their memory.
    pub fn clear(&mut self)
        ensures { text_in self.new ≡ [] }
    {
        self.front = Chunk::Text(Vec::new(self.alloc));
        self.sent = 0;
        self.later = VecDeque::new(self.alloc);
        self.tail = Vec::new(self.alloc);
        self.refused = false;
        self.held.give_back();
    }

    /// Takes the thread's buffer for the next replies, where it is larger than its own.
    pub fn borrow_room(&mut self, pool: &mut BufferPool)
        ensures { text_in self.new ≡ text_in self.old }
    {
        if self.tail.is_empty() && self.tail.capacity() < pool.reply_bytes() {
            pool.exchange(&mut self.tail);
        }
    }

    /// Returns the thread's buffer once all is written, or its own where that is larger, so that an
    /// idle line has a small one.
    pub fn return_room(&mut self, pool: &mut BufferPool)
        ensures { text_in self.new ≡ text_in self.old }
    {
        if !self.tail.is_empty() || self.tail.capacity() <= OWN_ROOM {
            return;
        }
        if self.tail.capacity() > pool.reply_bytes() {
            pool.exchange(&mut self.tail);
        }
        if self.tail.capacity() > OWN_ROOM {
            self.tail = Vec::new(self.alloc);
        }
    }

    /// What is left of the front.
    fn rest(&self) -> &[u8]
        ensures left { result.now ≡ drop self.now.sent (bytes_of self.now.front) }
        ensures fits { length (bytes_of self.now.front) < 2 ^ 64 }
    {
        self.front.bytes().split_at(self.sent).1
    }

    /// Whether nothing waits before the tail.
    fn at_tail(&self) -> bool
        ensures front { IsTrue result → drop self.now.sent (bytes_of self.now.front) ≡ [] }
        ensures later { IsTrue result → self.now.later.items ≡ [] }
    {
        if !self.later.is_empty() {
            return false;
        }
        self.rest().is_empty()
    }

    /// Whether no reply waits, and none was refused memory.
    pub(crate) fn is_blank(&self) -> bool
        ensures { IsTrue result → text_in self.now ≡ [] }
    {
        self.at_tail() && self.tail.is_empty() && !self.refused
    }

    /// Whether the line has to take some of them at once.
    pub(crate) fn waits(&self) -> bool
        ensures { IsTrue result → 0 < length (text_in self.now) }
    {
        !self.rest().is_empty()
    }

    /// What is at `place` behind the front, from 0: a chunk, then the tail, and then nothing.
    fn piece(&self, place: usize) -> &[u8]
        ensures { result.now ≡ piece_behind self.now.later.items self.now.tail.items place }
    {
        match self.later.get(place) {
            Some(chunk) => chunk.bytes(),
            None if place == self.later.len() => self.tail.as_slice(),
            None => &[],
        }
    }

    /// Offers a beginning of what waits to the line, and returns how many bytes it took, without
    /// waiting: the rest of the front and at most three pieces after it, in one write. All that
    /// waits may be written.
    fn offer<L: Transport>(&self, line: &mut L, seen: &L::Warrant) -> Result<usize, SinkError>
        requires may { L.Warrant.may_write (L.place line.old) (L.sight line.old) (text_in self.now)
            seen.now }
        ensures within { IfOk result (λ count. count ≤ length (text_in self.now)) }
        ensures ok { IfOk result (λ count.
            L.sight line.new ≡ took (take count (text_in self.now)) (L.sight line.old)) }
        ensures err { OnErr result (L.sight line.new ≡ broke (L.sight line.old)) }
        ensures place { L.place line.new ≡ L.place line.old }
    {
        let bufs = [
            IoSlice::new(self.rest()),
            IoSlice::new(self.piece(0)),
            IoSlice::new(self.piece(1)),
            IoSlice::new(self.piece(2)),
        ];
        line.write_vectored_if_ready(&bufs, seen)
    }

    /// The first `count` bytes of what waits were written.
    fn pass(&mut self, count: usize)
        requires { count ≤ length (text_in self.old) }
        ensures { text_in self.new ≡ drop count (text_in self.old) }
    {
        let mut left = count;
        while left > self.rest().len() {
            left -= self.rest().len();
            self.go_on();
        }
        self.sent += left;
    }

    /// The first `count` bytes of the tail were written, and nothing waits before it. Written
    /// whole, the tail keeps its room; else it becomes the front.
    fn pass_tail(&mut self, count: usize)
        requires first { IsAtTail self.old }
        requires within { count ≤ length self.old.tail.items }
        ensures { text_in self.new ≡ drop count (text_in self.old) }
    {
        if count == self.tail.len() {
            self.tail.clear();
            return;
        }
        self.go_on();
        self.pass(count);
    }

    /// What is behind the front becomes the front, and the old front is freed.
    fn go_on(&mut self)
        ensures text { text_in self.new ≡ behind self.old }
        ensures fewer { 0 < ahead self.old → ahead self.new < ahead self.old }
    {
        self.front = match self.later.pop_front() {
            Some(chunk) => chunk,
            None => Chunk::Text(mem::replace(&mut self.tail, Vec::new(self.alloc))),
        };
        self.sent = 0;
    }

    /// Frees the front, so that an idle line keeps no share of a value. Its room of text becomes
    /// the tail's, for the next replies, where it is the larger one.
    fn free_front(&mut self)
        requires { IsAllWritten self.old }
        ensures { IsAllWritten self.new }
    {
        let front = mem::replace(&mut self.front, Chunk::Text(Vec::new(self.alloc)));
        self.sent = 0;
        if let Chunk::Text(mut text) = front
            && text.capacity() > self.tail.capacity()
        {
            text.clear();
            self.tail = text;
        }
    }

    /// All is written: frees what the next replies don't need, which is the front and what is
    /// larger than `KEPT_TEXT` or `KEPT_CHUNKS`.
    #[inline(always)]
    fn free_spare(&mut self)
        requires { IsAllWritten self.old }
        ensures { text_in self.new ≡ [] }
    {
        if self.sent > 0 {
            self.free_front();
        }
        if self.tail.capacity() > KEPT_TEXT {
            self.tail = Vec::new(self.alloc);
        }
        if self.later.capacity() > KEPT_CHUNKS {
            self.later = VecDeque::new(self.alloc);
        }
        self.held.give_back();
    }

    /// Whether the tail has no room for so many bytes more.
    #[inline(always)]
    fn lacks_room(&self, count: usize) -> bool
        ensures { IsTrue result ↔ LacksRoom count self.now }
    {
        self.tail.capacity() - self.tail.len() < count
    }

    /// The text waits too, behind the rest. Where memory or a lease of it is refused, the rest waits
    /// as before.
    fn add(&mut self, text: &[u8]) -> Result<(), AllocError>
        ensures ok { OnOk result (text_in self.new ≡ text_in self.old ++ text.now) }
        ensures err { OnErr result (text_in self.new ≡ text_in self.old) }
        ensures full { OnErr result (LacksRoom (length text.now) self.old) }
        ensures refused { self.new.refused ≡ self.old.refused }
    {
        if self.lacks_room(text.len()) {
            // As much as the tail grows by at most.
            self.held.take(self.tail.capacity().max(text.len()))?;
        }
        self.tail.extend_from_slice(text)
    }

    /// The block waits too, behind the rest, and isn't copied. Where memory or a lease of it is
    /// refused, the rest waits as before.
    fn add_shared(&mut self, block: &Bytes) -> Result<(), AllocError>
        ensures ok { OnOk result
            (text_in self.new ≡ text_in self.old ++ block.now) }
        ensures err { OnErr result (text_in self.new ≡ text_in self.old) }
        ensures refused { self.new.refused ≡ self.old.refused }
    {
        self.held.take_shared(block.len())?;
        let share = block.clone()?;
        self.later.reserve(2)?;
        let text = mem::replace(&mut self.tail, Vec::new(self.alloc));
        self.later.push_back_reserved(Chunk::Text(text));
        self.later.push_back_reserved(Chunk::Shared(share));
        Ok(())
    }

    /// Writes to the line what it takes without waiting, and returns whether that was all. After an
    /// error the rest still waits. Once all is written, it keeps no memory but a room for the next
    /// replies. All that waits may be written, by what the warrant shows.
    pub fn flush<L: Transport>(
        &mut self,
        line: &mut L,
        seen: &L::Warrant,
    ) -> Result<bool, SinkError>
        requires may { L.Warrant.may_write (L.place line.old) (L.sight line.old) (text_in self.old)
            seen.now }
        ensures out { IfOk result (λ out. IsTrue out → text_in self.new ≡ []) }
        ensures ok { IfOk result (λ _.
            took (text_in self.new) (L.sight line.new) ≡
            took (text_in self.old) (L.sight line.old)) }
        ensures err { OnErr result
            (took (text_in self.new) (L.sight line.new) ≡
            broke (took (text_in self.old) (L.sight line.old))) }
        ensures some { OnErr result (0 < length (text_in self.new)) }
        ensures grows { HasGrown (L.sight line.old) (L.sight line.new) }
        ensures takes { IfOk result (λ _. TakesFront (text_in self.old) (text_in self.new)
            (L.sight line.old) (L.sight line.new)) }
        ensures place { L.place line.new ≡ L.place line.old }
    {
        for _ in 0..u64::MAX {
            if self.at_tail() {
                // Most replies: text alone, which the line takes whole from where it is.
                if self.tail.is_empty() {
                    self.free_spare();
                    return Ok(true);
                }
                let wrote = line.write_if_ready(self.tail.as_slice(), seen)?;
                self.pass_tail(wrote);
            } else if self.rest().is_empty() {
                self.go_on();
            } else {
                let count = self.offer(line, seen)?;
                if count == 0 {
                    return Ok(false);
                }
                self.pass(count);
            }
        }
        Ok(false)
    }
}

impl Sink for WriteBuffer {
    ghost use Rattle.mc_transport.specs.Later.{LacksRoom, text_in};

    ghost sight = { λ unwritten. sight_out (Listed (text_in unwritten)) unwritten.refused };

    fn write(&mut self, bytes: &[u8]) -> Result<usize, SinkError>
        ensures within { IfOk result (λ count. count ≤ length bytes.now) }
        ensures some { IfOk result (λ count. 0 < length bytes.now → 0 < count) }
        ensures ok { IfOk result (λ count. sight_out (Listed (text_in self.new)) self.new.refused ≡
            took (take count bytes.now) (sight_out (Listed (text_in self.old)) self.old.refused)) }
        ensures err { OnErr result (sight_out (Listed (text_in self.new)) self.new.refused ≡
            broke (sight_out (Listed (text_in self.old)) self.old.refused)) }
        // Once it took all so far, it refuses only what there is no room for without more memory.
        ensures full { OnErr result
            (self.old.refused ≡ false → LacksRoom (length bytes.now) self.old) }
    {
        if self.refused || self.add(bytes).is_err() {
            self.refused = true;
            return Err(SinkError);
        }
        Ok(bytes.len())
    }

    fn put_shared(&mut self, block: &Bytes) -> Result<(), SinkError> {
        if self.refused || self.add_shared(block).is_err() {
            self.refused = true;
            return Err(SinkError);
        }
        Ok(())
    }

    fn shares(&self) -> bool {
        true
    }
}
