//! The input buffer of a reader.
ghost use Rattle.std.specs.Prelude.{◌≡◌, ◌+◌, ◌-◌, ◌≤◌, ◌<◌, ◌++◌, ◌↔◌, [], IfOk, IsTrue, length, take, drop, min};

use crate::room::{append, remove_front};
use mc_budget::ClientMemory;
use mc_wire::DEFAULT_LINE_LIMIT;
use std::alloc::{AllocError, Global};
use std::marker::Model;

/// An input buffer for the longest line. Contracts see the unread bytes and the limit.
///
/// The capacity is reserved at once, so that buffering never fails for want of memory; the system
/// provides pages only when they are written. An empty buffer keeps no more than the default line
/// limit.
#[derive(Drop)]
pub(crate) struct Buffer {
    bytes: Vec<u8>,
    /// Index of the first unread byte.
    start: usize,
    /// Maximum number of unread bytes.
    limit: usize,
    /// Whether bytes were written beyond what an empty buffer keeps.
    reached_far: bool,
    alloc: Global,
    /// The memory of which blocks that don't fit into the buffer take a lease.
    memory: ClientMemory,
}

impl Model for Buffer {
    ghost use Rattle.std.specs.Prelude.{ℕ, List, ◌≤◌, drop};
    ghost use Rattle.std.specs.Vec.{vec_len, vec_capacity};
    ghost use Rattle.mc_reader.specs.internal.Unread.{Unread};

    ghost Value = { Unread };

    ghost view = { λ buffer.
        record { bytes = drop buffer.start buffer.bytes.items; limit = buffer.limit } };

    ghost invariant = { λ buffer.
        (buffer.start ≤ vec_len buffer.bytes) × (vec_len buffer.bytes ≤ buffer.limit) ×
        (buffer.limit ≤ vec_capacity buffer.bytes) };
}

impl Buffer {
    /// An empty buffer for `limit` bytes. Reserves all its memory.
    pub(crate) fn new(
        alloc: Global,
        limit: usize,
        memory: ClientMemory,
    ) -> Result<Buffer, AllocError>
        ensures { IfOk result (λ buffer. (buffer.bytes ≡ []) × (buffer.limit ≡ limit)) }
    {
        Ok(Buffer {
            bytes: Vec::with_capacity(alloc, limit)?,
            start: 0,
            limit,
            reached_far: false,
            alloc,
            memory,
        })
    }

    /// The unread bytes.
    pub(crate) fn unread(&self) -> &[u8]
        ensures bytes { result.now ≡ self.now.bytes }
        ensures fits { length result.now ≤ self.now.limit }
    {
        self.bytes.as_slice().split_at(self.start).1
    }

    /// The memory that its connection shares with others.
    pub(crate) fn memory(&self) -> &ClientMemory {
        &self.memory
    }

    /// Whether the buffer is full.
    pub(crate) fn is_full(&self) -> bool
        ensures { IsTrue result ↔ (length self.now.bytes ≡ self.now.limit) }
    {
        self.unread().len() == self.limit
    }

    /// Whether it is empty, and is for lines of at most `limit` bytes.
    #[inline(always)]
    pub(crate) fn is_unused(&self, limit: usize) -> bool
        ensures bytes { IsTrue result → self.now.bytes ≡ [] }
        ensures limit { IsTrue result → self.now.limit ≡ limit }
    {
        self.limit == limit && self.start == self.bytes.len()
    }

    /// Consumes the first `count` bytes. If none is left, the whole buffer is free again.
    pub(crate) fn consume(&mut self, count: usize)
        requires { count ≤ length self.old.bytes }
        ensures bytes { self.new.bytes ≡ drop count self.old.bytes }
        ensures limit { self.new.limit ≡ self.old.limit }
    {
        self.start += count;
        if self.start == self.bytes.len() {
            self.clear();
        }
    }

    /// Drops all bytes. If they reached beyond what is kept, the buffer is reallocated.
    pub(crate) fn clear(&mut self)
        ensures bytes { self.new.bytes ≡ [] }
        ensures limit { self.new.limit ≡ self.old.limit }
    {
        if self.reached_far || self.bytes.len() > DEFAULT_LINE_LIMIT {
            self.renew();
        }
        self.bytes.clear();
        self.start = 0;
    }

    /// Replaces the memory by a fresh allocation, whose pages are untouched. If it is refused, the
    /// old one is kept.
    #[inline(never)]
    fn renew(&mut self)
        ensures bytes { self.new.bytes ≡ [] }
        ensures limit { self.new.limit ≡ self.old.limit }
    {
        self.bytes.clear();
        self.start = 0;
        if let Ok(room) = Vec::with_capacity(self.alloc, self.limit) {
            self.bytes = room;
            self.reached_far = false;
        }
    }

    /// Appends as much of the piece as fits after the bytes without moving any, and returns the
    /// number of bytes.
    pub(crate) fn push(&mut self, piece: &[u8]) -> usize
        ensures within { result ≤ length piece.now }
        ensures bytes { self.new.bytes ≡ self.old.bytes ++ take result piece.now }
        ensures limit { self.new.limit ≡ self.old.limit }
        ensures fits { length self.new.bytes ≤ self.new.limit }
    {
        append(&mut self.bytes, self.limit, piece)
    }

    /// Appends as much of the piece as fits, and returns the number of bytes. Moves the unread
    /// bytes to the front if that makes space.
    pub(crate) fn push_all(&mut self, piece: &[u8]) -> usize
        ensures count { result ≡ min (self.old.limit - length self.old.bytes) (length piece.now) }
        ensures bytes { self.new.bytes ≡ self.old.bytes ++ take result piece.now }
        ensures limit { self.new.limit ≡ self.old.limit }
        ensures fits { length self.new.bytes ≤ self.new.limit }
    {
        if self.limit - self.bytes.len() < piece.len() {
            self.reached_far |= self.bytes.len() > DEFAULT_LINE_LIMIT;
            remove_front(&mut self.bytes, self.start);
            self.start = 0;
        }
        append(&mut self.bytes, self.limit, piece)
    }
}
