//! The buffers that the lines of one thread share: one to read into, and one for replies.
ghost use Rattle.std.specs.Prelude.{◌≡◌, ◌<◌, [], OnOk, length};

use crate::buffered_conn::BufferedConn;
use mc_budget::ClientMemory;
use std::alloc::{AllocError, Global};
use std::mem;

/// At most this many bytes are read at once.
const ROOM: usize = 65_536;

/// The most buffers of lines at rest that are kept for other lines; more are freed.
const KEPT_CONNS: usize = 256;

/// Buffers that no line took while the thread slept so often are freed.
const TRIM_SLEEPS: u32 = 64;

/// While no more lines of the thread than this have buffers, a line at rest keeps its own, which
/// saves the exchange at each request.
const HELD_CONNS: usize = 128;

/// A buffer to read into and one for replies. A line takes the first to read, and returns it once
/// the bytes are fed. It takes the second for its replies, and returns it once they are written. So
/// a line that waits for its client has neither.
#[derive(Drop)]
pub struct BufferPool {
    alloc: Global,
    /// Empty while a line has it.
    pub(crate) input: Vec<u8>,
    replies: Vec<u8>,
    /// Buffers of lines that came to rest.
    conns: Vec<Box<BufferedConn>>,
    /// How many of them no line has taken since the last were freed.
    unused: usize,
    /// How often the thread has slept since then.
    sleeps: u32,
    /// Number of lines that have buffers.
    held: usize,
    /// What connections share.
    memory: ClientMemory,
    ghost empty: { replies.items ≡ [] },
}

impl BufferPool {
    /// Both buffers, for lines whose memory has no limit. The one for replies has no memory yet.
    pub fn new(alloc: Global) -> Result<BufferPool, AllocError> {
        BufferPool::sharing(alloc, ClientMemory::unlimited())
    }

    /// Both buffers, for lines that share this memory. The one for replies has no memory yet.
    pub fn sharing(alloc: Global, memory: ClientMemory) -> Result<BufferPool, AllocError> {
        Ok(BufferPool {
            alloc,
            input: vec![in alloc; 0; ROOM]?,
            replies: Vec::new(alloc),
            conns: Vec::new(alloc),
            unused: 0,
            sleeps: 0,
            held: 0,
            memory,
        })
    }

    /// A handle to what connections share.
    pub(crate) fn memory(&self) -> Result<ClientMemory, AllocError> {
        self.memory.share()
    }

    /// Makes sure that there is a buffer to read into: a new one where a line has it.
    pub(crate) fn prepare_input(&mut self) -> Result<(), AllocError>
        ensures { OnOk result (0 < length self.new.input.items) }
    {
        if self.input.is_empty() {
            self.input = vec![in self.alloc; 0; ROOM]?;
        }
        Ok(())
    }

    /// Takes the buffer with what was read into it.
    pub(crate) fn take_input(&mut self) -> Vec<u8>
        ensures { result.items ≡ self.old.input.items }
    {
        mem::replace(&mut self.input, Vec::new(self.alloc))
    }

    /// Keeps the buffer to read into if there is none, else drops it.
    pub(crate) fn keep_input(&mut self, room: Vec<u8>) {
        if self.input.is_empty() {
            self.input = room;
        }
    }

    /// Whether more than `HELD_CONNS` lines have buffers: then a line at rest returns its own.
    #[inline(always)]
    pub(crate) fn is_short(&self) -> bool {
        self.held > HELD_CONNS
    }

    /// Notes that one more line has buffers.
    pub(crate) fn note_held(&mut self) {
        self.held = self.held.saturating_add(1);
    }

    /// Takes the buffers of some line that came to rest, if there are any.
    pub(crate) fn take_conn(&mut self) -> Option<Box<BufferedConn>> {
        let conn = self.conns.pop()?;
        self.unused = self.unused.min(self.conns.len());
        Some(conn)
    }

    /// Keeps the buffers of a line that came to rest for another line. Drops them where enough are
    /// kept, or memory is refused.
    pub(crate) fn keep_conn(&mut self, conn: Box<BufferedConn>) {
        self.held = self.held.saturating_sub(1);
        if self.conns.len() < KEPT_CONNS {
            let _ = self.conns.push(conn);
        }
    }

    /// Frees buffers of lines at rest that no line has needed for a while. Call it before each sleep
    /// of the thread.
    pub fn trim(&mut self) {
        self.sleeps = self.sleeps.saturating_add(1);
        if self.sleeps < TRIM_SLEEPS {
            return;
        }
        self.sleeps = 0;
        let used = self.conns.len().saturating_sub(self.unused);
        self.conns.truncate(used);
        self.unused = used;
    }

    /// Size of the buffer for replies, in bytes.
    pub(crate) fn reply_bytes(&self) -> usize {
        self.replies.capacity()
    }

    /// Exchanges the buffer for replies and this one, which has no bytes.
    pub(crate) fn exchange(&mut self, room: &mut Vec<u8>)
        requires { room.old.items ≡ [] }
        ensures { room.new.items ≡ [] }
    {
        mem::swap(&mut self.replies, room);
    }
}
