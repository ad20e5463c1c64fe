//! How a seat reads its line: once the replies to the commands taken are written.
ghost use Rattle.std.specs.Prelude.{◌≡◌, [], IsTrue};

use crate::buffer_pool::BufferPool;
use crate::read_buffer::{ReadBuffer, Refilled};
use crate::transport::Transport;
use mc_conn::{Conn, Taken};
use std::alloc::Global;

/// What comes next.
#[derive(Clone, Copy, Debug, PartialEq, Eq)]
pub(crate) enum AfterTurn {
    /// Another turn.
    Continues,
    /// Another turn, once the line has more bytes.
    Waits,
    /// Nothing: the line has ended, or was closed.
    Ended,
    /// Nothing: the line has failed.
    Failed,
}

/// The bytes that were read of a line and that its connection did not take yet.
#[derive(Drop)]
pub(crate) struct ReadSide {
    unread: ReadBuffer,
}

impl ReadSide {
    ghost use Rattle.mc_transport.specs.internal.Steps.{FeedSays, HandedSays, ReadOnSays};

    /// No bytes. It takes no memory.
    pub(crate) fn new(alloc: Global) -> ReadSide
        ensures { result.unread ≡ [] }
    {
        ReadSide {
            unread: ReadBuffer::new(alloc),
        }
    }

    /// Whether there are none.
    pub(crate) fn is_empty(&self) -> bool
        ensures { IsTrue result → self.now.unread ≡ [] }
    {
        self.unread.is_empty()
    }

    /// Drops the bytes of the last line.
    pub(crate) fn renew(&mut self)
        ensures { self.new.unread ≡ [] }
    {
        self.unread.clear();
    }

    /// One turn, once all replies are written: reads more bytes if that is why no further command
    /// was taken.
    pub(crate) fn go_on<L: Transport>(
        &mut self,
        conn: &mut Conn,
        line: &mut L,
        stop: Taken,
        pool: &mut BufferPool,
    ) -> AfterTurn
        ensures says { HandedSays result stop conn.old self.old.unread (L.sight line.old) conn.new
            self.new.unread (L.sight line.new) }
        ensures waits { result ≡ AfterTurn.Waits → stop ≡ Taken.NeedMore }
        ensures place { L.place line.new ≡ L.place line.old }
    {
        match stop {
            Taken::NeedMore => self.read_on(conn, line, pool),
            Taken::Closed => AfterTurn::Ended,
            Taken::Opened(_) | Taken::Full => AfterTurn::Continues,
        }
    }

    /// Feeds the connection what was read, as far as it takes it. Where all was fed, more is read
    /// first. A read that fails breaks the connection.
    fn read_on<L: Transport>(
        &mut self,
        conn: &mut Conn,
        line: &mut L,
        pool: &mut BufferPool,
    ) -> AfterTurn
        ensures says { ReadOnSays result conn.old self.old.unread (L.sight line.old) conn.new
            self.new.unread (L.sight line.new) }
        ensures place { L.place line.new ≡ L.place line.old }
    {
        if !self.unread.is_empty() {
            self.feed(conn, pool);
            return AfterTurn::Continues;
        }
        match self.unread.refill(line, pool) {
            Err(_fault) => {
                conn.broken();
                return AfterTurn::Failed;
            }
            Ok(Refilled::Nothing) => return AfterTurn::Waits,
            Ok(Refilled::NoRoom) => return AfterTurn::Continues,
            Ok(Refilled::Bytes) => {}
        }
        if self.unread.is_empty() {
            self.unread.give_back(pool);
            conn.end();
            return AfterTurn::Continues;
        }
        self.feed(conn, pool);
        AfterTurn::Continues
    }

    /// Feeds the connection what was read, as far as it takes it.
    fn feed(&mut self, conn: &mut Conn, pool: &mut BufferPool)
        ensures { FeedSays conn.old self.old.unread conn.new self.new.unread }
    {
        let count = conn.feed(self.unread.bytes());
        self.unread.advance(count);
        self.unread.give_back(pool);
    }
}
