//! Serves one line: once the commands taken are answered, their replies are written, more is read,
//! and more commands are taken.
ghost use Rattle.std.specs.Prelude.{◌≡◌, ◌↔◌, IfOk, IfSome, IsTrue};
ghost use Rattle.mc_sizes.specs.Sizes.{SuitLines, rules_of};

use crate::buffer_pool::BufferPool;
use crate::read_side::{AfterTurn, ReadSide};
use crate::transport::{Clock, Taking, Transport};
use crate::write_buffer::WriteBuffer;
use mc_budget::ClientMemory;
use mc_conn::{Conn, RestingConn, Taken};
use mc_sizes::Sizes;
use std::alloc::{AllocError, Global};

/// How a line ended.
#[derive(Clone, Copy)]
pub struct Served {
    /// Number of commands taken.
    pub commands: u64,
    /// Whether the line failed.
    pub broke: bool,
}

/// The result of a step.
#[derive(Clone, Copy)]
pub enum LineStep {
    /// There was progress: the next step may follow at once.
    Did,
    /// Nothing can be done until a shard replies, bytes arrive, or the line takes pending replies.
    Waits,
    /// The line has ended.
    Ended(Served),
}

/// The state of one line: its connection, the bytes that were read and not fed to it, and the
/// replies that are not written yet.
pub struct BufferedConn {
    alloc: Global,
    /// The caller takes its pieces, has them run on their shards, and returns the answers to it.
    pub conn: Conn,
    seat: ReadSide,
    /// Replies that are due and not written yet.
    unwritten: WriteBuffer,
    /// Number of commands taken.
    commands: u64,
    /// Why no further command was taken.
    stop: Taken,
}

/// The numbers of a line that holds nothing else: all its commands are answered, its replies are
/// written, and no byte of it is unread. They take no memory.
#[derive(Drop)]
pub struct RestingLine {
    conn: RestingConn,
    /// Number of commands taken.
    commands: u64,
}

impl Drop for BufferedConn {
    /// By hand, so that to drop one is one call for its holder (docs/DECISIONS.md).
    fn drop(self) {
        let BufferedConn {
            alloc: _alloc,
            conn: _conn,
            seat: _seat,
            unwritten: _unwritten,
            commands: _commands,
            stop: _stop,
        } = self;
    }
}

impl BufferedConn {
    ghost use Rattle.mc_conn.specs.Conn.{IfConn};
    ghost use Rattle.mc_conn.specs.Shutdown.{asks_shutdown};
    ghost use Rattle.mc_conn.specs.Flow.{IsAtRest, IsOver};
    ghost use Rattle.mc_transport.specs.BufferedConn.{GoOnSays, IsNew, MayGoOn, TakesFor, RestsAs, WaitsForLine};
    ghost use Rattle.mc_transport.specs.internal.Reading.{ReadingSays};

    /// For a line of which nothing was read. Allocates what the open commands and small replies
    /// need.
    pub fn new(alloc: Global, sizes: Sizes) -> Result<BufferedConn, AllocError>
        requires { SuitLines sizes }
        ensures { IfOk result
            (λ buffered_conn. IsNew sizes.shards (rules_of sizes) sizes.window buffered_conn) }
    {
        BufferedConn::sharing(alloc, sizes, ClientMemory::unlimited())
    }

    /// As `new`, and the memory of each incomplete data block, and of replies that wait, is leased
    /// from what connections share.
    pub(crate) fn sharing(
        alloc: Global,
        sizes: Sizes,
        memory: ClientMemory,
    ) -> Result<BufferedConn, AllocError>
        requires { SuitLines sizes }
        ensures { IfOk result
            (λ buffered_conn. IsNew sizes.shards (rules_of sizes) sizes.window buffered_conn) }
    {
        let unwritten = WriteBuffer::sharing(alloc, memory.share()?)?;
        let (shards, rules, window) = (sizes.shards, sizes.rules(), sizes.window);
        let Ok(conn) = Conn::sharing(alloc, shards, rules, window, memory) else {
            return Err(AllocError);
        };
        Ok(BufferedConn {
            alloc,
            conn,
            seat: ReadSide::new(alloc),
            unwritten,
            commands: 0,
            stop: Taken::NeedMore,
        })
    }

    /// Takes commands until more bytes are needed, none comes any more or the window is full. The
    /// clock is read once: all have the same moment.
    pub fn take_all<K: Clock>(&mut self, clock: &K)
        ensures { TakesFor (K.may_answer clock.now) self.old self.new }
    {
        let moment = clock.now();
        for _ in 0..u64::MAX {
            match self.conn.take(self.alloc, moment, clock) {
                Taken::Opened(ticket) => self.commands = ticket.0.saturating_add(1),
                stop => {
                    self.stop = stop;
                    return;
                }
            }
        }
        self.stop = Taken::Full;
    }

    /// One step, once all commands taken are answered: writes their replies and, once all are
    /// written, reads more bytes and takes commands. It blocks only where the line's own calls do.
    /// Where memory for replies is refused, the line ends as failed: nothing more is read or
    /// written. The buffers are the thread's. The replies may be written, by what the warrant
    /// shows.
    pub fn go_on<L: Transport, K: Clock>(
        &mut self,
        line: &mut L,
        clock: &K,
        pool: &mut BufferPool,
        seen: &L::Warrant,
    ) -> LineStep
        requires may { MayGoOn
            (λ bytes. L.Warrant.may_write (L.place line.old) (L.sight line.old) bytes seen.now)
            self.old }
        ensures says { GoOnSays result (K.may_answer clock.now) self.old (L.sight line.old) self.new
            (L.sight line.new) }
        ensures waits { result ≡ LineStep.Waits → WaitsForLine self.new }
        ensures place { L.place line.new ≡ L.place line.old }
    {
        self.unwritten.borrow_room(pool);
        if let Err(_refused) = self.conn.hand(&mut self.unwritten) {
            return self.ended(true);
        }
        match self.unwritten.flush(line, seen) {
            Ok(true) => {
                self.unwritten.return_room(pool);
                self.go_on_reading(line, clock, pool)
            }
            Ok(false) if self.unwritten.waits() => LineStep::Waits,
            Ok(false) => LineStep::Did,
            Err(_fault) => {
                self.conn.broken();
                self.ended(true)
            }
        }
    }

    /// Reads more bytes and takes commands, once all replies are written.
    fn go_on_reading<L: Transport, K: Clock>(
        &mut self,
        line: &mut L,
        clock: &K,
        pool: &mut BufferPool,
    ) -> LineStep
        ensures says { ReadingSays result (K.may_answer clock.now) self.old (L.sight line.old)
            self.new (L.sight line.new) }
        ensures waits { result ≡ LineStep.Waits → self.new.stop ≡ Taken.NeedMore }
        ensures place { L.place line.new ≡ L.place line.old }
    {
        match self.seat.go_on(&mut self.conn, line, self.stop, pool) {
            AfterTurn::Continues => {
                self.take_all(clock);
                line.note_taken(self.commands, self.taking());
                LineStep::Did
            }
            AfterTurn::Waits => LineStep::Waits,
            AfterTurn::Ended => self.ended(false),
            AfterTurn::Failed => self.ended(true),
        }
    }

    /// Whether more commands of the line are taken. After `shutdown` none is, and the server is to
    /// end.
    fn taking(&self) -> Taking
        ensures { IfConn self.now.conn (λ flow.
            (result ≡ Taking.Shutdown) ↔ IsTrue (asks_shutdown flow.taken)) }
    {
        if self.conn.asks_shutdown() {
            return Taking::Shutdown;
        }
        match self.stop {
            Taken::Closed => Taking::Over,
            Taken::Opened(_) | Taken::Full | Taken::NeedMore => Taking::Continues,
        }
    }

    /// The result for a line that has ended.
    fn ended(&self, broke: bool) -> LineStep
        ensures { result ≡ LineStep.Ended (record { commands = self.now.commands; broke = broke }) }
    {
        LineStep::Ended(Served {
            commands: self.commands,
            broke,
        })
    }

    /// Resets it for the next line if the last one has ended and nothing is under way, and returns
    /// whether it did. The memory is kept.
    pub fn renew(&mut self) -> bool
        ensures when { IfConn self.old.conn
            (λ flow. IsTrue result ↔ (IsAtRest flow × IsOver flow)) }
        ensures new { IsTrue result →
            IfConn self.old.conn (λ flow. IsNew flow.shards flow.rules flow.window self.new) }
    {
        self.seat.renew();
        self.unwritten.clear();
        self.commands = 0;
        self.stop = Taken::NeedMore;
        self.conn.renew()
    }

    /// The numbers of the line, if nothing else is to be kept, and it waits for bytes.
    #[inline(always)]
    pub(crate) fn at_rest(&self) -> Option<RestingLine>
        ensures rests { IfSome result (λ resting. RestsAs resting self.now) }
        ensures goes_on { IfSome result (λ _. IfConn self.now.conn (λ flow. ¬ IsOver flow)) }
    {
        let Taken::NeedMore = self.stop else {
            return None;
        };
        if !self.seat.is_empty() || !self.unwritten.is_blank() {
            return None;
        }
        Some(RestingLine {
            conn: self.conn.at_rest()?,
            commands: self.commands,
        })
    }

    /// Becomes the line that rested, and returns whether it did: only if it is at rest itself, and
    /// is for lines of the same limits.
    #[inline(always)]
    pub(crate) fn resume(&mut self, resting: &RestingLine) -> bool
        ensures { IsTrue result → RestsAs resting.now self.new }
    {
        if !self.seat.is_empty() || !self.unwritten.is_blank() || !self.conn.resume(&resting.conn) {
            return false;
        }
        self.commands = resting.commands;
        self.stop = Taken::NeedMore;
        true
    }
}
