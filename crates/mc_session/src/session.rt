//! Serves the lines of a seat one after another, step by step.
ghost use Rattle.mc_command.specs.declared.rules.Rules.{Rules};
ghost use Rattle.std.specs.Prelude.{◌≡◌, ◌<◌, ◌↔◌, ◌⊎◌, ℕ, Some, IfOk, IfSome, IsSomeAnd, IsTrue, OnErr, OnOk, length};
ghost use Rattle.std.specs.Bool.{OnFalse, OnTrue};
ghost use Rattle.mc_sizes.specs.Sizes.{SuitLines, rules_of};
ghost use Rattle.mc_transport.specs.Place.{unbegun};
ghost use Rattle.mc_session.specs.Routes.{AreOnRoutes, IsUpToDate};

use crate::shard_link::ShardLink;
use mc_poll::Wakers;
use mc_ring::SeatEnds;
use mc_sizes::Sizes;
use mc_transport::{
    BufferPool, BufferedConn, Clerk, Clock, LineBuffers, LineStep, Transport, Warrant, new_buffers,
};
use std::alloc::{AllocError, Global};

/// A seat that serves lines one after another. Until the first line comes it has only its ends of
/// the channels. A line at rest may give its buffers to the thread's other lines. A clerk records
/// what the lines' connections take.
pub struct Session<T: Warrant = (), C: Clerk<T> = ()> {
    alloc: Global,
    pub(crate) shard_link: ShardLink<T, C>,
    /// By which its buffers are allocated.
    sizes: Sizes,
    /// The connection of the line, once the first has come.
    buffered_conn: LineBuffers,
    ghost suited: { SuitLines sizes },
    ghost ring: { shard_link.places ≡ sizes.ring },
}

impl<T: Warrant + Drop, C: Clerk<T> + Drop> Drop for Session<T, C> {
    /// Written by hand, so that its owners drop it by a single call (docs/DECISIONS.md, F20).
    fn drop(self) {
        let Session {
            alloc: _alloc,
            shard_link: _shard_link,
            sizes: _sizes,
            buffered_conn: _buffered_conn,
        } = self;
    }
}

impl<T: Warrant + Drop, C: Clerk<T> + Drop> Session<T, C> {
    ghost use Rattle.mc_wire.specs.Sink.{Sight};
    ghost use Rattle.mc_ring.specs.Channel.{Near};
    ghost use Rattle.mc_ring.specs.Ends.{Ends};
    ghost use Rattle.mc_conn.specs.Conn.{IsConn};
    ghost use Rattle.mc_conn.specs.Flow.{Flow, IsAtRest, IsOver};
    ghost use Rattle.mc_transport.specs.declared.buffered_conn.BufferedConn.{BufferedConn};
    ghost use Rattle.mc_transport.specs.BufferedConn.{IsNew, Rests, WaitsForLine};
    ghost use Rattle.mc_session.specs.Service.{AwaitsShards};
    ghost use Rattle.mc_session.specs.Ending.{EndsOne, StandsStill};
    ghost use Rattle.mc_session.specs.Serving.{AreCalled, IsIdle};
    ghost use Rattle.mc_session.specs.Records.{RecordsPastOf};
    ghost use Rattle.mc_session.specs.Session.{IsLineAt, IsRuled, IsServingLine, IsVacant, MayStep, StepSays, seat_clerk, seat_ends, seat_ring, session_history};

    /// A seat that serves no line yet. The clerk's record is of these ends of its channels, and
    /// `shards` has the wakers of the shards. `AllocError`: memory ran out.
    pub fn recorded(
        alloc: Global,
        ends: SeatEnds<T>,
        clerk: C,
        shards: Wakers,
        sizes: Sizes,
    ) -> Result<Session<T, C>, AllocError>
        requires sizes { SuitLines sizes }
        requires width { length ends.channels ≡ sizes.shards }
        requires routes { C.keeps → AreOnRoutes (C.route clerk) ends }
        requires past { C.keeps → IsUpToDate (C.work clerk) (C.answers clerk) ends }
        requires named { C.keeps → (C.route clerk 0).name.sizes ≡ sizes }
        ensures vacant { IfOk result
            (λ session. IsVacant (rules_of sizes) sizes.window session) }
        ensures ends { IfOk result (λ session. seat_ends session ≡ ends) }
        ensures ring { IfOk result (λ session. seat_ring session ≡ sizes.ring) }
        ensures ruled { IfOk result (λ session. IsRuled (rules_of sizes) session) }
        ensures clerk { IfOk result (λ session. seat_clerk session ≡ clerk) }
        ensures history { IfOk result
            (λ session. session_history session ≡ (C.route clerk 0).name) }
    {
        let shard_link = ShardLink::new(alloc, ends, clerk, shards, sizes.ring)?;
        let buffered_conn = LineBuffers::new();
        Ok(Session {
            alloc,
            shard_link,
            sizes,
            buffered_conn,
        })
    }

    /// Begins to serve a line of the slot's history, as the next connection of the slot.
    /// `AllocError`: memory for its buffers ran out. Nothing has changed, and the call may be
    /// repeated.
    pub fn begin<L: Transport<Warrant = T>, K: Clock>(
        &mut self,
        line: &mut L,
        clock: &K,
        pool: &mut BufferPool,
    ) -> Result<(), AllocError>
        requires new { L.place line.old ≡ unbegun (session_history self.old) }
        ensures serving { OnOk result
            ((rules : Rules) (window : ℕ) (begin : Sight) → IsVacant rules window self.old →
            IsServingLine (length (seat_ends self.old).channels) rules
            (K.may_answer clock.now) begin begin (seat_ends self.old) self.new) }
        // The line is that of the connection that is recorded.
        ensures line { OnOk result ((rules : Rules) → IsRuled rules self.old →
            IsLineAt rules (L.place line.new) (L.sight line.old) self.new) }
        ensures sight { L.sight line.new ≡ L.sight line.old }
        ensures refused { OnErr result (self.new ≡ self.old) }
        ensures unplaced { OnErr result (L.place line.new ≡ L.place line.old) }
        ensures history { session_history self.new ≡ session_history self.old }
        ensures ends { seat_ends self.new ≡ seat_ends self.old }
        ensures ring { seat_ring self.new ≡ seat_ring self.old }
    {
        let mut buffered_conn = self.take_buffered_conn(pool)?;
        self.shard_link.begin_line(line);
        buffered_conn.take_all(clock);
        self.buffered_conn.hold(buffered_conn);
        Ok(())
    }

    /// Takes out the connection with its buffers, which are allocated for the first line.
    fn take_buffered_conn(&mut self, pool: &mut BufferPool) -> Result<Box<BufferedConn>, AllocError>
        ensures new { IfOk result (λ buffered_conn.
            (rules : Rules) (window : ℕ) → IsVacant rules window self.old →
            IsNew (length (seat_ends self.old).channels) rules window buffered_conn.value) }
        ensures refused { OnErr result (self.new ≡ self.old) }
        ensures shard_link { self.new.shard_link ≡ self.old.shard_link }
    {
        if self.buffered_conn.is_unused() {
            return new_buffers(self.alloc, self.sizes, pool);
        }
        let Some(buffered_conn) = self.buffered_conn.take(self.alloc, &self.sizes, pool) else {
            return Err(AllocError);
        };
        Ok(buffered_conn)
    }

    /// Serves the line a step further, as [`ShardLink::step`] does. At each moment at most
    /// `sizes.ring` of its pieces are under way to each shard. A line at rest takes buffers from the
    /// pool, and one that comes to rest may return them. `AllocError`: memory for them ran out.
    /// Nothing has changed, and the call may be repeated.
    pub fn step<L: Transport<Warrant = T>, K: Clock>(
        &mut self,
        line: &mut L,
        clock: &K,
        pool: &mut BufferPool,
    ) -> Result<LineStep, AllocError>
        requires { MayStep (K.may_answer clock.now) (L.place line.old) (L.sight line.old) self.old }
        ensures says { IfOk result
            (λ step. (shards : ℕ) (rules : Rules) (begin : Sight) (before : Ends Near) →
            IsServingLine shards rules (K.may_answer clock.now) begin (L.sight line.old) before
            self.old →
            StepSays step shards rules (K.may_answer clock.now) begin (L.sight line.new) before
            self.new) }
        // Where it waits, each shard of which replies are awaited was called after the last piece
        // was sent.
        ensures called { IfOk result (λ step. step ≡ LineStep.Waits →
            AreCalled self.new.shard_link.shards self.new.shard_link.under_way.items) }
        // It waits for nothing but replies of shards, and once all have come for its line.
        ensures waits { IfOk result (λ step. step ≡ LineStep.Waits →
            IsSomeAnd self.new.buffered_conn (λ buffered_conn.
            AwaitsShards self.new.shard_link ⊎ WaitsForLine buffered_conn)) }
        ensures line { IfOk result (λ _. (rules : Rules) (begin : Sight) →
            IsLineAt rules (L.place line.old) begin self.old →
            IsLineAt rules (L.place line.new) begin self.new) }
        // Memory is refused for a line at rest alone.
        ensures rests { OnErr result (IfSome self.old.buffered_conn (λ line. Rests line)) }
        ensures refused { OnErr result (self.new ≡ self.old) }
        ensures untouched { OnErr result (line.new ≡ line.old) }
        ensures ring { seat_ring self.new ≡ seat_ring self.old }
        ensures history { session_history self.new ≡ session_history self.old }
    {
        let Some(mut buffered_conn) = self.buffered_conn.take(self.alloc, &self.sizes, pool) else {
            return Err(AllocError);
        };
        let step = self.shard_link.step(&mut *buffered_conn, line, clock, pool);
        self.buffered_conn.put(buffered_conn, pool);
        Ok(step)
    }

    /// Resets it for the next line if the last one has ended and nothing is under way, and returns
    /// whether it did. Its buffers are given to the pool then.
    pub fn renew(&mut self, pool: &mut BufferPool) -> bool
        ensures when { (buffered_conn : BufferedConn) (flow : Flow) → self.old.buffered_conn ≡
            Some buffered_conn →
            IsConn buffered_conn.conn flow → IsTrue result ↔ (IsAtRest flow × IsOver flow) }
        ensures vacant { IsTrue result → (buffered_conn : BufferedConn) (flow : Flow) →
            self.old.buffered_conn ≡ Some buffered_conn → IsConn buffered_conn.conn flow →
            flow.shards ≡ length (seat_ends self.old).channels →
            IsIdle self.old.shard_link.under_way.items →
            RecordsPastOf self.old.shard_link (seat_ends self.old) →
            IsVacant flow.rules flow.window self.new }
        ensures ends { seat_ends self.new ≡ seat_ends self.old }
        ensures ring { seat_ring self.new ≡ seat_ring self.old }
        ensures history { session_history self.new ≡ session_history self.old }
    {
        self.buffered_conn.renew(pool)
    }

    /// How many shards there are.
    pub fn shards(&self) -> usize
        ensures { result ≡ length (seat_ends self.now).channels }
    {
        self.shard_link.ends.shards()
    }

    /// Sends the shard the End of its channel if there is room, and returns whether it did. Nothing
    /// more comes there.
    pub fn end_channel(&mut self, shard: usize) -> bool
        requires { shard < length (seat_ends self.old).channels }
        ensures ended { OnTrue result (EndsOne shard (seat_ends self.old) (seat_ends self.new)) }
        ensures full { OnFalse result (StandsStill (seat_ends self.old) (seat_ends self.new)) }
        ensures ring { seat_ring self.new ≡ seat_ring self.old }
        ensures history { session_history self.new ≡ session_history self.old }
        // The clerk's record is unchanged: an End is no work.
        ensures recorded { (ends : Ends Near) → RecordsPastOf self.old.shard_link ends →
            RecordsPastOf self.new.shard_link ends }
    {
        self.shard_link.end_channel(shard)
    }

    /// Returns the clerk, once the seat serves no more lines, and drops its ends of the channels.
    pub fn into_clerk(self) -> C
        ensures clerk { result ≡ seat_clerk self }
        ensures routes { C.keeps → AreOnRoutes (C.route result) (seat_ends self) }
    {
        let Session {
            shard_link,
            alloc: _alloc,
            sizes: _sizes,
            buffered_conn: _buffered_conn,
        } = self;
        shard_link.into_clerk()
    }
}
