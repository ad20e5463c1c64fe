//! A connection slot: it serves the connections of its source, one after another, in steps that
//! never block.
ghost use Rattle.mc_sizes.specs.Sizes.{SuitLines, rules_of};
ghost use Rattle.mc_command.specs.declared.rules.Rules.{Rules};
ghost use Rattle.std.specs.Prelude.{◌≡◌, ◌<◌, Bool, ℕ, IfOk, IsTrue, length};
ghost use Rattle.mc_record.specs.Clerk.{IsSeatActor};
ghost use Rattle.mc_ring.specs.Ends.{Ends};
ghost use Rattle.mc_ring.specs.Channel.{Near};
ghost use Rattle.mc_session.specs.Ending.{EndsFirst};
ghost use Rattle.mc_session.specs.Routes.{AreOnRoutes};
ghost use Rattle.mc_session.specs.Session.{IsRuled, IsVacant, seat_clerk, seat_ends, session_history};
ghost use Rattle.mc_serve.specs.Recorded.{IsClerkOf, route_from};
ghost use Rattle.mc_serve.specs.Seats.{Accepts, CanBegin, CanStep, ClosesOn, HasRecorded, IsOut, IsReturned, Renews, SeatAt, SeatHolds};
ghost use Rattle.mc_serve.specs.declared.connection_slot.SlotState.TheVariants as slot_state;

use mc_history::Evidence;
use mc_net::{Accept, ConnectionSource};
use mc_poll::Wakers;
use mc_record::SeatClerk;
use mc_ring::SeatEnds;
use mc_session::Session;
use mc_sizes::Sizes;
use mc_transport::{BufferPool, Clock, LineStep, Ready, Served, Transport};
use std::alloc::{AllocError, Global};
use std::mem;

/// The result of a step.
#[derive(Clone, Copy, PartialEq, Eq)]
pub enum Stepped {
    /// It did something; the next step may follow at once.
    Did,
    /// Nothing to do until the slot is woken: by a new connection, bytes of its own, replies, or
    /// space on a ring.
    Waits,
    /// All channels are closed. The slot has nothing more to do.
    Over,
}

/// The state of a slot.
#[derive(Drop)]
pub enum SlotState<L> {
    /// It serves no connection.
    Free,
    /// This connection is out. It is served once it has begun. If memory for that is refused, its
    /// client sees the end of the output, and the slot tries again.
    Out { line: L, begun: bool },
    /// No more connections will come. The first channels are closed, as many as this.
    Closing(usize),
    /// All channels are closed.
    Over,
}

/// Ends the output of a connection for which memory was refused, so that its client doesn't wait. A
/// later step tries again to serve it.
#[inline(never)]
fn give_up<D: ConnectionSource + Drop>(source: &mut D, line: &mut D::Transport) -> Stepped
    ensures flow { D.flow source.new ≡ D.flow source.old }
    ensures history { D.history source.new ≡ D.history source.old }
    ensures sight { D.Transport.sight line.new ≡ D.Transport.sight line.old }
    ensures place { D.Transport.place line.new ≡ D.Transport.place line.old }
{
    let is_reminded = source.give_up(line);
    if is_reminded {
        Stepped::Waits
    } else {
        Stepped::Did
    }
}

/// A slot with its source. The session has the slot's ends of the rings, and the clerk that records
/// what its connections take.
pub struct ConnectionSlot<D: ConnectionSource> {
    pub(crate) session: Session<Evidence, SeatClerk>,
    pub(crate) slot_state: SlotState<D::Transport>,
    pub source: D,
    // The source's connections belong to the history in which the clerk records.
    ghost one_history: { D.history source ≡ session_history session },
}

impl<D: ConnectionSource + Drop> Drop for ConnectionSlot<D> {
    /// Written by hand, so that its owners drop it by a single call (docs/DECISIONS.md, F20).
    fn drop(self) {
        let ConnectionSlot {
            session: _session,
            slot_state: _slot_state,
            source: _source,
        } = self;
    }
}

impl<D: ConnectionSource + Drop> ConnectionSlot<D>
where
    D::Transport: Transport<Warrant = Evidence>,
{
    /// A free slot for the connections of the source, over these ends of its channels. The clerk
    /// has recorded all that was sent and received there. The wakers are those of the shards'
    /// threads. Fails if memory is refused.
    pub fn new(
        alloc: Global,
        source: D,
        ends: SeatEnds<Evidence>,
        clerk: SeatClerk,
        shards: Wakers,
        sizes: Sizes,
    ) -> Result<ConnectionSlot<D>, AllocError>
        requires sizes { SuitLines sizes }
        requires width { length ends.channels ≡ sizes.shards }
        requires clerk { IsClerkOf sizes ends clerk }
        requires history { D.history source ≡ clerk.name }
        ensures vacant { IfOk result
            (λ slot. IsVacant (rules_of sizes) sizes.window slot.session) }
        ensures ruled { IfOk result (λ slot. IsRuled (rules_of sizes) slot.session) }
        ensures free { IfOk result (λ slot. slot.slot_state ≡ slot_state.Free) }
        ensures source { IfOk result (λ slot. slot.source ≡ source) }
        ensures ends { IfOk result (λ slot. seat_ends slot.session ≡ ends) }
        ensures clerk { IfOk result (λ slot. seat_clerk slot.session ≡ clerk) }
    {
        let session = Session::recorded(alloc, ends, clerk, shards, sizes)?;
        Ok(ConnectionSlot {
            session,
            slot_state: SlotState::Free,
            source,
        })
    }

    /// Makes one step, which never blocks: accepts a connection, begins it, serves it, or closes a
    /// channel. A connection that is out is first notified of its socket's readiness, if `ready` is
    /// given.
    pub(crate) fn step<K: Clock>(
        &mut self,
        ready: Option<Ready>,
        clock: &K,
        pool: &mut BufferPool,
    ) -> Stepped
        requires { CanStep (λ line. D.Transport.place line) (λ line. D.Transport.sight line)
            (K.may_answer clock.now) self.old.slot_state self.old.session }
        ensures { (shards : ℕ) (rules : Rules) (was : SeatAt) →
            SeatHolds (λ line. D.Transport.place line) (λ line. D.Transport.sight line) shards
            rules (K.may_answer clock.now) was
            (D.flow self.old.source) self.old.session self.old.slot_state →
            SeatHolds (λ line. D.Transport.place line) (λ line. D.Transport.sight line) shards
            rules (K.may_answer clock.now) was
            (D.flow self.new.source) self.new.session self.new.slot_state }
    {
        match &mut self.slot_state {
            SlotState::Out { line, begun } => {
                if let Some(ready) = ready {
                    line.rouse(ready);
                }
                if !*begun {
                    return self.begin(clock, pool);
                }
                let Ok(step) = self.session.step(line, clock, pool) else {
                    return give_up(&mut self.source, line);
                };
                match step {
                    LineStep::Did => Stepped::Did,
                    LineStep::Waits => Stepped::Waits,
                    LineStep::Ended(served) => self.end(served, pool),
                }
            }
            SlotState::Free => self.accept(),
            SlotState::Closing(count) => {
                let count = *count;
                self.close(count)
            }
            SlotState::Over => Stepped::Waits,
        }
    }

    /// Accepts the next connection. If the source has no more, the channels are closed next.
    #[inline(never)]
    fn accept(&mut self) -> Stepped
        requires { self.old.slot_state ≡ slot_state.Free }
        ensures accepts { Accepts (λ line. D.Transport.place line) (λ line. D.Transport.sight line)
            (session_history self.old.session) self.new.slot_state (D.flow self.old.source)
            (D.flow self.new.source) }
        ensures session { self.new.session ≡ self.old.session }
    {
        self.slot_state = match self.source.accept() {
            Accept::Came(line) => SlotState::Out { line, begun: false },
            Accept::NotYet => return Stepped::Waits,
            Accept::Over => SlotState::Closing(0),
        };
        Stepped::Did
    }

    /// Begins to serve the connection that is out. If memory for that is refused, its output is
    /// ended, so that its client doesn't wait, and a later step tries again.
    #[inline(never)]
    fn begin<K: Clock>(&mut self, clock: &K, pool: &mut BufferPool) -> Stepped
        requires { CanBegin (λ line. D.Transport.place line) self.old.slot_state self.old.session }
        ensures { (shards : ℕ) (rules : Rules) (was : SeatAt) →
            SeatHolds (λ line. D.Transport.place line) (λ line. D.Transport.sight line) shards
            rules (K.may_answer clock.now) was
            (D.flow self.old.source) self.old.session self.old.slot_state →
            SeatHolds (λ line. D.Transport.place line) (λ line. D.Transport.sight line) shards
            rules (K.may_answer clock.now) was
            (D.flow self.new.source) self.new.session self.new.slot_state }
    {
        let SlotState::Out { line, begun } = &mut self.slot_state else {
            unreachable!()
        };
        *begun = self.session.begin(line, clock, pool).is_ok();
        if *begun {
            return Stepped::Did;
        }
        give_up(&mut self.source, line)
    }

    /// Returns the connection that was served to the source, and renews the session for the next
    /// one.
    #[inline(never)]
    fn end(&mut self, served: Served, pool: &mut BufferPool) -> Stepped
        requires { IsOut self.old.slot_state }
        ensures free { self.new.slot_state ≡ slot_state.Free }
        ensures flow { IsReturned (λ line. D.Transport.sight line) self.old.slot_state
            served.commands served.broke (D.flow self.old.source) (D.flow self.new.source) }
        ensures renewed { (another : Bool) × Renews another self.old.session self.new.session }
    {
        let SlotState::Out { line, .. } = mem::replace(&mut self.slot_state, SlotState::Free) else {
            unreachable!()
        };
        self.source.give_back(line, served.commands, served.broke);
        // All replies have come, each to its piece, so it can be renewed.
        let _ = self.session.renew(pool);
        Stepped::Did
    }

    /// Closes the next channel, if its ring has room for the End. The first `count` are closed.
    #[inline(never)]
    fn close(&mut self, count: usize) -> Stepped
        ensures closes { (served : Ends Near) →
            EndsFirst count served (seat_ends self.old.session) →
            ClosesOn served self.new.slot_state (seat_ends self.new.session) }
        ensures recorded { (served : Ends Near) →
            HasRecorded (seat_clerk self.old.session) served →
            HasRecorded (seat_clerk self.new.session) served }
        ensures source { self.new.source ≡ self.old.source }
    {
        if count >= self.session.shards() {
            self.slot_state = SlotState::Over;
            return Stepped::Over;
        }
        if self.session.end_channel(count) {
            self.slot_state = SlotState::Closing(count + 1);
            return Stepped::Did;
        }
        self.slot_state = SlotState::Closing(count);
        Stepped::Waits
    }

    /// Whether all of its channels are closed.
    pub(crate) fn is_over(&self) -> bool
        ensures { IsTrue result → self.now.slot_state ≡ slot_state.Over }
    {
        match &self.slot_state {
            SlotState::Over => true,
            _ => false,
        }
    }

    /// Returns the source and the clerk, for the report once all threads are joined.
    pub(crate) fn finish(self) -> (D, SeatClerk)
        ensures source { result.0 ≡ self.source }
        ensures clerk { result.1 ≡ seat_clerk self.session }
        ensures actor { IsSeatActor result.1 }
        ensures routes { AreOnRoutes (route_from result.1) (seat_ends self.session) }
    {
        let ConnectionSlot {
            session,
            source,
            slot_state: _slot_state,
        } = self;
        (source, session.into_clerk())
    }
}
