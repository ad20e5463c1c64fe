//! The event loop of one thread.
ghost use Rattle.mc_sizes.specs.Sizes.{rules_of};
ghost use Rattle.std.specs.Prelude.{◌≡◌, IfOk, IsTrue, map};
ghost use Rattle.std.specs.List.{AllByRecursion};
ghost use Rattle.mc_session.specs.Session.{seat_clerk, seat_ends};
ghost use Rattle.mc_poll.specs.Zips.{Zips};
ghost use Rattle.mc_serve.specs.Seats.{IsNewSeat, SeatServes, seat_at};
ghost use Rattle.mc_serve.specs.declared.connection_slot.SlotState.TheVariants as slot_state;

use crate::connection_slot::ConnectionSlot;
use crate::slot_table::SlotTable;
use mc_budget::ClientMemory;
use mc_history::Evidence;
use mc_net::ConnectionSource;
use mc_poll::{Poller, Task};
use mc_record::Recorder;
use mc_session::Working;
use mc_sizes::Sizes;
use mc_transport::{BufferPool, Clock, Transport};
use mc_worker::Gate;
use std::alloc::{AllocError, Global};
use std::sync::Wait;

/// The slots and the shards' workers that one thread serves. In each turn the slots come first, so
/// that their pieces are on the rings before the workers look. They come again after the workers,
/// for the replies of this turn.
pub struct Reactor<D: ConnectionSource, G, K> {
    pub(crate) seats: SlotTable<D>,
    pub(crate) workers: Vec<Working<G, Evidence, Recorder>>,
    poller: Poller,
    pool: BufferPool,
    sizes: Sizes,
    clock: K,
}

impl<D: ConnectionSource + Drop, G: Drop, K: Drop> Drop for Reactor<D, G, K> {
    /// Written by hand, so that its owners drop it by a single call (docs/DECISIONS.md, F20).
    fn drop(self) {
        let Reactor {
            seats: _seats,
            workers: _workers,
            poller: _poller,
            pool: _pool,
            sizes: _sizes,
            clock: _clock,
        } = self;
    }
}

impl<D: ConnectionSource + Drop, G: Gate + Drop, K: Clock + Drop> Reactor<D, G, K>
where
    D::Transport: Transport<Warrant = Evidence>,
{
    /// A reactor for these slots and workers. The poller is that of the thread that will run it;
    /// any slot of the server may ring for the workers. Its connections share the memory with those
    /// of other threads. Fails if memory for the buffers is refused.
    pub(crate) fn new(
        alloc: Global,
        seats: Vec<ConnectionSlot<D>>,
        workers: Vec<Working<G, Evidence, Recorder>>,
        poller: Poller,
        sizes: Sizes,
        clock: K,
        memory: ClientMemory,
    ) -> Result<Reactor<D, G, K>, AllocError>
        requires { AllByRecursion (λ one.
            IsNewSeat sizes.shards (rules_of sizes) (D.flow one.source) one.session one.slot_state)
            seats.items }
        ensures ready { IfOk result (λ part.
            AllByRecursion (λ one.
            IsNewSeat part.sizes.shards (rules_of part.sizes) (D.flow one.source) one.session
            one.slot_state) part.seats.all.items) }
        ensures seats { IfOk result (λ part. part.seats.all ≡ seats) }
        ensures sizes { IfOk result (λ part. part.sizes ≡ sizes) }
        ensures clock { IfOk result (λ part. part.clock ≡ clock) }
    {
        Ok(Reactor {
            seats: SlotTable::new(seats),
            workers,
            poller,
            pool: BufferPool::sharing(alloc, memory)?,
            sizes,
            clock,
        })
    }

    /// Runs turns until each slot has closed its channels and each worker has ended. A turn that
    /// finds nothing to do ends with a wait of the poller.
    fn run<R: Wait>(&mut self, rt: &R)
        requires { AllByRecursion (λ one.
            IsNewSeat self.old.sizes.shards (rules_of self.old.sizes) (D.flow one.source)
            one.session
            one.slot_state) self.old.seats.all.items }
        ensures { Zips
            (SeatServes self.old.sizes.shards (rules_of self.old.sizes)
            (K.may_answer self.old.clock))
            (map (λ one. seat_at (D.flow one.source) (seat_ends one.session)
            (seat_clerk one.session)) self.old.seats.all.items)
            (map (λ one. seat_at (D.flow one.source) (seat_ends one.session)
            (seat_clerk one.session)) self.new.seats.all.items) }
    {
        for _ in rt.forever() {
            let stepped = self
                .seats
                .step(&mut self.poller, &self.clock, &mut self.pool);
            let served = serve_callers(&mut self.workers, &self.poller);
            let answered = self
                .seats
                .step(&mut self.poller, &self.clock, &mut self.pool);
            if stepped || served || answered {
                self.poller.found();
            } else if self.is_done() {
                return;
            } else {
                self.pool.trim();
                self.poller.wait(rt);
            }
        }
        unreachable!()
    }

    /// Whether each slot has closed its channels and each worker has ended.
    fn is_done(&self) -> bool
        ensures { IsTrue result →
            AllByRecursion (λ one. one.slot_state ≡ slot_state.Over) self.now.seats.all.items }
    {
        if !self.seats.are_over() {
            return false;
        }
        have_ended(&self.workers)
    }

    /// Returns the slots after the run. The workers are dropped.
    pub(crate) fn into_seats(self) -> Vec<ConnectionSlot<D>>
        ensures { result ≡ self.seats.all }
    {
        let Reactor {
            seats,
            workers: _workers,
            poller: _poller,
            pool: _pool,
            sizes: _sizes,
            clock: _clock,
        } = self;
        seats.into_all()
    }
}

/// Has each worker run the pieces of the slots that rang. Returns whether one may have.
fn serve_callers<G: Gate + Drop>(
    workers: &mut Vec<Working<G, Evidence, Recorder>>,
    poller: &Poller,
) -> bool {
    let (first, end) = poller.called_words();
    for word in first..end {
        let more = serve_word(workers, word, poller.callers_in(word));
        poller.call_again(word, more);
    }
    first < end
}

/// Does so for those of the 64 slots of one word whose bits are set. Returns those that may have
/// more pieces.
fn serve_word<G: Gate + Drop>(
    workers: &mut Vec<Working<G, Evidence, Recorder>>,
    word: usize,
    called: u64,
) -> u64 {
    let mut more = 0;
    for place in 0..workers.len() {
        let working = &mut workers[place];
        more |= working.turn(word, called);
    }
    more
}

/// Whether each worker has ended.
fn have_ended<G: Gate + Drop>(workers: &Vec<Working<G, Evidence, Recorder>>) -> bool {
    for place in 0..workers.len() {
        if !workers[place].ended() {
            return false;
        }
    }
    true
}

impl<D: ConnectionSource + Drop, G: Gate + Drop, K: Clock + Drop> Task for Reactor<D, G, K>
where
    D::Transport: Transport<Warrant = Evidence>,
{
    ghost is_ready = { λ part.
        AllByRecursion (λ one.
        IsNewSeat part.sizes.shards (rules_of part.sizes) (D.flow one.source) one.session
        one.slot_state) part.seats.all.items };

    ghost does = { λ was at_end.
        Zips (SeatServes was.sizes.shards (rules_of was.sizes) (K.may_answer was.clock))
        (map (λ one. seat_at (D.flow one.source) (seat_ends one.session) (seat_clerk one.session))
        was.seats.all.items)
        (map (λ one. seat_at (D.flow one.source) (seat_ends one.session) (seat_clerk one.session))
        at_end.seats.all.items) };

    fn work<R: Wait>(self, rt: &R) -> Reactor<D, G, K> {
        let mut part = self;
        part.run(rt);
        part
    }
}
