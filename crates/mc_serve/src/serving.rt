//! Serves the connections of sources over shards, in threads that each serve some of the slots and
//! some of the shards.
ghost use Rattle.std.specs.Prelude.{◌≡◌, ◌≢◌, [], ◌++◌, IfErr, IfOk, IsTrue, OnOk, length, map};
ghost use Rattle.std.specs.List.{AllByRecursion, flat_map};
ghost use Rattle.std.specs.Vec.Iter.{into_iter_items};
ghost use Rattle.mc_sizes.specs.Sizes.{MayServe, SuitLines, rules_of};
ghost use Rattle.mc_record.specs.Opening.{IsOpening};
ghost use Rattle.mc_session.specs.Session.{seat_clerk, seat_ends};
ghost use Rattle.mc_serve.specs.declared.error.ServeError.TheVariants.{Bind};
ghost use Rattle.mc_net.specs.Flow.{IsFree};
ghost use Rattle.mc_poll.specs.Zips.{Zips};
ghost use Rattle.mc_serve.specs.Recorded.{IsClerkOf};
ghost use Rattle.mc_serve.specs.Seats.{IsNewSeat};
ghost use Rattle.mc_serve.specs.Served.{ServesSources};

use crate::connection_slot::ConnectionSlot;
use crate::error::ServeError;
use crate::reactor::Reactor;
use crate::recorded::RecordedChannels;
use crate::settling::ReturnRoom;
use mc_budget::ClientMemory;
use mc_history::{Evidence, Member};
use mc_net::ConnectionSource;
use mc_poll::{Poller, ThreadGroup, ThreadGroupError, Wakers};
use mc_record::{Opening, Recorder, SeatClerk, close};
use mc_ring::SeatEnds;
use mc_session::{Working, make_recorded_workers};
use mc_sizes::Sizes;
use mc_transport::{Clock, Transport};
use mc_worker::{Gate, Worker};
use std::alloc::{AllocError, Global};
use std::random::RandomSource;
use std::sync::{Arc, Wait};
use std::thread::Threads;
use std::vec::IntoIter;

/// Serves the connections of the sources until no more come, and returns the sources with evidence
/// of the history. All connections belong to the opened history. Each slot's clerk records there
/// what the slot's connections take, and each shard's recorder what the shard runs.
///
/// Each source has a slot; `sizes.seats` is ignored. Each poller has a thread. The threads get
/// slots and shards in order, as many as their pollers have places and workers. The workers call
/// the gate before each piece. All connections share the memory.
///
/// Errors: `Memory`, or `Thread` if a thread can't be started, or if the pollers' places or workers
/// are not as many as the slots or shards. No source was called then.
pub fn serve<
    R: Threads + Wait + RandomSource + Copy + Send + Drop + 'static,
    D: ConnectionSource + Send + Drop + 'static,
    G: Gate + Send + Sync + Drop + 'static,
    K: Clock + Copy + Send + Drop + 'static,
>(
    rt: &R,
    alloc: Global,
    opening: Opening,
    sources: Vec<D>,
    pollers: Vec<Poller>,
    sizes: Sizes,
    gate: G,
    clock: K,
    memory: ClientMemory,
) -> Result<(Vec<D>, Evidence), ServeError>
where
    D::Transport: Transport<Warrant = Evidence> + Send + 'static,
    requires sizes { MayServe (record sizes { seats = length sources.items }) }
    requires opening { IsOpening (record sizes { seats = length sources.items })
        opening.recorders.items opening.clerks.items opening.witness }
    requires history { AllByRecursion (λ source. D.history source ≡ opening.witness.name)
        sources.items }
    requires free { AllByRecursion (λ source. IsFree (D.flow source)) sources.items }
    // One log, of the history that the evidence shows, explains what was read from all connections,
    // what was written to them and what the shards ran.
    ensures explained { IfOk result (λ back.
        ServesSources (record sizes { seats = length sources.items }) (K.may_answer clock)
        (map (λ source. D.flow source) sources.items) (map (λ source. D.flow source) back.0.items)
        back.1) }
    ensures shown { IfOk result (λ back. back.1.name ≡ opening.witness.name) }
    ensures refused { IfErr result (λ refusal. refusal ≢ Bind) }
{
    let seats = sources.len();
    let sizes = Sizes { seats, ..sizes };
    match serve_all(
        rt, alloc, opening, sources, pollers, sizes, gate, clock, memory,
    ) {
        Ok(back) => Ok(back),
        Err(refusal) => Err(ServeError::from(refusal)),
    }
}

/// Starts the threads, all or none, joins them, and closes the history.
fn serve_all<
    R: Threads + Wait + RandomSource + Copy + Send + Drop + 'static,
    D: ConnectionSource + Send + Drop + 'static,
    G: Gate + Send + Sync + Drop + 'static,
    K: Clock + Copy + Send + Drop + 'static,
>(
    rt: &R,
    alloc: Global,
    opening: Opening,
    sources: Vec<D>,
    pollers: Vec<Poller>,
    sizes: Sizes,
    gate: G,
    clock: K,
    memory: ClientMemory,
) -> Result<(Vec<D>, Evidence), ThreadGroupError>
where
    D::Transport: Transport<Warrant = Evidence> + Send + 'static,
    requires sizes { MayServe sizes }
    requires seats { length sources.items ≡ sizes.seats }
    requires opening { IsOpening sizes opening.recorders.items opening.clerks.items
        opening.witness }
    requires history { AllByRecursion (λ source. D.history source ≡ opening.witness.name)
        sources.items }
    requires free { AllByRecursion (λ source. IsFree (D.flow source)) sources.items }
    ensures explained { IfOk result (λ back.
        ServesSources sizes (K.may_answer clock) (map (λ source. D.flow source) sources.items)
        (map (λ source. D.flow source) back.0.items) back.1) }
    ensures shown { IfOk result (λ back. back.1.name ≡ opening.witness.name) }
{
    let mut thread_group = ThreadGroup::new(alloc, pollers.len())?;
    let room = ReturnRoom::new(alloc, sources.len())?;
    let Ok(gate) = Arc::new(alloc, gate) else {
        return Err(ThreadGroupError::Memory);
    };
    let started = start(
        rt,
        alloc,
        &mut thread_group,
        opening,
        sources,
        pollers,
        sizes,
        &gate,
        clock,
        &memory,
    );
    let witness = match started {
        Ok(witness) => witness,
        Err(refusal) => {
            thread_group.dismiss(rt);
            return Err(refusal);
        }
    };
    thread_group.begin(rt);
    let parts = thread_group.join(rt)?;
    let (back, clerks) = room.take_back(parts)?;
    let evidence = close(witness, clerks);
    Ok((back, evidence))
}

/// Starts a thread for each poller, with as many slots and workers as the poller has places for,
/// and returns the history's witness. Errors: `Memory`; `Thread` if a thread can't be created, or
/// if slots or workers are left.
fn start<
    R: Threads + Wait + RandomSource + Copy + Send + 'static,
    D: ConnectionSource + Send + Drop + 'static,
    G: Gate + Send + Sync + Drop + 'static,
    K: Clock + Copy + Send + Drop + 'static,
>(
    rt: &R,
    alloc: Global,
    thread_group: &mut ThreadGroup<Reactor<D, G, K>>,
    opening: Opening,
    sources: Vec<D>,
    pollers: Vec<Poller>,
    sizes: Sizes,
    gate: &Arc<G, Global>,
    clock: K,
    memory: &ClientMemory,
) -> Result<Member, ThreadGroupError>
where
    D::Transport: Transport<Warrant = Evidence> + Send + 'static,
    requires sizes { MayServe sizes }
    requires seats { length sources.items ≡ sizes.seats }
    requires opening { IsOpening sizes opening.recorders.items opening.clerks.items
        opening.witness }
    requires history { AllByRecursion (λ source. D.history source ≡ opening.witness.name)
        sources.items }
    requires free { AllByRecursion (λ source. IsFree (D.flow source)) sources.items }
    requires none { thread_group.old ≡ [] }
    ensures witness { IfOk result (λ witness. witness ≡ opening.witness) }
    ensures clerks { OnOk result
        (map (λ one. seat_clerk one.session)
        (flat_map (λ part. part.seats.all.items) thread_group.new) ≡ opening.clerks.items) }
    ensures fit { OnOk result
        (AllByRecursion (λ one. IsClerkOf sizes (seat_ends one.session) (seat_clerk one.session))
        (flat_map (λ part. part.seats.all.items) thread_group.new)) }
    ensures sources { OnOk result
        (map (λ one. one.source) (flat_map (λ part. part.seats.all.items) thread_group.new) ≡
        sources.items) }
    ensures same { OnOk result
        (AllByRecursion (λ part. (part.clock ≡ clock) × (part.sizes ≡ sizes)) thread_group.new) }
{
    let mut left = Unassigned::new(rt, alloc, opening, sources, &pollers, sizes, gate)?;
    for poller in pollers {
        let part = left.next_part(alloc, poller, sizes, clock, memory.share()?)?;
        thread_group.start(rt, alloc, part)?;
    }
    if left.is_empty() {
        return Ok(left.into_witness());
    }
    Err(ThreadGroupError::Thread)
}

/// Creates a slot for each source, with the ends and the clerk at the same index. The wakers are
/// those of the shards' threads. Fails if memory is refused.
fn make_slots<D: ConnectionSource + Drop>(
    alloc: Global,
    sources: Vec<D>,
    ends: Vec<SeatEnds<Evidence>>,
    clerks: Vec<SeatClerk>,
    shards: &Wakers,
    sizes: Sizes,
) -> Result<Vec<ConnectionSlot<D>>, AllocError>
where
    D::Transport: Transport<Warrant = Evidence>,
    requires sizes { SuitLines sizes }
    requires width { AllByRecursion (λ seat. length seat.channels ≡ sizes.shards) ends.items }
    requires as_many { length sources.items ≡ length ends.items }
    requires clerks { Zips (IsClerkOf sizes) ends.items clerks.items }
    requires history { Zips (λ source clerk. D.history source ≡ clerk.name)
        sources.items clerks.items }
    requires free { AllByRecursion (λ source. IsFree (D.flow source)) sources.items }
    ensures clerks { IfOk result
        (λ seats. map (λ one. seat_clerk one.session) seats.items ≡ clerks.items) }
    ensures fit { IfOk result (λ seats.
        AllByRecursion (λ one. IsClerkOf sizes (seat_ends one.session) (seat_clerk one.session))
        seats.items) }
    ensures sources { IfOk result (λ seats. map (λ one. one.source) seats.items ≡ sources.items) }
    ensures begin { IfOk result (λ seats.
        AllByRecursion (λ one.
        IsNewSeat sizes.shards (rules_of sizes) (D.flow one.source) one.session one.slot_state)
        seats.items) }
{
    let mut seats = Vec::with_capacity(alloc, ends.len())?;
    let mut sources = sources.into_iter();
    let mut clerks = clerks.into_iter();
    for ends in ends {
        let Some(source) = sources.next() else {
            return Err(AllocError);
        };
        let Some(clerk) = clerks.next() else {
            return Err(AllocError);
        };
        let shards = shards.share()?;
        let slot = ConnectionSlot::new(alloc, source, ends, clerk, shards, sizes)?;
        seats.push(slot)?;
    }
    Ok(seats)
}

/// Adds to the workers what their turns need: the shared gate, and the wakers of the slots'
/// threads.
fn set_working<G: Gate + Drop>(
    alloc: Global,
    workers: Vec<Worker<Evidence, Recorder>>,
    gate: &Arc<G, Global>,
    seats: &Wakers,
) -> Result<Vec<Working<G, Evidence, Recorder>>, AllocError> {
    let mut all = Vec::with_capacity(alloc, workers.len())?;
    for worker in workers {
        let gate = Arc::try_clone(gate)?;
        let working = Working::new(alloc, worker, gate, seats.share()?)?;
        all.push(working)?;
    }
    Ok(all)
}

/// The slots and workers that no thread has yet, and the history's witness.
#[derive(Drop)]
struct Unassigned<D: ConnectionSource, G> {
    seats: IntoIter<ConnectionSlot<D>>,
    workers: IntoIter<Working<G, Evidence, Recorder>>,
    witness: Member,
}

impl<D: ConnectionSource + Drop, G: Gate + Drop> Unassigned<D, G>
where
    D::Transport: Transport<Warrant = Evidence>,
{
    /// Creates a slot for each source and a worker for each shard, over new channels that are
    /// recorded in the opened history. The pollers are those of their threads.
    fn new<R: RandomSource>(
        rt: &R,
        alloc: Global,
        opening: Opening,
        sources: Vec<D>,
        pollers: &[Poller],
        sizes: Sizes,
        gate: &Arc<G, Global>,
    ) -> Result<Unassigned<D, G>, AllocError>
        requires sizes { MayServe sizes }
        requires seats { length sources.items ≡ sizes.seats }
        requires opening { IsOpening sizes opening.recorders.items opening.clerks.items
            opening.witness }
        requires history { AllByRecursion (λ source. D.history source ≡ opening.witness.name)
            sources.items }
        requires free { AllByRecursion (λ source. IsFree (D.flow source)) sources.items }
        ensures witness { IfOk result (λ left. left.witness ≡ opening.witness) }
        ensures clerks { IfOk result (λ left.
            map (λ one. seat_clerk one.session) (into_iter_items left.seats) ≡
            opening.clerks.items) }
        ensures fit { IfOk result (λ left.
            AllByRecursion
            (λ one. IsClerkOf sizes (seat_ends one.session) (seat_clerk one.session))
            (into_iter_items left.seats)) }
        ensures sources { IfOk result (λ left.
            map (λ one. one.source) (into_iter_items left.seats) ≡ sources.items) }
        ensures begin { IfOk result (λ left.
            AllByRecursion (λ one.
            IsNewSeat sizes.shards (rules_of sizes) (D.flow one.source) one.session one.slot_state)
            (into_iter_items left.seats)) }
    {
        let RecordedChannels {
            near,
            clerks,
            far,
            recorders,
            witness,
        } = RecordedChannels::new(alloc, opening, sizes)?;
        let wakers = Wakers::of(alloc, pollers)?;
        let workers = make_recorded_workers(rt, alloc, far, recorders, sizes)?;
        let workers = set_working(alloc, workers, gate, &wakers)?;
        let seats = make_slots(alloc, sources, near, clerks, &wakers, sizes)?;
        Ok(Unassigned {
            seats: seats.into_iter(),
            workers: workers.into_iter(),
            witness,
        })
    }

    /// The reactor of the next thread: it takes as many slots and workers as its poller has places
    /// for, or all that are left.
    fn next_part<K: Clock + Drop>(
        &mut self,
        alloc: Global,
        poller: Poller,
        sizes: Sizes,
        clock: K,
        memory: ClientMemory,
    ) -> Result<Reactor<D, G, K>, AllocError>
        requires begin { AllByRecursion (λ one.
            IsNewSeat sizes.shards (rules_of sizes) (D.flow one.source) one.session one.slot_state)
            (into_iter_items self.old.seats) }
        ensures ready { IfOk result (λ part.
            AllByRecursion (λ one.
            IsNewSeat part.sizes.shards (rules_of part.sizes) (D.flow one.source) one.session
            one.slot_state) part.seats.all.items) }
        ensures seats { IfOk result (λ part.
            part.seats.all.items ++ into_iter_items self.new.seats ≡
            into_iter_items self.old.seats) }
        ensures sizes { IfOk result (λ part. part.sizes ≡ sizes) }
        ensures clock { IfOk result (λ part. part.clock ≡ clock) }
        ensures witness { self.new.witness ≡ self.old.witness }
    {
        let seats = take_some(alloc, &mut self.seats, poller.places())?;
        let workers = take_some(alloc, &mut self.workers, poller.workers())?;
        Reactor::new(alloc, seats, workers, poller, sizes, clock, memory)
    }

    /// Whether no slot and no worker is left.
    fn is_empty(&self) -> bool
        ensures { IsTrue result → length (into_iter_items self.now.seats) ≡ 0 }
    {
        self.seats.len() == 0 && self.workers.len() == 0
    }

    /// Returns the history's witness.
    fn into_witness(self) -> Member
        ensures { result ≡ self.witness }
    {
        let Unassigned { witness, .. } = self;
        witness
    }
}

/// Takes the next `count`, or all that are left.
fn take_some<T: Drop>(
    alloc: Global,
    left: &mut IntoIter<T>,
    count: usize,
) -> Result<Vec<T>, AllocError>
    ensures { IfOk result
        (λ some. some.items ++ into_iter_items left.new ≡ into_iter_items left.old) }
{
    let mut some = Vec::new(alloc);
    for _ in 0..count {
        let Some(one) = left.next() else {
            return Ok(some);
        };
        some.push(one)?;
    }
    Ok(some)
}
