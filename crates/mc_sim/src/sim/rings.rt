//! All rings between slots and shards, with the shards' workers, in one thread. Each call is one
//! push or pop, and returns whether it was done. Only construction and the shards' items take
//! memory.
ghost use Rattle.std.specs.Prelude.{◌≡◌, ◌↔◌, ◌<◌, IfOk, IfErr, IfSome, IfNone, IsTrue, None, Some, false, length, map, true, ℕ};
ghost use Rattle.std.specs.List.{AllByRecursion, slice_get};
ghost use Rattle.mc_sizes.specs.Sizes.{AreWithin};
ghost use Rattle.mc_sizes.specs.declared.sizes.Sizes.{Sizes};
ghost use Rattle.mc_ring.specs.Channel.{Far};
ghost use Rattle.mc_ring.specs.Ends.{Ends};
ghost use Rattle.mc_ring.specs.Made.{AreNewEnds, IsUnused};
ghost use Rattle.mc_ring.specs.Reply.{shown};
ghost use Rattle.mc_sim.specs.Laid.{AreIn, LooksAt};
ghost use Rattle.mc_sim.specs.Rings.{AreWired, GivesNone, GivesReply, KeepsPiece, ReceivesNone, ReceivesReply, RunsNone, RunsOldest, IsStarted, SendsPiece, TellsWaiting, Wires, ends_of, new_wires};

use mc_reply::Ticket;
use mc_ring::{Reply, Request, SeatEnds, ShardEnds, channels};
use mc_sizes::Sizes;
use mc_split::Piece;
use mc_worker::{OpenGate, Turn, Worker};
use std::alloc::{AllocError, Global};
use std::marker::Model;
use std::random::RandomSource;

/// An operation that a shard ran.
#[derive(Clone, Copy)]
pub(crate) struct Ran {
    pub(crate) ticket: Ticket,
    pub(crate) part: usize,
    /// The time of the piece, in seconds since 1970.
    pub(crate) moment: u64,
}

/// The slots' ends of all channels, and the workers with the shards' ends.
#[derive(Drop)]
pub(crate) struct Rings {
    seats: Vec<SeatEnds>,
    workers: Vec<Worker>,
    /// Capacity of each ring.
    places: usize,
}

impl Model for Rings {
    ghost use Rattle.mc_sim.specs.Laid.{AreLaid, Laid};

    ghost Value = { Laid };

    ghost view = { λ rings.
        record
        { seats = rings.seats.items; workers = rings.workers.items; places = rings.places } };

    ghost invariant = { λ rings.
        AreLaid
        (record {
          seats = rings.seats.items;
          workers = rings.workers.items;
          places = rings.places;
        }) };
}

impl Rings {
    /// Rings, and workers of empty shards, for these sizes, which must be in range.
    pub(crate) fn new<R: RandomSource>(
        rt: &R,
        alloc: Global,
        sizes: Sizes,
    ) -> Result<Rings, AllocError>
        requires { AreWithin sizes }
        ensures { IfOk result
            (λ rings. AreWired sizes rings (new_wires sizes)) }
    {
        let Ok((seats, shards)) = channels(alloc, sizes) else {
            return Err(AllocError);
        };
        let workers = all_workers(rt, alloc, shards, sizes)?;
        Ok(Rings {
            seats,
            workers,
            places: sizes.ring,
        })
    }

    /// Number of shards.
    pub(crate) fn shards(&self) -> usize
        ensures { (sizes : Sizes) (wires : Wires) → AreWired sizes self.now wires →
            result ≡ sizes.shards }
    {
        self.workers.len()
    }

    /// Sends a piece from a slot to a shard. If the ring is full, the piece is returned.
    pub(crate) fn send(&mut self, seat: usize, shard: usize, piece: Piece) -> Result<(), Piece>
        ensures sent { IfOk result (λ _.
            (sizes : Sizes) (wires : Wires) → AreWired sizes self.old wires →
            SendsPiece sizes wires seat shard piece self.new) }
        ensures back { IfErr result (λ back. back ≡ piece) }
        ensures kept { IfErr result (λ _.
            (sizes : Sizes) (wires : Wires) → AreWired sizes self.old wires →
            KeepsPiece sizes wires seat shard self.new) }
    {
        if !self.has(seat, shard) {
            return Err(piece);
        }
        let (waiting, _) = self.look(seat, shard);
        if self.places <= waiting {
            return Err(piece);
        }
        if let Err(Request::Piece(piece)) = self.seats[seat].send(shard, Request::Piece(piece)) {
            return Err(piece);
        }
        Ok(())
    }

    /// Whether a shard can run a piece of a slot now: its worker holds no reply, and a piece waits.
    pub(crate) fn waits(&mut self, shard: usize, seat: usize) -> bool
        ensures { (sizes : Sizes) (wires : Wires) → AreWired sizes self.old wires →
            TellsWaiting sizes wires shard seat result self.new }
    {
        if !self.has(seat, shard) {
            return false;
        }
        let (waiting, _) = self.look(seat, shard);
        if waiting == 0 {
            return false;
        }
        self.workers[shard].holder().is_none()
    }

    /// Takes the slot's oldest piece and runs it on the shard, if the worker holds no reply and a
    /// piece waits.
    pub(crate) fn pop(&mut self, alloc: Global, shard: usize, seat: usize) -> Option<Ran>
        ensures ran { IfSome result (λ ran.
            (sizes : Sizes) (wires : Wires) → AreWired sizes self.old wires →
            RunsOldest sizes wires shard seat ran self.new) }
        ensures none { IfNone result
            ((sizes : Sizes) (wires : Wires) → AreWired sizes self.old wires →
            RunsNone sizes wires shard seat self.new) }
    {
        if !self.has(seat, shard) {
            return None;
        }
        let (waiting, _) = self.look(seat, shard);
        if waiting == 0 {
            return None;
        }
        if self.workers[shard].holder().is_some() {
            return None;
        }
        if let Turn::Ran {
            ticket,
            part,
            moment,
        } = self.workers[shard].turn(alloc, seat, &OpenGate)
        {
            return Some(Ran {
                ticket,
                part,
                moment,
            });
        }
        None
    }

    /// Sends the reply that a worker holds to its slot, if there is one and the ring has space.
    /// Returns whether it did.
    pub(crate) fn give(&mut self, alloc: Global, shard: usize) -> bool
        ensures given { IsTrue result → (sizes : Sizes) (wires : Wires) →
            AreWired sizes self.old wires → GivesReply sizes wires shard self.new }
        ensures none { result ≡ false → (sizes : Sizes) (wires : Wires) →
            AreWired sizes self.old wires → GivesNone sizes wires shard self.new }
    {
        if self.workers.len() <= shard {
            return false;
        }
        let Some(seat) = self.workers[shard].holder() else {
            return false;
        };
        if !self.has(seat, shard) {
            return false;
        }
        let (_, waiting) = self.look(seat, shard);
        if self.places <= waiting {
            return false;
        }
        if let Turn::Gave = self.workers[shard].turn(alloc, seat, &OpenGate) {
            return true;
        }
        false
    }

    /// Receives the shard's oldest reply for a slot, if one waits.
    pub(crate) fn receive(&mut self, seat: usize, shard: usize) -> Option<Reply>
        ensures received { IfSome result (λ reply.
            (sizes : Sizes) (wires : Wires) → AreWired sizes self.old wires →
            ReceivesReply sizes wires seat shard (shown reply) self.new) }
        ensures none { IfNone result
            ((sizes : Sizes) (wires : Wires) → AreWired sizes self.old wires →
            ReceivesNone sizes wires seat shard self.new) }
    {
        if !self.has(seat, shard) {
            return None;
        }
        let (_, waiting) = self.look(seat, shard);
        if waiting == 0 {
            return None;
        }
        self.seats[seat].receive(shard)
    }

    /// Whether slot and shard exist.
    fn has(&self, seat: usize, shard: usize) -> bool
        ensures { IsTrue result ↔ AreIn self.now seat shard }
    {
        seat < self.seats.len() && shard < self.workers.len()
    }

    /// Number of pieces and of replies in the rings between a slot and a shard.
    fn look(&mut self, seat: usize, shard: usize) -> (usize, usize)
        requires { AreIn self.old seat shard }
        ensures { LooksAt seat shard self.old self.new result.0 result.1 }
    {
        let worker = &mut self.workers[shard];
        worker.beside(&mut self.seats[seat])
    }
}

/// A worker with an empty shard for each of these ends.
fn all_workers<R: RandomSource>(
    rt: &R,
    alloc: Global,
    shards: Vec<ShardEnds>,
    sizes: Sizes,
) -> Result<Vec<Worker>, AllocError>
    requires within { AreWithin sizes }
    requires counted { length shards.items ≡ sizes.shards }
    requires new { (number : ℕ) (ends : Ends Far) → slice_get shards.items number ≡ Some ends →
        AreNewEnds number sizes.seats sizes.ring ends }
    ensures ends { IfOk result (λ workers. map ends_of workers.items ≡ shards.items) }
    ensures started { IfOk result
        (λ workers. AllByRecursion (IsStarted sizes) workers.items) }
{
    let mut workers = Vec::with_capacity(alloc, sizes.shards)?;
    for ends in shards {
        workers.push(worker(rt, alloc, ends, sizes)?)?;
    }
    Ok(workers)
}

/// A worker with an empty shard for these ends.
fn worker<R: RandomSource>(
    rt: &R,
    alloc: Global,
    ends: ShardEnds,
    sizes: Sizes,
) -> Result<Worker, AllocError>
    requires within { AreWithin sizes }
    requires place { ends.number < sizes.shards }
    requires unused { AllByRecursion IsUnused ends.channels }
    ensures ends { IfOk result (λ worker. worker.ends ≡ ends) }
    ensures started { IfOk result (λ worker. IsStarted sizes worker) }
{
    Worker::start(rt, alloc, ends, sizes)
}
