//! The worker of one shard: it takes pieces from the seats' channels, runs them and sends the
//! replies.
ghost use Rattle.std.specs.Prelude.{◌≡◌, ◌≢◌, ◌<◌, ◌↔◌, ◌++◌, ◌∷◌, [], Bool, IsTrue, List, None};
ghost use Rattle.std.specs.Prelude.{IfOk, IfSome, length, map, true};
ghost use Rattle.std.specs.Bool.{OnTrue};
ghost use Rattle.std.specs.List.{AllByRecursion};
ghost use Rattle.std.specs.Option.{option_map};
ghost use Rattle.mc_sizes.specs.Sizes.{SuitShards};
ghost use Rattle.mc_item.specs.Kind.{kind_of};
ghost use Rattle.mc_ring.specs.declared.request.Request.TheVariants as request;
ghost use Rattle.mc_ring.specs.Reply.{shown};
ghost use Rattle.mc_ring.specs.Ends.{AreSameEnds};
ghost use Rattle.mc_ring.specs.Made.{IsChannel, IsUnused, LooksAtBoth};
ghost use Rattle.mc_store.specs.Shard.{IsShard, Steps};
ghost use Rattle.mc_store.specs.State.{State};
ghost use Rattle.mc_model.specs.Log.{of_asker, pieces_in};
ghost use Rattle.mc_model.specs.Sized.{empty_shard};
ghost use Rattle.mc_worker.specs.WorkerState.{Goes, HasEnded, HasRun, RunsNoMore};
ghost use Rattle.mc_worker.specs.Turns.{FindsNothing, Gives, LogGrows, Turned};
ghost use Rattle.mc_worker.specs.Marks.{Marks, MarksNoOther};
ghost use Rattle.mc_worker.specs.Serves.{LeavesNothing, ServesSeat};
ghost use Rattle.mc_worker.specs.Scribe.{AreOnRoutes};
ghost use Rattle.mc_worker.specs.internal.Serving.{RanOn, ServesNext, marked_after};

use crate::gate::Gate;
use crate::scribe::Scribe;
use mc_reply::Ticket;
use mc_ring::{Reply, Request, SeatEnds, ShardEnds, Token, beside};
use mc_sizes::Sizes;
use mc_split::Piece;
use mc_store::Shard;
use std::alloc::{AllocError, Global};
use std::marker::Model;
use std::random::RandomSource;
use std::snapshot::Snapshot;

/// Maximum number of requests of one seat before the worker serves the next one.
const CHANNEL_REQUESTS: usize = 32;

/// The outcome of a turn.
#[derive(Clone, Copy, Debug, PartialEq, Eq)]
pub enum Turn {
    /// The pending reply was sent.
    Gave,
    /// The pending reply was not sent, since the ring was full.
    Blocked,
    /// No request of the seat was there, or its `End` was received before.
    Nothing,
    /// The seat's `End` was received.
    Ended,
    /// A piece of the seat was run, and its reply is pending. `moment` is the time of the piece, in
    /// seconds since 1970.
    Ran {
        ticket: Ticket,
        part: usize,
        moment: u64,
    },
}

/// The outcome of serving a seat.
#[derive(Clone, Copy, Debug, PartialEq, Eq)]
pub enum Served {
    /// The channel was empty, and no reply was pending.
    Nothing,
    /// Some turns were made, and the channel is empty.
    All,
    /// Some turns were made, and there may be more to do.
    Part,
}

/// What became of the next request of a seat.
#[derive(Clone, Copy)]
enum Next {
    /// There was none.
    Nothing,
    /// It was the seat's `End`.
    Ended,
    /// It was a piece, which was run; its reply was sent.
    Sent,
    /// It was a piece, which was run; its reply is pending, since the ring was full.
    Full,
}

/// A reply that is not sent yet, with its seat.
#[derive(Drop)]
struct Pending {
    seat: usize,
    reply: Reply,
}

/// The worker of one shard. It holds at most one reply that is not sent yet. A scribe records what
/// it runs, and makes the tokens of its replies.
pub struct Worker<T: Token = (), S: Scribe<T> = ()> {
    shard: Shard,
    ends: ShardEnds<T>,
    pending: Option<Pending>,
    /// Whether the `End` of each channel is still to come.
    live: Vec<bool>,
    scribe: S,
}

impl<T: Token + Drop, S: Scribe<T> + Drop> Drop for Worker<T, S> {
    /// Written by hand, so that its owners drop it by a single call (docs/DECISIONS.md, F20).
    fn drop(self) {
        let Worker {
            shard: _shard,
            ends: _ends,
            pending: _pending,
            live: _live,
            scribe: _scribe,
        } = self;
    }
}

impl<T: Token, S: Scribe<T>> Model for Worker<T, S> {
    ghost use Rattle.std.specs.Option.{option_map};
    ghost use Rattle.mc_ring.specs.Reply.{shown};
    ghost use Rattle.mc_store.specs.Shard.{held_of};
    ghost use Rattle.mc_worker.specs.WorkerState.{WorkerState, IsWellMarked};
    ghost use Rattle.mc_worker.specs.Scribe.{IsRecorded};

    ghost Value = { WorkerState };

    ghost view = { λ worker. record {
      shard = held_of worker.shard;
      ends = worker.ends;
      hand = option_map (λ pending. (pending.seat, shown pending.reply)) worker.pending;
      live = worker.live.items;
    } };

    ghost invariant = { λ worker. IsWellMarked (record {
      shard = held_of worker.shard;
      ends = worker.ends;
      hand = option_map (λ pending. (pending.seat, shown pending.reply)) worker.pending;
      live = worker.live.items;
    })
        × (S.keeps worker.scribe →
        IsRecorded (S.route worker.scribe) (S.begin worker.scribe) (S.log worker.scribe) (record {
          shard = held_of worker.shard;
          ends = worker.ends;
          hand = option_map (λ pending. (pending.seat, shown pending.reply)) worker.pending;
          live = worker.live.items;
        })) };
}

impl Worker<(), ()> {
    /// A worker of this shard over unused ends of its channels. It keeps no record. Fails if memory
    /// is refused.
    pub fn new(alloc: Global, shard: Shard, ends: ShardEnds) -> Result<Worker, AllocError>
        requires { AllByRecursion IsUnused ends.channels }
        ensures ends { IfOk result (λ worker. worker.ends ≡ ends) }
        ensures free { IfOk result (λ worker. worker.hand ≡ None) }
        ensures live { IfOk result (λ worker. AllByRecursion (λ live. live ≡ true) worker.live) }
        ensures marked { IfOk result (λ worker. length worker.live ≡ length worker.ends.channels) }

        // Nothing was run yet.
        ensures begins { IfOk result
            (λ worker. (begin : State) → IsShard shard begin → HasRun begin worker []) }
    {
        Worker::recorded(alloc, shard, ends, ())
    }

    /// A worker of an empty shard of a server of these sizes, over unused ends. It keeps no record.
    /// Fails if memory is refused.
    pub fn start<R: RandomSource>(
        rt: &R,
        alloc: Global,
        ends: ShardEnds,
        sizes: Sizes,
    ) -> Result<Worker, AllocError>
        requires place { ends.number < sizes.shards }
        requires sizes { SuitShards sizes }
        requires unused { AllByRecursion IsUnused ends.channels }
        ensures ends { IfOk result (λ worker. worker.ends ≡ ends) }
        ensures free { IfOk result (λ worker. worker.hand ≡ None) }
        ensures live { IfOk result (λ worker. AllByRecursion (λ live. live ≡ true) worker.live) }
        ensures marked { IfOk result (λ worker. length worker.live ≡ length worker.ends.channels) }

        // Nothing was run yet.
        ensures begins { IfOk result (λ worker. HasRun (empty_shard sizes ends.number) worker []) }
    {
        Worker::start_recorded(rt, alloc, ends, sizes, ())
    }
}

impl<T: Token + Drop, S: Scribe<T> + Drop> Worker<T, S> {
    /// A worker of this shard over unused ends of its channels, with a scribe whose record is
    /// empty. Fails if memory is refused.
    pub fn recorded(
        alloc: Global,
        shard: Shard,
        ends: ShardEnds<T>,
        scribe: S,
    ) -> Result<Worker<T, S>, AllocError>
        requires unused { AllByRecursion IsUnused ends.channels }
        requires routes { S.keeps scribe → AreOnRoutes (S.route scribe) ends }
        requires begin { S.keeps scribe → IsShard shard (S.begin scribe) }
        requires log { S.keeps scribe → S.log scribe ≡ [] }
        ensures ends { IfOk result (λ worker. worker.ends ≡ ends) }
        ensures free { IfOk result (λ worker. worker.hand ≡ None) }
        ensures live { IfOk result (λ worker. AllByRecursion (λ live. live ≡ true) worker.live) }
        ensures marked { IfOk result (λ worker. length worker.live ≡ length worker.ends.channels) }

        // Nothing was run yet.
        ensures begins { IfOk result
            (λ worker. (begin : State) → IsShard shard begin → HasRun begin worker []) }
    {
        let live = vec![in alloc; true; ends.seats()]?;
        Ok(Worker {
            shard,
            ends,
            pending: None,
            live,
            scribe,
        })
    }

    /// A worker of an empty shard of a server of these sizes, over unused ends, with a scribe whose
    /// record is empty. Fails if memory is refused.
    pub fn start_recorded<R: RandomSource>(
        rt: &R,
        alloc: Global,
        ends: ShardEnds<T>,
        sizes: Sizes,
        scribe: S,
    ) -> Result<Worker<T, S>, AllocError>
        requires place { ends.number < sizes.shards }
        requires sizes { SuitShards sizes }
        requires unused { AllByRecursion IsUnused ends.channels }
        requires routes { S.keeps scribe → AreOnRoutes (S.route scribe) ends }
        requires begin { S.keeps scribe → S.begin scribe ≡ empty_shard sizes ends.number }
        requires log { S.keeps scribe → S.log scribe ≡ [] }
        ensures ends { IfOk result (λ worker. worker.ends ≡ ends) }
        ensures free { IfOk result (λ worker. worker.hand ≡ None) }
        ensures live { IfOk result (λ worker. AllByRecursion (λ live. live ≡ true) worker.live) }
        ensures marked { IfOk result (λ worker. length worker.live ≡ length worker.ends.channels) }

        // Nothing was run yet.
        ensures begins { IfOk result (λ worker. HasRun (empty_shard sizes ends.number) worker []) }
    {
        let number = ends.number();
        match Shard::empty(rt, alloc, number, sizes.shards, sizes.bytes, sizes.value) {
            Ok(shard) => Worker::recorded(alloc, shard, ends, scribe),
            Err(_) => Err(AllocError),
        }
    }

    /// Calls the gate's `after` with the shard.
    pub fn show<G: Gate>(&self, gate: &G) {
        gate.after(self.ends.number(), &self.shard);
    }

    /// Number of seats that it serves.
    pub fn seats(&self) -> usize
        ensures { result ≡ length self.now.ends.channels }
    {
        self.ends.seats()
    }

    /// Whether the `End` of every channel was received; no reply is pending then. Allocates
    /// nothing.
    pub fn ended(&self) -> bool
        ensures ended { IsTrue result ↔ HasEnded self.now }
        ensures given { OnTrue result (self.now.hand ≡ None) }
        ensures marked { length self.now.live ≡ length self.now.ends.channels }
    {
        !self.live.contains(&true)
    }

    /// One step: one push or one pop on one ring. If a reply is pending, tries to send it, whatever
    /// seat it is for. Otherwise takes the next request of the seat; a piece is run at once, after
    /// the gate was called.
    pub fn turn<G: Gate>(&mut self, alloc: Global, seat: usize, gate: &G) -> Turn
        requires { seat < length self.old.ends.channels }
        ensures turned { Turned self.old seat result self.new }
        ensures grows { LogGrows self.old seat result self.new }
        ensures gives { Gives self.old result self.new }
        ensures keeps { AreSameEnds self.old.ends self.new.ends }
    {
        let _ = &self.shard;
        self.step(alloc, seat, gate)
    }

    /// Number of requests and of replies that wait on the channel of a seat, whose ends must be of
    /// one call of `channels`. Allocates nothing.
    pub fn beside(&mut self, seat: &mut SeatEnds<T>) -> (usize, usize)
        requires { IsChannel seat.old self.old.ends }
        ensures looked { LooksAtBoth seat.old seat.new self.old.ends self.new.ends result.0
            result.1 }
        ensures rest { self.new ≡ record self.old { ends = self.new.ends } }
        ensures ran { RunsNoMore self.old self.new }
        ensures seat { AreSameEnds seat.old seat.new }
        ensures keeps { AreSameEnds self.old.ends self.new.ends }
    {
        beside(seat, &mut self.ends)
    }

    /// Sends the pending reply, if there is one, then serves requests of one seat while its channel
    /// has some, at most `CHANNEL_REQUESTS`. Where the ring has room, the reply of a piece is sent as
    /// soon as it is run. Sets `given` for each seat that a reply was sent to, so that its thread can
    /// be woken.
    pub fn serve<G: Gate>(
        &mut self,
        alloc: Global,
        seat: usize,
        gate: &G,
        given: &mut [bool],
    ) -> Served
        requires seat { seat < length self.old.ends.channels }
        requires given { length given.old ≡ length self.old.ends.channels }
        ensures goes { Goes self.old self.new }
        ensures marks { Marks self.old self.new given.old given.new }
        ensures others { MarksNoOther self.old seat given.old given.new }
        ensures serves { result ≢ Served.Nothing → ServesSeat self.old seat self.new }
        ensures rests { result ≡ Served.Nothing → FindsNothing self.old seat self.new }
        // The seat's channel is empty.
        ensures all { result ≡ Served.All → LeavesNothing self.old seat self.new }
    {
        let _ = &self.shard;
        let Some(holder) = self.holder() else {
            return self.serve_requests(alloc, seat, gate, given);
        };
        let Turn::Gave = self.turn(alloc, seat, gate) else {
            return Served::Part;
        };
        given[holder] = true;
        match self.serve_requests(alloc, seat, gate, given) {
            Served::Nothing | Served::All => Served::All,
            Served::Part => Served::Part,
        }
    }

    /// The seat of the pending reply, if there is one.
    pub fn holder(&self) -> Option<usize>
        ensures held { result ≡ option_map (λ held. held.0) self.now.hand }
        ensures within { IfSome result (λ seat. seat < length self.now.ends.channels) }
    {
        let pending = self.pending.as_ref()?;
        Some(pending.seat)
    }

    /// A turn; its contract leaves the log out.
    fn step<G: Gate>(&mut self, alloc: Global, seat: usize, gate: &G) -> Turn
        requires { seat < length self.old.ends.channels }
        ensures { Turned self.old seat result self.new }
    {
        let Some(Pending { seat, reply: held }) = self.pending.take() else {
            return self.take_from(alloc, seat, gate);
        };
        let token = self.scribe.token();
        match self.ends.give_with(seat, held, token) {
            Ok(()) => Turn::Gave,
            Err(reply) => {
                self.pending = Some(Pending { seat, reply });
                Turn::Blocked
            }
        }
    }

    /// Takes the next request of the seat, if there is one, and runs it if it is a piece.
    fn take_from<G: Gate>(&mut self, alloc: Global, seat: usize, gate: &G) -> Turn
        requires seat { seat < length self.old.ends.channels }
        requires free { self.old.hand ≡ None }
        ensures { Turned self.old seat result self.new }
    {
        if !self.live[seat] {
            return Turn::Nothing;
        }
        let Some((taken, token)) = self.ends.take_with(seat) else {
            return Turn::Nothing;
        };
        let Request::Piece(mut piece) = taken else {
            self.live[seat] = false;
            return Turn::Ended;
        };
        let (ticket, part, moment) = (piece.ticket, piece.part, piece.moment);
        gate.before(self.ends.number(), ticket);
        let reply = run_piece(
            alloc,
            &mut self.shard,
            &mut self.scribe,
            seat,
            token,
            &mut piece,
        );
        self.pending = Some(Pending { seat, reply });
        Turn::Ran {
            ticket,
            part,
            moment,
        }
    }

    /// Serves the requests of a seat, while no reply is pending.
    fn serve_requests<G: Gate>(
        &mut self,
        alloc: Global,
        seat: usize,
        gate: &G,
        given: &mut [bool],
    ) -> Served
        requires seat { seat < length self.old.ends.channels }
        requires given { length given.old ≡ length self.old.ends.channels }
        requires free { self.old.hand ≡ None }
        ensures goes { Goes self.old self.new }
        ensures marks { Marks self.old self.new given.old given.new }
        ensures others { MarksNoOther self.old seat given.old given.new }
        ensures serves { result ≢ Served.Nothing → ServesSeat self.old seat self.new }
        ensures rests { result ≡ Served.Nothing → FindsNothing self.old seat self.new }
        ensures all { result ≡ Served.All → LeavesNothing self.old seat self.new }
    {
        let mut served = Served::Nothing;
        for _ in 0..CHANNEL_REQUESTS {
            match self.serve_next(alloc, seat, gate) {
                Next::Nothing => return served,
                Next::Full => return Served::Part,
                Next::Sent => given[seat] = true,
                Next::Ended => {}
            }
            served = Served::All;
        }
        Served::Part
    }

    /// Serves the next request of the seat, if there is one.
    fn serve_next<G: Gate>(&mut self, alloc: Global, seat: usize, gate: &G) -> Next
        requires seat { seat < length self.old.ends.channels }
        requires free { self.old.hand ≡ None }
        ensures goes { Goes self.old self.new }
        ensures marks { (marks : List Bool) → seat < length marks →
            Marks self.old self.new marks (marked_after result seat marks) }
        ensures serves { result ≢ Next.Nothing → ServesSeat self.old seat self.new }
        ensures nothing { result ≡ Next.Nothing → FindsNothing self.old seat self.new }
        ensures free { result ≢ Next.Full → self.new.hand ≡ None }
    {
        let _ = &self.shard;
        self.run_next(alloc, seat, gate)
    }

    /// Takes the next request of the seat, if there is one. A piece is run, and its reply is sent, or
    /// is pending where the ring is full. Its contract leaves the log out.
    fn run_next<G: Gate>(&mut self, alloc: Global, seat: usize, gate: &G) -> Next
        requires seat { seat < length self.old.ends.channels }
        requires free { self.old.hand ≡ None }
        ensures { ServesNext self.old seat result self.new }
    {
        if !self.live[seat] {
            return Next::Nothing;
        }
        let Some((mut request, token)) = self.ends.take_with(seat) else {
            return Next::Nothing;
        };
        let Request::Piece(piece) = &mut request else {
            self.live[seat] = false;
            return Next::Ended;
        };
        gate.before(self.ends.number(), piece.ticket);
        let reply = run_piece(alloc, &mut self.shard, &mut self.scribe, seat, token, piece);
        let token = self.scribe.token();
        match self.ends.give_with(seat, reply, token) {
            Ok(()) => Next::Sent,
            Err(reply) => {
                self.pending = Some(Pending { seat, reply });
                Next::Full
            }
        }
    }
}

/// Runs a piece of a seat on the shard, and records it.
#[inline(never)]
fn run_piece<T: Token, S: Scribe<T>>(
    alloc: Global,
    shard: &mut Shard,
    scribe: &mut S,
    seat: usize,
    token: T,
    piece: &mut Piece,
) -> Reply
    requires may { S.keeps scribe.old → T.may_send (S.route scribe.old seat)
        (map request.Piece (pieces_in (of_asker seat (S.log scribe.old))))
        (request.Piece piece.old) token }
    requires ran { S.keeps scribe.old →
        RanOn (S.begin scribe.old) (S.log scribe.old) shard.old }
    ensures step { Steps shard.old piece.old.op piece.old.moment result.answer shard.new }
    ensures reply { shown result ≡ record {
      ticket = piece.old.ticket;
      part = piece.old.part;
      kind = kind_of piece.old.op;
      answer = result.answer;
    } }
    ensures log { S.keeps scribe.old → S.log scribe.new ≡ S.log scribe.old ++ record {
      shard = (S.route scribe.old seat).shard;
      asker = seat;
      piece = piece.old;
      answer = result.answer;
    } ∷ [] }
    ensures keeps { S.keeps scribe.new → S.keeps scribe.old }
    ensures route { S.route scribe.new ≡ S.route scribe.old }
    ensures begin { S.begin scribe.new ≡ S.begin scribe.old }
{
    let (ticket, part, moment) = (piece.ticket, piece.part, piece.moment);
    let sent = Snapshot::of(piece);
    let kind = piece.op.kind();
    let answer = shard.run_in_place(alloc, &mut piece.op, moment);
    scribe.runs(seat, token, sent, &answer);
    Reply::new(ticket, part, kind, answer)
}
