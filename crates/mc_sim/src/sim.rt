//! The whole server in one thread: connections, shards and rings, driven by one event at a time.
ghost use Rattle.std.specs.Prelude.{◌≡◌, ◌<◌, ℕ, length, map, IfErr, IfOk, IfSome, IfNone, OnErr, OnOk, Some};
ghost use Rattle.std.specs.List.{AllByRecursion, slice_get};
ghost use Rattle.std.specs.Option.{option_map};
ghost use Rattle.mc_sizes.specs.Sizes.{AreWithin};
ghost use Rattle.mc_sizes.specs.declared.sizes.Sizes.{Sizes};
ghost use Rattle.mc_model.specs.World.{IsAt, IsLink, Link, World, empty_world};
ghost use Rattle.mc_model.specs.Headline.{handed_bytes};
ghost use Rattle.mc_sim.specs.Asked.{event_of};
ghost use Rattle.mc_sim.specs.Stands.{IsNewSeat, IsRefused, Stands, StepsByEvent, line_of};
ghost use Rattle.mc_sim.specs.Runs.{Runs, Stops};

mod at_ring;
mod at_seat;
mod page;
mod rings;

use mc_conn::Conn;
use mc_item::NoMemory;
use mc_model::{Event, StepReply};
use mc_reply::Ticket;
use mc_sizes::{SizeError, Sizes};
use rings::Rings;
use std::alloc::{AllocError, Global};
use std::random::RandomSource;
use thiserror::Error;

/// Why a simulator can't be made.
#[derive(Clone, Copy, Debug, Error)]
pub enum SimError {
    /// A size is out of range.
    #[error(transparent)]
    Size(SizeError),
    /// Memory was refused.
    #[error("out of memory")]
    Memory,
}

/// A connection with its history. Connections are numbered from 0 in the order in which they were
/// opened.
#[derive(Drop)]
pub struct Connection {
    pub seat: usize,
    pub ended: bool,
    pub broken: bool,
    /// All bytes fed to it.
    fed: Vec<u8>,
    /// All bytes written to it.
    handed: Vec<u8>,
}

/// An operation that a shard ran.
#[derive(Clone, Copy, PartialEq, Eq)]
pub struct LogEntry {
    pub shard: usize,
    /// The number of its connection.
    pub connection: usize,
    pub ticket: Ticket,
    pub part: usize,
    /// When the command was parsed, in seconds since 1970.
    pub moment: u64,
}

/// A slot with the number of its connection.
#[derive(Drop)]
struct Seat {
    conn: Conn,
    current: Option<usize>,
}

/// The server in one thread.
///
/// Contracts relate it to a world of the model: `Stands sizes sim world`.
pub struct Sim {
    seats: Vec<Seat>,
    connections: Vec<Connection>,
    log: Vec<LogEntry>,
    rings: Rings,
}

impl Drop for Sim {
    /// Written by hand, so that its owners drop it by a single call (docs/DECISIONS.md, F20).
    fn drop(self) {
        let Sim {
            seats: _seats,
            connections: _connections,
            log: _log,
            rings: _rings,
        } = self;
    }
}

impl Sim {
    /// A server of these sizes in its initial state.
    pub fn new<R: RandomSource>(rt: &R, alloc: Global, sizes: Sizes) -> Result<Sim, SimError>
        ensures ok { IfOk result (λ sim. Stands sizes sim empty_world) }
        ensures within { OnOk result (AreWithin sizes) }
        ensures refused { IfErr result (IsRefused sizes) }
    {
        if let Err(fault) = sizes.check() {
            return Err(SimError::Size(fault));
        }
        let Ok(sim) = Sim::make(rt, alloc, sizes) else {
            return Err(SimError::Memory);
        };
        Ok(sim)
    }

    /// A server of sizes that are in range.
    fn make<R: RandomSource>(rt: &R, alloc: Global, sizes: Sizes) -> Result<Sim, AllocError>
        requires { AreWithin sizes }
        ensures { IfOk result (λ sim. Stands sizes sim empty_world) }
    {
        let seats = new_seats(alloc, sizes)?;
        let rings = Rings::new(rt, alloc, sizes)?;
        Ok(Sim {
            seats,
            connections: Vec::new(alloc),
            log: Vec::new(alloc),
            rings,
        })
    }

    /// Number of slots.
    pub fn seats(&self) -> usize
        ensures { (sizes : Sizes) (w : World) → Stands sizes self.now w → result ≡ sizes.seats }
    {
        self.seats.len()
    }

    /// Number of shards.
    pub fn shards(&self) -> usize
        ensures { (sizes : Sizes) (w : World) → Stands sizes self.now w → result ≡ sizes.shards }
    {
        self.rings.shards()
    }

    /// The connections, in the order in which they were opened.
    pub fn connections(&self) -> &[Connection]
        ensures seats { (sizes : Sizes) (w : World) → Stands sizes self.now w →
            map (λ one. one.seat) result.now ≡ map (λ link. link.seat) w.links }
        ensures ended { (sizes : Sizes) (w : World) → Stands sizes self.now w →
            map (λ one. one.ended) result.now ≡ map (λ link. link.ended) w.links }
        ensures broken { (sizes : Sizes) (w : World) → Stands sizes self.now w →
            map (λ one. one.broken) result.now ≡ map (λ link. link.broken) w.links }
    {
        &self.connections
    }

    /// All bytes fed to the connection of this number, if it exists.
    pub fn fed(&self, number: usize) -> Option<&[u8]>
        ensures kept { (sizes : Sizes) (w : World) (link : Link) → Stands sizes self.now w →
            IsLink w number link → option_map (λ bytes. bytes.now) result ≡ Some link.fed }
        ensures within { IfSome result (λ _.
            (sizes : Sizes) (w : World) → Stands sizes self.now w → number < length w.links) }
    {
        let kept = self.connections.get(number)?;
        Some(&kept.fed)
    }

    /// All bytes written to the connection of this number, if it exists.
    pub fn handed(&self, number: usize) -> Option<&[u8]>
        ensures kept { (sizes : Sizes) (w : World) (link : Link) → Stands sizes self.now w →
            IsLink w number link →
            option_map (λ bytes. bytes.now) result ≡ Some (handed_bytes sizes w number link) }
        ensures within { IfSome result (λ _.
            (sizes : Sizes) (w : World) → Stands sizes self.now w → number < length w.links) }
    {
        let connection = self.connections.get(number)?;
        Some(&connection.handed)
    }

    /// The log: what the shards ran, in order.
    pub fn log(&self) -> &[LogEntry]
        ensures { (sizes : Sizes) (w : World) → Stands sizes self.now w →
            result.now ≡ map line_of w.log }
    {
        &self.log
    }

    /// Runs one event.
    pub fn step(&mut self, alloc: Global, event: &Event) -> StepReply
        ensures { StepsByEvent self.old (event_of event.now) result self.new }
    {
        match event {
            Event::Open { seat } => self.begin(alloc, *seat),
            Event::Feed { seat, bytes } => self.feed(alloc, *seat, bytes),
            Event::Take { seat, moment } => self.take(alloc, *seat, *moment),
            Event::Send { seat } => self.send(*seat),
            Event::Pop { shard, seat } => self.pop(alloc, *shard, *seat),
            Event::Give { shard } => self.give(alloc, *shard),
            Event::Receive { seat, shard } => self.receive(*seat, *shard),
            Event::Hand { seat } => self.hand(alloc, *seat),
            Event::End { seat } => self.end(*seat),
            Event::Break { seat } => self.cut(*seat),
        }
    }

    /// Runs events in order, up to the first that is refused memory. Returns the number of events
    /// done.
    pub fn run(&mut self, alloc: Global, events: &[Event]) -> Result<u64, NoMemory>
        ensures ran { IfOk result (λ done. Runs self.old (map event_of events.now) done self.new) }
        ensures stopped { OnErr result (Stops self.old (map event_of events.now) self.new) }
    {
        let mut done = 0;
        for event in events {
            match self.step(alloc, event) {
                StepReply::Done => done += 1,
                StepReply::Idle => {}
                StepReply::NoMemory => return Err(NoMemory),
            }
        }
        Ok(done)
    }

    /// The number of the slot's connection.
    fn find(&self, seat: usize) -> Option<usize>
        ensures seat { IfSome result (λ number. seat < length self.now.seats.items) }
        ensures kept { IfSome result (λ number. number < length self.now.connections.items) }
        ensures current { IfSome result (λ number.
            (place : _) × (slice_get self.now.seats.items seat ≡ Some place) ×
            (place.current ≡ Some number)) }
        ensures none { IfNone result
            ((sizes : Sizes) (w : World) → Stands sizes self.now w → (k : ℕ) (link : Link) →
            IsAt w seat k link → ⊥) }
    {
        if self.seats.len() <= seat {
            return None;
        }
        let number = self.seats[seat].current?;
        if self.connections.len() <= number {
            return None;
        }
        Some(number)
    }
}

/// The slots, each with a new connection.
fn new_seats(alloc: Global, sizes: Sizes) -> Result<Vec<Seat>, AllocError>
    requires { AreWithin sizes }
    ensures count { IfOk result (λ seats. length seats.items ≡ sizes.seats) }
    ensures each { IfOk result (λ seats. AllByRecursion (IsNewSeat sizes) seats.items) }
{
    let mut seats = Vec::with_capacity(alloc, sizes.seats)?;
    for _ in 0..sizes.seats {
        let rules = sizes.rules();
        let Ok(conn) = Conn::under(alloc, sizes.shards, rules, sizes.window) else {
            return Err(AllocError);
        };
        seats.push(Seat {
            conn,
            current: None,
        })?;
    }
    Ok(seats)
}
