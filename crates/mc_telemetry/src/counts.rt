//! Counters of a server's threads.
ghost use Rattle.std.specs.Prelude.{◌≡◌, ◌-◌, IfOk, length, option_map, slice_get};
ghost use Rattle.mc_telemetry.specs.Counts.{AddsEnds, AddsThread, AreTotals, CountsManner, EachIsShown, SameCounts, shard_count, shared_value, shared_values, shards_of};

use crate::counter::{Count, Counter};
use crate::event::Manner;
use crate::shard_counts::{ShardCounts, ShardTotals};
use crossbeam_utils::CachePadded;
use std::alloc::{AllocError, Global};
use std::sync::Arc;

/// Ended connections, by abnormal reason.
#[derive(Drop)]
pub struct EndCounts<C = Counter> {
    /// Spoke memcached's binary protocol.
    pub binary: C,
    /// Spoke HTTP.
    pub http: C,
    /// Spoke TLS.
    pub tls: C,
    /// Sent a line longer than the line limit.
    pub line_too_long: C,
    /// Were idle longer than the idle timeout.
    pub idle: C,
    /// A read or write failed.
    pub failed: C,
    /// Memory for replies was refused.
    pub refused_memory: C,
}

/// Counters of a thread that serves connections.
#[derive(Drop)]
pub struct SeatCounts<C = Counter> {
    /// Ended connections, including broken ones.
    pub ended: C,
    /// Connections that failed or exceeded the idle timeout.
    pub broken: C,
    /// Commands parsed.
    pub commands: C,
    /// Bytes read.
    pub read: C,
    /// Bytes written.
    pub written: C,
    /// Ended connections by reason.
    pub ends: EndCounts<C>,
}

/// Counters of the accepting thread.
#[derive(Drop)]
pub struct AcceptorCounts<C = Counter> {
    /// Connections accepted.
    pub accepted: C,
    /// Failed accepts.
    pub failed: C,
    /// Connections that were refused, since all seats were taken.
    pub rejected: C,
}

/// Totals of `EndCounts` over all threads.
#[derive(Clone, Copy, Debug, Default, PartialEq, Eq)]
pub struct EndTotals {
    pub binary: u64,
    pub http: u64,
    pub tls: u64,
    pub line_too_long: u64,
    pub idle: u64,
    pub failed: u64,
    pub refused_memory: u64,
}

/// Totals of all threads of a server. They are read counter by counter while the threads run, so
/// they are no consistent snapshot.
#[derive(Clone, Copy, Debug, Default, PartialEq, Eq)]
pub struct Totals {
    /// Connections accepted.
    pub accepted: u64,
    /// Failed accepts.
    pub failed: u64,
    /// Connections that were refused, since all seats were taken.
    pub rejected: u64,
    /// Ended connections, including broken ones.
    pub ended: u64,
    /// Connections that failed or exceeded the idle timeout.
    pub broken: u64,
    /// Commands parsed.
    pub commands: u64,
    /// Bytes read.
    pub read: u64,
    /// Bytes written.
    pub written: u64,
    /// Ended connections by reason.
    pub ends: EndTotals,
    /// Contents and commands of the shards.
    pub shards: ShardTotals,
}

/// The counters of a server's threads, each on cache lines of its own.
pub struct Counts<C = Counter> {
    acceptor: Arc<CachePadded<AcceptorCounts<C>>, Global>,
    threads: Vec<Arc<CachePadded<SeatCounts<C>>, Global>>,
    shards: Vec<Arc<CachePadded<ShardCounts<C>>, Global>>,
}

impl<C: Drop> Drop for Counts<C> {
    /// Written by hand, so that its owners drop it by a single call (docs/DECISIONS.md, F20).
    fn drop(self) {
        let Counts {
            acceptor: _acceptor,
            threads: _threads,
            shards: _shards,
        } = self;
    }
}

impl EndCounts<Counter> {
    fn new() -> EndCounts {
        EndCounts {
            binary: Counter::new(),
            http: Counter::new(),
            tls: Counter::new(),
            line_too_long: Counter::new(),
            idle: Counter::new(),
            failed: Counter::new(),
            refused_memory: Counter::new(),
        }
    }
}

impl<C: Count> EndCounts<C> {
    /// Counts a connection that ended for this reason. An ordinary end by the client or the server
    /// isn't counted.
    pub fn count(&self, manner: Manner)
        ensures { CountsManner C.was_added self.now manner }
    {
        match manner {
            Manner::Binary => self.binary.add(1),
            Manner::Http => self.http.add(1),
            Manner::Tls => self.tls.add(1),
            Manner::LineTooLong => self.line_too_long.add(1),
            Manner::Idle => self.idle.add(1),
            Manner::ReadFailed | Manner::WriteFailed => self.failed.add(1),
            Manner::NoMemory => self.refused_memory.add(1),
            Manner::ByClient | Manner::Quit | Manner::ShutdownRequested | Manner::Shutdown => {}
        }
    }
}

impl EndTotals {
    /// Adds the counters of one thread.
    fn add<C: Count>(&mut self, counts: &EndCounts<C>)
        ensures { AddsEnds C.has_told self.old counts.now self.new }
    {
        self.binary = self.binary.saturating_add(counts.binary.get());
        self.http = self.http.saturating_add(counts.http.get());
        self.tls = self.tls.saturating_add(counts.tls.get());
        self.line_too_long = self
            .line_too_long
            .saturating_add(counts.line_too_long.get());
        self.idle = self.idle.saturating_add(counts.idle.get());
        self.failed = self.failed.saturating_add(counts.failed.get());
        self.refused_memory = self
            .refused_memory
            .saturating_add(counts.refused_memory.get());
    }
}

impl SeatCounts<Counter> {
    fn new() -> SeatCounts {
        SeatCounts {
            ended: Counter::new(),
            broken: Counter::new(),
            commands: Counter::new(),
            read: Counter::new(),
            written: Counter::new(),
            ends: EndCounts::new(),
        }
    }
}

impl Totals {
    /// Number of open connections.
    pub fn open(&self) -> u64
        ensures { result ≡ self.now.accepted - self.now.ended }
    {
        self.accepted.saturating_sub(self.ended)
    }

    /// Adds the counters of one serving thread.
    fn add<C: Count>(&mut self, counts: &SeatCounts<C>)
        ensures { AddsThread C.has_told self.old counts.now self.new }
    {
        self.ended = self.ended.saturating_add(counts.ended.get());
        self.broken = self.broken.saturating_add(counts.broken.get());
        self.commands = self.commands.saturating_add(counts.commands.get());
        self.read = self.read.saturating_add(counts.read.get());
        self.written = self.written.saturating_add(counts.written.get());
        self.ends.add(&counts.ends);
    }
}

impl Counts<Counter> {
    /// Counters at 0, for `threads` serving threads, `shards` shards and the accepting thread.
    pub fn new(alloc: Global, threads: usize, shards: usize) -> Result<Counts, AllocError>
        ensures threads { IfOk result (λ counts. length counts.threads.items ≡ threads) }
        ensures shards { IfOk result (λ counts. shard_count counts ≡ shards) }
    {
        let acceptor = AcceptorCounts {
            accepted: Counter::new(),
            failed: Counter::new(),
            rejected: Counter::new(),
        };
        let mut counts = Counts {
            acceptor: Arc::new(alloc, CachePadded::new(acceptor))?,
            threads: Vec::with_capacity(alloc, threads)?,
            shards: new_shards(alloc, shards)?,
        };
        for _ in 0..threads {
            let thread = Arc::new(alloc, CachePadded::new(SeatCounts::new()))?;
            counts.threads.push(thread)?;
        }
        Ok(counts)
    }
}

impl<C: Count> Counts<C> {
    /// Clones the handle; both share the counters. Fails if memory is refused.
    pub fn share(&self, alloc: Global) -> Result<Counts<C>, AllocError>
        ensures { IfOk result (λ shared. SameCounts shared self.now) }
    {
        Ok(Counts {
            acceptor: self.acceptor()?,
            threads: share_each(alloc, &self.threads)?,
            shards: self.shards(alloc)?,
        })
    }

    /// The counters of the accepting thread.
    pub fn acceptor(&self) -> Result<Arc<CachePadded<AcceptorCounts<C>>, Global>, AllocError>
        ensures { IfOk result (λ counts. shared_value counts ≡ shared_value self.now.acceptor) }
    {
        Arc::try_clone(&self.acceptor)
    }

    /// The counters of serving thread number `thread`, if there is one.
    pub fn thread(
        &self,
        number: usize,
    ) -> Result<Option<Arc<CachePadded<SeatCounts<C>>, Global>>, AllocError>
        ensures { IfOk result (λ counts. option_map shared_value counts ≡
            option_map shared_value (slice_get self.now.threads.items number)) }
    {
        match self.threads.get(number) {
            Some(thread) => Ok(Some(Arc::try_clone(thread)?)),
            None => Ok(None),
        }
    }

    /// The counters of each shard, by its number.
    pub fn shards(
        &self,
        alloc: Global,
    ) -> Result<Vec<Arc<CachePadded<ShardCounts<C>>, Global>>, AllocError>
        ensures { IfOk result (λ shards. shared_values shards.items ≡ shards_of self.now) }
    {
        share_each(alloc, &self.shards)
    }

    /// The totals of each shard, by its number.
    pub fn shard_totals(&self, alloc: Global) -> Result<Vec<ShardTotals>, AllocError>
        ensures { IfOk result
            (λ totals. EachIsShown C.has_told (shards_of self.now) totals.items) }
    {
        totals_of_each(alloc, &self.shards)
    }

    /// The totals of all threads. Ended connections are read first, so that they never exceed the
    /// accepted ones.
    pub fn totals(&self) -> Totals
        ensures { AreTotals C.has_told self.now result }
    {
        let mut totals = Totals::default();
        for thread in &self.threads {
            totals.add(thread);
        }
        totals.accepted = self.acceptor.accepted.get();
        totals.failed = self.acceptor.failed.get();
        totals.rejected = self.acceptor.rejected.get();
        totals.shards = ShardTotals::default().and_each(&self.shards);
        totals
    }
}

/// Clones the handle of each element.
fn share_each<T: Drop>(
    alloc: Global,
    all: &[Arc<CachePadded<T>, Global>],
) -> Result<Vec<Arc<CachePadded<T>, Global>>, AllocError>
    ensures { IfOk result (λ shared. shared_values shared.items ≡ shared_values all.now) }
{
    let mut shared = Vec::with_capacity(alloc, all.len())?;
    for one in all {
        shared.push(Arc::try_clone(one)?)?;
    }
    Ok(shared)
}

/// The totals of each of these shards.
fn totals_of_each<C: Count>(
    alloc: Global,
    shards: &[Arc<CachePadded<ShardCounts<C>>, Global>],
) -> Result<Vec<ShardTotals>, AllocError>
    ensures { IfOk result
        (λ totals. EachIsShown C.has_told (shared_values shards.now) totals.items) }
{
    let mut totals = Vec::with_capacity(alloc, shards.len())?;
    for shard in shards {
        totals.push(shard.totals())?;
    }
    Ok(totals)
}

/// Counters at 0 for `count` shards.
fn new_shards(
    alloc: Global,
    count: usize,
) -> Result<Vec<Arc<CachePadded<ShardCounts>, Global>>, AllocError>
    ensures { IfOk result (λ shards. length shards.items ≡ count) }
{
    let mut shards = Vec::with_capacity(alloc, count)?;
    for _ in 0..count {
        shards.push(Arc::new(alloc, CachePadded::new(ShardCounts::new()))?)?;
    }
    Ok(shards)
}
