//! Contents and command statistics of a shard, readable by any thread.
ghost use Rattle.std.specs.Prelude.{◌≡◌};
ghost use Rattle.std.specs.List.{FoldsTo};
ghost use Rattle.mc_store.specs.Shard.{IsShard};
ghost use Rattle.mc_store.specs.State.{State};
ghost use Rattle.mc_telemetry.specs.Counts.{AddsShard, shared_values};
ghost use Rattle.mc_telemetry.specs.Told.{EachOfCommand, EachOfShard, EachShown};
ghost use Rattle.mc_telemetry.specs.Totals.{IsSummed, commands_counted, commands_of_all, commands_of_both, found_or_not, shards_of_both, shown_of, totals_counted, with_out_of_memory};

use crate::counter::{Count, Counter};
use crossbeam_utils::CachePadded;
use mc_item::{OpStats, StatClass, Status};
use mc_store::Shard;
use std::alloc::Global;
use std::sync::Arc;

/// Number of commands of one kind, by outcome.
#[derive(Clone, Copy, Debug, Default, PartialEq, Eq)]
pub struct CommandTotals {
    /// The item was found or stored.
    pub hits: u64,
    /// The item was not found, or was not stored because of that.
    pub misses: u64,
    /// The cas unique differed.
    pub bad_values: u64,
    /// Memory was refused.
    pub no_memory: u64,
    /// The value was too large or not a number.
    pub refused: u64,
}

/// Contents and command statistics of all shards, by memcached's command names.
#[derive(Clone, Copy, Debug, Default, PartialEq, Eq)]
pub struct ShardTotals {
    pub items: u64,
    /// Total cost of the items, in bytes.
    pub bytes: u64,
    /// Items evicted.
    pub evicted: u64,
    /// Expired items removed as others were stored.
    pub reclaimed: u64,
    /// Values of `set` and `ms` that were too large, under memcached's rules. See
    /// docs/DECISIONS.md, W6.
    pub too_large: u64,
    /// Commands for which memory was refused, of all kinds.
    pub out_of_memory: u64,
    pub get: CommandTotals,
    pub set: CommandTotals,
    pub cas: CommandTotals,
    pub touch: CommandTotals,
    pub delete: CommandTotals,
    pub incr: CommandTotals,
    pub decr: CommandTotals,
    pub flush: CommandTotals,
}

/// Counters of one kind of command, by outcome.
#[derive(Drop)]
struct CommandCounters<C> {
    hits: C,
    misses: C,
    bad_values: C,
    no_memory: C,
    refused: C,
}

/// Counters of one shard.
#[derive(Drop)]
struct ShardCounters<C> {
    items: C,
    bytes: C,
    evicted: C,
    reclaimed: C,
    too_large: C,
    get: CommandCounters<C>,
    set: CommandCounters<C>,
    cas: CommandCounters<C>,
    touch: CommandCounters<C>,
    delete: CommandCounters<C>,
    incr: CommandCounters<C>,
    decr: CommandCounters<C>,
    flush: CommandCounters<C>,
}

/// The published state of a shard: its thread writes it, any thread reads it, one number at a time.
#[derive(Drop)]
pub struct ShardCounts<C = Counter> {
    counters: ShardCounters<C>,
}

/// The number of times that this was counted, whether the item was fetched or not.
fn found_or_not(op_stats: &OpStats, asked: StatClass) -> u64
    ensures { result ≡ found_or_not op_stats.now asked }
{
    let hits = op_stats.count(asked, Status::Hit);
    hits.wrapping_add(op_stats.count(asked, Status::Miss))
}

impl CommandTotals {
    /// Statistics of one kind of command in a shard's tally.
    fn of(op_stats: &OpStats, asked: StatClass) -> CommandTotals
        ensures { result ≡ commands_counted op_stats.now asked }
    {
        CommandTotals {
            hits: op_stats.count(asked, Status::Hit),
            misses: op_stats.count(asked, Status::Miss),
            bad_values: op_stats.count(asked, Status::BadValue),
            no_memory: op_stats.count(asked, Status::NoMemory),
            refused: op_stats.count(asked, Status::Refused),
        }
    }

    /// The sum of both.
    fn and(self, other: CommandTotals) -> CommandTotals
        ensures { result ≡ commands_of_both self other }
    {
        CommandTotals {
            hits: self.hits.saturating_add(other.hits),
            misses: self.misses.saturating_add(other.misses),
            bad_values: self.bad_values.saturating_add(other.bad_values),
            no_memory: self.no_memory.saturating_add(other.no_memory),
            refused: self.refused.saturating_add(other.refused),
        }
    }
}

impl ShardTotals {
    /// Contents and statistics of a shard.
    fn of(shard: &Shard) -> ShardTotals
        ensures { (state : State) → IsShard shard.now state → result ≡ shown_of state }
    {
        let items = shard.len() as u64;
        let bytes = shard.cost() as u64;
        ShardTotals::counted(items, bytes, shard.evicted(), &shard.op_stats()).with_out_of_memory()
    }

    /// Totals of a shard with these counts. `out_of_memory` is left at 0.
    fn counted(items: u64, bytes: u64, evicted: u64, op_stats: &OpStats) -> ShardTotals
        ensures { result ≡ totals_counted items bytes evicted op_stats.now }
    {
        ShardTotals {
            items,
            bytes,
            evicted,
            reclaimed: found_or_not(op_stats, StatClass::Reclaimed),
            too_large: found_or_not(op_stats, StatClass::TooLarge),
            out_of_memory: 0,
            get: CommandTotals::of(op_stats, StatClass::Get),
            set: CommandTotals::of(op_stats, StatClass::Set),
            cas: CommandTotals::of(op_stats, StatClass::Cas),
            touch: CommandTotals::of(op_stats, StatClass::Touch),
            delete: CommandTotals::of(op_stats, StatClass::Delete),
            incr: CommandTotals::of(op_stats, StatClass::Incr),
            decr: CommandTotals::of(op_stats, StatClass::Decr),
            flush: CommandTotals::of(op_stats, StatClass::Flush),
        }
    }

    /// The sum of both.
    pub fn and(self, other: ShardTotals) -> ShardTotals
        ensures { result ≡ shards_of_both self other }
    {
        ShardTotals {
            items: self.items.saturating_add(other.items),
            bytes: self.bytes.saturating_add(other.bytes),
            evicted: self.evicted.saturating_add(other.evicted),
            reclaimed: self.reclaimed.saturating_add(other.reclaimed),
            too_large: self.too_large.saturating_add(other.too_large),
            out_of_memory: self.out_of_memory.saturating_add(other.out_of_memory),
            get: self.get.and(other.get),
            set: self.set.and(other.set),
            cas: self.cas.and(other.cas),
            touch: self.touch.and(other.touch),
            delete: self.delete.and(other.delete),
            incr: self.incr.and(other.incr),
            decr: self.decr.and(other.decr),
            flush: self.flush.and(other.flush),
        }
    }

    /// Adds the totals of each of these shards.
    pub(crate) fn and_each<C: Count>(
        self,
        shards: &[Arc<CachePadded<ShardCounts<C>>, Global>],
    ) -> ShardTotals
        ensures { FoldsTo (AddsShard C.has_told) self (shared_values shards.now) result }
    {
        let mut totals = self;
        for shard in shards {
            totals = totals.and(shard.totals());
        }
        totals
    }

    /// The sum over all kinds of commands.
    pub fn all(&self) -> CommandTotals
        ensures { result ≡ commands_of_all self.now }
    {
        let stored = self.get.and(self.set).and(self.cas).and(self.touch);
        let changed = stored.and(self.delete).and(self.incr).and(self.decr);
        changed.and(self.flush)
    }

    /// Sets `out_of_memory` to the sum over all kinds of commands.
    fn with_out_of_memory(self) -> ShardTotals
        ensures { result ≡ with_out_of_memory self }
    {
        ShardTotals {
            out_of_memory: self.all().no_memory,
            ..self
        }
    }
}

impl CommandCounters<Counter> {
    fn new() -> CommandCounters<Counter> {
        CommandCounters {
            hits: Counter::new(),
            misses: Counter::new(),
            bad_values: Counter::new(),
            no_memory: Counter::new(),
            refused: Counter::new(),
        }
    }
}

impl<C: Count> CommandCounters<C> {
    /// Reads each counter into the field of its name.
    fn read(&self) -> CommandTotals
        ensures { EachOfCommand C.has_told self.now result }
    {
        CommandTotals {
            hits: self.hits.get(),
            misses: self.misses.get(),
            bad_values: self.bad_values.get(),
            no_memory: self.no_memory.get(),
            refused: self.refused.get(),
        }
    }

    /// Sets each counter to the field of its name.
    fn write(&self, totals: &CommandTotals)
        ensures { EachOfCommand C.was_set self.now totals.now }
    {
        self.hits.set(totals.hits);
        self.misses.set(totals.misses);
        self.bad_values.set(totals.bad_values);
        self.no_memory.set(totals.no_memory);
        self.refused.set(totals.refused);
    }
}

impl<C: Count> ShardCounters<C> {
    /// Reads each counter into the field of its name.
    fn read(&self) -> ShardTotals
        ensures { EachOfShard C.has_told self.now result }
    {
        ShardTotals {
            items: self.items.get(),
            bytes: self.bytes.get(),
            evicted: self.evicted.get(),
            reclaimed: self.reclaimed.get(),
            too_large: self.too_large.get(),
            out_of_memory: 0,
            get: self.get.read(),
            set: self.set.read(),
            cas: self.cas.read(),
            touch: self.touch.read(),
            delete: self.delete.read(),
            incr: self.incr.read(),
            decr: self.decr.read(),
            flush: self.flush.read(),
        }
    }

    /// Sets each counter to the field of its name.
    fn write(&self, totals: &ShardTotals)
        ensures { EachOfShard C.was_set self.now totals.now }
    {
        self.items.set(totals.items);
        self.bytes.set(totals.bytes);
        self.evicted.set(totals.evicted);
        self.reclaimed.set(totals.reclaimed);
        self.too_large.set(totals.too_large);
        self.get.write(&totals.get);
        self.set.write(&totals.set);
        self.cas.write(&totals.cas);
        self.touch.write(&totals.touch);
        self.delete.write(&totals.delete);
        self.incr.write(&totals.incr);
        self.decr.write(&totals.decr);
        self.flush.write(&totals.flush);
    }
}

impl ShardCounts<Counter> {
    /// Counters of a new, empty shard.
    pub fn new() -> ShardCounts {
        ShardCounts {
            counters: ShardCounters {
                items: Counter::new(),
                bytes: Counter::new(),
                evicted: Counter::new(),
                reclaimed: Counter::new(),
                too_large: Counter::new(),
                get: CommandCounters::new(),
                set: CommandCounters::new(),
                cas: CommandCounters::new(),
                touch: CommandCounters::new(),
                delete: CommandCounters::new(),
                incr: CommandCounters::new(),
                decr: CommandCounters::new(),
                flush: CommandCounters::new(),
            },
        }
    }
}

impl<C: Count> ShardCounts<C> {
    /// Publishes the shard's contents and statistics. Only the shard's thread may call this.
    pub fn show(&self, shard: &Shard)
        ensures { (state : State) → IsShard shard.now state →
            EachShown C.was_set self.now (shown_of state) }
    {
        self.counters.write(&ShardTotals::of(shard));
    }

    /// The totals published last.
    pub fn totals(&self) -> ShardTotals
        ensures told { EachShown C.has_told self.now result }
        ensures summed { IsSummed result }
    {
        self.counters.read().with_out_of_memory()
    }
}
