//! The shard: what it holds, how its time moves, and which function runs which operation.
ghost use Rattle.std.specs.FinMap;
ghost use Rattle.std.specs.FinMap.{get};
ghost use Rattle.std.specs.Prelude.{◌≡◌, ◌+◌, ◌*◌, ◌^◌, ◌<◌, ◌≤◌, ◌⊎◌, ◌||◌, ◌&&◌, ℕ, length, nat_lt, true, false, IfOk, IfErr, None, Some, is_none};
ghost use Rattle.std.specs.Option.{option_map, IsSome};
ghost use Rattle.std.specs.Map.{lookup};
ghost use Rattle.mc_wire.specs.SameKey.{same_key};
ghost use Rattle.mc_wire.specs.declared.TheConstants.{MAX_VALUE_LIMIT, LATEST_MOMENT};
ghost use Rattle.mc_item.specs.declared.answer.Answer.{Answer as TheAnswer};
ghost use Rattle.mc_item.specs.declared.answer.MetaDone.{MetaDone as TheDone};
ghost use Rattle.mc_item.specs.Kind.{kind_of, key_of, is_lawful};
ghost use Rattle.mc_store.specs.internal.Found.{live, unique_for, given_after};
ghost use Rattle.mc_store.specs.internal.Listed.{FitsBudget};
ghost use Rattle.mc_store.specs.internal.Stored.{fields_in};
ghost use Rattle.mc_store.specs.Rows.{expiry_from, done_of};

mod counting;
mod deleting;
mod reading;
mod reclaiming;
mod running;
mod stats;
mod storing;
mod write_error;

use crate::access;
use crate::fields::Fields;
use crate::flushed::{Flushed, Turns};
use crate::items::{Items, cost_of};
use crate::shard::reclaiming::{clear_turns, make_turn};
use crate::shard::write_error::WriteError;
use mc_item::{Answer, Counting, Item, MetaDone, Op, OpStats, PackedExpiry, Status, Value};
use mc_sizes::{MAX_BUDGET, MIN_BUDGET};
use mc_wire::{Key, LATEST_MOMENT, MAX_VALUE_LIMIT};
use std::alloc::{AllocError, Global};
use std::collections::VecDeque;
use std::hash::RandomState;
use std::mem;
use std::random::RandomSource;
use thiserror::Error;

/// Why there is no shard.
#[derive(Clone, Copy, Debug, Error)]
pub enum StoreError {
    #[error("no memory is left for the shard")]
    Memory,
}

impl From<AllocError> for StoreError {
    ghost use Rattle.mc_store.specs.declared.shard.StoreError.TheVariants.{Memory};

    ghost from_gives = { λ _ fault. fault ≡ Memory };

    fn from(_error: AllocError) -> StoreError {
        StoreError::Memory
    }
}

/// One shard: items by key, in the order of their last use.
pub struct Shard {
    items: Items,
    /// The turns of items with an expiry.
    turns: Turns,
    /// The queues of flushed turns.
    flushed_turns: Flushed<Turns>,
    /// A value has at most this many bytes.
    limit: usize,
    /// The greatest moment so far.
    time: u64,
    /// When the pending flush runs.
    flush: Option<u64>,
    /// How many uniques it gave.
    given: u64,
    index: u64,
    shards: u64,
    /// What it was asked since its counts began.
    op_stats: OpStats,
    ghost limited: { limit ≤ MAX_VALUE_LIMIT },
    ghost timely: { time ≤ LATEST_MOMENT },
    ghost place: { index < shards },
}

impl Drop for Shard {
    /// By hand, so that its drop is one call for each owner (docs/DECISIONS.md).
    fn drop(self) {
        let Shard {
            items: _items,
            turns: _turns,
            flushed_turns: _flushed_turns,
            limit: _limit,
            time: _time,
            flush: _flush,
            given: _given,
            index: _index,
            shards: _shards,
            op_stats: _op_stats,
        } = self;
    }
}

impl Shard {
    ghost use Rattle.mc_store.specs.State.{State, empty_state, arrived, is_due, flushed, without_dead, item_overhead, costs, entered};
    ghost use Rattle.mc_store.specs.Step.{makes, numbered};
    ghost use Rattle.mc_store.specs.Shard.{IsShard, Steps, held_of};
    ghost use Rattle.mc_store.specs.internal.Parts.{Acts, Does, answered, written};

    /// An empty shard: the one at `index` of `shards` shards. Its items may cost `budget` bytes
    /// together, its values have at most `limit` bytes each, and `given` uniques were given before.
    /// It takes no room for its items before they come.
    pub fn new(
        alloc: Global,
        hasher: RandomState,
        index: usize,
        shards: usize,
        budget: usize,
        given: u64,
        limit: usize,
    ) -> Result<Shard, StoreError>
        requires place { index < shards }
        requires least_budget { MIN_BUDGET ≤ budget }
        requires most_budget { budget ≤ MAX_BUDGET }
        requires most_limit { limit ≤ MAX_VALUE_LIMIT }
        ensures { IfOk result
            (λ shard. IsShard shard (empty_state index shards budget given limit)) }
    {
        let items = Items::new(alloc, hasher, budget)?;
        Ok(Shard {
            items,
            turns: VecDeque::new(alloc),
            flushed_turns: Flushed::new(alloc),
            limit,
            time: 0,
            flush: None,
            given,
            index: index as u64,
            shards: shards as u64,
            op_stats: OpStats::new(),
        })
    }

    /// An empty shard that gave no unique before. The hash of its keys has a secret of its own. It
    /// fails too if the system has no random bytes.
    pub fn empty<R: RandomSource>(
        rt: &R,
        alloc: Global,
        index: usize,
        shards: usize,
        budget: usize,
        limit: usize,
    ) -> Result<Shard, StoreError>
        requires place { index < shards }
        requires least_budget { MIN_BUDGET ≤ budget }
        requires most_budget { budget ≤ MAX_BUDGET }
        requires most_limit { limit ≤ MAX_VALUE_LIMIT }
        ensures { IfOk result (λ shard. IsShard shard (empty_state index shards budget 0 limit)) }
    {
        let Ok(hasher) = RandomState::new(rt) else {
            return Err(StoreError::Memory);
        };
        Shard::new(alloc, hasher, index, shards, budget, 0, limit)
    }

    /// Does what it is asked, at the moment: a second since 1970. It is counted.
    pub fn run(&mut self, alloc: Global, op: Op, moment: u64) -> Answer
        ensures step { Steps self.old op moment result self.new }
        ensures lawful { is_lawful (kind_of op) result ≡ true }
    {
        let mut asked = op;
        self.run_in_place(alloc, &mut asked, moment)
    }

    /// As `run`, of an operation that isn't moved: an operation has 136 bytes, and a read needs its
    /// key alone. Another operation is left in its place where it is taken out.
    pub fn run_in_place(&mut self, alloc: Global, op: &mut Op, moment: u64) -> Answer
        ensures step { Steps self.old op.old moment result self.new }
        ensures lawful { is_lawful (kind_of op.old) result ≡ true }
    {
        self.arrive(moment);
        let counting = Counting::of(op, self.index == 0, self.makes(op));
        let answer = self.answer(alloc, op);
        self.op_stats.count_in(counting, Status::of(&answer));
        answer
    }

    /// Does what it is asked, at its own time, without counting it.
    #[inline(always)]
    #[tactic(auto, unfolding(mc_item::specs::Kind::is_lawful, mc_item::specs::Kind::kind_of))]
    fn answer(&mut self, alloc: Global, op: &mut Op) -> Answer
        ensures acts { Acts self.old op.old result self.new }
        ensures lawful { is_lawful (kind_of op.old) result ≡ true }
    {
        match op {
            Op::Fetch { key, touch } => self.fetch(key, *touch),
            _ => self.answer_taken(alloc, op),
        }
    }

    /// Whether the operation is to make an item of a miss.
    #[inline(always)]
    #[tactic(auto, unfolding(mc_item::specs::Kind::key_of))]
    fn makes(&self, op: &Op) -> bool
        ensures { (state : State) → IsShard self.now state →
            result ≡ makes (without_dead state (key_of op.now)) op.now }
    {
        match op {
            Op::MetaGet(asked) => self.fills(asked.vivify.is_some(), &asked.key),
            Op::MetaCount(asked) => self.fills(asked.vivify.is_some(), &asked.key),
            _ => false,
        }
    }

    /// Whether a miss is to be filled, and no item that lives is under the key.
    fn fills(&self, asked: bool, key: &Key) -> bool
        ensures { (state : State) → IsShard self.now state →
            result ≡
            (asked && is_none (get (without_dead state (Some key.now)).items key.now)) }
    {
        if !asked {
            return false;
        }
        match self.find(key) {
            Some(_) => false,
            None => true,
        }
    }

    /// Does what it is asked, and takes it out of its place.
    #[inline(never)]
    #[tactic(auto, unfolding(mc_item::specs::Kind::is_lawful, mc_item::specs::Kind::kind_of))]
    fn answer_taken(&mut self, alloc: Global, op: &mut Op) -> Answer
        ensures acts { Acts self.old op.old result self.new }
        ensures lawful { is_lawful (kind_of op.old) result ≡ true }
    {
        match mem::replace(op, Op::Stats) {
            Op::Store(asked) => self.store_classic(alloc, asked),
            Op::Fetch { key, touch } => self.fetch(&key, touch),
            Op::Count {
                key,
                direction,
                amount,
            } => self.count_classic(alloc, key, direction, amount),
            Op::Delete { key } => self.delete(&key),
            Op::Discard { key } => self.delete(&key),
            Op::Touch { key, exptime } => self.touch(&key, exptime),
            Op::Flush { delay } => self.flush_at(delay),
            Op::Stats => self.stats(alloc),
            Op::ResetStats => self.reset_stats(),
            Op::MetaGet(asked) => self.meta_get(asked),
            Op::MetaStore(asked) => self.meta_store(alloc, asked),
            Op::MetaDelete(asked) => self.meta_delete(&asked),
            Op::MetaCount(asked) => self.meta_count(alloc, asked),
        }
    }

    /// The greatest moment that it was handed.
    pub fn now(&self) -> u64
        ensures { (state : State) → IsShard self.now state → result ≡ state.time }
    {
        self.time
    }

    /// How many items it holds.
    pub fn len(&self) -> usize
        ensures { (state : State) → IsShard self.now state → result ≡ FinMap.len state.items }
    {
        self.items.len()
    }

    /// What its items cost together, in bytes.
    pub fn cost(&self) -> usize
        ensures cost { (state : State) → IsShard self.now state → result ≡ costs state.items }
        ensures room { (state : State) → IsShard self.now state → result ≤ state.budget }
    {
        self.items.cost()
    }

    /// What it was asked since its counts began, and how often each came to what.
    pub fn op_stats(&self) -> OpStats
        ensures { (state : State) → IsShard self.now state → result ≡ state.op_stats }
    {
        self.op_stats
    }

    /// How many items were evicted since its counts began.
    pub fn evicted(&self) -> u64
        ensures { (state : State) → IsShard self.now state → result ≡ state.evicted }
    {
        self.items.evicted()
    }

    /// Moves the time to the moment, unless that is past, and runs a flush that is due.
    fn arrive(&mut self, moment: u64)
        ensures { (state : State) → IsShard self.old state →
            IsShard self.new (arrived state moment) }
    {
        self.time = self.time.max(moment.min(LATEST_MOMENT));
        if self.is_flush_due() {
            self.remove_all();
        }
    }

    /// Whether the pending flush, if there is one, runs at this time.
    fn is_flush_due(&self) -> bool
        ensures { result ≡ is_due self.now.flush self.now.time }
    {
        match self.flush {
            Some(second) => second <= self.time,
            None => false,
        }
    }

    /// Removes all items, their turns, and a pending flush.
    fn remove_all(&mut self)
        ensures { (state : State) → IsShard self.old state → IsShard self.new (flushed state) }
    {
        self.items.clear();
        clear_turns(&mut self.turns, &mut self.flushed_turns);
        self.flush = None;
    }

    /// The item under the key without its value, unless it is dead.
    fn find(&self, key: &Key) -> Option<Fields>
        ensures { result ≡
            option_map fields_in
            (live self.now.time (lookup (same_key key.now) self.now.items.entries)) }
    {
        let item = self.items.peek(key)?;
        if item.is_dead(self.time) {
            None
        } else {
            Some(item)
        }
    }

    /// Removes the item under the key where it is dead.
    fn remove_dead(&mut self, key: &Key)
        ensures { (state : State) → IsShard self.old state →
            IsShard self.new (without_dead state (Some key.now)) }
    {
        let Some(item) = self.items.peek(key) else {
            return;
        };
        if item.is_dead(self.time) {
            self.items.remove(key);
        }
    }

    /// The unique that an item is given: the client's, or else the shard's next one, where that
    /// fits 64 bits.
    fn unique_for(&self, token: Option<u64>) -> Option<u64>
        ensures unique { result ≡
            unique_for token (self.now.index + 1 + self.now.shards * self.now.given) }
        ensures room { IsSome result → token ≡ None → self.now.given + 1 < 2 ^ 64 }
    {
        if token.is_some() {
            return token;
        }
        let given = self.shards.checked_mul(self.given)?;
        given.checked_add(self.index + 1)
    }

    /// Counts a unique that the shard gave.
    fn count_given(&mut self, token: Option<u64>)
        requires { token ≡ None → self.old.given + 1 < 2 ^ 64 }
        ensures held { held_of self.new ≡
            record (held_of self.old) { given = given_after token self.old.given } }
        ensures turns { self.new.turns ≡ self.old.turns }
    {
        if token.is_none() {
            self.given += 1;
        }
    }

    /// Whether a value of `size` bytes is too large: it passes the limit, or its item would cost
    /// more than the budget alone.
    fn is_too_large(&self, key: &Key, size: usize) -> bool
        requires { size ≤ 2 * MAX_VALUE_LIMIT }
        ensures { result ≡
            (nat_lt self.now.limit size ||
            nat_lt self.now.items.budget (length key.now + size + item_overhead)) }
    {
        self.limit < size || self.items.budget() < cost_of(key.bytes().len(), size)
    }

    /// The expiry that an exptime sets now; where none is given, the old one.
    fn expiry_from(&self, exptime: Option<i64>, old: PackedExpiry) -> PackedExpiry
        ensures { result ≡ expiry_from exptime old self.now.time }
    {
        access::expiry_from(exptime, old, self.time)
    }

    /// Puts the item under the key as the most recently used one, with a new unique, which it
    /// answers. Then two turns are looked at, and the item gets its own. Where memory is refused,
    /// for the item or for its turn, nothing changes.
    fn write(&mut self, key: Key, mut item: Item, token: Option<u64>) -> Result<u64, WriteError>
        requires fits { FitsBudget self.old.items.budget key item.value }
        ensures { (reply : ℕ → TheAnswer) →
            Does self.old key (λ settled.
            numbered settled token (λ unique after.
            (reply unique, entered after token key (record item { unique = unique }))))
            (written reply result) self.new }
    {
        let Some(unique) = self.unique_for(token) else {
            self.remove_dead(&key);
            return Err(WriteError::NoCas);
        };
        let Ok(turn) = make_turn(&mut self.turns, token, &key, item.expiry) else {
            self.remove_dead(&key);
            return Err(WriteError::NoMemory);
        };
        item.unique = unique;
        item.last_access = self.time;
        if let Err(key) = self.items.put(key, item) {
            self.remove_dead(&key);
            return Err(WriteError::NoMemory);
        }
        self.count_given(token);
        self.take_turns(turn, unique);
        Ok(unique)
    }

    /// Writes as `write` does, and returns what `ms` and `ma` show of the item. The number is what
    /// they show of its value.
    fn write_done(
        &mut self,
        key: Key,
        item: Item,
        token: Option<u64>,
        number: u64,
    ) -> Result<MetaDone, Answer>
        requires fits { FitsBudget self.old.items.budget key item.value }
        ensures does { (reply : TheDone → TheAnswer) →
            Does self.old key (λ settled.
            numbered settled token (λ unique after. (
              reply (done_of (record item { unique = unique }) number settled.time),
              entered
                  after token key (record item { unique = unique }),
            ))) (answered reply result)
            self.new }
        ensures refused { IfErr result
            (λ answer. (answer ≡ Answer.NoCas) ⊎ (answer ≡ Answer.NoMemory)) }
    {
        let size = item.value.len() as u64;
        let left = item.expiry.seconds_left(self.time);
        let unique = match self.write(key, item, token) {
            Ok(unique) => unique,
            Err(refused) => return Err(refused.answer()),
        };
        Ok(MetaDone {
            unique,
            size,
            left,
            number,
        })
    }
}

/// An item with this value that nobody fetched, and of which nothing is marked. It has no unique
/// yet.
fn fresh_item(value: Value, flags: u32, expiry: PackedExpiry) -> Item
    ensures { result ≡
        record {
          value = value;
          flags = flags;
          expiry = expiry;
          unique = 0;
          last_access = 0;
          fetched = false;
          stale = false;
          sent = false;
        } }
{
    Item {
        value,
        flags,
        expiry,
        unique: 0,
        last_access: 0,
        fetched: false,
        stale: false,
        sent: false,
    }
}
