//! Counting: `incr`, `decr` and `ma` (protocol.txt, "Increment/Decrement").
ghost use Rattle.std.specs.Prelude.{◌≡◌, true, None, IfErr};
ghost use Rattle.std.specs.FinMap.{get};
ghost use Rattle.mc_item.specs.declared.answer.Answer.{Answer as TheAnswer};
ghost use Rattle.mc_item.specs.declared.answer.MetaDone.{MetaDone as TheDone};
ghost use Rattle.mc_item.specs.Kind.{is_lawful};
ghost use Rattle.mc_item.specs.declared.op.Op.TheVariants as op;
ghost use Rattle.mc_store.specs.Step.{new_number};

use crate::items::is_other;
use crate::shard::{Shard, fresh_item};
use mc_command::{Direction, MetaCount, Vivify};
use mc_item::{Answer, Item, Kind, MetaDone, PackedExpiry, Value};
use mc_wire::Key;
use std::alloc::Global;

/// The number after it was counted: it grows modulo 2^64, and falls to 0 at least.
fn counted(direction: Direction, number: u64, amount: u64) -> u64
    ensures { result ≡ new_number direction number amount }
{
    match direction {
        Direction::Increment => number.wrapping_add(amount),
        Direction::Decrement => number.saturating_sub(amount),
    }
}

impl Shard {
    ghost use Rattle.mc_store.specs.Step.{absent_count, count_step};
    ghost use Rattle.mc_store.specs.internal.Parts.{Acts, Does, answered};

    /// `incr`, `decr`.
    #[tactic(auto, unfolding(mc_item::specs::Kind::is_lawful))]
    pub(super) fn count_classic(
        &mut self,
        alloc: Global,
        key: Key,
        direction: Direction,
        amount: u64,
    ) -> Answer
        ensures acts { Acts self.old (op.Count key direction amount) result self.new }
        ensures lawful { is_lawful Kind.Count result ≡ true }
    {
        let asked = MetaCount {
            key,
            compare: None,
            unique: None,
            direction,
            amount,
            exptime: None,
            vivify: None,
        };
        match self.count(alloc, asked) {
            Ok(done) => Answer::Number(done.number),
            Err(answer) => answer,
        }
    }

    /// `ma`.
    #[tactic(auto, unfolding(mc_item::specs::Kind::is_lawful))]
    pub(super) fn meta_count(&mut self, alloc: Global, asked: MetaCount) -> Answer
        ensures acts { Acts self.old (op.MetaCount asked) result self.new }
        ensures lawful { is_lawful Kind.MetaCount result ≡ true }
    {
        match self.count(alloc, asked) {
            Ok(done) => Answer::MetaDone(done),
            Err(answer) => answer,
        }
    }

    /// Counts a present item, or makes one.
    #[tactic(auto, unfolding(mc_item::specs::Kind::is_lawful))]
    fn count(&mut self, alloc: Global, asked: MetaCount) -> Result<MetaDone, Answer>
        ensures does { (reply : TheDone → TheAnswer) →
            Does self.old asked.key (λ settled.
            count_step settled asked reply (get settled.items asked.key))
            (answered reply result) self.new }
        ensures refused { asked.compare ≡ None →
            IfErr result (λ answer. is_lawful Kind.Count answer ≡ true) }
        ensures meta_refused { IfErr result (λ answer. is_lawful Kind.MetaCount answer ≡ true) }
    {
        let Some(item) = self.find(&asked.key) else {
            return self.count_absent(alloc, asked.key, asked.unique, asked.vivify);
        };
        if is_other(asked.compare, item.unique) {
            return Err(Answer::Exists);
        }
        let Ok(Some(value)) = self.items.value(&asked.key) else {
            return Err(Answer::NoMemory);
        };
        let Some(number) = value.number() else {
            return Err(Answer::NonNumeric);
        };
        let number = counted(asked.direction, number, asked.amount);
        let Ok(value) = Value::of_number(alloc, number) else {
            return Err(Answer::NoMemory);
        };
        let new = Item {
            value,
            flags: item.flags,
            expiry: self.expiry_from(asked.exptime, item.expiry),
            unique: item.unique,
            last_access: item.last_access,
            fetched: item.fetched,
            stale: item.stale,
            sent: item.sent,
        };
        self.write_done(asked.key, new, asked.unique, number)
    }

    /// Makes an item under a key that is not there, if that is asked.
    #[tactic(auto, unfolding(mc_item::specs::Kind::is_lawful))]
    fn count_absent(
        &mut self,
        alloc: Global,
        key: Key,
        token: Option<u64>,
        vivify: Option<Vivify>,
    ) -> Result<MetaDone, Answer>
        ensures does { (reply : TheDone → TheAnswer) →
            Does self.old key (λ settled. absent_count settled key token reply vivify)
            (answered reply result) self.new }
        ensures refused { IfErr result (λ answer. is_lawful Kind.Count answer ≡ true) }
        ensures meta_refused { IfErr result (λ answer. is_lawful Kind.MetaCount answer ≡ true) }
    {
        let Some(made) = vivify else {
            self.remove_dead(&key);
            return Err(Answer::NotFound);
        };
        let Ok(value) = Value::of_number(alloc, made.initial) else {
            self.remove_dead(&key);
            return Err(Answer::NoMemory);
        };
        let expiry = PackedExpiry::from_exptime(made.exptime, self.time);
        let item = fresh_item(value, 0, expiry);
        self.write_done(key, item, token, made.initial)
    }
}
