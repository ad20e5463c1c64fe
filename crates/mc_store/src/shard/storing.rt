//! Storing: `set`, `add`, `replace`, `append`, `prepend`, `cas`, and `ms` in each of its modes.
ghost use Rattle.std.specs.Prelude.{◌≡◌, true, IfErr};
ghost use Rattle.std.specs.FinMap.{get};
ghost use Rattle.mc_item.specs.declared.answer.Answer.{Answer as TheAnswer};
ghost use Rattle.mc_item.specs.declared.answer.MetaDone.{MetaDone as TheDone};
ghost use Rattle.mc_item.specs.Kind.{is_lawful};
ghost use Rattle.mc_item.specs.declared.op.Op.TheVariants as op;
ghost use Rattle.mc_store.specs.internal.Found.{joining, is_unconditional};

use crate::access::Use;
use crate::items::is_other;
use crate::shard::{Shard, fresh_item};
use mc_command::{StoreMode, StoreRequest};
use mc_item::{Answer, Item, Kind, MetaDone, PackedExpiry, Value};
use mc_wire::Key;
use std::alloc::Global;

/// Whether the mode joins values, and then whether the new one follows the old.
fn joining(mode: StoreMode) -> Option<bool>
    ensures { result ≡ joining mode }
{
    match mode {
        StoreMode::Append => Some(true),
        StoreMode::Prepend => Some(false),
        _ => None,
    }
}

/// Whether a mode stores at this unique whatever is there.
fn is_unconditional(mode: StoreMode, compare: Option<u64>) -> bool
    ensures { result ≡ is_unconditional mode compare }
{
    match mode {
        StoreMode::Set => compare.is_none(),
        _ => false,
    }
}

impl Shard {
    ghost use Rattle.mc_store.specs.Step.{writes, stores, store_step, absent_store};
    ghost use Rattle.mc_store.specs.internal.Parts.{Acts, Does, answered};

    /// The classic storage commands.
    #[tactic(auto, unfolding(mc_item::specs::Kind::is_lawful))]
    pub(super) fn store_classic(&mut self, alloc: Global, asked: StoreRequest<Value>) -> Answer
        ensures acts { Acts self.old (op.Store asked) result self.new }
        ensures lawful { is_lawful Kind.Store result ≡ true }
    {
        if is_unconditional(asked.mode, asked.compare) {
            return self.set(asked);
        }
        match self.store(alloc, asked) {
            Ok(_) => Answer::Stored,
            Err(answer) => answer,
        }
    }

    /// `set`, the plainest of them: the item enters, whatever is there.
    #[tactic(auto, unfolding(mc_item::specs::Kind::is_lawful))]
    fn set(&mut self, asked: StoreRequest<Value>) -> Answer
        ensures does { Does self.old asked.key (λ settled.
            stores settled asked (λ done. Answer.Stored)) result self.new }
        ensures lawful { is_lawful Kind.Store result ≡ true }
    {
        if self.is_too_large(&asked.key, asked.value.len()) {
            self.remove_dead(&asked.key);
            return Answer::TooLarge;
        }
        let expiry = PackedExpiry::from_exptime(asked.exptime, self.time);
        let item = fresh_item(asked.value, asked.flags, expiry);
        match self.write(asked.key, item, asked.unique) {
            Ok(_) => Answer::Stored,
            Err(refused) => refused.answer(),
        }
    }

    /// `ms`.
    #[tactic(auto, unfolding(mc_item::specs::Kind::is_lawful))]
    pub(super) fn meta_store(&mut self, alloc: Global, asked: StoreRequest<Value>) -> Answer
        ensures acts { Acts self.old (op.MetaStore asked) result self.new }
        ensures lawful { is_lawful Kind.MetaStore result ≡ true }
    {
        match self.store(alloc, asked) {
            Ok(done) => Answer::MetaDone(done),
            Err(answer) => answer,
        }
    }

    /// Stores in the mode that is asked.
    #[tactic(auto, unfolding(mc_item::specs::Kind::is_lawful))]
    fn store(&mut self, alloc: Global, asked: StoreRequest<Value>) -> Result<MetaDone, Answer>
        ensures does { (reply : TheDone → TheAnswer) →
            Does self.old asked.key (λ settled.
            store_step settled asked reply (get settled.items asked.key))
            (answered reply result) self.new }
        ensures refused { IfErr result (λ answer. is_lawful Kind.Store answer ≡ true) }
        ensures meta_refused { IfErr result (λ answer. is_lawful Kind.MetaStore answer ≡ true) }
    {
        if is_unconditional(asked.mode, asked.compare) {
            return self.store_asked(asked);
        }
        let Some(item) = self.find(&asked.key) else {
            return self.store_absent(asked);
        };
        if let StoreMode::Add = asked.mode {
            let new = Use {
                time: self.time,
                expiry: item.expiry,
                fetched: item.fetched,
                sent: item.sent,
            };
            let Ok(()) = self.items.promote(&asked.key, new) else {
                return Err(Answer::NoMemory);
            };
            return Err(Answer::NotStored);
        }
        if is_other(asked.compare, item.unique) {
            return Err(Answer::Exists);
        }
        let Some(after) = joining(asked.mode) else {
            return self.store_asked(asked);
        };
        let Ok(Some(old)) = self.items.value(&asked.key) else {
            return Err(Answer::NoMemory);
        };
        let size = old.len() + asked.value.len();
        if self.is_too_large(&asked.key, size) {
            return Err(Answer::TooLarge);
        }
        let Ok(value) = old.joined(alloc, &asked.value, after) else {
            return Err(Answer::NoMemory);
        };
        let joined = fresh_item(value, item.flags, item.expiry);
        self.write_value(asked.key, joined, asked.unique)
    }

    /// Stores what is asked, whatever is there.
    fn store_asked(&mut self, asked: StoreRequest<Value>) -> Result<MetaDone, Answer>
        ensures does { (reply : TheDone → TheAnswer) →
            Does self.old asked.key (λ settled.
            stores settled asked reply) (answered reply result) self.new }
        ensures refused { IfErr result (λ answer. is_lawful Kind.Store answer ≡ true) }
        ensures meta_refused { IfErr result (λ answer. is_lawful Kind.MetaStore answer ≡ true) }
    {
        let expiry = PackedExpiry::from_exptime(asked.exptime, self.time);
        let item = fresh_item(asked.value, asked.flags, expiry);
        self.write_value(asked.key, item, asked.unique)
    }

    /// Stores what is asked under a key that is not there, if its mode does so.
    #[tactic(auto, unfolding(mc_item::specs::Kind::is_lawful))]
    fn store_absent(&mut self, asked: StoreRequest<Value>) -> Result<MetaDone, Answer>
        ensures does { (reply : TheDone → TheAnswer) →
            Does self.old asked.key (λ settled.
            absent_store settled asked reply asked.mode asked.compare)
            (answered reply result) self.new }
        ensures refused { IfErr result (λ answer. is_lawful Kind.Store answer ≡ true) }
        ensures meta_refused { IfErr result (λ answer. is_lawful Kind.MetaStore answer ≡ true) }
    {
        if asked.compare.is_some() {
            self.remove_dead(&asked.key);
            return Err(Answer::NotFound);
        }
        match asked.mode {
            StoreMode::Set | StoreMode::Add => self.store_asked(asked),
            _ => {
                self.remove_dead(&asked.key);
                Err(Answer::NotStored)
            }
        }
    }

    /// Puts the item under the key, unless its value is too large.
    #[tactic(auto, unfolding(mc_item::specs::Kind::is_lawful))]
    fn write_value(&mut self, key: Key, item: Item, token: Option<u64>) -> Result<MetaDone, Answer>
        ensures does { (reply : TheDone → TheAnswer) →
            Does self.old key (λ settled.
            writes settled key token item.value (λ unique. record item { unique = unique })
            reply) (answered reply result) self.new }
        ensures refused { IfErr result (λ answer. is_lawful Kind.Store answer ≡ true) }
        ensures meta_refused { IfErr result (λ answer. is_lawful Kind.MetaStore answer ≡ true) }
    {
        if self.is_too_large(&key, item.value.len()) {
            self.remove_dead(&key);
            return Err(Answer::TooLarge);
        }
        self.write_done(key, item, token, 0)
    }
}
