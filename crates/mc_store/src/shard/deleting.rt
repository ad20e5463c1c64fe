//! Deleting and flushing: `delete`, `md`, `flush_all`.
ghost use Rattle.std.specs.Prelude.{◌≡◌, true};
ghost use Rattle.mc_item.specs.Expiry.{expiry_of};
ghost use Rattle.mc_item.specs.Kind.{is_lawful};
ghost use Rattle.mc_item.specs.declared.op.Op.TheVariants as op;
ghost use Rattle.mc_store.specs.Step.{coming};

use crate::item_cache::Staling;
use crate::items::is_other;
use crate::shard::Shard;
use mc_command::MetaRemoval;
use mc_item::{Answer, Expiry, Kind, expiry};
use mc_wire::Key;

impl Shard {
    ghost use Rattle.mc_store.specs.internal.Parts.{Acts};

    /// `delete`.
    #[tactic(auto, unfolding(mc_item::specs::Kind::is_lawful))]
    pub(super) fn delete(&mut self, key: &Key) -> Answer
        ensures acts { Acts self.old (op.Delete key.now) result self.new }
        ensures lawful { is_lawful Kind.Delete result ≡ true }
    {
        let Some(item) = self.items.remove(key) else {
            return Answer::NotFound;
        };
        if item.is_dead(self.time) {
            return Answer::NotFound;
        }
        Answer::Deleted
    }

    /// `md`; with `invalidate` the item is marked stale in place of going.
    #[tactic(auto, unfolding(mc_item::specs::Kind::is_lawful))]
    pub(super) fn meta_delete(&mut self, asked: &MetaRemoval) -> Answer
        ensures acts { Acts self.old (op.MetaDelete asked.now) result self.new }
        ensures lawful { is_lawful Kind.MetaDelete result ≡ true }
    {
        let Some(item) = self.find(&asked.key) else {
            self.items.remove(&asked.key);
            return Answer::NotFound;
        };
        if is_other(asked.compare, item.unique) {
            return Answer::Exists;
        }
        if !asked.invalidate {
            self.items.remove(&asked.key);
            return Answer::Deleted;
        }
        let Some(unique) = self.unique_for(asked.unique) else {
            return Answer::NoCas;
        };
        let expiry = self.expiry_from(asked.exptime, item.expiry);
        self.items
            .mark_stale(&asked.key, Staling { unique, expiry });
        self.count_given(asked.unique);
        Answer::Done
    }

    /// `flush_all`: at once, or after a delay.
    #[tactic(auto, unfolding(mc_item::specs::Kind::is_lawful))]
    pub(super) fn flush_at(&mut self, delay: i64) -> Answer
        ensures acts { Acts self.old (op.Flush delay) result self.new }
        ensures lawful { is_lawful Kind.Flush result ≡ true }
    {
        let Some(second) = self.coming(delay) else {
            self.remove_all();
            return Answer::Done;
        };
        self.flush = Some(second);
        Answer::Done
    }

    /// The second at which a flush with this delay is to come, if that is in the future.
    fn coming(&self, delay: i64) -> Option<u64>
        ensures { result ≡ coming (expiry_of delay self.now.time) self.now.time }
    {
        match expiry(delay, self.time) {
            Expiry::At(second) if second > self.time => Some(second),
            _ => None,
        }
    }
}
