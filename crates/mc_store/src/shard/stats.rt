//! What a shard counted and holds: `stats`, `stats reset` (protocol.txt, "General-purpose
//! statistics").
ghost use Rattle.std.specs.Prelude.{◌≡◌, true};
ghost use Rattle.mc_item.specs.Kind.{is_lawful};
ghost use Rattle.mc_item.specs.declared.op.Op.TheVariants as op;

use crate::shard::Shard;
use mc_item::{Answer, BoxedStats, Kind, OpStats, Stats};
use std::alloc::Global;

impl Shard {
    ghost use Rattle.mc_store.specs.internal.Parts.{Acts};

    /// `stats`: the counts as they were before this command.
    #[tactic(auto, unfolding(mc_item::specs::Kind::is_lawful))]
    pub(super) fn stats(&self, alloc: Global) -> Answer
        ensures acts { Acts self.now op.Stats result self.now }
        ensures lawful { is_lawful Kind.Stats result ≡ true }
    {
        let stats = Stats {
            op_stats: self.op_stats,
            evicted: self.items.evicted(),
            items: self.items.len() as u64,
            bytes: self.items.cost() as u64,
            budget: self.items.budget() as u64,
        };
        match BoxedStats::new(alloc, stats) {
            Ok(stats) => Answer::Stats(stats),
            Err(_refused) => Answer::NoMemory,
        }
    }

    /// `stats reset`: the counts begin at 0 again.
    #[tactic(auto, unfolding(mc_item::specs::Kind::is_lawful))]
    pub(super) fn reset_stats(&mut self) -> Answer
        ensures acts { Acts self.old op.ResetStats result self.new }
        ensures lawful { is_lawful Kind.ResetStats result ≡ true }
    {
        self.op_stats = OpStats::new();
        self.items.reset_evicted();
        Answer::Reset
    }
}
