//! The statistics of a shard: its counts, and what it holds (protocol.txt, "General-purpose
//! statistics").
ghost use Rattle.std.specs.Prelude.{◌≡◌, IfOk};

use crate::memory::NoMemory;
use crate::op_stats::OpStats;
use std::alloc::Global;
use std::marker::Model;

/// The counts of a shard, and what it holds.
#[derive(Clone, Copy)]
pub struct Stats {
    /// What it was asked, and what came of it.
    pub op_stats: OpStats,
    /// How many items went to make room for others.
    pub evicted: u64,
    /// How many items it holds.
    pub items: u64,
    /// What these cost together, in bytes.
    pub bytes: u64,
    /// What they may cost together, in bytes.
    pub budget: u64,
}

/// The counts in memory of their own, so that an answer stays small. A contract sees the counts.
#[derive(Drop)]
pub struct BoxedStats {
    stats: Box<Stats>,
}

impl Model for BoxedStats {
    ghost use Rattle.mc_item.specs.declared.stats.Stats.{Stats};

    ghost Value = { Stats };

    ghost view = { λ boxed. boxed.stats.value };
}

impl BoxedStats {
    /// Puts the counts into memory of their own.
    pub fn new(alloc: Global, stats: Stats) -> Result<BoxedStats, NoMemory>
        ensures { IfOk result (λ boxed. boxed ≡ stats) }
    {
        match Box::new(alloc, stats) {
            Ok(stats) => Ok(BoxedStats { stats }),
            Err(_refused) => Err(NoMemory),
        }
    }

    /// The counts.
    pub fn get(&self) -> &Stats
        ensures { result.now ≡ self.now }
    {
        &self.stats
    }
}
