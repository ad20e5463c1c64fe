//! Statistics of the shards, published by the gate of their workers.
use crossbeam_utils::CachePadded;
use mc_reply::Ticket;
use mc_store::Shard;
use mc_telemetry::ShardCounts;
use mc_worker::Gate;
use std::alloc::Global;
use std::sync::Arc;

/// A gate that never delays a piece. After each turn of a worker it publishes the shard's counters
/// and what the shard holds.
#[derive(Drop)]
pub(crate) struct ShardTelemetry {
    /// Where each shard's counts are published, by its number; a shard without an entry has none.
    pub(crate) shards: Vec<Arc<CachePadded<ShardCounts>, Global>>,
}

impl Gate for ShardTelemetry {
    fn before(&self, _shard: usize, _ticket: Ticket) {}

    fn after(&self, number: usize, shard: &Shard) {
        if let Some(counts) = self.shards.get(number) {
            counts.show(shard);
        }
    }
}
