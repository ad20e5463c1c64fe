//! The configuration of a server: its sizes and protocol profile, with their ranges and defaults.
//! Limits of values and lines are in `mc_wire`.
#![tactic(auto)]

mod sizes;

pub use sizes::{SizeError, Sizes, limits};

/// Minimum of slots, shards, ring capacity and open commands.
pub const MIN: usize = 1;

/// Maximum number of connection slots. See docs/DECISIONS.md, N10.
pub const MAX_SEATS: usize = 65_536;

/// Default number of connection slots.
pub const DEFAULT_SEATS: usize = 1_024;

/// Maximum number of shards.
pub const MAX_SHARDS: usize = 64;

/// Default number of shards.
pub const DEFAULT_SHARDS: usize = 2;

/// Minimum memory budget of a shard, in bytes.
pub const MIN_BUDGET: usize = 1_024;

/// Maximum memory budget of a shard, in bytes.
pub const MAX_BUDGET: usize = 68_719_476_736;

/// Default memory budget of a shard, in bytes.
pub const DEFAULT_BUDGET: usize = 16_777_216;

/// Maximum capacity of a ring.
pub const MAX_RING: usize = 1_024;

/// Default capacity of a ring. See docs/DECISIONS.md, E12.
pub const DEFAULT_RING: usize = 20;

/// Maximum number of open commands of a connection.
pub const MAX_WINDOW: usize = 4_096;

/// Default number of open commands of a connection.
pub const DEFAULT_WINDOW: usize = 256;
