//! Telemetry of connections for the operator: byte and command counters, the idle timer, and a log
//! line for each connection that opens or ends. The serving threads report without a lock and never
//! wait.
#![tactic(auto)]

mod counter;
mod counts;
mod event;
mod idle_timer;
mod meter;
mod reporter;
mod shard_counts;
mod shutdown;
mod signals;
mod stop_token;
mod telemetry;

pub use counter::{Count, Counter};
pub use counts::{AcceptorCounts, Counts, EndCounts, EndTotals, SeatCounts, Totals};
pub use event::{ConnectionEvent, Manner, Peer};
pub use idle_timer::{CoarseClock, IdleTimer};
pub use meter::Meter;
pub use reporter::{Reporter, Reports, reporters};
pub use shard_counts::{CommandTotals, ShardCounts, ShardTotals};
pub use shutdown::{Drain, Shutdown};
pub use signals::Signals;
pub use stop_token::StopToken;
pub use telemetry::{AcceptorTelemetry, IdleLimit, SlotTelemetry, Telemetry};
