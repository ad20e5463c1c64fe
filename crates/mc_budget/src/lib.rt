//! Memory that all connections share: leases of one budget, whose sum never passes its limit.
#![tactic(auto)]

mod client_memory;
mod held;
mod lease;
mod total;

pub use client_memory::ClientMemory;
pub use lease::{Lease, Refused};
