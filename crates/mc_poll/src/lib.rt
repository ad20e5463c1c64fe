//! Threads that start together or not at all, sleep while there is nothing to do, are woken by
//! others, and are joined.
//!
//! A thread serves connection slots and shards. A producer sets a bit for the slot or shard and
//! wakes its thread if that sleeps. A thread without work spins for a while and then blocks, in a
//! parker or in a poll of its sockets. Before it blocks it publishes that it sleeps and looks once
//! more; a producer that pushes after this look sees the flag and wakes the thread. Contracts do
//! not state that a thread wakes (liveness); tests cover it.
#![tactic(auto)]

mod bit_set;
mod doorbell;
mod ghost_log;
mod poller;
mod set_bits;
mod sockets;
mod spin_policy;
mod task;
mod thread_group;
mod waker;
mod wakers;

pub use doorbell::Doorbell;
pub use ghost_log::GhostLog;
pub use poller::Poller;
pub use set_bits::SetBits;
pub use sockets::Readiness;
pub use spin_policy::SpinPolicy;
pub use task::Task;
pub use thread_group::{ThreadGroup, ThreadGroupError};
pub use wakers::Wakers;
