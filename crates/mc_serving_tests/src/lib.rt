//! Tests of serving and of the program: how threads wait and start, the simulator, a shard's
//! worker, one line, sockets, the command line, replay files. They are in a crate of their own, so
//! that the crates that they call are proved only once (docs/DECISIONS.md, C3).
#![tactic(auto)]

#[cfg(test)]
mod asserting;
#[cfg(test)]
mod line;
#[cfg(test)]
mod memory_line;
#[cfg(test)]
mod memory_stream;
#[cfg(test)]
mod options;
#[cfg(test)]
mod portions;
#[cfg(test)]
mod replay;
#[cfg(test)]
mod settle;
#[cfg(test)]
mod sim;
#[cfg(test)]
mod sizes;
#[cfg(test)]
mod start;
#[cfg(test)]
mod streams;
#[cfg(test)]
mod tcp;
#[cfg(test)]
mod thread_group;
#[cfg(test)]
mod wake;
#[cfg(test)]
mod without_memory;
#[cfg(test)]
mod worker;
