//! Tests of the crates from the bytes of a stream to the answer of a shard. They are in a crate of
//! their own, so that the crates under test are proved without them.
#![tactic(auto)]

#[cfg(test)]
mod asserting;
#[cfg(test)]
mod client_memory;
#[cfg(test)]
mod command;
#[cfg(test)]
mod item;
#[cfg(test)]
mod meta_lines;
#[cfg(test)]
mod reader;
#[cfg(test)]
mod secret;
#[cfg(test)]
mod store;
#[cfg(test)]
mod wire;
