//! Tests of the crates that make up a connection: pieces, rings, replies and the connection itself.
//! They are in a crate of their own, so that the crates under test are proved without them.
#![tactic(auto)]

#[cfg(test)]
mod asserting;
#[cfg(test)]
mod conn;
#[cfg(test)]
mod join;
#[cfg(test)]
mod ring;
#[cfg(test)]
mod sink;
#[cfg(test)]
mod split;
#[cfg(test)]
mod stats;
#[cfg(test)]
mod unexpected_reply;
