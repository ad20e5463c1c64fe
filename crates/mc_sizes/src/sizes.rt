//! The sizes of a server and their validation.
ghost use Rattle.std.specs.Prelude.{◌≡◌, ◌↔◌, IfErr, IsOk};
ghost use Rattle.mc_sizes.specs.Limits.{LimitsAre};
ghost use Rattle.mc_sizes.specs.Sizes.{AreWithin, IsFirstOut, rules_of};

use crate::{MAX_BUDGET, MAX_RING, MAX_SEATS, MAX_SHARDS, MAX_WINDOW, MIN, MIN_BUDGET};
use mc_command::{Profile, Rules};
use mc_wire::{MAX_LINE_LIMIT, MAX_VALUE_LIMIT, MIN_LINE_LIMIT, MIN_VALUE_LIMIT};
use thiserror::Error;

/// The sizes of a server, and the protocol profile that it follows. See docs/DECISIONS.md, C9.
#[derive(Clone, Copy, PartialEq, Eq)]
pub struct Sizes {
    /// The protocol rules: native, or memcached's (`--drop-in`).
    pub profile: Profile,
    /// Number of connections that are served at a time.
    pub seats: usize,
    /// Number of shards.
    pub shards: usize,
    /// Memory budget of each shard, in bytes: an upper bound on the total cost of its items.
    pub bytes: usize,
    /// Capacity of each ring: of pieces in one direction, of replies in the other.
    pub ring: usize,
    /// Maximum size of a value, in bytes.
    pub value: usize,
    /// Maximum length of a line in bytes, including its line feed.
    pub line: usize,
    /// Maximum number of open commands of a connection: parsed, and not answered yet.
    pub window: usize,
    /// Whether clients may end the server by `shutdown`, which only memcached's rules have.
    pub shutdown: bool,
}

impl Sizes {
    /// The parser's rules: profile, value limit, line limit, and whether clients may end the
    /// server.
    pub fn rules(self) -> Rules
        ensures { result ≡ rules_of self }
    {
        Rules {
            profile: self.profile,
            value_limit: self.value,
            line_limit: self.line,
            shutdown: self.shutdown,
        }
    }

    /// Checks each size against its range. Reports the first one that is out of range.
    pub fn check(self) -> Result<(), SizeError>
        ensures within { IsOk result ↔ AreWithin self }
        ensures first { IfErr result (IsFirstOut self) }
    {
        if !(MIN..=MAX_SEATS).contains(&self.seats) {
            return Err(SizeError::Seats);
        }
        if !(MIN..=MAX_SHARDS).contains(&self.shards) {
            return Err(SizeError::Shards);
        }
        if !(MIN_BUDGET..=MAX_BUDGET).contains(&self.bytes) {
            return Err(SizeError::Bytes);
        }
        if !(MIN..=MAX_RING).contains(&self.ring) {
            return Err(SizeError::Ring);
        }
        if !(MIN_VALUE_LIMIT..=MAX_VALUE_LIMIT).contains(&self.value) {
            return Err(SizeError::Value);
        }
        if !(MIN_LINE_LIMIT..=MAX_LINE_LIMIT).contains(&self.line) {
            return Err(SizeError::Line);
        }
        if !(MIN..=MAX_WINDOW).contains(&self.window) {
            return Err(SizeError::Window);
        }
        Ok(())
    }
}

/// The size that is out of range; the first one if there are several.
#[derive(Clone, Copy, Debug, Error, PartialEq, Eq)]
pub enum SizeError {
    #[error("a server has {least} to {most} seats", least = MIN, most = MAX_SEATS)]
    Seats,
    #[error("a server has {least} to {most} shards", least = MIN, most = MAX_SHARDS)]
    Shards,
    #[error("a shard has a budget of {least} to {most} bytes", least = MIN_BUDGET, most = MAX_BUDGET)]
    Bytes,
    #[error("a ring has {least} to {most} places", least = MIN, most = MAX_RING)]
    Ring,
    #[error("values have a limit of {least} to {most} bytes", least = MIN_VALUE_LIMIT, most = MAX_VALUE_LIMIT)]
    Value,
    #[error("lines have a limit of {least} to {most} bytes", least = MIN_LINE_LIMIT, most = MAX_LINE_LIMIT)]
    Line,
    #[error("a connection has a window of {least} to {most} commands", least = MIN, most = MAX_WINDOW)]
    Window,
}

/// States the values of this crate's limits and defaults.
pub fn limits()
    ensures { LimitsAre }
{}
