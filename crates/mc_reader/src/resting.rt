//! What is kept of a reader at rest.
ghost use Rattle.std.specs.Prelude.{◌≤◌};
ghost use Rattle.mc_wire.specs.declared.TheConstants.{MAX_LINE_LIMIT, MAX_VALUE_LIMIT};

use mc_command::Rules;
use mc_wire::{MAX_LINE_LIMIT, MAX_VALUE_LIMIT};

/// The numbers of a reader that holds no byte, is in no block, and whose stream goes on. They take
/// no memory.
#[derive(Drop)]
pub struct RestingReader {
    pub(crate) rules: Rules,
    /// Number of commands that may still be returned.
    pub(crate) commands_left: u64,
    ghost small: { rules.value_limit ≤ MAX_VALUE_LIMIT },
    ghost short: { rules.line_limit ≤ MAX_LINE_LIMIT },
}
