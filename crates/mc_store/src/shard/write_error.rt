//! Why an item wasn't written.
ghost use Rattle.std.specs.Prelude.{◌≡◌};
ghost use Rattle.mc_store.specs.internal.Parts.{refusal};

use mc_item::Answer;

/// Why an item wasn't written.
#[derive(Clone, Copy)]
pub(super) enum WriteError {
    /// The uniques of the shard are used up.
    NoCas,
    /// Memory was refused.
    NoMemory,
}

impl WriteError {
    /// The answer that reports it.
    pub(super) fn answer(self) -> Answer
        ensures { result ≡ refusal self }
    {
        match self {
            WriteError::NoCas => Answer::NoCas,
            WriteError::NoMemory => Answer::NoMemory,
        }
    }
}
