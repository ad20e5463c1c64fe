//! The numbers in a replay file, each with its range.
ghost use Rattle.std.specs.Prelude.{◌≡◌};
ghost use Rattle.mc_wire.specs.Number.{number_of};
ghost use Rattle.mc_replay.specs.Header.{number_within};

use mc_wire::number_u64;

/// Parses a number below `bound`.
#[tactic(auto, using(crate::proofs::Numbers::number_below))]
pub(crate) fn number_below(word: &[u8], bound: usize) -> Option<usize>
    ensures { result ≡ number_of bound word.now }
{
    match number_u64(word) {
        Ok(number) if number < bound as u64 => Some(number as usize),
        _ => None,
    }
}

/// Parses a number between `least` and `most`.
pub(crate) fn number_within(word: &[u8], least: usize, most: usize) -> Option<usize>
    ensures { result ≡ number_within least most word.now }
{
    match number_u64(word) {
        Ok(number) if number >= least as u64 && number <= most as u64 => Some(number as usize),
        _ => None,
    }
}
