//! Places of values.
ghost use Rattle.std.specs.Prelude.{◌≡◌, ◌==◌, ◌<◌, ◌≤◌, ◌^◌};
ghost use Rattle.mc_cells.specs.declared.TheConstants.{LONG_VALUE};
ghost use Rattle.mc_cells.specs.Numbers.{place_of};

use crate::LONG_VALUE;

/// Where a value is kept. A value without bytes takes no cell.
#[derive(Clone, Copy, Debug, PartialEq, Eq)]
pub struct Place {
    /// The number of its first piece, or of the slot of a long value.
    pub(crate) first: u32,
    /// Its length in bytes.
    pub(crate) len: u32,
}

const _: () = prove!(size_of::<Place>() == 8);

/// The least number of a place of a long value.
const FIRST_LONG: u64 = 35_184_372_088_832;

/// How far the numbers of places of short values are apart from one cell to the next.
const SHORT_STEP: u64 = 8_192;

/// How far the numbers of places of long values are apart from one slot to the next.
const LONG_STEP: u64 = 16_777_216;

const _: () = prove!(SHORT_STEP == LONG_VALUE as u64);

impl Place {
    /// The place as a number of 50 bits.
    #[inline(always)]
    #[tactic(auto, using(crate::proofs::Numbers::numbered_short, crate::proofs::Numbers::numbered_long))]
    pub fn number(self) -> u64
        requires fits { self.len < 2 ^ 24 }
        requires few { LONG_VALUE ≤ self.len → self.first < 2 ^ 25 }
        ensures number { place_of result ≡ self }
        ensures small { result < 2 ^ 50 }
    {
        let (first, len) = (u64::from(self.first), u64::from(self.len));
        if len < SHORT_STEP {
            first * SHORT_STEP + len
        } else {
            FIRST_LONG + (first * LONG_STEP + len)
        }
    }

    /// The place with this number.
    #[inline(always)]
    pub fn from_number(number: u64) -> Place
        requires { number < 2 ^ 52 }
        ensures { result ≡ place_of number }
    {
        if number < FIRST_LONG {
            return Place {
                first: (number / SHORT_STEP) as u32,
                len: (number % SHORT_STEP) as u32,
            };
        }
        let rest = number - FIRST_LONG;
        Place {
            first: (rest / LONG_STEP) as u32,
            len: (rest % LONG_STEP) as u32,
        }
    }

    /// Length of the value in bytes.
    pub fn len(&self) -> usize
        ensures { result ≡ self.now.len }
    {
        self.len as usize
    }

    /// Whether the value has no bytes.
    pub fn is_empty(&self) -> bool
        ensures { result ≡ (self.now.len == 0) }
    {
        self.len == 0
    }
}
