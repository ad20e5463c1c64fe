//! An expiry as an item keeps it, in eight bytes.
ghost use Rattle.std.specs.Prelude.{◌≡◌, ◌≤◌};
ghost use Rattle.mc_item.specs.Expiry.{expiry_of, is_dead, seconds_left};

use crate::item::Expiry;
use mc_wire::LATEST_MOMENT;
use std::marker::Model;

/// An exptime of at most 30 days, in seconds, counts from now.
const LONGEST_DELAY: u64 = 2_592_000;

/// The second that means never. No exptime means so late a second.
const NEVER: u64 = u64::MAX;

/// An expiry that an exptime can mean, in the eight bytes that an item has for it. Contracts see
/// the `Expiry`.
#[derive(Clone, Copy)]
pub struct PackedExpiry {
    second: u64,
}

impl Model for PackedExpiry {
    ghost use Rattle.mc_item.specs.declared.item.Expiry.{Expiry};

    ghost Value = { Expiry };

    ghost use Rattle.mc_item.specs.internal.Packed.{packed, packed_unpacked, unpacked};

    ghost view = { λ kept. unpacked kept.second };

    ghost inverse = { λ expiry. record { second = packed expiry } };

    ghost inverse_ok = { λ kept h i. record { second = packed_unpacked kept.second i } };
}

impl PackedExpiry {
    /// What an exptime means at the second `now` since 1970 (protocol.txt, "Expiration times").
    #[tactic(auto, unfolding(crate::specs::Expiry::expiry_of))]
    pub fn from_exptime(exptime: i64, now: u64) -> PackedExpiry
        requires { now ≤ LATEST_MOMENT }
        ensures { result ≡ expiry_of exptime now }
    {
        let second = match u64::try_from(exptime) {
            Err(_negative) => now,
            Ok(0) => NEVER,
            Ok(delay) if delay <= LONGEST_DELAY => now + delay,
            Ok(second) => second,
        };
        PackedExpiry { second }
    }

    /// The expiry.
    pub fn expiry(self) -> Expiry
        ensures { result ≡ self }
    {
        if self.second == NEVER {
            Expiry::Never
        } else {
            Expiry::At(self.second)
        }
    }

    /// Whether the second `now` is at or past it.
    pub fn is_dead(self, now: u64) -> bool
        ensures { result ≡ is_dead self now }
    {
        self.expiry().is_dead(now)
    }

    /// The seconds that are left at the second `now`, 0 where it is past; none is never.
    pub fn seconds_left(self, now: u64) -> Option<u64>
        ensures { result ≡ seconds_left self now }
    {
        self.expiry().seconds_left(now)
    }
}
