//! From the exptime of a command to the second at which an item dies.
ghost use Rattle.std.specs.Prelude.{◌≡◌, ◌≤◌};
ghost use Rattle.mc_item.specs.Expiry.{expiry_of};

use crate::item::Expiry;
use crate::packed::PackedExpiry;
use mc_wire::LATEST_MOMENT;

/// What an exptime means at the second `now` since 1970 (protocol.txt, "Expiration times").
pub fn expiry(exptime: i64, now: u64) -> Expiry
    requires { now ≤ LATEST_MOMENT }
    ensures { result ≡ expiry_of exptime now }
{
    PackedExpiry::from_exptime(exptime, now).expiry()
}
