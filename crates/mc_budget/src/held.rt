//! What a lease holds.
ghost use Rattle.std.specs.Prelude.{◌≡◌, []};
ghost use Rattle.std.specs.Arc.{arc_value};

use crate::total::Total;
use atomic_table::Seat;
use std::alloc::Global;
use std::sync::Arc;

/// Bytes that are part of a total.
pub(crate) struct Held {
    pub(crate) total: Arc<Total, Global>,
    pub(crate) seat: Seat<u64, u64>,
    pub(crate) bytes: u64,
    ghost table: { seat.table_id ≡ (arc_value total).table },
    ghost holds: { seat.me ≡ (bytes, []) },
}

impl Drop for Held {
    /// Returns the bytes.
    fn drop(self) {
        let Held {
            total,
            mut seat,
            bytes,
        } = self;
        total.give_back(&mut seat, bytes);
    }
}
