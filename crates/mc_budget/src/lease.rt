//! A lease: bytes of the budget, which are returned when it is dropped.
ghost use Rattle.std.specs.Prelude.{◌≡◌, [], Some, None};
ghost use Rattle.std.specs.Arc.{arc_value};

use crate::held::Held;
use crate::total::Total;
use atomic_table::Seat;
use std::alloc::Global;
use std::marker::Model;
use std::sync::Arc;

/// Why a lease was refused.
#[derive(Clone, Copy, Debug, PartialEq, Eq)]
pub enum Refused {
    /// So many bytes were leased that the limit would be passed.
    Full(u64),
    /// Other threads changed the total at each try.
    Busy,
}

/// Bytes that are leased. Dropping it returns them. Contracts see of which total they are and how
/// many, and nothing for a lease of unlimited memory.
#[derive(Drop)]
pub struct Lease {
    held: Option<Held>,
}

impl Model for Lease {
    ghost use Rattle.std.specs.Prelude.{Option};
    ghost use Rattle.mc_budget.specs.Leases.{Leased, leased_of};

    ghost Value = { Option Leased };

    ghost view = { λ lease. leased_of lease.held };
}

impl Lease {
    /// These bytes, which the token holds.
    pub(crate) fn held(total: Arc<Total, Global>, seat: Seat<u64, u64>, bytes: u64) -> Lease
        requires table { seat.table_id ≡ (arc_value total).table }
        requires holds { seat.me ≡ (bytes, []) }
        ensures { result ≡ Some (record { of = arc_value total; bytes = bytes }) }
    {
        let held = Held { total, seat, bytes };
        Lease { held: Some(held) }
    }

    /// A lease of unlimited memory.
    pub(crate) fn unlimited() -> Lease
        ensures { result ≡ None }
    {
        Lease { held: None }
    }
}
