//! The budget of memory that all connections share.
ghost use Rattle.std.specs.Prelude.{◌≡◌, None, Some, IfOk, IsOk, IsSomeAnd, option_map};
ghost use Rattle.mc_budget.specs.Total.{Name};
ghost use Rattle.mc_budget.specs.Refusal.{IsRefused};

use crate::lease::{Lease, Refused};
use crate::total::Total;
use std::alloc::{AllocError, Global};
use std::marker::Model;
use std::sync::Arc;

/// A handle to the memory that connections may hold beyond what each always has. All handles of one
/// budget share its total. At every moment the sum of its leases is at most its limit
/// (`specs/Total.antt`, `IsWithin`). Contracts see the total with its limit, and nothing for
/// unlimited memory.
#[derive(Drop)]
pub struct ClientMemory {
    total: Option<Arc<Total, Global>>,
}

impl Model for ClientMemory {
    ghost use Rattle.std.specs.Prelude.{Option, option_map};
    ghost use Rattle.std.specs.Arc.{arc_value};
    ghost use Rattle.mc_budget.specs.Total.{Name};

    ghost Value = { Option Name };

    ghost view = { λ memory. option_map arc_value memory.total };
}

impl ClientMemory {
    /// A budget of `limit` bytes, of which none is leased. Fails if memory for its total is refused.
    pub fn new(alloc: Global, limit: u64) -> Result<ClientMemory, AllocError>
        ensures { IfOk result (λ memory. IsSomeAnd memory (λ name. name.limit ≡ limit)) }
    {
        let total = Total::new(alloc, limit)?;
        Ok(ClientMemory {
            total: Some(Arc::new(alloc, total)?),
        })
    }

    /// Memory without a limit: each lease is granted, and none is counted.
    pub fn unlimited() -> ClientMemory
        ensures { result ≡ None }
    {
        ClientMemory { total: None }
    }

    /// Another handle to the same budget. Fails if there are too many.
    pub fn share(&self) -> Result<ClientMemory, AllocError>
        ensures { IfOk result (λ shared. shared ≡ self.now) }
    {
        match &self.total {
            None => Ok(ClientMemory { total: None }),
            Some(total) => Ok(ClientMemory {
                total: Some(Arc::try_clone(total)?),
            }),
        }
    }

    /// Leases these bytes.
    ///
    /// Errors: `Full` if the limit would be passed; `Busy` if other threads lease and return memory
    /// all the time.
    pub fn lease(&self, bytes: u64) -> Result<Lease, Refused>
        ensures leased { IfOk result (λ lease.
            lease ≡ option_map (λ name. record { of = name; bytes = bytes }) self.now) }
        ensures full { (name : Name) → self.now ≡ Some name → IsRefused name.limit bytes result }
        ensures unlimited { self.now ≡ None → IsOk result }
    {
        let Some(total) = &self.total else {
            return Ok(Lease::unlimited());
        };
        let Ok(own) = Arc::try_clone(total) else {
            return Err(Refused::Busy);
        };
        let seat = total.take(bytes)?;
        Ok(Lease::held(own, seat, bytes))
    }

    /// The leased bytes at this moment. Other threads may change them at once.
    pub fn leased(&self) -> u64 {
        match &self.total {
            None => 0,
            Some(total) => total.leased(),
        }
    }

    /// The limit in bytes, if there is one.
    pub fn limit(&self) -> Option<u64>
        ensures { result ≡ option_map (λ name. name.limit) self.now }
    {
        match &self.total {
            None => None,
            Some(total) => Some(total.limit()),
        }
    }
}
