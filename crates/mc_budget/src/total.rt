//! The total of all leases: one word that threads share, under a rule on what each lease holds.
ghost use Rattle.std.specs.Prelude.{◌≡◌, ◌+◌, ◌-◌, ◌≤◌, ◌==◌, [], IfOk, MatchBool};
ghost use Rattle.mc_budget.specs.Refusal.{IsRefused};

use crate::lease::Refused;
use atomic_table::{Play, Seat, Table, TableRule};
use std::alloc::{AllocError, Global};
use std::marker::Model;

/// How often a lease is tried again if other threads change the total meanwhile.
const TRIES: u32 = 1_024;

/// The word is the sum of what all leases hold, and at most the limit.
pub(crate) struct Rule;

impl TableRule<u64, u64, u64> for Rule {
    ghost use Rattle.mc_budget.specs.Total.{IsWithin};

    ghost holds = { IsWithin };

    ghost first = { λ limit. 0 };
}

/// A new lease holds nothing.
pub(crate) struct Enters;

impl Play<u64, u64> for Enters {
    ghost use Rattle.std.specs.Prelude.{◌≡◌};

    ghost then = { λ step me found new. new ≡ me };
}

/// A lease takes bytes, if the word was as expected. Otherwise it holds what it did.
pub(crate) struct Takes;

impl Play<u64, u64> for Takes {
    ghost use Rattle.mc_budget.specs.Total.{HasTaken};

    ghost then = { λ step me found new. HasTaken step.first step.second me found new };
}

/// A lease returns bytes.
pub(crate) struct Returns;

impl Play<u64, u64> for Returns {
    ghost use Rattle.mc_budget.specs.Total.{HasReturned};

    ghost then = { λ step me found new. HasReturned step.first me new };
}

/// The total of all leases in bytes, and its limit. Contracts see the table of leases and the limit.
#[derive(Drop)]
pub(crate) struct Total {
    table: Table<u64, u64, u64, Rule, Global>,
    limit: u64,
}

impl Model for Total {
    ghost use Rattle.std.specs.Prelude.{◌≡◌, ◌<◌};
    ghost use Rattle.mc_budget.specs.Total.{Name};

    ghost Value = { Name };

    ghost view = { λ total. record { table = total.table.shared.table_id; limit = total.limit } };

    ghost invariant = { λ total.
        (0 < total.table.shared.table_id.words) × (total.table.shared.key ≡ total.limit) };
}

impl Total {
    /// A total of 0 bytes.
    pub(crate) fn new(alloc: Global, limit: u64) -> Result<Total, AllocError>
        ensures { IfOk result (λ total. total.limit ≡ limit) }
    {
        let (table, _) = Table::of_words(alloc, &[0], &limit)?;
        Ok(Total { table, limit })
    }

    /// The limit in bytes.
    pub(crate) fn limit(&self) -> u64
        ensures { result ≡ self.now.limit }
    {
        self.limit
    }

    /// The total in bytes at this moment. Other threads may change it at once.
    pub(crate) fn leased(&self) -> u64 {
        self.table.shared.peek(0)
    }

    /// Adds these bytes to the total, and returns the token that holds them.
    ///
    /// Errors: `Full` if the limit would be passed; `Busy` if other threads changed the total at
    /// each try.
    pub(crate) fn take(&self, bytes: u64) -> Result<Seat<u64, u64>, Refused>
        ensures table { IfOk result (λ seat. seat.table_id ≡ self.now.table) }
        ensures holds { IfOk result (λ seat. seat.me ≡ (bytes, [])) }
        ensures full { IsRefused self.now.limit bytes result }
    {
        let (mut leased, mut seat) = self.table.shared.load_new_seat::<Enters>(0);
        for _ in 0..TRIES {
            let after = self.after(leased, bytes)?;
            let found = self.exchange(&mut seat, leased, after);
            if found == leased {
                return Ok(seat);
            }
            leased = found;
        }
        Err(Refused::Busy)
    }

    /// The total with these bytes more. Fails with `Full` if the limit would be passed.
    fn after(&self, leased: u64, bytes: u64) -> Result<u64, Refused>
        ensures sum { IfOk result (λ after. after ≡ leased + bytes) }
        ensures within { IfOk result (λ after. after ≤ self.now.limit) }
        ensures full { IsRefused self.now.limit bytes result }
    {
        let limit = self.limit;
        match leased.checked_add(bytes) {
            Some(after) if after <= limit => Ok(after),
            _ => Err(Refused::Full(leased)),
        }
    }

    /// Changes the total from `leased` to `after`, and adds the difference to what the token holds.
    /// Returns the total as it was; if that isn't `leased`, nothing changes.
    fn exchange(&self, seat: &mut Seat<u64, u64>, leased: u64, after: u64) -> u64
        requires table { seat.old.table_id ≡ self.now.table }
        requires nothing { seat.old.me ≡ (0, []) }
        requires more { leased ≤ after }
        requires within { after ≤ self.now.limit }
        ensures table { seat.new.table_id ≡ seat.old.table_id }
        ensures taken { MatchBool (result == leased)
            (seat.new.me ≡ (after - leased, [])) (seat.new.me ≡ (0, [])) }
    {
        self.table
            .shared
            .compare_exchange::<Takes>(seat, 0, leased, after)
    }

    /// Takes the bytes that the token holds from the total. The token then holds nothing.
    pub(crate) fn give_back(&self, seat: &mut Seat<u64, u64>, bytes: u64)
        requires table { seat.old.table_id ≡ self.now.table }
        requires holds { seat.old.me ≡ (bytes, []) }
        ensures nothing { seat.new.me ≡ (0, []) }
    {
        self.table.shared.fetch_sub::<Returns>(seat, 0, bytes);
    }
}
