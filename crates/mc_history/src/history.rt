//! A history, visible to proofs alone.
ghost use Rattle.std.specs.Prelude.{◌≡◌, IfOk};

use crate::actors::Actors;
use crate::knowledge::Knowledge;
use crate::rule::Rule;
use atomic_table::{Shared, Table};
use mc_sizes::Sizes;
use std::alloc::{AllocError, Global};
use std::marker::Model;

/// The table of tokens. Its one word is loaded at each step of a token, and never written.
pub(crate) type Steps = Shared<u64, Knowledge, Sizes, Rule>;

/// The events of a server of these sizes, visible to proofs alone. Threads share it by reference.
#[derive(Drop)]
pub struct History {
    pub(crate) table: Table<u64, Knowledge, Sizes, Rule, Global>,
}

impl Model for History {
    ghost use Rattle.std.specs.Prelude.{◌<◌};
    ghost use Rattle.mc_ring.specs.Route.{Name};

    ghost Value = { Name };

    ghost view = { λ h. record { table = h.table.shared.table_id; sizes = h.table.shared.key } };

    ghost invariant = { λ h. 0 < h.table.shared.table_id.words };
}

impl History {
    /// An empty history, and the right to act for each of its slots and shards. It takes one word
    /// of memory, and fails if that is refused.
    pub fn new(alloc: Global, sizes: Sizes) -> Result<(History, Actors), AllocError>
        ensures sizes { IfOk result (λ made. made.0.sizes ≡ sizes) }
        ensures actors { IfOk result
            (λ made. made.1 ≡ record { name = made.0; seats = 0; shards = 0 }) }
    {
        let (table, seat) = Table::of_words(alloc, &[0], &sizes)?;
        Ok((History { table }, Actors::new(seat)))
    }
}
