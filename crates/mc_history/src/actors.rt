//! The right to act for the slots and the shards.
ghost use Rattle.std.specs.Prelude.{◌≡◌, ◌+◌, []};
ghost use Rattle.mc_history.specs.declared.knowledge.Role.TheVariants.{Seat as of_seat, Shard as of_shard};
ghost use Rattle.mc_history.specs.Rule.{opening};

use crate::actor::Actor;
use crate::history::History;
use crate::knowledge::Knowledge;
use crate::rule::{DealsSeat, DealsShard};
use atomic_table::Seat;
use std::marker::Model;

/// The right to act for each slot and each shard that has no actor yet. It has a size of 0 bytes.
#[derive(Drop)]
pub struct Actors {
    seat: Seat<u64, Knowledge>,
}

impl Model for Actors {
    ghost use Rattle.std.specs.Prelude.{◌≡◌, []};
    ghost use Rattle.mc_history.specs.declared.knowledge.Role.TheVariants.{Rest as rest};
    ghost use Rattle.mc_history.specs.Roles.{seat_of};
    ghost use Rattle.mc_history.specs.Rule.{shards_from};
    ghost use Rattle.mc_history.specs.Tokens.{Waiting};

    ghost Value = { Waiting };

    ghost view = { λ a. record {
      name = record { table = a.seat.table_id; sizes = a.seat.me.0.sizes };
      seats = seat_of a.seat.me.0.role;
      shards = shards_from a.seat.me.0.role;
    } };

    ghost invariant = { λ a.
        (a.seat.me.1 ≡ [])
        × (a.seat.me.0.role ≡ rest (seat_of a.seat.me.0.role) (shards_from a.seat.me.0.role))
        × (a.seat.me.0.seen ≡ []) };
}

impl Actors {
    /// All slots and shards of a new history.
    pub(crate) fn new(seat: Seat<u64, Knowledge>) -> Actors
        requires first { seat.me ≡ (opening seat.me.0.sizes, []) }
        ensures table { result.name.table ≡ seat.table_id }
        ensures sizes { result.name.sizes ≡ seat.me.0.sizes }
        ensures seats { result.seats ≡ 0 }
        ensures shards { result.shards ≡ 0 }
    {
        Actors { seat }
    }

    /// The actor of the next slot, which has done and seen nothing.
    pub fn next_seat(&mut self, history: &History) -> Actor
        requires same { self.old.name ≡ history.now }
        ensures actor { result ≡
            record { name = self.old.name; role = of_seat self.old.seats; events = [] } }
        ensures left { self.new ≡ record self.old { seats = self.old.seats + 1 } }
    {
        Actor::new(history.table.shared.split_seat::<DealsSeat>(&mut self.seat))
    }

    /// The actor of the next shard, which has done and seen nothing.
    pub fn next_shard(&mut self, history: &History) -> Actor
        requires same { self.old.name ≡ history.now }
        ensures actor { result ≡
            record { name = self.old.name; role = of_shard self.old.shards; events = [] } }
        ensures left { self.new ≡ record self.old { shards = self.old.shards + 1 } }
    {
        Actor::new(
            history
                .table
                .shared
                .split_seat::<DealsShard>(&mut self.seat),
        )
    }
}
