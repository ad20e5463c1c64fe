//! Evidence about a history that threads can send to each other.
ghost use Rattle.std.specs.Prelude.{◌≡◌, []};
ghost use Rattle.mc_model.specs.Grows.{Lengthens};
ghost use Rattle.mc_history.specs.Lawful.{IsHistory};

use crate::history::History;
use crate::knowledge::Knowledge;
use crate::rule::{Hears, Looks};
use atomic_table::Seat;
use mc_ring::Token;
use mc_transport::Warrant;
use std::marker::Model;

/// Evidence that these events happened first, in this order. It has a size of 0 bytes.
#[derive(Drop)]
pub struct Evidence {
    pub(crate) seat: Seat<u64, Knowledge>,
}

impl Model for Evidence {
    ghost use Rattle.std.specs.Prelude.{◌≡◌, []};
    ghost use Rattle.mc_history.specs.Lawful.{IsHistory};
    ghost use Rattle.mc_history.specs.Tokens.{Sight};

    ghost Value = { Sight };

    ghost view = { λ e. record {
      name = record { table = e.seat.table_id; sizes = e.seat.me.0.sizes };
      events = e.seat.me.0.seen;
    } };

    ghost invariant = { λ e. (e.seat.me.1 ≡ []) × IsHistory e.seat.me.0.sizes e.seat.me.0.seen };
}

/// On a channel each piece sent is the next that is due there in the history shown, and each reply
/// answers the piece in its place.
impl Token for Evidence {
    ghost use Rattle.mc_history.specs.Allowed.{MayGive, MaySend};

    ghost name = { λ e. e.name };

    ghost may_send = { λ route before request e. MaySend route before request e };

    ghost may_give = { λ route before reply e. MayGive route before reply e };
}

/// With what the history shows, the replies to a connection's commands may be written to its line.
impl Warrant for Evidence {
    ghost use Rattle.std.specs.Prelude.{◌≡◌, true};
    ghost use Rattle.mc_history.specs.Places.{place_in};
    ghost use Rattle.mc_history.specs.Writes.{MayWrite};
    ghost use Rattle.mc_history.specs.WritesLaws.{behind_may, front_may};

    ghost place_at = { λ e begin. place_in e begin };

    ghost may_write = { λ place now bytes e. (e.name ≡ place.name) × (place.begun ≡ true)
        × MayWrite place.name.sizes place.number place.begin now bytes e.events };

    ghost front = { λ place now bytes more e may. (
      may.0,
      may.1,
      front_may place.name.sizes place.number place.begin now bytes more e.events may.2,
    ) };

    ghost behind = { λ place now bytes more e may. (
      may.0,
      may.1,
      behind_may place.name.sizes place.number place.begin now bytes more e.events may.2,
    ) };
}

impl Evidence {
    /// Evidence of what this token has seen.
    pub(crate) fn new(seat: Seat<u64, Knowledge>) -> Evidence
        requires slots { seat.me.1 ≡ [] }
        requires lawful { IsHistory seat.me.0.sizes seat.me.0.seen }
        ensures table { result.name.table ≡ seat.table_id }
        ensures sizes { result.name.sizes ≡ seat.me.0.sizes }
        ensures events { result.events ≡ seat.me.0.seen }
    {
        Evidence { seat }
    }

    /// Both show prefixes of one lawful history: this one, with everything that has happened so
    /// far.
    pub fn agree(self, history: &History, other: Evidence) -> Evidence
        requires own { self.name ≡ history.now }
        requires other { other.name ≡ history.now }
        ensures name { result.name ≡ self.name }
        ensures first { Lengthens self.events result.events }
        ensures second { Lengthens other.events result.events }
        ensures lawful { IsHistory result.name.sizes result.events }
    {
        let Evidence { mut seat } = self;
        let Evidence { seat: other } = other;
        history.table.shared.join_seat::<Hears>(&mut seat, other);
        history.table.shared.load::<Looks>(&mut seat, 0);
        Evidence::new(seat)
    }
}
