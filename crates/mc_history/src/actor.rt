//! An actor: a slot's thread or a shard's worker, with everything that it has seen of the history.
//! Each step is a load of a word that is never written.
ghost use Rattle.std.specs.Prelude.{◌≡◌, ◌<◌, ℕ, List, [], true};
ghost use Rattle.std.specs.List.{AllByRecursion};
ghost use Rattle.mc_conn.specs.History.{MayBeTaken, Taken};
ghost use Rattle.mc_history.specs.declared.event.Event.{Event};
ghost use Rattle.mc_history.specs.declared.knowledge.Role.TheVariants.{Seat as OfSeat};
ghost use Rattle.mc_history.specs.Worlds.{IsLastOn};
ghost use Rattle.mc_history.specs.Lawful.{IsHistory, MayFollow};
ghost use Rattle.mc_history.specs.Roles.{is_own, seat_of};
ghost use Rattle.mc_history.specs.Rule.{Extends, MayJoin};
ghost use Rattle.mc_history.specs.Tokens.{Adds, Sees, TakesAll};

use crate::evidence::Evidence;
use crate::history::{History, Steps};
use crate::knowledge::Knowledge;
use crate::rule::{AddsEvents, Hears, Looks, Occurrence, Shows};
use atomic_table::Seat;
use std::marker::{Brand, Model};

/// The right to append the events of one slot's connections or of one shard. It has a size of 0
/// bytes.
#[derive(Drop)]
pub struct Actor {
    seat: Seat<u64, Knowledge>,
}

impl Model for Actor {
    ghost use Rattle.std.specs.Prelude.{◌≡◌, []};
    ghost use Rattle.mc_history.specs.Lawful.{IsHistory};
    ghost use Rattle.mc_history.specs.Tokens.{Acting};

    ghost Value = { Acting };

    ghost view = { λ a. record {
      name = record { table = a.seat.table_id; sizes = a.seat.me.0.sizes };
      role = a.seat.me.0.role;
      events = a.seat.me.0.seen;
    } };

    ghost invariant = { λ a. (a.seat.me.1 ≡ []) × IsHistory a.seat.me.0.sizes a.seat.me.0.seen };
}

impl Actor {
    /// The actor that steps with this token.
    pub(crate) fn new(seat: Seat<u64, Knowledge>) -> Actor
        requires slots { seat.me.1 ≡ [] }
        requires lawful { IsHistory seat.me.0.sizes seat.me.0.seen }
        ensures table { result.name.table ≡ seat.table_id }
        ensures sizes { result.name.sizes ≡ seat.me.0.sizes }
        ensures role { result.role ≡ seat.me.0.role }
        ensures events { result.events ≡ seat.me.0.seen }
    {
        Actor { seat }
    }

    /// Appends an event, which the proof of the caller names by what `about` has. It must be an
    /// event of this actor, and may follow what the actor has seen.
    pub fn add<T>(&mut self, history: &History, about: &T)
        ghost event: { Event }
        requires same { self.old.name ≡ history.now }
        requires own { is_own self.old.role event ≡ true }
        requires may { MayFollow self.old.name.sizes self.old.events event }
        ensures adds { Adds event self.old self.new }
        ensures lawful { IsHistory self.new.name.sizes self.new.events }
    {
        let _ = about;
        note::<Brand>(&history.table.shared, &mut self.seat);
    }

    /// Appends, in one step, the commands that the last connection on the actor's slot parsed, in
    /// order. The proof of the caller names them by what `about` has.
    pub fn take_all<T>(&mut self, history: &History, about: &T)
        ghost takes: { ℕ × List Taken }
        requires same { self.old.name ≡ history.now }
        requires role { self.old.role ≡ OfSeat (seat_of self.old.role) }
        requires last { IsLastOn (seat_of self.old.role) takes.0 self.old.events }
        requires may { AllByRecursion MayBeTaken takes.1 }
        ensures takes { TakesAll takes.0 takes.1 self.old self.new }
        ensures lawful { IsHistory self.new.name.sizes self.new.events }
    {
        let _ = about;
        note::<Brand>(&history.table.shared, &mut self.seat);
    }

    /// Evidence of everything that the actor has seen, for another thread.
    pub fn show(&mut self, history: &History) -> Evidence
        requires same { self.old.name ≡ history.now }
        ensures shown { result ≡ record { name = self.old.name; events = self.old.events } }
        ensures kept { self.new ≡ self.old }
        ensures lawful { IsHistory result.name.sizes result.events }
    {
        Evidence::new(history.table.shared.split_seat::<Shows>(&mut self.seat))
    }

    /// Takes in evidence: the actor has then seen everything that has happened. None of its own
    /// events is new.
    pub fn hear(&mut self, history: &History, evidence: Evidence)
        requires same { self.old.name ≡ history.now }
        requires evidence { evidence.name ≡ history.now }
        ensures sees { Sees evidence.events self.old self.new }
        ensures lawful { IsHistory self.new.name.sizes self.new.events }
    {
        let Evidence { seat: other } = evidence;
        history
            .table
            .shared
            .join_seat::<Hears>(&mut self.seat, other);
        history.table.shared.load::<Looks>(&mut self.seat, 0);
    }
}

/// Appends the events in one step.
fn note<E: Occurrence>(table: &Steps, seat: &mut Seat<u64, Knowledge>)
    requires table { seat.old.table_id ≡ table.now.table_id }
    requires word { 0 < table.now.table_id.words }
    requires sizes { seat.old.me.0.sizes ≡ table.now.key }
    requires own { AllByRecursion (λ event. is_own seat.old.me.0.role event ≡ true) E.events }
    requires may { MayJoin seat.old.me.0.sizes seat.old.me.0.role seat.old.me.0.seen E.events }
    ensures table { seat.new.table_id ≡ seat.old.table_id }
    ensures slots { seat.new.me.1 ≡ seat.old.me.1 }
    ensures added { Extends E.events seat.old.me.0 seat.new.me.0 }
{
    table.load::<AddsEvents<E>>(seat, 0);
}
