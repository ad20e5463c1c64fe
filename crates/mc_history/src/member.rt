//! An actor with its share of the history.
ghost use Rattle.std.specs.Prelude.{◌≡◌, ℕ, List, true};
ghost use Rattle.std.specs.List.{AllByRecursion};
ghost use Rattle.std.specs.Arc.{arc_value};
ghost use Rattle.mc_history.specs.declared.event.Event.{Event};
ghost use Rattle.mc_history.specs.declared.knowledge.Role.TheVariants.{Seat as OfSeat};
ghost use Rattle.mc_history.specs.Worlds.{IsLastOn};
ghost use Rattle.mc_history.specs.Lawful.{IsHistory, MayFollow};
ghost use Rattle.mc_history.specs.Roles.{is_own, seat_of};
ghost use Rattle.mc_history.specs.Tokens.{Adds, Sees, TakesAll};
ghost use Rattle.mc_conn.specs.History.{MayBeTaken, Taken};

use crate::actor::Actor;
use crate::evidence::Evidence;
use crate::history::History;
use mc_ring::Source;
use std::alloc::Global;
use std::marker::Model;
use std::sync::Arc;

/// An actor that has its history with it, so that a thread can keep it. Contracts see the actor.
#[derive(Drop)]
pub struct Member {
    actor: Actor,
    history: Arc<History, Global>,
}

impl Model for Member {
    ghost use Rattle.std.specs.Prelude.{◌≡◌};
    ghost use Rattle.std.specs.Arc.{arc_value};
    ghost use Rattle.mc_history.specs.Tokens.{Acting};

    ghost Value = { Acting };

    ghost view = { λ m. m.actor };

    ghost invariant = { λ m. m.actor.name ≡ arc_value m.history };
}

impl Member {
    /// The actor, with a share of its history.
    pub fn new(actor: Actor, history: Arc<History, Global>) -> Member
        requires { actor.name ≡ arc_value history }
        ensures { result ≡ actor }
    {
        Member { actor, history }
    }

    /// Adds the event, as [`Actor::add`] does.
    pub fn add<T>(&mut self, about: &T)
        ghost event: { Event }
        requires own { is_own self.old.role event ≡ true }
        requires may { MayFollow self.old.name.sizes self.old.events event }
        ensures adds { Adds event self.old self.new }
        ensures lawful { IsHistory self.new.name.sizes self.new.events }
    {
        let Member { actor, history } = self;
        actor.add(&**history, about);
    }

    /// Adds commands, as [`Actor::take_all`] does.
    pub fn take_all<T>(&mut self, about: &T)
        ghost takes: { ℕ × List Taken }
        requires role { self.old.role ≡ OfSeat (seat_of self.old.role) }
        requires last { IsLastOn (seat_of self.old.role) takes.0 self.old.events }
        requires may { AllByRecursion MayBeTaken takes.1 }
        ensures takes { TakesAll takes.0 takes.1 self.old self.new }
        ensures lawful { IsHistory self.new.name.sizes self.new.events }
    {
        let Member { actor, history } = self;
        actor.take_all(&**history, about);
    }

    /// Evidence of all that the actor has seen.
    pub fn show(&mut self) -> Evidence
        ensures shown { result ≡ record { name = self.old.name; events = self.old.events } }
        ensures kept { self.new ≡ self.old }
        ensures lawful { IsHistory result.name.sizes result.events }
    {
        let Member { actor, history } = self;
        actor.show(&**history)
    }

    /// Sees all that has happened, as [`Actor::hear`] does.
    pub fn hear(&mut self, evidence: Evidence)
        requires { evidence.name ≡ self.old.name }
        ensures sees { Sees evidence.events self.old self.new }
        ensures lawful { IsHistory self.new.name.sizes self.new.events }
    {
        let Member { actor, history } = self;
        actor.hear(&**history, evidence);
    }
}

impl Source<Evidence> for Member {
    ghost name = { λ m. m.name };

    fn token(&mut self) -> Evidence {
        self.show()
    }
}
