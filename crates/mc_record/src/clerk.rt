//! The record of a seat's connections in a history.
ghost use Rattle.std.specs.Prelude.{◌≡◌, length, drop, true};
ghost use Rattle.std.specs.List.{AllByRecursion};
ghost use Rattle.mc_conn.specs.Conn.{taken_by};
ghost use Rattle.mc_conn.specs.History.{MayBeTaken};
ghost use Rattle.mc_model.specs.Grows.{Lengthens};
ghost use Rattle.mc_history.specs.declared.event.Event.TheVariants.{Opened};
ghost use Rattle.mc_history.specs.declared.knowledge.Role.TheVariants.{Seat as OfSeat};
ghost use Rattle.mc_history.specs.Lawful.{MayFollow};
ghost use Rattle.mc_history.specs.Roles.{is_own, seat_of};
ghost use Rattle.mc_history.specs.Tokens.{Sees};
ghost use Rattle.mc_history.specs.Worlds.{IsLastOn};
ghost use Rattle.mc_record.specs.Clerk.{HasOpened, IsSeatActor, connection_of, taken_now};

use mc_conn::Conn;
use mc_history::{Evidence, Member};
use mc_ring::Reply;
use mc_transport::Clerk;
use std::marker::Model;

/// A seat's actor, which adds to its history what the seat's connections take. Contracts see the
/// actor.
#[derive(Drop)]
pub struct SeatClerk {
    member: Member,
}

impl Model for SeatClerk {
    ghost use Rattle.mc_history.specs.Tokens.{Acting};
    ghost use Rattle.mc_record.specs.Clerk.{IsSeatActor};

    ghost Value = { Acting };

    ghost view = { λ c. c.member };

    ghost invariant = { λ c. IsSeatActor c.member };
}

impl SeatClerk {
    /// The clerk of the seat that the actor acts for.
    pub fn new(member: Member) -> SeatClerk
        requires { IsSeatActor member }
        ensures { result ≡ member }
    {
        SeatClerk { member }
    }

    /// Evidence of all that the clerk has seen.
    pub(crate) fn show(&mut self) -> Evidence
        ensures shown { result ≡ record { name = self.old.name; events = self.old.events } }
        ensures kept { self.new ≡ self.old }
    {
        self.member.show()
    }

    /// Sees what the evidence shows.
    pub(crate) fn see(&mut self, evidence: Evidence)
        requires { evidence.name ≡ self.old.name }
        ensures { Sees evidence.events self.old self.new }
    {
        self.member.hear(evidence);
    }
}

impl Clerk<Evidence> for SeatClerk {
    ghost use Rattle.mc_history.specs.Roles.{seat_of};
    ghost use Rattle.mc_record.specs.Clerk.{HasOpened, answers_at, place_of, taken_now, work_at};

    ghost keeps = { Unit {0} };

    ghost opened = { λ c. HasOpened c };

    ghost route = { λ c shard. record { seat = seat_of c.role; shard = shard; name = c.name } };

    ghost taken = { λ c. taken_now c };

    ghost work = { λ c shard. work_at c shard };

    ghost answers = { λ c shard. answers_at c shard };

    ghost place = { λ c begin. place_of c begin };

    fn open(&mut self) -> Evidence {
        may_open(&self.member);
        self.member.add(&());
        self.member.show()
    }

    fn take_all(&mut self, conn: &Conn) {
        may_take(&self.member, conn);
        self.member.take_all(conn);
    }

    fn token(&mut self) -> Evidence {
        self.member.show()
    }

    fn evidence(&mut self) -> Evidence {
        let SeatClerk { member } = self;
        member.show()
    }

    fn hear(&mut self, _shard: usize, token: Evidence, _reply: &Reply) {
        self.member.hear(token);
    }
}

/// A connection may be opened on the actor's seat.
fn may_open(member: &Member)
    requires { IsSeatActor member.now }
    ensures own { is_own member.now.role (Opened (seat_of member.now.role)) ≡ true }
    ensures may { MayFollow member.now.name.sizes member.now.events
        (Opened (seat_of member.now.role)) }
{
    let _ = member;
}

/// The last connection on the actor's seat may take what it took beyond what is recorded.
fn may_take(member: &Member, conn: &Conn)
    requires actor { IsSeatActor member.now }
    requires opened { HasOpened member.now }
    requires begins { Lengthens (taken_now member.now) (taken_by conn.now) }
    requires may { AllByRecursion MayBeTaken (taken_by conn.now) }
    ensures role { member.now.role ≡ OfSeat (seat_of member.now.role) }
    ensures last { IsLastOn (seat_of member.now.role) (connection_of member.now) member.now.events }
    ensures may { AllByRecursion MayBeTaken
        (drop (length (taken_now member.now)) (taken_by conn.now)) }
{
    let _ = member;
    let _ = conn;
}
