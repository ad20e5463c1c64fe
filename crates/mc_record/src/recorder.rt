//! The record of a shard in a history.
ghost use Rattle.std.specs.Prelude.{◌≡◌, map, true};
ghost use Rattle.mc_ring.specs.declared.request.Request.TheVariants as request;
ghost use Rattle.mc_model.specs.Log.{of_asker, pieces_in};
ghost use Rattle.mc_model.specs.Sized.{empty_shard};
ghost use Rattle.mc_history.specs.Allowed.{MaySend};
ghost use Rattle.mc_history.specs.Lawful.{IsHistory, MayFollow};
ghost use Rattle.mc_history.specs.Roles.{is_own};
ghost use Rattle.mc_history.specs.Tokens.{Sees};
ghost use Rattle.mc_worker.specs.Scribe.{Runs};
ghost use Rattle.mc_record.specs.Recorder.{IsShardActor, log_in, run_of, shard_of};

use mc_history::{Evidence, Member};
use mc_item::Answer;
use mc_split::Piece;
use mc_worker::Scribe;
use std::marker::Model;
use std::snapshot::Snapshot;

/// A shard's actor, which adds to its history what the shard runs. Contracts see the actor.
#[derive(Drop)]
pub struct Recorder {
    member: Member,
}

impl Model for Recorder {
    ghost use Rattle.mc_history.specs.Tokens.{Acting};
    ghost use Rattle.mc_record.specs.Recorder.{IsShardActor};

    ghost Value = { Acting };

    ghost view = { λ r. r.member };

    ghost invariant = { λ r. IsShardActor r.member };
}

impl Recorder {
    /// The recorder of the shard that the actor acts for.
    pub fn new(member: Member) -> Recorder
        requires { IsShardActor member }
        ensures { result ≡ member }
    {
        Recorder { member }
    }
}

impl Scribe<Evidence> for Recorder {
    ghost use Rattle.mc_model.specs.Sized.{empty_shard};
    ghost use Rattle.mc_record.specs.Recorder.{log_in, shard_of};

    ghost keeps = { λ r. Unit {0} };

    ghost route = { λ r seat. record { seat = seat; shard = shard_of r.role; name = r.name } };

    ghost begin = { λ r. empty_shard r.name.sizes (shard_of r.role) };

    ghost log = { λ r. log_in r };

    fn runs(&mut self, seat: usize, token: Evidence, piece: Snapshot<Piece>, answer: &Answer) {
        let given = Snapshot::of(answer);
        hear_piece(&mut self.member, seat, token, &piece, &given);
        self.member.add(&(seat, piece, given));
    }

    fn token(&mut self) -> Evidence {
        self.member.show()
    }
}

/// Hears the token of a piece, so that its run may follow.
fn hear_piece(
    member: &mut Member,
    seat: usize,
    token: Evidence,
    piece: &Snapshot<Piece>,
    answer: &Snapshot<Answer>,
)
    requires actor { IsShardActor member.old }
    requires may { MaySend
        (record { seat = seat; shard = shard_of member.old.role; name = member.old.name })
        (map request.Piece (pieces_in (of_asker seat (log_in member.old))))
        (request.Piece piece.now.value) token }
    requires step { Runs (empty_shard member.old.name.sizes (shard_of member.old.role))
        (log_in member.old) piece.now.value answer.now.value }
    ensures sees { Sees token.events member.old member.new }
    ensures lawful { IsHistory member.new.name.sizes member.new.events }
    ensures own { is_own member.new.role
        (run_of member.new seat piece.now.value answer.now.value) ≡ true }
    ensures may { MayFollow member.new.name.sizes member.new.events
        (run_of member.new seat piece.now.value answer.now.value) }
{
    let _ = seat;
    let _ = piece;
    let _ = answer;
    member.hear(token);
}
