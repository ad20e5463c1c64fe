//! The record of what a shard runs.
use mc_item::Answer;
use mc_ring::Token;
use mc_split::Piece;
use std::snapshot::Snapshot;

/// Records what a shard runs, and makes the tokens of its replies. Each entry of the record has the
/// seat that the piece came from.
pub trait Scribe<T: Token> {
    ghost use Rattle.std.specs.Prelude.{ℕ, ◌≡◌, ◌++◌, ◌∷◌, [], List, Some, length, map};
    ghost use Rattle.std.specs.List.{slice_get};
    ghost use Rattle.mc_ring.specs.declared.request.Request.{Request};
    ghost use Rattle.mc_ring.specs.declared.request.Request.TheVariants as request;
    ghost use Rattle.mc_ring.specs.Reply.{Shown};
    ghost use Rattle.mc_ring.specs.Route.{Route};
    ghost use Rattle.mc_store.specs.State.{State};
    ghost use Rattle.mc_model.specs.Log.{Entry, of_asker, pieces_in, replies_in};
    ghost use Rattle.mc_worker.specs.Scribe.{Runs};

    // Whether it keeps a record.
    ghost keeps: { Self → Type 0 };

    // The route of the channel from a seat.
    ghost route: { Self → ℕ → Route };

    // The shard's state before the record.
    ghost begin: { Self → State };

    // The record: what was run since then.
    ghost log: { Self → List Entry };

    /// Consumes the token of a piece that came from this seat, and records that the piece was run
    /// with this answer.
    fn runs(&mut self, seat: usize, token: T, piece: Snapshot<Piece>, answer: &Answer)
        requires may { Self.keeps self.old → T.may_send (Self.route self.old seat)
            (map request.Piece (pieces_in (of_asker seat (Self.log self.old))))
            (request.Piece piece.value) token }
        requires step { Self.keeps self.old →
            Runs (Self.begin self.old) (Self.log self.old) piece.value answer.now }
        ensures log { Self.keeps self.old → Self.log self.new ≡ Self.log self.old ++ record {
          shard = (Self.route self.old seat).shard;
          asker = seat;
          piece = piece.value;
          answer = answer.now;
        } ∷ [] }
        ensures keeps { Self.keeps self.new → Self.keeps self.old }
        ensures route { Self.route self.new ≡ Self.route self.old }
        ensures begin { Self.begin self.new ≡ Self.begin self.old };

    /// Makes the token of the next reply to a seat.
    fn token(&mut self) -> T
        ensures shows { (seat : ℕ) (route : Route) (before : List Shown) (reply : Shown) →
            (Self.keeps self.old → (route ≡ Self.route self.old seat)
            × (slice_get (replies_in (of_asker seat (Self.log self.old))) (length before)
            ≡ Some reply)) →
            T.may_give route before reply result }
        ensures same { Self.log self.new ≡ Self.log self.old }
        ensures keeps { Self.keeps self.new → Self.keeps self.old }
        ensures route { Self.route self.new ≡ Self.route self.old }
        ensures begin { Self.begin self.new ≡ Self.begin self.old };
}

/// The scribe that keeps no record; its tokens are empty.
impl Scribe<()> for () {
    ghost use Rattle.std.specs.Prelude.{[]};
    ghost use Rattle.mc_ring.specs.Route.{no_history};
    ghost use Rattle.mc_worker.specs.Scribe.{no_state};

    ghost keeps = { λ scribe. ⊥ };

    ghost route = { λ scribe seat. record { seat = seat; shard = 0; name = no_history } };

    ghost begin = { λ scribe. no_state };

    ghost log = { λ scribe. [] };

    fn runs(&mut self, _seat: usize, _token: (), _piece: Snapshot<Piece>, _answer: &Answer) {}

    fn token(&mut self) {}
}
