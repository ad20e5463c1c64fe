//! What allows bytes to be written to a line.
use mc_ring::Token;

/// Allows bytes to be written to a line, by the history of which it is a token.
pub trait Warrant: Token {
    ghost use Rattle.std.specs.Prelude.{ℕ, List, ◌++◌};
    ghost use Rattle.mc_wire.specs.Sink.{Sight, took};
    ghost use Rattle.mc_transport.specs.Place.{Place};

    // The place of a line that begins, by the bytes seen of it then: it is the connection that was
    // opened last.
    ghost place_at: { Self → Sight → Place };

    // These bytes may be written next to the line of this place, of which this is seen now.
    ghost may_write: { Place → Sight → List ℕ → Self → Type 0 };

    // So may each prefix of them,
    ghost front: { (place : Place) (now : Sight) (bytes more : List ℕ) (seen : Self) →
        may_write place now (bytes ++ more) seen → may_write place now bytes seen };

    // and then what is behind it.
    ghost behind: { (place : Place) (now : Sight) (bytes more : List ℕ) (seen : Self) →
        may_write place now (bytes ++ more) seen → may_write place (took bytes now) more seen };
}

/// Of no history: any bytes may be written.
impl Warrant for () {
    ghost use Rattle.mc_ring.specs.Route.{no_history};
    ghost use Rattle.mc_transport.specs.Place.{unbegun};

    ghost place_at = { λ seen now. unbegun no_history };

    ghost may_write = { λ place now bytes seen. Unit {0} };

    ghost front = { λ place now bytes more seen may. tt };

    ghost behind = { λ place now bytes more seen may. tt };
}
