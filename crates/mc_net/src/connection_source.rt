//! The source of a slot's connections, to which they are returned.
ghost use Rattle.std.specs.Prelude.{◌≡◌};
ghost use Rattle.mc_ring.specs.Route.{Name};
ghost use Rattle.mc_net.specs.Flow.{Arrives, IsUnbegun, SourceFlow, took_back};

use mc_transport::Transport;

/// The result of `ConnectionSource::accept`.
#[derive(Drop)]
pub enum Accept<L> {
    /// A new connection.
    Came(L),
    /// No connection yet.
    NotYet,
    /// No more connections will come.
    Over,
}

/// Accepts the connections of a slot, one at a time, and takes them back after they were served.
pub trait ConnectionSource {
    /// The type of the connections.
    type Transport: Transport + Drop;

    // What it has accepted and taken back so far, as contracts see it.
    ghost flow: { Self → SourceFlow };

    // The history to which its connections belong.
    ghost history: { Self → Name };

    /// Returns the next connection, if there is one. Never blocks.
    fn accept(&mut self) -> Accept<Self::Transport>
        ensures flow { Arrives (λ line. Self.Transport.sight line) result (flow self.old)
            (flow self.new) }
        // It has not begun.
        ensures new { IsUnbegun (history self.old) (λ line. Self.Transport.place line) result }
        ensures history { history self.new ≡ history self.old };

    /// Ends the output of the connection that is out; call it if memory to serve it is refused.
    /// Nothing is read or written. Returns whether the slot will be woken after a pause; if so, it
    /// may wait until then. See docs/DECISIONS.md, N5.
    fn give_up(&mut self, line: &mut Self::Transport) -> bool
        ensures flow { flow self.new ≡ flow self.old }
        ensures line { Self.Transport.sight line.new ≡ Self.Transport.sight line.old }
        ensures place { Self.Transport.place line.new ≡ Self.Transport.place line.old }
        ensures history { history self.new ≡ history self.old };

    /// Takes back the connection that was served, with the number of its commands and whether it
    /// failed.
    fn give_back(&mut self, line: Self::Transport, commands: u64, broke: bool)
        ensures flow { flow self.new ≡
            took_back (Self.Transport.sight line) commands broke (flow self.old) }
        ensures history { history self.new ≡ history self.old };
}
