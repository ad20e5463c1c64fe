//! The commands that a connection takes, as proofs see them, and whether one of them is `shutdown`.
ghost use Rattle.std.specs.Prelude.{◌≡◌, List, [], ◌∷◌, ◌++◌, true, false};
ghost use Rattle.mc_conn.specs.History.{Taken};
ghost use Rattle.mc_conn.specs.Shutdown.{asks_shutdown, is_shutdown};

use crate::command_log::CommandLog;
use std::marker::Model;

/// The commands that were taken, each as it is carried out. At run time it knows of them whether
/// one asks for the server's end.
#[derive(Drop)]
pub(crate) struct TakenLog {
    commands: CommandLog,
    has_shutdown: bool,
}

impl Model for TakenLog {
    ghost use Rattle.std.specs.Prelude.{List};
    ghost use Rattle.mc_conn.specs.History.{Taken};

    ghost Value = { List Taken };

    ghost view = { λ log. log.commands.items };

    ghost use Rattle.std.specs.Prelude.{◌≡◌};
    ghost use Rattle.mc_conn.specs.Shutdown.{asks_shutdown};

    ghost invariant = { λ log. log.has_shutdown ≡ asks_shutdown log.commands.items };
}

impl TakenLog {
    /// Before the first command.
    pub(crate) fn new() -> TakenLog
        ensures { result ≡ [] }
    {
        TakenLog {
            commands: CommandLog::new(),
            has_shutdown: false,
        }
    }

    /// A copy.
    pub(crate) fn same(&self) -> TakenLog
        ensures { result ≡ self.now }
    {
        TakenLog {
            commands: self.commands.same(),
            has_shutdown: self.has_shutdown,
        }
    }

    /// With one command more, other than `shutdown`, which the caller's proof names by what `about`
    /// has.
    #[tactic(auto, using(crate::proofs::Asks::asks_same))]
    pub(crate) fn and<A>(&self, about: &A) -> TakenLog
        ghost one: { Taken }
        requires { is_shutdown one.entry ≡ false }
        ensures { result ≡ self.now ++ one ∷ [] }
    {
        TakenLog {
            commands: self.commands.and(about),
            has_shutdown: self.has_shutdown,
        }
    }

    /// With a `shutdown` more, which the caller's proof names by what `about` has.
    #[tactic(auto, using(crate::proofs::Asks::asks_now))]
    pub(crate) fn and_shutdown<A>(&self, about: &A) -> TakenLog
        ghost one: { Taken }
        requires { is_shutdown one.entry ≡ true }
        ensures { result ≡ self.now ++ one ∷ [] }
    {
        TakenLog {
            commands: self.commands.and(about),
            has_shutdown: true,
        }
    }

    /// Whether one of the commands is `shutdown`.
    pub(crate) fn asks_shutdown(&self) -> bool
        ensures { result ≡ asks_shutdown self.now }
    {
        self.has_shutdown
    }
}
