//! The commands that a connection takes, as proofs see them.
ghost use Rattle.std.specs.Prelude.{◌≡◌, List, [], ◌∷◌, ◌++◌};
ghost use Rattle.std.specs.Borrow.{ftrue};
ghost use Rattle.mc_conn.specs.History.{Taken};

use std::marker::{Model, PhantomData};

/// The commands that were taken, each as it is carried out. It takes no bytes, and its methods do
/// nothing at run time.
#[derive(Drop)]
pub(crate) struct CommandLog {
    of: PhantomData<()>,
    pub(crate) ghost items: { List Taken },
}

impl Model for CommandLog {
    ghost also_owns = { λ _. ftrue };
}

// It owns nothing.
unsafe impl Send for CommandLog {}

impl CommandLog {
    /// Before the first command.
    pub(crate) fn new() -> CommandLog
        ensures { result.items ≡ [] }
    {
        CommandLog { of: PhantomData }
    }

    /// A copy.
    pub(crate) fn same(&self) -> CommandLog
        ensures { result.items ≡ self.now.items }
    {
        CommandLog { of: PhantomData }
    }

    /// With one command more, which the caller's proof names by what `about` has.
    pub(crate) fn and<A>(&self, about: &A) -> CommandLog
        ghost one: { Taken }
        ensures { result.items ≡ self.now.items ++ one ∷ [] }
    {
        CommandLog { of: PhantomData }
    }
}
