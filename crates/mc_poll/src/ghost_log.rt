//! A list of pairs that contracts alone see. It is here for the crates that wait, accept and serve:
//! none of them is below this one.
ghost use Rattle.std.specs.Prelude.{◌≡◌, List, [], ◌∷◌, ◌++◌};
ghost use Rattle.std.specs.Borrow.{ftrue};

use std::marker::{Model, PhantomData};

/// A list of pairs that contracts alone see, as `items`. It takes no bytes, and its methods do
/// nothing at run time.
#[derive(Drop)]
pub struct GhostLog<A, B> {
    of: PhantomData<(A, B)>,
    pub ghost items: { List (A × B) },
}

impl<A, B> Model for GhostLog<A, B> {
    ghost also_owns = { λ _. ftrue };
}

// It owns nothing.
unsafe impl<A: Send, B: Send> Send for GhostLog<A, B> {}

impl<A, B> GhostLog<A, B> {
    /// The empty list.
    pub fn new() -> GhostLog<A, B>
        ensures { result.items ≡ [] }
    {
        GhostLog { of: PhantomData }
    }

    /// The list with one pair more at its end.
    pub fn and(&self, first: &A, second: &B) -> GhostLog<A, B>
        ensures { result.items ≡ self.now.items ++ (first.now, second.now) ∷ [] }
    {
        GhostLog { of: PhantomData }
    }
}
