//! What is kept of a reorder buffer at rest.
ghost use Rattle.std.specs.Prelude.{◌≤◌, ◌^◌};

/// The numbers of a reorder buffer in which no ticket is open, and whose sink works. They take no
/// memory.
#[derive(Clone, Copy)]
pub struct RestingReplies {
    pub(crate) window: usize,
    pub(crate) handed: u128,
    ghost within: { handed ≤ 2 ^ 64 },
}
