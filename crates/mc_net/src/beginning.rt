//! Which connection of a history a line is.
ghost use Rattle.std.specs.Prelude.{◌≡◌, None, Some};

use crate::trail::Trail;
use std::snapshot::Snapshot;

/// Which connection a line is, visible to contracts alone: a token of its history, what was shown
/// when it began, and the bytes read and written before that. It takes no memory.
#[derive(Drop)]
pub(crate) struct Beginning<T> {
    history: Snapshot<T>,
    seen: Snapshot<Option<T>>,
    given: Snapshot<Trail>,
    taken: Snapshot<Trail>,
}

impl<T: Drop> Beginning<T> {
    /// The beginning of a line of this token's history that has not begun.
    pub(crate) fn none(history: &T) -> Beginning<T>
        ensures history { result.history.value ≡ history.now }
        ensures seen { result.seen.value ≡ None }
    {
        let seen: Option<T> = None;
        let bytes = Trail::new();
        Beginning {
            history: Snapshot::of(history),
            seen: Snapshot::of(&seen),
            given: Snapshot::of(&bytes),
            taken: Snapshot::of(&bytes),
        }
    }

    /// The beginning of a line with this warrant, after these bytes were read and written.
    pub(crate) fn new(seen: T, given: &Trail, taken: &Trail) -> Beginning<T>
        ensures history { result.history.value ≡ seen }
        ensures seen { result.seen.value ≡ Some seen }
        ensures given { result.given.value ≡ given.now }
        ensures taken { result.taken.value ≡ taken.now }
    {
        let history = Snapshot::of(&seen);
        let seen = Some(seen);
        Beginning {
            history,
            seen: Snapshot::of(&seen),
            given: Snapshot::of(given),
            taken: Snapshot::of(taken),
        }
    }
}
