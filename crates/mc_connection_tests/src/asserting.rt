//! Assertions for tests. Out of line, so that the path of a failure is proved once instead of at
//! each assertion.
ghost use Rattle.std.specs.Prelude.{◌≡◌, true};

use std::fmt::Debug;
use std::process::Abort;

/// Asserts that both are equal.
pub fn equal<T: PartialEq + Debug + Copy>(rt: &impl Abort, found: T, wanted: T) {
    assert_eq!(rt; found, wanted);
}

/// Asserts that the condition holds.
pub fn holds(rt: &impl Abort, condition: bool)
    ensures { condition ≡ true }
{
    assert!(rt; condition);
}
