//! Assertions as calls: a test that calls them holds no text of a failure, and is cheap to prove.
ghost use Rattle.std.specs.Prelude.{◌≡◌, IsTrue, Some};

use std::process::Abort;

/// Stops the test with this text, unless the condition holds.
pub(crate) fn confirm(rt: &impl Abort, what: &str, holds: bool)
    ensures { IsTrue holds }
{
    assert!(rt; holds, "{what}");
}

/// The value that there is. Stops the test with this text where there is none.
pub(crate) fn given<T: Copy>(rt: &impl Abort, what: &str, value: Option<T>) -> T
    ensures { value ≡ Some result }
{
    match value {
        Some(inner) => inner,
        None => panic!(rt; "{what}"),
    }
}
