//! Assertions as calls: a test that calls them holds no text of a failure, and is cheap to prove.
ghost use Rattle.std.specs.Prelude.{IsTrue};

use std::process::Abort;

/// Stops the test with this text, unless the condition holds.
pub(crate) fn confirm(rt: &impl Abort, what: &str, holds: bool)
    ensures { IsTrue holds }
{
    assert!(rt; holds, "{what}");
}
