//! What a command answers.
ghost use Rattle.std.specs.Prelude.{◌≡◌};
ghost use Rattle.mesh_session.specs.Operators.{unable};
ghost use Rattle.mesh_session.specs.Steps.{nothing_to};

use mesh_model::{Place, Refusal, Why};
use op_slots::Slots;

/// The answer to a command.
#[derive(Debug, Drop)]
pub enum Reply {
    /// The command was done, and gives back these elements.
    Done(Slots),
    /// The command was refused, and nothing has changed.
    Refused(Refusal),
}

// The refusal of a command that a session can't do so far.
pub fn unable() -> Refusal
    ensures { result ≡ unable }
{
    Refusal {
        why: Why::BadValue,
        place: Place::Nowhere,
    }
}

// There is nothing to go to.
pub fn nothing_to(why: Why) -> Reply
    ensures { result ≡ nothing_to why }
{
    Reply::Refused(Refusal {
        why,
        place: Place::Nowhere,
    })
}
