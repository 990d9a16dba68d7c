//! The commands of a script, in order.

ghost use Rattle.std.specs.Prelude.{◌≡◌, ℕ, take, length, IfOk};
ghost use Rattle.mesh_session.specs.State.{IsSoundState};
ghost use Rattle.mesh_session.specs.Steps.{steps};

use mesh_model::{NoMemory, Sequence};
use mesh_session::{Reply, Session};
use op_slots::Command;
use std::alloc::Global;

/// The replies to some commands in order. After `NoMemory` the first so many commands were given.
pub fn run_commands(
    alloc: Global,
    session: &mut Session,
    commands: &[Command],
) -> Result<Sequence<Reply>, NoMemory>
    requires { IsSoundState session.old.state }
    ensures ok { IfOk result (λ replies. (replies, session.new.state) ≡ steps session.old.state commands.now) }
    ensures long { IfOk result (λ replies. length replies ≡ length commands.now) }
    ensures way { (n : ℕ) × (session.new.state ≡ (steps session.old.state (take n commands.now)).1) }
    ensures sound { IsSoundState session.new.state }
{
    let mut replies = Sequence::new(alloc);
    for command in commands {
        let reply = session.step(command)?;
        replies.push(reply)?;
    }
    Ok(replies)
}
