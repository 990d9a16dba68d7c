//! The steps of a session, over its mesh and its history.
ghost use Rattle.std.specs.Prelude.{◌≡◌, ◌∷◌, [], ◌++◌, List, true, IfOk, OnErr, option_map};
ghost use Rattle.std.specs.List.{All};
ghost use Rattle.mesh_model.specs.Valid.{IsSound};
ghost use Rattle.mesh_core.specs.Seen.{now};
ghost use Rattle.mesh_passes.specs.Answer.{IsReady};
ghost use Rattle.mesh_session.specs.Operators.{op_row};
ghost use Rattle.mesh_session.specs.Performing.{state_of};
ghost use Rattle.mesh_session.specs.State.{is_new};
ghost use Rattle.mesh_session.specs.Steps.{binding_of, newest, redone, undone, with_result};
ghost use Rattle.mesh_session.specs.declared.entry.Entry.{Entry};

use crate::going::go;
use crate::history::{History, bind, unbind};
use crate::performing::{perform, put};
use crate::reply::{Reply, nothing_to};
use mesh_core::Mesh;
use mesh_model::Why;
use mesh_passes::no_slots;
use op_slots::{Fault, Op};
use sequence::{NoMemory, Text};
use std::alloc::Global;

// Runs an operator, and binds what it gives back to a name, if there is one.
pub fn run(
    alloc: Global,
    mesh: &mut Mesh,
    history: &mut History,
    op: &Op,
    name: &Option<Text>,
) -> Result<Reply, NoMemory>
    requires ready { IsReady mesh.old }
    requires unbound { is_new history.old.bindings.bound name.now ≡ true }
    ensures ok { IfOk result (λ reply. (reply, state_of mesh.new history.new)
        ≡ with_result (state_of mesh.old history.old) (binding_of name.now)
        (op_row op.now history.old.bindings.bound (now mesh.old))) }
    ensures err { OnErr result (state_of mesh.new history.new ≡ state_of mesh.old history.old) }
    ensures ready { IsReady mesh.new }
{
    history.undo.reserve(1)?;
    history.bindings.reserve(1)?;
    match perform(alloc, mesh, &history.bindings, op, name) {
        Ok(done) => {
            put(history, done.before, done.kept, done.bound);
            Ok(Reply::Done(done.slots))
        }
        Err(Fault::Refused(refusal)) => Ok(Reply::Refused(refusal)),
        Err(Fault::NoMemory) => Err(NoMemory),
    }
}

// Goes back to the complex before, and takes the binding away.
pub fn undo(alloc: Global, mesh: &mut Mesh, history: &mut History) -> Result<Reply, NoMemory>
    requires same { mesh.old.base ≡ now mesh.old }
    requires sound { All (λ e. IsSound e.complex) history.old.undo.items }
    ensures ok { IfOk result (λ reply. (reply, state_of mesh.new history.new)
        ≡ undone (state_of mesh.old history.old) (newest history.old.undo.items)) }
    ensures err { OnErr result (state_of mesh.new history.new ≡ state_of mesh.old history.old) }
    ensures same { mesh.new.base ≡ now mesh.new }
{
    match go(mesh, &mut history.undo, &mut history.redo)? {
        None => Ok(nothing_to(Why::NothingToUndo)),
        Some(gone) => {
            unbind(&mut history.bindings, &gone.binding);
            Ok(Reply::Done(no_slots(alloc)))
        }
    }
}

// Goes on to the complex after, and gives the binding back.
pub fn redo(alloc: Global, mesh: &mut Mesh, history: &mut History) -> Result<Reply, NoMemory>
    requires same { mesh.old.base ≡ now mesh.old }
    requires sound { All (λ e. IsSound e.complex) history.old.redo.items }
    requires unbound { (e : Entry) (es : List Entry) → history.old.redo.items ≡ es ++ e ∷ []
        → is_new history.old.bindings.bound (option_map (λ b. b.name) e.binding) ≡ true }
    ensures ok { IfOk result (λ reply. (reply, state_of mesh.new history.new)
        ≡ redone (state_of mesh.old history.old) (newest history.old.redo.items)) }
    ensures err { OnErr result (state_of mesh.new history.new ≡ state_of mesh.old history.old) }
    ensures same { mesh.new.base ≡ now mesh.new }
{
    history.bindings.reserve(1)?;
    match go(mesh, &mut history.redo, &mut history.undo)? {
        None => Ok(nothing_to(Why::NothingToRedo)),
        Some(gone) => {
            bind(&mut history.bindings, gone.binding);
            Ok(Reply::Done(no_slots(alloc)))
        }
    }
}
