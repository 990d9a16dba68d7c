//! Operators done whole, or not at all.
ghost use Rattle.std.specs.Prelude.{◌≡◌, ◌<◌, ◌∷◌, [], ◌++◌, true, IsOk, IfOk, OnOk, OnErr, option_map, option_to_list};
ghost use Rattle.std.specs.Vec.{vec_capacity, vec_len};
ghost use Rattle.mesh_core.specs.Seen.{now};
ghost use Rattle.mesh_passes.specs.Answer.{IsReady};
ghost use Rattle.mesh_session.specs.Operators.{op_row};
ghost use Rattle.mesh_session.specs.Performing.{Attempts, Performs};
ghost use Rattle.mesh_session.specs.State.{is_new};

use crate::entry::Entry;
use crate::history::{History, bind, binding_of};
use crate::operating::operate;
use mesh_core::Mesh;
use mesh_model::Draft;
use op_slots::{Binding, Bindings, Fault, Op, Slots};
use sequence::Text;
use std::alloc::Global;

/// What a done operator leaves for the session.
#[derive(Drop)]
pub struct Performed {
    /// What it gives back.
    pub slots: Slots,
    /// The complex before.
    pub before: Draft,
    /// What is bound, for the entry of undo.
    pub kept: Option<Binding>,
    /// What is bound, for the bindings.
    pub bound: Option<Binding>,
}

// Runs an operator on a mesh between two commands, and makes what it leaves the complex to which the way back leads.
// Refused, and after `NoMemory`, the complex is as before.
pub fn perform(
    alloc: Global,
    mesh: &mut Mesh,
    bindings: &Bindings,
    op: &Op,
    name: &Option<Text>,
) -> Result<Performed, Fault>
    requires { IsReady mesh.old }
    ensures { Performs (op_row op.now bindings.now.bound (now mesh.old)) name.now mesh.old mesh.new result }
{
    match attempt(alloc, mesh, bindings, op, name) {
        Err(Fault::NoMemory) => {
            mesh.back();
            Err(Fault::NoMemory)
        }
        Err(Fault::Refused(refusal)) => Err(Fault::Refused(refusal)),
        Ok(done) => Ok(done),
    }
}

// The same, but after `NoMemory` only the way back is as before.
fn attempt(
    alloc: Global,
    mesh: &mut Mesh,
    bindings: &Bindings,
    op: &Op,
    name: &Option<Text>,
) -> Result<Performed, Fault>
    requires { IsReady mesh.old }
    ensures { Attempts (op_row op.now bindings.now.bound (now mesh.old)) name.now mesh.old mesh.new result }
{
    let slots = operate(alloc, mesh, bindings, op)?;
    let kept = binding_of(name, &slots)?;
    let bound = binding_of(name, &slots)?;
    let before = mesh.exchange_base()?;
    Ok(Performed {
        slots,
        before,
        kept,
        bound,
    })
}

// Keeps the complex before for undo, binds what the operator gave back, and leaves nothing to redo. There must be room.
pub fn put(history: &mut History, before: Draft, kept: Option<Binding>, bound: Option<Binding>)
    requires unbound { is_new history.old.bindings.bound (option_map (λ b. b.name) bound) ≡ true }
    requires bindings_room { 0 < history.old.bindings.spare }
    requires undo_room { vec_len history.old.undo < vec_capacity history.old.undo }
    ensures bindings { history.new.bindings.bound ≡ history.old.bindings.bound ++ option_to_list bound }
    ensures undo { history.new.undo.items
        ≡ history.old.undo.items ++ record { complex = before; binding = kept } ∷ [] }
    ensures redo { history.new.redo.items ≡ [] }
{
    history.undo.push_reserved(Entry {
        complex: before,
        binding: kept,
    });
    bind(&mut history.bindings, bound);
    history.redo.clear();
}
