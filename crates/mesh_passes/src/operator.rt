//! What all operators have in common.
ghost use Rattle.std.specs.Prelude.{◌≡◌, IfOk, OnOk, Option};
ghost use Rattle.mesh_model.specs.Complex.{Complex};
ghost use Rattle.mesh_model.specs.Valid.{IsSound};
ghost use Rattle.mesh_model.specs.declared.refusal.Refusal.{Refusal};
ghost use Rattle.op_slots.specs.declared.slots.Slots.{Slots};
ghost use Rattle.mesh_core.specs.Seen.{now};
ghost use Rattle.mesh_passes.specs.Row.{row};
ghost use Rattle.mesh_passes.specs.Answer.{IsReady, Meets};

use mesh_core::{Mesh, NoMemory, Shape};
use mesh_model::Refusal;
use op_slots::{Fault, Slots};
use std::alloc::Global;

/// An operator with its arguments: conditions in order, and a change where they all hold.
pub trait Operator {
    /// What the names in the arguments promise of a complex.
    ghost fits: { Self → Complex → Type 0 };

    /// The refusal of the first condition that fails.
    ghost refusal: { Self → Complex → Option Refusal };

    /// The slots and the complex after.
    ghost outcome: { Self → Complex → Slots × Complex };

    /// Tries the conditions in order.
    fn check(&self, alloc: Global, mesh: &Mesh) -> Result<Option<Refusal>, NoMemory>
        requires ready { IsReady mesh.now }
        requires fits { fits self.now (now mesh.now) }
        ensures { IfOk result (λ r. r ≡ refusal self.now (now mesh.now)) };

    /// Makes the change where all conditions hold. After `NoMemory` some of it may be made.
    fn change(&self, alloc: Global, mesh: &mut Mesh) -> Result<Slots, NoMemory>
        requires ready { IsReady mesh.old }
        requires fits { fits self.now (now mesh.old) }
        requires may { refusal self.now (now mesh.old) ≡ None }
        ensures outcome { IfOk result (λ slots. outcome self.now (now mesh.old) ≡ (slots, now mesh.new)) }
        ensures sound { OnOk result (IsSound (now mesh.new)) }
        ensures base { mesh.new.base ≡ mesh.old.base };
}

/// Runs an operator: nothing is changed before all conditions hold.
pub fn run<O: Operator>(alloc: Global, mesh: &mut Mesh, op: &O) -> Result<Slots, Fault>
    requires ready { IsReady mesh.old }
    requires fits { O.fits op.now (now mesh.old) }
    ensures { Meets (row (O.refusal op.now (now mesh.old)) (O.outcome op.now (now mesh.old))) mesh.old mesh.new result }
{
    match op.check(alloc, mesh) {
        Ok(None) => {}
        Ok(Some(refusal)) => return Err(Fault::Refused(refusal)),
        Err(_) => return Err(Fault::NoMemory),
    }
    match op.change(alloc, mesh) {
        Ok(slots) => Ok(slots),
        Err(_) => {
            let _ = mesh.counters();
            Err(Fault::NoMemory)
        }
    }
}
