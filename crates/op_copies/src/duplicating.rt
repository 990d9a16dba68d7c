//! duplicate.
ghost use Rattle.mesh_model.specs.Closure.{AreLive};
ghost use Rattle.mesh_core.specs.Seen.{now};
ghost use Rattle.mesh_passes.specs.Answer.{IsReady, Meets};
ghost use Rattle.op_copies.specs.Duplicating.{duplicate_row};

use crate::counting::counters_with_copies;
use mesh_copies::copy_set;
use mesh_core::{Mesh, NoMemory, Shape};
use mesh_model::Refusal;
use mesh_passes::{Operator, closure, run, unless_too_many};
use op_slots::{Buffer, Fault, Slots};
use std::alloc::Global;

/// The arguments of `duplicate`.
#[derive(Debug, Drop)]
pub struct DuplicateArgs {
    /// Vertices, edges and faces.
    pub geom: Buffer,
}

/// Copies elements, the edges of the faces among them, and the ends of all these edges, with all values. The copies have
/// the next names of their kinds, in the order of the names that they stand for, and what they name are copies too. It is
/// refused with `TooMany` where a limit would be passed. It gives the copies, and each vertex with its copy.
///
/// The mesh is between two commands, and what is named is live. It takes time k log k for the k elements and corners that
/// are copied; never a pass over the mesh.
pub fn duplicate(alloc: Global, mesh: &mut Mesh, args: &DuplicateArgs) -> Result<Slots, Fault>
    requires ready { IsReady mesh.old }
    requires live { AreLive (now mesh.old) args.now.geom }
    ensures { Meets (duplicate_row args.now.geom (now mesh.old)) mesh.old mesh.new result }
{
    run(alloc, mesh, args)
}

impl Operator for DuplicateArgs {
    ghost use Rattle.mesh_model.specs.Closure.{AreLive};
    ghost use Rattle.op_copies.specs.Duplicating.{duplicate_refusal, duplicate_result};

    ghost fits = { λ a c. AreLive c a.geom };

    ghost refusal = { λ a c. duplicate_refusal a.geom c };

    ghost outcome = { λ a c. duplicate_result a.geom c };

    fn check(&self, alloc: Global, mesh: &Mesh) -> Result<Option<Refusal>, NoMemory> {
        let set = closure(alloc, mesh, &self.geom)?;
        Ok(unless_too_many(counters_with_copies(mesh, &set)))
    }

    fn change(&self, alloc: Global, mesh: &mut Mesh) -> Result<Slots, NoMemory> {
        let set = closure(alloc, mesh, &self.geom)?;
        let slots = copy_set(alloc, mesh, &set)?;
        Ok(slots)
    }
}
