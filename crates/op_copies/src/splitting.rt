//! split.
ghost use Rattle.mesh_model.specs.Closure.{AreLive};
ghost use Rattle.mesh_core.specs.Seen.{now};
ghost use Rattle.mesh_passes.specs.Answer.{IsReady, Meets};
ghost use Rattle.op_copies.specs.Duplicating.{split_row};

use crate::counting::counters_split_off;
use mesh_copies::copy_set;
use mesh_core::{Mesh, NoMemory, Shape};
use mesh_model::Refusal;
use mesh_passes::{Operator, closure, kill_set, run, unless_too_many};
use op_slots::{Buffer, Fault, Slots};
use std::alloc::Global;

/// The arguments of `split`.
#[derive(Debug, Drop)]
pub struct SplitArgs {
    /// Vertices, edges and faces.
    pub geom: Buffer,
}

/// Copies what `duplicate` copies, and takes the faces that were copied away, then those of the edges along which no face
/// is left, then those of the vertices at which no edge is left. It is refused with `TooMany` where what is left would
/// pass a limit. It gives the copies, and each vertex with its copy.
///
/// The mesh is between two commands, and what is named is live. It takes time k log k for the k elements and corners that
/// are copied; never a pass over the mesh.
pub fn split(alloc: Global, mesh: &mut Mesh, args: &SplitArgs) -> Result<Slots, Fault>
    requires ready { IsReady mesh.old }
    requires live { AreLive (now mesh.old) args.now.geom }
    ensures { Meets (split_row args.now.geom (now mesh.old)) mesh.old mesh.new result }
{
    run(alloc, mesh, args)
}

impl Operator for SplitArgs {
    ghost use Rattle.mesh_model.specs.Closure.{AreLive};
    ghost use Rattle.op_copies.specs.Duplicating.{split_refusal, split_result};

    ghost fits = { λ a c. AreLive c a.geom };

    ghost refusal = { λ a c. split_refusal a.geom c };

    ghost outcome = { λ a c. split_result a.geom c };

    fn check(&self, alloc: Global, mesh: &Mesh) -> Result<Option<Refusal>, NoMemory> {
        let set = closure(alloc, mesh, &self.geom)?;
        Ok(unless_too_many(counters_split_off(mesh, &set)))
    }

    fn change(&self, alloc: Global, mesh: &mut Mesh) -> Result<Slots, NoMemory> {
        let set = closure(alloc, mesh, &self.geom)?;
        let slots = copy_set(alloc, mesh, &set)?;
        kill_set(mesh, &set)?;
        Ok(slots)
    }
}
