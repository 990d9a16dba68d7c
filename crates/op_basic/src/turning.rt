//! reverse.
ghost use Rattle.std.specs.List.{All};
ghost use Rattle.mesh_model.specs.Table.{IsThere};
ghost use Rattle.mesh_core.specs.Seen.{now};
ghost use Rattle.mesh_passes.specs.Answer.{IsReady, Meets};
ghost use Rattle.op_basic.specs.Turning.{reverse_row};

use mesh_core::{Mesh, NoMemory, Shape};
use mesh_model::Refusal;
use mesh_passes::{Operator, only, only_faces, run, turn_faces};
use op_slots::{Buffer, Fault, Slots};
use std::alloc::Global;

/// The arguments of `reverse`.
#[derive(Debug, Drop)]
pub struct ReverseArgs {
    /// Faces.
    pub faces: Buffer,
}

/// Turns faces over: the first corner of each stays first, the others follow in the opposite order, and each has the
/// edge to its new next one. It is never refused, and gives the faces back.
///
/// The mesh is between two commands, and the faces are live. It takes time that grows with their corners.
pub fn reverse(alloc: Global, mesh: &mut Mesh, args: &ReverseArgs) -> Result<Slots, Fault>
    requires ready { IsReady mesh.old }
    requires live { All (λ f. IsThere (now mesh.old).faces f.0) args.now.faces.faces }
    ensures { Meets (reverse_row args.now.faces.faces (now mesh.old)) mesh.old mesh.new result }
{
    run(alloc, mesh, args)
}

impl Operator for ReverseArgs {
    ghost use Rattle.std.specs.List.{All};
    ghost use Rattle.mesh_model.specs.Table.{IsThere};
    ghost use Rattle.op_basic.specs.Turning.{reverse_refusal, reverse_result};

    ghost fits = { λ a c. All (λ f. IsThere c.faces f.0) a.faces.faces };

    ghost refusal = { λ a c. reverse_refusal a.faces.faces c };

    ghost outcome = { λ a c. reverse_result a.faces.faces c };

    fn check(&self, _alloc: Global, _mesh: &Mesh) -> Result<Option<Refusal>, NoMemory> {
        Ok(None)
    }

    fn change(&self, alloc: Global, mesh: &mut Mesh) -> Result<Slots, NoMemory> {
        let geom = only_faces(alloc, self.faces.faces())?;
        turn_faces(mesh, self.faces.faces())?;
        Ok(only(alloc, geom))
    }
}
