//! translate.
ghost use Rattle.std.specs.List.{All};
ghost use Rattle.mesh_model.specs.Table.{IsThere};
ghost use Rattle.mesh_core.specs.Seen.{now};
ghost use Rattle.mesh_passes.specs.Answer.{IsReady, Meets};
ghost use Rattle.op_basic.specs.Motions.{translate_row};

use crate::coordinates::{point_of, shifted};
use mesh_core::{Mesh, NoMemory, Point, Shape};
use mesh_model::Refusal;
use mesh_passes::{Motion, Operator, move_verts, only, only_verts, run, unless_on_grid};
use op_slots::{Buffer, Fault, Slots};
use std::alloc::Global;

/// The arguments of `translate`.
#[derive(Debug, Drop)]
pub struct TranslateArgs {
    /// Vertices.
    pub verts: Buffer,
    /// How far they go, in units of the grid.
    pub by: Point,
}

/// Moves vertices by as much. It is refused with `OutOfGrid` at the least vertex that would leave the grid, and gives
/// the vertices back.
///
/// The mesh is between two commands, and the vertices are live. It takes time that grows with their number.
pub fn translate(alloc: Global, mesh: &mut Mesh, args: &TranslateArgs) -> Result<Slots, Fault>
    requires ready { IsReady mesh.old }
    requires live { All (λ v. IsThere (now mesh.old).verts v.0) args.now.verts.verts }
    ensures { Meets (translate_row args.now.verts.verts args.now.by (now mesh.old)) mesh.old mesh.new result }
{
    run(alloc, mesh, args)
}

// The motion of points by as much.
#[derive(Drop)]
struct Translation {
    by: Point,
}

impl Motion for Translation {
    ghost use Rattle.op_basic.specs.Motions.{translation};

    ghost to = { λ m. translation m.by };

    fn moved(&self, p: Point) -> Option<Point> {
        let x = shifted(p.x, self.by.x);
        let y = shifted(p.y, self.by.y);
        let z = shifted(p.z, self.by.z);
        point_of(x, y, z)
    }
}

impl Operator for TranslateArgs {
    ghost use Rattle.std.specs.List.{All};
    ghost use Rattle.mesh_model.specs.Table.{IsThere};
    ghost use Rattle.op_basic.specs.Motions.{translate_refusal, translate_result};

    ghost fits = { λ a c. All (λ v. IsThere c.verts v.0) a.verts.verts };

    ghost refusal = { λ a c. translate_refusal a.verts.verts a.by c };

    ghost outcome = { λ a c. translate_result a.verts.verts a.by c };

    fn check(&self, _alloc: Global, mesh: &Mesh) -> Result<Option<Refusal>, NoMemory> {
        let motion = Translation { by: self.by };
        Ok(unless_on_grid(mesh, self.verts.verts(), &motion))
    }

    fn change(&self, alloc: Global, mesh: &mut Mesh) -> Result<Slots, NoMemory> {
        let motion = Translation { by: self.by };
        let geom = only_verts(alloc, self.verts.verts())?;
        move_verts(mesh, self.verts.verts(), &motion)?;
        Ok(only(alloc, geom))
    }
}
