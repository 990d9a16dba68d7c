//! make_vert.
ghost use Rattle.std.specs.Prelude.{◌≡◌, None};
ghost use Rattle.mesh_model.specs.Kernel.{with_vert_like};
ghost use Rattle.mesh_model.specs.Refusals.{unless_too_many};
ghost use Rattle.mesh_model.specs.Valid.{IsValid};
ghost use Rattle.mesh_core.specs.Seen.{now};
ghost use Rattle.mesh_passes.specs.Answer.{IsReady, Meets};
ghost use Rattle.op_basic.specs.Making.{make_vert_row};

use mesh_core::{Mesh, NoMemory, Point, Shape, VertName};
use mesh_model::{Counters, Place, Refusal, Why};
use mesh_passes::{Operator, only, only_verts, run, unless_too_many};
use op_slots::{Fault, Slots};
use std::alloc::Global;

/// The arguments of `make_vert`.
#[derive(Debug, Drop)]
pub struct MakeVertArgs {
    /// Where the vertex is, in units of the grid.
    pub at: Point,
}

/// Makes a vertex with values 0. It is refused with `BadValue` where the point is off the grid, and with `TooMany` where
/// no vertex can be named any more. It gives the vertex back.
///
/// The mesh is between two commands. Constant time, but for the room that is made.
pub fn make_vert(alloc: Global, mesh: &mut Mesh, args: &MakeVertArgs) -> Result<Slots, Fault>
    requires { IsReady mesh.old }
    ensures { Meets (make_vert_row args.now.at (now mesh.old)) mesh.old mesh.new result }
{
    run(alloc, mesh, args)
}

impl Operator for MakeVertArgs {
    ghost use Rattle.op_basic.specs.Making.{make_vert_refusal, make_vert_result};

    ghost fits = { λ a c. Unit {0} };

    ghost refusal = { λ a c. make_vert_refusal a.at c };

    ghost outcome = { λ a c. make_vert_result a.at c };

    fn check(&self, _alloc: Global, mesh: &Mesh) -> Result<Option<Refusal>, NoMemory> {
        if self.at.is_on_grid() {
            Ok(unless_many_verts(mesh, self.at))
        } else {
            Ok(Some(Refusal {
                why: Why::BadValue,
                place: Place::Nowhere,
            }))
        }
    }

    fn change(&self, alloc: Global, mesh: &mut Mesh) -> Result<Slots, NoMemory> {
        let next = VertName(mesh.counters().verts);
        let geom = only_verts(alloc, &[next])?;
        mesh.make_vert(self.at, None)?;
        Ok(only(alloc, geom))
    }
}

// Refused where no vertex can be named any more.
fn unless_many_verts(mesh: &Mesh, p: Point) -> Option<Refusal>
    requires { IsValid (now mesh.now) }
    ensures { result ≡ unless_too_many (with_vert_like (now mesh.now) p None) }
{
    let before = mesh.counters();
    let verts = before.verts + 1;
    unless_too_many(Counters {
        verts,
        edges: before.edges,
        faces: before.faces,
        corners: before.corners,
    })
}
