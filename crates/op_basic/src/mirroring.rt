//! mirror.
ghost use Rattle.std.specs.Prelude.{◌≡◌, IsTrue, Some, None, if◌then◌else◌};
ghost use Rattle.std.specs.List.{All};
ghost use Rattle.mesh_model.specs.Table.{IsThere};
ghost use Rattle.mesh_model.specs.Valid.{is_in_range, is_on_grid};
ghost use Rattle.mesh_core.specs.Seen.{now};
ghost use Rattle.mesh_passes.specs.Answer.{IsReady, Meets};
ghost use Rattle.op_basic.specs.Motions.{mirror_row, mirroring};

use crate::coordinates::{mirrored, point_of};
use mesh_core::{Mesh, NoMemory, Point, Shape};
use mesh_model::{Place, Refusal, Why, is_in_range};
use mesh_passes::{Motion, Operator, move_verts, only, only_verts, run, unless_on_grid};
use op_slots::{Axis, Buffer, Fault, Slots};
use std::alloc::Global;

/// The arguments of `mirror`.
#[derive(Debug, Drop)]
pub struct MirrorArgs {
    /// Vertices.
    pub verts: Buffer,
    /// The coordinate that changes.
    pub axis: Axis,
    /// Where the plane is, in units of the grid.
    pub about: i64,
}

/// Puts one coordinate of vertices as far on the other side of a plane. It is refused with `BadValue` where the plane
/// is off the grid, and with `OutOfGrid` at the least vertex that would leave the grid. It gives the vertices back.
///
/// The mesh is between two commands, and the vertices are live. It takes time that grows with their number.
pub fn mirror(alloc: Global, mesh: &mut Mesh, args: &MirrorArgs) -> Result<Slots, Fault>
    requires ready { IsReady mesh.old }
    requires live { All (λ v. IsThere (now mesh.old).verts v.0) args.now.verts.verts }
    ensures { Meets (mirror_row args.now.verts.verts args.now.axis args.now.about (now mesh.old))
        mesh.old mesh.new result }
{
    run(alloc, mesh, args)
}

// The motion of points to the other side of a plane of the grid.
#[derive(Drop)]
struct Mirroring {
    axis: Axis,
    about: i64,
    // the plane is on the grid
    ghost on_grid: { IsTrue (is_in_range about) },
}

impl Motion for Mirroring {
    ghost use Rattle.op_basic.specs.Motions.{mirroring};

    ghost to = { λ m. mirroring m.axis m.about };

    fn moved(&self, p: Point) -> Option<Point> {
        match self.axis {
            Axis::X => mirrored_x(p, self.about),
            Axis::Y => mirrored_y(p, self.about),
            Axis::Z => mirrored_z(p, self.about),
        }
    }
}

// A point of the grid mirrored in its first coordinate, if it is on the grid then.
fn mirrored_x(p: Point, about: i64) -> Option<Point>
    requires grid { IsTrue (is_on_grid p) }
    requires plane { IsTrue (is_in_range about) }
    ensures { result ≡ (if is_on_grid (mirroring Axis.X about p) then Some (mirroring Axis.X about p) else None) }
{
    point_of(mirrored(p.x, about), Some(p.y), Some(p.z))
}

// The same in its second coordinate.
fn mirrored_y(p: Point, about: i64) -> Option<Point>
    requires grid { IsTrue (is_on_grid p) }
    requires plane { IsTrue (is_in_range about) }
    ensures { result ≡ (if is_on_grid (mirroring Axis.Y about p) then Some (mirroring Axis.Y about p) else None) }
{
    point_of(Some(p.x), mirrored(p.y, about), Some(p.z))
}

// The same in its third coordinate.
fn mirrored_z(p: Point, about: i64) -> Option<Point>
    requires grid { IsTrue (is_on_grid p) }
    requires plane { IsTrue (is_in_range about) }
    ensures { result ≡ (if is_on_grid (mirroring Axis.Z about p) then Some (mirroring Axis.Z about p) else None) }
{
    point_of(Some(p.x), Some(p.y), mirrored(p.z, about))
}

impl Operator for MirrorArgs {
    ghost use Rattle.std.specs.List.{All};
    ghost use Rattle.mesh_model.specs.Table.{IsThere};
    ghost use Rattle.op_basic.specs.Motions.{mirror_refusal, mirror_result};

    ghost fits = { λ a c. All (λ v. IsThere c.verts v.0) a.verts.verts };

    ghost refusal = { λ a c. mirror_refusal a.verts.verts a.axis a.about c };

    ghost outcome = { λ a c. mirror_result a.verts.verts a.axis a.about c };

    fn check(&self, _alloc: Global, mesh: &Mesh) -> Result<Option<Refusal>, NoMemory> {
        if is_in_range(self.about) {
            let motion = Mirroring {
                axis: self.axis,
                about: self.about,
            };
            Ok(unless_on_grid(mesh, self.verts.verts(), &motion))
        } else {
            Ok(Some(Refusal {
                why: Why::BadValue,
                place: Place::Nowhere,
            }))
        }
    }

    fn change(&self, alloc: Global, mesh: &mut Mesh) -> Result<Slots, NoMemory> {
        let motion = Mirroring {
            axis: self.axis,
            about: self.about,
        };
        let geom = only_verts(alloc, self.verts.verts())?;
        move_verts(mesh, self.verts.verts(), &motion)?;
        Ok(only(alloc, geom))
    }
}
