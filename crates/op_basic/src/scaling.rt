//! scale.
ghost use Rattle.std.specs.Prelude.{◌≡◌, ◌&&◌, IsTrue};
ghost use Rattle.std.specs.List.{All};
ghost use Rattle.mesh_model.specs.Valid.{is_on_grid};
ghost use Rattle.mesh_model.specs.Table.{IsThere};
ghost use Rattle.mesh_core.specs.Seen.{now};
ghost use Rattle.mesh_passes.specs.Answer.{IsReady, Meets};
ghost use Rattle.op_basic.specs.Motions.{scale_row, is_ratio};

use crate::coordinates::{is_ratio, point_of, scaled};
use mesh_core::{Mesh, NoMemory, Point, Shape};
use mesh_model::{Place, Refusal, Why};
use mesh_passes::{Motion, Operator, move_verts, only, only_verts, run, unless_on_grid};
use op_slots::{Buffer, Fault, Slots};
use std::alloc::Global;

/// The arguments of `scale`.
#[derive(Debug, Drop)]
pub struct ScaleArgs {
    /// Vertices.
    pub verts: Buffer,
    /// The point that stays, in units of the grid.
    pub about: Point,
    /// The factor is `num / den`.
    pub num: i64,
    pub den: i64,
}

/// Scales vertices about a point: the way from there times the factor, rounded down. It is refused with `BadValue`
/// where the point is off the grid, `den` isn't 1 to 1,000,000 or `num` isn't -1,000,000 to 1,000,000, and with
/// `OutOfGrid` at the least vertex that would leave the grid. It gives the vertices back.
///
/// The mesh is between two commands, and the vertices are live. It takes time that grows with their number.
pub fn scale(alloc: Global, mesh: &mut Mesh, args: &ScaleArgs) -> Result<Slots, Fault>
    requires ready { IsReady mesh.old }
    requires live { All (λ v. IsThere (now mesh.old).verts v.0) args.now.verts.verts }
    ensures { Meets (scale_row args.now.verts.verts args.now.about args.now.num args.now.den (now mesh.old))
        mesh.old mesh.new result }
{
    run(alloc, mesh, args)
}

// Whether a point is on the grid, and the factor is a ratio.
fn may_scale(about: Point, num: i64, den: i64) -> bool
    ensures { result ≡ (is_on_grid about && is_ratio num den) }
{
    about.is_on_grid() && is_ratio(num, den)
}

// The motion of points away from a point of the grid, by a ratio.
#[derive(Drop)]
struct Scaling {
    about: Point,
    num: i64,
    den: i64,
    ghost may: { IsTrue (is_on_grid about && is_ratio num den) },
}

impl Motion for Scaling {
    ghost use Rattle.op_basic.specs.Motions.{scaling};

    ghost to = { λ m. scaling m.about m.num m.den };

    fn moved(&self, p: Point) -> Option<Point> {
        let x = scaled(p.x, self.about.x, self.num, self.den);
        let y = scaled(p.y, self.about.y, self.num, self.den);
        let z = scaled(p.z, self.about.z, self.num, self.den);
        point_of(x, y, z)
    }
}

impl Operator for ScaleArgs {
    ghost use Rattle.std.specs.List.{All};
    ghost use Rattle.mesh_model.specs.Table.{IsThere};
    ghost use Rattle.op_basic.specs.Motions.{scale_refusal, scale_result};

    ghost fits = { λ a c. All (λ v. IsThere c.verts v.0) a.verts.verts };

    ghost refusal = { λ a c. scale_refusal a.verts.verts a.about a.num a.den c };

    ghost outcome = { λ a c. scale_result a.verts.verts a.about a.num a.den c };

    fn check(&self, _alloc: Global, mesh: &Mesh) -> Result<Option<Refusal>, NoMemory> {
        if may_scale(self.about, self.num, self.den) {
            let motion = Scaling {
                about: self.about,
                num: self.num,
                den: self.den,
            };
            Ok(unless_on_grid(mesh, self.verts.verts(), &motion))
        } else {
            Ok(Some(Refusal {
                why: Why::BadValue,
                place: Place::Nowhere,
            }))
        }
    }

    fn change(&self, alloc: Global, mesh: &mut Mesh) -> Result<Slots, NoMemory> {
        let motion = Scaling {
            about: self.about,
            num: self.num,
            den: self.den,
        };
        let geom = only_verts(alloc, self.verts.verts())?;
        move_verts(mesh, self.verts.verts(), &motion)?;
        Ok(only(alloc, geom))
    }
}
