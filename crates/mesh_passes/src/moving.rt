//! Vertices moved, as one change.
ghost use Rattle.std.specs.Prelude.{◌≡◌, true, IsTrue, OnOk, Some, None, if◌then◌else◌};
ghost use Rattle.std.specs.List.{All};
ghost use Rattle.mesh_model.specs.Table.{at, passes, IsThere};
ghost use Rattle.mesh_model.specs.Naming.{is_rising, vert_numbers};
ghost use Rattle.mesh_model.specs.Valid.{IsValid, is_on_grid};
ghost use Rattle.mesh_model.specs.declared.records.Point.{Point};
ghost use Rattle.mesh_core.specs.Seen.{now};
ghost use Rattle.mesh_passes.specs.Moving.{first_leaving, leaves, stays_on_grid, moved_one, moved, unless_on_grid};

use mesh_core::{Elem, Mesh, NoMemory, Point, Shape, VertName};
use mesh_model::{Place, Refusal, Why};

/// A motion of points.
pub trait Motion {
    /// Where each point goes, on the grid or off it.
    ghost to: { Self → Point → Point };

    /// Where a point of the grid goes, and `None` exactly where that is off the grid.
    fn moved(&self, p: Point) -> Option<Point>
        requires { IsTrue (is_on_grid p) }
        ensures { result ≡ (if is_on_grid (to self.now p) then Some (to self.now p) else None) };
}

/// The first of some live vertices of a valid complex that would leave the grid, in time that grows with the vertices.
pub fn first_leaving<M: Motion>(mesh: &Mesh, verts: &[VertName], motion: &M) -> Option<VertName>
    requires valid { IsValid (now mesh.now) }
    requires live { All (λ v. IsThere (now mesh.now).verts v.0) verts.now }
    ensures { result ≡ first_leaving (M.to motion.now) (now mesh.now) verts.now }
{
    for v in verts {
        if leaves(mesh, *v, motion) {
            return Some(*v);
        }
    }
    None
}

// Whether a live vertex of a valid complex would leave the grid.
fn leaves<M: Motion>(mesh: &Mesh, v: VertName, motion: &M) -> bool
    requires valid { IsValid (now mesh.now) }
    requires live { IsThere (now mesh.now).verts v.0 }
    ensures { result ≡ passes (leaves (M.to motion.now)) (at (now mesh.now).verts v.0) }
{
    let p = mesh.point(v);
    match motion.moved(p) {
        Some(_) => false,
        None => true,
    }
}

/// The refusal at the least of some live vertices of a valid complex that would leave the grid, by rising name.
pub fn unless_on_grid<M: Motion>(mesh: &Mesh, verts: &[VertName], motion: &M) -> Option<Refusal>
    requires valid { IsValid (now mesh.now) }
    requires live { All (λ v. IsThere (now mesh.now).verts v.0) verts.now }
    ensures { result ≡ unless_on_grid (M.to motion.now) (now mesh.now) verts.now }
{
    match first_leaving(mesh, verts, motion) {
        Some(v) => Some(Refusal {
            why: Why::OutOfGrid,
            place: Place::Elem(Elem::Vert(v)),
        }),
        None => None,
    }
}

/// Moves live vertices of a valid complex, none of which leaves the grid, in constant time each. After `NoMemory` some
/// of them may have moved.
#[tactic(auto, using(crate::proofs::Movings::moved_none, crate::proofs::Movings::moved_more, crate::proofs::Movings::moved_stays, crate::proofs::Movings::moved_live))]
pub fn move_verts<M: Motion>(
    mesh: &mut Mesh,
    verts: &[VertName],
    motion: &M,
) -> Result<(), NoMemory>
    requires valid { IsValid (now mesh.old) }
    requires live { All (λ v. IsThere (now mesh.old).verts v.0) verts.now }
    requires rising { IsTrue (is_rising (vert_numbers verts.now)) }
    requires stays { first_leaving (M.to motion.now) (now mesh.old) verts.now ≡ None }
    ensures now { OnOk result (now mesh.new ≡ moved (M.to motion.now) (now mesh.old) verts.now) }
    ensures base { mesh.new.base ≡ mesh.old.base }
{
    for v in verts {
        move_vert(mesh, *v, motion)?;
    }
    Ok(())
}

// Moves a vertex that stays on the grid.
#[tactic(auto, unfolding(crate::specs::Moving::moved_one))]
fn move_vert<M: Motion>(mesh: &mut Mesh, v: VertName, motion: &M) -> Result<(), NoMemory>
    requires { passes (stays_on_grid (M.to motion.now)) (at (now mesh.old).verts v.0) ≡ true }
    ensures now { OnOk result (now mesh.new ≡ moved_one (M.to motion.now) (now mesh.old) v) }
    ensures base { mesh.new.base ≡ mesh.old.base }
{
    let p = mesh.point(v);
    match motion.moved(p) {
        Some(q) => mesh.set_point(v, q),
        None => unreachable!(),
    }
}
