//! Faces copied.
ghost use Rattle.std.specs.Prelude.{◌≡◌, ◌+◌, ◌<◌, ◌≤◌, ◌^◌, ◌∷◌, [], length, map, IfOk, OnOk};
ghost use Rattle.std.specs.List.{All, flat_map};
ghost use Rattle.mesh_model.specs.Table.{at, IsThere};
ghost use Rattle.mesh_model.specs.Complex.{corners_of, corner_sum};
ghost use Rattle.mesh_model.specs.Valid.{IsLinked};
ghost use Rattle.mesh_core.specs.Seen.{now};
ghost use Rattle.mesh_copies.specs.Copying.{copied_corner};
ghost use Rattle.mesh_copies.specs.CopyingSteps.{vert_after, edge_after, HasNames, with_face_copies, IsFaceCopyLinked};
ghost use Rattle.mesh_copies.specs.CopyingSteps.{corners_in};

use crate::names::{edge_after, vert_after};
use mesh_core::{EdgeName, FaceName, Kind, Mesh, NoMemory, Shape, VertName};
use mesh_model::limits::MAX_FACES;
use mesh_model::{CornerRec, Counters, read_corners};
use op_slots::Buffer;
use sequence::Sequence;
use std::alloc::Global;

/// Copies live faces of a set, whose vertices and edges have copies, with all values, in time that grows with the corners
/// of the faces and the logarithm of the set. After `NoMemory` some of them may be copied.
#[tactic(auto, using(crate::proofs::Copyings::faces_none))]
pub(crate) fn copy_faces(
    alloc: Global,
    mesh: &mut Mesh,
    faces: &[FaceName],
    set: &Buffer,
    next: Counters,
) -> Result<(), NoMemory>
    requires live { All (λ f. IsThere (now mesh.old).faces f.0) faces.now }
    requires linked { All (IsFaceCopyLinked (vert_after next set.now) (edge_after next set.now) (now mesh.old)) faces.now }
    requires named { HasNames next set.now }
    requires limit { length (now mesh.old).faces + length faces.now ≤ MAX_FACES }
    requires few { corner_sum (now mesh.old).faces + corners_in (now mesh.old) faces.now ≤ 2 ^ 24 }
    ensures now { OnOk result (now mesh.new
        ≡ with_face_copies (vert_after next set.now) (edge_after next set.now) (now mesh.old) faces.now) }
    ensures base { mesh.new.base ≡ mesh.old.base }
{
    for f in faces {
        copy_face(alloc, mesh, *f, set, next)?;
    }
    Ok(())
}

// Copies a face: the copy is made with its first corner, and then gets all corners with their values.
fn copy_face(
    alloc: Global,
    mesh: &mut Mesh,
    f: FaceName,
    set: &Buffer,
    next: Counters,
) -> Result<(), NoMemory>
    requires live { IsThere (now mesh.old).faces f.0 }
    requires linked { IsFaceCopyLinked (vert_after next set.now) (edge_after next set.now) (now mesh.old) f }
    requires named { HasNames next set.now }
    requires limit { length (now mesh.old).faces < MAX_FACES }
    requires few { corner_sum (now mesh.old).faces + length (corners_of (at (now mesh.old).faces f.0)) ≤ 2 ^ 24 }
    ensures now { OnOk result (now mesh.new
        ≡ with_face_copies (vert_after next set.now) (edge_after next set.now) (now mesh.old) (f ∷ [])) }
    ensures base { mesh.new.base ≡ mesh.old.base }
{
    let corners = copied_corners(alloc, mesh, f, set, next)?;
    let first = &corners[0];
    let copy = mesh.make_face(&[(first.vert, first.edge)], Some(f))?;
    mesh.reface(copy, &corners)?;
    Ok(())
}

// The corners of a live face's copy, in order.
fn copied_corners(
    alloc: Global,
    mesh: &Mesh,
    f: FaceName,
    set: &Buffer,
    next: Counters,
) -> Result<Vec<CornerRec>, NoMemory>
    requires live { IsThere (now mesh.now).faces f.0 }
    requires named { HasNames next set.now }
    ensures { IfOk result (λ ks. ks.items ≡ map (copied_corner (vert_after next set.now) (edge_after next set.now))
        (corners_of (at (now mesh.now).faces f.0))) }
{
    let _ = mesh.counters();
    let mut sides = Vec::new(alloc);
    let mut numbers = Vec::new(alloc);
    read_corners(mesh, f, &mut sides, &mut numbers)?;
    corners_with(alloc, mesh, f, &sides, &numbers, set, next)
}

// The same, by what was read of the corners: their vertices and edges, and their rows of values one behind another.
fn corners_with(
    alloc: Global,
    mesh: &Mesh,
    f: FaceName,
    sides: &[(VertName, EdgeName)],
    numbers: &[i64],
    set: &Buffer,
    next: Counters,
) -> Result<Vec<CornerRec>, NoMemory>
    requires linked { IsLinked (now mesh.now) }
    requires live { IsThere (now mesh.now).faces f.0 }
    requires sides { sides.now ≡ map (λ k. (k.vert, k.edge)) (corners_of (at (now mesh.now).faces f.0)) }
    requires numbers { numbers.now ≡ flat_map (λ k. k.vals) (corners_of (at (now mesh.now).faces f.0)) }
    requires named { HasNames next set.now }
    ensures { IfOk result (λ ks. ks.items ≡ map (copied_corner (vert_after next set.now) (edge_after next set.now))
        (corners_of (at (now mesh.now).faces f.0))) }
{
    let width = mesh.width(Kind::Corners);
    let mut corners = Vec::new(alloc);
    for i in 0..sides.len() {
        let start = i * width;
        let corner = copied_corner(alloc, sides[i], &numbers[start..start + width], set, next)?;
        corners.push(corner)?;
    }
    Ok(corners)
}

// The copy of a corner, by its vertex and edge and its values.
fn copied_corner(
    alloc: Global,
    side: (VertName, EdgeName),
    vals: &[i64],
    set: &Buffer,
    next: Counters,
) -> Result<CornerRec, NoMemory>
    requires { HasNames next set.now }
    ensures { IfOk result (λ k. k ≡ record {
      vert = vert_after next set.now side.0;
      edge = edge_after next set.now side.1;
      vals = vals.now;
    }) }
{
    let vals = Sequence::of(alloc, vals)?;
    Ok(CornerRec {
        vert: vert_after(set, next, side.0),
        edge: edge_after(set, next, side.1),
        vals,
    })
}
