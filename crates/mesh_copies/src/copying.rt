//! A closed set copied.
ghost use Rattle.std.specs.Prelude.{◌≡◌, ◌+◌, ◌<◌, ◌≤◌, ◌^◌, ◌∷◌, [], length, IfOk, OnOk};
ghost use Rattle.std.specs.List.{All};
ghost use Rattle.mesh_model.specs.Table.{IsThere};
ghost use Rattle.mesh_model.specs.Complex.{corner_sum, counters_of};
ghost use Rattle.mesh_model.specs.Closure.{AreLive, closure};
ghost use Rattle.mesh_model.specs.Valid.{IsValid, IsSound, IsWithinLimits};
ghost use Rattle.mesh_core.specs.Seen.{now};
ghost use Rattle.mesh_copies.specs.Copying.{with_copies, copy_slots};
ghost use Rattle.mesh_copies.specs.CopyingSteps.{vert_after, HasNames, with_vert_copies, with_edge_copies};
ghost use Rattle.mesh_copies.specs.CopyingSteps.{IsEdgeCopyLinked};

use crate::faces::copy_faces;
use crate::names::vert_after;
use crate::slots::slots_after;
use mesh_core::{EdgeName, Mesh, NoMemory, Shape, VertName};
use mesh_model::Counters;
use mesh_model::limits::{MAX_EDGES, MAX_VERTS};
use op_slots::{Buffer, Slots};
use std::alloc::Global;

/// Copies the live elements of a set that is its own closure: vertices, edges and faces in this order, each kind by
/// rising name, with all values. The copies have the next names, and what they name are copies too. Gives the copies
/// back, and where each vertex went.
///
/// There must be names for the copies, and the mesh then has at most 16,777,216 corners. It takes time that grows with
/// the elements and corners of the set and with the logarithm of their number; never a pass over the mesh. After
/// `NoMemory` a part of the set may be copied.
pub fn copy_set(alloc: Global, mesh: &mut Mesh, set: &Buffer) -> Result<Slots, NoMemory>
    requires valid { IsValid (now mesh.old) }
    requires live { AreLive (now mesh.old) set.now }
    requires closed { closure (now mesh.old) set.now ≡ set.now }
    requires names { HasNames (counters_of (now mesh.old)) set.now }
    requires few { corner_sum (with_copies (now mesh.old) set.now).faces ≤ 2 ^ 24 }
    ensures now { OnOk result (now mesh.new ≡ with_copies (now mesh.old) set.now) }
    ensures slots { IfOk result (λ x. x ≡ copy_slots (now mesh.old) set.now) }
    ensures sound { OnOk result (IsSound (now mesh.old) → IsWithinLimits (now mesh.new) → IsSound (now mesh.new)) }
    ensures base { mesh.new.base ≡ mesh.old.base }
{
    let next = mesh.counters();
    let slots = slots_after(alloc, set, next)?;
    copy_verts(mesh, set.verts())?;
    copy_edges(mesh, set.edges(), set, next)?;
    copy_faces(alloc, mesh, set.faces(), set, next)?;
    Ok(slots)
}

// Copies live vertices with their values, in constant time each. After `NoMemory` some of them may be copied.
#[tactic(auto, using(crate::proofs::Copyings::verts_none))]
fn copy_verts(mesh: &mut Mesh, verts: &[VertName]) -> Result<(), NoMemory>
    requires live { All (λ v. IsThere (now mesh.old).verts v.0) verts.now }
    requires limit { length (now mesh.old).verts + length verts.now ≤ MAX_VERTS }
    ensures now { OnOk result (now mesh.new ≡ with_vert_copies (now mesh.old) verts.now) }
    ensures base { mesh.new.base ≡ mesh.old.base }
{
    for v in verts {
        copy_vert(mesh, *v)?;
    }
    Ok(())
}

// Copies a live vertex.
fn copy_vert(mesh: &mut Mesh, v: VertName) -> Result<(), NoMemory>
    requires live { IsThere (now mesh.old).verts v.0 }
    requires limit { length (now mesh.old).verts < MAX_VERTS }
    ensures now { OnOk result (now mesh.new ≡ with_vert_copies (now mesh.old) (v ∷ [])) }
    ensures base { mesh.new.base ≡ mesh.old.base }
{
    let p = mesh.point(v);
    mesh.make_vert(p, Some(v))?;
    Ok(())
}

// Copies live edges of a set, whose vertices have copies, with their values. It takes time that grows with the edges and
// the logarithm of the set. After `NoMemory` some of them may be copied.
#[tactic(auto, using(crate::proofs::Copyings::edges_none))]
fn copy_edges(
    mesh: &mut Mesh,
    edges: &[EdgeName],
    set: &Buffer,
    next: Counters,
) -> Result<(), NoMemory>
    requires live { All (λ e. IsThere (now mesh.old).edges e.0) edges.now }
    requires linked { All (IsEdgeCopyLinked (vert_after next set.now) (now mesh.old)) edges.now }
    requires named { HasNames next set.now }
    requires limit { length (now mesh.old).edges + length edges.now ≤ MAX_EDGES }
    ensures now { OnOk result (now mesh.new
        ≡ with_edge_copies (vert_after next set.now) (now mesh.old) edges.now) }
    ensures base { mesh.new.base ≡ mesh.old.base }
{
    for e in edges {
        copy_edge(mesh, *e, set, next)?;
    }
    Ok(())
}

// Copies a live edge.
fn copy_edge(mesh: &mut Mesh, e: EdgeName, set: &Buffer, next: Counters) -> Result<(), NoMemory>
    requires live { IsThere (now mesh.old).edges e.0 }
    requires linked { IsEdgeCopyLinked (vert_after next set.now) (now mesh.old) e }
    requires named { HasNames next set.now }
    requires limit { length (now mesh.old).edges < MAX_EDGES }
    ensures now { OnOk result (now mesh.new
        ≡ with_edge_copies (vert_after next set.now) (now mesh.old) (e ∷ [])) }
    ensures base { mesh.new.base ≡ mesh.old.base }
{
    let [a, b] = mesh.ends(e);
    let from = vert_after(set, next, a);
    let to = vert_after(set, next, b);
    mesh.make_edge(from, to, Some(e))?;
    Ok(())
}
