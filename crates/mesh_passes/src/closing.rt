//! The closure of a set.
ghost use Rattle.std.specs.Prelude.{◌≡◌, ◌++◌, map, IfOk, OnOk};
ghost use Rattle.std.specs.List.{All};
ghost use Rattle.mesh_model.specs.Table.{at, IsThere};
ghost use Rattle.mesh_model.specs.Complex.{corners_of};
ghost use Rattle.mesh_model.specs.Closure.{AreLive, closure, closure_faces, closure_edges, closure_verts};
ghost use Rattle.mesh_core.specs.Seen.{now};
ghost use Rattle.mesh_passes.specs.Closing.{side_numbers, end_numbers, edges_reached, verts_reached};

use crate::names::{
    edges_named, faces_named, numbers_of_edges, numbers_of_faces, numbers_of_verts, risen,
    verts_named,
};
use mesh_core::{EdgeName, FaceName, Mesh, NoMemory, Shape, VertName};
use op_slots::Buffer;
use sequence::Sequence;
use std::alloc::Global;

/// The live elements of a set with the edges of its faces and the ends of all these edges, in time k log k for the k
/// elements and corners of the closure, and never in a pass over the mesh.
pub fn closure(alloc: Global, mesh: &Mesh, set: &Buffer) -> Result<Buffer, NoMemory>
    requires { AreLive (now mesh.now) set.now }
    ensures closure { IfOk result (λ s. s ≡ closure (now mesh.now) set.now) }
    ensures live { IfOk result (λ s. AreLive (now mesh.now) s) }
{
    let _ = mesh.counters();
    let faces = faces_of(alloc, mesh, set)?;
    let edges = edges_of(alloc, mesh, set)?;
    let verts = verts_of(alloc, mesh, set, &edges)?;
    Ok(Buffer::of(
        Sequence::from(verts),
        Sequence::from(edges),
        Sequence::from(faces),
    ))
}

// The faces of a closure.
fn faces_of(alloc: Global, mesh: &Mesh, set: &Buffer) -> Result<Vec<FaceName>, NoMemory>
    requires { AreLive (now mesh.now) set.now }
    ensures { IfOk result (λ fs. fs.items ≡ closure_faces (now mesh.now) set.now) }
{
    let numbers = numbers_of_faces(alloc, set.faces())?;
    let faces = faces_named(alloc, &numbers)?;
    Ok(faces)
}

// The edges of a closure.
fn edges_of(alloc: Global, mesh: &Mesh, set: &Buffer) -> Result<Vec<EdgeName>, NoMemory>
    requires { AreLive (now mesh.now) set.now }
    ensures { IfOk result (λ es. es.items ≡ closure_edges (now mesh.now) set.now) }
{
    let _ = mesh.counters();
    let numbers = edges_reached(alloc, mesh, set.edges(), set.faces())?;
    let numbers = risen(numbers);
    let edges = edges_named(alloc, &numbers)?;
    Ok(edges)
}

// The vertices of a closure, by its edges.
fn verts_of(
    alloc: Global,
    mesh: &Mesh,
    set: &Buffer,
    edges: &[EdgeName],
) -> Result<Vec<VertName>, NoMemory>
    requires live { AreLive (now mesh.now) set.now }
    requires edges { edges.now ≡ closure_edges (now mesh.now) set.now }
    ensures { IfOk result (λ vs. vs.items ≡ closure_verts (now mesh.now) set.now) }
{
    let _ = mesh.counters();
    let numbers = verts_reached(alloc, mesh, set.verts(), edges)?;
    let numbers = risen(numbers);
    let verts = verts_named(alloc, &numbers)?;
    Ok(verts)
}

// The numbers of some edges and of those along some faces.
#[tactic(auto, using(crate::proofs::Reached::edges_none, crate::proofs::Reached::edges_more))]
fn edges_reached(
    alloc: Global,
    mesh: &Mesh,
    edges: &[EdgeName],
    faces: &[FaceName],
) -> Result<Vec<u32>, NoMemory>
    requires { All (λ f. IsThere (now mesh.now).faces f.0) faces.now }
    ensures { IfOk result (λ ns. ns.items ≡ edges_reached (now mesh.now) edges.now faces.now) }
{
    let mut numbers = numbers_of_edges(alloc, edges)?;
    for f in faces {
        push_sides(alloc, mesh, *f, &mut numbers)?;
    }
    Ok(numbers)
}

// The numbers of some vertices and of the ends of some edges.
#[tactic(auto, using(crate::proofs::Reached::verts_none, crate::proofs::Reached::verts_more))]
fn verts_reached(
    alloc: Global,
    mesh: &Mesh,
    verts: &[VertName],
    edges: &[EdgeName],
) -> Result<Vec<u32>, NoMemory>
    requires { All (λ e. IsThere (now mesh.now).edges e.0) edges.now }
    ensures { IfOk result (λ ns. ns.items ≡ verts_reached (now mesh.now) verts.now edges.now) }
{
    let mut numbers = numbers_of_verts(alloc, verts)?;
    for e in edges {
        push_ends(mesh, *e, &mut numbers)?;
    }
    Ok(numbers)
}

// Appends the numbers of the edges along a face.
fn push_sides(
    alloc: Global,
    mesh: &Mesh,
    f: FaceName,
    numbers: &mut Vec<u32>,
) -> Result<(), NoMemory>
    requires { IsThere (now mesh.now).faces f.0 }
    ensures { OnOk result (numbers.new.items ≡ numbers.old.items ++ side_numbers (at (now mesh.now).faces f.0)) }
{
    let corners = corners_of(alloc, mesh, f)?;
    for k in corners.as_slice() {
        numbers.push(k.1.0)?;
    }
    Ok(())
}

// Appends the numbers of the ends of an edge.
fn push_ends(mesh: &Mesh, e: EdgeName, numbers: &mut Vec<u32>) -> Result<(), NoMemory>
    requires { IsThere (now mesh.now).edges e.0 }
    ensures { OnOk result (numbers.new.items ≡ numbers.old.items ++ end_numbers (at (now mesh.now).edges e.0)) }
{
    let [a, b] = mesh.ends(e);
    numbers.push(a.0)?;
    numbers.push(b.0)?;
    Ok(())
}

/// The vertices and edges of a live face's corners, in order, in one walk round it.
pub fn corners_of(
    alloc: Global,
    mesh: &Mesh,
    f: FaceName,
) -> Result<Vec<(VertName, EdgeName)>, NoMemory>
    requires { IsThere (now mesh.now).faces f.0 }
    ensures { IfOk result (λ ks. ks.items ≡ map (λ k. (k.vert, k.edge)) (corners_of (at (now mesh.now).faces f.0))) }
{
    let count = mesh.corner_count(f) as usize;
    let mut corners = vec![in alloc; (VertName(0), EdgeName(0)); count]?;
    mesh.corners(f, &mut corners);
    Ok(corners)
}
