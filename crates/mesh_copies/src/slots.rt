//! What a copied set gives back.
ghost use Rattle.std.specs.Prelude.{◌≡◌, ◌+◌, ◌≤◌, map, length, IfOk};
ghost use Rattle.std.specs.List.{range_with_len};
ghost use Rattle.mesh_model.specs.Naming.{fresh_vert};
ghost use Rattle.mesh_copies.specs.CopyingSteps.{copies_after, pairs_after, slots_after, HasNames};
ghost use Rattle.mesh_model.specs.declared.limits.TheConstants.{MAX_VERTS, MAX_EDGES, MAX_FACES};

use crate::names::vert_after;
use mesh_core::{EdgeName, FaceName, NoMemory, VertName};
use mesh_model::Counters;
use op_slots::{Buffer, Mapping, Pair, Slots};
use sequence::Sequence;
use std::alloc::Global;

/// The copies of a set, and where each vertex went, by the next names before the copies are made, in time k log k for the
/// k elements of the set.
pub(crate) fn slots_after(alloc: Global, set: &Buffer, next: Counters) -> Result<Slots, NoMemory>
    requires { HasNames next set.now }
    ensures { IfOk result (λ x. x ≡ slots_after next set.now) }
{
    let geom = copies_after(alloc, set, next)?;
    let map = pairs_after(alloc, set, next)?;
    Ok(Slots { geom, map })
}

// The copies of a set.
fn copies_after(alloc: Global, set: &Buffer, next: Counters) -> Result<Buffer, NoMemory>
    requires { HasNames next set.now }
    ensures { IfOk result (λ x. x ≡ copies_after next set.now) }
{
    let verts = verts_from(alloc, next.verts, set.verts().len() as u32)?;
    let edges = edges_from(alloc, next.edges, set.edges().len() as u32)?;
    let faces = faces_from(alloc, next.faces, set.faces().len() as u32)?;
    Ok(Buffer::of(
        Sequence::from(verts),
        Sequence::from(edges),
        Sequence::from(faces),
    ))
}

fn vert_named(n: u32) -> VertName
    ensures { result ≡ record { 0 = n } }
{
    VertName(n)
}

// So many vertices from a number on.
fn verts_from(alloc: Global, first: u32, count: u32) -> Result<Vec<VertName>, NoMemory>
    requires { first + count ≤ MAX_VERTS }
    ensures { IfOk result (λ vs. vs.items ≡ map (λ n. record { 0 = n }) (range_with_len first count)) }
{
    (first..first + count).map(vert_named).collect(alloc)
}

fn edge_named(n: u32) -> EdgeName
    ensures { result ≡ record { 0 = n } }
{
    EdgeName(n)
}

// So many edges from a number on.
fn edges_from(alloc: Global, first: u32, count: u32) -> Result<Vec<EdgeName>, NoMemory>
    requires { first + count ≤ MAX_EDGES }
    ensures { IfOk result (λ es. es.items ≡ map (λ n. record { 0 = n }) (range_with_len first count)) }
{
    (first..first + count).map(edge_named).collect(alloc)
}

fn face_named(n: u32) -> FaceName
    ensures { result ≡ record { 0 = n } }
{
    FaceName(n)
}

// So many faces from a number on.
fn faces_from(alloc: Global, first: u32, count: u32) -> Result<Vec<FaceName>, NoMemory>
    requires { first + count ≤ MAX_FACES }
    ensures { IfOk result (λ fs. fs.items ≡ map (λ n. record { 0 = n }) (range_with_len first count)) }
{
    (first..first + count).map(face_named).collect(alloc)
}

// Each vertex of a set with its copy.
fn pairs_after(alloc: Global, set: &Buffer, next: Counters) -> Result<Mapping, NoMemory>
    requires { HasNames next set.now }
    ensures { IfOk result (λ m. m ≡ pairs_after next set.now) }
{
    let mut pairs = Mapping::new(alloc);
    let verts = set.verts();
    for v in verts {
        let target = vert_after(set, next, *v);
        pairs.push(Pair { source: *v, target })?;
    }
    Ok(pairs)
}
