//! The union of what terms stand for.
ghost use Rattle.std.specs.Prelude.{◌≡◌, map, IfOk};
ghost use Rattle.mesh_model.specs.Complex.{Complex};
ghost use Rattle.op_slots.specs.Values.{chosen, union};

use super::spans::spans_of;
use super::sweep::{next_of, swept};
use super::want::Want;
use crate::bindings::Bindings;
use crate::buffer::Buffer;
use crate::term::Term;
use mesh_model::{EdgeName, FaceName, Kind, Shape, VertName};
use sequence::{NoMemory, Sequence};
use std::alloc::Global;

/// The elements for which some terms stand.
pub(crate) fn union<S: Shape>(
    alloc: Global,
    terms: &[Term],
    want: Want,
    shape: &S,
    bindings: &Bindings,
) -> Result<Buffer, NoMemory>
    ensures { IfOk result (λ x. x ≡ union (S.complex shape.now) bindings.now.bound want terms.now) }
{
    let verts = chosen(alloc, terms, want, Kind::Verts, shape, bindings)?;
    let verts = vert_names(alloc, &verts)?;
    let edges = chosen(alloc, terms, want, Kind::Edges, shape, bindings)?;
    let edges = edge_names(alloc, &edges)?;
    let faces = chosen(alloc, terms, want, Kind::Faces, shape, bindings)?;
    let faces = face_names(alloc, &faces)?;
    Ok(Buffer::of(
        Sequence::from(verts),
        Sequence::from(edges),
        Sequence::from(faces),
    ))
}

fn vert_named(n: u32) -> VertName
    ensures { result ≡ record { 0 = n } }
{
    VertName(n)
}

fn vert_names(alloc: Global, numbers: &[u32]) -> Result<Vec<VertName>, NoMemory>
    ensures { IfOk result (λ vs. vs.items ≡ map (λ n. record { 0 = n }) numbers.now) }
{
    numbers.iter().map(|n| vert_named(*n)).collect(alloc)
}

fn edge_named(n: u32) -> EdgeName
    ensures { result ≡ record { 0 = n } }
{
    EdgeName(n)
}

fn edge_names(alloc: Global, numbers: &[u32]) -> Result<Vec<EdgeName>, NoMemory>
    ensures { IfOk result (λ es. es.items ≡ map (λ n. record { 0 = n }) numbers.now) }
{
    numbers.iter().map(|n| edge_named(*n)).collect(alloc)
}

fn face_named(n: u32) -> FaceName
    ensures { result ≡ record { 0 = n } }
{
    FaceName(n)
}

fn face_names(alloc: Global, numbers: &[u32]) -> Result<Vec<FaceName>, NoMemory>
    ensures { IfOk result (λ fs. fs.items ≡ map (λ n. record { 0 = n }) numbers.now) }
{
    numbers.iter().map(|n| face_named(*n)).collect(alloc)
}

fn chosen<S: Shape>(
    alloc: Global,
    terms: &[Term],
    want: Want,
    kind: Kind,
    shape: &S,
    bindings: &Bindings,
) -> Result<Vec<u32>, NoMemory>
    ensures { IfOk result (λ ns. ns.items ≡ chosen (S.complex shape.now) bindings.now.bound want terms.now kind) }
{
    let mut spans = spans_of(alloc, terms, want, kind, bindings)?;
    spans.sort_by_key(|s| s.first)?;
    let next = next_of(shape, kind);
    let found = swept(alloc, shape, kind, next, &spans)?;
    Ok(found)
}
