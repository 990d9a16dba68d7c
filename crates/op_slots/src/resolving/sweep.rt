//! The elements that are there at the numbers of some spans.
ghost use Rattle.std.specs.Prelude.{◌≡◌, ◌≤◌, ◌<◌, ◌+◌, ◌++◌, [], ◌∷◌, if◌then◌else◌, length, min, take, OnOk, IfOk};
ghost use Rattle.std.specs.List.Sorted.{IsNonDecreasingBy};
ghost use Rattle.mesh_model.specs.Complex.{Complex};
ghost use Rattle.op_slots.specs.Values.{is_live, next_of};
ghost use Rattle.op_slots.specs.Spans.{ArePassed, found_below};

use super::spans::Span;
use mesh_model::{EdgeName, Elem, FaceName, Kind, Shape, VertName};
use sequence::NoMemory;
use std::alloc::Global;

/// The numbers in some spans at which an element of a kind is there, rising. The spans come by their first
/// numbers. `next` is the next number of the kind. Looks at each number that they span once, however many of them
/// span it.
pub(crate) fn swept<S: Shape>(
    alloc: Global,
    shape: &S,
    kind: Kind,
    next: u32,
    spans: &[Span],
) -> Result<Vec<u32>, NoMemory>
    requires sorted { IsNonDecreasingBy (λ s. s.first) spans.now }
    requires next { next ≡ next_of (S.complex shape.now) kind }
    ensures { IfOk result (λ ns.
        ns.items ≡ found_below (S.complex shape.now) kind spans.now (next_of (S.complex shape.now) kind)) }
{
    let mut found = Vec::new(alloc);
    let mut from = 0;
    for k in 0..spans.len() {
        from = sweep_span(shape, kind, next, spans, k, from, &mut found)?;
    }
    Ok(found)
}

// Takes in the numbers of the span at a position, from a number on below which all is taken in. Gives the
// number below which all is then taken in.
fn sweep_span<S: Shape>(
    shape: &S,
    kind: Kind,
    next: u32,
    spans: &[Span],
    k: usize,
    from: u32,
    found: &mut Vec<u32>,
) -> Result<u32, NoMemory>
    requires sorted { IsNonDecreasingBy (λ s. s.first) spans.now }
    requires next { next ≡ next_of (S.complex shape.now) kind }
    requires within { k < length spans.now }
    requires passed { ArePassed (take k spans.now) from (next_of (S.complex shape.now) kind) }
    requires below { from ≤ next_of (S.complex shape.now) kind }
    requires found { found.old.items ≡ found_below (S.complex shape.now) kind spans.now from }
    ensures passed { IfOk result (λ to. ArePassed (take (k + 1) spans.now) to (next_of (S.complex shape.now) kind)) }
    ensures below { IfOk result (λ to. to ≤ next_of (S.complex shape.now) kind) }
    ensures found { IfOk result (λ to. found.new.items ≡ found_below (S.complex shape.now) kind spans.now to) }
{
    let span = spans[k];
    let start = from.max(span.first);
    let end = end_of(span, next);
    if end <= start {
        return Ok(from.max(end));
    }
    for n in start..end {
        add_live(shape, kind, n, found)?;
    }
    Ok(end)
}

// Appends a number where an element is there.
fn add_live<S: Shape>(shape: &S, kind: Kind, n: u32, found: &mut Vec<u32>) -> Result<(), NoMemory>
    ensures { OnOk result (found.new.items
        ≡ (if is_live (S.complex shape.now) kind n then found.old.items ++ n ∷ [] else found.old.items)) }
{
    if is_live(shape, kind, n) {
        found.push(n)?;
    }
    Ok(())
}

// The number behind the last of a span, or the next one of the kind where that comes first.
fn end_of(span: Span, next: u32) -> u32
    ensures { result ≡ min (span.last + 1) next }
{
    if span.last < next {
        span.last + 1
    } else {
        next
    }
}

/// The next number of a kind.
pub(crate) fn next_of<S: Shape>(shape: &S, kind: Kind) -> u32
    ensures { result ≡ next_of (S.complex shape.now) kind }
{
    let counters = shape.counters();
    match kind {
        Kind::Verts => counters.verts,
        Kind::Edges => counters.edges,
        Kind::Corners => 0,
        Kind::Faces => counters.faces,
    }
}

fn is_live<S: Shape>(shape: &S, kind: Kind, n: u32) -> bool
    ensures { result ≡ is_live (S.complex shape.now) kind n }
{
    match kind {
        Kind::Verts => shape.has(Elem::Vert(VertName(n))),
        Kind::Edges => shape.has(Elem::Edge(EdgeName(n))),
        Kind::Corners => false,
        Kind::Faces => shape.has(Elem::Face(FaceName(n))),
    }
}
