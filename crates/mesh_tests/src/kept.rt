//! What is kept of changes.
ghost use Rattle.std.specs.Prelude.{◌≡◌, IsTrue};
ghost use Rattle.mesh_trail.specs.Pasts.{widths_of};

use crate::steps::Kept;
use mesh_model::{Elem, Kind, NoMemory, Shape};
use mesh_trail::Past;
use std::alloc::Global;

/// Whether two shapes have the same next names, and the same elements with the same records.
pub(crate) fn same<B: Shape, A: Shape>(
    alloc: Global,
    before: &B,
    after: &A,
) -> Result<bool, NoMemory> {
    if before.counters() != after.counters() || !are_as_wide(alloc, before, after) {
        return Ok(false);
    }
    are_alike(alloc, before, after)
}

// Two shapes have rows of the same widths.
fn are_as_wide<B: Shape, A: Shape>(alloc: Global, before: &B, after: &A) -> bool
    ensures { IsTrue result → widths_of (B.complex before.now) ≡ widths_of (A.complex after.now) }
{
    Past::new(alloc, before).fits(after)
}

// The same elements with the same records.
fn are_alike<B: Shape, A: Shape>(alloc: Global, before: &B, after: &A) -> Result<bool, NoMemory>
    requires { widths_of (B.complex before.now) ≡ widths_of (A.complex after.now) }
{
    let past = Past::between(alloc, before, after)?;
    Ok(entries(&past) == 0)
}

// The number of notes.
fn entries(past: &Past) -> usize {
    past.entries(Kind::Verts)
        .saturating_add(past.entries(Kind::Edges))
        .saturating_add(past.entries(Kind::Faces))
}

/// Whether a past has these notes and no others.
pub(crate) fn is_kept(past: &Past, wanted: &Kept) -> bool {
    entries(past) == wanted.were.len().saturating_add(wanted.came.len())
        && past.counters() == wanted.next
        && have_records(past, wanted.were)
        && were_absent(past, wanted.came)
}

fn have_records(past: &Past, elems: &[Elem]) -> bool {
    elems.iter().all(|x| past.has(*x) && !past.was_absent(*x))
}

fn were_absent(past: &Past, elems: &[Elem]) -> bool {
    elems.iter().all(|x| past.has(*x) && past.was_absent(*x))
}
