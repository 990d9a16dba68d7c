//! The spans of numbers for which terms stand.
ghost use Rattle.std.specs.Prelude.{◌≡◌, ◌<◌, ◌==◌, ◌&&◌, length, slice_get, Some, OnOk, IfOk};
ghost use Rattle.std.specs.List.{list_any};
ghost use Rattle.op_slots.specs.Values.{number_of, numbers_of, covers, stands_for};
ghost use Rattle.op_slots.specs.Spans.{is_in, Adds, Hold};

use super::refusals::{is_kind, kind_of, takes};
use super::want::Want;
use crate::bindings::Bindings;
use crate::slots::Slots;
use crate::term::Term;
use mesh_model::{Elem, Kind};
use sequence::NoMemory;
use std::alloc::Global;

/// Numbers from the first to the last, both included.
#[derive(Clone, Copy, Debug, PartialEq, Eq)]
pub(crate) struct Span {
    pub(crate) first: u32,
    pub(crate) last: u32,
}

/// The spans for which some terms stand, among the elements of a kind.
pub(crate) fn spans_of(
    alloc: Global,
    terms: &[Term],
    want: Want,
    kind: Kind,
    bindings: &Bindings,
) -> Result<Vec<Span>, NoMemory>
    ensures { IfOk result (λ spans. Hold spans.items (λ n.
        list_any (stands_for bindings.now.bound want kind n) terms.now)) }
{
    let mut spans = Vec::new(alloc);
    for term in terms {
        add_term(&mut spans, term, want, kind, bindings)?;
    }
    Ok(spans)
}

fn add_term(
    spans: &mut Vec<Span>,
    term: &Term,
    want: Want,
    kind: Kind,
    bindings: &Bindings,
) -> Result<(), NoMemory>
    ensures { OnOk result (Adds spans.old.items spans.new.items
        (λ n. stands_for bindings.now.bound want kind n term.now)) }
{
    match term {
        Term::One(elem) => {
            let number = number_of(*elem);
            add_span(spans, is_kind(kind_of(*elem), kind), number, number)
        }
        Term::Range(range, first, last) => { add_span(spans, is_kind(*range, kind), *first, *last) }
        Term::All(suffix) => add_span(spans, covers(want, *suffix, kind), 0, u32::MAX),
        Term::Slot(name, suffix) => {
            if !covers(want, *suffix, kind) {
                return Ok(());
            }
            match bindings.get(name.as_slice()) {
                Some(slots) => add_slot(spans, slots, kind),
                None => Ok(()),
            }
        }
    }
}

// Adds a span if it is of the kind that is wanted.
fn add_span(spans: &mut Vec<Span>, wanted: bool, first: u32, last: u32) -> Result<(), NoMemory>
    ensures { OnOk result (Adds spans.old.items spans.new.items
        (λ n. wanted && is_in n (record { first = first; last = last }))) }
{
    if wanted {
        spans.push(Span { first, last })?;
    }
    Ok(())
}

// Adds the numbers of a slot's elements of a kind.
fn add_slot(spans: &mut Vec<Span>, slots: &Slots, kind: Kind) -> Result<(), NoMemory>
    ensures { OnOk result (Adds spans.old.items spans.new.items
        (λ n. list_any (λ m. m == n) (numbers_of slots.now kind))) }
{
    for k in 0..count_of(slots, kind) {
        let number = number_at(slots, kind, k);
        add_span(spans, true, number, number)?;
    }
    Ok(())
}

fn count_of(slots: &Slots, kind: Kind) -> usize
    ensures { result ≡ length (numbers_of slots.now kind) }
{
    match kind {
        Kind::Verts => slots.geom.verts().len(),
        Kind::Edges => slots.geom.edges().len(),
        Kind::Corners => 0,
        Kind::Faces => slots.geom.faces().len(),
    }
}

fn number_at(slots: &Slots, kind: Kind, k: usize) -> u32
    requires { k < length (numbers_of slots.now kind) }
    ensures { slice_get (numbers_of slots.now kind) k ≡ Some result }
{
    match kind {
        Kind::Verts => slots.geom.verts()[k].0,
        Kind::Edges => slots.geom.edges()[k].0,
        Kind::Corners => 0,
        Kind::Faces => slots.geom.faces()[k].0,
    }
}

fn number_of(elem: Elem) -> u32
    ensures { result ≡ number_of elem }
{
    match elem {
        Elem::Vert(v) => v.0,
        Elem::Edge(e) => e.0,
        Elem::Face(f) => f.0,
    }
}

// Whether a term with a suffix, or without one, stands for a kind.
fn covers(want: Want, suffix: Option<Kind>, kind: Kind) -> bool
    ensures { result ≡ covers want suffix kind }
{
    match suffix {
        Some(named) => is_kind(named, kind),
        None => takes(want, kind),
    }
}
