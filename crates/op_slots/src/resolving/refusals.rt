//! Why a term is refused.
ghost use Rattle.std.specs.Prelude.{◌≡◌, ◌∷◌, [], map};
ghost use Rattle.mesh_model.specs.Complex.{Complex};
ghost use Rattle.mesh_model.specs.Refusals.{first_of, unless, unless_at, unless_there};
ghost use Rattle.op_slots.specs.Values.{kind_of, is_kind, takes, takes_suffix, term_refusal};

use super::want::Want;
use crate::bindings::Bindings;
use crate::term::Term;
use mesh_model::{Elem, Kind, Place, Refusal, Shape, Why};

/// The refusal of the first term that has one.
#[tactic(auto, using(crate::proofs::Firsts::passed_over, crate::proofs::Firsts::stopped_at, crate::proofs::Firsts::none_left))]
pub(crate) fn first_refusal<S: Shape>(
    terms: &[Term],
    want: Want,
    shape: &S,
    bindings: &Bindings,
) -> Option<Refusal>
    ensures { result ≡ first_of (map (term_refusal (S.complex shape.now) bindings.now.bound want) terms.now) }
{
    for term in terms {
        if let Some(refusal) = term_refusal(term, want, shape, bindings) {
            return Some(refusal);
        }
    }
    None
}

fn term_refusal<S: Shape>(
    term: &Term,
    want: Want,
    shape: &S,
    bindings: &Bindings,
) -> Option<Refusal>
    ensures { result ≡ term_refusal (S.complex shape.now) bindings.now.bound want term.now }
{
    match term {
        Term::One(elem) => one_refusal(*elem, want, shape),
        Term::Range(kind, _, _) => unless(takes(want, *kind), Why::WrongKind),
        Term::All(suffix) => unless(takes_suffix(want, *suffix), Why::WrongKind),
        Term::Slot(name, suffix) => {
            if !takes_suffix(want, *suffix) {
                return unless(false, Why::WrongKind);
            }
            unless(bindings.contains(name.as_slice()), Why::NoSlot)
        }
    }
}

fn one_refusal<S: Shape>(elem: Elem, want: Want, shape: &S) -> Option<Refusal>
    ensures { result ≡ first_of
        (unless_at (takes want (kind_of elem)) Why.WrongKind elem ∷ unless_there (S.complex shape.now) elem ∷ []) }
{
    if !takes(want, kind_of(elem)) {
        return unless_at(false, Why::WrongKind, elem);
    }
    unless_there(shape, elem)
}

/// Refused at an element that isn't there.
pub(crate) fn unless_there<S: Shape>(shape: &S, elem: Elem) -> Option<Refusal>
    ensures { result ≡ unless_there (S.complex shape.now) elem }
{
    unless_at(shape.has(elem), Why::NoSuch, elem)
}

fn unless_at(holds: bool, why: Why, elem: Elem) -> Option<Refusal>
    ensures { result ≡ unless_at holds why elem }
{
    if holds {
        None
    } else {
        Some(Refusal {
            why,
            place: Place::Elem(elem),
        })
    }
}

/// Refused unless a condition holds.
pub(crate) fn unless(holds: bool, why: Why) -> Option<Refusal>
    ensures { result ≡ unless holds why }
{
    if holds {
        None
    } else {
        Some(Refusal {
            why,
            place: Place::Nowhere,
        })
    }
}

/// The kind of an element.
pub(crate) fn kind_of(elem: Elem) -> Kind
    ensures { result ≡ kind_of elem }
{
    match elem {
        Elem::Vert(_) => Kind::Verts,
        Elem::Edge(_) => Kind::Edges,
        Elem::Face(_) => Kind::Faces,
    }
}

/// Whether two kinds are one.
pub(crate) fn is_kind(one: Kind, other: Kind) -> bool
    ensures { result ≡ is_kind one other }
{
    match (one, other) {
        (Kind::Verts, Kind::Verts) => true,
        (Kind::Edges, Kind::Edges) => true,
        (Kind::Corners, Kind::Corners) => true,
        (Kind::Faces, Kind::Faces) => true,
        _ => false,
    }
}

/// Whether an argument takes a kind.
pub(crate) fn takes(want: Want, kind: Kind) -> bool
    ensures { result ≡ takes want kind }
{
    match want {
        Want::Verts => is_kind(Kind::Verts, kind),
        Want::Edges => is_kind(Kind::Edges, kind),
        Want::Faces => is_kind(Kind::Faces, kind),
        Want::Any => !is_kind(Kind::Corners, kind),
    }
}

fn takes_suffix(want: Want, suffix: Option<Kind>) -> bool
    ensures { result ≡ takes_suffix want suffix }
{
    match suffix {
        Some(kind) => takes(want, kind),
        None => true,
    }
}
