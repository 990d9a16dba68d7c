//! What an argument stands for.
ghost use Rattle.std.specs.Prelude.{◌≡◌, map};
ghost use Rattle.mesh_model.specs.Complex.{Complex};
ghost use Rattle.mesh_model.specs.Refusals.{first_of};
ghost use Rattle.op_slots.specs.Values.{Answers, resolved, is_empty, union};

mod listed;
mod refusals;
mod spans;
mod sweep;
mod values;
mod want;

use crate::bindings::Bindings;
use crate::buffer::Buffer;
use crate::fault::Fault;
use crate::term::Expr;
pub use listed::{list_refusal, resolve_map};
use mesh_model::{Place, Refusal, Shape, Why};
use refusals::first_refusal;
use std::alloc::Global;
use values::union;
pub use want::Want;

/// The elements for which an expression stands, by rising name.
///
/// The terms are taken from left to right, each tried for `WrongKind`, `NoSlot` and `NoSuch` in this order:
/// `WrongKind` where it names a kind that the argument doesn't take, with the element where it names a single
/// one; `NoSlot` where its slot isn't bound; `NoSuch` where it names a single element that isn't there. A range
/// and `all` stand for the elements that are there, a slot for those of its elements that still are. `Empty`
/// where no element is left. Takes time in proportion to the names that the terms span, each once however many
/// terms span it, to the terms and to the bindings that they name.
pub fn resolve<S: Shape>(
    alloc: Global,
    terms: &Expr,
    want: Want,
    shape: &S,
    bindings: &Bindings,
) -> Result<Buffer, Fault>
    ensures { Answers result (resolved (S.complex shape.now) bindings.now.bound want terms.now) }
{
    if let Some(refusal) = first_refusal(terms.as_slice(), want, shape, bindings) {
        return Err(Fault::Refused(refusal));
    }
    let elements = union(alloc, terms.as_slice(), want, shape, bindings)?;
    if is_empty(&elements) {
        return Err(Fault::Refused(Refusal {
            why: Why::Empty,
            place: Place::Nowhere,
        }));
    }
    Ok(elements)
}

fn is_empty(elements: &Buffer) -> bool
    ensures { result ≡ is_empty elements.now }
{
    elements.verts().is_empty() && elements.edges().is_empty() && elements.faces().is_empty()
}
