//! Lists of vertices and mappings.
ghost use Rattle.std.specs.Prelude.{◌≡◌, ◌++◌, [], ◌∷◌, false, if◌then◌else◌, map, IfOk, OnOk};
ghost use Rattle.mesh_model.specs.Elements.{is_among};
ghost use Rattle.mesh_model.specs.Complex.{Complex};
ghost use Rattle.mesh_model.specs.Refusals.{first_of, unless_there};
ghost use Rattle.op_slots.specs.Mapping.{sources};
ghost use Rattle.op_slots.specs.Values.{Answers, list_refusal, pair_refusal, is_live_pair, live_pairs, some_pairs};
ghost use Rattle.op_slots.specs.Values.{resolved_map};

use super::refusals::unless_there;
use crate::bindings::Bindings;
use crate::fault::Fault;
use crate::mapping::{Mapping, Pair};
use crate::term::MapArg;
use mesh_model::{Elem, Place, Refusal, Shape, VertName, Why};
use sequence::NoMemory;
use std::alloc::Global;

/// `NoSuch` with the first vertex of a list that isn't there, or None where all are.
#[tactic(auto, using(crate::proofs::Firsts::passed_over, crate::proofs::Firsts::stopped_at, crate::proofs::Firsts::none_left))]
pub fn list_refusal<S: Shape>(names: &[VertName], shape: &S) -> Option<Refusal>
    ensures { result ≡ list_refusal (S.complex shape.now) names.now }
{
    for name in names {
        if let Some(refusal) = unless_there(shape, Elem::Vert(*name)) {
            return Some(refusal);
        }
    }
    None
}

/// The pairs for which a mapping stands.
///
/// Pairs that are written are tried for `NoSuch` one by one, the source first. The mapping of a slot is
/// refused `NoSlot` where the slot isn't bound; it stands for its pairs whose vertices are both there, and is
/// refused `Empty` without any. Takes time in proportion to the pairs and the bindings.
pub fn resolve_map<S: Shape>(
    alloc: Global,
    map: &MapArg,
    shape: &S,
    bindings: &Bindings,
) -> Result<Mapping, Fault>
    ensures { Answers result (resolved_map (S.complex shape.now) bindings.now.bound map.now) }
{
    match map {
        MapArg::Pairs(pairs) => {
            if let Some(refusal) = pairs_refusal(pairs, shape) {
                return Err(Fault::Refused(refusal));
            }
            let pairs = pairs.copy()?;
            Ok(pairs)
        }
        MapArg::Slot(name) => match bindings.get(name.as_slice()) {
            Some(slots) => slot_pairs(alloc, &slots.map, shape),
            None => Err(refused(Why::NoSlot)),
        },
    }
}

fn refused(why: Why) -> Fault
    ensures { result ≡ Fault.Refused (record { why = why; place = Place.Nowhere }) }
{
    Fault::Refused(Refusal {
        why,
        place: Place::Nowhere,
    })
}

#[tactic(auto, using(crate::proofs::Firsts::passed_over, crate::proofs::Firsts::stopped_at, crate::proofs::Firsts::none_left))]
fn pairs_refusal<S: Shape>(pairs: &Mapping, shape: &S) -> Option<Refusal>
    ensures { result ≡ first_of (map (pair_refusal (S.complex shape.now)) pairs.now) }
{
    for k in 0..pairs.len() {
        if let Some(refusal) = pair_refusal(&pairs.get(k), shape) {
            return Some(refusal);
        }
    }
    None
}

fn pair_refusal<S: Shape>(pair: &Pair, shape: &S) -> Option<Refusal>
    ensures { result ≡ pair_refusal (S.complex shape.now) pair.now }
{
    if let Some(refusal) = unless_there(shape, Elem::Vert(pair.source)) {
        return Some(refusal);
    }
    unless_there(shape, Elem::Vert(pair.target))
}

fn slot_pairs<S: Shape>(alloc: Global, pairs: &Mapping, shape: &S) -> Result<Mapping, Fault>
    ensures { Answers result (some_pairs (live_pairs (S.complex shape.now) pairs.now)) }
{
    let live = live_pairs(alloc, pairs, shape)?;
    if live.len() == 0 {
        return Err(refused(Why::Empty));
    }
    Ok(live)
}

fn live_pairs<S: Shape>(alloc: Global, pairs: &Mapping, shape: &S) -> Result<Mapping, NoMemory>
    ensures { IfOk result (λ ps. ps ≡ live_pairs (S.complex shape.now) pairs.now) }
{
    let mut live = Mapping::new(alloc);
    for k in 0..pairs.len() {
        add_live_pair(&mut live, pairs.get(k), shape)?;
    }
    Ok(live)
}

// Appends a pair, whose source is new, where both its vertices are there.
fn add_live_pair<S: Shape>(live: &mut Mapping, pair: Pair, shape: &S) -> Result<(), NoMemory>
    requires { is_among (sources live.old) pair.source ≡ false }
    ensures { OnOk result (live.new
        ≡ (if is_live_pair (S.complex shape.now) pair then live.old ++ pair ∷ [] else live.old)) }
{
    if is_live_pair(&pair, shape) {
        live.push(pair)?;
    }
    Ok(())
}

fn is_live_pair<S: Shape>(pair: &Pair, shape: &S) -> bool
    ensures { result ≡ is_live_pair (S.complex shape.now) pair.now }
{
    shape.has(Elem::Vert(pair.source)) && shape.has(Elem::Vert(pair.target))
}
