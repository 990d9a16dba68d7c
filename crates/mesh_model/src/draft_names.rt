//! Lists of names.

ghost use Rattle.std.specs.Prelude.{◌≡◌, ◌<◌, ◌^◌, ◌++◌, ◌∷◌, [], length, IfSome, IfOk, OnOk, OnErr};
ghost use Rattle.std.specs.List.{position};
ghost use Rattle.cust_data.specs.Layers.{same_name};
ghost use Rattle.mesh_model.specs.Draft.{with_name};

use sequence::{NoMemory, Sequence, Text};
use std::alloc::Global;

// More names than memory can hold.
const MOST: usize = 1 << 62;

/// The position of a name from 0, appended if it is new. After `NoMemory` the names are as before.
pub(crate) fn name_number(
    alloc: Global,
    names: &mut Sequence<Text>,
    name: &[u8],
) -> Result<usize, NoMemory>
    ensures number { IfOk result (λ k. k ≡ (with_name names.old name.now).1) }
    ensures small { IfOk result (λ k. k < MOST) }
    ensures ok { OnOk result (names.new ≡ (with_name names.old name.now).0) }
    ensures err { OnErr result (names.new ≡ names.old) }
{
    if names.len() >= MOST {
        return Err(NoMemory);
    }
    match place_of(names, name) {
        Some(place) => Ok(place),
        None => push_name(alloc, names, name),
    }
}

/// Appends a name, and answers its position from 0. After `NoMemory` the names are as before.
pub(crate) fn push_name(
    alloc: Global,
    names: &mut Sequence<Text>,
    name: &[u8],
) -> Result<usize, NoMemory>
    ensures number { IfOk result (λ k. k ≡ length names.old) }
    ensures small { IfOk result (λ k. k < MOST) }
    ensures ok { OnOk result (names.new ≡ names.old ++ name.now ∷ []) }
    ensures err { OnErr result (names.new ≡ names.old) }
{
    let place = names.len();
    if place >= MOST {
        return Err(NoMemory);
    }
    names.push(Text::of(alloc, name)?)?;
    Ok(place)
}

// The position of a name from 0.
fn place_of(names: &Sequence<Text>, name: &[u8]) -> Option<usize>
    ensures place { result ≡ position (same_name name.now) names.now }
    ensures within { IfSome result (λ k. k < length names.now) }
{
    names.iter().position(|known| is_name(known, name))
}

fn is_name(known: &Text, name: &[u8]) -> bool
    ensures { result ≡ same_name name.now known.now }
{
    name == known.as_slice()
}
