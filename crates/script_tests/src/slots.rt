//! Buffers and mappings of slots.
ghost use Rattle.std.specs.Prelude.{◌≡◌, [], ◌∷◌, IfOk};

use crate::confirm::confirm;
use mesh_model::VertName;
use op_slots::{Buffer, Mapping, Pair};
use sequence::{NoMemory, Sequence};
use std::alloc::Global;
use std::process::Abort;
use std::test::Fail;

// Two vertices by rising name.
fn two_verts(alloc: Global) -> Result<Sequence<VertName>, NoMemory>
    ensures { IfOk result (λ names. names ≡ record { 0 = 1 } ∷ record { 0 = 4 } ∷ []) }
{
    let mut names = Sequence::new(alloc);
    names.push(VertName(1))?;
    names.push(VertName(4))?;
    Ok(names)
}

// A buffer gives back what it was made of, and so does its copy.
fn buffer_keeps(rt: &impl Abort, alloc: Global) -> Result<(), NoMemory> {
    let names = two_verts(alloc)?;
    let buffer = Buffer::of(names, Sequence::new(alloc), Sequence::new(alloc));
    let copy = buffer.copy()?;
    confirm(
        rt,
        "vertices",
        copy.verts() == [VertName(1), VertName(4)].as_slice(),
    );
    confirm(rt, "no edges", copy.edges().is_empty());
    confirm(rt, "no faces", Buffer::new(alloc).faces().is_empty());
    Ok(())
}

#[test]
fn buffers(rt: HostRuntime) -> Result<(), Fail> {
    buffer_keeps(&rt, rt.alloc())?;
    Ok(())
}

// The pair of two vertices.
fn pair(source: u32, target: u32) -> Pair
    ensures { result ≡ record { source = record { 0 = source }; target = record { 0 = target } } }
{
    Pair {
        source: VertName(source),
        target: VertName(target),
    }
}

// Two pairs with one target.
fn push_pairs(map: &mut Mapping) -> Result<(), NoMemory>
    requires { map.old ≡ [] }
{
    map.push(pair(3, 0))?;
    map.push(pair(2, 0))?;
    Ok(())
}

// A mapping gives back its pairs in order, and so does its copy.
fn mapping_keeps(rt: &impl Abort, alloc: Global) -> Result<(), NoMemory> {
    let mut map = Mapping::new(alloc);
    push_pairs(&mut map)?;
    let copy = map.copy()?;
    confirm(rt, "two pairs", copy.len() == 2);
    confirm(rt, "the first", copy.get(0) == pair(3, 0));
    confirm(rt, "the second", copy.get(1) == pair(2, 0));
    Ok(())
}

#[test]
fn mappings(rt: HostRuntime) -> Result<(), Fail> {
    mapping_keeps(&rt, rt.alloc())?;
    Ok(())
}
