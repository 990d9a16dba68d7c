//! Models, read and written again.
ghost use Rattle.std.specs.Prelude.{◌≤◌};

use crate::confirm::confirm;
use crate::reading::read;
use byte_sink::{Sink, WriteFault};
use mesh_model::NoMemory;
use obj_text::{ObjFault, text_of, write};
use std::alloc::Global;
use std::process::Abort;
use std::test::Fail;

// What is written of the model that a text makes.
fn rewritten(alloc: Global, scale: u8, text: &[u8]) -> Result<Vec<u8>, ObjFault>
    requires { scale ≤ 6 }
{
    let draft = read(alloc, scale, text, 30)?;
    match text_of(alloc, &draft, scale) {
        Ok(bytes) => Ok(bytes),
        Err(NoMemory) => Err(ObjFault::NoMemory),
    }
}

const CUBE: &[u8] =
    b"mtllib cube.mtl\nv 1.000000 1.000000 -1.000000\nv 1.000000 -1.000000 -1.000000\n\
    v 1.000000 1.000000 1.000000\nv 1.000000 -1.000000 1.000000\nv -1.000000 1.000000 -1.000000\n\
    v -1.000000 -1.000000 -1.000000\nv -1.000000 1.000000 1.000000\nv -1.000000 -1.000000 1.000000\n\
    vt 0.625000 0.500000\nvt 0.875000 0.500000\nvt 0.875000 0.750000\nvt 0.625000 0.750000\nvt 0.375000 0.750000\n\
    vt 0.625000 1.000000\nvt 0.375000 1.000000\nvt 0.375000 0.000000\nvt 0.625000 0.000000\nvt 0.625000 0.250000\n\
    vt 0.375000 0.250000\nvt 0.125000 0.500000\nvt 0.375000 0.500000\nvt 0.125000 0.750000\nusemtl Material\n\
    f 1/1 5/2 7/3 3/4\nf 4/5 3/4 7/6 8/7\nf 8/8 7/9 5/10 6/11\nf 6/12 2/13 4/5 8/14\nf 2/13 1/1 3/4 4/5\n\
    f 6/11 5/10 1/1 2/13\n";

const TWO_MATERIALS: &[u8] =
    b"mtllib a.mtl\nmtllib b.mtl\nv 0 0 0\nv 4 0 0\nv 4 4 0\nv 0 4 0\nl 4 2\nusemtl red\n\
    s 3\nf 1 2 3\nusemtl blue\nf 1 3 4\nusemtl\ns 0\nf 1 2 3 4\n";

// A text in the form that is written comes back as it was.
fn is_kept(rt: &impl Abort, alloc: Global, scale: u8, text: &[u8]) -> Result<(), ObjFault>
    requires { scale ≤ 6 }
{
    let bytes = rewritten(alloc, scale, text)?;
    confirm(rt, "a text that comes back", bytes.as_slice() == text);
    Ok(())
}

const DISTINCT_PLACES: &[u8] =
    b"v 0.0 0.0 0.0\nv 4.0 0.0 0.0\nv 4.0 4.0 0.5\nvt 1.000000 0.000000\n\
    vt 0.000000 0.000000\nf 1/1 2/1 3/2\n";

// Places that no corner has, and a second one with the same numbers, aren't written.
fn places_are_distinct(rt: &impl Abort, alloc: Global) -> Result<(), ObjFault> {
    let bytes = rewritten(
        alloc,
        1,
        b"v 0 0 0\nv 4 0 0\nv 4 4 .5\nvt 0\nvt 1\nvt 2\nvt 1 0\nf 1/2 2/4 3\n",
    )?;
    confirm(rt, "distinct places", bytes.as_slice() == DISTINCT_PLACES);
    Ok(())
}

#[test]
fn kept(rt: HostRuntime) -> Result<(), Fail> {
    let cube = is_kept(&rt, rt.alloc(), 6, CUBE);
    confirm(&rt, "a cube is written", cube.is_ok());
    let materials = is_kept(&rt, rt.alloc(), 0, TWO_MATERIALS);
    confirm(&rt, "materials are written", materials.is_ok());
    Ok(())
}

#[test]
fn places(rt: HostRuntime) -> Result<(), Fail> {
    let written = places_are_distinct(&rt, rt.alloc());
    confirm(&rt, "places are written", written.is_ok());
    Ok(())
}

// A sink in memory, which takes at most seven bytes at once.
#[derive(Drop)]
struct Taken {
    bytes: Vec<u8>,
}

impl Sink for Taken {
    ghost use Rattle.std.specs.Prelude.{Some};

    ghost wrote = { λ s. Some s.bytes.items };

    ghost Others = { Unit {0} };

    ghost others = { λ _. tt };

    ghost faults = { λ _. 0 };

    fn write(&mut self, from: &[u8]) -> Result<usize, WriteFault> {
        if from.is_empty() {
            return Ok(0);
        }
        let n = from.len().min(7);
        self.bytes.extend_from_slice(&from[..n])?;
        Ok(n)
    }
}

// What a sink took of a model, and whether the call was done.
fn bytes_taken(alloc: Global, scale: u8, text: &[u8]) -> Result<Vec<u8>, ObjFault>
    requires { scale ≤ 6 }
{
    let draft = read(alloc, scale, text, 5)?;
    let mut sink = Taken {
        bytes: Vec::new(alloc),
    };
    match write(alloc, &draft, scale, &mut sink) {
        Ok(()) => Ok(sink.bytes),
        Err(_) => Err(ObjFault::NoMemory),
    }
}

fn all_is_taken(rt: &impl Abort, alloc: Global) -> Result<(), ObjFault> {
    let bytes = bytes_taken(alloc, 0, TWO_MATERIALS)?;
    confirm(rt, "all bytes", bytes.as_slice() == TWO_MATERIALS);
    Ok(())
}

#[test]
fn a_sink(rt: HostRuntime) -> Result<(), Fail> {
    let written = all_is_taken(&rt, rt.alloc());
    confirm(&rt, "a sink takes all", written.is_ok());
    Ok(())
}
