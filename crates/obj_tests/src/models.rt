//! Models.

use crate::confirm::confirm;
use crate::reading::{counted, refusal};
use mesh_model::NoMemory;
use obj_text::{ObjFault, ObjRefusal, ObjWhy};
use std::alloc::Global;
use std::process::Abort;
use std::test::Fail;

const HOUSE: &[u8] =
    b"# a house\nmtllib a.mtl\nv -1 0 0\nv 1 0 .25\nv 1 1 0 # c\nv -1. 1 0 0.5\nvt .5\n\
    vt 1 0.000001\nvn 0 0 1\nl 4 1\nusemtl red brick \\ \ns 3\nf 1/1 2/2 3//1 \\\n-1/-1\n";

// A model with all kinds of lines is the same wherever it is cut.
fn house_is_counted(rt: &impl Abort, alloc: Global) -> Result<(), ObjFault> {
    for cut in 0..HOUSE.len() {
        let counts = counted(alloc, 2, HOUSE, cut)?;
        confirm(rt, "a house", counts == [4, 4, 1, 4]);
    }
    Ok(())
}

#[test]
fn house(rt: HostRuntime) -> Result<(), Fail> {
    let read = house_is_counted(&rt, rt.alloc());
    confirm(&rt, "a house is read", read.is_ok());
    Ok(())
}

// A strip of so many points, one after another, and from the third on a face on the last three.
fn strip(alloc: Global, points: u32) -> Result<String, NoMemory> {
    let mut text = String::new(alloc);
    for x in 0..points {
        let line = format!(in alloc; "v {x} 0 0\n")?;
        text.push_str(line.as_str())?;
        if 2 <= x {
            text.push_str("usemtl red\nf -3 -2 -1\n")?;
        }
    }
    Ok(text)
}

// A face on so many points.
fn round(alloc: Global, points: u32) -> Result<String, NoMemory> {
    let mut text = String::from_str(alloc, "f")?;
    for k in 0..points {
        let index = k + 1;
        let word = format!(in alloc; " {index}")?;
        text.push_str(word.as_str())?;
    }
    Ok(text)
}

// Many points, faces and corners of one face.
fn long_is_counted(rt: &impl Abort, alloc: Global) -> Result<(), ObjFault> {
    let mut text = strip(alloc, 4_200)?;
    let face = round(alloc, 4_096)?;
    text.push_str(face.as_str())?;
    let counts = counted(alloc, 0, text.as_bytes(), 7_777)?;
    confirm(rt, "a long model", counts == [4_200, 8_398, 4_199, 16_690]);
    Ok(())
}

// A face of 4,097 corners.
fn too_long_is_refused(rt: &impl Abort, alloc: Global) -> Result<(), NoMemory> {
    let mut text = strip(alloc, 4_100)?;
    let face = round(alloc, 4_097)?;
    text.push_str(face.as_str())?;
    let found = refusal(alloc, 0, text.as_bytes(), 99)?;
    let line = 12_297;
    let why = ObjWhy::TooLong;
    confirm(rt, "a long face", found == Some(ObjRefusal { line, why }));
    Ok(())
}

#[test]
fn too_long(rt: HostRuntime) -> Result<(), Fail> {
    too_long_is_refused(&rt, rt.alloc())?;
    Ok(())
}

#[test]
fn long(rt: HostRuntime) -> Result<(), Fail> {
    let read = long_is_counted(&rt, rt.alloc());
    confirm(&rt, "a long model is read", read.is_ok());
    Ok(())
}
