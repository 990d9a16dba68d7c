//! Pasts from one shape to another, by values worked out by hand.

use crate::confirm::confirm;
use crate::small::{has_face, said_of_edges, said_of_faces, said_of_verts};
use crate::told::{counts, point};
use mesh_model::{Draft, NoMemory, Point};
use mesh_trail::Past;
use sample_drafts::{grown_square, square};
use std::alloc::Global;
use std::test::Fail;

// The past from an earlier shape to a later one with rows as wide.
fn between(alloc: Global, before: &Draft, after: &Draft) -> Result<Past, NoMemory> {
    let wide = Past::new(alloc, before);
    if !wide.fits(after) {
        return Err(NoMemory);
    }
    Past::between(alloc, before, after)
}

// From a square to one with a vertex and an edge more, whose third vertex lies higher and whose third corner lies
// elsewhere in the texture.
fn grown(alloc: Global) -> Result<Past, NoMemory> {
    let before = square(alloc, 0, 5)?;
    let after = grown_square(alloc, 1, 7)?;
    between(alloc, &before, &after)
}

#[test]
fn a_past_has_what_differs(rt: HostRuntime) -> Result<(), Fail> {
    let past = grown(rt.alloc())?;
    confirm(&rt, "how many", counts(&past) == [2, 1, 0, 1]);
    confirm(&rt, "next names", past.counters() == [4, 4, 1]);
    confirm(&rt, "vertices", said_of_verts(&past) == [2, 0, 1]);
    confirm(&rt, "edges", said_of_edges(&past) == [0, 0, 1, 0]);
    let there = Point { x: 4, y: 4, z: 0 };
    confirm(&rt, "the earlier point", point(&past, 2) == Some(there));
    has_face(&rt, &past);
    Ok(())
}

// The other way: the vertex and the edge more are there first.
fn shrunk(alloc: Global) -> Result<Past, NoMemory> {
    let before = grown_square(alloc, 0, 5)?;
    let after = square(alloc, 0, 5)?;
    between(alloc, &before, &after)
}

#[test]
fn a_past_has_what_went(rt: HostRuntime) -> Result<(), Fail> {
    let past = shrunk(rt.alloc())?;
    confirm(&rt, "how many", counts(&past) == [1, 1, 0, 0]);
    confirm(&rt, "next names", past.counters() == [5, 5, 1]);
    confirm(&rt, "vertices", said_of_verts(&past) == [0, 0, 2]);
    confirm(&rt, "edges", said_of_edges(&past) == [0, 0, 2, 0]);
    let there = Point { x: 9, y: 9, z: 9 };
    confirm(&rt, "the point that went", point(&past, 4) == Some(there));
    Ok(())
}

// From nothing to a square.
fn made(alloc: Global) -> Result<Past, NoMemory> {
    let now = square(alloc, 0, 5)?;
    Past::from_nothing(alloc, &now)
}

#[test]
fn a_past_from_nothing(rt: HostRuntime) -> Result<(), Fail> {
    let past = made(rt.alloc())?;
    confirm(&rt, "how many", counts(&past) == [4, 4, 0, 1]);
    confirm(&rt, "next names", past.counters() == [0, 0, 0]);
    confirm(&rt, "vertices", said_of_verts(&past) == [1, 1, 0]);
    confirm(&rt, "edges", said_of_edges(&past) == [1, 1, 0, 0]);
    confirm(&rt, "faces", said_of_faces(&past) == [1, 0]);
    Ok(())
}
