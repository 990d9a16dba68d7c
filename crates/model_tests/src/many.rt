//! A long band of squares, and a vertex with many edges: each call answers as in a small draft, and as fast.
ghost use Rattle.std.specs.Prelude.{◌≤◌};

use crate::building::{edge, quad, vert};
use crate::confirm::confirm;
use crate::drafts::are_counted;
use mesh_model::{Draft, EdgeName, NoMemory, VertName};
use std::process::Abort;
use std::test::Fail;

// How many squares the band has.
const LONG: u32 = 50_000;

// Adds two vertices, the ends of a rung.
fn add_rung(rt: &impl Abort, draft: &mut Draft, n: u32) -> Result<(), NoMemory> {
    vert(rt, draft, n as i64, 0)?;
    vert(rt, draft, n as i64, 1)?;
    Ok(())
}

// Adds a band: the vertices 2n and 2n + 1 are at its ends and between squares.
fn add_band(rt: &impl Abort, draft: &mut Draft) -> Result<(), NoMemory> {
    add_rung(rt, draft, 0)?;
    for n in 0..LONG {
        add_rung(rt, draft, n + 1)?;
        quad(rt, draft, [2 * n, 2 * n + 2, 2 * n + 3, 2 * n + 1], 0, 0)?;
    }
    Ok(())
}

// Finds each rung, of which the first is the last side of the first square.
fn rungs_are_found(rt: &impl Abort, draft: &mut Draft) -> Result<(), NoMemory> {
    let first = draft.find_edge(VertName(0), VertName(1))?;
    confirm(rt, "the first rung", first == Some(EdgeName(3)));
    for n in 1..LONG {
        let rung = draft.find_edge(VertName(2 * n), VertName(2 * n + 1))?;
        confirm(rt, "a rung", rung.is_some());
    }
    Ok(())
}

// Joins the first vertex with every other one that isn't its neighbour.
fn add_spokes(rt: &impl Abort, draft: &mut Draft) -> Result<(), NoMemory> {
    for n in 3..2 * LONG + 2 {
        let spoke = edge(rt, draft, 0, n)?;
        confirm(rt, "a new edge", spoke == EdgeName(3 * LONG + n - 2));
    }
    Ok(())
}

// A band with a hub, and a copy of it.
fn band_with_hub(rt: &impl Abort, draft: &mut Draft) -> Result<(), NoMemory> {
    add_band(rt, draft)?;
    are_counted(rt, draft, [2 * LONG + 2, 3 * LONG + 1, LONG, 4 * LONG]);
    rungs_are_found(rt, draft)?;
    add_spokes(rt, draft)?;
    let copy = draft.copy()?;
    are_counted(rt, &copy, [2 * LONG + 2, 5 * LONG, LONG, 4 * LONG]);
    Ok(())
}

#[test]
fn a_long_band_with_a_hub(rt: HostRuntime) -> Result<(), Fail> {
    let mut draft = Draft::new(rt.alloc());
    band_with_hub(&rt, &mut draft)?;
    Ok(())
}
