//! Edges between vertices, and elements in the order of their names.
ghost use Rattle.mesh_cycles.specs.Cycles.{AreWhole};
ghost use Rattle.kernel_tests.specs.Sound.{IsSound};

use super::sample::{add_face, add_vert, empty, join};
use crate::confirm::confirm;
use crate::named;
use mesh_cycles::{edge_between, edges_rising, faces_rising, find_edge, verts_rising};
use mesh_store::{Slot, Store};
use std::process::Abort;
use std::test::Fail;

// Vertices 3, 0 and 2.
fn add_ends(rt: &impl Abort, st: &mut Store) -> [Slot; 3]
    requires sound { IsSound st.old }
    requires whole { AreWhole st.old }
    ensures sound { IsSound st.new }
    ensures whole { AreWhole st.new }
{
    let v = add_vert(rt, st, 3);
    let w = add_vert(rt, st, 0);
    let x = add_vert(rt, st, 2);
    [v, w, x]
}

// Edges 5 and 1 between vertices 3 and 0, and edge 4 between 0 and 2.
fn add_edges(rt: &impl Abort, st: &mut Store) -> [Slot; 3]
    requires sound { IsSound st.old }
    requires whole { AreWhole st.old }
    ensures sound { IsSound st.new }
    ensures whole { AreWhole st.new }
{
    let late = join(rt, st, 5, 3, 0);
    let early = join(rt, st, 1, 0, 3);
    let other = join(rt, st, 4, 0, 2);
    [late, early, other]
}

// The edge of two vertices that is found around the first.
fn around(rt: &impl Abort, st: &Store, a: u32, b: u32) -> Option<Slot>
    requires sound { IsSound st.now }
    requires whole { AreWhole st.now }
{
    let from = named::vert(rt, st, a);
    let to = named::vert(rt, st, b);
    find_edge(st, from, to)
}

// The edge of two vertices that is found around one of them.
fn between(rt: &impl Abort, st: &Store, a: u32, b: u32) -> Option<Slot>
    requires sound { IsSound st.now }
    requires whole { AreWhole st.now }
{
    let from = named::vert(rt, st, a);
    let to = named::vert(rt, st, b);
    edge_between(st, from, to)
}

// The elements by name are these.
fn rise(st: &Store, verts: &[Slot], edges: &[Slot], faces: &[Slot]) -> bool {
    verts_rising(st).eq(verts.iter().copied())
        && edges_rising(st).eq(edges.iter().copied())
        && faces_rising(st).eq(faces.iter().copied())
}

// Finds edges around their ends: the lesser of two, one alone, and none.
fn find_each(rt: &impl Abort, st: &Store, early: Slot, other: Slot)
    requires sound { IsSound st.now }
    requires whole { AreWhole st.now }
{
    confirm(rt, "the least name", around(rt, st, 3, 0) == Some(early));
    confirm(rt, "no edge", around(rt, st, 3, 2).is_none());
    confirm(rt, "the other", around(rt, st, 0, 2) == Some(other));
    confirm(rt, "from the first", between(rt, st, 3, 0) == Some(early));
    confirm(rt, "from the second", between(rt, st, 0, 3) == Some(early));
}

// Finds edges, and reads all in order; faces 2 and 0 come last.
fn find_all(rt: &impl Abort, st: &mut Store)
    requires sound { IsSound st.old }
    requires whole { AreWhole st.old }
{
    let [v, w, x] = add_ends(rt, st);
    let [late, early, other] = add_edges(rt, st);
    find_each(rt, st, early, other);
    let f = add_face(rt, st, 2);
    let g = add_face(rt, st, 0);
    let rising = rise(st, &[w, x, v], &[early, other, late], &[g, f]);
    confirm(rt, "in order", rising);
}

#[test]
fn edges_are_found_by_name(rt: HostRuntime) -> Result<(), Fail> {
    let mut st = empty(rt.alloc(), 8)?;
    find_all(&rt, &mut st);
    Ok(())
}
