//! Room: `reserve` where there is room, where there is none, and where memory runs out; and `clear`.
ghost use Rattle.std.specs.Prelude.{◌≤◌, length};

use super::elements::{put_edge, put_face, put_loop, put_vert};
use crate::confirm::confirm;
use mesh_store::{LayerFault, NoMemory, Part, Rule, Slot, Store};
use std::process::Abort;
use std::test::Fail;

// No part has many places.
fn is_small(rt: &impl Abort, st: &Store)
    ensures verts { length st.now.verts.cells ≤ 100_000 }
    ensures edges { length st.now.edges.cells ≤ 100_000 }
    ensures loops { length st.now.loops ≤ 100_000 }
    ensures faces { length st.now.faces.cells ≤ 100_000 }
{
    confirm(rt, "few vertices", st.places(Part::Vert) <= 100_000);
    confirm(rt, "few edges", st.places(Part::Edge) <= 100_000);
    confirm(rt, "few loops", st.places(Part::Loop) <= 100_000);
    confirm(rt, "few faces", st.places(Part::Face) <= 100_000);
}

// Makes room for a vertex, an edge, a face and so many corners in a store without many places.
fn widen(rt: &impl Abort, st: &mut Store, corners: usize, reach: [u32; 3]) -> Result<(), NoMemory>
    requires { corners ≤ 4_294_000_000 }
{
    is_small(rt, st);
    st.reserve(1, 1, corners, 1, reach)
}

// The places of each part.
fn places(st: &Store) -> [usize; 4] {
    [
        st.places(Part::Vert),
        st.places(Part::Edge),
        st.places(Part::Loop),
        st.places(Part::Face),
    ]
}

// The vacant places of each part.
fn spare(st: &Store) -> [usize; 4] {
    [
        st.spare(Part::Vert),
        st.spare(Part::Edge),
        st.spare(Part::Loop),
        st.spare(Part::Face),
    ]
}

// An empty store gets room, then none more, then more for loops and the names of faces alone.
fn widen_thrice(rt: &impl Abort, st: &mut Store) -> Result<(), NoMemory> {
    confirm(rt, "no places", places(st) == [0; 4]);
    confirm(rt, "no names", st.reach() == [0; 3]);
    widen(rt, st, 1, [8, 8, 8])?;
    let first = places(st);
    confirm(rt, "all vacant", spare(st) == first);
    confirm(rt, "names", st.reach() == [8, 8, 8]);
    widen(rt, st, 1, [3, 8, 0])?;
    confirm(rt, "places as before", places(st) == first);
    confirm(rt, "names as before", st.reach() == [8, 8, 8]);
    widen(rt, st, 5_000, [8, 8, 9])?;
    confirm(rt, "vertices as before", places(st)[0] == first[0]);
    confirm(rt, "more loops", spare(st)[2] >= 5_000);
    confirm(rt, "more names of faces", st.reach() == [8, 8, 9]);
    Ok(())
}

#[test]
fn room_is_made_where_it_lacks(rt: HostRuntime) -> Result<(), Fail> {
    let mut st = Store::new(rt.alloc());
    widen_thrice(&rt, &mut st)?;
    Ok(())
}

// Adds sixteen layers of four numbers to loops.
fn add_layers(st: &mut Store) -> Result<(), LayerFault> {
    for letter in b'a'..=b'p' {
        st.add_layer(Part::Loop, &[letter], 4, Rule::Mix)?;
    }
    Ok(())
}

// Rows of sixteen layers for so many loops need two terabytes. The store is as it was then, and usable.
fn lack_memory(rt: &impl Abort, st: &mut Store) -> Result<(), LayerFault> {
    add_layers(st)?;
    let lacks = widen(rt, st, 4_294_000_000, [0; 3]).is_err();
    confirm(rt, "no memory", lacks);
    confirm(rt, "no places", st.spare(Part::Loop) == 0);
    confirm(rt, "numbers as before", st.total(Part::Loop) == 64);
    widen(rt, st, 1, [0; 3])?;
    put_loop(rt, st);
    Ok(())
}

#[test]
fn memory_runs_out(rt: HostRuntime) -> Result<(), Fail> {
    let mut st = Store::new(rt.alloc());
    lack_memory(&rt, &mut st)?;
    Ok(())
}

// A store with a layer of faces, and with an element of each kind: the face's slot.
fn fill(rt: &impl Abort, st: &mut Store) -> Result<Slot, LayerFault> {
    st.add_layer(Part::Face, b"smooth", 1, Rule::Copy)?;
    widen(rt, st, 1, [8, 8, 8])?;
    put_vert(rt, st, 1, [0; 3]);
    put_edge(rt, st, 2, [Slot(0), Slot(1)]);
    put_loop(rt, st);
    Ok(put_face(rt, st, 3))
}

// Drops all of that.
fn drop_all(rt: &impl Abort, st: &mut Store) -> Result<(), LayerFault> {
    let s = fill(rt, st)?;
    let before = places(st);
    st.clear();
    confirm(rt, "no face there", !st.has_face(s));
    let least = [
        st.vert_from(0),
        st.edge_from(0),
        st.loop_from(0),
        st.face_from(0),
    ];
    confirm(rt, "no element", least == [None; 4]);
    confirm(rt, "places as before", places(st) == before);
    confirm(rt, "all vacant", spare(st) == before);
    confirm(rt, "names as before", st.reach() == [8, 8, 8]);
    confirm(rt, "layers as before", st.layers(Part::Face) == 1);
    Ok(())
}

#[test]
fn everything_is_dropped(rt: HostRuntime) -> Result<(), Fail> {
    let mut st = Store::new(rt.alloc());
    drop_all(&rt, &mut st)?;
    Ok(())
}
