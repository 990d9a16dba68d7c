//! Elements come and go, with their names and fields.
ghost use Rattle.std.specs.Prelude.{◌≡◌, ◌≤◌, ℕ, None, length};
ghost use Rattle.raw_pool.specs.Slots.{IsLive, spare_count};
ghost use Rattle.mesh_store.specs.Slots.{at};

use super::roomy;
use crate::confirm::confirm;
use mesh_store::{Part, Slot, Store, laws};
use std::process::Abort;
use std::test::Fail;

// No element has this slot.
const NOWHERE: Slot = Slot(u32::MAX);

// Adds a vertex.
pub(super) fn put_vert(rt: &impl Abort, st: &mut Store, name: u32, point: [i64; 3]) -> Slot
    ensures { IsLive st.new.verts.cells result.0 }
{
    confirm(rt, "a place for a vertex", st.spare(Part::Vert) > 0);
    confirm(rt, "a place for its name", name < st.reach()[0]);
    confirm(rt, "a new name", st.vert_slot(name).is_none());
    let s = st.add_vert(name, point);
    confirm(rt, "a live vertex", st.has_vert(s));
    s
}

// The fields of a vertex.
fn vert_fields(st: &Store, s: Slot) -> (u32, [i64; 3], Option<Slot>)
    requires { IsLive st.now.verts.cells s.0 }
{
    (st.vert_number(s), st.point(s), st.first_edge(s))
}

// Writes each field of a vertex.
fn write_vert(rt: &impl Abort, st: &mut Store, s: Slot)
    requires { IsLive st.old.verts.cells s.0 }
    ensures { IsLive st.new.verts.cells s.0 }
{
    st.set_point(s, [4, 5, 6]);
    confirm(rt, "a live vertex", st.has_vert(s));
    st.set_first_edge(s, Some(Slot(7)));
    confirm(rt, "a live vertex", st.has_vert(s));
}

// A vertex comes and goes.
fn vert_passes(rt: &impl Abort, st: &mut Store) {
    let s = put_vert(rt, st, 5, [1, -2, 3]);
    let found = [st.vert_slot(5), st.vert_from(0), st.vert_from(5)];
    confirm(rt, "found", found == [Some(s); 3]);
    let missed = [st.vert_slot(8), st.vert_from(6)];
    confirm(rt, "missed", missed == [None; 2]);
    confirm(rt, "nowhere", !st.has_vert(NOWHERE));
    confirm(rt, "new", vert_fields(st, s) == (5, [1, -2, 3], None));
    write_vert(rt, st, s);
    confirm(
        rt,
        "written",
        vert_fields(st, s) == (5, [4, 5, 6], Some(Slot(7))),
    );
    st.drop_vert(s);
    let missed = [st.vert_slot(5), st.vert_from(0)];
    confirm(rt, "dropped", missed == [None; 2]);
}

// Adds an edge.
pub(super) fn put_edge(rt: &impl Abort, st: &mut Store, name: u32, ends: [Slot; 2]) -> Slot
    ensures { IsLive st.new.edges.cells result.0 }
{
    confirm(rt, "a place for an edge", st.spare(Part::Edge) > 0);
    confirm(rt, "a place for its name", name < st.reach()[1]);
    confirm(rt, "a new name", st.edge_slot(name).is_none());
    let s = st.add_edge(name, ends);
    confirm(rt, "a live edge", st.has_edge(s));
    s
}

// The fields of an edge.
fn edge_fields(st: &Store, s: Slot) -> (u32, [Slot; 2], Option<Slot>)
    requires { IsLive st.now.edges.cells s.0 }
{
    (st.edge_number(s), st.ends(s), st.first_loop(s))
}

// Writes each field of an edge.
fn write_edge(rt: &impl Abort, st: &mut Store, s: Slot)
    requires { IsLive st.old.edges.cells s.0 }
    ensures { IsLive st.new.edges.cells s.0 }
{
    st.set_ends(s, [Slot(4), Slot(5)]);
    confirm(rt, "a live edge", st.has_edge(s));
    st.set_first_loop(s, Some(Slot(9)));
    confirm(rt, "a live edge", st.has_edge(s));
}

// An edge comes and goes.
fn edge_passes(rt: &impl Abort, st: &mut Store) {
    let s = put_edge(rt, st, 7, [Slot(3), Slot(4)]);
    let found = [st.edge_slot(7), st.edge_from(2)];
    confirm(rt, "found", found == [Some(s); 2]);
    confirm(rt, "missed", st.edge_from(8).is_none());
    confirm(rt, "nowhere", !st.has_edge(NOWHERE));
    confirm(
        rt,
        "new",
        edge_fields(st, s) == (7, [Slot(3), Slot(4)], None),
    );
    write_edge(rt, st, s);
    let written = (7, [Slot(4), Slot(5)], Some(Slot(9)));
    confirm(rt, "written", edge_fields(st, s) == written);
    st.drop_edge(s);
    confirm(rt, "dropped", st.edge_slot(7).is_none());
}

// Adds a face.
pub(super) fn put_face(rt: &impl Abort, st: &mut Store, name: u32) -> Slot
    ensures { IsLive st.new.faces.cells result.0 }
{
    confirm(rt, "a place for a face", st.spare(Part::Face) > 0);
    confirm(rt, "a place for its name", name < st.reach()[2]);
    confirm(rt, "a new name", st.face_slot(name).is_none());
    let s = st.add_face(name);
    confirm(rt, "a live face", st.has_face(s));
    s
}

// The fields of a face.
fn face_fields(st: &Store, s: Slot) -> (u32, Option<Slot>, u32)
    requires { IsLive st.now.faces.cells s.0 }
{
    (st.face_number(s), st.face_loop(s), st.face_len(s))
}

// Writes each field of a face.
fn write_face(rt: &impl Abort, st: &mut Store, s: Slot)
    requires { IsLive st.old.faces.cells s.0 }
    ensures { IsLive st.new.faces.cells s.0 }
{
    st.set_face_loop(s, Some(Slot(2)));
    confirm(rt, "a live face", st.has_face(s));
    st.set_face_len(s, 3);
    confirm(rt, "a live face", st.has_face(s));
}

// A face comes and goes.
fn face_passes(rt: &impl Abort, st: &mut Store) {
    let s = put_face(rt, st, 0);
    let found = [st.face_slot(0), st.face_from(0)];
    confirm(rt, "found", found == [Some(s); 2]);
    confirm(rt, "missed", st.face_from(1).is_none());
    confirm(rt, "nowhere", !st.has_face(NOWHERE));
    confirm(rt, "new", face_fields(st, s) == (0, None, 0));
    write_face(rt, st, s);
    confirm(rt, "written", face_fields(st, s) == (0, Some(Slot(2)), 3));
    st.drop_face(s);
    confirm(rt, "dropped", st.face_slot(0).is_none());
}

// Adds a loop.
pub(super) fn put_loop(rt: &impl Abort, st: &mut Store) -> Slot
    ensures { IsLive st.new.loops result.0 }
{
    confirm(rt, "a place for a loop", st.spare(Part::Loop) > 0);
    let s = st.add_loop(Slot(1), Slot(2), Slot(3));
    confirm(rt, "a live loop", st.has_loop(s));
    s
}

// The fields of a loop.
fn loop_fields(st: &Store, s: Slot) -> [Slot; 3]
    requires { IsLive st.now.loops s.0 }
{
    [st.loop_vert(s), st.loop_edge(s), st.loop_face(s)]
}

// Writes each field of a loop.
fn write_loop(rt: &impl Abort, st: &mut Store, s: Slot)
    requires { IsLive st.old.loops s.0 }
    ensures { IsLive st.new.loops s.0 }
{
    st.set_loop_vert(s, Slot(11));
    st.set_loop_edge(s, Slot(12));
    st.set_loop_face(s, Slot(13));
    confirm(rt, "a live loop", st.has_loop(s));
}

// A loop comes and goes.
fn loop_passes(rt: &impl Abort, st: &mut Store) {
    confirm(rt, "none", st.loop_from(0).is_none());
    let s = put_loop(rt, st);
    let found = [st.loop_from(0), st.loop_from(s.0)];
    confirm(rt, "found", found == [Some(s); 2]);
    confirm(rt, "nowhere", !st.has_loop(NOWHERE));
    confirm(rt, "new", loop_fields(st, s) == [Slot(1), Slot(2), Slot(3)]);
    write_loop(rt, st, s);
    let written = [Slot(11), Slot(12), Slot(13)];
    confirm(rt, "written", loop_fields(st, s) == written);
    st.drop_loop(s);
    confirm(rt, "dropped", st.loop_from(0).is_none());
}

#[test]
fn elements_of_each_kind(rt: HostRuntime) -> Result<(), Fail> {
    laws::small_store();
    let mut st = roomy(rt.alloc())?;
    vert_passes(&rt, &mut st);
    edge_passes(&rt, &mut st);
    face_passes(&rt, &mut st);
    loop_passes(&rt, &mut st);
    Ok(())
}

// Adds a vertex of every name below the count, and drops those with an odd name again.
fn add_and_drop(st: &mut Store, count: u32)
    requires room { count ≤ spare_count st.old.verts.cells }
    requires reach { count ≤ length st.old.verts.names }
    requires unnamed { (name : ℕ) → at st.old.verts.names name ≡ None }
{
    for name in 0..count {
        let slot = st.add_vert(name, [name as i64, 0, 0]);
        if name % 2 == 1 {
            st.drop_vert(slot);
        }
    }
}

// How many vertices there are, rising, each with the next even number as its name and as the first number of its point.
fn count_even(st: &Store, count: u32) -> u32
    requires { count ≤ 1_000_000 }
{
    for walked in 0..count {
        let name = 2 * walked;
        let Some(slot) = st.vert_from(name.saturating_sub(1)) else {
            return walked;
        };
        if st.vert_number(slot) != name || st.point(slot) != [name as i64, 0, 0] {
            return walked;
        }
    }
    count
}

#[test]
fn a_million_come_and_go(rt: HostRuntime) -> Result<(), Fail> {
    let mut st = Store::new(rt.alloc());
    st.reserve(1_000_000, 0, 0, 0, [1_000_000, 0, 0])?;
    add_and_drop(&mut st, 1_000_000);
    confirm(&rt, "even names", count_even(&st, 1_000_000) == 500_000);
    Ok(())
}
