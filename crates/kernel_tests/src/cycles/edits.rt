//! Members of cycles come and go.
ghost use Rattle.kernel_tests.specs.Sound.{IsSound};

use super::firsts::{some_dart, some_radial, some_round};
use super::sample::put_loop;
use crate::named;
use link_ring::Links;
use mesh_cycles::{
    disk_add, disk_remove, loop_insert, loop_insert_counted, loop_remove, loop_remove_counted,
    loop_reverse, loop_turn, radial_add, radial_remove,
};
use mesh_store::{Slot, Store};
use std::process::Abort;

// More than any face has.
const WRONG_LEN: u32 = 1_000_000_000;

/// Takes the first edge of a vertex out of the vertex's disk cycle.
pub(super) fn take_edge(rt: &impl Abort, st: &mut Store, vert: u32)
    requires { IsSound st.old }
    ensures { IsSound st.new }
{
    let vert = named::vert(rt, st, vert);
    let dart = some_dart(rt, st, vert);
    disk_remove(st, vert, dart);
}

/// Takes the first edge of a vertex out, and puts it last.
pub(super) fn turn_edges(rt: &impl Abort, st: &mut Store, vert: u32)
    requires { IsSound st.old }
    ensures { IsSound st.new }
{
    let vert = named::vert(rt, st, vert);
    let dart = some_dart(rt, st, vert);
    disk_remove(st, vert, dart);
    disk_add(st, vert, dart);
}

/// Takes the second edge of a vertex out of the vertex's disk cycle; the only one, where there is one.
pub(super) fn take_second_edge(rt: &impl Abort, st: &mut Store, vert: u32)
    requires { IsSound st.old }
    ensures { IsSound st.new }
{
    let vert = named::vert(rt, st, vert);
    let first = some_dart(rt, st, vert);
    let second = st.next(first);
    disk_remove(st, vert, second);
}

/// Takes the first loop of an edge out of the edge's radial cycle.
pub(super) fn take_loop(rt: &impl Abort, st: &mut Store, edge: u32)
    requires { IsSound st.old }
    ensures { IsSound st.new }
{
    let edge = named::edge(rt, st, edge);
    let first = some_radial(rt, st, edge);
    radial_remove(st, edge, first.0);
}

/// Takes the first loop of an edge out, and puts it last.
pub(super) fn turn_loops(rt: &impl Abort, st: &mut Store, edge: u32)
    requires { IsSound st.old }
    ensures { IsSound st.new }
{
    let edge = named::edge(rt, st, edge);
    let first = some_radial(rt, st, edge);
    radial_remove(st, edge, first.0);
    radial_add(st, edge, first.0);
}

/// Takes the second loop of an edge out of the edge's radial cycle; the only one, where there is one.
pub(super) fn take_second_loop(rt: &impl Abort, st: &mut Store, edge: u32)
    requires { IsSound st.old }
    ensures { IsSound st.new }
{
    let edge = named::edge(rt, st, edge);
    let first = some_radial(rt, st, edge);
    let second = st.next(first);
    radial_remove(st, edge, second.0);
}

/// Adds a loop, and puts it second around its face, which has one.
pub(super) fn add_second_corner(
    rt: &impl Abort,
    st: &mut Store,
    vert: u32,
    edge: u32,
    face: u32,
) -> Slot
    requires { IsSound st.old }
    ensures { IsSound st.new }
{
    let vert = named::vert(rt, st, vert);
    let edge = named::edge(rt, st, edge);
    let face = named::face(rt, st, face);
    let l = put_loop(rt, st, vert, edge, face);
    let first = some_round(rt, st, face);
    loop_insert_counted(st, first.0, l);
    l
}

/// The same where the face's length is wrong by then.
pub(super) fn add_second_uncounted(
    rt: &impl Abort,
    st: &mut Store,
    vert: u32,
    edge: u32,
    face: u32,
) -> Slot
    requires { IsSound st.old }
    ensures { IsSound st.new }
{
    let vert = named::vert(rt, st, vert);
    let edge = named::edge(rt, st, edge);
    let face = named::face(rt, st, face);
    let l = put_loop(rt, st, vert, edge, face);
    let first = some_round(rt, st, face);
    st.set_face_len(face, WRONG_LEN);
    loop_insert(st, first.0, l);
    l
}

/// Takes the first loop of a face out of the face's loop cycle.
pub(super) fn take_corner(rt: &impl Abort, st: &mut Store, face: u32)
    requires { IsSound st.old }
    ensures { IsSound st.new }
{
    let face = named::face(rt, st, face);
    let first = some_round(rt, st, face);
    loop_remove_counted(st, face, first.0);
}

/// Takes the first loop of a face with a wrong length out of the face's loop cycle.
pub(super) fn take_uncounted(rt: &impl Abort, st: &mut Store, face: u32)
    requires { IsSound st.old }
    ensures { IsSound st.new }
{
    let face = named::face(rt, st, face);
    let first = some_round(rt, st, face);
    st.set_face_len(face, WRONG_LEN);
    loop_remove(st, face, first.0);
}

/// Makes the second loop of a face its first.
pub(super) fn turn_corners(rt: &impl Abort, st: &mut Store, face: u32)
    requires { IsSound st.old }
    ensures { IsSound st.new }
{
    let face = named::face(rt, st, face);
    let first = some_round(rt, st, face);
    let second = st.next(first);
    loop_turn(st, face, second.0);
}

/// Turns the loops of a face round.
pub(super) fn turn_round(rt: &impl Abort, st: &mut Store, face: u32)
    requires { IsSound st.old }
    ensures { IsSound st.new }
{
    let face = named::face(rt, st, face);
    loop_reverse(st, face);
}
