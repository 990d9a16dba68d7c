//! What the iterators give, read to the end.
ghost use Rattle.mesh_cycles.specs.Cycles.{AreCycles};

use crate::confirm::confirm;
use crate::named;
use mesh_cycles::{
    corners_of_face, edges_of_vert, faces_of_edge, faces_of_vert, loops_of_edge, loops_of_vert,
};
use mesh_store::{Slot, Store};
use std::process::Abort;

/// The edges around a vertex are these.
pub(super) fn edges_are(rt: &impl Abort, st: &Store, vert: u32, expected: &[Slot])
    requires { AreCycles st.now }
{
    let vert = named::vert(rt, st, vert);
    let same = edges_of_vert(st, vert).eq(expected.iter().copied());
    confirm(rt, "edges around a vertex", same);
}

/// The loops along an edge are these.
pub(super) fn loops_are(rt: &impl Abort, st: &Store, edge: u32, expected: &[Slot])
    requires { AreCycles st.now }
{
    let edge = named::edge(rt, st, edge);
    let same = loops_of_edge(st, edge).eq(expected.iter().copied());
    confirm(rt, "loops along an edge", same);
}

/// The corners of a face are these, and its length is their number.
pub(super) fn corners_are(rt: &impl Abort, st: &Store, face: u32, expected: &[Slot])
    requires { AreCycles st.now }
{
    let face = named::face(rt, st, face);
    let len = st.face_len(face) as usize;
    confirm(rt, "length of a face", len == expected.len());
    let same = corners_of_face(st, face).eq(expected.iter().copied());
    confirm(rt, "corners of a face", same);
}

/// The faces along an edge are these.
pub(super) fn faces_along_are(rt: &impl Abort, st: &Store, edge: u32, expected: &[Slot])
    requires { AreCycles st.now }
{
    let edge = named::edge(rt, st, edge);
    let same = faces_of_edge(st, edge).eq(expected.iter().copied());
    confirm(rt, "faces along an edge", same);
}

/// The loops at a vertex are these.
pub(super) fn loops_at_are(rt: &impl Abort, st: &Store, vert: u32, expected: &[Slot])
    requires { AreCycles st.now }
{
    let vert = named::vert(rt, st, vert);
    let same = loops_of_vert(st, vert).eq(expected.iter().copied());
    confirm(rt, "loops at a vertex", same);
}

/// The faces at a vertex are these.
pub(super) fn faces_at_are(rt: &impl Abort, st: &Store, vert: u32, expected: &[Slot])
    requires { AreCycles st.now }
{
    let vert = named::vert(rt, st, vert);
    let same = faces_of_vert(st, vert).eq(expected.iter().copied());
    confirm(rt, "faces at a vertex", same);
}
