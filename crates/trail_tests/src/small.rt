//! Small pasts, by values worked out by hand.

use crate::confirm::confirm;
use crate::noting::{note_edge, note_face, note_vert, trim};
use crate::told::{corner, corner_count, corner_value, counts, ends, face_value, point, said};
use mesh_model::{Draft, EdgeName, Elem, FaceName, NoMemory, Point, VertName};
use mesh_trail::Past;
use sample_drafts::{grown_square, square};
use std::alloc::Global;
use std::process::Abort;
use std::test::Fail;

// Notes of vertices of a square, of which one isn't there and is noted twice.
fn note_verts(past: &mut Past, now: &Draft) -> Result<(), NoMemory> {
    note_vert(past, 4, now)?;
    note_vert(past, 2, now)?;
    note_vert(past, 4, now)
}

// Notes of three edges, of which two aren't there.
fn note_edges(past: &mut Past, now: &Draft) -> Result<(), NoMemory> {
    note_edge(past, 5, now)?;
    note_edge(past, 0, now)?;
    note_edge(past, 4, now)
}

// Notes of two faces, of which one isn't there.
fn note_faces(past: &mut Past, now: &Draft) -> Result<(), NoMemory> {
    note_face(past, 1, now)?;
    note_face(past, 0, now)
}

// All these notes.
fn note_some(past: &mut Past, now: &Draft) -> Result<(), NoMemory> {
    note_verts(past, now)?;
    note_edges(past, now)?;
    note_faces(past, now)
}

// A past of a shape with these notes.
fn past_of(alloc: Global, now: &Draft) -> Result<Past, NoMemory> {
    let mut past = Past::new(alloc, now);
    note_some(&mut past, now)?;
    Ok(past)
}

// A past of a square with these notes.
fn noted(alloc: Global) -> Result<Past, NoMemory> {
    let now = square(alloc, 0, 5)?;
    past_of(alloc, &now)
}

/// What is said of vertices.
pub(crate) fn said_of_verts(past: &Past) -> [u8; 3] {
    [
        said(past, Elem::Vert(VertName(2))),
        said(past, Elem::Vert(VertName(3))),
        said(past, Elem::Vert(VertName(4))),
    ]
}

/// What is said of edges.
pub(crate) fn said_of_edges(past: &Past) -> [u8; 4] {
    [
        said(past, Elem::Edge(EdgeName(0))),
        said(past, Elem::Edge(EdgeName(1))),
        said(past, Elem::Edge(EdgeName(4))),
        said(past, Elem::Edge(EdgeName(5))),
    ]
}

/// What is said of faces.
pub(crate) fn said_of_faces(past: &Past) -> [u8; 2] {
    [
        said(past, Elem::Face(FaceName(0))),
        said(past, Elem::Face(FaceName(1))),
    ]
}

// The notes are those that were made.
fn has_notes(rt: &impl Abort, past: &Past) {
    confirm(rt, "how many", counts(past) == [2, 3, 0, 2]);
    confirm(rt, "next names", past.counters() == [4, 4, 1]);
    confirm(rt, "vertices", said_of_verts(past) == [2, 0, 1]);
    confirm(rt, "edges", said_of_edges(past) == [2, 0, 1, 1]);
    confirm(rt, "faces", said_of_faces(past) == [2, 1]);
}

// The records of a vertex and an edge.
fn has_records(rt: &impl Abort, past: &Past) {
    let there = Point { x: 4, y: 4, z: 0 };
    confirm(rt, "a point", point(past, 2) == Some(there));
    confirm(rt, "no point", point(past, 4) == None);
    let pair = [VertName(0), VertName(1)];
    confirm(rt, "ends", ends(past, 0) == Some(pair));
    confirm(rt, "no ends", ends(past, 4) == None);
}

/// The record of the face: its corners, and the rows of values.
pub(crate) fn has_face(rt: &impl Abort, past: &Past) {
    confirm(rt, "corners", corner_count(past, 0) == Some(4));
    let last = (VertName(3), EdgeName(3));
    confirm(rt, "a corner", corner(past, 0, 3) == Some(last));
    confirm(rt, "no corner", corner(past, 0, 4) == None);
    let uv = [corner_value(past, 0, 2, 0), corner_value(past, 0, 2, 1)];
    confirm(rt, "a place in the texture", uv == [Some(5), Some(6)]);
    let row = [face_value(past, 0, 0), face_value(past, 0, 1)];
    confirm(rt, "material and smoothing", row == [Some(2), Some(3)]);
}

#[test]
fn notes_are_told(rt: HostRuntime) -> Result<(), Fail> {
    let past = noted(rt.alloc())?;
    has_notes(&rt, &past);
    has_records(&rt, &past);
    has_face(&rt, &past);
    Ok(())
}

// The least noted names from some numbers on.
fn least_verts(past: &Past) -> [Option<VertName>; 3] {
    [past.vert_from(0), past.vert_from(3), past.vert_from(5)]
}

// The same of edges, noted in no order.
fn least_edges(past: &Past) -> [Option<EdgeName>; 3] {
    [past.edge_from(0), past.edge_from(1), past.edge_from(5)]
}

// The same of faces.
fn least_faces(past: &Past) -> [Option<FaceName>; 3] {
    [past.face_from(0), past.face_from(1), past.face_from(2)]
}

#[test]
fn notes_come_in_order(rt: HostRuntime) -> Result<(), Fail> {
    let past = noted(rt.alloc())?;
    let verts = [Some(VertName(2)), Some(VertName(4)), None];
    confirm(&rt, "vertices", least_verts(&past) == verts);
    let edges = [Some(EdgeName(0)), Some(EdgeName(4)), Some(EdgeName(5))];
    confirm(&rt, "edges", least_edges(&past) == edges);
    let faces = [Some(FaceName(0)), Some(FaceName(1)), None];
    confirm(&rt, "faces", least_faces(&past) == faces);
    Ok(())
}

// Trims a past by a square with a vertex and an edge more.
fn trim_by_square(alloc: Global, past: &mut Past, height: i64, u: i64) -> Result<(), NoMemory> {
    let now = grown_square(alloc, height, u)?;
    trim(past, &now)
}

// The past, trimmed by such a square.
fn trimmed(alloc: Global, height: i64, u: i64) -> Result<Past, NoMemory> {
    let mut past = noted(alloc)?;
    trim_by_square(alloc, &mut past, height, u)?;
    Ok(past)
}

// The vertex 4 and the edge 4 are there now and weren't. All that is as it was is gone.
#[test]
fn a_trim_leaves_what_differs(rt: HostRuntime) -> Result<(), Fail> {
    let past = trimmed(rt.alloc(), 0, 5)?;
    confirm(&rt, "how many", counts(&past) == [1, 1, 0, 0]);
    confirm(&rt, "vertices", said_of_verts(&past) == [0, 0, 1]);
    confirm(&rt, "edges", said_of_edges(&past) == [0, 0, 1, 0]);
    confirm(&rt, "next names", past.counters() == [4, 4, 1]);
    Ok(())
}

// Now the third vertex lies higher, and the third corner of the face elsewhere in the texture.
#[test]
fn a_trim_leaves_earlier_records(rt: HostRuntime) -> Result<(), Fail> {
    let past = trimmed(rt.alloc(), 1, 7)?;
    confirm(&rt, "how many", counts(&past) == [2, 1, 0, 1]);
    confirm(&rt, "vertices", said_of_verts(&past) == [2, 0, 1]);
    let there = Point { x: 4, y: 4, z: 0 };
    confirm(&rt, "the earlier point", point(&past, 2) == Some(there));
    has_face(&rt, &past);
    Ok(())
}

// A copy of a past with notes.
fn copied(alloc: Global) -> Result<Past, NoMemory> {
    let past = noted(alloc)?;
    past.copy()
}

#[test]
fn a_copy_has_the_same_notes(rt: HostRuntime) -> Result<(), Fail> {
    let copy = copied(rt.alloc())?;
    has_notes(&rt, &copy);
    has_records(&rt, &copy);
    has_face(&rt, &copy);
    Ok(())
}

// Begins a past anew by a square with a vertex and an edge more.
fn restart_by_square(alloc: Global, past: &mut Past) -> Result<(), NoMemory> {
    let now = grown_square(alloc, 0, 5)?;
    past.restart(&now);
    Ok(())
}

// A past begun anew.
fn restarted(alloc: Global) -> Result<Past, NoMemory> {
    let mut past = noted(alloc)?;
    restart_by_square(alloc, &mut past)?;
    Ok(past)
}

#[test]
fn a_past_begins_anew(rt: HostRuntime) -> Result<(), Fail> {
    let past = restarted(rt.alloc())?;
    confirm(&rt, "none", counts(&past) == [0, 0, 0, 0]);
    confirm(&rt, "next names", past.counters() == [5, 5, 1]);
    confirm(&rt, "vertices", said_of_verts(&past) == [0, 0, 0]);
    Ok(())
}

// Makes room for a note of each kind, and makes these.
fn note_each_kind(past: &mut Past, now: &Draft) -> Result<(), NoMemory> {
    past.reserve(1, 1, 4, 1)?;
    note_vert(past, 0, now)?;
    note_edge(past, 1, now)?;
    note_face(past, 0, now)
}

// A past of a shape with a note of each kind.
fn past_of_each_kind(alloc: Global, now: &Draft) -> Result<Past, NoMemory> {
    let mut past = Past::new(alloc, now);
    note_each_kind(&mut past, now)?;
    Ok(past)
}

// The same of a square.
fn with_each_kind(alloc: Global) -> Result<Past, NoMemory> {
    let now = square(alloc, 0, 5)?;
    past_of_each_kind(alloc, &now)
}

#[test]
fn a_note_of_each_kind(rt: HostRuntime) -> Result<(), Fail> {
    let past = with_each_kind(rt.alloc())?;
    confirm(&rt, "how many", counts(&past) == [1, 1, 0, 1]);
    has_face(&rt, &past);
    Ok(())
}
