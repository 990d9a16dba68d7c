//! What a past tells of its notes, in plain numbers.
ghost use Rattle.std.specs.Prelude.{◌≡◌, IsTrue, IsSome};
ghost use Rattle.mesh_trail.specs.Noted.{noted};

use mesh_model::{EdgeName, Elem, FaceName, Kind, Point, VertName};
use mesh_trail::Past;

/// What a past says of an element: 0 where it has no note, 1 where it wasn't there, 2 where it was.
pub(crate) fn said(past: &Past, x: Elem) -> u8 {
    if !past.has(x) {
        return 0;
    }
    if past.was_absent(x) { 1 } else { 2 }
}

/// The numbers of notes of vertices, edges, corners and faces.
pub(crate) fn counts(past: &Past) -> [usize; 4] {
    [
        past.entries(Kind::Verts),
        past.entries(Kind::Edges),
        past.entries(Kind::Corners),
        past.entries(Kind::Faces),
    ]
}

// Whether a vertex has a note with a record.
fn has_vert(past: &Past, v: VertName) -> bool
    ensures { IsTrue result → IsSome (noted past.now.changes.verts v.0) }
{
    if !past.has(Elem::Vert(v)) {
        return false;
    }
    if past.was_absent(Elem::Vert(v)) {
        return false;
    }
    true
}

// Whether an edge has a note with a record.
fn has_edge(past: &Past, e: EdgeName) -> bool
    ensures { IsTrue result → IsSome (noted past.now.changes.edges e.0) }
{
    if !past.has(Elem::Edge(e)) {
        return false;
    }
    if past.was_absent(Elem::Edge(e)) {
        return false;
    }
    true
}

// Whether a face has a note with a record.
fn has_face(past: &Past, f: FaceName) -> bool
    ensures { IsTrue result → IsSome (noted past.now.changes.faces f.0) }
{
    if !past.has(Elem::Face(f)) {
        return false;
    }
    if past.was_absent(Elem::Face(f)) {
        return false;
    }
    true
}

/// The point that a vertex had.
pub(crate) fn point(past: &Past, v: u32) -> Option<Point> {
    if !has_vert(past, VertName(v)) {
        return None;
    }
    Some(past.point(VertName(v)))
}

/// The ends that an edge had.
pub(crate) fn ends(past: &Past, e: u32) -> Option<[VertName; 2]> {
    if !has_edge(past, EdgeName(e)) {
        return None;
    }
    Some(past.ends(EdgeName(e)))
}

/// The number of corners that a face had.
pub(crate) fn corner_count(past: &Past, f: u32) -> Option<u32> {
    if !has_face(past, FaceName(f)) {
        return None;
    }
    Some(past.corner_count(FaceName(f)))
}

/// The vertex and the edge of a face's corner.
pub(crate) fn corner(past: &Past, f: u32, i: u32) -> Option<(VertName, EdgeName)> {
    if !has_face(past, FaceName(f)) {
        return None;
    }
    if i >= past.corner_count(FaceName(f)) {
        return None;
    }
    Some(past.corner(FaceName(f), i))
}

/// A number of the row of a face's corner.
pub(crate) fn corner_value(past: &Past, f: u32, i: u32, k: usize) -> Option<i64> {
    if !has_face(past, FaceName(f)) {
        return None;
    }
    if i >= past.corner_count(FaceName(f)) {
        return None;
    }
    if k >= past.width(Kind::Corners) {
        return None;
    }
    Some(past.corner_value(FaceName(f), i, k))
}

/// A number of a face's row.
pub(crate) fn face_value(past: &Past, f: u32, k: usize) -> Option<i64> {
    if !has_face(past, FaceName(f)) {
        return None;
    }
    if k >= past.width(Kind::Faces) {
        return None;
    }
    Some(past.face_value(FaceName(f), k))
}
