//! What a draft tells as a shape, each call made where what it asks holds.

use crate::confirm::confirm;
use mesh_model::{Draft, EdgeName, Elem, FaceName, Kind, Point, Shape, VertName};
use std::process::Abort;

/// The ends of an edge.
pub(crate) fn are_ends(rt: &impl Abort, draft: &Draft, e: EdgeName, ends: [u32; 2]) {
    confirm(rt, "an edge", draft.has(Elem::Edge(e)));
    let [a, b] = ends;
    confirm(rt, "its ends", draft.ends(e) == [VertName(a), VertName(b)]);
}

/// Whether no corner has an edge.
pub(crate) fn is_loose(rt: &impl Abort, draft: &Draft, e: EdgeName) -> bool {
    confirm(rt, "an edge", draft.has(Elem::Edge(e)));
    draft.is_loose(e)
}

// A square's vertices, edges and faces, one by one.
fn are_elements(rt: &impl Abort, draft: &Draft) {
    let verts = [draft.vert_from(0), draft.vert_from(3)];
    confirm(
        rt,
        "vertices",
        verts == [Some(VertName(0)), Some(VertName(3))],
    );
    let edges = [draft.edge_from(1), draft.edge_from(2)];
    confirm(rt, "edges", edges == [Some(EdgeName(1)), Some(EdgeName(2))]);
    confirm(rt, "a face", draft.face_from(0) == Some(FaceName(0)));
    confirm(rt, "no more vertices", draft.vert_from(4).is_none());
    confirm(rt, "no more edges", draft.edge_from(4).is_none());
    confirm(rt, "no more faces", draft.face_from(1).is_none());
}

// The point of a square's third vertex, and the ends of its last edge.
fn are_fields(rt: &impl Abort, draft: &Draft) {
    confirm(rt, "a vertex", draft.has(Elem::Vert(VertName(2))));
    let corner = Point { x: 4, y: 4, z: 0 };
    confirm(rt, "its point", draft.point(VertName(2)) == corner);
    are_ends(rt, draft, EdgeName(3), [3, 0]);
}

// How many numbers the elements of each kind have.
fn are_widths(rt: &impl Abort, draft: &Draft) {
    let widths = [
        draft.width(Kind::Verts),
        draft.width(Kind::Edges),
        draft.width(Kind::Corners),
        draft.width(Kind::Faces),
    ];
    confirm(rt, "widths", widths == [0, 0, 2, 2]);
}

// The sides of a square's face.
fn are_sides(rt: &impl Abort, draft: &Draft) {
    let f = FaceName(0);
    let mut sides = [(VertName(0), EdgeName(0)); 4];
    confirm(rt, "a face", draft.has(Elem::Face(f)));
    confirm(rt, "four corners", draft.corner_count(f) == 4);
    confirm(
        rt,
        "one corner",
        draft.corner(f, 2) == (VertName(2), EdgeName(2)),
    );
    draft.corners(f, &mut sides);
    confirm(rt, "first", sides[0] == (VertName(0), EdgeName(0)));
    confirm(rt, "last", sides[3] == (VertName(3), EdgeName(3)));
}

// The values of a square's face and of its corners.
fn are_values(rt: &impl Abort, draft: &Draft) {
    let f = FaceName(0);
    let mut rows = [0; 8];
    confirm(rt, "a face", draft.has(Elem::Face(f)));
    confirm(rt, "four corners", draft.corner_count(f) == 4);
    confirm(rt, "two numbers a corner", draft.width(Kind::Corners) == 2);
    confirm(rt, "two numbers a face", draft.width(Kind::Faces) == 2);
    draft.corner_rows(f, &mut rows);
    confirm(rt, "places", rows == [0, 0, 9, 0, 9, -9, 0, -9]);
    confirm(rt, "a place", draft.corner_value(f, 2, 1) == -9);
    let values = [draft.face_value(f, 0), draft.face_value(f, 1)];
    confirm(rt, "material and smoothing", values == [2, 5]);
}

// A name that may be missing is a given one.
fn is_name(name: Option<&[u8]>, given: &[u8]) -> bool {
    match name {
        Some(name) => name == given,
        None => false,
    }
}

// Two materials and a library are named, and no more.
fn are_names(rt: &impl Abort, draft: &Draft) {
    confirm(rt, "a material", is_name(draft.material(1), b"blue"));
    confirm(rt, "a library", is_name(draft.library(0), b"paints.mtl"));
    confirm(rt, "no third material", draft.material(2).is_none());
    confirm(rt, "no second library", draft.library(1).is_none());
    confirm(rt, "numbers", draft.is_material(0) && draft.is_material(2));
    confirm(rt, "no number", !draft.is_material(3));
}

/// All that the draft of a square tells.
pub(crate) fn is_square(rt: &impl Abort, draft: &Draft) {
    are_elements(rt, draft);
    are_fields(rt, draft);
    are_widths(rt, draft);
    are_sides(rt, draft);
    are_values(rt, draft);
    are_names(rt, draft);
}
