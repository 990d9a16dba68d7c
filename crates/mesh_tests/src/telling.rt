//! What a mesh tells, compared with what is wanted. Nothing is told of an element that isn't there.

use crate::kept::same;
use crate::loading::model_of;
use crate::steps::{Model, Side, Tell};
use mesh_core::Mesh;
use mesh_model::{
    Draft, EdgeName, Elem, FaceName, Kind, NoMemory, Point, Rule, Shape, VertName, read_corners,
};
use std::alloc::Global;

/// Whether a mesh tells what is wanted.
pub(crate) fn tells(mesh: &Mesh, alloc: Global, what: &Tell) -> Result<bool, NoMemory> {
    match *what {
        Tell::Face(f, sides, rows) => face_is(mesh, alloc, f, sides, rows),
        Tell::Is(model) => is_model(mesh, alloc, model),
        Tell::Snapshot => is_snapshot(mesh, alloc),
        Tell::Copy => is_copy(mesh, alloc),
        _ => Ok(tells_more(mesh, what)),
    }
}

// The same of what is read without memory.
fn tells_more(mesh: &Mesh, what: &Tell) -> bool {
    match *what {
        Tell::Counts(n) => counts_are(mesh, n),
        Tell::Names(verts, edges, faces) => names_are(mesh, verts, edges, faces),
        Tell::Gone(x) => !mesh.has(x),
        Tell::Vert(v, p, edges, loops) => vert_is(mesh, v, p, edges, loops),
        Tell::FacesAt(v, faces) => faces_at_are(mesh, v, faces),
        Tell::Edge(e, ends, loops) => edge_is(mesh, e, ends, loops),
        Tell::FacesAlong(e, faces) => faces_along_are(mesh, e, faces),
        Tell::Joining(ends, wanted) => joining_is(mesh, ends, wanted),
        Tell::Corner(f, i, at, row) => corner_is(mesh, f, i, at, row),
        Tell::Values(x, row) => values_are(mesh, x, row),
        Tell::Layer(kind, name, width, rule) => layer_is(mesh, kind, name, width, rule),
        Tell::Layers(wanted) => layers_are(mesh, wanted),
        Tell::Material(k, wanted) => mesh.material(k) == wanted,
        Tell::Library(k, wanted) => mesh.library(k) == wanted,
        Tell::Spokes(from, to) => spokes_are(mesh, from, to),
        Tell::Places(f, places) => places_are(mesh, f, places),
        Tell::Least(least, v, e, f) => {
            mesh.vert_from(least) == v && mesh.edge_from(least) == e && mesh.face_from(least) == f
        }
        Tell::CanLose(v, wanted) => mesh.can_lose_vert(v) == wanted,
        _ => false,
    }
}

fn counts_are(mesh: &Mesh, wanted: [u32; 4]) -> bool {
    let n = mesh.counters();
    [n.verts, n.edges, n.faces, n.corners] == wanted
}

// The names that are there, in order.
fn names_are(mesh: &Mesh, verts: &[VertName], edges: &[EdgeName], faces: &[FaceName]) -> bool {
    mesh.verts_rising().eq(verts.iter().copied())
        && mesh.edges_rising().eq(edges.iter().copied())
        && mesh.faces_rising().eq(faces.iter().copied())
}

fn vert_is(
    mesh: &Mesh,
    v: VertName,
    wanted: Point,
    edges: &[EdgeName],
    loops: &[(FaceName, u32)],
) -> bool {
    if !mesh.has(Elem::Vert(v)) {
        return false;
    }
    mesh.point(v) == wanted
        && mesh.edges_of_vert(v).eq(edges.iter().copied())
        && mesh.loops_of_vert(v).eq(loops.iter().copied())
}

fn faces_at_are(mesh: &Mesh, v: VertName, faces: &[FaceName]) -> bool {
    if !mesh.has(Elem::Vert(v)) {
        return false;
    }
    mesh.faces_of_vert(v).eq(faces.iter().copied())
}

fn edge_is(mesh: &Mesh, e: EdgeName, wanted: [VertName; 2], loops: &[(FaceName, u32)]) -> bool {
    if !mesh.has(Elem::Edge(e)) {
        return false;
    }
    mesh.ends(e) == wanted
        && mesh.is_loose(e) == loops.is_empty()
        && mesh.loops_of_edge(e).eq(loops.iter().copied())
}

fn faces_along_are(mesh: &Mesh, e: EdgeName, faces: &[FaceName]) -> bool {
    if !mesh.has(Elem::Edge(e)) {
        return false;
    }
    mesh.faces_of_edge(e).eq(faces.iter().copied())
}

fn joining_is(mesh: &Mesh, ends: [VertName; 2], wanted: Option<EdgeName>) -> bool {
    let [a, b] = ends;
    if !mesh.has(Elem::Vert(a)) || !mesh.has(Elem::Vert(b)) {
        return false;
    }
    mesh.find_edge(a, b) == wanted
}

// A face in one walk.
fn face_is(
    mesh: &Mesh,
    alloc: Global,
    f: FaceName,
    wanted: &[Side],
    rows: &[i64],
) -> Result<bool, NoMemory> {
    if !mesh.has(Elem::Face(f)) {
        return Ok(false);
    }
    // What is read is linked.
    let _linked = mesh.counters();
    let mut sides = Vec::new(alloc);
    let mut numbers = Vec::new(alloc);
    read_corners(mesh, f, &mut sides, &mut numbers)?;
    Ok(sides.as_slice() == wanted && numbers.as_slice() == rows)
}

fn places_are(mesh: &Mesh, f: FaceName, wanted: &[(FaceName, u32)]) -> bool {
    if !mesh.has(Elem::Face(f)) {
        return false;
    }
    mesh.corners_of_face(f).eq(wanted.iter().copied())
}

// A corner by itself.
fn corner_is(mesh: &Mesh, f: FaceName, i: u32, wanted: Side, row: &[i64]) -> bool {
    if !mesh.has(Elem::Face(f))
        || i >= mesh.corner_count(f)
        || row.len() != mesh.width(Kind::Corners)
    {
        return false;
    }
    for k in 0..row.len() {
        if mesh.corner_value(f, i, k) != row[k] {
            return false;
        }
    }
    mesh.corner(f, i) == wanted
}

// The row of values of an element.
fn values_are(mesh: &Mesh, x: Elem, wanted: &[i64]) -> bool {
    match x {
        Elem::Vert(v) => vert_values_are(mesh, v, wanted),
        Elem::Edge(e) => edge_values_are(mesh, e, wanted),
        Elem::Face(f) => face_values_are(mesh, f, wanted),
    }
}

fn vert_values_are(mesh: &Mesh, v: VertName, wanted: &[i64]) -> bool {
    if !mesh.has(Elem::Vert(v)) || wanted.len() != mesh.width(Kind::Verts) {
        return false;
    }
    for k in 0..wanted.len() {
        if mesh.vert_value(v, k) != wanted[k] {
            return false;
        }
    }
    true
}

fn edge_values_are(mesh: &Mesh, e: EdgeName, wanted: &[i64]) -> bool {
    if !mesh.has(Elem::Edge(e)) || wanted.len() != mesh.width(Kind::Edges) {
        return false;
    }
    for k in 0..wanted.len() {
        if mesh.edge_value(e, k) != wanted[k] {
            return false;
        }
    }
    true
}

fn face_values_are(mesh: &Mesh, f: FaceName, wanted: &[i64]) -> bool {
    if !mesh.has(Elem::Face(f)) || wanted.len() != mesh.width(Kind::Faces) {
        return false;
    }
    for k in 0..wanted.len() {
        if mesh.face_value(f, k) != wanted[k] {
            return false;
        }
    }
    true
}

fn layers_are(mesh: &Mesh, wanted: [usize; 4]) -> bool {
    let found = [
        mesh.layers(Kind::Verts),
        mesh.layers(Kind::Edges),
        mesh.layers(Kind::Corners),
        mesh.layers(Kind::Faces),
    ];
    found == wanted
}

fn layer_is(mesh: &Mesh, kind: Kind, name: &[u8], width: u8, rule: Rule) -> bool {
    if mesh.layers(kind) == 0 {
        return false;
    }
    mesh.layer_name(kind, 0) == name
        && mesh.layer_width(kind, 0) == width
        && mesh.layer_rule(kind, 0) == rule
}

// The edges around vertex 0, in order.
fn spokes_are(mesh: &Mesh, from: u32, to: u32) -> bool {
    if !mesh.has(Elem::Vert(VertName(0))) {
        return false;
    }
    mesh.edges_of_vert(VertName(0)).eq((from..to).map(EdgeName))
}

// The mesh is the model.
fn is_model(mesh: &Mesh, alloc: Global, model: Model) -> Result<bool, NoMemory> {
    let wanted = model_of(alloc, model)?;
    same(alloc, &wanted, mesh)
}

// The snapshot of the mesh is as the mesh.
fn is_snapshot(mesh: &Mesh, alloc: Global) -> Result<bool, NoMemory> {
    let snapshot = mesh.snapshot()?;
    same(alloc, &snapshot, mesh)
}

// A copy of the mesh is as the mesh.
fn is_copy(mesh: &Mesh, alloc: Global) -> Result<bool, NoMemory> {
    let copy = Draft::copy_of(alloc, mesh)?;
    same(alloc, &copy, mesh)
}
