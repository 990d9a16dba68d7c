//! What is there changes, where what the call asks holds.
ghost use Rattle.std.specs.Prelude.{IsTrue};
ghost use Rattle.std.specs.List.{All};
ghost use Rattle.mesh_model.specs.Valid.{IsCornerLinked};
ghost use Rattle.mesh_core.specs.Seen.{now};

use crate::making::has_room;
use crate::steps::{Change, Placed, Side};
use mesh_core::Mesh;
use mesh_model::{
    CornerRec, EdgeName, Elem, FaceName, Kind, NoMemory, Point, Shape, Vals, VertName,
};
use std::alloc::Global;

/// Changes what is there. The answer is whether the call could be made.
pub(crate) fn change(mesh: &mut Mesh, alloc: Global, what: &Change) -> Result<bool, NoMemory> {
    match *what {
        Change::Point(v, p) => set_point(mesh, v, p),
        Change::End(e, which, v) => set_end(mesh, e, which, v),
        Change::Over(f) => turn_over(mesh, f),
        Change::Insert(f, i, at, row) => insert(mesh, alloc, f, i, at, row),
        Change::Remove(f, i) => remove(mesh, f, i),
        Change::Reface(f, placed) => reface(mesh, alloc, f, placed),
        Change::Values(x, row) => set_values(mesh, x, row),
        Change::CornerValues(f, i, row) => set_corner_values(mesh, f, i, row),
    }
}

fn set_point(mesh: &mut Mesh, v: VertName, p: Point) -> Result<bool, NoMemory> {
    if !mesh.has(Elem::Vert(v)) {
        return Ok(false);
    }
    mesh.set_point(v, p)?;
    Ok(true)
}

fn set_end(mesh: &mut Mesh, e: EdgeName, which: u8, v: VertName) -> Result<bool, NoMemory> {
    if which > 1 || !mesh.has(Elem::Edge(e)) || !mesh.has(Elem::Vert(v)) {
        return Ok(false);
    }
    let [a, b] = mesh.ends(e);
    let other = if which == 0 { b } else { a };
    if other == v {
        return Ok(false);
    }
    mesh.set_end(e, which, v)?;
    Ok(true)
}

fn turn_over(mesh: &mut Mesh, f: FaceName) -> Result<bool, NoMemory> {
    if !mesh.has(Elem::Face(f)) {
        return Ok(false);
    }
    mesh.reverse_face(f)?;
    Ok(true)
}

// A corner with its values.
fn corner_of(alloc: Global, at: Side, row: &[i64]) -> Result<CornerRec, NoMemory> {
    let vals = Vals::of(alloc, row)?;
    Ok(CornerRec {
        vert: at.0,
        edge: at.1,
        vals,
    })
}

// A corner's vertex and edge are there, and its row has a number for each number of the layers.
fn is_linked(mesh: &Mesh, k: &CornerRec) -> bool
    ensures { IsTrue result → IsCornerLinked (now mesh.now) k.now }
{
    if !mesh.has(Elem::Vert(k.vert)) {
        return false;
    }
    if !mesh.has(Elem::Edge(k.edge)) {
        return false;
    }
    k.vals.len() == mesh.width(Kind::Corners)
}

fn insert(
    mesh: &mut Mesh,
    alloc: Global,
    f: FaceName,
    i: u32,
    at: Side,
    row: &[i64],
) -> Result<bool, NoMemory> {
    let corner = corner_of(alloc, at, row)?;
    insert_corner(mesh, f, i, &corner)
}

fn insert_corner(
    mesh: &mut Mesh,
    f: FaceName,
    i: u32,
    corner: &CornerRec,
) -> Result<bool, NoMemory> {
    if !mesh.has(Elem::Face(f)) || !has_room(mesh, 1) || !is_linked(mesh, corner) {
        return Ok(false);
    }
    if i > mesh.corner_count(f) {
        return Ok(false);
    }
    mesh.insert_corner(f, i, corner)?;
    Ok(true)
}

fn remove(mesh: &mut Mesh, f: FaceName, i: u32) -> Result<bool, NoMemory> {
    if !mesh.has(Elem::Face(f)) {
        return Ok(false);
    }
    let count = mesh.corner_count(f);
    if count < 2 || i >= count {
        return Ok(false);
    }
    mesh.remove_corner(f, i)?;
    Ok(true)
}

// This holds of each corner.
fn are_linked(mesh: &Mesh, corners: &[CornerRec]) -> bool
    ensures { IsTrue result → All (IsCornerLinked (now mesh.now)) corners.now }
{
    corners.iter().all(|k| is_linked(mesh, k))
}

// A corner more, with its place.
fn push_corner(corners: &mut Vec<CornerRec>, alloc: Global, k: &Placed) -> Result<(), NoMemory> {
    let corner = corner_of(alloc, k.0, &k.1)?;
    corners.push(corner)?;
    Ok(())
}

fn corners_of(alloc: Global, placed: &[Placed]) -> Result<Vec<CornerRec>, NoMemory> {
    let mut corners = Vec::new(alloc);
    for k in placed {
        push_corner(&mut corners, alloc, k)?;
    }
    Ok(corners)
}

fn reface(
    mesh: &mut Mesh,
    alloc: Global,
    f: FaceName,
    placed: &[Placed],
) -> Result<bool, NoMemory> {
    let corners = corners_of(alloc, placed)?;
    stand_on(mesh, f, &corners)
}

fn stand_on(mesh: &mut Mesh, f: FaceName, corners: &[CornerRec]) -> Result<bool, NoMemory> {
    if corners.is_empty() || !has_room(mesh, corners.len()) {
        return Ok(false);
    }
    if !mesh.has(Elem::Face(f)) || !are_linked(mesh, corners) {
        return Ok(false);
    }
    mesh.reface(f, corners)?;
    Ok(true)
}

fn set_values(mesh: &mut Mesh, x: Elem, row: &[i64]) -> Result<bool, NoMemory> {
    if !mesh.has(x) {
        return Ok(false);
    }
    match x {
        Elem::Vert(v) if row.len() == mesh.width(Kind::Verts) => mesh.set_vert_vals(v, row)?,
        Elem::Edge(e) if row.len() == mesh.width(Kind::Edges) => mesh.set_edge_vals(e, row)?,
        Elem::Face(f) if row.len() == mesh.width(Kind::Faces) => mesh.set_face_vals(f, row)?,
        _ => return Ok(false),
    }
    Ok(true)
}

fn set_corner_values(mesh: &mut Mesh, f: FaceName, i: u32, row: &[i64]) -> Result<bool, NoMemory> {
    if !mesh.has(Elem::Face(f)) || row.len() != mesh.width(Kind::Corners) {
        return Ok(false);
    }
    if i >= mesh.corner_count(f) {
        return Ok(false);
    }
    mesh.set_corner_vals(f, i, row)?;
    Ok(true)
}
