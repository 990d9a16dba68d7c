//! Numbers put into the rows of elements.
ghost use Rattle.std.specs.Prelude.{◌≡◌, ◌+◌, ◌<◌, ◌≤◌, length, IsTrue, IfOk, OnOk};
ghost use Rattle.std.specs.List.{All};
ghost use Rattle.mesh_model.specs.Table.{IsThere};
ghost use Rattle.mesh_model.specs.Complex.{width};
ghost use Rattle.mesh_model.specs.Closure.{AreLive};
ghost use Rattle.mesh_model.specs.Valid.{IsSound};
ghost use Rattle.mesh_model.specs.Naming.{is_rising, vert_numbers, edge_numbers, face_numbers};
ghost use Rattle.mesh_core.specs.Seen.{now};
ghost use Rattle.op_values.specs.Putting.{AreAllowed, put_from, vert_put, edge_put, face_put, corners_put};
ghost use Rattle.op_values.specs.Putting.{verts_put, edges_put, faces_put, all_corners_put, rows_put};

use mesh_core::{EdgeName, FaceName, Kind, Mesh, NoMemory, Shape, VertName};
use mesh_model::{edge_row, face_row, read_corners, vert_row};
use op_slots::Buffer;
use std::alloc::Global;

/// Puts numbers into the rows of live elements of a sound complex, from a place on, for corners into those of all
/// corners of live faces. The complex stays sound. After `NoMemory` some of them may have the numbers. It takes time
/// that grows with the elements and their rows, and for a face's corners with the square of their number.
pub(crate) fn put_numbers(
    alloc: Global,
    mesh: &mut Mesh,
    kind: Kind,
    geom: &Buffer,
    from: usize,
    numbers: &[i64],
) -> Result<(), NoMemory>
    requires sound { IsSound (now mesh.old) }
    requires live { AreLive (now mesh.old) geom.now }
    requires fits { from + length numbers.now ≤ width (now mesh.old) kind }
    requires allowed { AreAllowed (put_from from numbers.now) kind (now mesh.old) }
    ensures now { OnOk result (now mesh.new ≡ rows_put (put_from from numbers.now) kind (now mesh.old) geom.now) }
    ensures sound { OnOk result (IsSound (now mesh.new)) }
    ensures base { mesh.new.base ≡ mesh.old.base }
{
    match kind {
        Kind::Verts => put_at_verts(alloc, mesh, geom.verts(), from, numbers),
        Kind::Edges => put_at_edges(alloc, mesh, geom.edges(), from, numbers),
        Kind::Corners => put_at_corners(alloc, mesh, geom.faces(), from, numbers),
        Kind::Faces => put_at_faces(alloc, mesh, geom.faces(), from, numbers),
    }
}

// Puts numbers into the rows of live vertices.
fn put_at_verts(
    alloc: Global,
    mesh: &mut Mesh,
    verts: &[VertName],
    from: usize,
    numbers: &[i64],
) -> Result<(), NoMemory>
    requires live { All (λ v. IsThere (now mesh.old).verts v.0) verts.now }
    requires rising { IsTrue (is_rising (vert_numbers verts.now)) }
    requires fits { from + length numbers.now ≤ width (now mesh.old) Kind.Verts }
    ensures now { OnOk result (now mesh.new ≡ verts_put (put_from from numbers.now) (now mesh.old) verts.now) }
    ensures base { mesh.new.base ≡ mesh.old.base }
{
    for v in verts {
        put_at_vert(alloc, mesh, *v, from, numbers)?;
    }
    Ok(())
}

// Puts numbers into the rows of live edges.
fn put_at_edges(
    alloc: Global,
    mesh: &mut Mesh,
    edges: &[EdgeName],
    from: usize,
    numbers: &[i64],
) -> Result<(), NoMemory>
    requires live { All (λ e. IsThere (now mesh.old).edges e.0) edges.now }
    requires rising { IsTrue (is_rising (edge_numbers edges.now)) }
    requires fits { from + length numbers.now ≤ width (now mesh.old) Kind.Edges }
    ensures now { OnOk result (now mesh.new ≡ edges_put (put_from from numbers.now) (now mesh.old) edges.now) }
    ensures base { mesh.new.base ≡ mesh.old.base }
{
    for e in edges {
        put_at_edge(alloc, mesh, *e, from, numbers)?;
    }
    Ok(())
}

// Puts numbers into the rows of live faces.
fn put_at_faces(
    alloc: Global,
    mesh: &mut Mesh,
    faces: &[FaceName],
    from: usize,
    numbers: &[i64],
) -> Result<(), NoMemory>
    requires live { All (λ f. IsThere (now mesh.old).faces f.0) faces.now }
    requires rising { IsTrue (is_rising (face_numbers faces.now)) }
    requires fits { from + length numbers.now ≤ width (now mesh.old) Kind.Faces }
    ensures now { OnOk result (now mesh.new ≡ faces_put (put_from from numbers.now) (now mesh.old) faces.now) }
    ensures base { mesh.new.base ≡ mesh.old.base }
{
    for f in faces {
        put_at_face(alloc, mesh, *f, from, numbers)?;
    }
    Ok(())
}

// Puts numbers into the rows of all corners of live faces.
fn put_at_corners(
    alloc: Global,
    mesh: &mut Mesh,
    faces: &[FaceName],
    from: usize,
    numbers: &[i64],
) -> Result<(), NoMemory>
    requires live { All (λ f. IsThere (now mesh.old).faces f.0) faces.now }
    requires rising { IsTrue (is_rising (face_numbers faces.now)) }
    requires fits { from + length numbers.now ≤ width (now mesh.old) Kind.Corners }
    ensures now { OnOk result (now mesh.new ≡ all_corners_put (put_from from numbers.now) (now mesh.old) faces.now) }
    ensures base { mesh.new.base ≡ mesh.old.base }
{
    for f in faces {
        put_at_corners_of(alloc, mesh, *f, from, numbers)?;
    }
    Ok(())
}

// Puts numbers into the row of a live vertex.
fn put_at_vert(
    alloc: Global,
    mesh: &mut Mesh,
    v: VertName,
    from: usize,
    numbers: &[i64],
) -> Result<(), NoMemory>
    requires there { IsThere (now mesh.old).verts v.0 }
    requires fits { from + length numbers.now ≤ width (now mesh.old) Kind.Verts }
    ensures now { OnOk result (now mesh.new ≡ vert_put (put_from from numbers.now) (now mesh.old) v) }
    ensures base { mesh.new.base ≡ mesh.old.base }
{
    let _ = mesh.counters();
    let was = vert_row(mesh, v);
    let row = changed_row(alloc, was.as_slice(), from, numbers)?;
    mesh.set_vert_vals(v, &row)
}

// Puts numbers into the row of a live edge.
fn put_at_edge(
    alloc: Global,
    mesh: &mut Mesh,
    e: EdgeName,
    from: usize,
    numbers: &[i64],
) -> Result<(), NoMemory>
    requires there { IsThere (now mesh.old).edges e.0 }
    requires fits { from + length numbers.now ≤ width (now mesh.old) Kind.Edges }
    ensures now { OnOk result (now mesh.new ≡ edge_put (put_from from numbers.now) (now mesh.old) e) }
    ensures base { mesh.new.base ≡ mesh.old.base }
{
    let _ = mesh.counters();
    let was = edge_row(mesh, e);
    let row = changed_row(alloc, was.as_slice(), from, numbers)?;
    mesh.set_edge_vals(e, &row)
}

// Puts numbers into the row of a live face.
fn put_at_face(
    alloc: Global,
    mesh: &mut Mesh,
    f: FaceName,
    from: usize,
    numbers: &[i64],
) -> Result<(), NoMemory>
    requires there { IsThere (now mesh.old).faces f.0 }
    requires fits { from + length numbers.now ≤ width (now mesh.old) Kind.Faces }
    ensures now { OnOk result (now mesh.new ≡ face_put (put_from from numbers.now) (now mesh.old) f) }
    ensures base { mesh.new.base ≡ mesh.old.base }
{
    let _ = mesh.counters();
    let was = face_row(mesh, f);
    let row = changed_row(alloc, was.as_slice(), from, numbers)?;
    mesh.set_face_vals(f, &row)
}

// Puts numbers into the rows of all corners of a live face, which are read in one walk round it.
fn put_at_corners_of(
    alloc: Global,
    mesh: &mut Mesh,
    f: FaceName,
    from: usize,
    numbers: &[i64],
) -> Result<(), NoMemory>
    requires there { IsThere (now mesh.old).faces f.0 }
    requires fits { from + length numbers.now ≤ width (now mesh.old) Kind.Corners }
    ensures now { OnOk result (now mesh.new ≡ corners_put (put_from from numbers.now) (now mesh.old) f) }
    ensures base { mesh.new.base ≡ mesh.old.base }
{
    let _ = mesh.counters();
    let mut sides = Vec::new(alloc);
    let mut rows = Vec::new(alloc);
    read_corners(mesh, f, &mut sides, &mut rows)?;
    let width = mesh.width(Kind::Corners);
    let mut start = 0;
    for i in 0..mesh.corner_count(f) {
        let row = changed_row(alloc, &rows[start..start + width], from, numbers)?;
        mesh.set_corner_vals(f, i, &row)?;
        start += width;
    }
    Ok(())
}

// A row with other numbers from a place on.
fn changed_row(
    alloc: Global,
    row: &[i64],
    from: usize,
    numbers: &[i64],
) -> Result<Vec<i64>, NoMemory>
    requires { from + length numbers.now ≤ length row.now }
    ensures { IfOk result (λ made. made.items ≡ put_from from numbers.now row.now) }
{
    let mut made = Vec::with_capacity(alloc, row.len())?;
    made.extend_from_slice(&row[..from])?;
    made.extend_from_slice(numbers)?;
    made.extend_from_slice(&row[from + numbers.len()..])?;
    Ok(made)
}
