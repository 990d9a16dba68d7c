//! The rows of all elements of a kind, added up.

ghost use Rattle.std.specs.Prelude.{◌≡◌, length, IfOk, OnOk};
ghost use Rattle.std.specs.List.{fold};
ghost use Rattle.mesh_model.specs.Complex.{width};
ghost use Rattle.mesh_model.specs.Table.{at};
ghost use Rattle.mesh_model.specs.Valid.{IsValid};
ghost use Rattle.layer_sums.specs.Sums.{vert_rows, edge_rows, face_rows, corner_rows, rows_at, names_of, row_sums, plus};
ghost use Rattle.layer_sums.specs.Sums.{AreWithin};

use crate::adding::add_row;
use mesh_model::{
    EdgeName, Elem, FaceName, Kind, NoMemory, Shape, VertName, edge_row, face_row, read_corners,
    vert_row,
};
use std::alloc::Global;

// What a face is read into, again and again: the vertices and edges of its corners, and their rows of values.
#[derive(Drop)]
struct Buffers {
    sides: Vec<(VertName, EdgeName)>,
    numbers: Vec<i64>,
}

/// The rows of all elements of a kind added up, number by number: for corners those of all faces. In one pass over the
/// names of the kind, in time proportional to these and to the numbers of the elements' rows.
pub(crate) fn row_sums<S: Shape>(alloc: Global, shape: &S, kind: Kind) -> Result<Vec<i64>, NoMemory>
    requires { IsValid (S.complex shape.now) }
    ensures { IfOk result (λ v. v.items ≡ row_sums (S.complex shape.now) kind) }
{
    let mut buffers = Buffers {
        sides: Vec::new(alloc),
        numbers: Vec::new(alloc),
    };
    let mut sums = Vec::new(alloc);
    sums.resize(shape.width(kind), 0)?;
    for n in 0..names_of(shape, kind) {
        add_at(shape, kind, n, &mut sums, &mut buffers)?;
    }
    Ok(sums)
}

// The next name of a kind, of corners that of faces.
fn names_of<S: Shape>(shape: &S, kind: Kind) -> u32
    ensures { result ≡ names_of (S.complex shape.now) kind }
{
    let next = shape.counters();
    match kind {
        Kind::Verts => next.verts,
        Kind::Edges => next.edges,
        Kind::Corners => next.faces,
        Kind::Faces => next.faces,
    }
}

// Adds the rows of what stands at a name of a kind.
fn add_at<S: Shape>(
    shape: &S,
    kind: Kind,
    n: u32,
    sums: &mut [i64],
    buffers: &mut Buffers,
) -> Result<(), NoMemory>
    requires valid { IsValid (S.complex shape.now) }
    requires wide { length sums.old ≡ width (S.complex shape.now) kind }
    requires room { AreWithin 3000000000 sums.old }
    ensures { OnOk result (sums.new ≡ fold plus sums.old (rows_at (S.complex shape.now) kind n)) }
{
    match kind {
        Kind::Verts => add_vert(shape, VertName(n), sums),
        Kind::Edges => add_edge(shape, EdgeName(n), sums),
        Kind::Corners => return add_corners(shape, FaceName(n), sums, buffers),
        Kind::Faces => add_face(shape, FaceName(n), sums),
    }
    Ok(())
}

// Adds the row of a vertex, if it is there.
fn add_vert<S: Shape>(shape: &S, v: VertName, sums: &mut [i64])
    requires valid { IsValid (S.complex shape.now) }
    requires wide { length sums.old ≡ width (S.complex shape.now) Kind.Verts }
    requires room { AreWithin 3000000000 sums.old }
    ensures { sums.new ≡ fold plus sums.old (vert_rows (at (S.complex shape.now).verts v.0)) }
{
    if shape.has(Elem::Vert(v)) {
        add_row(sums, vert_row(shape, v).as_slice());
    }
}

// Adds the row of an edge, if it is there.
fn add_edge<S: Shape>(shape: &S, e: EdgeName, sums: &mut [i64])
    requires valid { IsValid (S.complex shape.now) }
    requires wide { length sums.old ≡ width (S.complex shape.now) Kind.Edges }
    requires room { AreWithin 3000000000 sums.old }
    ensures { sums.new ≡ fold plus sums.old (edge_rows (at (S.complex shape.now).edges e.0)) }
{
    if shape.has(Elem::Edge(e)) {
        add_row(sums, edge_row(shape, e).as_slice());
    }
}

// Adds the row of a face, if it is there.
fn add_face<S: Shape>(shape: &S, f: FaceName, sums: &mut [i64])
    requires valid { IsValid (S.complex shape.now) }
    requires wide { length sums.old ≡ width (S.complex shape.now) Kind.Faces }
    requires room { AreWithin 3000000000 sums.old }
    ensures { sums.new ≡ fold plus sums.old (face_rows (at (S.complex shape.now).faces f.0)) }
{
    if shape.has(Elem::Face(f)) {
        add_row(sums, face_row(shape, f).as_slice());
    }
}

// Adds the rows of the corners of a face, if it is there.
fn add_corners<S: Shape>(
    shape: &S,
    f: FaceName,
    sums: &mut [i64],
    buffers: &mut Buffers,
) -> Result<(), NoMemory>
    requires valid { IsValid (S.complex shape.now) }
    requires wide { length sums.old ≡ width (S.complex shape.now) Kind.Corners }
    requires room { AreWithin 3000000000 sums.old }
    ensures { OnOk result (sums.new ≡ fold plus sums.old (corner_rows (at (S.complex shape.now).faces f.0))) }
{
    if !shape.has(Elem::Face(f)) {
        return Ok(());
    }
    read_corners(shape, f, &mut buffers.sides, &mut buffers.numbers)?;
    let width = sums.len();
    let mut rest = buffers.numbers.as_slice();
    for corner in 0..shape.corner_count(f) {
        let (row, more) = rest.split_at(width);
        add_row(sums, row);
        rest = more;
    }
    Ok(())
}
