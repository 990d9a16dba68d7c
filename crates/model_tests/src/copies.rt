//! Copies of drafts, and drafts without some vertices.
ghost use Rattle.std.specs.Prelude.{◌≡◌, is_some};
ghost use Rattle.std.specs.List.{list_all};
ghost use Rattle.mesh_model.specs.Table.{at};
ghost use Rattle.mesh_model.specs.Valid.{IsValid};

use crate::building::edge;
use crate::confirm::confirm;
use crate::drafts::{are_counted, square};
use crate::reading::{is_loose, is_square};
use mesh_model::{Draft, EdgeName, NoMemory, Shape, VertName};
use sample_drafts::is_there;
use std::alloc::Global;
use std::process::Abort;
use std::test::Fail;

// A square is read.
fn read_square(rt: &impl Abort, draft: &mut Draft) -> Result<(), NoMemory> {
    square(rt, draft)?;
    is_square(rt, draft);
    Ok(())
}

#[test]
fn a_square_is_read(rt: HostRuntime) -> Result<(), Fail> {
    let mut draft = Draft::new(rt.alloc());
    read_square(&rt, &mut draft)?;
    Ok(())
}

// A diagonal comes into a copy, and not into the draft.
fn copies_part(rt: &impl Abort, draft: &mut Draft, copy: &mut Draft) -> Result<(), NoMemory> {
    let made = edge(rt, copy, 0, 2)?;
    confirm(rt, "a diagonal", made == EdgeName(4));
    let found = draft.find_edge(VertName(0), VertName(2))?;
    confirm(rt, "no diagonal", found.is_none());
    let side = copy.find_edge(VertName(1), VertName(2))?;
    confirm(rt, "a side", side == Some(EdgeName(1)));
    Ok(())
}

// An equal draft, which goes its own way.
fn copy_square(rt: &impl Abort, draft: &mut Draft) -> Result<(), NoMemory> {
    square(rt, draft)?;
    let mut copy = draft.copy()?;
    is_square(rt, &copy);
    copies_part(rt, draft, &mut copy)
}

#[test]
fn a_copy_goes_its_own_way(rt: HostRuntime) -> Result<(), Fail> {
    let mut draft = Draft::new(rt.alloc());
    copy_square(&rt, &mut draft)?;
    Ok(())
}

// The draft of a shape.
fn copy_shape(rt: &impl Abort, alloc: Global, draft: &mut Draft) -> Result<(), NoMemory> {
    square(rt, draft)?;
    let copy = Draft::copy_of(alloc, draft)?;
    is_square(rt, &copy);
    Ok(())
}

#[test]
fn a_copy_of_a_shape_is_read(rt: HostRuntime) -> Result<(), Fail> {
    let mut draft = Draft::new(rt.alloc());
    copy_shape(&rt, rt.alloc(), &mut draft)?;
    Ok(())
}

// Vertices are there.
fn are_there(draft: &Draft, verts: &[VertName]) -> bool
    ensures { result ≡ list_all (λ v. is_some (at draft.now.verts v.0)) verts.now }
{
    verts.iter().all(|v| is_there(draft, *v))
}

// A square without its last vertex: two edges are left, both loose, and no face.
fn take_vertex(rt: &impl Abort, draft: &Draft) -> Result<(), NoMemory>
    requires { IsValid draft.now }
{
    let gone = [VertName(3)];
    confirm(rt, "a vertex", are_there(draft, &gone));
    let left = draft.without_verts(&gone)?;
    is_rest(rt, &left);
    Ok(())
}

// What is left of a square without its last vertex.
fn is_rest(rt: &impl Abort, left: &Draft) {
    are_counted(rt, left, [4, 4, 1, 0]);
    confirm(rt, "three vertices", left.vert_from(3).is_none());
    confirm(rt, "two edges", left.edge_from(2).is_none());
    confirm(rt, "no face", left.face_from(0).is_none());
    confirm(rt, "a loose edge", is_loose(rt, left, EdgeName(1)));
}

// A vertex goes with its edges and faces.
fn take_from_square(rt: &impl Abort, draft: &mut Draft) -> Result<(), NoMemory>
    requires { IsValid draft.old }
{
    square(rt, draft)?;
    take_vertex(rt, draft)
}

#[test]
fn a_vertex_goes_with_its_edges_and_faces(rt: HostRuntime) -> Result<(), Fail> {
    let mut draft = Draft::new(rt.alloc());
    take_from_square(&rt, &mut draft)?;
    Ok(())
}
