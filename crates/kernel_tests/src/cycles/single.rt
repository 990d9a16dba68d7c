//! One cycle of each kind, as its members come and go.
ghost use Rattle.kernel_tests.specs.Sound.{IsSound};

use super::edits::{
    add_second_corner, add_second_uncounted, take_corner, take_edge, take_loop, take_uncounted,
    turn_corners, turn_round,
};
use super::reading::{corners_are, edges_are, faces_along_are, loops_are};
use super::sample::{add_corner, add_face, add_faces, add_verts, empty, join};
use mesh_cycles::laws;
use mesh_store::{Slot, Store};
use std::process::Abort;
use std::test::Fail;

// Edges come around a vertex, and the first goes.
fn turn_disk(rt: &impl Abort, st: &mut Store)
    requires { IsSound st.old }
{
    add_verts(rt, st, 4);
    edges_are(rt, st, 0, &[]);
    let a = join(rt, st, 0, 0, 1);
    let b = join(rt, st, 1, 0, 2);
    let c = join(rt, st, 2, 0, 3);
    edges_are(rt, st, 0, &[a, b, c]);
    take_edge(rt, st, 0);
    edges_are(rt, st, 0, &[b, c]);
    edges_are(rt, st, 1, &[a]);
    edges_are(rt, st, 2, &[b]);
    edges_are(rt, st, 3, &[c]);
}

#[test]
fn edges_around_vertices(rt: HostRuntime) -> Result<(), Fail> {
    laws::small_store();
    laws::lists();
    laws::new_elements();
    let mut st = empty(rt.alloc(), 8)?;
    turn_disk(&rt, &mut st);
    Ok(())
}

// Adds three faces with a corner each along edge 0, and gives faces and corners.
fn three_along(rt: &impl Abort, st: &mut Store) -> [[Slot; 3]; 2]
    requires { IsSound st.old }
    ensures { IsSound st.new }
{
    add_verts(rt, st, 2);
    join(rt, st, 0, 0, 1);
    faces_along_are(rt, st, 0, &[]);
    let f = add_face(rt, st, 0);
    let g = add_face(rt, st, 1);
    let h = add_face(rt, st, 2);
    let a = add_corner(rt, st, 0, 0, 0);
    let b = add_corner(rt, st, 1, 0, 1);
    let c = add_corner(rt, st, 0, 0, 2);
    [[f, g, h], [a, b, c]]
}

// Loops come along an edge, and go one by one.
fn turn_radial(rt: &impl Abort, st: &mut Store)
    requires { IsSound st.old }
{
    let [[f, g, h], [a, b, c]] = three_along(rt, st);
    loops_are(rt, st, 0, &[a, b, c]);
    faces_along_are(rt, st, 0, &[f, g, h]);
    take_loop(rt, st, 0);
    loops_are(rt, st, 0, &[b, c]);
    faces_along_are(rt, st, 0, &[g, h]);
    take_loop(rt, st, 0);
    take_loop(rt, st, 0);
    loops_are(rt, st, 0, &[]);
    faces_along_are(rt, st, 0, &[]);
    corners_are(rt, st, 0, &[a]);
}

#[test]
fn loops_along_an_edge(rt: HostRuntime) -> Result<(), Fail> {
    let mut st = empty(rt.alloc(), 16)?;
    turn_radial(&rt, &mut st);
    Ok(())
}

// Adds a face of four corners, each at its own vertex.
fn square(rt: &impl Abort, st: &mut Store) -> [Slot; 4]
    requires { IsSound st.old }
    ensures { IsSound st.new }
{
    add_verts(rt, st, 4);
    join(rt, st, 0, 0, 1);
    join(rt, st, 1, 1, 2);
    join(rt, st, 2, 2, 3);
    join(rt, st, 3, 3, 0);
    add_faces(rt, st, 1);
    let a = add_corner(rt, st, 0, 0, 0);
    let b = add_corner(rt, st, 1, 1, 0);
    let c = add_corner(rt, st, 2, 2, 0);
    let d = add_corner(rt, st, 3, 3, 0);
    [a, b, c, d]
}

// Corners of a face come and go, with its length right before and not.
fn change_corners(rt: &impl Abort, st: &mut Store)
    requires { IsSound st.old }
{
    let [a, b, c, d] = square(rt, st);
    corners_are(rt, st, 0, &[a, b, c, d]);
    take_uncounted(rt, st, 0);
    corners_are(rt, st, 0, &[b, c, d]);
    take_corner(rt, st, 0);
    corners_are(rt, st, 0, &[c, d]);
    let e = add_second_corner(rt, st, 1, 1, 0);
    corners_are(rt, st, 0, &[c, e, d]);
    let f = add_second_uncounted(rt, st, 0, 0, 0);
    corners_are(rt, st, 0, &[c, f, e, d]);
    loops_are(rt, st, 0, &[a, f]);
}

#[test]
fn corners_of_a_face(rt: HostRuntime) -> Result<(), Fail> {
    let mut st = empty(rt.alloc(), 16)?;
    change_corners(&rt, &mut st);
    Ok(())
}

// A face begins with its next corner, and goes the other way round.
fn turn_face(rt: &impl Abort, st: &mut Store)
    requires { IsSound st.old }
{
    let [a, b, c, d] = square(rt, st);
    turn_corners(rt, st, 0);
    corners_are(rt, st, 0, &[b, c, d, a]);
    turn_round(rt, st, 0);
    corners_are(rt, st, 0, &[b, a, d, c]);
    turn_corners(rt, st, 0);
    corners_are(rt, st, 0, &[a, d, c, b]);
    loops_are(rt, st, 0, &[a]);
    loops_are(rt, st, 3, &[d]);
}

#[test]
fn a_face_is_turned(rt: HostRuntime) -> Result<(), Fail> {
    let mut st = empty(rt.alloc(), 16)?;
    turn_face(&rt, &mut st);
    Ok(())
}
