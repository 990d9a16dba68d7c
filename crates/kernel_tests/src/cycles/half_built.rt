//! Faces and loops at a vertex and along an edge, where a face comes twice and where cycles lack loops.
ghost use Rattle.kernel_tests.specs.Sound.{IsSound};

use super::edits::take_loop;
use super::reading::{corners_are, faces_along_are, faces_at_are, loops_are, loops_at_are};
use super::sample::{add_corner, add_face, add_loop, add_verts, empty, join};
use mesh_store::{Slot, Store};
use std::process::Abort;
use std::test::Fail;

// Face 1 has two corners along edge 0, and face 0 has one there and one along edge 1.
fn read_twice(rt: &impl Abort, st: &mut Store)
    requires { IsSound st.old }
{
    add_verts(rt, st, 3);
    join(rt, st, 0, 0, 1);
    join(rt, st, 1, 1, 2);
    let f = add_face(rt, st, 0);
    let g = add_face(rt, st, 1);
    let a = add_corner(rt, st, 0, 0, 1);
    let b = add_corner(rt, st, 1, 0, 1);
    let c = add_corner(rt, st, 1, 0, 0);
    let d = add_corner(rt, st, 1, 1, 0);
    loops_are(rt, st, 0, &[a, b, c]);
    faces_along_are(rt, st, 0, &[g, f]);
    loops_at_are(rt, st, 0, &[a]);
    loops_at_are(rt, st, 1, &[b, c, d]);
    loops_at_are(rt, st, 2, &[]);
    faces_at_are(rt, st, 0, &[g]);
    faces_at_are(rt, st, 1, &[g, f]);
    faces_at_are(rt, st, 2, &[]);
}

#[test]
fn a_face_twice_along_an_edge(rt: HostRuntime) -> Result<(), Fail> {
    let mut st = empty(rt.alloc(), 16)?;
    read_twice(&rt, &mut st);
    Ok(())
}

// Three faces at edge 0, of which face 2 begins with a loop that the edge's cycle doesn't have: faces, and that loop.
fn faces_apart(rt: &impl Abort, st: &mut Store) -> ([Slot; 3], Slot)
    requires { IsSound st.old }
    ensures { IsSound st.new }
{
    add_verts(rt, st, 2);
    join(rt, st, 0, 0, 1);
    let p = add_face(rt, st, 0);
    let q = add_face(rt, st, 1);
    let r = add_face(rt, st, 2);
    let apart = add_corner(rt, st, 0, 0, 2);
    take_loop(rt, st, 0);
    ([p, q, r], apart)
}

// Six loops along edge 0, of which the third and the fifth are corners of their faces, too.
fn half_faces(rt: &impl Abort, st: &mut Store) -> [Slot; 6]
    requires { IsSound st.old }
    ensures { IsSound st.new }
{
    let a = add_loop(rt, st, 0, 0, 0);
    let b = add_loop(rt, st, 1, 0, 1);
    let c = add_corner(rt, st, 0, 0, 0);
    let d = add_loop(rt, st, 0, 0, 1);
    let e = add_corner(rt, st, 1, 0, 2);
    let f = add_loop(rt, st, 0, 0, 2);
    [a, b, c, d, e, f]
}

// A face comes with the first of its loops that goes along the edge or stands at the vertex, else with its first there.
fn read_half_built(rt: &impl Abort, st: &mut Store)
    requires { IsSound st.old }
{
    let ([p, q, r], apart) = faces_apart(rt, st);
    let [a, b, c, d, e, f] = half_faces(rt, st);
    corners_are(rt, st, 0, &[c]);
    corners_are(rt, st, 1, &[]);
    corners_are(rt, st, 2, &[apart, e]);
    loops_are(rt, st, 0, &[a, b, c, d, e, f]);
    // With b, c and e.
    faces_along_are(rt, st, 0, &[q, p, r]);
    loops_at_are(rt, st, 0, &[a, c, d, f]);
    // With c, d and f.
    faces_at_are(rt, st, 0, &[p, q, r]);
    loops_at_are(rt, st, 1, &[b, e]);
    faces_at_are(rt, st, 1, &[q, r]);
}

#[test]
fn faces_of_half_built_cycles(rt: HostRuntime) -> Result<(), Fail> {
    let mut st = empty(rt.alloc(), 32)?;
    read_half_built(&rt, &mut st);
    Ok(())
}
