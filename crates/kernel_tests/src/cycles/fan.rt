//! A fan of three triangles around an edge, whose cycles of all kinds change in turns.
ghost use Rattle.std.specs.Prelude.{◌<◌};
ghost use Rattle.mesh_cycles.specs.Cycles.{AreCycles};
ghost use Rattle.kernel_tests.specs.Sound.{IsSound};

use super::edits::{take_second_edge, take_second_loop, turn_edges, turn_loops};
use super::reading::{corners_are, edges_are, loops_are};
use super::sample::{add_corner, add_face, add_verts, empty, join};
use mesh_store::{Slot, Store};
use std::process::Abort;
use std::test::Fail;

// A triangle on the common edge from vertex 0 to 1: its edges to its own vertex and back, and its corners.
#[derive(Clone, Copy)]
struct Triangle {
    there: Slot,
    back: Slot,
    corners: [Slot; 3],
}

// Adds the triangle of the vertices 0, 1 and `face + 2`. In between, first members are put last.
fn add_triangle(rt: &impl Abort, st: &mut Store, face: u32) -> Triangle
    requires sound { IsSound st.old }
    requires small { face < 8 }
    ensures { IsSound st.new }
{
    let vert = face + 2;
    let to = 2 * face + 1;
    let from = 2 * face + 2;
    let there = join(rt, st, to, 1, vert);
    add_face(rt, st, face);
    let near = add_corner(rt, st, 0, 0, face);
    turn_edges(rt, st, 1);
    let back = join(rt, st, from, vert, 0);
    let far = add_corner(rt, st, 1, to, face);
    turn_loops(rt, st, 0);
    let own = add_corner(rt, st, vert, from, face);
    Triangle {
        there,
        back,
        corners: [near, far, own],
    }
}

// The edges around the fan's vertices.
fn read_edges(rt: &impl Abort, st: &Store, common: Slot, a: Triangle, b: Triangle, c: Triangle)
    requires { AreCycles st.now }
{
    edges_are(rt, st, 0, &[common, a.back, b.back, c.back]);
    edges_are(rt, st, 1, &[b.there, a.there, c.there, common]);
    edges_are(rt, st, 2, &[a.there, a.back]);
    edges_are(rt, st, 4, &[c.there, c.back]);
}

// The loops along the fan's edges, and the corners of its faces.
fn read_loops(rt: &impl Abort, st: &Store, a: [Slot; 3], b: [Slot; 3], c: [Slot; 3])
    requires { AreCycles st.now }
{
    loops_are(rt, st, 0, &[a[0], c[0], b[0]]);
    loops_are(rt, st, 1, &[a[1]]);
    loops_are(rt, st, 4, &[b[2]]);
    loops_are(rt, st, 5, &[c[1]]);
    corners_are(rt, st, 0, &a);
    corners_are(rt, st, 1, &b);
    corners_are(rt, st, 2, &c);
}

// Builds the fan, reads it, and takes members out that aren't the first.
fn turn_fan(rt: &impl Abort, st: &mut Store)
    requires { IsSound st.old }
{
    add_verts(rt, st, 5);
    let common = join(rt, st, 0, 0, 1);
    let a = add_triangle(rt, st, 0);
    let b = add_triangle(rt, st, 1);
    let c = add_triangle(rt, st, 2);
    read_edges(rt, st, common, a, b, c);
    read_loops(rt, st, a.corners, b.corners, c.corners);
    take_second_edge(rt, st, 0);
    edges_are(rt, st, 0, &[common, b.back, c.back]);
    take_second_loop(rt, st, 0);
    loops_are(rt, st, 0, &[a.corners[0], b.corners[0]]);
}

#[test]
fn a_fan_of_three_triangles(rt: HostRuntime) -> Result<(), Fail> {
    let mut st = empty(rt.alloc(), 32)?;
    turn_fan(&rt, &mut st);
    Ok(())
}
