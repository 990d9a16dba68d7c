//! Cycles of small stores, read back member by member, and a vertex with many edges.
ghost use Rattle.std.specs.Prelude.{◌≤◌};
ghost use Rattle.mesh_cycles.specs.Cycles.{AreCycles};
ghost use Rattle.kernel_tests.specs.Sound.{IsSound};

mod edits;
mod fan;
mod finding;
mod firsts;
mod half_built;
mod reading;
mod sample;
mod single;

use crate::confirm::confirm;
use crate::named;
use edits::take_edge;
use mesh_cycles::edges_of_vert;
use mesh_store::Store;
use reading::edges_are;
use sample::{add_vert, empty, join};
use std::process::Abort;
use std::test::Fail;

// Adds so many vertices with an edge each to vertex 0.
fn add_spokes(rt: &impl Abort, st: &mut Store, count: u32)
    requires sound { IsSound st.old }
    requires few { count ≤ 1_000_000 }
    ensures { IsSound st.new }
{
    for name in 0..count {
        add_vert(rt, st, name + 1);
        join(rt, st, name, 0, name + 1);
    }
}

// Takes so many edges out of the disk cycle of vertex 0.
fn take_spokes(rt: &impl Abort, st: &mut Store, count: u32)
    requires { IsSound st.old }
    ensures { IsSound st.new }
{
    for _ in 0..count {
        take_edge(rt, st, 0);
    }
}

// How many edges there are around vertex 0.
fn spokes(rt: &impl Abort, st: &Store) -> u32
    requires { AreCycles st.now }
{
    let hub = named::vert(rt, st, 0);
    let mut count: u32 = 0;
    for _ in edges_of_vert(st, hub) {
        count = count.saturating_add(1);
    }
    count
}

// So many edges come at a vertex, and are taken out of its cycle.
fn turn_hub(rt: &impl Abort, st: &mut Store)
    requires { IsSound st.old }
{
    add_vert(rt, st, 0);
    add_spokes(rt, st, 100_000);
    confirm(rt, "all edges", spokes(rt, st) == 100_000);
    take_spokes(rt, st, 100_000);
    edges_are(rt, st, 0, &[]);
    let last = named::edge(rt, st, 99_999);
    edges_are(rt, st, 100_000, &[last]);
}

#[test]
fn a_hundred_thousand_edges_at_a_vertex(rt: HostRuntime) -> Result<(), Fail> {
    let mut st = empty(rt.alloc(), 100_001)?;
    turn_hub(&rt, &mut st);
    Ok(())
}
