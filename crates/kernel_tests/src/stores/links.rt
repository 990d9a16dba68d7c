//! Links lead to the element itself at first, and each is written alone.
ghost use Rattle.raw_pool.specs.Slots.{IsLive};

use super::elements::{put_edge, put_loop};
use super::roomy;
use crate::confirm::confirm;
use link_ring::Links;
use mesh_store::{Dart, Radial, Round, Slot, Store};
use std::process::Abort;
use std::test::Fail;

// The links of a loop: next and previous along its edge, then around its face.
fn loop_links(st: &Store, s: Slot) -> [Slot; 4]
    requires { IsLive st.now.loops s.0 }
{
    [
        st.next(Radial(s)).0,
        st.prev(Radial(s)).0,
        st.next(Round(s)).0,
        st.prev(Round(s)).0,
    ]
}

// Writes each link of a loop.
fn write_loop_links(rt: &impl Abort, st: &mut Store, s: Slot)
    requires { IsLive st.old.loops s.0 }
    ensures { IsLive st.new.loops s.0 }
{
    st.set_next(Radial(s), Radial(Slot(21)));
    confirm(rt, "a live loop", st.has_loop(s));
    st.set_prev(Radial(s), Radial(Slot(22)));
    confirm(rt, "a live loop", st.has_loop(s));
    st.set_next(Round(s), Round(Slot(23)));
    confirm(rt, "a live loop", st.has_loop(s));
    st.set_prev(Round(s), Round(Slot(24)));
    confirm(rt, "a live loop", st.has_loop(s));
}

fn link_loop(rt: &impl Abort, st: &mut Store) {
    let s = put_loop(rt, st);
    confirm(rt, "its own", loop_links(st, s) == [s; 4]);
    write_loop_links(rt, st, s);
    let written = [Slot(21), Slot(22), Slot(23), Slot(24)];
    confirm(rt, "written", loop_links(st, s) == written);
}

// The links of an edge's two darts: next and previous of the first, then of the second.
fn dart_links(st: &Store, edge: Slot) -> [Dart; 4]
    requires { IsLive st.now.edges.cells edge.0 }
{
    let a = Dart { edge, side: 0 };
    let b = Dart { edge, side: 1 };
    [st.next(a), st.prev(a), st.next(b), st.prev(b)]
}

fn link_darts(rt: &impl Abort, st: &mut Store) {
    let edge = put_edge(rt, st, 1, [Slot(3), Slot(4)]);
    let a = Dart { edge, side: 0 };
    let b = Dart { edge, side: 1 };
    confirm(rt, "its own", dart_links(st, edge) == [a, a, b, b]);
    st.set_next(a, b);
    confirm(rt, "a live edge", st.has_edge(edge));
    st.set_prev(b, a);
    confirm(rt, "a live edge", st.has_edge(edge));
    confirm(rt, "written", dart_links(st, edge) == [b, a, b, a]);
}

#[test]
fn links_of_each_kind(rt: HostRuntime) -> Result<(), Fail> {
    let mut st = roomy(rt.alloc())?;
    link_loop(&rt, &mut st);
    link_darts(&rt, &mut st);
    Ok(())
}
