//! The edge that joins two vertices.
ghost use Rattle.std.specs.Prelude.{◌≡◌, ◌<◌, ◌↔◌, IsTrue, IfSome, MatchOption};
ghost use Rattle.raw_pool.specs.Slots.{IsLive};
ghost use Rattle.mesh_cycles.specs.Cycles.{AreCycles, HasWholeDisk};
ghost use Rattle.mesh_cycles.specs.Found.{joins, NoneJoins, JoinsFirst, number_of};

use crate::around_vert::edges_of_vert;
use mesh_store::{Slot, Store};

/// The least-named live edge that joins two vertices, and `None` exactly where none does.
///
/// The vertex `a` is live, and its disk cycle has every dart of a live edge that ends at it. It takes time that grows
/// with the number of edges around `a`.
pub fn find_edge(st: &Store, a: Slot, b: Slot) -> Option<Slot>
    requires cycles { AreCycles st.now }
    requires live { IsLive st.now.verts.cells a.0 }
    requires whole { HasWholeDisk st.now a.0 }
    ensures { MatchOption result (NoneJoins st.now a.0 b.0) (JoinsFirst st.now a.0 b.0) }
{
    let mut least = None;
    for e in edges_of_vert(st, a) {
        if is_between(st, e, a, b) && is_lesser(st, e, least) {
            least = Some(e);
        }
    }
    least
}

/// As [`find_edge`], where the disk cycles of both vertices are whole. It takes time that grows with the edges around
/// the one that has fewer.
pub fn edge_between(st: &Store, a: Slot, b: Slot) -> Option<Slot>
    requires cycles { AreCycles st.now }
    requires live_a { IsLive st.now.verts.cells a.0 }
    requires live_b { IsLive st.now.verts.cells b.0 }
    requires whole_a { HasWholeDisk st.now a.0 }
    requires whole_b { HasWholeDisk st.now b.0 }
    ensures { MatchOption result (NoneJoins st.now a.0 b.0) (JoinsFirst st.now a.0 b.0) }
{
    if has_fewer(st, a, b) {
        find_edge(st, a, b)
    } else {
        find_edge(st, b, a)
    }
}

// Whether a vertex has at most as many edges as another, which is found in as many steps as the lesser number.
fn has_fewer(st: &Store, a: Slot, b: Slot) -> bool
    requires cycles { AreCycles st.now }
    requires live_a { IsLive st.now.verts.cells a.0 }
    requires live_b { IsLive st.now.verts.cells b.0 }
{
    let mut others = edges_of_vert(st, b);
    for _ in edges_of_vert(st, a) {
        if others.next().is_none() {
            return false;
        }
    }
    true
}

// Whether a live edge joins two vertices.
fn is_between(st: &Store, e: Slot, a: Slot, b: Slot) -> bool
    requires { IsLive st.now.edges.cells e.0 }
    ensures { result ≡ joins st.now a.0 b.0 e }
{
    let ends = st.ends(e);
    (ends[0] == a && ends[1] == b) || (ends[0] == b && ends[1] == a)
}

// Whether a live edge has a lesser name than another one, if there is one.
fn is_lesser(st: &Store, e: Slot, other: Option<Slot>) -> bool
    requires live { IsLive st.now.edges.cells e.0 }
    requires other { IfSome other (λ k. IsLive st.now.edges.cells k.0) }
    ensures { IsTrue result ↔ IfSome other (λ k. number_of st.now e < number_of st.now k) }
{
    match other {
        None => true,
        Some(k) => st.edge_number(e) < st.edge_number(k),
    }
}
