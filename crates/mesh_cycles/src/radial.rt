//! Radial cycles: the loops around an edge.
ghost use Rattle.std.specs.Prelude.{◌≡◌, [], ◌∷◌, ◌++◌, Some};
ghost use Rattle.std.specs.Option.{option_map};
ghost use Rattle.raw_pool.specs.Slots.{IsLive};
ghost use Rattle.link_ring.specs.Members.{HasMember};
ghost use Rattle.mesh_store.specs.Stored.{radial_links, with_first_loop, change_edge};
ghost use Rattle.mesh_cycles.specs.Owners.{edge_of, first_radial};
ghost use Rattle.mesh_cycles.specs.Lists.{same_radial, without};
ghost use Rattle.mesh_cycles.specs.Cycles.{AreCycles, radial_of, IsInNoRadial};
ghost use Rattle.mesh_cycles.specs.Edits.{EditsRadial};

use crate::members::{push_last, take_member};
use mesh_store::{Radial, Slot, Store};

/// Puts a loop last in the radial cycle of its edge.
///
/// The edge and the loop are live, the loop names the edge, and it is in no radial cycle. Constant time.
pub fn radial_add(st: &mut Store, e: Slot, l: Slot)
    requires cycles { AreCycles st.old }
    requires live { IsLive st.old.edges.cells e.0 }
    requires edge { edge_of st.old l ≡ Some e.0 }
    requires apart { IsInNoRadial st.old l }
    ensures { EditsRadial st.old st.new e.0 (record { 0 = l } ∷ radial_of st.old e.0)
        (radial_of st.old e.0 ++ record { 0 = l } ∷ []) }
{
    let first = first_radial(st, e);
    let head = push_last(st, first, Radial(l));
    set_first_radial(st, e, head);
}

/// Takes a loop out of the radial cycle of its edge. The others keep their order, and the loop behind a first one comes
/// first.
///
/// The edge is live, and the loop is in its radial cycle. Constant time.
pub fn radial_remove(st: &mut Store, e: Slot, l: Slot)
    requires cycles { AreCycles st.old }
    requires live { IsLive st.old.edges.cells e.0 }
    requires member { HasMember (radial_of st.old e.0) (record { 0 = l }) }
    ensures edits { EditsRadial st.old st.new e.0 (radial_of st.old e.0)
        (without same_radial (record { 0 = l }) (radial_of st.old e.0)) }
    ensures out { IsInNoRadial st.new l }
{
    let first = first_radial(st, e);
    let head = take_member(st, first, Radial(l));
    set_first_radial(st, e, head);
}

/// The loop with which the radial cycle of a live edge begins. Constant time.
pub fn first_radial(st: &Store, e: Slot) -> Option<Radial>
    requires { IsLive st.now.edges.cells e.0 }
    ensures { result ≡ first_radial st.now e.0 }
{
    st.first_loop(e).map(|first| Radial(first))
}

// Writes an edge's first loop by its place in the radial cycle.
fn set_first_radial(st: &mut Store, e: Slot, head: Option<Radial>)
    requires { IsLive st.old.edges.cells e.0 }
    ensures { st.new ≡ change_edge (with_first_loop (option_map (λ l. l.0) head)) st.old e.0 }
{
    st.set_first_loop(e, head.map(|first| first.0));
}
