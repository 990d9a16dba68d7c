//! Steps that take away.
ghost use Rattle.std.specs.Prelude.{◌≡◌, ℕ, [], IsSome, is_some, true, Some};
ghost use Rattle.raw_pool.specs.Slots.{IsLive};
ghost use Rattle.link_ring.specs.Members.{HasMember};
ghost use Rattle.mesh_store.specs.Slots.{at};
ghost use Rattle.mesh_cycles.specs.Owners.{edge_of};
ghost use Rattle.mesh_cycles.specs.Cycles.{HaveCycles, radial_of, round_of};
ghost use Rattle.mesh_model.specs.declared.records.Counters.{Counters};
ghost use Rattle.mesh_records.specs.Whole.{AreLinked, IsNearlyWhole};
ghost use Rattle.mesh_records.specs.Takes.{TakesLoop, LosesLoops};
ghost use Rattle.mesh_records.specs.TakesEdge.{TakesEdge};

use mesh_cycles::{disk_remove, loop_remove_counted, radial_remove};
use mesh_store::{Dart, Slot, Store};

/// Takes a loop of a face out of its cycles and drops it. Constant time.
pub fn take_loop(st: &mut Store, f: Slot, l: Slot)
    requires cycles { HaveCycles st.old }
    requires edge { IsSome (edge_of st.old l) }
    requires edge_live { (e : ℕ) → edge_of st.old l ≡ Some e → IsLive st.old.edges.cells e }
    requires face { IsLive st.old.faces.cells f.0 }
    requires member { HasMember (round_of st.old f.0) (record { 0 = l }) }
    ensures { TakesLoop st.old st.new f l }
{
    let e = st.loop_edge(l);
    radial_remove(st, e, l);
    loop_remove_counted(st, f, l);
    st.drop_loop(l);
}

/// Takes all loops of a face out of their cycles and drops them. It takes time that grows with their number.
pub fn take_loops(st: &mut Store, f: Slot)
    requires face { IsLive st.old.faces.cells f.0 }
    requires cycles { HaveCycles st.old }
    requires linked { AreLinked st.old }
    ensures whole { (n : Counters) → IsNearlyWhole st.old n → IsNearlyWhole st.new n }
    ensures loses { LosesLoops st.old st.new f.0 }
    ensures empty { round_of st.new f.0 ≡ [] }
{
    while let Some(l) = st.face_loop(f) {
        take_loop(st, f, l);
    }
}

/// Takes an edge without loops out of its disk cycles and drops it. Constant time.
pub fn take_edge(st: &mut Store, e: Slot)
    requires cycles { HaveCycles st.old }
    requires linked { AreLinked st.old }
    requires live { IsLive st.old.edges.cells e.0 }
    requires loose { radial_of st.old e.0 ≡ [] }
    ensures { TakesEdge st.old st.new e }
{
    let ends = st.ends(e);
    disk_remove(st, ends[0], Dart { edge: e, side: 0 });
    disk_remove(st, ends[1], Dart { edge: e, side: 1 });
    st.drop_edge(e);
}
