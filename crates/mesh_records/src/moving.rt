//! Steps that move the end of an edge.
ghost use Rattle.std.specs.Prelude.{◌≡◌, ◌≢◌, ◌<◌, ◌-◌, is_some, true, Some};
ghost use Rattle.raw_pool.specs.Slots.{IsLive};
ghost use Rattle.mesh_cycles.specs.Cycles.{HaveCycles};
ghost use Rattle.mesh_cycles.specs.Owners.{dart_end};
ghost use Rattle.mesh_records.specs.MovesEnd.{end_name, MovesEnd, SetsEnd};
ghost use Rattle.mesh_records.specs.Places.{KeepsPlaces};
ghost use Rattle.mesh_records.specs.Puts.{dart_on};
ghost use Rattle.mesh_records.specs.ReadOff.{edge_at};
ghost use Rattle.mesh_records.specs.Room.{none_of_all};
ghost use Rattle.mesh_records.specs.Whole.{AreLinked, IsWhole};
ghost use Rattle.mesh_store.specs.Slots.{at};

use crate::slots::{slot_of_edge, slot_of_vert};
use mesh_cycles::{disk_add, disk_remove};
use mesh_model::{Counters, EdgeName, VertName};
use mesh_store::{Dart, Slot, Store};

// Moves an end of a live edge, side 0 or 1, from one live vertex to another, around which the edge is then the last one.
fn move_end(st: &mut Store, e: Slot, side: u8, from: Slot, to: Slot)
    requires cycles { HaveCycles st.old }
    requires linked { AreLinked st.old }
    requires edge { IsLive st.old.edges.cells e.0 }
    requires side { side < 2 }
    requires from { dart_end st.old (dart_on e side) ≡ Some from.0 }
    requires to { IsLive st.old.verts.cells to.0 }
    requires moves { from.0 ≢ to.0 }
    requires differ { dart_end st.old (dart_on e (1 - side)) ≢ Some to.0 }
    ensures { MovesEnd st.old st.new e side from.0 to }
{
    let dart = Dart { edge: e, side };
    disk_remove(st, from, dart);
    let mut ends = st.ends(e);
    ends[side as usize] = to;
    st.set_ends(e, ends);
    disk_add(st, to, dart);
}

/// Makes a live vertex the end of a live edge on a side, 0 where it begins and 1 where it ends. The other end is another
/// vertex. Where the edge didn't end on that side there, it is then the last one around the vertex. Constant time.
pub fn set_end(st: &mut Store, next: Counters, e: EdgeName, side: u8, v: VertName)
    requires whole { IsWhole st.old next }
    requires edge { is_some (at st.old.edges.names e.0) ≡ true }
    requires side { side < 2 }
    requires vert { is_some (at st.old.verts.names v.0) ≡ true }
    requires differ { end_name (1 - side) (edge_at st.old e.0) ≢ v.0 }
    ensures sets { SetsEnd st.old st.new next e side (end_name side (edge_at st.old e.0)) v }
    ensures places { KeepsPlaces none_of_all st.old st.new }
{
    let edge = slot_of_edge(st, e.0);
    let to = slot_of_vert(st, v.0);
    let ends = st.ends(edge);
    let from = ends[side as usize];
    if from.0 != to.0 {
        move_end(st, edge, side, from, to);
    }
}
