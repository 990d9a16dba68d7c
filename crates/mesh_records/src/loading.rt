//! Steps that load.
ghost use Rattle.std.specs.Prelude.{◌≡◌, ◌<◌, ◌≤◌, ◌^◌, length, is_some, true};
ghost use Rattle.cust_data.specs.Layers.{total};
ghost use Rattle.raw_pool.specs.Slots.{spare_count};
ghost use Rattle.mesh_store.specs.Slots.{at};
ghost use Rattle.mesh_records.specs.Corners.{AppendsCorner, of_corners};
ghost use Rattle.mesh_records.specs.Places.{KeepsPlaces};
ghost use Rattle.mesh_records.specs.Whole.{IsWhole};

use crate::putting::put_corner;
use crate::slots::{slot_of_edge, slot_of_face, slot_of_vert};
use mesh_model::{Counters, EdgeName, FaceName, VertName};
use mesh_store::Store;

/// Puts a corner behind the others of a live face, with its row of values. There is room for it. It takes time that
/// grows with the row.
pub fn append_row(
    st: &mut Store,
    next: Counters,
    f: FaceName,
    vert: VertName,
    edge: EdgeName,
    row: &[i64],
)
    requires whole { IsWhole st.old next }
    requires there { is_some (at st.old.faces.names f.0) ≡ true }
    requires vert { is_some (at st.old.verts.names vert.0) ≡ true }
    requires edge { is_some (at st.old.edges.names edge.0) ≡ true }
    requires wide { length row.now ≡ total st.old.values.loops.layers }
    requires few { next.corners < 2 ^ 24 }
    requires room { 1 ≤ spare_count st.old.loops }
    ensures appends { AppendsCorner st.old st.new next f (record { vert = vert; edge = edge; vals = row.now }) }
    ensures places { KeepsPlaces (of_corners 1) st.old st.new }
{
    let face = slot_of_face(st, f.0);
    let v = slot_of_vert(st, vert.0);
    let e = slot_of_edge(st, edge.0);
    put_corner(st, face, v, e, row);
}
