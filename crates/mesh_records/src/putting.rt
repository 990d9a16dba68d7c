//! Steps that add.
ghost use Rattle.std.specs.Prelude.{◌≡◌, ◌≢◌, ◌≤◌, ◌<◌, ◌+◌, ◌^◌, [], ◌∷◌};
ghost use Rattle.std.specs.Prelude.{IfSome, is_some, true, Some, None, length, map};
ghost use Rattle.std.specs.List.{All};
ghost use Rattle.cust_data.specs.Layers.{total, with_row};
ghost use Rattle.raw_pool.specs.Slots.{IsLive, spare_count};
ghost use Rattle.mesh_store.specs.Slots.{at};
ghost use Rattle.mesh_store.specs.Parts.{change_table, IsLiveIn};
ghost use Rattle.mesh_store.specs.Room.{HasRoom};
ghost use Rattle.mesh_cycles.specs.Cycles.{AreCycles, HaveCycles};
ghost use Rattle.mesh_records.specs.Whole.{IsWhole};
ghost use Rattle.mesh_records.specs.Puts.{row_like, PutsVert, PutsEdge, PutsLoop, PutsCorner};
ghost use Rattle.mesh_records.specs.Faces.{corner_put, AddsAFace};
ghost use Rattle.mesh_records.specs.Corners.{IsWholeBut, AppendsCorners, of_corners};
ghost use Rattle.mesh_records.specs.Places.{KeepsPlaces};
ghost use Rattle.mesh_records.specs.Room.{of_face};

use crate::slots::{slot_of_edge, slot_of_face, slot_of_vert};
use mesh_cycles::{disk_add, loop_append, radial_add};
use mesh_model::limits::MAX_FACES;
use mesh_model::{CornerRec, Counters, EdgeName, FaceName, VertName};
use mesh_store::{Dart, Part, Slot, Store};

// Gives an element an example's row of values, or zeros.
fn fill_row(st: &mut Store, part: Part, like: Option<Slot>, to: Slot)
    requires to { IsLiveIn part st.old to.0 }
    requires like { IfSome like (λ s. IsLiveIn part st.old s.0) }
    ensures { st.new ≡ change_table part (λ t. with_row t to.0 (row_like t like)) st.old }
{
    match like {
        None => st.clear_row(part, to),
        Some(from) => st.copy_row(part, from, to),
    }
}

/// Adds a vertex with an example's values, or zeros.
pub fn put_vert(st: &mut Store, name: u32, point: [i64; 3], like: Option<Slot>) -> Slot
    requires room { 1 ≤ spare_count st.old.verts.cells }
    requires reach { name < length st.old.verts.names }
    requires unnamed { at st.old.verts.names name ≡ None }
    requires like { IfSome like (λ s. IsLive st.old.verts.cells s.0) }
    ensures { PutsVert st.old st.new name point like result }
{
    let vert = st.add_vert(name, point);
    fill_row(st, Part::Vert, like, vert);
    vert
}

/// Adds an edge with an example's values, or zeros. Its darts are then last around its ends.
pub fn put_edge(st: &mut Store, name: u32, from: Slot, to: Slot, like: Option<Slot>) -> Slot
    requires cycles { AreCycles st.old }
    requires from { IsLive st.old.verts.cells from.0 }
    requires to { IsLive st.old.verts.cells to.0 }
    requires differ { from.0 ≢ to.0 }
    requires room { 1 ≤ spare_count st.old.edges.cells }
    requires reach { name < length st.old.edges.names }
    requires unnamed { at st.old.edges.names name ≡ None }
    requires like { IfSome like (λ s. IsLive st.old.edges.cells s.0) }
    ensures { PutsEdge st.old st.new name from to like result }
{
    let edge = st.add_edge(name, [from, to]);
    fill_row(st, Part::Edge, like, edge);
    disk_add(st, from, Dart { edge, side: 0 });
    disk_add(st, to, Dart { edge, side: 1 });
    edge
}

// Adds a loop whose values are 0, last along its edge and in its face.
fn put_loop(st: &mut Store, f: Slot, v: Slot, e: Slot) -> Slot
    requires cycles { HaveCycles st.old }
    requires edge { IsLive st.old.edges.cells e.0 }
    requires face { IsLive st.old.faces.cells f.0 }
    requires room { 1 ≤ spare_count st.old.loops }
    ensures { PutsLoop st.old st.new f v e result }
{
    let corner = st.add_loop(v, e, f);
    st.clear_row(Part::Loop, corner);
    radial_add(st, e, corner);
    loop_append(st, f, corner);
    corner
}

/// Adds a face with these corners, for which there is room, and with an example's values, or zeros.
pub fn put_face(
    st: &mut Store,
    next: Counters,
    corners: &[(VertName, EdgeName)],
    like: Option<Slot>,
)
    requires whole { IsWhole st.old next }
    requires limit { next.faces < MAX_FACES }
    requires few { next.corners + length corners.now ≤ 2 ^ 24 }
    requires some { 1 ≤ length corners.now }
    requires room { HasRoom st.old 0 0 (length corners.now) 1 (next.verts ∷ next.edges ∷ (next.faces + 1) ∷ []) }
    requires verts { All (λ k. is_some (at st.old.verts.names k.0.0) ≡ true) corners.now }
    requires edges { All (λ k. is_some (at st.old.edges.names k.1.0) ≡ true) corners.now }
    requires like { IfSome like (λ s. IsLive st.old.faces.cells s.0) }
    ensures adds { AddsAFace st.old st.new next
        (map (corner_put st.old) corners.now) (row_like st.old.values.faces like) }
    ensures places { KeepsPlaces (of_face (length corners.now)) st.old st.new }
{
    let face = st.add_face(next.faces);
    fill_row(st, Part::Face, like, face);
    for corner in corners {
        let v = slot_of_vert(st, corner.0.0);
        let e = slot_of_edge(st, corner.1.0);
        put_loop(st, face, v, e);
    }
}

/// Puts a loop last along its edge and in its face, with a row of values. It takes time that grows with the row.
pub(crate) fn put_corner(st: &mut Store, f: Slot, v: Slot, e: Slot, row: &[i64]) -> Slot
    requires cycles { HaveCycles st.old }
    requires edge { IsLive st.old.edges.cells e.0 }
    requires face { IsLive st.old.faces.cells f.0 }
    requires room { 1 ≤ spare_count st.old.loops }
    requires wide { length row.now ≡ total st.old.values.loops.layers }
    ensures { PutsCorner st.old st.new f v e row.now result }
{
    let corner = put_loop(st, f, v, e);
    st.set_row(Part::Loop, corner, row);
    corner
}

/// Puts corners behind the others of a live face, in order. The rule of a mesh holds, but that the face may have no
/// corner. There is room for the corners. It takes time that grows with their number.
pub fn put_corners(st: &mut Store, next: Counters, f: FaceName, corners: &[CornerRec])
    requires whole { IsWholeBut f st.old next }
    requires there { is_some (at st.old.faces.names f.0) ≡ true }
    requires few { next.corners + length corners.now ≤ 2 ^ 24 }
    requires room { length corners.now ≤ spare_count st.old.loops }
    requires verts { All (λ k. is_some (at st.old.verts.names k.vert.0) ≡ true) corners.now }
    requires edges { All (λ k. is_some (at st.old.edges.names k.edge.0) ≡ true) corners.now }
    requires wide { All (λ k. length k.vals ≡ total st.old.values.loops.layers) corners.now }
    ensures appends { AppendsCorners st.old st.new next f corners.now (length corners.now) }
    ensures places { KeepsPlaces (of_corners (length corners.now)) st.old st.new }
{
    let face = slot_of_face(st, f.0);
    for corner in corners {
        let v = slot_of_vert(st, corner.vert.0);
        let e = slot_of_edge(st, corner.edge.0);
        put_corner(st, face, v, e, corner.vals.as_slice());
    }
}
