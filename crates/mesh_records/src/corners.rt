//! Steps that change the corners of one face.
ghost use Rattle.std.specs.Prelude.{◌≡◌, ◌<◌, ◌≤◌, ◌^◌, ℕ, length, is_some, true, Some};
ghost use Rattle.std.specs.List.{slice_get};
ghost use Rattle.std.specs.Option.{option_map};
ghost use Rattle.cust_data.specs.Layers.{total};
ghost use Rattle.raw_pool.specs.Slots.{spare_count};
ghost use Rattle.mesh_store.specs.Slots.{at};
ghost use Rattle.mesh_model.specs.Complex.{corners_of};
ghost use Rattle.mesh_model.specs.Kernel.{with_corners_by, reversed_face};
ghost use Rattle.mesh_records.specs.Changes.{turned, shifted_once, backwards};
ghost use Rattle.mesh_records.specs.Corners.{AppendsCorner, InsertsCorner, KeepsNames, of_corners};
ghost use Rattle.mesh_records.specs.Places.{KeepsPlaces};
ghost use Rattle.mesh_records.specs.Room.{none_of_all};
ghost use Rattle.mesh_records.specs.ReadOff.{face_at};
ghost use Rattle.mesh_records.specs.Rewrites.{Rewrites};
ghost use Rattle.mesh_records.specs.Whole.{IsWhole};

use crate::putting::put_corner;
use crate::readers::{MAX_ROW, corner_at, loop_at};
use crate::slots::{slot_of_edge, slot_of_face, slot_of_vert};
use crate::taking::take_loop;
use mesh_cycles::{loop_reverse, loop_turn};
use mesh_model::{CornerRec, Counters, EdgeName, FaceName};
use mesh_store::{Part, Store};

// Makes the corner of a live face at a position from 0 the first one, and does nothing where the position is the number
// of its corners. It takes time that grows with the position.
fn turn_corners(st: &mut Store, next: Counters, f: FaceName, i: u32)
    requires whole { IsWhole st.old next }
    requires there { is_some (at st.old.faces.names f.0) ≡ true }
    requires within { i ≤ length (corners_of (face_at st.old f.0)) }
    ensures turns { Rewrites st.old st.new next (λ c. with_corners_by c f (turned i)) }
    ensures keeps { KeepsNames st.old st.new }
    ensures places { KeepsPlaces none_of_all st.old st.new }
{
    let face = slot_of_face(st, f.0);
    if i < st.face_len(face) {
        let corner = loop_at(st, face, i);
        loop_turn(st, face, corner);
    }
}

// Puts a corner behind the others of a live face. There is room for it.
fn append_corner(st: &mut Store, next: Counters, f: FaceName, corner: &CornerRec)
    requires whole { IsWhole st.old next }
    requires there { is_some (at st.old.faces.names f.0) ≡ true }
    requires vert { is_some (at st.old.verts.names corner.now.vert.0) ≡ true }
    requires edge { is_some (at st.old.edges.names corner.now.edge.0) ≡ true }
    requires wide { length corner.now.vals ≡ total st.old.values.loops.layers }
    requires few { next.corners < 2 ^ 24 }
    requires room { 1 ≤ spare_count st.old.loops }
    ensures appends { AppendsCorner st.old st.new next f corner.now }
    ensures places { KeepsPlaces (of_corners 1) st.old st.new }
{
    let face = slot_of_face(st, f.0);
    let v = slot_of_vert(st, corner.vert.0);
    let e = slot_of_edge(st, corner.edge.0);
    put_corner(st, face, v, e, corner.vals.as_slice());
}

/// Puts a corner into a live face at a position from 0 to the number of its corners. There is room for it. It takes
/// time that grows with the corners of the face.
pub fn insert_corner(st: &mut Store, next: Counters, f: FaceName, i: u32, corner: &CornerRec)
    requires whole { IsWhole st.old next }
    requires there { is_some (at st.old.faces.names f.0) ≡ true }
    requires within { i ≤ length (corners_of (face_at st.old f.0)) }
    requires vert { is_some (at st.old.verts.names corner.now.vert.0) ≡ true }
    requires edge { is_some (at st.old.edges.names corner.now.edge.0) ≡ true }
    requires wide { length corner.now.vals ≡ total st.old.values.loops.layers }
    requires few { next.corners < 2 ^ 24 }
    requires room { 1 ≤ spare_count st.old.loops }
    ensures inserts { InsertsCorner st.old st.new next f i corner.now }
    ensures places { KeepsPlaces (of_corners 1) st.old st.new }
{
    let face = slot_of_face(st, f.0);
    let count = st.face_len(face);
    turn_corners(st, next, f, i);
    append_corner(st, next, f, corner);
    let more = Counters {
        corners: next.corners + 1,
        ..next
    };
    turn_corners(st, more, f, count - i);
}

// Takes the first corner of a live face out and puts it behind the others, along another live edge. Gives the edge that
// it had. It takes time that grows with the corner's row of values.
fn shift_corner(st: &mut Store, next: Counters, f: FaceName, edge: EdgeName) -> EdgeName
    requires whole { IsWhole st.old next }
    requires there { is_some (at st.old.faces.names f.0) ≡ true }
    requires edge { is_some (at st.old.edges.names edge.0) ≡ true }
    requires wide { total st.old.values.loops.layers ≤ MAX_ROW }
    ensures shifts { Rewrites st.old st.new next (λ c. with_corners_by c f (shifted_once edge)) }
    ensures own { option_map (λ k. k.edge) (slice_get (corners_of (face_at st.old f.0)) 0) ≡ Some result }
    ensures faces { (j : ℕ) → at st.new.faces.names j ≡ at st.old.faces.names j }
    ensures there { is_some (at st.new.edges.names result.0) ≡ true }
    ensures places { KeepsPlaces none_of_all st.old st.new }
{
    let face = slot_of_face(st, f.0);
    let along = slot_of_edge(st, edge.0);
    let corner = loop_at(st, face, 0);
    let own = corner_at(st, corner).1;
    let v = st.loop_vert(corner);
    let mut all = [0; MAX_ROW];
    let row = &mut all[..st.total(Part::Loop)];
    st.row(Part::Loop, corner, row);
    take_loop(st, face, corner);
    put_corner(st, face, v, along, row);
    own
}

// Reads a live face the other way round; its first corner stays first. It takes time that grows with its corners.
fn reverse_loops(st: &mut Store, next: Counters, f: FaceName)
    requires whole { IsWhole st.old next }
    requires there { is_some (at st.old.faces.names f.0) ≡ true }
    ensures rewrites { Rewrites st.old st.new next (λ c. with_corners_by c f backwards) }
    ensures places { KeepsPlaces none_of_all st.old st.new }
{
    let face = slot_of_face(st, f.0);
    loop_reverse(st, face);
}

/// Turns a live face over. It takes time that grows with its corners.
pub fn reverse_face(st: &mut Store, next: Counters, f: FaceName)
    requires whole { IsWhole st.old next }
    requires there { is_some (at st.old.faces.names f.0) ≡ true }
    ensures rewrites { Rewrites st.old st.new next (λ c. reversed_face c f) }
    ensures places { KeepsPlaces none_of_all st.old st.new }
{
    let face = slot_of_face(st, f.0);
    let count = st.face_len(face);
    let last = loop_at(st, face, count - 1);
    let mut edge = corner_at(st, last).1;
    for _step in 0..count {
        edge = shift_corner(st, next, f, edge);
    }
    reverse_loops(st, next, f);
}
