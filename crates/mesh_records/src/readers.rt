//! What is read of a live element at its slot.
ghost use Rattle.std.specs.Prelude.{◌≡◌, ◌<◌, ◌≤◌, ◌*◌, ◌∷◌, [], Some, length, map, slice_get};
ghost use Rattle.std.specs.List.{flat_map};
ghost use Rattle.cust_data.specs.Layers.{IsTable, row_of, total};
ghost use Rattle.raw_pool.specs.Slots.{IsLive};
ghost use Rattle.mesh_store.specs.Parts.{HasRows, IsLiveIn, table_of};
ghost use Rattle.mesh_cycles.specs.Cycles.{AreCycles};
ghost use Rattle.mesh_cycles.specs.Found.{loops_in};
ghost use Rattle.mesh_records.specs.AtSlots.{IsAt, loop_in};
ghost use Rattle.mesh_records.specs.ReadOff.{point_of, names_at};
ghost use Rattle.mesh_records.specs.Whole.{AreLinked};
ghost use Rattle.mesh_records.specs.Kinds.{part_of};

use mesh_cycles::corners_of_face;
use mesh_model::{EdgeName, Kind, Point, VertName};
use mesh_store::{Part, Slot, Store};

/// The most numbers that a row of values has: 16 layers of 4.
pub(crate) const MAX_ROW: usize = 64;

/// A point as its three coordinates.
pub fn coordinates(p: Point) -> [i64; 3]
    ensures { result ≡ p.x ∷ p.y ∷ p.z ∷ [] }
{
    [p.x, p.y, p.z]
}

/// Three coordinates as a point.
pub fn point_of(p: [i64; 3]) -> Point
    ensures { result ≡ point_of p }
{
    Point {
        x: p[0],
        y: p[1],
        z: p[2],
    }
}

/// The part of a store that has the values of a kind.
pub fn part_of(kind: Kind) -> Part
    ensures { result ≡ part_of kind }
{
    match kind {
        Kind::Verts => Part::Vert,
        Kind::Edges => Part::Edge,
        Kind::Corners => Part::Loop,
        Kind::Faces => Part::Face,
    }
}

/// A number of a live element's row of values. It takes time that grows with the row.
pub fn value_at(st: &Store, part: Part, s: Slot, k: usize) -> i64
    requires live { IsLiveIn part st.now s.0 }
    requires within { k < total (table_of part st.now.values).layers }
    requires few { total (table_of part st.now.values).layers ≤ MAX_ROW }
    ensures { slice_get (row_of (table_of part st.now.values) s.0) k ≡ Some result }
{
    let mut all = [0; MAX_ROW];
    let row = &mut all[..st.total(part)];
    st.row(part, s, row);
    row[k]
}

/// The loop of a live face at a position from 0. It takes time that grows with the position.
pub fn loop_at(st: &Store, f: Slot, i: u32) -> Slot
    requires cycles { AreCycles st.now }
    requires live { IsLive st.now.faces.cells f.0 }
    requires within { i < length (loops_in st.now f.0) }
    ensures { slice_get (loops_in st.now f.0) i ≡ Some result }
{
    corners_of_face(st, f).nth(i as usize).unwrap()
}

/// The vertex and the edge of a live loop, by name.
pub fn corner_at(st: &Store, l: Slot) -> (VertName, EdgeName)
    requires linked { AreLinked st.now }
    requires live { IsAt (loop_in st.now) l.0 }
    ensures { result ≡ names_at st.now l }
{
    let v = st.loop_vert(l);
    let e = st.loop_edge(l);
    (VertName(st.vert_number(v)), EdgeName(st.edge_number(e)))
}

/// Writes the vertices and the edges of a live face's corners in order, in one walk round it.
pub fn corners_into(st: &Store, f: Slot, into: &mut [(VertName, EdgeName)])
    requires cycles { AreCycles st.now }
    requires linked { AreLinked st.now }
    requires live { IsLive st.now.faces.cells f.0 }
    requires room { length into.old ≡ length (loops_in st.now f.0) }
    ensures { into.new ≡ map (names_at st.now) (loops_in st.now f.0) }
{
    let mut i = 0;
    for l in corners_of_face(st, f) {
        into[i] = corner_at(st, l);
        i += 1;
    }
}

/// Writes the rows of values of a live face's corners in order, one behind another, in one walk round it.
pub fn rows_into(st: &Store, f: Slot, into: &mut [i64])
    requires cycles { AreCycles st.now }
    requires live { IsLive st.now.faces.cells f.0 }
    requires rows { HasRows st.now }
    requires table { IsTable st.now.values.loops }
    requires room { length into.old ≡ length (loops_in st.now f.0) * total st.now.values.loops.layers }
    ensures { into.new ≡ flat_map (λ l. row_of st.now.values.loops l.0) (loops_in st.now f.0) }
{
    let width = st.total(Part::Loop);
    let mut start = 0;
    for l in corners_of_face(st, f) {
        st.row(Part::Loop, l, &mut into[start..start + width]);
        start += width;
    }
}
