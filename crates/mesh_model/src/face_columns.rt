//! The table of faces in flat columns, the corners of all faces one behind another.

ghost use Rattle.std.specs.Prelude.{◌≡◌, ◌+◌, ◌-◌, ◌<◌, ◌≤◌, ◌^◌, ◌∷◌, [], ◌++◌, length, is_some, Some, None, OnOk};
ghost use Rattle.std.specs.Prelude.{OnErr, slice_get, slice_index_or};
ghost use Rattle.std.specs.Option.{option_map};
ghost use Rattle.std.specs.List.{flat_map};
ghost use Rattle.cust_data.specs.Layers.{total};
ghost use Rattle.mesh_model.specs.Table.{at, IsThere, least_from};
ghost use Rattle.mesh_model.specs.Complex.{corners_of, corner_sum};
ghost use Rattle.mesh_model.specs.Columns.{face_of, start_of, side_of};

use crate::layer_rows::LayerRows;
use crate::names::{EdgeName, VertName};
use sequence::NoMemory;
use std::alloc::Global;
use std::marker::Model;

/// A corner's vertex, and the edge from there to the next corner's vertex.
#[derive(Clone, Copy, Debug, PartialEq, Eq)]
pub(crate) struct Side {
    pub vert: VertName,
    pub edge: EdgeName,
}

/// The faces: for each name where its corners end and a row of values, and for each corner its vertex and edge and
/// a row of values. A name without corners has no face. Corners can stand open behind those of the last face.
#[derive(Drop)]
pub(crate) struct FaceColumns {
    ends: Vec<u32>,
    values: LayerRows,
    sides: Vec<Side>,
    corner_values: LayerRows,
    count: u32,
    corner_count: u32,
}

impl Model for FaceColumns {
    ghost use Rattle.std.specs.Prelude.{◌-◌, length};
    ghost use Rattle.mesh_model.specs.Table.{table_of};
    ghost use Rattle.mesh_model.specs.Columns.{FaceTable, face_at, corners_at, span, start_of, AreFaceColumns};

    ghost Value = { FaceTable };

    ghost view = { λ c. let corners = corners_at c.sides.items c.corner_values.rows in record {
      table = table_of (face_at c.ends.items corners c.values.rows) c.count;
      «open» = span corners (start_of c.ends.items c.count) c.corner_count;
      corner_layers = c.corner_values.layers;
      layers = c.values.layers;
      corner_room = length c.sides.items - c.corner_count;
      room = length c.ends.items - c.count;
    } };

    ghost invariant = { λ c. AreFaceColumns c.ends.items c.sides.items c.corner_values.rows c.values.rows c.count
        c.corner_count };
}

impl FaceColumns {
    /// No face. Takes no memory.
    pub(crate) fn new(alloc: Global, corner_values: LayerRows, values: LayerRows) -> FaceColumns
        ensures { result ≡ record {
          table = [];
          «open» = [];
          corner_layers = corner_values.layers;
          layers = values.layers;
          corner_room = 0;
          room = 0;
        } }
    {
        FaceColumns {
            ends: Vec::new(alloc),
            values,
            sides: Vec::new(alloc),
            corner_values,
            count: 0,
            corner_count: 0,
        }
    }

    /// Makes room for so many more faces.
    pub(crate) fn reserve(&mut self, more: u32) -> Result<(), NoMemory>
        ensures same { self.new ≡ record self.old { room = self.new.room } }
        ensures ok { OnOk result (more ≤ self.new.room) }
    {
        let places = self.count as usize + more as usize;
        if self.ends.len() < places {
            self.values.reserve(places)?;
            self.ends.resize(places, 0)?;
        }
        Ok(())
    }

    /// Makes room for so many more corners.
    pub(crate) fn reserve_corners(&mut self, more: u32) -> Result<(), NoMemory>
        ensures same { self.new ≡ record self.old { corner_room = self.new.corner_room } }
        ensures ok { OnOk result (more ≤ self.new.corner_room) }
    {
        let places = self.corner_count as usize + more as usize;
        if self.sides.len() < places {
            self.corner_values.reserve(places)?;
            let nowhere = Side {
                vert: VertName(0),
                edge: EdgeName(0),
            };
            self.sides.resize(places, nowhere)?;
        }
        Ok(())
    }

    /// A corner more behind the last face. Takes no memory.
    pub(crate) fn push_corner(&mut self, side: Side, row: &[i64])
        requires room { 0 < self.old.corner_room }
        requires fits { corner_sum self.old.table + length self.old.open + 1 < 2 ^ 32 }
        requires wide { length row.now ≡ total self.old.corner_layers }
        ensures { self.new ≡ record self.old {
          «open» = self.old.open ++ record { vert = side.vert; edge = side.edge; vals = row.now } ∷ [];
          corner_room = self.old.corner_room - 1;
        } }
    {
        let place = self.corner_count as usize;
        self.sides[place] = side;
        self.corner_values.set_row(place, row);
        self.corner_count += 1;
    }

    /// The face of the open corners. Takes no memory.
    pub(crate) fn close(&mut self, row: &[i64])
        requires room { 0 < self.old.room }
        requires fits { length self.old.table + 1 < 2 ^ 32 }
        requires wide { length row.now ≡ total self.old.layers }
        ensures { self.new ≡ record self.old {
          table = self.old.table ++ face_of self.old.open row.now ∷ [];
          «open» = [];
          room = self.old.room - 1;
        } }
    {
        let place = self.count as usize;
        self.ends[place] = self.corner_count;
        self.values.set_row(place, row);
        self.count += 1;
    }

    /// A name more, at which no face stands. Takes no memory.
    pub(crate) fn skip(&mut self)
        requires none { self.old.open ≡ [] }
        requires room { 0 < self.old.room }
        requires fits { length self.old.table + 1 < 2 ^ 32 }
        ensures { self.new ≡ record self.old { table = self.old.table ++ None ∷ []; room = self.old.room - 1 } }
    {
        let place = self.count as usize;
        self.ends[place] = self.corner_count;
        self.count += 1;
    }

    /// The next name.
    pub(crate) fn len(&self) -> u32
        ensures { result ≡ length self.now.table }
    {
        self.count
    }

    /// The number of corners.
    pub(crate) fn corners(&self) -> u32
        ensures { result ≡ corner_sum self.now.table + length self.now.open }
    {
        self.corner_count
    }

    /// Whether a face stands at a name.
    pub(crate) fn has(&self, name: u32) -> bool
        ensures { result ≡ is_some (at self.now.table name) }
    {
        if name < self.count {
            let (start, end) = bounds(&self.ends, name);
            start < end
        } else {
            false
        }
    }

    /// The least name not below a number at which a face stands.
    pub(crate) fn first_from(&self, least: u32) -> Option<u32>
        ensures { result ≡ least_from self.now.table least }
    {
        for name in least..self.len() {
            if self.has(name) {
                return Some(name);
            }
        }
        None
    }

    /// The number of a face's corners.
    pub(crate) fn corner_count(&self, name: u32) -> u32
        requires { IsThere self.now.table name }
        ensures { result ≡ length (corners_of (at self.now.table name)) }
    {
        let (start, end) = bounds(&self.ends, name);
        end - start
    }

    /// A corner of a face, by its position from 0.
    pub(crate) fn corner(&self, name: u32, i: u32) -> Side
        requires { i < length (corners_of (at self.now.table name)) }
        ensures { option_map side_of (slice_get (corners_of (at self.now.table name)) i) ≡ Some result }
    {
        let (start, _) = bounds(&self.ends, name);
        self.sides[start as usize + i as usize]
    }

    /// A number of the row of a face's corner.
    pub(crate) fn corner_value(&self, name: u32, i: u32, k: usize) -> i64
        requires there { i < length (corners_of (at self.now.table name)) }
        requires within { k < total self.now.corner_layers }
        ensures { option_map (λ r. slice_get r.vals k) (slice_get (corners_of (at self.now.table name)) i)
            ≡ Some (Some result) }
    {
        let (start, _) = bounds(&self.ends, name);
        self.corner_values.value(start as usize + i as usize, k)
    }

    /// The rows of a face's corners, one behind another.
    pub(crate) fn corner_rows(&self, name: u32, into: &mut [i64])
        requires there { IsThere self.now.table name }
        requires room { length into.old ≡ length (flat_map (λ k. k.vals) (corners_of (at self.now.table name))) }
        ensures { into.new ≡ flat_map (λ k. k.vals) (corners_of (at self.now.table name)) }
    {
        let width = self.corner_values.total();
        let mut from = 0;
        for i in 0..self.corner_count(name) {
            self.corner_row(name, i, &mut into[from..from + width]);
            from += width;
        }
    }

    // The row of a face's corner, by its position from 0.
    fn corner_row(&self, name: u32, i: u32, into: &mut [i64])
        requires there { i < length (corners_of (at self.now.table name)) }
        requires wide { length into.old ≡ total self.now.corner_layers }
        ensures { option_map (λ r. r.vals) (slice_get (corners_of (at self.now.table name)) i) ≡ Some into.new }
    {
        let (start, _) = bounds(&self.ends, name);
        self.corner_values.row(start as usize + i as usize, into);
    }

    /// A number of a face's row.
    pub(crate) fn value(&self, name: u32, k: usize) -> i64
        requires there { IsThere self.now.table name }
        requires within { k < total self.now.layers }
        ensures { option_map (λ r. slice_get r.vals k) (at self.now.table name) ≡ Some (Some result) }
    {
        self.values.value(name as usize, k)
    }

    /// The layers of faces.
    pub(crate) fn values(&self) -> &LayerRows
        ensures { result.now.layers ≡ self.now.layers }
    {
        &self.values
    }

    /// The layers of corners.
    pub(crate) fn corner_values(&self) -> &LayerRows
        ensures { result.now.layers ≡ self.now.corner_layers }
    {
        &self.corner_values
    }
}

// Where the corners of a face start, and where they end.
fn bounds(ends: &[u32], name: u32) -> (u32, u32)
    requires { name < length ends.now }
    ensures start { result.0 ≡ start_of ends.now name }
    ensures end { result.1 ≡ slice_index_or ends.now name 0 }
{
    let end = ends[name as usize];
    if name == 0 {
        (0, end)
    } else {
        (ends[name as usize - 1], end)
    }
}
