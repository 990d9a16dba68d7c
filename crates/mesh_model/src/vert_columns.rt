//! The table of vertices in flat columns.

ghost use Rattle.std.specs.Prelude.{◌≡◌, ◌+◌, ◌-◌, ◌<◌, ◌≤◌, ◌^◌, ◌∷◌, [], ◌++◌, length, is_some, Some, None, OnOk};
ghost use Rattle.std.specs.Prelude.{OnErr, slice_get, max};
ghost use Rattle.std.specs.Option.{option_map};
ghost use Rattle.cust_data.specs.Layers.{total};
ghost use Rattle.mesh_model.specs.Table.{at, IsThere, least_from};

use crate::layer_rows::LayerRows;
use crate::records::Point;
use sequence::NoMemory;
use std::alloc::Global;
use std::marker::Model;

/// The vertices: a flag for each name, a point, and a row of values.
#[derive(Drop)]
pub(crate) struct VertColumns {
    there: Vec<bool>,
    points: Vec<Point>,
    values: LayerRows,
    count: u32,
}

impl Model for VertColumns {
    ghost use Rattle.std.specs.Prelude.{◌-◌, length};
    ghost use Rattle.mesh_model.specs.Table.{table_of};
    ghost use Rattle.mesh_model.specs.Columns.{VertTable, vert_at, AreVertColumns};

    ghost Value = { VertTable };

    ghost view = { λ c. record {
      table = table_of (vert_at c.there.items c.points.items c.values.rows) c.count;
      layers = c.values.layers;
      room = length c.there.items - c.count;
    } };

    ghost invariant = { λ c. AreVertColumns c.there.items c.points.items c.values.rows c.count };
}

impl VertColumns {
    /// No vertex. Takes no memory.
    pub(crate) fn new(alloc: Global, values: LayerRows) -> VertColumns
        ensures { result ≡ record { table = []; layers = values.layers; room = 0 } }
    {
        VertColumns {
            there: Vec::new(alloc),
            points: Vec::new(alloc),
            values,
            count: 0,
        }
    }

    /// Makes room for so many more.
    pub(crate) fn reserve(&mut self, more: u32) -> Result<(), NoMemory>
        ensures table { self.new.table ≡ self.old.table }
        ensures layers { self.new.layers ≡ self.old.layers }
        ensures ok { OnOk result (more ≤ self.new.room) }
    {
        let places = self.count as usize + more as usize;
        if self.there.len() < places {
            self.values.reserve(places)?;
            self.points.resize(places, Point { x: 0, y: 0, z: 0 })?;
            self.there.resize(places, false)?;
        }
        Ok(())
    }

    /// A vertex more. Takes no memory.
    pub(crate) fn push(&mut self, point: Point, row: &[i64])
        requires room { 0 < self.old.room }
        requires fits { length self.old.table + 1 < 2 ^ 32 }
        requires wide { length row.now ≡ total self.old.layers }
        ensures { self.new ≡ record self.old {
          table = self.old.table ++ Some (record { point = point; vals = row.now }) ∷ [];
          room = self.old.room - 1;
        } }
    {
        let place = self.count as usize;
        self.there[place] = true;
        self.points[place] = point;
        self.values.set_row(place, row);
        self.count += 1;
    }

    /// A name more, at which no vertex stands. Takes no memory.
    pub(crate) fn skip(&mut self)
        requires room { 0 < self.old.room }
        requires fits { length self.old.table + 1 < 2 ^ 32 }
        ensures { self.new ≡ record self.old { table = self.old.table ++ None ∷ []; room = self.old.room - 1 } }
    {
        let place = self.count as usize;
        self.there[place] = false;
        self.count += 1;
    }

    /// The next name.
    pub(crate) fn len(&self) -> u32
        ensures { result ≡ length self.now.table }
    {
        self.count
    }

    /// Whether a vertex stands at a name.
    pub(crate) fn has(&self, name: u32) -> bool
        ensures { result ≡ is_some (at self.now.table name) }
    {
        name < self.count && self.there[name as usize]
    }

    /// The least name not below a number at which a vertex stands.
    pub(crate) fn first_from(&self, least: u32) -> Option<u32>
        ensures { result ≡ least_from self.now.table least }
    {
        for name in least..self.len() {
            if self.has(name) {
                return Some(name);
            }
        }
        None
    }

    /// The point of a vertex.
    pub(crate) fn point(&self, name: u32) -> Point
        requires { IsThere self.now.table name }
        ensures { option_map (λ r. r.point) (at self.now.table name) ≡ Some result }
    {
        self.points[name as usize]
    }

    /// A number of a vertex's row.
    pub(crate) fn value(&self, name: u32, k: usize) -> i64
        requires there { IsThere self.now.table name }
        requires within { k < total self.now.layers }
        ensures { option_map (λ r. slice_get r.vals k) (at self.now.table name) ≡ Some (Some result) }
    {
        self.values.value(name as usize, k)
    }

    /// The layers of vertices.
    pub(crate) fn values(&self) -> &LayerRows
        ensures { result.now.layers ≡ self.now.layers }
    {
        &self.values
    }
}
