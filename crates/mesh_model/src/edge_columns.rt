//! The table of edges in flat columns.

ghost use Rattle.std.specs.Prelude.{◌≡◌, ◌==◌, ◌+◌, ◌-◌, ◌<◌, ◌≤◌, ◌^◌, ◌||◌, ◌∷◌, [], ◌++◌, ℕ, length, is_some};
ghost use Rattle.std.specs.Prelude.{Some, None, OnOk, slice_get, false};
ghost use Rattle.std.specs.Option.{option_map};
ghost use Rattle.cust_data.specs.Layers.{total};
ghost use Rattle.mesh_model.specs.Table.{at, IsThere, least_from};
ghost use Rattle.mesh_model.specs.Columns.{stands, is_used};
ghost use Rattle.mesh_model.specs.NameSet.{is_in};

use crate::layer_rows::LayerRows;
use crate::names::VertName;
use sequence::NoMemory;
use std::alloc::Global;
use std::marker::Model;

/// Whether an edge stands at a name, and whether it has a corner.
#[derive(Clone, Copy, Debug, PartialEq, Eq)]
pub(crate) enum EdgeState {
    Absent,
    Loose,
    Used,
}

impl EdgeState {
    fn stands(self) -> bool
        ensures { result ≡ stands self }
    {
        match self {
            EdgeState::Absent => false,
            EdgeState::Loose | EdgeState::Used => true,
        }
    }

    fn is_used(self) -> bool
        ensures { result ≡ is_used self }
    {
        match self {
            EdgeState::Absent | EdgeState::Loose => false,
            EdgeState::Used => true,
        }
    }
}

/// The two ends of an edge.
#[derive(Clone, Copy, Debug, PartialEq, Eq)]
pub(crate) struct Ends {
    pub a: VertName,
    pub b: VertName,
}

/// The edges: a state for each name, two ends, and a row of values.
#[derive(Drop)]
pub(crate) struct EdgeColumns {
    states: Vec<EdgeState>,
    ends: Vec<Ends>,
    values: LayerRows,
    count: u32,
}

impl Model for EdgeColumns {
    ghost use Rattle.std.specs.Prelude.{◌-◌, length, map, take};
    ghost use Rattle.mesh_model.specs.Table.{table_of};
    ghost use Rattle.mesh_model.specs.Columns.{EdgeTable, edge_at, is_used, AreEdgeColumns};

    ghost Value = { EdgeTable };

    ghost view = { λ c. record {
      table = table_of (edge_at c.states.items c.ends.items c.values.rows) c.count;
      used = map is_used (take c.count c.states.items);
      layers = c.values.layers;
      room = length c.states.items - c.count;
    } };

    ghost invariant = { λ c. AreEdgeColumns c.states.items c.ends.items c.values.rows c.count };
}

impl EdgeColumns {
    /// No edge. Takes no memory.
    pub(crate) fn new(alloc: Global, values: LayerRows) -> EdgeColumns
        ensures { result ≡ record { table = []; used = []; layers = values.layers; room = 0 } }
    {
        EdgeColumns {
            states: Vec::new(alloc),
            ends: Vec::new(alloc),
            values,
            count: 0,
        }
    }

    /// Makes room for so many more.
    pub(crate) fn reserve(&mut self, more: u32) -> Result<(), NoMemory>
        ensures table { self.new.table ≡ self.old.table }
        ensures used { self.new.used ≡ self.old.used }
        ensures layers { self.new.layers ≡ self.old.layers }
        ensures ok { OnOk result (more ≤ self.new.room) }
    {
        let places = self.count as usize + more as usize;
        if self.states.len() < places {
            self.values.reserve(places)?;
            let nowhere = Ends {
                a: VertName(0),
                b: VertName(0),
            };
            self.ends.resize(places, nowhere)?;
            self.states.resize(places, EdgeState::Absent)?;
        }
        Ok(())
    }

    /// An edge more, without a corner. Takes no memory.
    pub(crate) fn push(&mut self, ends: Ends, row: &[i64])
        requires room { 0 < self.old.room }
        requires fits { length self.old.table + 1 < 2 ^ 32 }
        requires wide { length row.now ≡ total self.old.layers }
        ensures { self.new ≡ record self.old {
          table = self.old.table ++ Some (record { a = ends.a; b = ends.b; vals = row.now }) ∷ [];
          used = self.old.used ++ false ∷ [];
          room = self.old.room - 1;
        } }
    {
        let place = self.count as usize;
        self.states[place] = EdgeState::Loose;
        self.ends[place] = ends;
        self.values.set_row(place, row);
        self.count += 1;
    }

    /// A name more, at which no edge stands. Takes no memory.
    pub(crate) fn skip(&mut self)
        requires room { 0 < self.old.room }
        requires fits { length self.old.table + 1 < 2 ^ 32 }
        ensures { self.new ≡ record self.old {
          table = self.old.table ++ None ∷ [];
          used = self.old.used ++ false ∷ [];
          room = self.old.room - 1;
        } }
    {
        let place = self.count as usize;
        self.states[place] = EdgeState::Absent;
        self.count += 1;
    }

    /// Notes that an edge has a corner. Takes no memory.
    pub(crate) fn mark_used(&mut self, name: u32)
        requires { IsThere self.old.table name }
        ensures same { self.new ≡ record self.old { used = self.new.used } }
        ensures used { (e : ℕ) → is_in self.new.used e ≡ (is_in self.old.used e || (name == e)) }
    {
        self.states[name as usize] = EdgeState::Used;
    }

    /// The next name.
    pub(crate) fn len(&self) -> u32
        ensures len { result ≡ length self.now.table }
        ensures used { length self.now.used ≡ length self.now.table }
    {
        self.count
    }

    /// Whether an edge stands at a name.
    pub(crate) fn has(&self, name: u32) -> bool
        ensures { result ≡ is_some (at self.now.table name) }
    {
        name < self.count && self.states[name as usize].stands()
    }

    /// The least name not below a number at which an edge stands.
    pub(crate) fn first_from(&self, least: u32) -> Option<u32>
        ensures { result ≡ least_from self.now.table least }
    {
        for name in least..self.len() {
            if self.has(name) {
                return Some(name);
            }
        }
        None
    }

    /// Whether an edge has a corner.
    pub(crate) fn is_used(&self, name: u32) -> bool
        ensures { result ≡ is_in self.now.used name }
    {
        name < self.count && self.states[name as usize].is_used()
    }

    /// The ends of an edge.
    pub(crate) fn ends(&self, name: u32) -> Ends
        requires { IsThere self.now.table name }
        ensures { option_map (λ r. record { a = r.a; b = r.b }) (at self.now.table name) ≡ Some result }
    {
        self.ends[name as usize]
    }

    /// A number of an edge's row.
    pub(crate) fn value(&self, name: u32, k: usize) -> i64
        requires there { IsThere self.now.table name }
        requires within { k < total self.now.layers }
        ensures { option_map (λ r. slice_get r.vals k) (at self.now.table name) ≡ Some (Some result) }
    {
        self.values.value(name as usize, k)
    }

    /// The layers of edges.
    pub(crate) fn values(&self) -> &LayerRows
        ensures { result.now.layers ≡ self.now.layers }
    {
        &self.values
    }
}
