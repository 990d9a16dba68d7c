//! Rows of values by layer, where the layers of a new draft are made only as memory is taken.

ghost use Rattle.std.specs.Prelude.{◌≡◌, ◌<◌, [], length, Some, None, IfOk, OnOk, OnErr, slice_get};
ghost use Rattle.std.specs.Option.{option_map};
ghost use Rattle.std.specs.List.{All};
ghost use Rattle.cust_data.specs.Layers.{Layer, total, with_layer, with_places, with_row, row_of};
ghost use Rattle.cust_data.specs.Faults.{refusal_of};
ghost use Rattle.mesh_model.specs.LayerRows.{due_layers};

use cust_data::{LayerSet, Rule};
use sequence::NoMemory;
use std::alloc::Global;
use std::marker::Model;

/// The layers that a draft has from its beginning, where they are still to be made.
#[derive(Clone, Copy, Debug, PartialEq, Eq)]
pub(crate) enum Due {
    Nothing,
    CornerLayers,
    FaceLayers,
}

/// Layers and their rows: a layer set whose first layers are made as soon as there is to be a row.
#[derive(Drop)]
pub(crate) struct LayerRows {
    alloc: Global,
    made: LayerSet,
    due: Due,
}

impl Model for LayerRows {
    ghost use Rattle.cust_data.specs.Layers.{LayerTable};

    ghost Value = { LayerTable };

    ghost use Rattle.mesh_model.specs.LayerRows.{with_due, IsDue};

    ghost view = { λ r. with_due r.due r.made };

    ghost invariant = { λ r. IsDue r.due r.made };
}

impl LayerRows {
    /// The layers that are due, and no row. Takes no memory.
    pub(crate) fn new(alloc: Global, due: Due) -> LayerRows
        ensures { result ≡ record { layers = due_layers due; rows = [] } }
    {
        LayerRows {
            alloc,
            made: LayerSet::new(alloc),
            due,
        }
    }

    /// The layers and rows of a set. Takes no memory.
    pub(crate) fn of(alloc: Global, made: LayerSet) -> LayerRows
        ensures { result ≡ made }
    {
        LayerRows {
            alloc,
            made,
            due: Due::Nothing,
        }
    }

    /// Makes at least so many rows, new ones with zeros.
    pub(crate) fn reserve(&mut self, places: usize) -> Result<(), NoMemory>
        ensures ok { OnOk result (self.new ≡ with_places self.old places) }
        ensures err { OnErr result (self.new ≡ self.old) }
    {
        match self.due {
            Due::Nothing => self.made.reserve(places),
            Due::CornerLayers | Due::FaceLayers => {
                let mut made = set_of(self.alloc, self.due)?;
                made.reserve(places)?;
                self.made = made;
                self.due = Due::Nothing;
                Ok(())
            }
        }
    }

    /// Writes the row at a place.
    pub(crate) fn set_row(&mut self, place: usize, from: &[i64])
        requires place { place < length self.old.rows }
        requires wide { length from.now ≡ total self.old.layers }
        ensures { self.new ≡ with_row self.old place from.now }
    {
        self.made.set_row(place, from);
    }

    /// Reads the row at a place.
    pub(crate) fn row(&self, place: usize, into: &mut [i64])
        requires place { place < length self.now.rows }
        requires wide { length into.old ≡ total self.now.layers }
        ensures { into.new ≡ row_of self.now place }
    {
        self.made.row(place, into);
    }

    /// A number of the row at a place.
    pub(crate) fn value(&self, place: usize, k: usize) -> i64
        requires place { place < length self.now.rows }
        requires within { k < total self.now.layers }
        ensures { slice_get (row_of self.now place) k ≡ Some result }
    {
        let _ = self.made.total();
        self.made.value(place, k)
    }

    /// How many numbers a row has.
    pub(crate) fn total(&self) -> usize
        ensures total { result ≡ total self.now.layers }
        ensures fitted { All (λ row. length row ≡ total self.now.layers) self.now.rows }
    {
        match self.due {
            Due::Nothing => self.made.total(),
            Due::CornerLayers | Due::FaceLayers => 2,
        }
    }

    /// The number of layers.
    pub(crate) fn layers(&self) -> usize
        ensures { result ≡ length self.now.layers }
    {
        match self.due {
            Due::Nothing => self.made.layers(),
            Due::CornerLayers => 1,
            Due::FaceLayers => 2,
        }
    }

    /// The name of a layer.
    pub(crate) fn layer_name(&self, k: usize) -> &[u8]
        requires { k < length self.now.layers }
        ensures { option_map (λ l. l.name) (slice_get self.now.layers k) ≡ Some result.now }
    {
        match self.due {
            Due::Nothing => self.made.layer_name(k),
            Due::CornerLayers => b"uv",
            Due::FaceLayers if k == 0 => b"material",
            Due::FaceLayers => b"smooth",
        }
    }

    /// The width of a layer.
    pub(crate) fn layer_width(&self, k: usize) -> u8
        requires { k < length self.now.layers }
        ensures { option_map (λ l. l.width) (slice_get self.now.layers k) ≡ Some result }
    {
        match self.due {
            Due::Nothing => self.made.layer_width(k),
            Due::CornerLayers => 2,
            Due::FaceLayers => 1,
        }
    }

    /// The rule of a layer.
    pub(crate) fn layer_rule(&self, k: usize) -> Rule
        requires { k < length self.now.layers }
        ensures { option_map (λ l. l.rule) (slice_get self.now.layers k) ≡ Some result }
    {
        match self.due {
            Due::Nothing => self.made.layer_rule(k),
            Due::CornerLayers => Rule::Mix,
            Due::FaceLayers => Rule::Copy,
        }
    }
}

// The set of the layers that are due.
fn set_of(alloc: Global, due: Due) -> Result<LayerSet, NoMemory>
    ensures { IfOk result (λ set. set ≡ record { layers = due_layers due; rows = [] }) }
{
    let mut set = LayerSet::new(alloc);
    match due {
        Due::Nothing => {}
        Due::CornerLayers => add_layer(&mut set, b"uv", 2, Rule::Mix)?,
        Due::FaceLayers => {
            add_layer(&mut set, b"material", 1, Rule::Copy)?;
            add_layer(&mut set, b"smooth", 1, Rule::Copy)?;
        }
    }
    Ok(set)
}

/// Adds a layer that can be added.
pub(crate) fn add_layer(
    set: &mut LayerSet,
    name: &[u8],
    width: u8,
    rule: Rule,
) -> Result<(), NoMemory>
    requires { refusal_of set.old.layers name.now width ≡ None }
    ensures ok { OnOk result (set.new ≡ with_layer set.old (record { name = name.now; width = width; rule = rule })) }
    ensures err { OnErr result (set.new ≡ set.old) }
{
    match set.add(name, width, rule) {
        Ok(()) => Ok(()),
        Err(_) => Err(NoMemory),
    }
}
