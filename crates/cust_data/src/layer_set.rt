//! A set of layers, with a row of numbers at each place.
ghost use Rattle.std.specs.Prelude.{◌≡◌, ◌<◌, ◌≤◌, ◌+◌, ◌++◌, ◌∷◌, pos, ◌≤ℤ◌, ◌<ℤ◌, [], length, take, slice_set, slice_index_or, slice_get, option_map, OnOk, OnErr, IsOkUnless, MatchOption, IsOk, Some, None, Err, nat_le, ◌&&◌};
ghost use Rattle.std.specs.List.{list_all};
ghost use Rattle.cust_data.specs.Layers.{Layer, LayerTable, IsTable, total, zeros, find_layer, is_layer_name, row_of, with_row, with_places, with_layer};
ghost use Rattle.cust_data.specs.Mixing.{mix_row};
ghost use Rattle.cust_data.specs.Faults.{refusal_of};

use crate::cell_rows::{
    clear_cells, column_with, copy_cells, find_column, grow_cells, mix_cells, read_cells,
    set_cells, total_width,
};
use crate::fault::LayerFault;
use crate::layer_column::LayerColumn;
use crate::rule::Rule;
use std::alloc::{AllocError as NoMemory, Global};
use std::marker::Model;

/// Layers of numbers, and for each place one flat row of them.
///
/// Contracts see a [`LayerSet`] as a table: the layers in order, each with its name, width and rule, and for each place
/// one list of numbers, layer after layer. Only `add` and `reserve` take memory. There are at most sixteen layers, with
/// 1 to 4 numbers each, so that a row has at most 64 numbers.
#[derive(Drop)]
pub struct LayerSet {
    columns: Vec<LayerColumn>,
    places: usize,
}

impl Model for LayerSet {
    ghost use Rattle.cust_data.specs.Layers.{LayerTable};
    ghost use Rattle.cust_data.specs.Inside.{table_of, ColumnsHold};

    ghost Value = { LayerTable };

    ghost view = { λ s. table_of s.columns.items s.places };

    ghost invariant = { λ s. ColumnsHold s.columns.items s.places };
}

/// Layers and places.
impl LayerSet {
    /// No layer and no place. Takes no memory.
    pub fn new(alloc: Global) -> LayerSet
        ensures empty { result ≡ record { layers = []; rows = [] } }
        ensures table { IsTable result }
    {
        LayerSet {
            columns: Vec::new(alloc),
            places: 0,
        }
    }

    /// Adds a layer behind the others, whose numbers are 0 at each place.
    ///
    /// The first of these faults that applies is answered: `BadName` where the name isn't 1 to 63 bytes between 33 and
    /// 126, `BadWidth` where the width isn't 1 to 4, `LayerExists` where there is a layer of this name,
    /// `TooManyLayers` where there are sixteen, `NoMemory`. After each of them nothing has changed. Takes time in
    /// proportion to the places.
    pub fn add(&mut self, name: &[u8], width: u8, rule: Rule) -> Result<(), LayerFault>
        ensures refused { MatchOption (refusal_of self.old.layers name.now width)
            (IsOkUnless result LayerFault.NoMemory) (λ fault. result ≡ Err fault) }
        ensures ok { OnOk result
            (self.new ≡ with_layer self.old (record { name = name.now; width = width; rule = rule })) }
        ensures err { OnErr result (self.new ≡ self.old) }
        ensures table { IsTable self.new }
    {
        match self.refusal(name, width) {
            Some(fault) => Err(fault),
            None => self.append(name, width, rule),
        }
    }

    // Adds a layer that isn't refused.
    fn append(&mut self, name: &[u8], width: u8, rule: Rule) -> Result<(), LayerFault>
        requires { refusal_of self.old.layers name.now width ≡ None }
        ensures fault { IsOkUnless result LayerFault.NoMemory }
        ensures ok { OnOk result
            (self.new ≡ with_layer self.old (record { name = name.now; width = width; rule = rule })) }
        ensures err { OnErr result (self.new ≡ self.old) }
        ensures table { IsTable self.new }
    {
        let alloc = *self.columns.allocator();
        let name = Vec::from_slice(alloc, name)?;
        let mut column = LayerColumn::new(alloc, name, width, rule);
        column.reserve(self.places)?;
        self.columns.push(column)?;
        Ok(())
    }

    // Why a new layer is refused, if it is.
    fn refusal(&self, name: &[u8], width: u8) -> Option<LayerFault>
        ensures refusal { result ≡ refusal_of self.now.layers name.now width }
        ensures table { IsTable self.now }
    {
        let count = self.layers();
        if !is_name(name) {
            Some(LayerFault::BadName)
        } else if width < 1 || width > 4 {
            Some(LayerFault::BadWidth)
        } else if self.find(name).is_some() {
            Some(LayerFault::LayerExists)
        } else if count >= 16 {
            Some(LayerFault::TooManyLayers)
        } else {
            None
        }
    }

    /// Makes at least so many places, new ones with zeros.
    ///
    /// Where there are so many already, nothing changes. Otherwise it takes constant time for each new place and layer,
    /// as a rule, since room is made ahead. After `NoMemory` all is as before.
    pub fn reserve(&mut self, places: usize) -> Result<(), NoMemory>
        ensures ok { OnOk result (self.new ≡ with_places self.old places) }
        ensures err { OnErr result (self.new ≡ self.old) }
        ensures enough { places ≤ length self.old.rows → IsOk result }
        ensures table { IsTable self.new }
    {
        if self.places < places {
            grow_cells(&mut self.columns, places)?;
            self.places = places;
        }
        Ok(())
    }

    /// The number of places.
    pub fn places(&self) -> usize
        ensures places { result ≡ length self.now.rows }
        ensures table { IsTable self.now }
    {
        self.places
    }

    /// The number of layers.
    pub fn layers(&self) -> usize
        ensures layers { result ≡ length self.now.layers }
        ensures table { IsTable self.now }
    {
        self.columns.len()
    }

    /// The name of a layer, in bytes.
    pub fn layer_name(&self, k: usize) -> &[u8]
        requires { k < length self.now.layers }
        ensures { option_map (λ (l : Layer). l.name) (slice_get self.now.layers k) ≡ Some result.now }
    {
        self.columns[k].name()
    }

    /// How many numbers a layer gives each place.
    pub fn layer_width(&self, k: usize) -> u8
        requires { k < length self.now.layers }
        ensures { option_map (λ (l : Layer). l.width) (slice_get self.now.layers k) ≡ Some result }
    {
        self.columns[k].width()
    }

    /// How the numbers of a layer are mixed.
    pub fn layer_rule(&self, k: usize) -> Rule
        requires { k < length self.now.layers }
        ensures { option_map (λ (l : Layer). l.rule) (slice_get self.now.layers k) ≡ Some result }
    {
        self.columns[k].rule()
    }

    /// How many numbers a row has: the sum of the widths. Takes time in proportion to the layers.
    pub fn total(&self) -> usize
        ensures total { result ≡ total self.now.layers }
        ensures table { IsTable self.now }
    {
        total_width(&self.columns)
    }

    /// The position of the layer of this name, and `None` exactly where there is none. Takes time in proportion to the
    /// layers' names.
    pub fn find(&self, name: &[u8]) -> Option<usize>
        ensures { result ≡ find_layer self.now.layers name.now }
    {
        find_column(&self.columns, name)
    }
}

/// Rows. A place is below `places`, and a row has `total` numbers, layer after layer.
///
/// Each call takes no memory, and time in proportion to `total`; `value` and `set_value` to the number of layers.
impl LayerSet {
    /// Reads the row at a place.
    pub fn row(&self, place: usize, into: &mut [i64])
        requires place { place < length self.now.rows }
        requires wide { length into.old ≡ total self.now.layers }
        ensures { into.new ≡ row_of self.now place }
    {
        read_cells(&self.columns, place, into);
    }

    /// Writes the row at a place.
    pub fn set_row(&mut self, place: usize, from: &[i64])
        requires place { place < length self.old.rows }
        requires wide { length from.now ≡ total self.old.layers }
        ensures row { self.new ≡ with_row self.old place from.now }
        ensures table { IsTable self.new }
    {
        set_cells(&mut self.columns, place, from);
    }

    /// Writes zeros over the row at a place.
    pub fn clear_row(&mut self, place: usize)
        requires { place < length self.old.rows }
        ensures row { self.new ≡ with_row self.old place (zeros (total self.old.layers)) }
        ensures table { IsTable self.new }
    {
        clear_cells(&mut self.columns, place);
    }

    /// Writes the row at `from` over the row at `to`.
    pub fn copy_row(&mut self, from: usize, to: usize)
        requires from { from < length self.old.rows }
        requires to { to < length self.old.rows }
        ensures row { self.new ≡ with_row self.old to (row_of self.old from) }
        ensures table { IsTable self.new }
    {
        copy_cells(&mut self.columns, from, to);
    }

    /// Writes over the row at `to` the row that lies `num / den` of the way from the row at `a` to the row at `b`.
    ///
    /// Layers of the rule `Mix` are mixed number by number, rounded towards minus infinity, and layers of the rule
    /// `Copy` have the numbers of the row at `a`. `num` is between 0 and `den`, and `den` is at least 1.
    pub fn mix_row(&mut self, a: usize, b: usize, num: i64, den: i64, to: usize)
        requires a { a < length self.old.rows }
        requires b { b < length self.old.rows }
        requires to { to < length self.old.rows }
        requires from { pos 0 ≤ℤ num }
        requires until { num ≤ℤ den }
        requires parts { pos 0 <ℤ den }
        ensures row { self.new ≡ with_row self.old to
            (mix_row self.old.layers (row_of self.old a) (row_of self.old b) num den) }
        ensures table { IsTable self.new }
    {
        mix_cells(&mut self.columns, a, b, num, den, to);
    }

    /// Number `k` of the row at a place, `k` being below `total`.
    pub fn value(&self, place: usize, k: usize) -> i64
        requires place { place < length self.now.rows }
        requires number { k < total self.now.layers }
        ensures { result ≡ slice_index_or (row_of self.now place) k (pos 0) }
    {
        let (at, number) = column_with(&self.columns, k);
        self.columns[at].get(place)[number]
    }

    /// Writes number `k` of the row at a place, `k` being below `total`.
    pub fn set_value(&mut self, place: usize, k: usize, to: i64)
        requires place { place < length self.old.rows }
        requires number { k < total self.old.layers }
        ensures row { self.new ≡ with_row self.old place (slice_set (row_of self.old place) k to) }
        ensures table { IsTable self.new }
    {
        let (at, number) = column_with(&self.columns, k);
        let column = &mut self.columns[at];
        column.set_value(place, number, to);
    }
}

// Whether a layer may have this name.
fn is_name(name: &[u8]) -> bool
    ensures { result ≡ is_layer_name name.now }
{
    !name.is_empty() && name.len() <= 63 && are_printed(name)
}

// Whether each byte is a printed ASCII character and no blank.
fn are_printed(name: &[u8]) -> bool
    ensures { result ≡ list_all (λ b. nat_le 33 b && nat_le b 126) name.now }
{
    name.iter().all(|byte| 33 <= *byte && *byte <= 126)
}
