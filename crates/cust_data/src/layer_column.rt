//! A layer with its cells.
ghost use Rattle.std.specs.Prelude.{◌≡◌, ◌<◌, ◌-◌, ◌++◌, pos, ◌≤ℤ◌, ◌<ℤ◌, [], IsTrue, length, replicate, slice_set, OnOk, OnErr};
ghost use Rattle.cust_data.specs.Layers.{zeros, is_width};
ghost use Rattle.cust_data.specs.Mixing.{mix_cell_by};
ghost use Rattle.cust_data.specs.Filled.{cell_at, with_cell, grown};

use crate::cells::Cells;
use crate::column::Column;
use crate::rule::Rule;
use std::alloc::{AllocError as NoMemory, Global};
use std::marker::Model;

// The eight cases of width and rule: what is done with the column of each, or the column that a width and a rule make.
macro_rules! eight_cases {
    ($cells:expr, $column:ident => $body:expr) => {
        eight_cases!($cells, $column => $body, $body)
    };
    ($cells:expr, $column:ident => $mixed:expr, $copied:expr) => {
        match $cells {
            Cells::Mix1($column) => $mixed,
            Cells::Mix2($column) => $mixed,
            Cells::Mix3($column) => $mixed,
            Cells::Mix4($column) => $mixed,
            Cells::Copy1($column) => $copied,
            Cells::Copy2($column) => $copied,
            Cells::Copy3($column) => $copied,
            Cells::Copy4($column) => $copied,
        }
    };
}

/// A layer, and a cell of its numbers for each place.
#[derive(Drop)]
pub struct LayerColumn {
    name: Vec<u8>,
    cells: Cells,
}

impl Model for LayerColumn {
    ghost use Rattle.cust_data.specs.Filled.{Filled};

    ghost Value = { Filled };

    ghost use Rattle.cust_data.specs.Cells.{numbers_of, width_of, rule_of};

    ghost view = { λ c. record {
      layer = record { name = c.name.items; width = width_of c.cells; rule = rule_of c.cells };
      cells = numbers_of c.cells;
    } };
}

impl LayerColumn {
    /// A layer with no place. Takes no memory.
    pub(crate) fn new(alloc: Global, name: Vec<u8>, width: u8, rule: Rule) -> Self
        requires { IsTrue (is_width width) }
        ensures { result ≡ record { layer = record { name = name.items; width = width; rule = rule }; cells = [] } }
    {
        let cells = match (rule, width) {
            (Rule::Mix, 1) => Cells::Mix1(Column::new(alloc)),
            (Rule::Mix, 2) => Cells::Mix2(Column::new(alloc)),
            (Rule::Mix, 3) => Cells::Mix3(Column::new(alloc)),
            (Rule::Mix, _) => Cells::Mix4(Column::new(alloc)),
            (Rule::Copy, 1) => Cells::Copy1(Column::new(alloc)),
            (Rule::Copy, 2) => Cells::Copy2(Column::new(alloc)),
            (Rule::Copy, 3) => Cells::Copy3(Column::new(alloc)),
            (Rule::Copy, _) => Cells::Copy4(Column::new(alloc)),
        };
        LayerColumn { name, cells }
    }

    /// The layer's name.
    pub(crate) fn name(&self) -> &[u8]
        ensures { result.now ≡ self.now.layer.name }
    {
        &self.name
    }

    /// How many numbers a cell has.
    pub(crate) fn width(&self) -> u8
        ensures { result ≡ self.now.layer.width }
    {
        match self.cells {
            Cells::Mix1(_) | Cells::Copy1(_) => 1,
            Cells::Mix2(_) | Cells::Copy2(_) => 2,
            Cells::Mix3(_) | Cells::Copy3(_) => 3,
            Cells::Mix4(_) | Cells::Copy4(_) => 4,
        }
    }

    /// How they are mixed.
    pub(crate) fn rule(&self) -> Rule
        ensures { result ≡ self.now.layer.rule }
    {
        eight_cases!(&self.cells, _column => Rule::Mix, Rule::Copy)
    }

    /// The numbers at a place.
    pub(crate) fn get(&self, place: usize) -> &[i64]
        requires { place < length self.now.cells }
        ensures cell { result.now ≡ cell_at self.now place }
        ensures wide { length result.now ≡ self.now.layer.width }
    {
        eight_cases!(&self.cells, column => column.get(place))
    }

    /// Writes the numbers at a place.
    pub(crate) fn set(&mut self, place: usize, from: &[i64])
        requires place { place < length self.old.cells }
        requires wide { length from.now ≡ self.old.layer.width }
        ensures { self.new ≡ with_cell self.old place from.now }
    {
        eight_cases!(&mut self.cells, column => column.set(place, from))
    }

    /// Makes at least so many places, new ones with zeros. After want of memory all is as before.
    pub(crate) fn reserve(&mut self, places: usize) -> Result<(), NoMemory>
        ensures ok { OnOk result (self.new ≡ grown places self.old) }
        ensures err { OnErr result (self.new ≡ self.old) }
    {
        eight_cases!(&mut self.cells, column => column.reserve(places))
    }
    /// Writes number `k` at a place.
    pub(crate) fn set_value(&mut self, place: usize, k: usize, to: i64)
        requires place { place < length self.old.cells }
        requires number { k < self.old.layer.width }
        ensures { self.new ≡ with_cell self.old place (slice_set (cell_at self.old place) k to) }
    {
        eight_cases!(&mut self.cells, column => column.set_value(place, k, to))
    }

    /// Writes zeros at a place.
    pub(crate) fn clear(&mut self, place: usize)
        requires { place < length self.old.cells }
        ensures { self.new ≡ with_cell self.old place (zeros self.old.layer.width) }
    {
        eight_cases!(&mut self.cells, column => column.clear(place))
    }

    /// Writes the numbers of one place at another.
    pub(crate) fn copy(&mut self, from: usize, to: usize)
        requires from { from < length self.old.cells }
        requires to { to < length self.old.cells }
        ensures { self.new ≡ with_cell self.old to (cell_at self.old from) }
    {
        eight_cases!(&mut self.cells, column => column.copy(from, to))
    }

    /// Writes the numbers of two places, mixed by the layer's rule, at a third.
    pub(crate) fn mix(&mut self, a: usize, b: usize, num: i64, den: i64, to: usize)
        requires a { a < length self.old.cells }
        requires b { b < length self.old.cells }
        requires to { to < length self.old.cells }
        requires from { pos 0 ≤ℤ num }
        requires until { num ≤ℤ den }
        requires parts { pos 0 <ℤ den }
        ensures { self.new ≡ with_cell self.old to
            (mix_cell_by self.old.layer.rule (cell_at self.old a) (cell_at self.old b) num den) }
    {
        eight_cases!(&mut self.cells, column => column.mix(a, b, num, den, to), column.copy(a, to))
    }
}
