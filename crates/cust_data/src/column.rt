//! A column: `N` numbers at each place, one place after the other in memory.
ghost use Rattle.std.specs.Prelude.{◌≡◌, ◌==◌, ◌<◌, ◌-◌, pos, IsTrue, ◌≤ℤ◌, ◌<ℤ◌, ◌++◌, [], length, replicate, slice_set, slice_index_or, OnOk, OnErr};
ghost use Rattle.cust_data.specs.Layers.{zeros, is_width};
ghost use Rattle.cust_data.specs.Mixing.{mix_cell};

use crate::mixing::mix;
use std::alloc::{AllocError as NoMemory, Global};
use std::marker::Model;

/// A cell of `N` numbers at each place.
///
/// Contracts see the list of the cells. The cells lie one after the other in memory, with nothing beside them.
#[derive(Drop)]
pub struct Column<const N: usize> {
    cells: Vec<[i64; N]>,
}

impl<const N: usize> Model for Column<N> {
    ghost use Rattle.std.specs.Prelude.{ℤ, List};

    ghost Value = { List (List ℤ) };

    ghost use Rattle.cust_data.specs.Column.{ColumnHolds};

    ghost view = { λ c. c.cells.items };

    ghost invariant = { λ c. ColumnHolds N c.cells.items };
}

impl<const N: usize> Column<N> {
    /// No place. Takes no memory.
    pub fn new(alloc: Global) -> Self
        requires { IsTrue (is_width N) }
        ensures { result ≡ [] }
    {
        Column {
            cells: Vec::new(alloc),
        }
    }

    /// The number of places.
    pub fn len(&self) -> usize
        ensures { result ≡ length self.now }
    {
        self.cells.len()
    }

    /// Whether there is no place.
    pub fn is_empty(&self) -> bool
        ensures { result ≡ (length self.now == 0) }
    {
        self.cells.is_empty()
    }

    /// Makes at least so many places, new ones with zeros. Takes constant time for each, as a rule.
    ///
    /// After want of memory all is as before.
    pub fn reserve(&mut self, places: usize) -> Result<(), NoMemory>
        ensures ok { OnOk result (self.new ≡ self.old ++ replicate (places - length self.old) (zeros N)) }
        ensures err { OnErr result (self.new ≡ self.old) }
    {
        if self.cells.len() < places {
            self.cells.resize(places, [0; N])?;
        }
        Ok(())
    }

    /// The numbers at a place.
    pub fn get(&self, place: usize) -> &[i64]
        requires { place < length self.now }
        ensures cell { result.now ≡ slice_index_or self.now place (zeros N) }
        ensures wide { length result.now ≡ N }
    {
        &self.cells[place]
    }

    /// Writes the numbers at a place.
    pub fn set(&mut self, place: usize, from: &[i64])
        requires place { place < length self.old }
        requires wide { length from.now ≡ N }
        ensures { self.new ≡ slice_set self.old place from.now }
    {
        let mut cell = [0; N];
        cell.copy_from_slice(from);
        self.cells[place] = cell;
    }

    /// Writes number `k` at a place.
    pub fn set_value(&mut self, place: usize, k: usize, to: i64)
        requires place { place < length self.old }
        requires number { k < N }
        ensures { self.new ≡ slice_set self.old place (slice_set (slice_index_or self.old place (zeros N)) k to) }
    {
        let mut cell = self.cells[place];
        cell[k] = to;
        self.cells[place] = cell;
    }

    /// Writes zeros at a place.
    pub fn clear(&mut self, place: usize)
        requires { place < length self.old }
        ensures { self.new ≡ slice_set self.old place (zeros N) }
    {
        self.cells[place] = [0; N];
    }

    /// Writes the numbers of one place at another.
    pub fn copy(&mut self, from: usize, to: usize)
        requires from { from < length self.old }
        requires to { to < length self.old }
        ensures { self.new ≡ slice_set self.old to (slice_index_or self.old from (zeros N)) }
    {
        self.cells[to] = self.cells[from];
    }

    /// Writes the numbers of two places, mixed one by one, at a third.
    pub fn mix(&mut self, a: usize, b: usize, num: i64, den: i64, to: usize)
        requires a { a < length self.old }
        requires b { b < length self.old }
        requires to { to < length self.old }
        requires from { pos 0 ≤ℤ num }
        requires until { num ≤ℤ den }
        requires parts { pos 0 <ℤ den }
        ensures { self.new ≡ slice_set self.old to
            (mix_cell (slice_index_or self.old a (zeros N)) (slice_index_or self.old b (zeros N)) num den) }
    {
        let mut cell = self.cells[a];
        let other = self.cells[b];
        mix_into(&mut cell, &other, num, den);
        self.cells[to] = cell;
    }
}

// Mixes the numbers of a cell with those of another, one by one.
fn mix_into(cell: &mut [i64], other: &[i64], num: i64, den: i64)
    requires wide { length cell.old ≡ length other.now }
    requires from { pos 0 ≤ℤ num }
    requires until { num ≤ℤ den }
    requires parts { pos 0 <ℤ den }
    ensures { cell.new ≡ mix_cell cell.old other.now num den }
{
    for k in 0..other.len() {
        cell[k] = mix(cell[k], other[k], num, den);
    }
}
