//! A row, as the cells of all columns at a place.
ghost use Rattle.std.specs.Prelude.{◌≡◌, ℕ, ◌+◌, ◌<◌, ◌≤◌, pos, ◌≤ℤ◌, ◌<ℤ◌, length, take, map, position, slice_index_or, OnOk, OnErr, All};
ghost use Rattle.cust_data.specs.Layers.{zeros, total, same_name};
ghost use Rattle.cust_data.specs.Mixing.{mix_cell_by};
ghost use Rattle.cust_data.specs.Filled.{Filled, cell_at, with_cell, grown};
ghost use Rattle.cust_data.specs.Inside.{layers_of, row_at, put_row, AreWide, grown_front};

use crate::layer_column::LayerColumn;
use std::alloc::AllocError as NoMemory;

/// How many numbers the columns have at a place.
pub(crate) fn total_width(columns: &[LayerColumn]) -> usize
    requires few { length columns.now ≤ 16 }
    requires narrow { All (λ (c : Filled). c.layer.width ≤ 4) columns.now }
    ensures { result ≡ total (layers_of columns.now) }
{
    let mut sum = 0;
    for column in columns {
        sum += column.width() as usize;
    }
    sum
}

/// The column of the layer of this name.
pub(crate) fn find_column(columns: &[LayerColumn], name: &[u8]) -> Option<usize>
    ensures { result ≡ position (λ (c : Filled). same_name c.layer.name name.now) columns.now }
{
    for (k, column) in columns.iter().enumerate() {
        if column.name() == name {
            return Some(k);
        }
    }
    None
}

/// The column that has number `k` of a row, and which of its numbers that is.
pub(crate) fn column_with(columns: &[LayerColumn], k: usize) -> (usize, usize)
    requires { k < total (layers_of columns.now) }
    ensures column { result.0 < length columns.now }
    ensures number { total (layers_of (take result.0 columns.now)) + result.1 ≡ k }
    ensures within { (d : Filled) → result.1 < (slice_index_or columns.now result.0 d).layer.width }
{
    let mut number = k;
    for (at, column) in columns.iter().enumerate() {
        let width = column.width() as usize;
        if number < width {
            return (at, number);
        }
        number -= width;
    }
    unreachable!()
}

/// Makes at least so many places in each column, new ones with zeros. After want of memory it is done in some of them.
pub(crate) fn grow_cells(columns: &mut [LayerColumn], places: usize) -> Result<(), NoMemory>
    ensures ok { OnOk result (columns.new ≡ map (grown places) columns.old) }
    ensures err { OnErr result ((i : ℕ) × (columns.new ≡ grown_front places i columns.old)) }
{
    for column in columns.iter_mut() {
        column.reserve(places)?;
    }
    Ok(())
}

/// Reads the cells at a place, one after the other.
pub(crate) fn read_cells(columns: &[LayerColumn], place: usize, into: &mut [i64])
    requires place { All (λ (c : Filled). place < length c.cells) columns.now }
    requires wide { AreWide columns.now place }
    requires room { length into.old ≡ total (layers_of columns.now) }
    ensures { into.new ≡ row_at columns.now place }
{
    let mut from = 0;
    for column in columns {
        let cell = column.get(place);
        let end = from + cell.len();
        into[from..end].copy_from_slice(cell);
        from = end;
    }
}

/// Writes a row over the cells at a place.
pub(crate) fn set_cells(columns: &mut [LayerColumn], place: usize, from: &[i64])
    requires place { All (λ (c : Filled). place < length c.cells) columns.old }
    requires wide { length from.now ≡ total (layers_of columns.old) }
    ensures { columns.new ≡ put_row columns.old place from.now }
{
    let mut at = 0;
    for column in columns.iter_mut() {
        let end = at + column.width() as usize;
        column.set(place, &from[at..end]);
        at = end;
    }
}

/// Writes zeros over the cells at a place.
pub(crate) fn clear_cells(columns: &mut [LayerColumn], place: usize)
    requires { All (λ (c : Filled). place < length c.cells) columns.old }
    ensures { columns.new ≡ map (λ (c : Filled). with_cell c place (zeros c.layer.width)) columns.old }
{
    for column in columns.iter_mut() {
        column.clear(place);
    }
}

/// Writes the cells at one place over those at another.
pub(crate) fn copy_cells(columns: &mut [LayerColumn], from: usize, to: usize)
    requires from { All (λ (c : Filled). from < length c.cells) columns.old }
    requires to { All (λ (c : Filled). to < length c.cells) columns.old }
    ensures { columns.new ≡ map (λ (c : Filled). with_cell c to (cell_at c from)) columns.old }
{
    for column in columns.iter_mut() {
        column.copy(from, to);
    }
}

/// Writes the cells at two places, mixed by the rules of their layers, over those at a third.
pub(crate) fn mix_cells(
    columns: &mut [LayerColumn],
    a: usize,
    b: usize,
    num: i64,
    den: i64,
    to: usize,
)
    requires a { All (λ (c : Filled). a < length c.cells) columns.old }
    requires b { All (λ (c : Filled). b < length c.cells) columns.old }
    requires to { All (λ (c : Filled). to < length c.cells) columns.old }
    requires from { pos 0 ≤ℤ num }
    requires until { num ≤ℤ den }
    requires parts { pos 0 <ℤ den }
    ensures { columns.new ≡ map
        (λ (c : Filled). with_cell c to (mix_cell_by c.layer.rule (cell_at c a) (cell_at c b) num den)) columns.old }
{
    for column in columns.iter_mut() {
        column.mix(a, b, num, den, to);
    }
}
