//! A row of values as it is put together.

ghost use Rattle.std.specs.Prelude.{◌≡◌, ◌+◌, ◌<◌, ◌≤◌, ◌∷◌, [], ◌++◌, length, slice_get, Some};
ghost use Rattle.std.specs.Option.{option_map};
ghost use Rattle.cust_data.specs.Layers.{Layer, total, zeros};
ghost use Rattle.mesh_model.specs.Complex.{uv_layer, material_layer, smooth_layer};
ghost use Rattle.mesh_model.specs.Values.{same_layer, numbers_for, row_given};
ghost use Rattle.cust_data.specs.Layers.{AreLayers};

use crate::layer_rows::LayerRows;
use cust_data::Rule;
use std::marker::Model;

/// The most numbers that a row has: sixteen layers of four.
pub(crate) const MAX_NUMBERS: usize = 64;

/// The first numbers of a row of values, at most 64, which are kept without memory.
#[derive(Drop)]
pub struct RowBuffer {
    numbers: [i64; 64],
    count: usize,
}

impl Model for RowBuffer {
    ghost use Rattle.std.specs.Prelude.{◌≡◌, ◌≤◌, ℤ, List, length, take};
    ghost use Rattle.mesh_model.specs.Columns.{FillsRow};

    ghost Value = { List ℤ };

    ghost view = { λ b. take b.count b.numbers };

    ghost invariant = { λ b. FillsRow b.numbers b.count };
}

impl RowBuffer {
    /// No number.
    pub(crate) fn new() -> RowBuffer
        ensures { result ≡ [] }
    {
        RowBuffer {
            numbers: [0; 64],
            count: 0,
        }
    }

    /// No number any more.
    pub(crate) fn clear(&mut self)
        ensures { self.new ≡ [] }
    {
        self.count = 0;
    }

    /// A number more.
    pub(crate) fn push(&mut self, x: i64)
        requires { length self.old < MAX_NUMBERS }
        ensures { self.new ≡ self.old ++ x ∷ [] }
    {
        self.numbers[self.count] = x;
        self.count += 1;
    }

    /// So many zeros more.
    pub(crate) fn push_zeros(&mut self, n: usize)
        requires { length self.old + n ≤ MAX_NUMBERS }
        ensures { self.new ≡ self.old ++ zeros n }
    {
        for k in 0..n {
            self.push(0);
        }
    }

    /// The numbers.
    pub fn as_slice(&self) -> &[i64]
        ensures { result.now ≡ self.now }
    {
        &self.numbers[..self.count]
    }
}

/// The row of zeros for some layers.
pub(crate) fn zero_row(layers: &LayerRows) -> RowBuffer
    requires { total layers.now.layers ≤ MAX_NUMBERS }
    ensures { result ≡ zeros (total layers.now.layers) }
{
    let mut row = RowBuffer::new();
    row.push_zeros(layers.total());
    row
}

/// The row of a corner that lies here in the texture.
pub(crate) fn corner_row(layers: &LayerRows, uv: &[i64]) -> RowBuffer
    requires layers { AreLayers layers.now.layers }
    requires two { length uv.now ≡ 2 }
    ensures given { result ≡ row_given ((uv_layer, uv.now) ∷ []) layers.now.layers }
    ensures wide { length result ≡ total layers.now.layers }
{
    let mut row = RowBuffer::new();
    for k in 0..layers.layers() {
        push_corner_numbers(&mut row, layers, k, uv);
    }
    row
}

// The numbers that a corner has in a layer.
fn push_corner_numbers(row: &mut RowBuffer, layers: &LayerRows, k: usize, uv: &[i64])
    requires two { length uv.now ≡ 2 }
    requires layer { k < length layers.now.layers }
    requires room { length row.old + 4 ≤ MAX_NUMBERS }
    requires widths { AreLayers layers.now.layers }
    ensures { (l : Layer) → slice_get layers.now.layers k ≡ Some l
        → row.new ≡ row.old ++ numbers_for ((uv_layer, uv.now) ∷ []) l }
{
    if is_layer(layers, k, b"uv", 2, Rule::Mix) {
        row.push(uv[0]);
        row.push(uv[1]);
    } else {
        row.push_zeros(layers.layer_width(k) as usize);
    }
}

/// The row of a face of a material and a smoothing group.
pub(crate) fn face_row(layers: &LayerRows, material: i64, smooth: i64) -> RowBuffer
    requires { AreLayers layers.now.layers }
    ensures given { result ≡ row_given ((material_layer, material ∷ []) ∷ (smooth_layer, smooth ∷ []) ∷ [])
        layers.now.layers }
    ensures wide { length result ≡ total layers.now.layers }
{
    let mut row = RowBuffer::new();
    for k in 0..layers.layers() {
        push_face_numbers(&mut row, layers, k, material, smooth);
    }
    row
}

// The numbers that a face has in a layer.
fn push_face_numbers(row: &mut RowBuffer, layers: &LayerRows, k: usize, material: i64, smooth: i64)
    requires layer { k < length layers.now.layers }
    requires room { length row.old + 4 ≤ MAX_NUMBERS }
    requires widths { AreLayers layers.now.layers }
    ensures { (l : Layer) → slice_get layers.now.layers k ≡ Some l
        → row.new ≡ row.old ++ numbers_for ((material_layer, material ∷ []) ∷ (smooth_layer, smooth ∷ []) ∷ []) l }
{
    if is_layer(layers, k, b"material", 1, Rule::Copy) {
        row.push(material);
    } else if is_layer(layers, k, b"smooth", 1, Rule::Copy) {
        row.push(smooth);
    } else {
        row.push_zeros(layers.layer_width(k) as usize);
    }
}

// Whether a layer has this name, width and rule.
fn is_layer(layers: &LayerRows, k: usize, name: &[u8], width: u8, rule: Rule) -> bool
    requires { k < length layers.now.layers }
    ensures { option_map (same_layer (record { name = name.now; width = width; rule = rule }))
        (slice_get layers.now.layers k)
        ≡ Some result }
{
    layers.layer_name(k) == name && layers.layer_width(k) == width && layers.layer_rule(k) == rule
}
