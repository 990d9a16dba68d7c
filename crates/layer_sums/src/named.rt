//! The numbers that a row has in a layer.

ghost use Rattle.std.specs.Prelude.{◌≡◌, ◌<◌, length, Some, slice_get};
ghost use Rattle.std.specs.Option.{option_map};
ghost use Rattle.cust_data.specs.Layers.{same_name, find_layer};
ghost use Rattle.mesh_model.specs.Complex.{layers_of, width};
ghost use Rattle.mesh_model.specs.Values.{offset, numbers_at};
ghost use Rattle.layer_sums.specs.Sums.{numbers_named};

use mesh_model::{Kind, Shape};

/// The numbers that a row of a kind has in the layer of a name, and none where the kind has no such layer. In time
/// proportional to the number of layers.
pub fn numbers_named<'a, S: Shape>(shape: &S, kind: Kind, name: &[u8], row: &'a [i64]) -> &'a [i64]
    requires { length row.now ≡ width (S.complex shape.now) kind }
    ensures { result.now ≡ numbers_named (S.complex shape.now) kind name.now row.entry.now }
{
    match layer_of(shape, kind, name) {
        Some(k) => numbers_at(shape, kind, k, row),
        None => &[],
    }
}

// The position of the layer of a name.
fn layer_of<S: Shape>(shape: &S, kind: Kind, name: &[u8]) -> Option<usize>
    ensures { result ≡ find_layer (layers_of (S.complex shape.now).layers kind) name.now }
{
    for k in 0..shape.layers(kind) {
        if is_named(shape, kind, k, name) {
            return Some(k);
        }
    }
    None
}

// Whether a layer has a name.
fn is_named<S: Shape>(shape: &S, kind: Kind, k: usize, name: &[u8]) -> bool
    requires { k < length (layers_of (S.complex shape.now).layers kind) }
    ensures { option_map (λ l. same_name l.name name.now) (slice_get (layers_of (S.complex shape.now).layers kind) k)
        ≡ Some result }
{
    shape.layer_name(kind, k) == name
}

// The numbers that a row has in a layer, by its position.
fn numbers_at<'a, S: Shape>(shape: &S, kind: Kind, k: usize, row: &'a [i64]) -> &'a [i64]
    requires there { k < length (layers_of (S.complex shape.now).layers kind) }
    requires wide { length row.now ≡ width (S.complex shape.now) kind }
    ensures { result.now ≡ numbers_at (layers_of (S.complex shape.now).layers kind) k row.entry.now }
{
    let start = offset(shape, kind, k);
    let width = shape.layer_width(kind, k) as usize;
    &row[start..start + width]
}

// Where the numbers of a layer begin in a row.
fn offset<S: Shape>(shape: &S, kind: Kind, k: usize) -> usize
    requires { k < length (layers_of (S.complex shape.now).layers kind) }
    ensures { result ≡ offset (layers_of (S.complex shape.now).layers kind) k }
{
    let _ = shape.counters();
    let mut start = 0;
    for j in 0..k {
        start += shape.layer_width(kind, j) as usize;
    }
    start
}
