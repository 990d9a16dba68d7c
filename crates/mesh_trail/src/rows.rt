//! Rows of values: how they are read from a shape, copied and compared.

ghost use Rattle.std.specs.Prelude.{◌≡◌, ◌≤◌, ◌<◌, ◌+◌, ◌++◌, ◌↔◌, ℤ, List, OnOk, OnErr, IsOk, Some, true, length, slice_get};
ghost use Rattle.std.specs.Vec.{vec_len, vec_capacity};
ghost use Rattle.mesh_trail.specs.Kept.{vert_row, edge_row, face_row};

use mesh_model::{EdgeName, FaceName, NoMemory, Shape, VertName};

// The values of one element.
pub(crate) trait Row {
    ghost vals: { Self → List ℤ };

    // The value at a position.
    fn value(&self, k: usize) -> i64
        requires { k < length (vals self.now) }
        ensures { slice_get (vals self.now) k ≡ Some result };
}

// The values of a vertex.
#[derive(Clone, Copy)]
pub(crate) struct VertRow<'a, S> {
    pub(crate) now: &'a S,
    pub(crate) vert: VertName,
}

impl<'a, S: Shape> Row for VertRow<'a, S> {
    ghost vals = { λ r. vert_row (S.complex r.now.now) r.vert.0 };

    fn value(&self, k: usize) -> i64 {
        self.now.vert_value(self.vert, k)
    }
}

// The values of an edge.
#[derive(Clone, Copy)]
pub(crate) struct EdgeRow<'a, S> {
    pub(crate) now: &'a S,
    pub(crate) edge: EdgeName,
}

impl<'a, S: Shape> Row for EdgeRow<'a, S> {
    ghost vals = { λ r. edge_row (S.complex r.now.now) r.edge.0 };

    fn value(&self, k: usize) -> i64 {
        self.now.edge_value(self.edge, k)
    }
}

// The values of a face.
#[derive(Clone, Copy)]
pub(crate) struct FaceRow<'a, S> {
    pub(crate) now: &'a S,
    pub(crate) face: FaceName,
}

impl<'a, S: Shape> Row for FaceRow<'a, S> {
    ghost vals = { λ r. face_row (S.complex r.now.now) r.face.0 };

    fn value(&self, k: usize) -> i64 {
        self.now.face_value(self.face, k)
    }
}

// Values that are kept.
#[derive(Clone, Copy)]
pub(crate) struct NumberRow<'a> {
    pub(crate) numbers: &'a [i64],
}

impl<'a> Row for NumberRow<'a> {
    ghost vals = { λ r. r.numbers.now };

    fn value(&self, k: usize) -> i64 {
        self.numbers[k]
    }
}

// Puts a row at the end, or leaves all as before.
pub(crate) fn push_row<R: Row>(values: &mut Vec<i64>, width: usize, row: &R) -> Result<(), NoMemory>
    requires { length (R.vals row.now) ≡ width }
    ensures ok { OnOk result (values.new.items ≡ values.old.items ++ R.vals row.now) }
    ensures len { OnOk result (vec_len values.new ≡ vec_len values.old + width) }
    ensures room { OnOk result (vec_len values.old + width ≤ vec_capacity values.new) }
    ensures err { OnErr result ((values.new.items ≡ values.old.items) × (vec_len values.new ≡ vec_len values.old)) }
    ensures succeeds { vec_len values.old + width ≤ vec_capacity values.old → IsOk result }
    ensures capacity { vec_capacity values.old ≤ vec_capacity values.new }
{
    values.reserve(width)?;
    for k in 0..width {
        values.push_reserved(row.value(k));
    }
    Ok(())
}

// Whether two numbers are equal.
fn same_number(a: i64, b: i64) -> bool
    ensures { result ≡ true ↔ (a ≡ b) }
{
    a == b
}

// Whether kept values equal a row that is as long.
pub(crate) fn same_row<R: Row>(kept: &[i64], row: &R) -> bool
    requires { length kept.now ≡ length (R.vals row.now) }
    ensures { result ≡ true ↔ (kept.now ≡ R.vals row.now) }
{
    for k in 0..kept.len() {
        if !same_number(kept[k], row.value(k)) {
            return false;
        }
    }
    true
}
