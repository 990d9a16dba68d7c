//! Values and their layers, by part.
ghost use Rattle.std.specs.Prelude.{◌≡◌, ◌<◌, pos, ◌≤ℤ◌, ◌<ℤ◌, length, slice_get, Some, Err, MatchOption, OnOk, OnErr, IsOkUnless};
ghost use Rattle.std.specs.Option.{option_map};
ghost use Rattle.cust_data.specs.Layers.{Layer, total, find_layer, zeros, row_of, with_row, with_layer};
ghost use Rattle.cust_data.specs.Mixing.{mix_row};
ghost use Rattle.cust_data.specs.Faults.{refusal_of};
ghost use Rattle.mesh_store.specs.Parts.{table_of, change_table, IsLiveIn};

use crate::layers::Part;
use crate::store::Store;
use cust_data::{LayerFault, Rule};
use raw_pool::Slot;

/// Rows of values, which have the numbers of one element, layer after layer.
///
/// The slots of a call have to be live in the part's pool. A new element has the row that was left at its slot. A call
/// takes time that grows with the numbers of a row, and no memory; all other rows stay.
impl Store {
    /// Reads a row into `into`, which is as long.
    pub fn row(&self, part: Part, s: Slot, into: &mut [i64])
        requires live { IsLiveIn part self.now s.0 }
        requires wide { length into.old ≡ total (table_of part self.now.values).layers }
        ensures { into.new ≡ row_of (table_of part self.now.values) s.0 }
    {
        self.values.of(part).row(s.0 as usize, into);
    }

    /// Writes a row from `from`, which is as long.
    pub fn set_row(&mut self, part: Part, s: Slot, from: &[i64])
        requires live { IsLiveIn part self.old s.0 }
        requires wide { length from.now ≡ total (table_of part self.old.values).layers }
        ensures { self.new ≡ change_table part (λ t. with_row t s.0 from.now) self.old }
    {
        self.values.of_mut(part).set_row(s.0 as usize, from);
    }

    /// Writes zeros over a row.
    pub fn clear_row(&mut self, part: Part, s: Slot)
        requires { IsLiveIn part self.old s.0 }
        ensures { self.new ≡ change_table part (λ t. with_row t s.0 (zeros (total t.layers))) self.old }
    {
        self.values.of_mut(part).clear_row(s.0 as usize);
    }

    /// Copies a row over another one of the part.
    pub fn copy_row(&mut self, part: Part, from: Slot, to: Slot)
        requires from { IsLiveIn part self.old from.0 }
        requires to { IsLiveIn part self.old to.0 }
        ensures { self.new ≡ change_table part (λ t. with_row t to.0 (row_of t from.0)) self.old }
    {
        self.values
            .of_mut(part)
            .copy_row(from.0 as usize, to.0 as usize);
    }

    /// Writes the mix of two rows, at `num` parts of `den` on the way from `a` to `b`, over a row of the part. Layers
    /// whose rule is to copy get the numbers of `a`. `num` is between 0 and `den`, which isn't 0.
    pub fn mix_row(&mut self, part: Part, a: Slot, b: Slot, num: i64, den: i64, to: Slot)
        requires a { IsLiveIn part self.old a.0 }
        requires b { IsLiveIn part self.old b.0 }
        requires to { IsLiveIn part self.old to.0 }
        requires from { pos 0 ≤ℤ num }
        requires until { num ≤ℤ den }
        requires parts { pos 0 <ℤ den }
        ensures { self.new ≡ change_table part
            (λ t. with_row t to.0 (mix_row t.layers (row_of t a.0) (row_of t b.0) num den)) self.old }
    {
        let values = self.values.of_mut(part);
        values.mix_row(a.0 as usize, b.0 as usize, num, den, to.0 as usize);
    }
}

/// Layers.
impl Store {
    /// Appends a layer to those of a part, with zeros in every row. Each fault comes where `LayerSet::add` says, and
    /// then nothing has changed. It takes time and memory that grow with the places of the part.
    pub fn add_layer(
        &mut self,
        part: Part,
        name: &[u8],
        width: u8,
        rule: Rule,
    ) -> Result<(), LayerFault>
        ensures refused { MatchOption (refusal_of (table_of part self.old.values).layers name.now width)
            (IsOkUnless result LayerFault.NoMemory) (λ fault. result ≡ Err fault) }
        ensures ok { OnOk result (self.new ≡
            change_table part (λ t. with_layer t (record { name = name.now; width = width; rule = rule })) self.old) }
        ensures err { OnErr result (self.new ≡ self.old) }
    {
        self.values.of_mut(part).add(name, width, rule)
    }

    /// The sum of the widths of a part's layers, which is the length of its rows.
    pub fn total(&self, part: Part) -> usize
        ensures { result ≡ total (table_of part self.now.values).layers }
    {
        self.values.of(part).total()
    }

    /// The position of a part's layer with this name, and `None` exactly where there is none.
    pub fn find_layer(&self, part: Part, name: &[u8]) -> Option<usize>
        ensures { result ≡ find_layer (table_of part self.now.values).layers name.now }
    {
        self.values.of(part).find(name)
    }

    /// The number of a part's layers.
    pub fn layers(&self, part: Part) -> usize
        ensures { result ≡ length (table_of part self.now.values).layers }
    {
        self.values.of(part).layers()
    }

    /// The name of a part's layer `k`, which is below their number.
    pub fn layer_name(&self, part: Part, k: usize) -> &[u8]
        requires { k < length (table_of part self.now.values).layers }
        ensures { option_map (λ (l : Layer). l.name) (slice_get (table_of part self.now.values).layers k)
            ≡ Some result.now }
    {
        self.values.of(part).layer_name(k)
    }

    /// The width of a part's layer `k`, which is below their number.
    pub fn layer_width(&self, part: Part, k: usize) -> u8
        requires { k < length (table_of part self.now.values).layers }
        ensures { option_map (λ (l : Layer). l.width) (slice_get (table_of part self.now.values).layers k)
            ≡ Some result }
    {
        self.values.of(part).layer_width(k)
    }

    /// The rule by which the numbers of a part's layer `k` are mixed; `k` is below the number of layers.
    pub fn layer_rule(&self, part: Part, k: usize) -> Rule
        requires { k < length (table_of part self.now.values).layers }
        ensures { option_map (λ (l : Layer). l.rule) (slice_get (table_of part self.now.values).layers k)
            ≡ Some result }
    {
        self.values.of(part).layer_rule(k)
    }
}
