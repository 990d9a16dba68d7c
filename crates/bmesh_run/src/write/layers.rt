//! The lines of declared layers.

ghost use Rattle.std.specs.Prelude.{◌≡◌, ◌++◌, OnOk};
ghost use Rattle.mesh_model.specs.Valid.{IsValid};
ghost use Rattle.layer_sums.specs.Sums.{row_sums};
ghost use Rattle.bmesh_run.specs.Report.{listed, layer_line, layer_lines};

use layer_sums::{Totals, numbers_named};
use mesh_model::{LayerDecl, NoMemory, Shape};
use std::alloc::Global;

/// Appends the lines of some layers in order: the kind and the name of each, and the sums of its numbers over all
/// elements of the kind. In time proportional to the numbers of the elements of each kind that a layer is of.
pub fn push_layers<S: Shape>(
    alloc: Global,
    shape: &S,
    layers: &[LayerDecl],
    out: &mut Vec<u8>,
) -> Result<(), NoMemory>
    requires { IsValid (S.complex shape.now) }
    ensures { OnOk result (out.new.items ≡ out.old.items ++ layer_lines (S.complex shape.now) layers.now) }
{
    let totals = Totals::of(alloc, shape, layers)?;
    for layer in layers {
        let row = totals.row(layer.kind);
        push_layer(alloc, shape, layer, row, out)?;
    }
    Ok(())
}

// Appends the line of a layer, by the sums of the rows of its kind.
fn push_layer<S: Shape>(
    alloc: Global,
    shape: &S,
    layer: &LayerDecl,
    row: &[i64],
    out: &mut Vec<u8>,
) -> Result<(), NoMemory>
    requires valid { IsValid (S.complex shape.now) }
    requires whole { row.now ≡ row_sums (S.complex shape.now) layer.now.kind }
    ensures { OnOk result (out.new.items ≡ out.old.items ++ layer_line (S.complex shape.now) layer.now) }
{
    let kind = layer.kind;
    let head = format!(in alloc; "layer {kind} ")?;
    out.extend_from_slice(head.as_bytes())?;
    let name = layer.name.as_slice();
    out.extend_from_slice(name)?;
    out.extend_from_slice(b" sum=")?;
    let sums = numbers_named(shape, kind, name, row);
    push_numbers(alloc, sums, out)?;
    out.push(b'\n')?;
    Ok(())
}

// Appends numbers with a comma before each but the first.
fn push_numbers(alloc: Global, numbers: &[i64], out: &mut Vec<u8>) -> Result<(), NoMemory>
    ensures { OnOk result (out.new.items ≡ out.old.items ++ listed numbers.now) }
{
    for k in 0..numbers.len() {
        if k > 0 {
            out.push(b',')?;
        }
        let number = numbers[k];
        let text = format!(in alloc; "{number}")?;
        out.extend_from_slice(text.as_bytes())?;
    }
    Ok(())
}
