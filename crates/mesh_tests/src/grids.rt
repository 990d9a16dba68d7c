//! Grids.
ghost use Rattle.std.specs.Prelude.{IfOk};
ghost use Rattle.mesh_model.specs.Valid.{IsValid};

use mesh_model::{Draft, NoMemory};
use sample_drafts::{corner, face, row_of_verts};
use std::alloc::Global;

// The cell whose first vertex has this number, where so many vertices stand in a row. None at the end of a row.
fn add_cell(draft: &mut Draft, a: u32, row: u32) -> Result<(), NoMemory>
    ensures { IsValid draft.old → IsValid draft.new }
{
    if a.wrapping_add(1).checked_rem(row) == Some(0) {
        return Ok(());
    }
    let d = a.wrapping_add(row);
    let corners = [
        corner(a, 0, 0),
        corner(a.wrapping_add(1), 9, 0),
        corner(d.wrapping_add(1), 9, -9),
        corner(d, 0, -9),
    ];
    face(draft, &corners, 0, 0)?;
    Ok(())
}

// The cells whose first vertices have the numbers below a number.
fn add_cells(draft: &mut Draft, below: u32, row: u32) -> Result<(), NoMemory>
    ensures { IsValid draft.old → IsValid draft.new }
{
    for a in 0..below {
        add_cell(draft, a, row)?;
    }
    Ok(())
}

/// A grid of so many faces a side. Its points lie in a line.
pub(crate) fn grid(alloc: Global, side: u32) -> Result<Draft, NoMemory>
    ensures { IfOk result (λ d. IsValid d) }
{
    let row = side.saturating_add(1);
    let mut draft = row_of_verts(alloc, row.saturating_mul(row))?;
    add_cells(&mut draft, side.saturating_mul(row), row)?;
    Ok(draft)
}
