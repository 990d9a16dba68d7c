//! The lines of the vertices.
ghost use Rattle.std.specs.Prelude.{◌≡◌, ◌≤◌, ◌++◌, OnOk};
ghost use Rattle.mesh_model.specs.Complex.{Complex};
ghost use Rattle.mesh_model.specs.Table.{at};
ghost use Rattle.obj_writer.specs.Written.{vert_line, vert_entry, vert_lines};

use crate::numbers::push_grid_number;
use mesh_model::{Elem, NoMemory, Point, Shape, VertName};

/// Appends a line `v X Y Z` for each vertex, by rising name.
pub fn push_verts<S: Shape>(shape: &S, scale: u8, out: &mut Vec<u8>) -> Result<(), NoMemory>
    requires { scale ≤ 6 }
    ensures { OnOk result (out.new.items ≡ out.old.items ++ vert_lines scale (S.complex shape.now)) }
{
    for n in 0..shape.counters().verts {
        push_entry(shape, scale, VertName(n), out)?;
    }
    Ok(())
}

// Appends the line of a vertex's name, or nothing.
fn push_entry<S: Shape>(
    shape: &S,
    scale: u8,
    v: VertName,
    out: &mut Vec<u8>,
) -> Result<(), NoMemory>
    requires { scale ≤ 6 }
    ensures { OnOk result (out.new.items
        ≡ out.old.items ++ vert_entry scale (at (S.complex shape.now).verts v.0)) }
{
    if !shape.has(Elem::Vert(v)) {
        return Ok(());
    }
    push_vert(out, scale, shape.point(v))
}

fn push_vert(out: &mut Vec<u8>, scale: u8, p: Point) -> Result<(), NoMemory>
    requires { scale ≤ 6 }
    ensures { OnOk result (out.new.items ≡ out.old.items ++ vert_line scale p) }
{
    out.extend_from_slice(b"v ")?;
    push_grid_number(out, scale, p.x)?;
    out.push(b' ')?;
    push_grid_number(out, scale, p.y)?;
    out.push(b' ')?;
    push_grid_number(out, scale, p.z)?;
    out.push(b'\n')?;
    Ok(())
}
