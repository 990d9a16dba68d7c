//! The lines of the edges that no face has.
ghost use Rattle.std.specs.Prelude.{◌≡◌, ◌++◌, OnOk};
ghost use Rattle.mesh_model.specs.Complex.{Complex};
ghost use Rattle.mesh_model.specs.Table.{at};
ghost use Rattle.mesh_model.specs.Valid.{IsLinked};
ghost use Rattle.obj_writer.specs.Written.{loose_line, loose_entry, loose_lines};
ghost use Rattle.obj_writer.specs.Ranks.{AreIndices};

use crate::numbers::push_decimal;
use mesh_model::{EdgeName, Elem, NoMemory, Shape};

/// Appends a line `l A B` for each edge that no face has, by rising name.
pub fn push_loose<S: Shape>(shape: &S, indices: &[u32], out: &mut Vec<u8>) -> Result<(), NoMemory>
    requires linked { IsLinked (S.complex shape.now) }
    requires indices { AreIndices (S.complex shape.now) indices.now }
    ensures { OnOk result (out.new.items ≡ out.old.items ++ loose_lines (S.complex shape.now)) }
{
    for n in 0..shape.counters().edges {
        push_entry(shape, indices, EdgeName(n), out)?;
    }
    Ok(())
}

// Appends the line of an edge's name, or nothing.
fn push_entry<S: Shape>(
    shape: &S,
    indices: &[u32],
    e: EdgeName,
    out: &mut Vec<u8>,
) -> Result<(), NoMemory>
    requires linked { IsLinked (S.complex shape.now) }
    requires indices { AreIndices (S.complex shape.now) indices.now }
    ensures { OnOk result (out.new.items
        ≡ out.old.items ++ loose_entry (S.complex shape.now) (e.0, at (S.complex shape.now).edges e.0)) }
{
    if !shape.has(Elem::Edge(e)) || !shape.is_loose(e) {
        return Ok(());
    }
    let [a, b] = shape.ends(e);
    push_line(out, indices[a.0 as usize], indices[b.0 as usize])
}

fn push_line(out: &mut Vec<u8>, a: u32, b: u32) -> Result<(), NoMemory>
    ensures { OnOk result (out.new.items ≡ out.old.items ++ loose_line a b) }
{
    out.extend_from_slice(b"l ")?;
    push_decimal(out, a as u64)?;
    out.push(b' ')?;
    push_decimal(out, b as u64)?;
    out.push(b'\n')?;
    Ok(())
}
