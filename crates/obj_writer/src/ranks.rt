//! The indices of the vertices.
ghost use Rattle.std.specs.Prelude.{IfOk};
ghost use Rattle.obj_writer.specs.Ranks.{AreIndices};

use mesh_model::{Elem, NoMemory, Shape, VertName};
use std::alloc::Global;

/// The index of each vertex by its name: its place among the live ones, from 1.
pub fn indices_of<S: Shape>(alloc: Global, shape: &S) -> Result<Vec<u32>, NoMemory>
    ensures { IfOk result (λ v. AreIndices (S.complex shape.now) v.items) }
{
    let mut indices = Vec::new(alloc);
    let mut before = 0;
    for n in 0..shape.counters().verts {
        indices.push(before + 1)?;
        if shape.has(Elem::Vert(VertName(n))) {
            before += 1;
        }
    }
    Ok(indices)
}
