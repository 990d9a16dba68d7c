//! Whole shapes.
ghost use Rattle.std.specs.Prelude.{IfOk};
ghost use Rattle.mesh_model.specs.Valid.{IsValid, IsSimple, IsSound};

use crate::elements::{corner, edge, face, material, vert};
use mesh_model::{Draft, NoMemory};
use std::alloc::Global;

/// So many vertices in a row.
pub fn row_of_verts(alloc: Global, count: u32) -> Result<Draft, NoMemory>
    ensures { IfOk result (λ d. IsSound d) }
{
    let mut draft = Draft::new(alloc);
    for i in 0..count {
        vert(&mut draft, i as i64, 0, 0)?;
    }
    Ok(draft)
}

// The vertices of a square of side 4, but for the height of the third one.
fn add_verts(draft: &mut Draft, height: i64) -> Result<(), NoMemory>
    ensures valid { IsValid draft.old → IsValid draft.new }
    ensures simple { IsSimple draft.old → IsSimple draft.new }
{
    vert(draft, 0, 0, 0)?;
    vert(draft, 4, 0, 0)?;
    vert(draft, 4, 4, height)?;
    vert(draft, 0, 4, 0)?;
    Ok(())
}

// The face on them, of the second of two materials and the smoothing group 3, but for a place of its third corner
// in the texture.
fn add_square(draft: &mut Draft, u: i64) -> Result<(), NoMemory>
    ensures valid { IsValid draft.old → IsValid draft.new }
    ensures simple { IsSimple draft.old → IsSimple draft.new }
{
    material(draft, b"wood")?;
    material(draft, b"tin")?;
    let corners = [
        corner(0, 0, 0),
        corner(1, 5, 0),
        corner(2, u, 6),
        corner(3, 0, 6),
    ];
    face(draft, &corners, 2, 3)?;
    Ok(())
}

/// A square with the vertices 0 to 3, the edges 0 to 3 and the face 0: its third vertex lies at this height, and
/// its third corner at this place in the texture.
pub fn square(alloc: Global, height: i64, u: i64) -> Result<Draft, NoMemory>
    ensures { IfOk result (λ d. IsSound d) }
{
    let mut draft = Draft::new(alloc);
    add_verts(&mut draft, height)?;
    add_square(&mut draft, u)?;
    Ok(draft)
}

/// The same with a vertex 4, which the edge 4 joins with vertex 1.
pub fn grown_square(alloc: Global, height: i64, u: i64) -> Result<Draft, NoMemory>
    ensures { IfOk result (λ d. IsSound d) }
{
    let mut draft = square(alloc, height, u)?;
    vert(&mut draft, 9, 9, 9)?;
    edge(&mut draft, 1, 4)?;
    Ok(draft)
}
