//! Elements of a draft, each made where what its call asks holds.
ghost use Rattle.std.specs.Prelude.{◌≡◌, is_some};
ghost use Rattle.mesh_model.specs.Table.{at};
ghost use Rattle.mesh_model.specs.Valid.{IsValid, IsSimple};

use crate::faces::{are_corners, are_values, has_room};
use mesh_model::{Draft, DraftCorner, EdgeName, Elem, FaceName, NoMemory, Point, Shape, VertName};

/// A vertex more, where one fits and the point is on the grid.
pub fn vert(draft: &mut Draft, x: i64, y: i64, z: i64) -> Result<Option<VertName>, NoMemory>
    ensures valid { IsValid draft.old → IsValid draft.new }
    ensures simple { IsSimple draft.old → IsSimple draft.new }
{
    let point = Point { x, y, z };
    if !draft.has_vert_room() {
        return Ok(None);
    }
    if !point.is_on_grid() {
        return Ok(None);
    }
    let name = draft.add_vert(point)?;
    Ok(Some(name))
}

/// The edge between two vertices, where they are there and differ, and an edge more fits.
pub fn edge(draft: &mut Draft, a: u32, b: u32) -> Result<Option<EdgeName>, NoMemory>
    ensures valid { IsValid draft.old → IsValid draft.new }
    ensures simple { IsSimple draft.old → IsSimple draft.new }
{
    if !is_there(draft, VertName(a)) {
        return Ok(None);
    }
    if !is_there(draft, VertName(b)) {
        return Ok(None);
    }
    if a == b {
        return Ok(None);
    }
    if !draft.has_edge_room() {
        return Ok(None);
    }
    let name = draft.edge_between(VertName(a), VertName(b))?;
    Ok(Some(name))
}

/// The number of a material.
pub fn material(draft: &mut Draft, name: &[u8]) -> Result<i64, NoMemory>
    ensures valid { IsValid draft.old → IsValid draft.new }
    ensures simple { IsSimple draft.old → IsSimple draft.new }
{
    draft.material_number(name)
}

/// A face more, where it may stand.
pub fn face(
    draft: &mut Draft,
    corners: &[DraftCorner],
    material: i64,
    smooth: i64,
) -> Result<Option<FaceName>, NoMemory>
    ensures valid { IsValid draft.old → IsValid draft.new }
    ensures simple { IsSimple draft.old → IsSimple draft.new }
{
    if !has_room(draft, corners) {
        return Ok(None);
    }
    if !are_corners(draft, corners) {
        return Ok(None);
    }
    if !are_values(draft, material, smooth) {
        return Ok(None);
    }
    let name = draft.add_face(corners, material, smooth)?;
    Ok(Some(name))
}

/// A corner.
pub fn corner(vert: u32, u: i64, v: i64) -> DraftCorner {
    DraftCorner {
        vert: VertName(vert),
        uv: [u, v],
    }
}

/// A vertex is there.
pub fn is_there(draft: &Draft, v: VertName) -> bool
    ensures { result ≡ is_some (at draft.now.verts v.0) }
{
    draft.has(Elem::Vert(v))
}
