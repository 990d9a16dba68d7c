//! Elements of a draft, each made where what its call asks holds.
ghost use Rattle.mesh_model.specs.Valid.{IsValid};

use crate::confirm::confirm;
use mesh_model::{Draft, DraftCorner, EdgeName, FaceName, NoMemory, Point, VertName};
use sample_drafts::{are_corners, are_values, corner, has_room, is_there};
use std::process::Abort;

/// A vertex more, in the plane z = 0.
pub(crate) fn vert(rt: &impl Abort, draft: &mut Draft, x: i64, y: i64) -> Result<VertName, NoMemory>
    ensures { IsValid draft.old → IsValid draft.new }
{
    let point = Point { x, y, z: 0 };
    confirm(rt, "room for a vertex", draft.has_vert_room());
    confirm(rt, "a point of the grid", point.is_on_grid());
    draft.add_vert(point)
}

/// The edge between two vertices.
pub(crate) fn edge(rt: &impl Abort, draft: &mut Draft, a: u32, b: u32) -> Result<EdgeName, NoMemory>
    ensures { IsValid draft.old → IsValid draft.new }
{
    confirm(rt, "a first vertex", is_there(draft, VertName(a)));
    confirm(rt, "a second vertex", is_there(draft, VertName(b)));
    confirm(rt, "two vertices", a != b);
    confirm(rt, "room for an edge", draft.has_edge_room());
    draft.edge_between(VertName(a), VertName(b))
}

/// A face more.
pub(crate) fn face(
    rt: &impl Abort,
    draft: &mut Draft,
    corners: &[DraftCorner],
    material: i64,
    smooth: i64,
) -> Result<FaceName, NoMemory>
    ensures { IsValid draft.old → IsValid draft.new }
{
    confirm(rt, "room for a face", has_room(draft, corners));
    confirm(rt, "corners of a face", are_corners(draft, corners));
    confirm(rt, "values", are_values(draft, material, smooth));
    draft.add_face(corners, material, smooth)
}

/// A face more with four corners, which lie in the texture at (0, 0), (9, 0), (9, -9) and (0, -9).
pub(crate) fn quad(
    rt: &impl Abort,
    draft: &mut Draft,
    verts: [u32; 4],
    material: i64,
    smooth: i64,
) -> Result<FaceName, NoMemory>
    ensures { IsValid draft.old → IsValid draft.new }
{
    let corners = [
        corner(verts[0], 0, 0),
        corner(verts[1], 9, 0),
        corner(verts[2], 9, -9),
        corner(verts[3], 0, -9),
    ];
    face(rt, draft, &corners, material, smooth)
}
