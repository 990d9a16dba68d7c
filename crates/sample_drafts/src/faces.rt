//! Whether a face may stand in a draft.
ghost use Rattle.std.specs.Prelude.{◌≡◌, ◌==◌, ◌<◌, ◌≤◌, ◌+◌, ℤ, IsTrue, length, map, is_some};
ghost use Rattle.std.specs.List.{All, list_all, list_any};
ghost use Rattle.mesh_model.specs.Table.{at, IsThere};
ghost use Rattle.mesh_model.specs.Complex.{corner_sum};
ghost use Rattle.mesh_model.specs.Making.{with_face_told};
ghost use Rattle.mesh_model.specs.Valid.{are_distinct, is_in_range, is_material, is_smooth};

use crate::elements::is_there;
use mesh_model::limits::{MAX_CORNERS, MAX_EDGES, MAX_FACES, MAX_SIDES, MIN_SIDES};
use mesh_model::{Draft, DraftCorner, VertName, is_in_range};

/// A face of so many corners fits.
pub fn has_room(draft: &Draft, corners: &[DraftCorner]) -> bool
    ensures faces { IsTrue result → length draft.now.faces < MAX_FACES }
    ensures edges { IsTrue result → (material smooth : ℤ) →
        length (with_face_told draft.now corners.now material smooth).edges ≤ MAX_EDGES }
    ensures corners { IsTrue result → corner_sum draft.now.faces + length corners.now ≤ MAX_CORNERS }
    ensures least { IsTrue result → MIN_SIDES ≤ length corners.now }
    ensures most { IsTrue result → length corners.now ≤ MAX_SIDES }
{
    let sides = corners.len();
    if sides < MIN_SIDES as usize {
        return false;
    }
    if sides > MAX_SIDES as usize {
        return false;
    }
    draft.has_room(sides)
}

/// Corners are at distinct vertices that are there, and in range in the texture.
pub fn are_corners(draft: &Draft, corners: &[DraftCorner]) -> bool
    ensures distinct { IsTrue result → IsTrue (are_distinct (map (λ k. k.vert) corners.now)) }
    ensures there { IsTrue result → All (λ k. IsThere draft.now.verts k.vert.0) corners.now }
    ensures uv { IsTrue result → All (λ k. IsTrue (list_all is_in_range k.uv)) corners.now }
{
    if !are_apart(corners) {
        return false;
    }
    if !have_verts(draft, corners) {
        return false;
    }
    are_in_range(corners)
}

// Corners are at distinct vertices. Each two are compared, since faces of tests are small.
fn are_apart(corners: &[DraftCorner]) -> bool
    ensures { IsTrue result → IsTrue (are_distinct (map (λ k. k.vert) corners.now)) }
{
    let mut rest = corners;
    while let Some((first, behind)) = rest.split_first() {
        if stands_in(behind, first.vert) {
            return false;
        }
        rest = behind;
    }
    true
}

// A corner has a vertex.
fn stands_in(corners: &[DraftCorner], v: VertName) -> bool
    ensures { result ≡ list_any (λ k. k.vert.0 == v.0) corners.now }
{
    corners.iter().any(|k| k.vert.0 == v.0)
}

// The vertices of corners are there.
fn have_verts(draft: &Draft, corners: &[DraftCorner]) -> bool
    ensures { result ≡ list_all (λ k. is_some (at draft.now.verts k.vert.0)) corners.now }
{
    corners.iter().all(|k| is_there(draft, k.vert))
}

// The places of corners in the texture are in range.
fn are_in_range(corners: &[DraftCorner]) -> bool
    ensures { result ≡ list_all (λ k. list_all is_in_range k.uv) corners.now }
{
    corners.iter().all(|k| is_place(&k.uv))
}

// Both numbers of a place in the texture are in range.
fn is_place(uv: &[i64]) -> bool
    ensures { result ≡ list_all is_in_range uv.now }
{
    uv.iter().all(|x| is_in_range(*x))
}

/// A face can have a material and a smoothing group.
pub fn are_values(draft: &Draft, material: i64, smooth: i64) -> bool
    ensures material { IsTrue result → IsTrue (is_material draft.now material) }
    ensures material_in_range { IsTrue result → IsTrue (is_in_range material) }
    ensures smooth { IsTrue result → IsTrue (is_smooth smooth) }
    ensures smooth_in_range { IsTrue result → IsTrue (is_in_range smooth) }
{
    draft.is_material(material) && (is_in_range(material) && (0 <= smooth && is_in_range(smooth)))
}
