//! Tests of what a draft's calls ask.

ghost use Rattle.std.specs.Prelude.{◌≡◌, ◌+◌, ◌<◌, ◌≤◌, ◌↔◌, ℤ, List, IsTrue, length};
ghost use Rattle.mesh_model.specs.Making.{edge_between, with_face_told};
ghost use Rattle.mesh_model.specs.Room.{has_room};
ghost use Rattle.mesh_model.specs.Valid.{is_on_grid, is_in_range, is_material};

use crate::draft::{Draft, DraftCorner};
use crate::limits::{MAX_CORNERS, MAX_EDGES, MAX_FACES, MAX_VALUE, MAX_VERTS};
use crate::names::VertName;
use crate::records::Point;

/// Whether a number is from -1,000,000,000 to 1,000,000,000, as each coordinate and value of a layer.
pub fn is_in_range(x: i64) -> bool
    ensures { result ≡ is_in_range x }
{
    -MAX_VALUE <= x && x <= MAX_VALUE
}

impl Point {
    /// Whether each coordinate is in range.
    pub fn is_on_grid(self) -> bool
        ensures { result ≡ is_on_grid self }
    {
        is_in_range(self.x) && (is_in_range(self.y) && is_in_range(self.z))
    }
}

impl Draft {
    /// Whether a vertex more fits.
    pub fn has_vert_room(&self) -> bool
        ensures { IsTrue result ↔ (length self.now.verts < MAX_VERTS) }
    {
        self.verts.len() < MAX_VERTS
    }

    /// Whether an edge more fits.
    pub fn has_edge_room(&self) -> bool
        ensures exact { IsTrue result ↔ (length self.now.edges < MAX_EDGES) }
        ensures edge { IsTrue result → (a b : VertName) → length (edge_between self.now a b).0.edges ≤ MAX_EDGES }
    {
        self.edges.len() < MAX_EDGES
    }

    /// Whether a number is that of a material, or 0.
    pub fn is_material(&self, number: i64) -> bool
        ensures { result ≡ is_material self.now number }
    {
        0 <= number && number as u64 <= self.materials.len() as u64
    }

    /// Whether a face of so many corners fits, whichever of its edges are there.
    pub fn has_room(&self, corners: usize) -> bool
        ensures same { result ≡ has_room self.now corners }
        ensures edges { IsTrue result → (ks : List DraftCorner) (material smooth : ℤ) → length ks ≤ corners
            → length (with_face_told self.now ks material smooth).edges ≤ MAX_EDGES }
    {
        let edges = self.edges.len() as usize;
        let all = self.faces.corners() as usize;
        if corners > MAX_EDGES as usize {
            return false;
        }
        if edges + corners > MAX_EDGES as usize {
            return false;
        }
        self.faces.len() < MAX_FACES && all + corners <= MAX_CORNERS as usize
    }
}
