//! The counts of a result that isn't made yet.
ghost use Rattle.std.specs.Prelude.{◌≡◌, IsTrue};
ghost use Rattle.std.specs.List.{All};
ghost use Rattle.mesh_model.specs.Table.{IsThere};
ghost use Rattle.mesh_model.specs.Complex.{counters_of};
ghost use Rattle.mesh_model.specs.Closure.{AreLive, closure};
ghost use Rattle.mesh_model.specs.Naming.{is_rising, face_numbers};
ghost use Rattle.mesh_model.specs.Valid.{IsValid};
ghost use Rattle.mesh_core.specs.Seen.{now};
ghost use Rattle.mesh_copies.specs.Copying.{with_copies};
ghost use Rattle.mesh_copies.specs.CopyingSteps.{corners_in};
ghost use Rattle.op_copies.specs.Duplicating.{split_off};

use mesh_core::{FaceName, Mesh, Shape};
use mesh_model::Counters;
use op_slots::Buffer;

/// The next names and the number of live corners with the copies of a live set, in time that grows with the faces of the
/// set.
pub(crate) fn counters_with_copies(mesh: &Mesh, set: &Buffer) -> Counters
    requires valid { IsValid (now mesh.now) }
    requires live { AreLive (now mesh.now) set.now }
    ensures { result ≡ counters_of (with_copies (now mesh.now) set.now) }
{
    let before = mesh.counters();
    Counters {
        verts: before.verts + set.verts().len() as u32,
        edges: before.edges + set.edges().len() as u32,
        faces: before.faces + set.faces().len() as u32,
        corners: before.corners + corners_in(mesh, set.faces()),
    }
}

/// The same where a live set that is its own closure is split off: there are as many live corners then as before. Constant time.
pub(crate) fn counters_split_off(mesh: &Mesh, set: &Buffer) -> Counters
    requires valid { IsValid (now mesh.now) }
    requires live { AreLive (now mesh.now) set.now }
    requires closed { closure (now mesh.now) set.now ≡ set.now }
    ensures { result ≡ counters_of (split_off (now mesh.now) set.now) }
{
    let before = mesh.counters();
    Counters {
        verts: before.verts + set.verts().len() as u32,
        edges: before.edges + set.edges().len() as u32,
        faces: before.faces + set.faces().len() as u32,
        corners: before.corners,
    }
}

// The number of corners of live faces.
fn corners_in(mesh: &Mesh, faces: &[FaceName]) -> u32
    requires valid { IsValid (now mesh.now) }
    requires live { All (λ f. IsThere (now mesh.now).faces f.0) faces.now }
    requires rising { IsTrue (is_rising (face_numbers faces.now)) }
    ensures { result ≡ corners_in (now mesh.now) faces.now }
{
    let mut count = 0;
    for f in faces {
        count += mesh.corner_count(*f);
    }
    count
}
