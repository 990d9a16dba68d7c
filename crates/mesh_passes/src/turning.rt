//! Faces turned over, as one change.
ghost use Rattle.std.specs.Prelude.{◌≡◌, IsTrue, OnOk};
ghost use Rattle.std.specs.List.{All};
ghost use Rattle.mesh_model.specs.Table.{IsThere};
ghost use Rattle.mesh_model.specs.Naming.{is_rising, face_numbers};
ghost use Rattle.mesh_core.specs.Seen.{now};
ghost use Rattle.mesh_passes.specs.Turning.{turned_over};

use mesh_core::{FaceName, Mesh, NoMemory};

/// Turns live faces over, in time that grows with their corners. After `NoMemory` some of them may be turned over.
#[tactic(auto, using(crate::proofs::Turnings::turned_none, crate::proofs::Turnings::turned_more, crate::proofs::Turnings::turned_live))]
pub fn turn_faces(mesh: &mut Mesh, faces: &[FaceName]) -> Result<(), NoMemory>
    requires live { All (λ f. IsThere (now mesh.old).faces f.0) faces.now }
    requires rising { IsTrue (is_rising (face_numbers faces.now)) }
    ensures now { OnOk result (now mesh.new ≡ turned_over (now mesh.old) faces.now) }
    ensures base { mesh.new.base ≡ mesh.old.base }
{
    for f in faces {
        mesh.reverse_face(*f)?;
    }
    Ok(())
}
