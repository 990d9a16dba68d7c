//! Elements taken away, one after another, as one change.
ghost use Rattle.std.specs.Prelude.{◌≡◌, true, IsTrue, OnOk};
ghost use Rattle.std.specs.List.{All};
ghost use Rattle.mesh_model.specs.Table.{IsThere};
ghost use Rattle.mesh_model.specs.Naming.{is_rising, are_rising, vert_numbers, edge_numbers, face_numbers};
ghost use Rattle.mesh_model.specs.Closure.{AreLive};
ghost use Rattle.mesh_model.specs.Incidence.{is_bare};
ghost use Rattle.mesh_model.specs.Kernel.{can_lose_vert};
ghost use Rattle.mesh_model.specs.Deleting.{without_verts};
ghost use Rattle.mesh_model.specs.Valid.{IsValid};
ghost use Rattle.mesh_core.specs.Seen.{now};
ghost use Rattle.mesh_passes.specs.Closed.{AreClosed};
ghost use Rattle.mesh_passes.specs.Killing.{without_faces, without_edges, without_loose, without_bare, without_set};
ghost use Rattle.mesh_passes.specs.KillingSteps.{without_if_loose, without_if_bare};

use crate::bare::is_bare;
use mesh_core::{EdgeName, FaceName, Mesh, NoMemory, Shape, VertName};
use op_slots::Buffer;

/// Takes live faces away, in time that grows with their corners. After `NoMemory` some of them may be gone.
#[tactic(auto, using(crate::proofs::Killings::faces_none, crate::proofs::Killings::faces_more, crate::proofs::Killings::faces_live))]
pub fn kill_faces(mesh: &mut Mesh, faces: &[FaceName]) -> Result<(), NoMemory>
    requires live { All (λ f. IsThere (now mesh.old).faces f.0) faces.now }
    requires rising { IsTrue (is_rising (face_numbers faces.now)) }
    ensures now { OnOk result (now mesh.new ≡ without_faces (now mesh.old) faces.now) }
    ensures base { mesh.new.base ≡ mesh.old.base }
{
    for f in faces {
        mesh.kill_face(*f)?;
    }
    Ok(())
}

/// Takes live edges away and the faces along them, in time that grows with the corners of these. After `NoMemory` some
/// of them may be gone.
#[tactic(auto, using(crate::proofs::Killings::edges_none, crate::proofs::Killings::edges_more, crate::proofs::Killings::edges_live))]
pub fn kill_edges(mesh: &mut Mesh, edges: &[EdgeName]) -> Result<(), NoMemory>
    requires live { All (λ e. IsThere (now mesh.old).edges e.0) edges.now }
    requires rising { IsTrue (is_rising (edge_numbers edges.now)) }
    ensures now { OnOk result (now mesh.new ≡ without_edges (now mesh.old) edges.now) }
    ensures base { mesh.new.base ≡ mesh.old.base }
{
    for e in edges {
        mesh.kill_edge(*e)?;
    }
    Ok(())
}

/// Takes those of some live edges away along which no face has a corner, in constant time each. After `NoMemory` some
/// of them may be gone.
#[tactic(auto, using(crate::proofs::Killings::loose_none, crate::proofs::Killings::loose_more, crate::proofs::Killings::loose_live))]
pub fn kill_loose(mesh: &mut Mesh, edges: &[EdgeName]) -> Result<(), NoMemory>
    requires live { All (λ e. IsThere (now mesh.old).edges e.0) edges.now }
    requires rising { IsTrue (is_rising (edge_numbers edges.now)) }
    ensures now { OnOk result (now mesh.new ≡ without_loose (now mesh.old) edges.now) }
    ensures base { mesh.new.base ≡ mesh.old.base }
{
    for e in edges {
        kill_if_loose(mesh, *e)?;
    }
    Ok(())
}

/// Takes those of some live vertices away at which no edge ends, in constant time each. No face may have a corner at such
/// a vertex, which is so where faces close. After `NoMemory` some of them may be gone.
#[tactic(auto, using(crate::proofs::Killings::bare_none, crate::proofs::Killings::bare_more, crate::proofs::Killings::bare_live))]
pub fn kill_bare(mesh: &mut Mesh, verts: &[VertName]) -> Result<(), NoMemory>
    requires live { All (λ v. IsThere (now mesh.old).verts v.0) verts.now }
    requires rising { IsTrue (is_rising (vert_numbers verts.now)) }
    requires spare { All (λ v. can_lose_vert (now mesh.old) v ≡ true) verts.now }
    ensures now { OnOk result (now mesh.new ≡ without_bare (now mesh.old) verts.now) }
    ensures base { mesh.new.base ≡ mesh.old.base }
{
    for v in verts {
        kill_if_bare(mesh, *v)?;
    }
    Ok(())
}

/// Takes live vertices of a valid complex away, their edges and the faces with them, in time that grows with the corners
/// of these. After `NoMemory` some of them may be gone.
pub fn kill_verts(mesh: &mut Mesh, verts: &[VertName]) -> Result<(), NoMemory>
    requires valid { IsValid (now mesh.old) }
    requires live { All (λ v. IsThere (now mesh.old).verts v.0) verts.now }
    requires rising { IsTrue (is_rising (vert_numbers verts.now)) }
    ensures now { OnOk result (now mesh.new ≡ without_verts (now mesh.old) verts.now) }
    ensures base { mesh.new.base ≡ mesh.old.base }
{
    for v in verts {
        mesh.kill_vert(*v)?;
    }
    Ok(())
}

/// Takes live faces away, then those of some live edges along which no face is left, then those of some live vertices
/// at which no edge is left, in time that grows with them and with the corners of the faces. After `NoMemory` some of
/// them may be gone.
pub fn kill_parts(
    mesh: &mut Mesh,
    verts: &[VertName],
    edges: &[EdgeName],
    faces: &[FaceName],
) -> Result<(), NoMemory>
    requires closed { AreClosed (now mesh.old) }
    requires live { AreLive (now mesh.old) (record { verts = verts.now; edges = edges.now; faces = faces.now }) }
    requires rising { IsTrue (are_rising (record { verts = verts.now; edges = edges.now; faces = faces.now })) }
    ensures now { OnOk result (now mesh.new
        ≡ without_set (now mesh.old) (record { verts = verts.now; edges = edges.now; faces = faces.now })) }
    ensures base { mesh.new.base ≡ mesh.old.base }
{
    let _ = mesh.counters();
    kill_faces(mesh, faces)?;
    kill_loose(mesh, edges)?;
    kill_bare(mesh, verts)?;
    Ok(())
}

/// Takes the live faces of a set away, then those of its edges along which no face is left, then those of its vertices
/// at which no edge is left, in time that grows with the set and the corners of the faces. After `NoMemory` some of them
/// may be gone.
pub fn kill_set(mesh: &mut Mesh, set: &Buffer) -> Result<(), NoMemory>
    requires closed { AreClosed (now mesh.old) }
    requires live { AreLive (now mesh.old) set.now }
    ensures now { OnOk result (now mesh.new ≡ without_set (now mesh.old) set.now) }
    ensures base { mesh.new.base ≡ mesh.old.base }
{
    kill_parts(mesh, set.verts(), set.edges(), set.faces())?;
    Ok(())
}

// Takes a live edge away, if no face has a corner along it.
#[tactic(auto, unfolding(crate::specs::KillingSteps::without_if_loose))]
fn kill_if_loose(mesh: &mut Mesh, e: EdgeName) -> Result<(), NoMemory>
    requires { IsThere (now mesh.old).edges e.0 }
    ensures now { OnOk result (now mesh.new ≡ without_if_loose (now mesh.old) e) }
    ensures base { mesh.new.base ≡ mesh.old.base }
{
    if mesh.is_loose(e) {
        mesh.kill_edge(e)
    } else {
        Ok(())
    }
}

// Takes a live vertex away, if no edge ends there.
#[tactic(auto, unfolding(crate::specs::KillingSteps::without_if_bare))]
fn kill_if_bare(mesh: &mut Mesh, v: VertName) -> Result<(), NoMemory>
    requires there { IsThere (now mesh.old).verts v.0 }
    requires spare { is_bare (now mesh.old) v ≡ true → can_lose_vert (now mesh.old) v ≡ true }
    ensures now { OnOk result (now mesh.new ≡ without_if_bare (now mesh.old) v) }
    ensures base { mesh.new.base ≡ mesh.old.base }
{
    if is_bare(mesh, v) {
        mesh.kill_vert(v)
    } else {
        Ok(())
    }
}
