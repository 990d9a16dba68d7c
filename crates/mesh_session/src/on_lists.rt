//! Operators over lists of vertices. What is refused of the list comes first.
ghost use Rattle.op_basic.specs.Making.{make_edge_row, make_face_row};
ghost use Rattle.op_slots.specs.Values.{list_refusal, unless_refused};
ghost use Rattle.mesh_core.specs.Seen.{now};
ghost use Rattle.mesh_passes.specs.Answer.{IsReady, Meets};

use mesh_core::Mesh;
use op_basic::{MakeEdgeArgs, MakeFaceArgs, make_edge, make_face};
use op_slots::{Fault, Names, Slots, list_refusal};
use std::alloc::Global;

// Makes the edge between the two vertices of a list.
pub fn make_edge_on(alloc: Global, mesh: &mut Mesh, verts: &Names) -> Result<Slots, Fault>
    requires { IsReady mesh.old }
    ensures { Meets (unless_refused (list_refusal (now mesh.old) verts.now) (make_edge_row verts.now (now mesh.old)))
        mesh.old mesh.new result }
{
    match list_refusal(verts.as_slice(), mesh) {
        Some(refusal) => Err(Fault::Refused(refusal)),
        None => {
            let verts = verts.copy()?;
            make_edge(alloc, mesh, &MakeEdgeArgs { verts })
        }
    }
}

// Makes the face of a list.
pub fn make_face_on(alloc: Global, mesh: &mut Mesh, verts: &Names) -> Result<Slots, Fault>
    requires { IsReady mesh.old }
    ensures { Meets (unless_refused (list_refusal (now mesh.old) verts.now) (make_face_row verts.now (now mesh.old)))
        mesh.old mesh.new result }
{
    match list_refusal(verts.as_slice(), mesh) {
        Some(refusal) => Err(Fault::Refused(refusal)),
        None => {
            let verts = verts.copy()?;
            make_face(alloc, mesh, &MakeFaceArgs { verts })
        }
    }
}
