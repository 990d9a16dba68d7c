//! Operators by name.
ghost use Rattle.mesh_core.specs.Seen.{now};
ghost use Rattle.mesh_passes.specs.Answer.{IsReady, Meets};
ghost use Rattle.mesh_session.specs.Operators.{op_row};

use crate::on_elements::{
    delete_all, duplicate_all, mirror_all, reverse_all, scale_all, set_all, split_all,
    translate_all,
};
use crate::on_lists::{make_edge_on, make_face_on};
use crate::reply::unable;
use mesh_core::Mesh;
use op_basic::{MakeVertArgs, make_vert};
use op_slots::{Bindings, Fault, Op, Slots};
use std::alloc::Global;

// Runs an operator on a mesh between two commands, over what is bound.
pub fn operate(alloc: Global, mesh: &mut Mesh, bindings: &Bindings, op: &Op) -> Result<Slots, Fault>
    requires { IsReady mesh.old }
    ensures { Meets (op_row op.now bindings.now.bound (now mesh.old)) mesh.old mesh.new result }
{
    match op {
        Op::MakeVert { at } => make_vert(alloc, mesh, &MakeVertArgs { at: *at }),
        Op::MakeEdge { verts } => make_edge_on(alloc, mesh, verts),
        Op::MakeFace { verts } => make_face_on(alloc, mesh, verts),
        Op::Set {
            of,
            geom,
            layer,
            values,
        } => set_all(alloc, mesh, bindings, *of, geom, layer, values),
        Op::Translate { verts, by } => translate_all(alloc, mesh, bindings, verts, *by),
        Op::Scale {
            verts,
            about,
            num,
            den,
        } => scale_all(alloc, mesh, bindings, verts, *about, *num, *den),
        Op::Mirror { verts, axis, about } => {
            mirror_all(alloc, mesh, bindings, verts, *axis, *about)
        }
        Op::Reverse { faces } => reverse_all(alloc, mesh, bindings, faces),
        Op::Duplicate { geom } => duplicate_all(alloc, mesh, bindings, geom),
        Op::Split { geom } => split_all(alloc, mesh, bindings, geom),
        Op::Delete { geom, context } => delete_all(alloc, mesh, bindings, geom, *context),
        _ => Err(Fault::Refused(unable())),
    }
}
