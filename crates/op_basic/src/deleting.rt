//! delete.
ghost use Rattle.std.specs.Prelude.{◌≡◌, OnOk};
ghost use Rattle.mesh_model.specs.Closure.{AreLive, closure};
ghost use Rattle.mesh_model.specs.Valid.{IsValid};
ghost use Rattle.mesh_core.specs.Seen.{now};
ghost use Rattle.mesh_passes.specs.Answer.{IsReady, Meets};
ghost use Rattle.mesh_passes.specs.Killing.{without_edges, without_bare, without_set};
ghost use Rattle.op_basic.specs.Deleting.{delete_row, remaining, without_boundary};

use crate::boundary::inner_edges;
use mesh_core::{Mesh, NoMemory, Shape};
use mesh_model::Refusal;
use mesh_passes::{
    Operator, closure, kill_bare, kill_edges, kill_faces, kill_parts, kill_set, kill_verts,
    no_slots, run,
};
use op_slots::{Buffer, Context, Fault, Slots};
use std::alloc::Global;

/// The arguments of `delete`.
#[derive(Debug, Drop)]
pub struct DeleteArgs {
    /// The elements that are named, of the kind that the context takes: vertices, edges or faces.
    pub geom: Buffer,
    /// What goes beside them.
    pub context: Context,
}

/// Takes elements away, and what the context says beside them. It is never refused, and gives no slots.
///
/// The mesh is between two commands, and what is named is live. It takes time that grows with what is named, with the
/// edges and the corners of what goes, and with the logarithm of their number; never a pass over the mesh.
pub fn delete(alloc: Global, mesh: &mut Mesh, args: &DeleteArgs) -> Result<Slots, Fault>
    requires ready { IsReady mesh.old }
    requires live { AreLive (now mesh.old) args.now.geom }
    ensures { Meets (delete_row args.now.context args.now.geom (now mesh.old)) mesh.old mesh.new result }
{
    run(alloc, mesh, args)
}

impl Operator for DeleteArgs {
    ghost use Rattle.mesh_model.specs.Closure.{AreLive};
    ghost use Rattle.op_basic.specs.Deleting.{delete_refusal, delete_result};

    ghost fits = { λ a c. AreLive c a.geom };

    ghost refusal = { λ a c. delete_refusal a.context a.geom c };

    ghost outcome = { λ a c. delete_result a.context a.geom c };

    fn check(&self, _alloc: Global, _mesh: &Mesh) -> Result<Option<Refusal>, NoMemory> {
        Ok(None)
    }

    fn change(&self, alloc: Global, mesh: &mut Mesh) -> Result<Slots, NoMemory> {
        kill_by(alloc, mesh, self.context, &self.geom)?;
        Ok(no_slots(alloc))
    }
}

// Takes away what a context says.
fn kill_by(alloc: Global, mesh: &mut Mesh, context: Context, geom: &Buffer) -> Result<(), NoMemory>
    requires valid { IsValid (now mesh.old) }
    requires live { AreLive (now mesh.old) geom.now }
    ensures now { OnOk result (now mesh.new ≡ remaining context geom.now (now mesh.old)) }
    ensures base { mesh.new.base ≡ mesh.old.base }
{
    match context {
        Context::Verts => kill_verts(mesh, geom.verts()),
        Context::Edges => kill_edges_and_ends(alloc, mesh, geom),
        Context::EdgesFaces => kill_edges(mesh, geom.edges()),
        Context::FacesOnly => kill_faces(mesh, geom.faces()),
        Context::Faces => kill_closure(alloc, mesh, geom),
        Context::FacesKeepBoundary => kill_inside(alloc, mesh, geom),
    }
}

// Takes edges away, the faces along them, and their ends that are bare then.
fn kill_edges_and_ends(alloc: Global, mesh: &mut Mesh, geom: &Buffer) -> Result<(), NoMemory>
    requires valid { IsValid (now mesh.old) }
    requires live { AreLive (now mesh.old) geom.now }
    ensures now { OnOk result (now mesh.new ≡ without_bare (without_edges (now mesh.old) geom.now.edges)
        (closure (now mesh.old) geom.now).verts) }
    ensures base { mesh.new.base ≡ mesh.old.base }
{
    let set = closure(alloc, mesh, geom)?;
    kill_edges(mesh, geom.edges())?;
    kill_bare(mesh, set.verts())?;
    Ok(())
}

// Takes faces away, their edges along which no face is left, and their vertices at which no edge is left.
fn kill_closure(alloc: Global, mesh: &mut Mesh, geom: &Buffer) -> Result<(), NoMemory>
    requires valid { IsValid (now mesh.old) }
    requires live { AreLive (now mesh.old) geom.now }
    ensures now { OnOk result (now mesh.new ≡ without_set (now mesh.old) (closure (now mesh.old) geom.now)) }
    ensures base { mesh.new.base ≡ mesh.old.base }
{
    let set = closure(alloc, mesh, geom)?;
    kill_set(mesh, &set)?;
    Ok(())
}

// The same, but edges that have one corner stay.
fn kill_inside(alloc: Global, mesh: &mut Mesh, geom: &Buffer) -> Result<(), NoMemory>
    requires valid { IsValid (now mesh.old) }
    requires live { AreLive (now mesh.old) geom.now }
    ensures now { OnOk result (now mesh.new
        ≡ without_set (now mesh.old) (without_boundary (now mesh.old) (closure (now mesh.old) geom.now))) }
    ensures base { mesh.new.base ≡ mesh.old.base }
{
    let set = closure(alloc, mesh, geom)?;
    let edges = inner_edges(alloc, mesh, set.edges())?;
    kill_parts(mesh, set.verts(), &edges, set.faces())?;
    Ok(())
}
