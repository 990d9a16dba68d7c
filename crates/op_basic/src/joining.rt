//! make_edge.
ghost use Rattle.std.specs.Prelude.{◌≡◌, ◌==◌, ◌∷◌, [], length, None, IfOk, OnOk};
ghost use Rattle.std.specs.List.{All};
ghost use Rattle.mesh_model.specs.Elements.{no_elements};
ghost use Rattle.mesh_model.specs.Kernel.{with_edge_like};
ghost use Rattle.mesh_model.specs.Lookups.{next_edge};
ghost use Rattle.mesh_model.specs.Refusals.{unless_too_many};
ghost use Rattle.mesh_model.specs.Valid.{IsValid};
ghost use Rattle.mesh_model.specs.Table.{IsThere};
ghost use Rattle.mesh_core.specs.Seen.{now};
ghost use Rattle.mesh_passes.specs.Answer.{IsReady, Meets};
ghost use Rattle.op_basic.specs.Making.{with_edge_between, make_edge_refusal, make_edge_row};

use mesh_core::{EdgeName, Elem, Mesh, NoMemory, Shape, VertName};
use mesh_model::{Counters, Place, Refusal, Why};
use mesh_passes::{Operator, only, only_edges, run, unless_too_many};
use op_slots::{Buffer, Fault, Names, Slots};
use std::alloc::Global;

/// The arguments of `make_edge`.
#[derive(Debug, Drop)]
pub struct MakeEdgeArgs {
    /// The two ends.
    pub verts: Names,
}

/// Makes the edge from the first of two vertices to the second, with values 0. It is refused with `BadValue` where there
/// aren't two vertices, with `Repeated` where they are the same, with `Exists` at the edge that joins them, and with
/// `TooMany` where no edge can be named any more. It gives the edge back.
///
/// The mesh is between two commands, and the vertices are live. It takes time that grows with the edges around the
/// vertex that has fewer.
pub fn make_edge(alloc: Global, mesh: &mut Mesh, args: &MakeEdgeArgs) -> Result<Slots, Fault>
    requires ready { IsReady mesh.old }
    requires live { All (λ v. IsThere (now mesh.old).verts v.0) args.now.verts }
    ensures { Meets (make_edge_row args.now.verts (now mesh.old)) mesh.old mesh.new result }
{
    run(alloc, mesh, args)
}

impl Operator for MakeEdgeArgs {
    ghost use Rattle.std.specs.List.{All};
    ghost use Rattle.mesh_model.specs.Table.{IsThere};
    ghost use Rattle.op_basic.specs.Making.{make_edge_refusal, make_edge_result};

    ghost fits = { λ a c. All (λ v. IsThere c.verts v.0) a.verts };

    ghost refusal = { λ a c. make_edge_refusal a.verts c };

    ghost outcome = { λ a c. make_edge_result a.verts c };

    fn check(&self, _alloc: Global, mesh: &Mesh) -> Result<Option<Refusal>, NoMemory> {
        Ok(refused_on(mesh, self.verts.as_slice()))
    }

    fn change(&self, alloc: Global, mesh: &mut Mesh) -> Result<Slots, NoMemory> {
        let geom = join(alloc, mesh, self.verts.as_slice())?;
        Ok(only(alloc, geom))
    }
}

// Makes the edge and gives it.
fn join(alloc: Global, mesh: &mut Mesh, verts: &[VertName]) -> Result<Buffer, NoMemory>
    requires valid { IsValid (now mesh.old) }
    requires live { All (λ v. IsThere (now mesh.old).verts v.0) verts.now }
    requires may { make_edge_refusal verts.now (now mesh.old) ≡ None }
    ensures now { OnOk result (now mesh.new ≡ with_edge_between (now mesh.old) verts.now) }
    ensures new { IfOk result (λ x. x ≡ record no_elements { edges = next_edge (now mesh.old) ∷ [] }) }
    ensures base { mesh.new.base ≡ mesh.old.base }
{
    let next = EdgeName(mesh.counters().edges);
    let geom = only_edges(alloc, &[next])?;
    mesh.make_edge(verts[0], verts[1], None)?;
    Ok(geom)
}

// Why no edge is made between the vertices of a list.
fn refused_on(mesh: &Mesh, verts: &[VertName]) -> Option<Refusal>
    requires valid { IsValid (now mesh.now) }
    requires live { All (λ v. IsThere (now mesh.now).verts v.0) verts.now }
    ensures { result ≡ make_edge_refusal verts.now (now mesh.now) }
{
    if is_pair(verts) {
        refused_between(mesh, verts[0], verts[1])
    } else {
        Some(Refusal {
            why: Why::BadValue,
            place: Place::Nowhere,
        })
    }
}

// Whether there are two vertices.
fn is_pair(verts: &[VertName]) -> bool
    ensures { result ≡ (length verts.now == 2) }
{
    verts.len() == 2
}

// Why no edge is made between two live vertices of a valid complex.
fn refused_between(mesh: &Mesh, a: VertName, b: VertName) -> Option<Refusal>
    requires valid { IsValid (now mesh.now) }
    requires a { IsThere (now mesh.now).verts a.0 }
    requires b { IsThere (now mesh.now).verts b.0 }
    ensures { result ≡ make_edge_refusal (a ∷ b ∷ []) (now mesh.now) }
{
    if a.0 == b.0 {
        return Some(Refusal {
            why: Why::Repeated,
            place: Place::Elem(Elem::Vert(a)),
        });
    }
    match mesh.find_edge(a, b) {
        Some(e) => Some(Refusal {
            why: Why::Exists,
            place: Place::Elem(Elem::Edge(e)),
        }),
        None => unless_many_edges(mesh, a, b),
    }
}

// Refused where no edge can be named any more.
fn unless_many_edges(mesh: &Mesh, a: VertName, b: VertName) -> Option<Refusal>
    requires { IsValid (now mesh.now) }
    ensures { result ≡ unless_too_many (with_edge_like (now mesh.now) a b None) }
{
    let before = mesh.counters();
    let edges = before.edges + 1;
    unless_too_many(Counters {
        verts: before.verts,
        edges,
        faces: before.faces,
        corners: before.corners,
    })
}
