//! Elements are made and killed. Where what a call asks doesn't hold, the answer is as for want of memory.
ghost use Rattle.std.specs.Prelude.{◌≡◌, ◌≤◌, ◌+◌, ◌^◌, IsTrue, OnOk};
ghost use Rattle.std.specs.List.{All};
ghost use Rattle.mesh_model.specs.Table.{IsThere};
ghost use Rattle.mesh_model.specs.Complex.{corner_sum};
ghost use Rattle.mesh_model.specs.Kernel.{with_vert_like, with_edge_like, with_face_like, without_edge};
ghost use Rattle.mesh_core.specs.Seen.{now};

use crate::steps::{Make, Side};
use mesh_core::Mesh;
use mesh_model::limits::{MAX_EDGES, MAX_FACES, MAX_VERTS};
use mesh_model::{EdgeName, Elem, FaceName, NoMemory, Point, Shape, VertName};

/// The most corners of a mesh.
const MOST_CORNERS: usize = 1 << 24;

/// Makes an element. The answer is whether it got its name.
pub(crate) fn make(mesh: &mut Mesh, what: &Make) -> Result<bool, NoMemory> {
    match *what {
        Make::Vert(name, p) => Ok(make_vert(mesh, p, None)? == name),
        Make::Edge(name, ends) => Ok(make_edge(mesh, ends[0], ends[1], None)? == name),
        Make::Face(name, sides) => Ok(make_face(mesh, sides, None)? == name),
        Make::VertLike(name, p, v) => Ok(make_vert(mesh, p, Some(v))? == name),
        Make::EdgeLike(name, ends, e) => Ok(make_edge(mesh, ends[0], ends[1], Some(e))? == name),
        Make::FaceLike(name, sides, f) => Ok(make_face(mesh, sides, Some(f))? == name),
    }
}

/// A vertex, with the values of an example or zeros.
pub(crate) fn make_vert(
    mesh: &mut Mesh,
    p: Point,
    like: Option<VertName>,
) -> Result<VertName, NoMemory>
    ensures now { OnOk result (now mesh.new ≡ with_vert_like (now mesh.old) p like) }
    ensures base { mesh.new.base ≡ mesh.old.base }
{
    if mesh.counters().verts >= MAX_VERTS {
        return Err(NoMemory);
    }
    if let Some(v) = like
        && !mesh.has(Elem::Vert(v))
    {
        return Err(NoMemory);
    }
    mesh.make_vert(p, like)
}

/// An edge, with the values of an example or zeros.
pub(crate) fn make_edge(
    mesh: &mut Mesh,
    a: VertName,
    b: VertName,
    like: Option<EdgeName>,
) -> Result<EdgeName, NoMemory>
    ensures now { OnOk result (now mesh.new ≡ with_edge_like (now mesh.old) a b like) }
    ensures base { mesh.new.base ≡ mesh.old.base }
{
    if mesh.counters().edges >= MAX_EDGES || a == b {
        return Err(NoMemory);
    }
    if !mesh.has(Elem::Vert(a)) || !mesh.has(Elem::Vert(b)) {
        return Err(NoMemory);
    }
    if let Some(e) = like
        && !mesh.has(Elem::Edge(e))
    {
        return Err(NoMemory);
    }
    mesh.make_edge(a, b, like)
}

/// A face, with the values of an example or zeros.
pub(crate) fn make_face(
    mesh: &mut Mesh,
    sides: &[Side],
    like: Option<FaceName>,
) -> Result<FaceName, NoMemory>
    ensures now { OnOk result (now mesh.new ≡ with_face_like (now mesh.old) sides.now like) }
    ensures base { mesh.new.base ≡ mesh.old.base }
{
    if mesh.counters().faces >= MAX_FACES || !has_room(mesh, sides.len()) {
        return Err(NoMemory);
    }
    if sides.is_empty() || !are_there(mesh, sides) {
        return Err(NoMemory);
    }
    if let Some(f) = like
        && !mesh.has(Elem::Face(f))
    {
        return Err(NoMemory);
    }
    mesh.make_face(sides, like)
}

/// So many more corners can be had.
pub(crate) fn has_room(mesh: &Mesh, count: usize) -> bool
    ensures { IsTrue result → corner_sum (now mesh.now).faces + count ≤ 2 ^ 24 }
{
    let live = mesh.counters().corners as usize;
    count <= MOST_CORNERS && live <= MOST_CORNERS - count
}

// The vertices and edges of some corners are there.
fn are_there(mesh: &Mesh, sides: &[Side]) -> bool
    ensures verts { IsTrue result → All (λ k. IsThere (now mesh.now).verts k.0.0) sides.now }
    ensures edges { IsTrue result → All (λ k. IsThere (now mesh.now).edges k.1.0) sides.now }
{
    sides
        .iter()
        .all(|k| mesh.has(Elem::Vert(k.0)) && mesh.has(Elem::Edge(k.1)))
}

/// Takes an element away. The answer is whether it may go.
pub(crate) fn kill(mesh: &mut Mesh, x: Elem) -> Result<bool, NoMemory> {
    match x {
        Elem::Vert(v) => kill_vert(mesh, v),
        Elem::Edge(e) => {
            kill_edge(mesh, e)?;
            Ok(true)
        }
        Elem::Face(f) => kill_face(mesh, f),
    }
}

fn kill_vert(mesh: &mut Mesh, v: VertName) -> Result<bool, NoMemory> {
    if !mesh.has(Elem::Vert(v)) || !mesh.can_lose_vert(v) {
        return Ok(false);
    }
    mesh.kill_vert(v)?;
    Ok(true)
}

/// Takes an edge away.
pub(crate) fn kill_edge(mesh: &mut Mesh, e: EdgeName) -> Result<(), NoMemory>
    ensures now { OnOk result (now mesh.new ≡ without_edge (now mesh.old) e) }
    ensures base { mesh.new.base ≡ mesh.old.base }
{
    if !mesh.has(Elem::Edge(e)) {
        return Err(NoMemory);
    }
    mesh.kill_edge(e)
}

fn kill_face(mesh: &mut Mesh, f: FaceName) -> Result<bool, NoMemory> {
    if !mesh.has(Elem::Face(f)) {
        return Ok(false);
    }
    mesh.kill_face(f)?;
    Ok(true)
}
