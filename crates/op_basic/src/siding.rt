//! Edges along the sides of a polygon, found or made.
ghost use Rattle.std.specs.Prelude.{◌≡◌, ◌≢◌, ◌<◌, ◌≤◌, [], length, slice_index_or, IsTrue, IfOk, OnOk, if◌then◌else◌};
ghost use Rattle.std.specs.List.{All, zip};
ghost use Rattle.mesh_model.specs.Incidence.{sides};
ghost use Rattle.mesh_model.specs.Making.{edge_between, edges_along};
ghost use Rattle.mesh_model.specs.Table.{IsThere};
ghost use Rattle.mesh_model.specs.Valid.{are_distinct};
ghost use Rattle.mesh_core.specs.Seen.{now};
ghost use Rattle.op_basic.specs.Searching.{next_place, side_at, is_missing, missing};

use mesh_core::{EdgeName, Mesh, NoMemory, VertName};
use mesh_model::limits::{MAX_EDGES, MAX_SIDES};

// The position after one, round a polygon of so many corners.
fn next_place(n: usize, i: usize) -> usize
    requires { i < n }
    ensures next { result ≡ next_place n i }
    ensures within { result < n }
{
    if i + 1 < n { i + 1 } else { 0 }
}

/// How many edges the sides of a polygon of live vertices lack. It takes time that grows with the edges around them.
pub(crate) fn count_missing(mesh: &Mesh, verts: &[VertName]) -> u32
    requires live { All (λ v. IsThere (now mesh.now).verts v.0) verts.now }
    requires few { length verts.now ≤ MAX_SIDES }
    ensures count { result ≡ missing (now mesh.now) (sides verts.now) }
    ensures few { result ≤ length verts.now }
{
    let mut count = 0;
    for i in 0..verts.len() {
        count += missing_at(mesh, verts, i);
    }
    count
}

// 1 where no edge joins the two vertices of a side, and else 0.
fn missing_at(mesh: &Mesh, verts: &[VertName], i: usize) -> u32
    requires live { All (λ v. IsThere (now mesh.now).verts v.0) verts.now }
    requires within { i < length verts.now }
    ensures { result ≡ (if is_missing (now mesh.now) (side_at verts.now i) then 1 else 0) }
{
    let next = next_place(verts.len(), i);
    match mesh.find_edge(verts[i], verts[next]) {
        Some(_) => 0,
        None => 1,
    }
}

/// Finds or makes the edges along the sides of a polygon, and appends its corners to none. After `NoMemory` some of the
/// edges may be made.
pub(crate) fn make_sides(
    mesh: &mut Mesh,
    verts: &[VertName],
    corners: &mut Vec<(VertName, EdgeName)>,
) -> Result<(), NoMemory>
    requires live { All (λ v. IsThere (now mesh.old).verts v.0) verts.now }
    requires least { 3 ≤ length verts.now }
    requires distinct { IsTrue (are_distinct verts.now) }
    requires limit { length (edges_along (now mesh.old) (sides verts.now)).0.edges ≤ MAX_EDGES }
    requires none { corners.old.items ≡ [] }
    ensures now { OnOk result (now mesh.new ≡ (edges_along (now mesh.old) (sides verts.now)).0) }
    ensures corners { OnOk result (corners.new.items ≡ zip verts.now (edges_along (now mesh.old) (sides verts.now)).1) }
    ensures base { mesh.new.base ≡ mesh.old.base }
{
    for i in 0..verts.len() {
        let next = next_place(verts.len(), i);
        let edge = edge_between(mesh, verts[i], verts[next])?;
        corners.push((verts[i], edge))?;
    }
    Ok(())
}

// The least edge that joins two live vertices, made if there is none.
fn edge_between(mesh: &mut Mesh, a: VertName, b: VertName) -> Result<EdgeName, NoMemory>
    requires a { IsThere (now mesh.old).verts a.0 }
    requires b { IsThere (now mesh.old).verts b.0 }
    requires differ { a.0 ≢ b.0 }
    requires limit { length (edge_between (now mesh.old) a b).0.edges ≤ MAX_EDGES }
    ensures now { OnOk result (now mesh.new ≡ (edge_between (now mesh.old) a b).0) }
    ensures name { IfOk result (λ e. e ≡ (edge_between (now mesh.old) a b).1) }
    ensures base { mesh.new.base ≡ mesh.old.base }
{
    match mesh.find_edge(a, b) {
        Some(e) => Ok(e),
        None => mesh.make_edge(a, b, None),
    }
}
