//! Edges along which at least two corners run.
ghost use Rattle.std.specs.Prelude.{◌≡◌, ◌++◌, ◌∷◌, [], filter, is_some, IfOk, OnOk, if◌then◌else◌};
ghost use Rattle.std.specs.List.{All};
ghost use Rattle.mesh_model.specs.Table.{IsThere};
ghost use Rattle.mesh_core.specs.Seen.{now};
ghost use Rattle.op_basic.specs.Deleting.{has_two_corners};

use mesh_core::{EdgeName, FaceName, Mesh, NoMemory};
use std::alloc::Global;

/// Those of some live edges along which at least two corners run, in order, in constant time each.
pub(crate) fn inner_edges(
    alloc: Global,
    mesh: &Mesh,
    edges: &[EdgeName],
) -> Result<Vec<EdgeName>, NoMemory>
    requires { All (λ e. IsThere (now mesh.now).edges e.0) edges.now }
    ensures { IfOk result (λ es. es.items ≡ filter (has_two_corners (now mesh.now)) edges.now) }
{
    let mut inner = Vec::new(alloc);
    for e in edges {
        push_inner(mesh, *e, &mut inner)?;
    }
    Ok(inner)
}

// Appends a live edge along which at least two corners run.
fn push_inner(mesh: &Mesh, e: EdgeName, inner: &mut Vec<EdgeName>) -> Result<(), NoMemory>
    requires { IsThere (now mesh.now).edges e.0 }
    ensures { OnOk result (inner.new.items
        ≡ (if has_two_corners (now mesh.now) e then inner.old.items ++ e ∷ [] else inner.old.items)) }
{
    if has_two_corners(mesh, e) {
        inner.push(e)?;
    }
    Ok(())
}

// Whether at least two corners run along a live edge.
fn has_two_corners(mesh: &Mesh, e: EdgeName) -> bool
    requires { IsThere (now mesh.now).edges e.0 }
    ensures { result ≡ has_two_corners (now mesh.now) e }
{
    let mut corners = mesh.loops_of_edge(e);
    if is_given(corners.next()) {
        is_given(corners.next())
    } else {
        false
    }
}

// Whether a corner is given.
fn is_given(corner: Option<(FaceName, u32)>) -> bool
    ensures { result ≡ is_some corner }
{
    corner.is_some()
}
