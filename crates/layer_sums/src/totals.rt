//! The sums of whole rows, kind by kind.

ghost use Rattle.std.specs.Prelude.{◌≡◌, true, IfOk};
ghost use Rattle.std.specs.List.{list_any};
ghost use Rattle.mesh_model.specs.Valid.{IsValid};
ghost use Rattle.layer_sums.specs.Sums.{row_sums};
ghost use Rattle.layer_sums.specs.Totals.{row_in, same_kind, is_of};
ghost use Rattle.mesh_model.specs.declared.names.Kind.{Kind};

use crate::rows::row_sums;
use mesh_model::{Kind, LayerDecl, NoMemory, Shape};
use std::alloc::Global;
use std::marker::Model;

/// The rows of all elements added up, for each kind that layers are of.
#[derive(Drop)]
pub struct Totals {
    verts: Vec<i64>,
    edges: Vec<i64>,
    corners: Vec<i64>,
    faces: Vec<i64>,
}

impl Model for Totals {
    ghost use Rattle.layer_sums.specs.Totals.{KindRows};

    ghost Value = { KindRows };

    ghost view = { λ t. record {
      verts = t.verts.items;
      edges = t.edges.items;
      corners = t.corners.items;
      faces = t.faces.items;
    } };
}

impl Totals {
    /// The sums of the rows of each kind that one of some layers is of; of another kind nothing is said. In one pass
    /// over the elements of each such kind, in time proportional to the numbers of their rows.
    pub fn of<S: Shape>(alloc: Global, shape: &S, layers: &[LayerDecl]) -> Result<Totals, NoMemory>
        requires { IsValid (S.complex shape.now) }
        ensures { IfOk result (λ t. (kind : Kind) → list_any (is_of kind) layers.now ≡ true
            → row_in t kind ≡ row_sums (S.complex shape.now) kind) }
    {
        Ok(Totals {
            verts: sums_for(alloc, shape, Kind::Verts, layers)?,
            edges: sums_for(alloc, shape, Kind::Edges, layers)?,
            corners: sums_for(alloc, shape, Kind::Corners, layers)?,
            faces: sums_for(alloc, shape, Kind::Faces, layers)?,
        })
    }

    /// The sums of a kind.
    pub fn row(&self, kind: Kind) -> &[i64]
        ensures { result.now ≡ row_in self.now kind }
    {
        match kind {
            Kind::Verts => &self.verts,
            Kind::Edges => &self.edges,
            Kind::Corners => &self.corners,
            Kind::Faces => &self.faces,
        }
    }
}

// The sums of a kind, if one of some layers is of it.
fn sums_for<S: Shape>(
    alloc: Global,
    shape: &S,
    kind: Kind,
    layers: &[LayerDecl],
) -> Result<Vec<i64>, NoMemory>
    requires { IsValid (S.complex shape.now) }
    ensures { IfOk result (λ v. list_any (is_of kind) layers.now ≡ true
        → v.items ≡ row_sums (S.complex shape.now) kind) }
{
    if any_of(kind, layers) {
        row_sums(alloc, shape, kind)
    } else {
        Ok(Vec::new(alloc))
    }
}

// Whether one of some layers is of a kind.
fn any_of(kind: Kind, layers: &[LayerDecl]) -> bool
    ensures { result ≡ list_any (is_of kind) layers.now }
{
    layers.iter().any(|d| is_of(kind, d))
}

// Whether a layer is of a kind.
fn is_of(kind: Kind, layer: &LayerDecl) -> bool
    ensures { result ≡ is_of kind layer.now }
{
    same_kind(kind, layer.kind)
}

// Whether two kinds are the same.
fn same_kind(one: Kind, other: Kind) -> bool
    ensures { result ≡ same_kind one other }
{
    matches!(
        (one, other),
        (Kind::Verts, Kind::Verts)
            | (Kind::Edges, Kind::Edges)
            | (Kind::Corners, Kind::Corners)
            | (Kind::Faces, Kind::Faces)
    )
}
