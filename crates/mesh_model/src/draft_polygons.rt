//! Edges that are found, or made where they are missing, and the corners of a polygon along them.

ghost use Rattle.std.specs.Prelude.{◌≡◌, ◌==◌, ◌+◌, ◌-◌, ◌<◌, ◌≤◌, ◌^◌, ◌∷◌, [], ◌++◌, ◌||◌, ℕ, length};
ghost use Rattle.std.specs.List.{All, list_any};
ghost use Rattle.cust_data.specs.Layers.{total};
ghost use Rattle.std.specs.HashMap.{spare};
ghost use Rattle.mesh_model.specs.Complex.{corner_sum, uv_layer};
ghost use Rattle.mesh_model.specs.Incidence.{is_along};
ghost use Rattle.mesh_model.specs.Values.{row_given};
ghost use Rattle.cust_data.specs.Layers.{AreLayers};
ghost use Rattle.mesh_model.specs.NameSet.{is_in};
ghost use Rattle.mesh_model.specs.EdgeIndexes.{Knows};
ghost use Rattle.mesh_model.specs.Draft.{edge_in, corners_in, turned};

use crate::draft::DraftCorner;
use crate::draft_rows::{corner_row, zero_row};
use crate::edge_columns::{EdgeColumns, Ends};
use crate::edge_index::EdgeIndex;
use crate::face_columns::{FaceColumns, Side};
use crate::names::{EdgeName, VertName};

/// The least edge that joins two vertices, made with these ends if there is none. Takes no memory.
pub(crate) fn edge_in(
    edges: &mut EdgeColumns,
    index: &mut EdgeIndex,
    a: VertName,
    b: VertName,
) -> EdgeName
    requires layers { AreLayers edges.old.layers }
    requires room { 0 < edges.old.room }
    requires fits { length edges.old.table + 1 < 2 ^ 32 }
    requires knows { Knows index.old edges.old.table }
    requires known { index.old.known ≡ length edges.old.table }
    requires index_room { 0 < spare index.old.least }
    ensures told { (edges.new.table, result) ≡ edge_in edges.old.layers edges.old.table a b }
    ensures layers { edges.new.layers ≡ edges.old.layers }
    ensures used { (e : ℕ) → is_in edges.new.used e ≡ is_in edges.old.used e }
    ensures room { edges.old.room ≤ edges.new.room + 1 }
    ensures knows { Knows index.new edges.new.table }
    ensures known { index.new.known ≡ length edges.new.table }
    ensures index_room { spare index.old.least ≤ spare index.new.least + 1 }
{
    match index.find(edges, a, b) {
        Some(e) => e,
        None => {
            let name = edges.len();
            let row = zero_row(edges.values());
            edges.push(Ends { a, b }, row.as_slice());
            index.note(edges);
            EdgeName(name)
        }
    }
}

/// A corner on each side of a polygon behind the last face, with the edges that are missing. Takes no memory.
pub(crate) fn polygon_in(
    edges: &mut EdgeColumns,
    index: &mut EdgeIndex,
    faces: &mut FaceColumns,
    corners: &[DraftCorner],
)
    requires layers { AreLayers edges.old.layers }
    requires corner_layers { AreLayers faces.old.corner_layers }
    requires room { length corners.now ≤ edges.old.room }
    requires fits { length edges.old.table + length corners.now + 1 < 2 ^ 32 }
    requires knows { Knows index.old edges.old.table }
    requires known { index.old.known ≡ length edges.old.table }
    requires index_room { length corners.now ≤ spare index.old.least }
    requires closed { faces.old.open ≡ [] }
    requires corner_room { length corners.now ≤ faces.old.corner_room }
    requires corners_fit { corner_sum faces.old.table + length corners.now < 2 ^ 32 }
    ensures told { (edges.new.table, faces.new.open)
        ≡ corners_in edges.old.layers faces.old.corner_layers edges.old.table (turned corners.now) }
    ensures layers { edges.new.layers ≡ edges.old.layers }
    ensures used { (e : EdgeName) → is_in edges.new.used e.0
        ≡ (is_in edges.old.used e.0 || list_any (is_along e) faces.new.open) }
    ensures faces { faces.new ≡ record faces.old { «open» = faces.new.open; corner_room = faces.new.corner_room } }
    ensures wide { All (λ k. length k.vals ≡ total faces.old.corner_layers) faces.new.open }
    ensures knows { Knows index.new edges.new.table }
    ensures known { index.new.known ≡ length edges.new.table }
{
    for i in 0..corners.len() {
        let next = if i + 1 < corners.len() { i + 1 } else { 0 };
        side_in(edges, index, faces, &corners[i], corners[next].vert);
    }
}

// A corner more behind the last face, along the edge to the next vertex.
fn side_in(
    edges: &mut EdgeColumns,
    index: &mut EdgeIndex,
    faces: &mut FaceColumns,
    corner: &DraftCorner,
    next: VertName,
)
    requires layers { AreLayers edges.old.layers }
    requires corner_layers { AreLayers faces.old.corner_layers }
    requires room { 0 < edges.old.room }
    requires fits { length edges.old.table + 1 < 2 ^ 32 }
    requires knows { Knows index.old edges.old.table }
    requires known { index.old.known ≡ length edges.old.table }
    requires index_room { 0 < spare index.old.least }
    requires corner_room { 0 < faces.old.corner_room }
    requires corners_fit { corner_sum faces.old.table + length faces.old.open + 1 < 2 ^ 32 }
    ensures edges { edges.new.table ≡ (edge_in edges.old.layers edges.old.table corner.now.vert next).0 }
    ensures layers { edges.new.layers ≡ edges.old.layers }
    ensures used { (e : EdgeName) → is_in edges.new.used e.0
        ≡ (is_in edges.old.used e.0 || ((edge_in edges.old.layers edges.old.table corner.now.vert next).1.0 == e.0)) }
    ensures faces { faces.new ≡ record faces.old {
      «open» = faces.old.open ++ record {
        vert = corner.now.vert;
        edge = (edge_in edges.old.layers edges.old.table corner.now.vert next).1;
        vals = row_given ((uv_layer, corner.now.uv) ∷ []) faces.old.corner_layers;
      } ∷ [];
      corner_room = faces.old.corner_room - 1;
    } }
    ensures wide { length (row_given ((uv_layer, corner.now.uv) ∷ []) faces.old.corner_layers)
        ≡ total faces.old.corner_layers }
    ensures room { edges.old.room ≤ edges.new.room + 1 }
    ensures knows { Knows index.new edges.new.table }
    ensures known { index.new.known ≡ length edges.new.table }
    ensures index_room { spare index.old.least ≤ spare index.new.least + 1 }
{
    let edge = edge_in(edges, index, corner.vert, next);
    edges.mark_used(edge.0);
    let row = corner_row(faces.corner_values(), &corner.uv);
    faces.push_corner(
        Side {
            vert: corner.vert,
            edge,
        },
        row.as_slice(),
    );
}
