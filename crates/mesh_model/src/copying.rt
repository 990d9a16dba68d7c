//! A draft of a shape, or of a part of it, element by element.

ghost use Rattle.std.specs.Prelude.{◌≡◌, ◌+◌, ◌-◌, ◌<◌, ◌≤◌, ◌^◌, ◌∷◌, [], ◌++◌, ◌||◌, ℕ, not, length, map, IfOk};
ghost use Rattle.std.specs.Prelude.{OnOk, Some, false};
ghost use Rattle.std.specs.Option.{option_map};
ghost use Rattle.std.specs.List.{All, list_any, flat_map};
ghost use Rattle.mesh_model.specs.Table.{at, IsThere, passes, only_if, table_of};
ghost use Rattle.mesh_model.specs.Complex.{layers_of, corners_of, corner_sum};
ghost use Rattle.mesh_model.specs.Incidence.{is_along, uses_edge};
ghost use Rattle.mesh_model.specs.Deleting.{without_verts};
ghost use Rattle.mesh_model.specs.Elements.{is_among};
ghost use Rattle.mesh_model.specs.Valid.{IsLinked};
ghost use Rattle.cust_data.specs.Layers.{AreLayers};
ghost use Rattle.mesh_model.specs.NameSet.{is_in};
ghost use Rattle.mesh_model.specs.Copying.{vert_left, edge_left, face_left};
ghost use Rattle.mesh_model.specs.declared.records.FaceRec.{FaceRec};

use crate::draft::Draft;
use crate::draft_rows::RowBuffer;
use crate::edge_columns::{EdgeColumns, Ends};
use crate::edge_index::EdgeIndex;
use crate::face_columns::{FaceColumns, Side};
use crate::layer_rows::{LayerRows, add_layer};
use crate::name_set::NameSet;
use crate::names::{EdgeName, Elem, FaceName, Kind, VertName};
use crate::shape::Shape;
use crate::vert_columns::VertColumns;
use cust_data::LayerSet;
use sequence::{NoMemory, Sequence, Text};
use std::alloc::Global;

/// Some vertices as a set, each of them below a count.
pub(crate) fn set_of(alloc: Global, verts: &[VertName], count: u32) -> Result<NameSet, NoMemory>
    requires { All (λ v. v.0 < count) verts.now }
    ensures { IfOk result (λ set. (v : VertName) → is_in set v.0 ≡ is_among verts.now v) }
{
    let mut set = NameSet::new(alloc);
    if verts.is_empty() {
        return Ok(set);
    }
    set.widen(count as usize)?;
    for v in verts {
        set.insert(v.0);
    }
    Ok(set)
}

/// The layers of a kind, without rows.
pub(crate) fn layers_of<S: Shape>(
    alloc: Global,
    shape: &S,
    kind: Kind,
) -> Result<LayerRows, NoMemory>
    requires { AreLayers (layers_of (S.complex shape.now).layers kind) }
    ensures { IfOk result (λ r. r ≡ record { layers = layers_of (S.complex shape.now).layers kind; rows = [] }) }
{
    let mut set = LayerSet::new(alloc);
    for k in 0..shape.layers(kind) {
        add_layer(
            &mut set,
            shape.layer_name(kind, k),
            shape.layer_width(kind, k),
            shape.layer_rule(kind, k),
        )?;
    }
    Ok(LayerRows::of(alloc, set))
}

/// The names of a shape's materials, in time and memory that grow with them.
pub fn materials_of<S: Shape>(alloc: Global, shape: &S) -> Result<Sequence<Text>, NoMemory>
    ensures { IfOk result (λ names. names ≡ (S.complex shape.now).materials) }
{
    let mut names = Sequence::new(alloc);
    for k in 0..usize::MAX {
        match shape.material(k) {
            Some(name) => names.push(Text::of(alloc, name)?)?,
            None => return Ok(names),
        }
    }
    Err(NoMemory)
}

/// The names of a shape's libraries of materials, in time and memory that grow with them.
pub fn libraries_of<S: Shape>(alloc: Global, shape: &S) -> Result<Sequence<Text>, NoMemory>
    ensures { IfOk result (λ names. names ≡ (S.complex shape.now).libraries) }
{
    let mut names = Sequence::new(alloc);
    for k in 0..usize::MAX {
        match shape.library(k) {
            Some(name) => names.push(Text::of(alloc, name)?)?,
            None => return Ok(names),
        }
    }
    Err(NoMemory)
}

/// The vertices that aren't in a set.
pub(crate) fn verts_of<S: Shape>(
    alloc: Global,
    shape: &S,
    gone: &NameSet,
) -> Result<VertColumns, NoMemory>
    requires { IsLinked (S.complex shape.now) }
    ensures table { IfOk result (λ v. v.table
        ≡ table_of (vert_left gone.now (S.complex shape.now)) (length (S.complex shape.now).verts)) }
    ensures layers { IfOk result (λ v. v.layers ≡ (S.complex shape.now).layers.verts) }
{
    let count = shape.counters().verts;
    let mut verts = VertColumns::new(alloc, layers_of(alloc, shape, Kind::Verts)?);
    verts.reserve(count)?;
    for n in 0..count {
        push_vert(&mut verts, shape, gone, VertName(n));
    }
    Ok(verts)
}

fn push_vert<S: Shape>(verts: &mut VertColumns, shape: &S, gone: &NameSet, v: VertName)
    requires linked { IsLinked (S.complex shape.now) }
    requires layers { verts.old.layers ≡ (S.complex shape.now).layers.verts }
    requires room { 0 < verts.old.room }
    requires fits { length verts.old.table + 1 < 2 ^ 32 }
    ensures { verts.new ≡ record verts.old {
      table = verts.old.table ++ vert_left gone.now (S.complex shape.now) v.0 ∷ [];
      room = verts.old.room - 1;
    } }
{
    if shape.has(Elem::Vert(v)) && !gone.contains(v.0) {
        let row = vert_row(shape, v);
        verts.push(shape.point(v), row.as_slice());
    } else {
        verts.skip();
    }
}

/// The row of values of a vertex. It takes no memory, and time that grows with the row.
pub fn vert_row<S: Shape>(shape: &S, v: VertName) -> RowBuffer
    requires linked { IsLinked (S.complex shape.now) }
    requires there { IsThere (S.complex shape.now).verts v.0 }
    ensures { option_map (λ r. r.vals) (at (S.complex shape.now).verts v.0) ≡ Some result }
{
    let mut row = RowBuffer::new();
    for k in 0..shape.width(Kind::Verts) {
        row.push(shape.vert_value(v, k));
    }
    row
}

/// The edges with no end in a set of vertices.
pub(crate) fn edges_of<S: Shape>(
    alloc: Global,
    shape: &S,
    gone: &NameSet,
) -> Result<EdgeColumns, NoMemory>
    requires { IsLinked (S.complex shape.now) }
    ensures table { IfOk result (λ t. t.table
        ≡ table_of (edge_left gone.now (S.complex shape.now)) (length (S.complex shape.now).edges)) }
    ensures layers { IfOk result (λ t. t.layers ≡ (S.complex shape.now).layers.edges) }
    ensures unused { IfOk result (λ t. (n : ℕ) → is_in t.used n ≡ false) }
{
    let count = shape.counters().edges;
    let mut edges = EdgeColumns::new(alloc, layers_of(alloc, shape, Kind::Edges)?);
    edges.reserve(count)?;
    for n in 0..count {
        push_edge(&mut edges, shape, gone, EdgeName(n));
    }
    Ok(edges)
}

fn push_edge<S: Shape>(edges: &mut EdgeColumns, shape: &S, gone: &NameSet, e: EdgeName)
    requires linked { IsLinked (S.complex shape.now) }
    requires layers { edges.old.layers ≡ (S.complex shape.now).layers.edges }
    requires room { 0 < edges.old.room }
    requires fits { length edges.old.table + 1 < 2 ^ 32 }
    ensures { edges.new ≡ record edges.old {
      table = edges.old.table ++ edge_left gone.now (S.complex shape.now) e.0 ∷ [];
      used = edges.old.used ++ false ∷ [];
      room = edges.old.room - 1;
    } }
{
    match ends_left(shape, gone, e) {
        Some(ends) => {
            let row = edge_row(shape, e);
            edges.push(ends, row.as_slice());
        }
        None => edges.skip(),
    }
}

// The ends of an edge, if it is there and has none of them in a set.
fn ends_left<S: Shape>(shape: &S, gone: &NameSet, e: EdgeName) -> Option<Ends>
    ensures { result ≡ option_map (λ x. record { a = x.a; b = x.b }) (edge_left gone.now (S.complex shape.now) e.0) }
{
    if !shape.has(Elem::Edge(e)) {
        return None;
    }
    let [a, b] = shape.ends(e);
    if gone.contains(a.0) || gone.contains(b.0) {
        None
    } else {
        Some(Ends { a, b })
    }
}

/// The row of values of an edge. It takes no memory, and time that grows with the row.
pub fn edge_row<S: Shape>(shape: &S, e: EdgeName) -> RowBuffer
    requires linked { IsLinked (S.complex shape.now) }
    requires there { IsThere (S.complex shape.now).edges e.0 }
    ensures { option_map (λ r. r.vals) (at (S.complex shape.now).edges e.0) ≡ Some result }
{
    let mut row = RowBuffer::new();
    for k in 0..shape.width(Kind::Edges) {
        row.push(shape.edge_value(e, k));
    }
    row
}

/// The faces with no corner at a vertex of a set. Notes which edges have a corner.
pub(crate) fn faces_of<S: Shape>(
    alloc: Global,
    shape: &S,
    gone: &NameSet,
    edges: &mut EdgeColumns,
) -> Result<FaceColumns, NoMemory>
    requires linked { IsLinked (S.complex shape.now) }
    requires along { (n : ℕ) (f : FaceRec) → face_left gone.now (S.complex shape.now) n ≡ Some f
        → All (λ k. IsThere edges.old.table k.edge.0) f.corners }
    ensures table { IfOk result (λ t. t.table
        ≡ table_of (face_left gone.now (S.complex shape.now)) (length (S.complex shape.now).faces)) }
    ensures closed { IfOk result (λ t. t.open ≡ []) }
    ensures layers { IfOk result (λ t. t.layers ≡ (S.complex shape.now).layers.faces) }
    ensures corner_layers { IfOk result (λ t. t.corner_layers ≡ (S.complex shape.now).layers.corners) }
    ensures edges { edges.new ≡ record edges.old { used = edges.new.used } }
    ensures used { IfOk result (λ t. (e : EdgeName) → is_in edges.new.used e.0
        ≡ (is_in edges.old.used e.0 || list_any (passes (uses_edge e)) t.table)) }
{
    let counters = shape.counters();
    let corner_values = layers_of(alloc, shape, Kind::Corners)?;
    let values = layers_of(alloc, shape, Kind::Faces)?;
    let mut faces = FaceColumns::new(alloc, corner_values, values);
    faces.reserve(counters.faces)?;
    faces.reserve_corners(counters.corners)?;
    let mut sides = Vec::new(alloc);
    let mut numbers = Vec::new(alloc);
    for n in 0..counters.faces {
        push_face(
            &mut faces,
            edges,
            shape,
            gone,
            FaceName(n),
            &mut sides,
            &mut numbers,
        )?;
    }
    Ok(faces)
}

fn push_face<S: Shape>(
    faces: &mut FaceColumns,
    edges: &mut EdgeColumns,
    shape: &S,
    gone: &NameSet,
    f: FaceName,
    sides: &mut Vec<(VertName, EdgeName)>,
    numbers: &mut Vec<i64>,
) -> Result<(), NoMemory>
    requires linked { IsLinked (S.complex shape.now) }
    requires along { (r : FaceRec) → face_left gone.now (S.complex shape.now) f.0 ≡ Some r
        → All (λ k. IsThere edges.old.table k.edge.0) r.corners }
    requires closed { faces.old.open ≡ [] }
    requires layers { faces.old.layers ≡ (S.complex shape.now).layers.faces }
    requires corner_layers { faces.old.corner_layers ≡ (S.complex shape.now).layers.corners }
    requires room { 0 < faces.old.room }
    requires fits { length faces.old.table + 1 < 2 ^ 32 }
    requires corner_room { length (corners_of (face_left gone.now (S.complex shape.now) f.0)) ≤ faces.old.corner_room }
    requires corners_fit { corner_sum faces.old.table + length
        (corners_of (face_left gone.now (S.complex shape.now) f.0)) < 2 ^ 32 }
    ensures table { OnOk result (faces.new.table
        ≡ faces.old.table ++ face_left gone.now (S.complex shape.now) f.0 ∷ []) }
    ensures closed { OnOk result (faces.new.open ≡ []) }
    ensures layers { faces.new.layers ≡ faces.old.layers }
    ensures corner_layers { faces.new.corner_layers ≡ faces.old.corner_layers }
    ensures room { OnOk result (faces.old.room ≤ faces.new.room + 1) }
    ensures corner_room { OnOk result (faces.old.corner_room
        ≤ faces.new.corner_room + length (corners_of (face_left gone.now (S.complex shape.now) f.0))) }
    ensures edges { edges.new ≡ record edges.old { used = edges.new.used } }
    ensures used { OnOk result ((e : EdgeName) → is_in edges.new.used e.0
        ≡ (is_in edges.old.used e.0 || passes (uses_edge e) (face_left gone.now (S.complex shape.now) f.0))) }
{
    if !shape.has(Elem::Face(f)) {
        faces.skip();
        return Ok(());
    }
    read_corners(shape, f, sides, numbers)?;
    if has_end_in(sides, gone) {
        faces.skip();
        return Ok(());
    }
    push_corners(faces, edges, shape, f, sides, numbers);
    let row = face_row(shape, f);
    faces.close(row.as_slice());
    Ok(())
}

/// Reads a face into two buffers, whose contents are replaced: the vertices and edges of its corners in order, and their
/// rows of values one behind another. It takes memory only where a buffer has to grow. After `NoMemory` a buffer may have
/// lost what it had.
pub fn read_corners<S: Shape>(
    shape: &S,
    f: FaceName,
    sides: &mut Vec<(VertName, EdgeName)>,
    numbers: &mut Vec<i64>,
) -> Result<(), NoMemory>
    requires linked { IsLinked (S.complex shape.now) }
    requires there { IsThere (S.complex shape.now).faces f.0 }
    ensures sides { OnOk result (sides.new.items
        ≡ map (λ k. (k.vert, k.edge)) (corners_of (at (S.complex shape.now).faces f.0))) }
    ensures numbers { OnOk result (numbers.new.items
        ≡ flat_map (λ k. k.vals) (corners_of (at (S.complex shape.now).faces f.0))) }
{
    let count = shape.corner_count(f) as usize;
    sides.resize(count, (VertName(0), EdgeName(0)))?;
    shape.corners(f, sides);
    numbers.resize(count * shape.width(Kind::Corners), 0)?;
    shape.corner_rows(f, numbers);
    Ok(())
}

// Whether a corner has its vertex in a set.
fn has_end_in(sides: &[(VertName, EdgeName)], set: &NameSet) -> bool
    ensures { result ≡ list_any (λ s. is_in set.now s.0.0) sides.now }
{
    sides.iter().any(|s| set.contains(s.0.0))
}

// The corners of a face, open behind the last one.
fn push_corners<S: Shape>(
    faces: &mut FaceColumns,
    edges: &mut EdgeColumns,
    shape: &S,
    f: FaceName,
    sides: &[(VertName, EdgeName)],
    numbers: &[i64],
)
    requires linked { IsLinked (S.complex shape.now) }
    requires there { IsThere (S.complex shape.now).faces f.0 }
    requires sides { sides.now ≡ map (λ k. (k.vert, k.edge)) (corners_of (at (S.complex shape.now).faces f.0)) }
    requires numbers { numbers.now ≡ flat_map (λ k. k.vals) (corners_of (at (S.complex shape.now).faces f.0)) }
    requires along { All (λ k. IsThere edges.old.table k.edge.0) (corners_of (at (S.complex shape.now).faces f.0)) }
    requires closed { faces.old.open ≡ [] }
    requires corner_layers { faces.old.corner_layers ≡ (S.complex shape.now).layers.corners }
    requires corner_room { length (corners_of (at (S.complex shape.now).faces f.0)) ≤ faces.old.corner_room }
    requires corners_fit { corner_sum faces.old.table + length (corners_of (at (S.complex shape.now).faces f.0))
        < 2 ^ 32 }
    ensures faces { faces.new ≡ record faces.old {
      «open» = corners_of (at (S.complex shape.now).faces f.0);
      corner_room = faces.old.corner_room - length (corners_of (at (S.complex shape.now).faces f.0));
    } }
    ensures edges { edges.new ≡ record edges.old { used = edges.new.used } }
    ensures used { (e : EdgeName) → is_in edges.new.used e.0
        ≡ (is_in edges.old.used e.0 || list_any (is_along e) (corners_of (at (S.complex shape.now).faces f.0))) }
{
    let width = shape.width(Kind::Corners);
    let mut from = 0;
    for side in sides {
        let (vert, edge) = *side;
        faces.push_corner(Side { vert, edge }, &numbers[from..from + width]);
        edges.mark_used(edge.0);
        from += width;
    }
}

/// The row of values of a face. It takes no memory, and time that grows with the row.
pub fn face_row<S: Shape>(shape: &S, f: FaceName) -> RowBuffer
    requires linked { IsLinked (S.complex shape.now) }
    requires there { IsThere (S.complex shape.now).faces f.0 }
    ensures { option_map (λ r. r.vals) (at (S.complex shape.now).faces f.0) ≡ Some result }
{
    let mut row = RowBuffer::new();
    for k in 0..shape.width(Kind::Faces) {
        row.push(shape.face_value(f, k));
    }
    row
}

/// A draft of a shape without some vertices, their edges and the faces with them, in time proportional to the names
/// and corners of the shape. Each face is read in one walk.
pub(crate) fn part_of<S: Shape>(
    alloc: Global,
    shape: &S,
    without: &[VertName],
) -> Result<Draft, NoMemory>
    requires there { All (λ v. IsThere (S.complex shape.now).verts v.0) without.now }
    requires left { IsLinked (S.complex shape.now) → IsLinked (without_verts (S.complex shape.now) without.now) }
    ensures { IfOk result (λ d. d ≡ without_verts (S.complex shape.now) without.now) }
{
    let gone = set_of(alloc, without, shape.counters().verts)?;
    let verts = verts_of(alloc, shape, &gone)?;
    let mut edges = edges_of(alloc, shape, &gone)?;
    let faces = faces_of(alloc, shape, &gone, &mut edges)?;
    let materials = materials_of(alloc, shape)?;
    let libraries = libraries_of(alloc, shape)?;
    Ok(Draft {
        alloc,
        verts,
        edges,
        faces,
        materials,
        libraries,
        index: EdgeIndex::new(alloc),
    })
}
