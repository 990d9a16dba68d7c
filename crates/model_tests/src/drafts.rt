//! Drafts, element by element.
ghost use Rattle.mesh_model.specs.Valid.{IsValid};

use crate::building::{edge, quad, vert};
use crate::confirm::confirm;
use crate::reading::{are_ends, is_loose};
use mesh_model::limits::MAX_EDGES;
use mesh_model::{Counters, Draft, EdgeName, FaceName, Kind, NoMemory, Rule, Shape, VertName};
use std::process::Abort;
use std::test::Fail;

/// Adds the vertices of a square at (0, 0), (4, 0), (4, 4) and (0, 4).
fn square_verts(rt: &impl Abort, draft: &mut Draft) -> Result<(), NoMemory>
    ensures { IsValid draft.old → IsValid draft.new }
{
    let a = vert(rt, draft, 0, 0)?;
    let b = vert(rt, draft, 4, 0)?;
    let c = vert(rt, draft, 4, 4)?;
    let d = vert(rt, draft, 0, 4)?;
    let names = [VertName(0), VertName(1), VertName(2), VertName(3)];
    confirm(rt, "names in order", [a, b, c, d] == names);
    Ok(())
}

/// Adds a square with its face, of the second of two materials and of the smoothing group 5.
pub(crate) fn square(rt: &impl Abort, draft: &mut Draft) -> Result<(), NoMemory>
    ensures { IsValid draft.old → IsValid draft.new }
{
    names(rt, draft)?;
    square_verts(rt, draft)?;
    let face = quad(rt, draft, [0, 1, 2, 3], 2, 5)?;
    confirm(rt, "the first face", face == FaceName(0));
    Ok(())
}

// Names two materials, of which one is named again, and a library twice.
fn names(rt: &impl Abort, draft: &mut Draft) -> Result<(), NoMemory>
    ensures { IsValid draft.old → IsValid draft.new }
{
    let red = draft.material_number(b"red")?;
    let blue = draft.material_number(b"blue")?;
    let again = draft.material_number(b"red")?;
    confirm(rt, "numbers from 1", [red, blue, again] == [1, 2, 1]);
    draft.add_library(b"paints.mtl")?;
    draft.add_library(b"paints.mtl")?;
    Ok(())
}

/// How many vertices, edges, faces and corners there are.
pub(crate) fn are_counted(rt: &impl Abort, draft: &Draft, count: [u32; 4]) {
    let [verts, edges, faces, corners] = count;
    let all = Counters {
        verts,
        edges,
        faces,
        corners,
    };
    confirm(rt, "counters", draft.counters() == all);
}

// The sides of a square have edges in order, which are found either way round.
fn sides_are_found(rt: &impl Abort, draft: &mut Draft) -> Result<(), NoMemory> {
    let first = edge(rt, draft, 0, 1)?;
    confirm(rt, "the first side", first == EdgeName(0));
    let last = draft.find_edge(VertName(3), VertName(0))?;
    let turned = draft.find_edge(VertName(0), VertName(3))?;
    confirm(
        rt,
        "the last side",
        [last, turned] == [Some(EdgeName(3)); 2],
    );
    are_counted(rt, draft, [4, 4, 1, 4]);
    Ok(())
}

// A diagonal isn't found before it is made, and then it is the one between its ends, loose, from the first of them.
fn a_diagonal_is_made(rt: &impl Abort, draft: &mut Draft) -> Result<(), NoMemory> {
    let missing = draft.find_edge(VertName(0), VertName(2))?;
    confirm(rt, "no edge", missing.is_none());
    let made = edge(rt, draft, 2, 0)?;
    let again = edge(rt, draft, 0, 2)?;
    confirm(rt, "one edge", [made, again] == [EdgeName(4); 2]);
    let found = draft.find_edge(VertName(0), VertName(2))?;
    confirm(rt, "it is found", found == Some(EdgeName(4)));
    are_ends(rt, draft, EdgeName(4), [2, 0]);
    confirm(rt, "a loose edge", is_loose(rt, draft, EdgeName(4)));
    confirm(
        rt,
        "an edge with a corner",
        !is_loose(rt, draft, EdgeName(0)),
    );
    Ok(())
}

// The sides and a diagonal of a square.
fn edges_of_square(rt: &impl Abort, draft: &mut Draft) -> Result<(), NoMemory> {
    square(rt, draft)?;
    sides_are_found(rt, draft)?;
    a_diagonal_is_made(rt, draft)
}

#[test]
fn the_least_edge_is_between(rt: HostRuntime) -> Result<(), Fail> {
    let mut draft = Draft::new(rt.alloc());
    edges_of_square(&rt, &mut draft)?;
    Ok(())
}

// How many layers there are of vertices, edges, corners and faces.
fn are_layers(rt: &impl Abort, draft: &Draft, counts: [usize; 4]) {
    let kinds = [
        draft.layers(Kind::Verts),
        draft.layers(Kind::Edges),
        draft.layers(Kind::Corners),
        draft.layers(Kind::Faces),
    ];
    confirm(rt, "layers", kinds == counts);
}

// A layer of a kind.
fn is_layer(rt: &impl Abort, draft: &Draft, kind: Kind, k: usize, name: &[u8]) -> (u8, Rule) {
    confirm(rt, "a layer", k < draft.layers(kind));
    confirm(rt, "its name", draft.layer_name(kind, k) == name);
    (draft.layer_width(kind, k), draft.layer_rule(kind, k))
}

// The layers of a new draft.
fn are_fixed_layers(rt: &impl Abort, draft: &Draft) {
    are_layers(rt, draft, [0, 0, 1, 2]);
    let uv = is_layer(rt, draft, Kind::Corners, 0, b"uv");
    confirm(rt, "uv", uv == (2, Rule::Mix));
    let material = is_layer(rt, draft, Kind::Faces, 0, b"material");
    let smooth = is_layer(rt, draft, Kind::Faces, 1, b"smooth");
    confirm(rt, "of faces", [material, smooth] == [(1, Rule::Copy); 2]);
}

#[test]
fn a_new_draft_has_three_layers(rt: HostRuntime) {
    are_fixed_layers(&rt, &Draft::new(rt.alloc()));
}

// A vertex in a draft without layers.
fn bare_vertex(rt: &impl Abort, draft: &mut Draft) -> Result<(), NoMemory> {
    let v = vert(rt, draft, -3, 7)?;
    confirm(rt, "the first vertex", v == VertName(0));
    are_layers(rt, draft, [0, 0, 0, 0]);
    Ok(())
}

#[test]
fn a_bare_draft_has_no_layer(rt: HostRuntime) -> Result<(), Fail> {
    let mut draft = Draft::bare(rt.alloc());
    bare_vertex(&rt, &mut draft)?;
    Ok(())
}

// The limits leave room for as many edges as can be named, and no more.
fn has_room_to_the_limit(rt: &impl Abort, draft: &Draft) {
    let most = MAX_EDGES as usize;
    confirm(rt, "room", draft.has_room(most));
    confirm(rt, "no room", !draft.has_room(most + 1));
}

#[test]
fn room_ends_at_the_limit(rt: HostRuntime) {
    has_room_to_the_limit(&rt, &Draft::new(rt.alloc()));
}
