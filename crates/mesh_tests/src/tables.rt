//! The tests that are tables.

use crate::leading::TRIANGLE;
use crate::names::{E0, E1, E2, E3, E4, E5, F0, F1, F2, V0, V1, V2, V3, V4};
use crate::steps::{Change, Kept, Make, Many, Model, Placed, Side, Step, Tell, Way};
use crate::walking::walk;
use mesh_model::{EdgeName, Elem, FaceName, Kind, Point, Rule, VertName};

// The corners of a square's face.
const SQUARE: &[Side] = &[(V0, E0), (V1, E1), (V2, E2), (V3, E3)];

// The same turned over.
const SQUARE_OVER: &[Side] = &[(V0, E3), (V3, E2), (V2, E1), (V1, E0)];

// A square is made, and all its parts are read.
static MADE: [Step; 33] = [
    Step::Make(Make::Vert(V0, Point { x: 0, y: 0, z: 0 })),
    Step::Make(Make::Vert(V1, Point { x: 2, y: 0, z: 0 })),
    Step::Make(Make::Vert(V2, Point { x: 2, y: 2, z: 0 })),
    Step::Make(Make::Vert(V3, Point { x: 0, y: 2, z: -9 })),
    Step::Make(Make::Edge(E0, [V0, V1])),
    Step::Make(Make::Edge(E1, [V1, V2])),
    Step::Make(Make::Edge(E2, [V2, V3])),
    Step::Make(Make::Edge(E3, [V3, V0])),
    Step::Make(Make::Face(F0, SQUARE)),
    Step::Tell(Tell::Counts([4, 4, 1, 4])),
    Step::Tell(Tell::Names(&[V0, V1, V2, V3], &[E0, E1, E2, E3], &[F0])),
    Step::Tell(Tell::Gone(Elem::Vert(V4))),
    Step::Tell(Tell::Vert(V0, Point { x: 0, y: 0, z: 0 }, &[E0, E3], &[(F0, 0)])),
    Step::Tell(Tell::Vert(V1, Point { x: 2, y: 0, z: 0 }, &[E0, E1], &[(F0, 1)])),
    Step::Tell(Tell::Vert(V2, Point { x: 2, y: 2, z: 0 }, &[E1, E2], &[(F0, 2)])),
    Step::Tell(Tell::Vert(V3, Point { x: 0, y: 2, z: -9 }, &[E2, E3], &[(F0, 3)])),
    Step::Tell(Tell::FacesAt(V1, &[F0])),
    Step::Tell(Tell::Edge(E0, [V0, V1], &[(F0, 0)])),
    Step::Tell(Tell::Edge(E1, [V1, V2], &[(F0, 1)])),
    Step::Tell(Tell::Edge(E2, [V2, V3], &[(F0, 2)])),
    Step::Tell(Tell::Edge(E3, [V3, V0], &[(F0, 3)])),
    Step::Tell(Tell::FacesAlong(E2, &[F0])),
    Step::Tell(Tell::Joining([V1, V2], Some(E1))),
    Step::Tell(Tell::Joining([V0, V3], Some(E3))),
    Step::Tell(Tell::Joining([V0, V2], None)),
    Step::Tell(Tell::Face(F0, SQUARE, &[])),
    Step::Tell(Tell::Corner(F0, 2, (V2, E2), &[])),
    Step::Tell(Tell::Values(Elem::Vert(V2), &[])),
    Step::Tell(Tell::Layers([0, 0, 0, 0])),
    Step::Tell(Tell::Material(0, None)),
    Step::Tell(Tell::Library(0, None)),
    Step::Tell(Tell::CanLose(V0, true)),
    Step::Tell(Tell::Places(F0, &[(F0, 0), (F0, 1), (F0, 2), (F0, 3)])),
];

#[test]
fn a_square_is_made(rt: HostRuntime) {
    walk(rt.alloc(), &MADE).confirm(&rt);
}

// A square is loaded, and its parts are killed.
static KILLED: [Step; 27] = [
    Step::Way(Way::Load(Model::Square(7))),
    Step::Kill(Elem::Face(F0)),
    Step::Tell(Tell::Gone(Elem::Face(F0))),
    Step::Tell(Tell::Counts([4, 4, 1, 0])),
    Step::Tell(Tell::Edge(E0, [V0, V1], &[])),
    Step::Tell(Tell::Edge(E1, [V1, V2], &[])),
    Step::Tell(Tell::Edge(E2, [V2, V3], &[])),
    Step::Tell(Tell::Edge(E3, [V3, V0], &[])),
    Step::Tell(Tell::Vert(V2, Point { x: 4, y: 4, z: 7 }, &[E1, E2], &[])),
    Step::Way(Way::Back),
    Step::Tell(Tell::Is(Model::Square(7))),
    Step::Kill(Elem::Edge(E1)),
    Step::Tell(Tell::Names(&[V0, V1, V2, V3], &[E0, E2, E3], &[])),
    Step::Tell(Tell::Vert(V1, Point { x: 4, y: 0, z: 0 }, &[E0], &[])),
    Step::Tell(Tell::Vert(V2, Point { x: 4, y: 4, z: 7 }, &[E2], &[])),
    Step::Way(Way::Back),
    Step::Tell(Tell::Is(Model::Square(7))),
    Step::Kill(Elem::Vert(V0)),
    Step::Tell(Tell::Names(&[V1, V2, V3], &[E1, E2], &[])),
    Step::Tell(Tell::Counts([4, 4, 1, 0])),
    Step::Tell(Tell::Vert(V1, Point { x: 4, y: 0, z: 0 }, &[E1], &[])),
    Step::Tell(Tell::Vert(V3, Point { x: 0, y: 4, z: 0 }, &[E2], &[])),
    Step::Tell(Tell::Joining([V2, V1], Some(E1))),
    Step::Way(Way::Back),
    Step::Tell(Tell::Is(Model::Square(7))),
    Step::Way(Way::Back),
    Step::Tell(Tell::Is(Model::Square(7))),
];

#[test]
fn a_square_loses_parts(rt: HostRuntime) {
    walk(rt.alloc(), &KILLED).confirm(&rt);
}

// A square is loaded, and its corners, points and values change.
static CHANGED: [Step; 35] = [
    Step::Way(Way::Load(Model::Square(7))),
    Step::Tell(Tell::Snapshot),
    Step::Tell(Tell::Copy),
    Step::Tell(Tell::Layers([0, 0, 1, 2])),
    Step::Tell(Tell::Layer(Kind::Corners, b"uv", 2, Rule::Mix)),
    Step::Tell(Tell::Layer(Kind::Faces, b"material", 1, Rule::Copy)),
    Step::Tell(Tell::Material(0, Some(b"wood"))),
    Step::Tell(Tell::Material(1, Some(b"tin"))),
    Step::Tell(Tell::Material(2, None)),
    Step::Tell(Tell::Face(F0, SQUARE, &[0, 0, 5, 0, 5, 6, 0, 6])),
    Step::Tell(Tell::Values(Elem::Face(F0), &[2, 3])),
    Step::Change(Change::Point(V2, Point { x: 5, y: -6, z: 8 })),
    Step::Tell(Tell::Vert(V2, Point { x: 5, y: -6, z: 8 }, &[E1, E2], &[(F0, 2)])),
    Step::Tell(Tell::Vert(V3, Point { x: 0, y: 4, z: 0 }, &[E2, E3], &[(F0, 3)])),
    Step::Change(Change::Point(V2, Point { x: 4, y: 4, z: 7 })),
    Step::Tell(Tell::Is(Model::Square(7))),
    // Each corner is then along the edge that was before it.
    Step::Change(Change::Over(F0)),
    Step::Tell(Tell::Face(F0, SQUARE_OVER, &[0, 0, 0, 6, 5, 6, 5, 0])),
    Step::Change(Change::Over(F0)),
    Step::Tell(Tell::Is(Model::Square(7))),
    Step::Change(Change::Insert(F0, 2, (V3, E0), &[8, 9])),
    Step::Tell(Tell::Face(
        F0,
        &[(V0, E0), (V1, E1), (V3, E0), (V2, E2), (V3, E3)],
        &[0, 0, 5, 0, 8, 9, 5, 6, 0, 6],
    )),
    Step::Tell(Tell::Counts([4, 4, 1, 5])),
    Step::Change(Change::Remove(F0, 2)),
    Step::Tell(Tell::Is(Model::Square(7))),
    Step::Change(Change::CornerValues(F0, 2, &[-8, 9])),
    Step::Tell(Tell::Corner(F0, 2, (V2, E2), &[-8, 9])),
    Step::Tell(Tell::Face(F0, SQUARE, &[0, 0, 5, 0, -8, 9, 0, 6])),
    Step::Change(Change::Values(Elem::Face(F0), &[1, 4])),
    Step::Tell(Tell::Values(Elem::Face(F0), &[1, 4])),
    Step::Way(Way::Back),
    Step::Kill(Elem::Face(F0)),
    Step::Change(Change::End(E0, 1, V2)),
    Step::Tell(Tell::Edge(E0, [V0, V2], &[])),
    Step::Tell(Tell::Vert(V2, Point { x: 4, y: 4, z: 7 }, &[E1, E2, E0], &[])),
];

#[test]
fn a_square_changes(rt: HostRuntime) {
    walk(rt.alloc(), &CHANGED).confirm(&rt);
}

// The corners of the loaded square with their places in the texture.
const PLACED: &[Placed] = &[
    ((V0, E0), [0, 0]),
    ((V1, E1), [5, 0]),
    ((V2, E2), [5, 6]),
    ((V3, E3), [0, 6]),
];

// The same from the second one on.
const TURNED: &[Placed] = &[
    ((V1, E1), [5, 0]),
    ((V2, E2), [5, 6]),
    ((V3, E3), [0, 6]),
    ((V0, E0), [0, 0]),
];

// A corner at a vertex whose edges aren't along the face, and more corners than before.
const CROSSED: &[Placed] = &[
    ((V3, E0), [1, 2]),
    ((V1, E1), [3, 4]),
    ((V2, E1), [5, 6]),
    ((V2, E0), [7, 8]),
    ((V0, E0), [9, 0]),
];

// The face of a loaded square stands on its own corners again, then on them from the second one on, and then on others.
static REFACED: [Step; 15] = [
    Step::Way(Way::Load(Model::Square(7))),
    Step::Change(Change::Reface(F0, PLACED)),
    Step::Tell(Tell::Is(Model::Square(7))),
    Step::Change(Change::Reface(F0, TURNED)),
    Step::Tell(Tell::Face(
        F0,
        &[(V1, E1), (V2, E2), (V3, E3), (V0, E0)],
        &[5, 0, 5, 6, 0, 6, 0, 0],
    )),
    Step::Tell(Tell::Edge(E0, [V0, V1], &[(F0, 3)])),
    Step::Tell(Tell::Counts([4, 4, 1, 4])),
    Step::Change(Change::Reface(F0, CROSSED)),
    Step::Tell(Tell::Corner(F0, 3, (V2, E0), &[7, 8])),
    Step::Tell(Tell::Counts([4, 4, 1, 5])),
    Step::Tell(Tell::CanLose(V3, false)),
    Step::Tell(Tell::CanLose(V0, true)),
    Step::Tell(Tell::CanLose(V1, true)),
    Step::Way(Way::Back),
    Step::Tell(Tell::Is(Model::Square(7))),
];

#[test]
fn a_face_stands_on_other_corners(rt: HostRuntime) {
    walk(rt.alloc(), &REFACED).confirm(&rt);
}

// An end of an edge moves to a vertex behind the one that is there, and a third edge comes and goes with its other end.
static ORDER: [Step; 12] = [
    Step::Make(Make::Vert(V0, Point { x: 0, y: 0, z: 0 })),
    Step::Make(Make::Vert(V1, Point { x: 1, y: 0, z: 0 })),
    Step::Make(Make::Vert(V2, Point { x: 1, y: 1, z: 0 })),
    Step::Make(Make::Vert(V3, Point { x: 0, y: 1, z: 0 })),
    Step::Make(Make::Edge(E0, [V3, V2])),
    Step::Make(Make::Edge(E1, [V0, V1])),
    Step::Change(Change::End(E0, 0, V0)),
    Step::Tell(Tell::Vert(V0, Point { x: 0, y: 0, z: 0 }, &[E1, E0], &[])),
    Step::Make(Make::Edge(E2, [V0, V3])),
    Step::Tell(Tell::Vert(V0, Point { x: 0, y: 0, z: 0 }, &[E1, E0, E2], &[])),
    Step::Kill(Elem::Vert(V3)),
    Step::Tell(Tell::Vert(V0, Point { x: 0, y: 0, z: 0 }, &[E1, E0], &[])),
];

#[test]
fn edges_come_last_around_a_vertex(rt: HostRuntime) {
    walk(rt.alloc(), &ORDER).confirm(&rt);
}

// Elements are made with the values of others. Three faces stand along an edge, and one of them goes.
static EXAMPLES: [Step; 44] = [
    Step::Way(Way::Layer(Kind::Verts)),
    Step::Tell(Tell::Layers([1, 0, 0, 0])),
    Step::Tell(Tell::Layer(Kind::Verts, b"w", 2, Rule::Copy)),
    Step::Make(Make::Vert(V0, Point { x: 0, y: 0, z: 0 })),
    Step::Tell(Tell::Values(Elem::Vert(V0), &[0, 0])),
    Step::Change(Change::Values(Elem::Vert(V0), &[3, -4])),
    Step::Make(Make::VertLike(V1, Point { x: 1, y: 0, z: 0 }, V0)),
    Step::Make(Make::Vert(V2, Point { x: 0, y: 1, z: 0 })),
    Step::Tell(Tell::Values(Elem::Vert(V0), &[3, -4])),
    Step::Tell(Tell::Values(Elem::Vert(V1), &[3, -4])),
    Step::Tell(Tell::Values(Elem::Vert(V2), &[0, 0])),
    Step::Way(Way::Layer(Kind::Edges)),
    Step::Tell(Tell::Counts([0, 0, 0, 0])),
    Step::Tell(Tell::Layer(Kind::Edges, b"w", 2, Rule::Copy)),
    Step::Make(Make::Vert(V0, Point { x: 0, y: 0, z: 0 })),
    Step::Make(Make::Vert(V1, Point { x: 1, y: 0, z: 0 })),
    Step::Make(Make::Edge(E0, [V0, V1])),
    Step::Change(Change::Values(Elem::Edge(E0), &[7, 8])),
    Step::Make(Make::EdgeLike(E1, [V1, V0], E0)),
    Step::Make(Make::Edge(E2, [V1, V0])),
    Step::Tell(Tell::Values(Elem::Edge(E0), &[7, 8])),
    Step::Tell(Tell::Values(Elem::Edge(E1), &[7, 8])),
    Step::Tell(Tell::Values(Elem::Edge(E2), &[0, 0])),
    Step::Tell(Tell::Joining([V0, V1], Some(E0))),
    Step::Way(Way::Load(Model::Square(7))),
    Step::Make(Make::FaceLike(F1, SQUARE_OVER, F0)),
    Step::Make(Make::Face(F2, SQUARE)),
    Step::Tell(Tell::Values(Elem::Face(F0), &[2, 3])),
    Step::Tell(Tell::Values(Elem::Face(F1), &[2, 3])),
    Step::Tell(Tell::Values(Elem::Face(F2), &[0, 0])),
    Step::Tell(Tell::Face(F0, SQUARE, &[0, 0, 5, 0, 5, 6, 0, 6])),
    Step::Tell(Tell::Face(F1, SQUARE_OVER, &[0, 0, 0, 0, 0, 0, 0, 0])),
    Step::Tell(Tell::Places(F1, &[(F1, 0), (F1, 1), (F1, 2), (F1, 3)])),
    Step::Tell(Tell::FacesAlong(E0, &[F0, F1, F2])),
    Step::Tell(Tell::Edge(E0, [V0, V1], &[(F0, 0), (F1, 3), (F2, 0)])),
    Step::Tell(Tell::Least(1, Some(V1), Some(E1), Some(F1))),
    Step::Kill(Elem::Face(F1)),
    Step::Tell(Tell::FacesAlong(E0, &[F0, F2])),
    Step::Tell(Tell::Least(1, Some(V1), Some(E1), Some(F2))),
    Step::Tell(Tell::Least(4, None, None, None)),
    Step::Tell(Tell::Counts([4, 4, 3, 8])),
    Step::Way(Way::Back),
    Step::Tell(Tell::Is(Model::Square(7))),
    Step::Tell(Tell::Least(0, Some(V0), Some(E0), Some(F0))),
];

#[test]
fn elements_have_the_values_of_examples(rt: HostRuntime) {
    walk(rt.alloc(), &EXAMPLES).confirm(&rt);
}

// The face of a square is left for a triangle over its first edge, which then goes with both.
const GROWN: Kept = Kept {
    next: [4, 4, 1],
    were: &[Elem::Edge(E0), Elem::Face(F0)],
    came: &[Elem::Vert(V4), Elem::Edge(E4), Elem::Edge(E5)],
};

// This comes about, is kept and gone back from, twice, and then becomes the base.
static WAY_BACK: [Step; 34] = [
    Step::Way(Way::Load(Model::Square(0))),
    Step::Way(Way::Reserve([1, 2, 3, 1])),
    Step::Way(Way::ReserveNotes([5, 6, 7, 2])),
    Step::Way(Way::Mark),
    Step::Tell(Tell::Is(Model::Square(0))),
    Step::Make(Make::Vert(V4, Point { x: 0, y: 0, z: 4 })),
    Step::Make(Make::Edge(E4, [V1, V4])),
    Step::Make(Make::Edge(E5, [V4, V0])),
    Step::Make(Make::Face(F1, TRIANGLE)),
    Step::Tell(Tell::FacesAlong(E0, &[F0, F1])),
    Step::Kill(Elem::Edge(E0)),
    Step::Tell(Tell::Names(&[V0, V1, V2, V3, V4], &[E1, E2, E3, E4, E5], &[])),
    Step::Tell(Tell::Counts([5, 6, 2, 0])),
    Step::Way(Way::Keep(GROWN)),
    Step::Way(Way::Back),
    Step::Tell(Tell::Is(Model::Square(0))),
    Step::Make(Make::Vert(V4, Point { x: 0, y: 0, z: 4 })),
    Step::Make(Make::Edge(E4, [V1, V4])),
    Step::Make(Make::Edge(E5, [V4, V0])),
    Step::Make(Make::Face(F1, TRIANGLE)),
    Step::Kill(Elem::Edge(E0)),
    Step::Way(Way::Keep(GROWN)),
    Step::Way(Way::Exchange([4, 4, 1, 4])),
    Step::Way(Way::Keep(Kept {
        next: [5, 6, 2],
        were: &[],
        came: &[],
    })),
    Step::Kill(Elem::Vert(V1)),
    Step::Way(Way::Keep(Kept {
        next: [5, 6, 2],
        were: &[Elem::Vert(V1), Elem::Edge(E1), Elem::Edge(E4)],
        came: &[],
    })),
    Step::Way(Way::Back),
    Step::Tell(Tell::Vert(V1, Point { x: 4, y: 0, z: 0 }, &[E1, E4], &[])),
    Step::Way(Way::Back),
    Step::Tell(Tell::Counts([5, 6, 2, 0])),
    Step::Tell(Tell::Vert(V1, Point { x: 4, y: 0, z: 0 }, &[E1, E4], &[])),
    Step::Way(Way::Exchange([5, 6, 2, 0])),
    Step::Way(Way::LeadBack),
    Step::Tell(Tell::Is(Model::Square(0))),
];

#[test]
fn a_changed_square_goes_back(rt: HostRuntime) {
    walk(rt.alloc(), &WAY_BACK).confirm(&rt);
}

// A mesh that was never marked goes back to nothing.
static NEVER_MARKED: [Step; 9] = [
    Step::Make(Make::Vert(V0, Point { x: 0, y: 0, z: 0 })),
    Step::Make(Make::Vert(V1, Point { x: 2, y: 0, z: 0 })),
    Step::Make(Make::Edge(E0, [V1, V0])),
    Step::Way(Way::Keep(Kept {
        next: [0, 0, 0],
        were: &[],
        came: &[Elem::Vert(V0), Elem::Vert(V1), Elem::Edge(E0)],
    })),
    Step::Way(Way::Back),
    Step::Tell(Tell::Counts([0, 0, 0, 0])),
    Step::Tell(Tell::Names(&[], &[], &[])),
    Step::Make(Make::Vert(V0, Point { x: 5, y: 0, z: 0 })),
    Step::Way(Way::Exchange([0, 0, 0, 0])),
];

#[test]
fn an_unmarked_mesh_goes_back_to_nothing(rt: HostRuntime) {
    walk(rt.alloc(), &NEVER_MARKED).confirm(&rt);
}

// A hundred thousand edges end at a vertex: each comes and goes in constant time.
static HUB: [Step; 9] = [
    Step::Make(Make::Vert(V0, Point { x: 0, y: 0, z: 0 })),
    Step::Many(Many::Spokes(100_000)),
    Step::Tell(Tell::Spokes(0, 100_000)),
    Step::Many(Many::Edges(50_000)),
    Step::Tell(Tell::Spokes(50_000, 100_000)),
    Step::Kill(Elem::Vert(V0)),
    Step::Tell(Tell::Gone(Elem::Vert(V0))),
    Step::Tell(Tell::Least(0, Some(V1), None, None)),
    Step::Tell(Tell::Counts([100_001, 100_000, 0, 0])),
];

#[test]
fn a_hundred_thousand_edges_at_a_vertex(rt: HostRuntime) {
    walk(rt.alloc(), &HUB).confirm(&rt);
}

// Every second of ten thousand faces goes, and comes back.
static GRID: [Step; 8] = [
    Step::Way(Way::Load(Model::Grid(100))),
    Step::Tell(Tell::Counts([10_201, 20_200, 10_000, 40_000])),
    Step::Many(Many::Faces(10_000)),
    Step::Tell(Tell::Least(
        5_000,
        Some(VertName(5_000)),
        Some(EdgeName(5_000)),
        Some(FaceName(5_001)),
    )),
    Step::Tell(Tell::Counts([10_201, 20_200, 10_000, 20_000])),
    Step::Way(Way::Back),
    Step::Tell(Tell::Counts([10_201, 20_200, 10_000, 40_000])),
    Step::Tell(Tell::Is(Model::Grid(100))),
];

#[test]
fn ten_thousand_faces_go_back(rt: HostRuntime) {
    walk(rt.alloc(), &GRID).confirm(&rt);
}
