//! What is kept of each element.

use crate::names::{EdgeName, VertName};
use sequence::Sequence;

/// Three whole numbers, in units of the grid. A point is on the grid where each is from -1,000,000,000 to
/// 1,000,000,000.
#[derive(Clone, Copy, Debug, PartialEq, Eq)]
pub struct Point {
    pub x: i64,
    pub y: i64,
    pub z: i64,
}

/// The numbers that an element has in the layers of its kind, layer after layer.
pub type Vals = Sequence<i64>;

/// A vertex.
#[derive(Debug, Drop)]
pub struct VertRec {
    pub point: Point,
    pub vals: Vals,
}

/// An edge from `a` to `b`.
#[derive(Debug, Drop)]
pub struct EdgeRec {
    pub a: VertName,
    pub b: VertName,
    pub vals: Vals,
}

/// A corner of a face: its vertex, and the edge from there to the next corner's vertex.
#[derive(Debug, Drop)]
pub struct CornerRec {
    pub vert: VertName,
    pub edge: EdgeName,
    pub vals: Vals,
}

/// The corners of a face, in order round it.
pub type Corners = Sequence<CornerRec>;

/// A face.
#[derive(Debug, Drop)]
pub struct FaceRec {
    pub corners: Corners,
    pub vals: Vals,
}

/// The next name of each kind of element, and the number of live corners.
#[derive(Clone, Copy, Debug, PartialEq, Eq)]
pub struct Counters {
    pub verts: u32,
    pub edges: u32,
    pub faces: u32,
    pub corners: u32,
}
