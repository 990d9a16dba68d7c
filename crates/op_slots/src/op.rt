//! Operators with their arguments.

use crate::term::{Expr, MapArg};
use mesh_model::{Kind, Point, Vals, VertName};
use sequence::{Sequence, Text};

/// Vertices in the order given.
pub type Names = Sequence<VertName>;

/// A coordinate.
#[derive(Clone, Copy, Debug, PartialEq, Eq)]
pub enum Axis {
    X,
    Y,
    Z,
}

/// What is deleted beside the elements that are named.
#[derive(Clone, Copy, Debug, PartialEq, Eq)]
pub enum Context {
    /// The named vertices, their edges and the faces with them.
    Verts,
    /// The named edges, the faces with them, and their ends that are bare.
    Edges,
    /// The named edges and the faces with them.
    EdgesFaces,
    /// The named faces alone.
    FacesOnly,
    /// The named faces, their edges that no other face uses, and their vertices that are bare.
    Faces,
    /// The named faces, their edges with at least two corners, all in these faces, and their vertices that
    /// are bare.
    FacesKeepBoundary,
}

/// How a face is cut into triangles.
#[derive(Clone, Copy, Debug, PartialEq, Eq)]
pub enum Method {
    /// From its first corner.
    Fan,
    /// Ear by ear.
    Ear,
}

/// An operator with its arguments. Each names what it works on; points and distances are in units of the grid.
#[derive(Debug, Drop)]
pub enum Op {
    /// Makes a vertex.
    MakeVert {
        at: Point,
    },
    /// Makes an edge between two vertices.
    MakeEdge {
        verts: Names,
    },
    /// Makes a face and the edges that it lacks.
    MakeFace {
        verts: Names,
    },
    /// Sets the values of a layer.
    Set {
        of: Kind,
        geom: Expr,
        layer: Text,
        values: Vals,
    },
    /// Moves vertices.
    Translate {
        verts: Expr,
        by: Point,
    },
    /// Scales about a point by a ratio.
    Scale {
        verts: Expr,
        about: Point,
        num: i64,
        den: i64,
    },
    /// Mirrors one coordinate.
    Mirror {
        verts: Expr,
        axis: Axis,
        about: i64,
    },
    /// Turns faces over.
    Reverse {
        faces: Expr,
    },
    /// Copies elements.
    Duplicate {
        geom: Expr,
    },
    /// Copies elements and takes the old ones away.
    Split {
        geom: Expr,
    },
    /// Deletes elements.
    Delete {
        geom: Expr,
        context: Context,
    },
    /// Cuts a face between two of its vertices.
    Connect {
        verts: Names,
    },
    /// Merges faces over edges.
    DissolveEdges {
        edges: Expr,
    },
    /// Merges faces that touch.
    DissolveFaces {
        faces: Expr,
    },
    /// Takes vertices away and merges what is around them.
    DissolveVerts {
        verts: Expr,
    },
    /// Extrudes a region of faces.
    ExtrudeRegion {
        faces: Expr,
    },
    /// Extrudes edges to faces.
    ExtrudeEdges {
        edges: Expr,
    },
    /// Extrudes vertices to edges.
    ExtrudeVerts {
        verts: Expr,
    },
    /// Joins two rings of edges by faces.
    Bridge {
        a: Expr,
        b: Expr,
    },
    /// Cuts edges, and the faces all of whose four edges are cut.
    Subdivide {
        edges: Expr,
        cuts: i64,
    },
    /// Moves vertices onto others.
    Weld {
        map: MapArg,
    },
    /// Welds vertices that are near to each other.
    MergeDoubles {
        verts: Expr,
        dist: i64,
    },
    /// Shrinks edges to points.
    Collapse {
        edges: Expr,
    },
    /// Cuts a mesh open along edges.
    EdgeSplit {
        edges: Expr,
    },
    /// Cuts faces into triangles.
    Triangulate {
        faces: Expr,
        method: Method,
    },
    /// Cuts faces into triangles about their middles.
    Poke {
        faces: Expr,
    },
}
