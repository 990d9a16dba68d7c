//! Steps of tests.

use mesh_model::{EdgeName, Elem, FaceName, Kind, Point, Rule, VertName};

/// Something that is done to a mesh or read of it, with what is to come of it.
#[derive(Clone, Copy)]
pub(crate) enum Step {
    Make(Make),
    Kill(Elem),
    Change(Change),
    Way(Way),
    Tell(Tell),
    Many(Many),
}

/// An element is made and gets this name.
#[derive(Clone, Copy)]
pub(crate) enum Make {
    /// At a point.
    Vert(VertName, Point),
    /// From one vertex to another.
    Edge(EdgeName, [VertName; 2]),
    /// On corners.
    Face(FaceName, &'static [Side]),
    /// At a point, with the values of a vertex.
    VertLike(VertName, Point, VertName),
    /// From one vertex to another, with the values of an edge.
    EdgeLike(EdgeName, [VertName; 2], EdgeName),
    /// On corners, with the values of a face.
    FaceLike(FaceName, &'static [Side], FaceName),
}

/// A vertex and the edge along which a face goes from it.
pub(crate) type Side = (VertName, EdgeName);

/// A corner with its place in the texture.
pub(crate) type Placed = (Side, [i64; 2]);

/// What is there changes.
#[derive(Clone, Copy)]
pub(crate) enum Change {
    /// A vertex moves to a point.
    Point(VertName, Point),
    /// An end of an edge, 0 or 1, moves to a vertex.
    End(EdgeName, u8, VertName),
    /// A face is turned over.
    Over(FaceName),
    /// A corner comes into a face at a position, with its values.
    Insert(FaceName, u32, Side, &'static [i64]),
    /// The corner at a position goes out of a face.
    Remove(FaceName, u32),
    /// A face stands on other corners.
    Reface(FaceName, &'static [Placed]),
    /// An element gets values.
    Values(Elem, &'static [i64]),
    /// The corner of a face at a position gets values.
    CornerValues(FaceName, u32, &'static [i64]),
}

/// Many steps of one kind.
#[derive(Clone, Copy)]
pub(crate) enum Many {
    /// So many vertices are made, each with an edge from vertex 0.
    Spokes(u32),
    /// The edges of the names below a number are killed.
    Edges(u32),
    /// Every second face of the names below a number is killed, from face 0 on.
    Faces(u32),
}

/// A model that is made by itself.
#[derive(Clone, Copy)]
pub(crate) enum Model {
    /// A square with the height of its third vertex.
    Square(i64),
    /// A grid of so many faces a side.
    Grid(u32),
}

/// The mesh goes some way as a whole.
#[derive(Clone, Copy)]
pub(crate) enum Way {
    /// A model is loaded.
    Load(Model),
    /// An empty mesh is loaded, with a layer of a kind.
    Layer(Kind),
    /// Room is made for so many elements of each kind: vertices, edges, corners and faces.
    Reserve([usize; 4]),
    /// Room is made for so many notes of each kind.
    ReserveNotes([usize; 4]),
    Mark,
    /// The same, where the base before has these next names and so many corners.
    Exchange([u32; 4]),
    Back,
    /// The changes since the base are these.
    Keep(Kept),
    /// A square is loaded and changed and goes back, and a past that was kept leads it back from the same changes.
    LeadBack,
}

/// The changes from a mesh back to its base.
#[derive(Clone, Copy)]
pub(crate) struct Kept {
    /// The next names of the base.
    pub(crate) next: [u32; 3],
    /// The elements that are in the base, and are gone or others now.
    pub(crate) were: &'static [Elem],
    /// The elements that aren't in the base.
    pub(crate) came: &'static [Elem],
}

/// Something is read.
#[derive(Clone, Copy)]
pub(crate) enum Tell {
    /// The next names of vertices, edges and faces, and the number of corners.
    Counts([u32; 4]),
    /// The names that are there.
    Names(&'static [VertName], &'static [EdgeName], &'static [FaceName]),
    /// An element isn't there.
    Gone(Elem),
    /// The point of a vertex, the edges around it in order, and the corners at it.
    Vert(VertName, Point, &'static [EdgeName], &'static [(FaceName, u32)]),
    /// The faces at a vertex.
    FacesAt(VertName, &'static [FaceName]),
    /// The ends of an edge, and the corners along it in order.
    Edge(EdgeName, [VertName; 2], &'static [(FaceName, u32)]),
    /// The faces along an edge.
    FacesAlong(EdgeName, &'static [FaceName]),
    /// The edge of the least name that joins two vertices.
    Joining([VertName; 2], Option<EdgeName>),
    /// The corners of a face, and their rows of values one behind another.
    Face(FaceName, &'static [Side], &'static [i64]),
    /// The corner of a face at a position, and its values.
    Corner(FaceName, u32, Side, &'static [i64]),
    /// The values of an element.
    Values(Elem, &'static [i64]),
    /// The first layer of a kind, where the mesh has one: its name, its width and its rule.
    Layer(Kind, &'static [u8], u8, Rule),
    /// The numbers of layers of vertices, edges, corners and faces.
    Layers([usize; 4]),
    /// A material by its position.
    Material(usize, Option<&'static [u8]>),
    /// A library by its position.
    Library(usize, Option<&'static [u8]>),
    /// Whether a vertex can go with its edges and the faces along these.
    CanLose(VertName, bool),
    /// The edges around vertex 0 are those of the names from one number to another, in order.
    Spokes(u32, u32),
    /// The corners of a face by their places.
    Places(FaceName, &'static [(FaceName, u32)]),
    /// The least names from a number on.
    Least(u32, Option<VertName>, Option<EdgeName>, Option<FaceName>),
    /// The mesh is this model.
    Is(Model),
    /// The mesh has the parts of its snapshot.
    Snapshot,
    /// The mesh has the parts of its copy.
    Copy,
}
