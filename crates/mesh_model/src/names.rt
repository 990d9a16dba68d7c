//! Names of elements. Each kind draws its numbers in rising order from 0.

use std::fmt;

/// The name of a vertex, printed `v3`.
#[derive(Clone, Copy, Debug, PartialEq, Eq, PartialOrd, Ord, Hash)]
pub struct VertName(pub u32);

/// The name of an edge, printed `e3`.
#[derive(Clone, Copy, Debug, PartialEq, Eq, PartialOrd, Ord, Hash)]
pub struct EdgeName(pub u32);

/// The name of a face, printed `f3`.
#[derive(Clone, Copy, Debug, PartialEq, Eq, PartialOrd, Ord, Hash)]
pub struct FaceName(pub u32);

/// An element by its name.
#[derive(Clone, Copy, Debug, PartialEq, Eq, PartialOrd, Ord, Hash)]
pub enum Elem {
    Vert(VertName),
    Edge(EdgeName),
    Face(FaceName),
}

/// A kind of element, or the corners of faces.
#[derive(Clone, Copy, Debug, PartialEq, Eq)]
pub enum Kind {
    Verts,
    Edges,
    Corners,
    Faces,
}

impl fmt::Display for Elem {
    ghost use Rattle.std.specs.Prelude.{Some};
    ghost use Rattle.mesh_model.specs.Words.{elem_text};

    ghost output = { λ x. Some (elem_text x) };

    fn fmt<W: fmt::Write>(&self, f: &mut fmt::Formatter<W>) -> fmt::Result {
        match *self {
            Elem::Vert(VertName(n)) => write!(f, "v{n}"),
            Elem::Edge(EdgeName(n)) => write!(f, "e{n}"),
            Elem::Face(FaceName(n)) => write!(f, "f{n}"),
        }
    }
}

impl fmt::Display for Kind {
    ghost use Rattle.std.specs.Prelude.{Some};
    ghost use Rattle.mesh_model.specs.Words.{kind_text};

    ghost output = { λ kind. Some (kind_text kind) };

    fn fmt<W: fmt::Write>(&self, f: &mut fmt::Formatter<W>) -> fmt::Result {
        match self {
            Kind::Verts => write!(f, "verts"),
            Kind::Edges => write!(f, "edges"),
            Kind::Corners => write!(f, "corners"),
            Kind::Faces => write!(f, "faces"),
        }
    }
}
