//! What kinds of elements an argument takes.

/// The kinds that an argument takes: one, or all three.
#[derive(Clone, Copy, Debug, PartialEq, Eq)]
pub enum Want {
    Verts,
    Edges,
    Faces,
    Any,
}
