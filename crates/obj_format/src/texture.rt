//! Places in the texture.

/// A place in the texture, in millionths.
#[derive(Clone, Copy, Debug, PartialEq, Eq, Hash)]
pub struct Uv {
    pub u: i64,
    pub v: i64,
}
