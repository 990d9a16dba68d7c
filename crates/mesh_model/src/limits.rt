//! The limits of a model. A command that would pass one is refused, and a text that does is not accepted.

/// The greatest coordinate and value of a layer, in units of the grid; the least is its opposite.
pub const MAX_VALUE: i64 = 1_000_000_000;

/// How many vertices can be named.
pub const MAX_VERTS: u32 = 1_048_576;

/// How many edges can be named.
pub const MAX_EDGES: u32 = 2_097_152;

/// How many faces can be named.
pub const MAX_FACES: u32 = 1_048_576;

/// How many corners of faces can be there at once.
pub const MAX_CORNERS: u32 = 4_194_304;

/// How many corners a face has at least.
pub const MIN_SIDES: u32 = 3;

/// How many corners a face has at most.
pub const MAX_SIDES: u32 = 4_096;
