//! What was read so far.

use crate::named_draft::NamedDraft;
use mesh_model::Sequence;
use obj_format::Uv;

/// The greatest number of texture items.
pub const MAX_TEXTURES: u32 = 4_194_304;

/// What was read so far.
#[derive(Drop)]
pub struct Parts {
    pub draft: NamedDraft,
    pub textures: Sequence<Uv>,
    pub normals: u32,
    /// The material of the faces that follow, counted from 1; 0 is none.
    pub material: i64,
    /// The smoothing group of the faces that follow; 0 is none.
    pub smooth: i64,
}
