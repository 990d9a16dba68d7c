//! The slots of live elements, by name.
ghost use Rattle.raw_pool.specs.Slots.{IsLive};

use crate::confirm::given;
use mesh_store::{Slot, Store};
use std::process::Abort;

/// The slot of a live vertex.
pub(crate) fn vert(rt: &impl Abort, st: &Store, name: u32) -> Slot
    ensures { IsLive st.now.verts.cells result.0 }
{
    given(rt, "a vertex of the name", st.vert_slot(name))
}

/// The slot of a live edge.
pub(crate) fn edge(rt: &impl Abort, st: &Store, name: u32) -> Slot
    ensures { IsLive st.now.edges.cells result.0 }
{
    given(rt, "an edge of the name", st.edge_slot(name))
}

/// The slot of a live face.
pub(crate) fn face(rt: &impl Abort, st: &Store, name: u32) -> Slot
    ensures { IsLive st.now.faces.cells result.0 }
{
    given(rt, "a face of the name", st.face_slot(name))
}
