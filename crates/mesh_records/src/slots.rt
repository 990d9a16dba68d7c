//! The slots to which names lead.
ghost use Rattle.std.specs.Prelude.{◌≡◌, is_some, true, Some};
ghost use Rattle.std.specs.Option.{option_and_then};
ghost use Rattle.mesh_store.specs.Slots.{at};

use mesh_model::{EdgeName, FaceName, VertName};
use mesh_store::{Slot, Store};

/// The slot of a live vertex.
pub fn slot_of_vert(st: &Store, name: u32) -> Slot
    requires { is_some (at st.now.verts.names name) ≡ true }
    ensures { at st.now.verts.names name ≡ Some result }
{
    st.vert_slot(name).unwrap()
}

/// The slot of a live edge.
pub fn slot_of_edge(st: &Store, name: u32) -> Slot
    requires { is_some (at st.now.edges.names name) ≡ true }
    ensures { at st.now.edges.names name ≡ Some result }
{
    st.edge_slot(name).unwrap()
}

/// The slot of a live face.
pub fn slot_of_face(st: &Store, name: u32) -> Slot
    requires { is_some (at st.now.faces.names name) ≡ true }
    ensures { at st.now.faces.names name ≡ Some result }
{
    st.face_slot(name).unwrap()
}

/// The slot of a vertex that is an example, if there is one.
pub fn vert_like(st: &Store, example: Option<VertName>) -> Option<Slot>
    ensures { result ≡ option_and_then (λ v. at st.now.verts.names v.0) example }
{
    match example {
        None => None,
        Some(v) => st.vert_slot(v.0),
    }
}

/// The slot of an edge that is an example, if there is one.
pub fn edge_like(st: &Store, example: Option<EdgeName>) -> Option<Slot>
    ensures { result ≡ option_and_then (λ e. at st.now.edges.names e.0) example }
{
    match example {
        None => None,
        Some(e) => st.edge_slot(e.0),
    }
}

/// The slot of a face that is an example, if there is one.
pub fn face_like(st: &Store, example: Option<FaceName>) -> Option<Slot>
    ensures { result ≡ option_and_then (λ f. at st.now.faces.names f.0) example }
{
    match example {
        None => None,
        Some(f) => st.face_slot(f.0),
    }
}
