//! Room for elements that are to come.
ghost use Rattle.std.specs.Prelude.{◌≤◌, ◌+◌, ◌^◌, [], ◌∷◌, OnOk, IsOk};
ghost use Rattle.mesh_store.specs.Room.{HasRoom};
ghost use Rattle.mesh_records.specs.Places.{KeepsPlaces};
ghost use Rattle.mesh_records.specs.Room.{room_in, Covers, none_of_all};
ghost use Rattle.mesh_records.specs.Frames.{StaysWhole};
ghost use Rattle.mesh_records.specs.Whole.{IsWhole};

use mesh_model::{Counters, NoMemory};
use mesh_store::{Part, Store};

/// Makes room for so many more elements in the store of a mesh, which stays as it is. After `NoMemory` some of it may
/// have been made. It takes time that grows with what is made.
pub fn make_room(
    st: &mut Store,
    next: Counters,
    verts: u32,
    edges: u32,
    corners: u32,
    faces: u32,
) -> Result<(), NoMemory>
    requires whole { IsWhole st.old next }
    requires verts { verts ≤ 2 ^ 24 }
    requires edges { edges ≤ 2 ^ 24 }
    requires corners { corners ≤ 2 ^ 24 }
    requires faces { faces ≤ 2 ^ 24 }
    ensures stays { StaysWhole st.old st.new next }
    ensures places { KeepsPlaces none_of_all st.old st.new }
    ensures ok { OnOk result (HasRoom st.new verts edges corners faces
        ((next.verts + verts) ∷ (next.edges + edges) ∷ (next.faces + faces) ∷ [])) }
    ensures enough { Covers (room_in st.old next)
        (record { verts = verts; edges = edges; corners = corners; faces = faces }) → IsOk result }
{
    let made = st.reserve(
        verts as usize,
        edges as usize,
        corners as usize,
        faces as usize,
        [next.verts + verts, next.edges + edges, next.faces + faces],
    );
    // Read for its contract, which says that each place has a row of values.
    let _ = st.places(Part::Vert);
    made
}
