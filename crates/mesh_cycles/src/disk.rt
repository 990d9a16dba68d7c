//! Disk cycles: the darts around a vertex.
ghost use Rattle.std.specs.Prelude.{◌≡◌, [], ◌∷◌, ◌++◌, Some, IsTrue};
ghost use Rattle.std.specs.Option.{option_map};
ghost use Rattle.raw_pool.specs.Slots.{IsLive};
ghost use Rattle.link_ring.specs.Members.{HasMember};
ghost use Rattle.mesh_store.specs.Stored.{dart_links, with_first_edge, change_vert};
ghost use Rattle.mesh_cycles.specs.Owners.{dart_end, first_dart};
ghost use Rattle.mesh_cycles.specs.Lists.{same_dart, without};
ghost use Rattle.mesh_cycles.specs.Cycles.{AreCycles, disk_of, IsInNoDisk};
ghost use Rattle.mesh_cycles.specs.Edits.{EditsDisk};

use crate::members::{push_last, take_member};
use mesh_store::{Dart, Slot, Store};

/// Puts a dart last in the disk cycle of its vertex.
///
/// The vertex and the dart's edge are live, the dart ends at the vertex, and it is in no disk cycle. Constant time.
pub fn disk_add(st: &mut Store, v: Slot, d: Dart)
    requires cycles { AreCycles st.old }
    requires live { IsLive st.old.verts.cells v.0 }
    requires dart { IsTrue ((dart_links st.old).has d) }
    requires end { dart_end st.old d ≡ Some v.0 }
    requires apart { IsInNoDisk st.old d }
    ensures { EditsDisk st.old st.new v.0 (d ∷ disk_of st.old v.0) (disk_of st.old v.0 ++ d ∷ []) }
{
    let first = first_dart(st, v);
    let head = push_last(st, first, d);
    set_first_dart(st, v, head);
}

/// Takes a dart out of the disk cycle of its vertex. The others keep their order, and the dart behind a first one comes
/// first.
///
/// The vertex is live, and the dart is in its disk cycle. Constant time.
pub fn disk_remove(st: &mut Store, v: Slot, d: Dart)
    requires cycles { AreCycles st.old }
    requires live { IsLive st.old.verts.cells v.0 }
    requires member { HasMember (disk_of st.old v.0) d }
    ensures edits { EditsDisk st.old st.new v.0 (disk_of st.old v.0) (without same_dart d (disk_of st.old v.0)) }
    ensures out { IsInNoDisk st.new d }
{
    let first = first_dart(st, v);
    let head = take_member(st, first, d);
    set_first_dart(st, v, head);
}

/// The dart with which the disk cycle of a live vertex begins: that of its first edge. Constant time.
pub fn first_dart(st: &Store, v: Slot) -> Option<Dart>
    requires live { IsLive st.now.verts.cells v.0 }
    requires cycles { AreCycles st.now }
    ensures { result ≡ first_dart st.now v.0 }
{
    match st.first_edge(v) {
        None => None,
        Some(edge) => Some(Dart {
            edge,
            side: if st.ends(edge)[0] == v { 0 } else { 1 },
        }),
    }
}

// Writes a vertex's first edge by its first dart.
fn set_first_dart(st: &mut Store, v: Slot, head: Option<Dart>)
    requires { IsLive st.old.verts.cells v.0 }
    ensures { st.new ≡ change_vert (with_first_edge (option_map (λ d. d.edge) head)) st.old v.0 }
{
    st.set_first_edge(v, head.map(|dart| dart.edge));
}
