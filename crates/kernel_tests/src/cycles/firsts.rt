//! The members with which cycles begin, where there are any.
ghost use Rattle.std.specs.Prelude.{◌≡◌, Some};
ghost use Rattle.raw_pool.specs.Slots.{IsLive};
ghost use Rattle.link_ring.specs.Members.{HasMember};
ghost use Rattle.mesh_cycles.specs.Owners.{first_dart, first_radial, first_round};
ghost use Rattle.mesh_cycles.specs.Cycles.{AreCycles, disk_of, radial_of, round_of};

use crate::confirm::given;
use mesh_cycles::{first_dart, first_radial, first_round};
use mesh_store::{Dart, Radial, Round, Slot, Store};
use std::process::Abort;

/// The first dart around a vertex.
pub(super) fn some_dart(rt: &impl Abort, st: &Store, vert: Slot) -> Dart
    requires cycles { AreCycles st.now }
    requires live { IsLive st.now.verts.cells vert.0 }
    ensures first { first_dart st.now vert.0 ≡ Some result }
    ensures member { HasMember (disk_of st.now vert.0) result }
{
    given(rt, "an edge at the vertex", first_dart(st, vert))
}

/// The first loop along an edge.
pub(super) fn some_radial(rt: &impl Abort, st: &Store, edge: Slot) -> Radial
    requires cycles { AreCycles st.now }
    requires live { IsLive st.now.edges.cells edge.0 }
    ensures first { first_radial st.now edge.0 ≡ Some result }
    ensures member { HasMember (radial_of st.now edge.0) result }
{
    given(rt, "a loop along the edge", first_radial(st, edge))
}

/// The first loop around a face.
pub(super) fn some_round(rt: &impl Abort, st: &Store, face: Slot) -> Round
    requires cycles { AreCycles st.now }
    requires live { IsLive st.now.faces.cells face.0 }
    ensures first { first_round st.now face.0 ≡ Some result }
    ensures member { HasMember (round_of st.now face.0) result }
{
    given(rt, "a loop around the face", first_round(st, face))
}
