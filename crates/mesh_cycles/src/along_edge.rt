//! Along an edge: its loops, and their faces.
ghost use Rattle.std.specs.Prelude.{◌≡◌, []};
ghost use Rattle.std.specs.List.{find};
ghost use Rattle.std.specs.Iterator.{YieldsFirst, item_count};
ghost use Rattle.raw_pool.specs.Slots.{IsLive};
ghost use Rattle.link_ring.specs.Members.{HasMember, AllDistinct};
ghost use Rattle.mesh_cycles.specs.Cycles.{AreCycles};
ghost use Rattle.mesh_cycles.specs.Found.{AllLive, loops_along, loops_in, faces_along, goes_along, leads};
ghost use Rattle.mesh_cycles.specs.Left.{loops_along_left, CanGiveLoopsAlong};
ghost use Rattle.mesh_cycles.specs.Faces.{faces_along_left, CanGiveFacesAlong, AreFacesAlong};

use crate::cycle_iter::{CycleIter, members_of};
use crate::in_face::corners_of_face;
use crate::leader::{is_alone, own_or_first};
use crate::radial::first_radial;
use mesh_store::{Radial, Slot, Store};
use std::iter::FusedIterator;

/// An iterator over the loops along an edge, which [`loops_of_edge`] makes.
///
/// After the last loop it answers `None` for ever. An item takes constant time.
#[derive(Drop)]
#[must_use]
pub struct LoopsOfEdge<'a> {
    loops: CycleIter<'a, Radial, Store>,
}

impl<'a> Iterator for LoopsOfEdge<'a> {
    type Item = Slot;

    ghost can_next = { CanGiveLoopsAlong };

    ghost next_gives = { YieldsFirst loops_along_left };

    ghost remaining = { item_count loops_along_left };

    fn next(&mut self) -> Option<Slot> {
        let member = self.loops.next()?;
        Some(member.0)
    }
}

impl<'a> FusedIterator for LoopsOfEdge<'a> {}

/// The loops along a live edge, along its radial cycle from its first loop on, each once. Constant time.
pub fn loops_of_edge(st: &Store, e: Slot) -> LoopsOfEdge<'_>
    requires cycles { AreCycles st.now }
    requires live { IsLive st.now.edges.cells e.0 }
    ensures items { loops_along_left result ≡ loops_along st.now e.0 }
    ensures once { AllDistinct (loops_along st.now e.0) }
    ensures live { AllLive st.now.loops (loops_along st.now e.0) }
    ensures ready { CanGiveLoopsAlong result }
{
    LoopsOfEdge {
        loops: members_of(st, first_radial(st, e)),
    }
}

/// No loops.
pub(crate) fn no_loops(st: &Store) -> LoopsOfEdge<'_>
    ensures none { loops_along_left result ≡ [] }
    ensures ready { CanGiveLoopsAlong result }
{
    LoopsOfEdge {
        loops: members_of(st, None),
    }
}

/// An iterator over the faces along an edge, which [`faces_of_edge`] makes.
///
/// After the last face it answers `None` for ever. Each loop passed over takes a walk along the edge, or as many steps
/// as its face has corners, where these are fewer. Where a face has several loops along the edge, each takes that walk
/// and those steps.
#[derive(Drop)]
#[must_use]
pub struct FacesOfEdge<'a> {
    st: &'a Store,
    edge: Slot,
    // The loops to come.
    loops: LoopsOfEdge<'a>,
}

impl<'a> Iterator for FacesOfEdge<'a> {
    type Item = Slot;

    ghost can_next = { CanGiveFacesAlong };

    ghost next_gives = { YieldsFirst faces_along_left };

    ghost remaining = { item_count faces_along_left };

    fn next(&mut self) -> Option<Slot> {
        while let Some(l) = self.loops.next() {
            if leads_along(self.st, self.edge, l) {
                return Some(self.st.loop_face(l));
            }
        }
        None
    }
}

impl<'a> FusedIterator for FacesOfEdge<'a> {}

/// The live faces of the loops along a live edge, each once. Constant time.
///
/// A face comes with the first loop of its own cycle along the edge, if the edge's cycle has that, and else with the
/// first loop of the edge's cycle that names it. So none is left out (`all`), not even one whose own cycle is half
/// built.
pub fn faces_of_edge(st: &Store, e: Slot) -> FacesOfEdge<'_>
    requires cycles { AreCycles st.now }
    requires live { IsLive st.now.edges.cells e.0 }
    ensures items { faces_along_left result ≡ faces_along st.now e.0 }
    ensures once { AllDistinct (faces_along st.now e.0) }
    ensures all { AreFacesAlong st.now e.0 }
    ensures ready { CanGiveFacesAlong result }
{
    FacesOfEdge {
        st,
        edge: e,
        loops: loops_of_edge(st, e),
    }
}

// Whether a face comes with this loop of it along a live edge.
fn leads_along(st: &Store, e: Slot, l: Slot) -> bool
    requires cycles { AreCycles st.now }
    requires live { IsLive st.now.edges.cells e.0 }
    requires member { HasMember (loops_along st.now e.0) l }
    ensures { result ≡ leads st.now (goes_along st.now e.0) (loops_along st.now e.0) l }
{
    let f = st.loop_face(l);
    if !st.has_face(f) {
        return false;
    }
    // A loop that alone names its face needs no walk of the face.
    let loops = loops_of_edge(st, e);
    if is_alone(st, loops, l, f, st.face_len(f)) {
        return true;
    }
    let own = first_along(st, f, e);
    own == Some(l) || own_or_first(st, own, loops_of_edge(st, e), f) == Some(l)
}

// The first loop of a live face's own cycle along an edge.
fn first_along(st: &Store, f: Slot, e: Slot) -> Option<Slot>
    requires cycles { AreCycles st.now }
    requires live { IsLive st.now.faces.cells f.0 }
    ensures { result ≡ find (goes_along st.now e.0) (loops_in st.now f.0) }
{
    for l in corners_of_face(st, f) {
        if st.loop_edge(l) == e {
            return Some(l);
        }
    }
    None
}
