//! Around a vertex: its edges, their loops that stand at it, and the faces of these.
ghost use Rattle.std.specs.Prelude.{◌≡◌};
ghost use Rattle.std.specs.List.{find};
ghost use Rattle.std.specs.Iterator.{YieldsFirst, item_count};
ghost use Rattle.raw_pool.specs.Slots.{IsLive};
ghost use Rattle.link_ring.specs.Members.{HasMember, AllDistinct};
ghost use Rattle.mesh_cycles.specs.Cycles.{AreCycles, AreComplete};
ghost use Rattle.mesh_cycles.specs.Found.{AllLive, edges_around, loops_around, loops_in, faces_around, ends_at, is_corner_at, leads};
ghost use Rattle.mesh_cycles.specs.Left.{edges_around_left, CanGiveEdgesAround, loops_along_left, CanGiveLoopsAlong};
ghost use Rattle.mesh_cycles.specs.Around.{loops_around_left, CanGiveLoopsAround, standing_left, AreCornersAt};
ghost use Rattle.mesh_cycles.specs.Faces.{faces_around_left, CanGiveFacesAround, AreFacesAround};

use crate::along_edge::{LoopsOfEdge, loops_of_edge, no_loops};
use crate::cycle_iter::{CycleIter, members_of};
use crate::disk::first_dart;
use crate::in_face::corners_of_face;
use crate::leader::{is_alone, own_or_first};
use mesh_store::{Dart, Slot, Store};
use std::iter::FusedIterator;

/// An iterator over the edges around a vertex, which [`edges_of_vert`] makes.
///
/// After the last edge it answers `None` for ever. An item takes constant time.
#[derive(Drop)]
#[must_use]
pub struct EdgesOfVert<'a> {
    darts: CycleIter<'a, Dart, Store>,
}

impl<'a> Iterator for EdgesOfVert<'a> {
    type Item = Slot;

    ghost can_next = { CanGiveEdgesAround };

    ghost next_gives = { YieldsFirst edges_around_left };

    ghost remaining = { item_count edges_around_left };

    fn next(&mut self) -> Option<Slot> {
        let dart = self.darts.next()?;
        Some(dart.edge)
    }
}

impl<'a> FusedIterator for EdgesOfVert<'a> {}

/// The edges around a live vertex, along its disk cycle from its first edge on. Constant time.
pub fn edges_of_vert(st: &Store, v: Slot) -> EdgesOfVert<'_>
    requires cycles { AreCycles st.now }
    requires live { IsLive st.now.verts.cells v.0 }
    ensures items { edges_around_left result ≡ edges_around st.now v.0 }
    ensures once { AllDistinct (edges_around st.now v.0) }
    ensures live { AllLive st.now.edges.cells (edges_around st.now v.0) }
    ensures ready { CanGiveEdgesAround result }
{
    EdgesOfVert {
        darts: members_of(st, first_dart(st, v)),
    }
}

/// An iterator over the loops of the edges around a vertex that stand at it, which [`loops_of_vert`] makes.
///
/// After the last loop it answers `None` for ever. All items together take time that grows with the edges and their
/// loops.
#[derive(Drop)]
#[must_use]
pub struct LoopsOfVert<'a> {
    st: &'a Store,
    vert: Slot,
    // The edges to come.
    edges: EdgesOfVert<'a>,
    // The loops to come of the edge before them.
    loops: LoopsOfEdge<'a>,
}

impl<'a> Iterator for LoopsOfVert<'a> {
    type Item = Slot;

    ghost can_next = { CanGiveLoopsAround };

    ghost next_gives = { YieldsFirst loops_around_left };

    ghost remaining = { item_count loops_around_left };

    fn next(&mut self) -> Option<Slot> {
        'edges: loop {
            if let Some(l) = next_standing(self.st, self.vert, &mut self.loops) {
                return Some(l);
            }
            let e = self.edges.next()?;
            self.loops = loops_of_edge(self.st, e);
        }
    }
}

impl<'a> FusedIterator for LoopsOfVert<'a> {}

/// The loops that stand at a live vertex, of one edge around it after the other, each once. Constant time.
///
/// Where every dart is in the cycle of its end and every loop in that of its edge, these are all the live loops that
/// stand there and whose edge ends there (`all`).
pub fn loops_of_vert(st: &Store, v: Slot) -> LoopsOfVert<'_>
    requires cycles { AreCycles st.now }
    requires live { IsLive st.now.verts.cells v.0 }
    ensures items { loops_around_left result ≡ loops_around st.now v.0 }
    ensures once { AllDistinct (loops_around st.now v.0) }
    ensures live { AllLive st.now.loops (loops_around st.now v.0) }
    ensures all { AreComplete st.now → AreCornersAt st.now v.0 }
    ensures ready { CanGiveLoopsAround result }
{
    LoopsOfVert {
        st,
        vert: v,
        edges: edges_of_vert(st, v),
        loops: no_loops(st),
    }
}

// The next of an edge's loops that stands at a vertex.
fn next_standing(st: &Store, v: Slot, loops: &mut LoopsOfEdge<'_>) -> Option<Slot>
    requires ready { CanGiveLoopsAlong loops.old }
    requires live { AllLive st.now.loops (loops_along_left loops.old) }
    ensures gives { YieldsFirst (standing_left st.now v.0) loops.old result loops.new }
    ensures ready { CanGiveLoopsAlong loops.new }
    ensures live { AllLive st.now.loops (loops_along_left loops.new) }
{
    while let Some(l) = loops.next() {
        if st.loop_vert(l) == v {
            return Some(l);
        }
    }
    None
}

/// An iterator over the faces around a vertex, which [`faces_of_vert`] makes.
///
/// After the last face it answers `None` for ever. Each loop passed over takes a walk around the vertex, or as many
/// steps as its face has corners, where these are fewer. Where a face has several loops at the vertex, each takes that
/// walk and those steps.
#[derive(Drop)]
#[must_use]
pub struct FacesOfVert<'a> {
    st: &'a Store,
    vert: Slot,
    // The loops to come.
    loops: LoopsOfVert<'a>,
}

impl<'a> Iterator for FacesOfVert<'a> {
    type Item = Slot;

    ghost can_next = { CanGiveFacesAround };

    ghost next_gives = { YieldsFirst faces_around_left };

    ghost remaining = { item_count faces_around_left };

    fn next(&mut self) -> Option<Slot> {
        while let Some(l) = self.loops.next() {
            if leads_around(self.st, self.vert, l) {
                return Some(self.st.loop_face(l));
            }
        }
        None
    }
}

impl<'a> FusedIterator for FacesOfVert<'a> {}

/// The live faces of the loops at a live vertex that [`loops_of_vert`] gives, each once. Constant time.
///
/// A face comes with the first loop of its own cycle that stands there and whose edge ends there, if that is among
/// those loops, and else with the first of those that names it. So none is left out (`all`), not even one whose own
/// cycle is half built.
pub fn faces_of_vert(st: &Store, v: Slot) -> FacesOfVert<'_>
    requires cycles { AreCycles st.now }
    requires live { IsLive st.now.verts.cells v.0 }
    ensures items { faces_around_left result ≡ faces_around st.now v.0 }
    ensures once { AllDistinct (faces_around st.now v.0) }
    ensures all { AreFacesAround st.now v.0 }
    ensures ready { CanGiveFacesAround result }
{
    FacesOfVert {
        st,
        vert: v,
        loops: loops_of_vert(st, v),
    }
}

// Whether a face comes with this loop of it around a live vertex.
fn leads_around(st: &Store, v: Slot, l: Slot) -> bool
    requires cycles { AreCycles st.now }
    requires live { IsLive st.now.verts.cells v.0 }
    requires member { HasMember (loops_around st.now v.0) l }
    ensures { result ≡ leads st.now (is_corner_at st.now v.0) (loops_around st.now v.0) l }
{
    let f = st.loop_face(l);
    if !st.has_face(f) {
        return false;
    }
    // A loop that alone names its face needs no walk of the face.
    let loops = loops_of_vert(st, v);
    if is_alone(st, loops, l, f, st.face_len(f)) {
        return true;
    }
    let own = first_corner_at(st, f, v);
    own == Some(l) || own_or_first(st, own, loops_of_vert(st, v), f) == Some(l)
}

// The first loop of a live face's own cycle that stands at a vertex at which its edge ends.
fn first_corner_at(st: &Store, f: Slot, v: Slot) -> Option<Slot>
    requires cycles { AreCycles st.now }
    requires live { IsLive st.now.faces.cells f.0 }
    ensures { result ≡ find (is_corner_at st.now v.0) (loops_in st.now f.0) }
{
    for l in corners_of_face(st, f) {
        if is_corner_at(st, l, v) {
            return Some(l);
        }
    }
    None
}

// Whether a live loop stands at a vertex at which its edge ends.
fn is_corner_at(st: &Store, l: Slot, v: Slot) -> bool
    requires { IsLive st.now.loops l.0 }
    ensures { result ≡ is_corner_at st.now v.0 l }
{
    st.loop_vert(l) == v && ends(st, st.loop_edge(l), v)
}

// Whether an edge is live and ends at a vertex.
fn ends(st: &Store, e: Slot, v: Slot) -> bool
    ensures { result ≡ ends_at st.now v.0 e }
{
    if !st.has_edge(e) {
        return false;
    }
    let ends = st.ends(e);
    ends[0] == v || ends[1] == v
}
