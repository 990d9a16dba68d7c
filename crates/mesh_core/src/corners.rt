//! Iterators over corners, each given as its face and its position there.
ghost use Rattle.std.specs.Prelude.{◌≡◌, map, length};
ghost use Rattle.std.specs.Iterator.{YieldsFirst, item_count};
ghost use Rattle.raw_pool.specs.Slots.{IsLive};
ghost use Rattle.mesh_cycles.specs.Cycles.{AreCycles};
ghost use Rattle.mesh_cycles.specs.Found.{loops_along, loops_around, loops_in};
ghost use Rattle.mesh_model.specs.declared.records.Counters.{Counters};
ghost use Rattle.mesh_core.specs.Seen.{now};
ghost use Rattle.mesh_records.specs.StandsFor.{place_in, place_of};
ghost use Rattle.mesh_records.specs.Whole.{IsWhole};
ghost use Rattle.mesh_core.specs.Left.{corners_at_edge_left, CanGiveCornersAtEdge, corners_in_left};
ghost use Rattle.mesh_core.specs.Left.{corners_at_vert_left, CanGiveCornersAtVert};
ghost use Rattle.mesh_core.specs.Left.{CanGiveCornersIn, places_from};
ghost use Rattle.mesh_model.specs.Table.{at, IsThere};
ghost use Rattle.mesh_model.specs.Complex.{corners_of};

use crate::mesh::Mesh;
use mesh_cycles::{LoopsOfEdge, LoopsOfVert, corners_of_face};
use mesh_model::{FaceName, Shape};
use mesh_store::{Slot, Store};
use std::iter::FusedIterator;

/// An iterator over the corners along an edge, which `Mesh::loops_of_edge` makes.
///
/// A corner is given as its face and its position there, from 0. After the last corner it answers `None` for ever. An
/// item takes time that grows with its position.
#[derive(Drop)]
#[must_use]
pub struct CornersAtEdge<'a> {
    st: &'a Store,
    loops: LoopsOfEdge<'a>,
}

impl<'a> Iterator for CornersAtEdge<'a> {
    type Item = (FaceName, u32);

    ghost can_next = { CanGiveCornersAtEdge };

    ghost next_gives = { YieldsFirst corners_at_edge_left };

    ghost remaining = { item_count corners_at_edge_left };

    fn next(&mut self) -> Option<(FaceName, u32)> {
        let l = self.loops.next()?;
        Some(place_of(self.st, l))
    }
}

impl<'a> FusedIterator for CornersAtEdge<'a> {}

/// The loops along a live edge, by face and position.
pub(crate) fn corners_at_edge(st: &Store, e: Slot) -> CornersAtEdge<'_>
    requires whole { (n : Counters) × IsWhole st.now n }
    requires live { IsLive st.now.edges.cells e.0 }
    ensures items { corners_at_edge_left result ≡ map (place_of st.now) (loops_along st.now e.0) }
    ensures ready { CanGiveCornersAtEdge result }
{
    CornersAtEdge {
        st,
        loops: mesh_cycles::loops_of_edge(st, e),
    }
}

/// An iterator over the corners at a vertex, which `Mesh::loops_of_vert` makes.
///
/// A corner is given as its face and its position there, from 0. After the last corner it answers `None` for ever. An
/// item takes time that grows with its position and with the loops passed over along the edges around the vertex.
#[derive(Drop)]
#[must_use]
pub struct CornersAtVert<'a> {
    st: &'a Store,
    loops: LoopsOfVert<'a>,
}

impl<'a> Iterator for CornersAtVert<'a> {
    type Item = (FaceName, u32);

    ghost can_next = { CanGiveCornersAtVert };

    ghost next_gives = { YieldsFirst corners_at_vert_left };

    ghost remaining = { item_count corners_at_vert_left };

    fn next(&mut self) -> Option<(FaceName, u32)> {
        let l = self.loops.next()?;
        Some(place_of(self.st, l))
    }
}

impl<'a> FusedIterator for CornersAtVert<'a> {}

/// The loops at a live vertex whose edges end there, by face and position.
pub(crate) fn corners_at_vert(st: &Store, v: Slot) -> CornersAtVert<'_>
    requires whole { (n : Counters) × IsWhole st.now n }
    requires live { IsLive st.now.verts.cells v.0 }
    ensures items { corners_at_vert_left result ≡ map (place_of st.now) (loops_around st.now v.0) }
    ensures ready { CanGiveCornersAtVert result }
{
    CornersAtVert {
        st,
        loops: mesh_cycles::loops_of_vert(st, v),
    }
}

// A live loop by the name of its face and its position there. It takes time that grows with the position.
fn place_of(st: &Store, l: Slot) -> (FaceName, u32)
    requires whole { (n : Counters) × IsWhole st.now n }
    requires live { IsLive st.now.loops l.0 }
    ensures { result ≡ place_of st.now l }
{
    let f = st.loop_face(l);
    (FaceName(st.face_number(f)), place_in(st, f, l))
}

// The position of a loop in the cycle of a live face, and their number where it isn't there.
fn place_in(st: &Store, f: Slot, l: Slot) -> u32
    requires cycles { AreCycles st.now }
    requires live { IsLive st.now.faces.cells f.0 }
    ensures { result ≡ place_in (loops_in st.now f.0) l }
{
    let mut i = 0;
    for k in corners_of_face(st, f) {
        if k.0 == l.0 {
            return i;
        }
        i += 1;
    }
    i
}

/// An iterator over the corners of a face in order, which `Mesh::corners_of_face` makes.
///
/// A corner is given as its face and its position there, from 0. After the last corner it answers `None` for ever. An
/// item takes constant time.
#[derive(Drop)]
#[must_use]
pub struct CornersIn<'a> {
    mesh: &'a Mesh,
    face: FaceName,
    // The position that is next.
    next: u32,
}

impl<'a> Iterator for CornersIn<'a> {
    type Item = (FaceName, u32);

    ghost can_next = { CanGiveCornersIn };

    ghost next_gives = { YieldsFirst corners_in_left };

    ghost remaining = { item_count corners_in_left };

    fn next(&mut self) -> Option<(FaceName, u32)> {
        let i = self.next;
        if i >= self.mesh.corner_count(self.face) {
            return None;
        }
        self.next = i + 1;
        Some((self.face, i))
    }
}

impl<'a> FusedIterator for CornersIn<'a> {}

/// The corners of a face of a mesh.
pub(crate) fn corners_in(mesh: &Mesh, f: FaceName) -> CornersIn<'_>
    requires { IsThere (now mesh.now).faces f.0 }
    ensures items { corners_in_left result ≡ places_from f 0 (length (corners_of (at (now mesh.now).faces f.0))) }
    ensures ready { CanGiveCornersIn result }
{
    CornersIn {
        mesh,
        face: f,
        next: 0,
    }
}
