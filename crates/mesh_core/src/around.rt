//! Iterators by name.
ghost use Rattle.std.specs.Prelude.{◌≡◌, is_some, true, map};
ghost use Rattle.std.specs.Iterator.{YieldsFirst, item_count};
ghost use Rattle.raw_pool.specs.Slots.{IsLive};
ghost use Rattle.mesh_store.specs.Slots.{at};
ghost use Rattle.mesh_cycles.specs.Found.{faces_along, faces_around};
ghost use Rattle.mesh_model.specs.declared.records.Counters.{Counters};
ghost use Rattle.mesh_records.specs.ReadOff.{disk_at};
ghost use Rattle.mesh_records.specs.Whole.{IsWhole};
ghost use Rattle.mesh_records.specs.StandsFor.{face_name};
ghost use Rattle.mesh_core.specs.Left.{edges_at_left, CanGiveEdgesAt};
ghost use Rattle.mesh_core.specs.Left.{faces_at_edge_left, CanGiveFacesAtEdge};
ghost use Rattle.mesh_core.specs.Left.{faces_at_vert_left, CanGiveFacesAtVert};
ghost use Rattle.mesh_cycles.specs.Faces.{AreFacesAlong, AreFacesAround};
ghost use Rattle.link_ring.specs.Members.{AllDistinct};

use mesh_cycles::{EdgesOfVert, FacesOfEdge, FacesOfVert};
use mesh_model::{EdgeName, FaceName};
use mesh_records::slot_of_vert;
use mesh_store::{Slot, Store};
use std::iter::FusedIterator;

/// An iterator over the edges around a vertex, which `Mesh::edges_of_vert` makes.
///
/// After the last edge it answers `None` for ever. An item takes constant time.
#[derive(Drop)]
#[must_use]
pub struct EdgesAt<'a> {
    st: &'a Store,
    edges: EdgesOfVert<'a>,
}

impl<'a> Iterator for EdgesAt<'a> {
    type Item = EdgeName;

    ghost can_next = { CanGiveEdgesAt };

    ghost next_gives = { YieldsFirst edges_at_left };

    ghost remaining = { item_count edges_at_left };

    fn next(&mut self) -> Option<EdgeName> {
        let e = self.edges.next()?;
        Some(EdgeName(self.st.edge_number(e)))
    }
}

impl<'a> FusedIterator for EdgesAt<'a> {}

/// The edges around the vertex of a name.
pub(crate) fn edges_at(st: &Store, v: u32) -> EdgesAt<'_>
    requires whole { (n : Counters) × IsWhole st.now n }
    requires named { is_some (at st.now.verts.names v) ≡ true }
    ensures items { edges_at_left result ≡ disk_at st.now v }
    ensures ready { CanGiveEdgesAt result }
{
    let slot = slot_of_vert(st, v);
    EdgesAt {
        st,
        edges: mesh_cycles::edges_of_vert(st, slot),
    }
}

/// An iterator over the faces along an edge, which `Mesh::faces_of_edge` makes.
///
/// After the last face it answers `None` for ever. Each corner passed over takes a walk along the edge, or as many
/// steps as its face has corners, where these are fewer.
#[derive(Drop)]
#[must_use]
pub struct FacesAtEdge<'a> {
    st: &'a Store,
    faces: FacesOfEdge<'a>,
}

impl<'a> Iterator for FacesAtEdge<'a> {
    type Item = FaceName;

    ghost can_next = { CanGiveFacesAtEdge };

    ghost next_gives = { YieldsFirst faces_at_edge_left };

    ghost remaining = { item_count faces_at_edge_left };

    fn next(&mut self) -> Option<FaceName> {
        let f = self.faces.next()?;
        Some(FaceName(self.st.face_number(f)))
    }
}

impl<'a> FusedIterator for FacesAtEdge<'a> {}

/// The faces along a live edge, each once.
pub(crate) fn faces_at_edge(st: &Store, e: Slot) -> FacesAtEdge<'_>
    requires whole { (n : Counters) × IsWhole st.now n }
    requires live { IsLive st.now.edges.cells e.0 }
    ensures items { faces_at_edge_left result ≡ map (λ f. face_name st.now f.0) (faces_along st.now e.0) }
    ensures once { AllDistinct (faces_along st.now e.0) }
    ensures all { AreFacesAlong st.now e.0 }
    ensures ready { CanGiveFacesAtEdge result }
{
    FacesAtEdge {
        st,
        faces: mesh_cycles::faces_of_edge(st, e),
    }
}

/// An iterator over the faces at a vertex, which `Mesh::faces_of_vert` makes.
///
/// After the last face it answers `None` for ever. Each corner passed over takes a walk along the edges around the
/// vertex, or as many steps as its face has corners, where these are fewer.
#[derive(Drop)]
#[must_use]
pub struct FacesAtVert<'a> {
    st: &'a Store,
    faces: FacesOfVert<'a>,
}

impl<'a> Iterator for FacesAtVert<'a> {
    type Item = FaceName;

    ghost can_next = { CanGiveFacesAtVert };

    ghost next_gives = { YieldsFirst faces_at_vert_left };

    ghost remaining = { item_count faces_at_vert_left };

    fn next(&mut self) -> Option<FaceName> {
        let f = self.faces.next()?;
        Some(FaceName(self.st.face_number(f)))
    }
}

impl<'a> FusedIterator for FacesAtVert<'a> {}

/// The faces at a live vertex, each once.
pub(crate) fn faces_at_vert(st: &Store, v: Slot) -> FacesAtVert<'_>
    requires whole { (n : Counters) × IsWhole st.now n }
    requires live { IsLive st.now.verts.cells v.0 }
    ensures items { faces_at_vert_left result ≡ map (λ f. face_name st.now f.0) (faces_around st.now v.0) }
    ensures once { AllDistinct (faces_around st.now v.0) }
    ensures all { AreFacesAround st.now v.0 }
    ensures ready { CanGiveFacesAtVert result }
{
    FacesAtVert {
        st,
        faces: mesh_cycles::faces_of_vert(st, v),
    }
}
