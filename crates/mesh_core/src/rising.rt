//! Iterators by rising name.
ghost use Rattle.std.specs.Prelude.{◌≡◌, map};
ghost use Rattle.std.specs.Iterator.{YieldsFirst, item_count};
ghost use Rattle.mesh_cycles.specs.Found.{by_name};
ghost use Rattle.mesh_records.specs.ReadOff.{vert_name, edge_name};
ghost use Rattle.mesh_records.specs.StandsFor.{face_name};
ghost use Rattle.mesh_core.specs.Left.{verts_by_name_left, edges_by_name_left, faces_by_name_left};
ghost use Rattle.mesh_core.specs.Left.{CanGiveVertsByName, CanGiveEdgesByName, CanGiveFacesByName};

use mesh_cycles::{EdgesRising, FacesRising, VertsRising};
use mesh_model::{EdgeName, FaceName, VertName};
use mesh_store::Store;
use std::iter::FusedIterator;

/// An iterator over the vertices by rising name, which `Mesh::verts_rising` makes.
///
/// After the last vertex it answers `None` for ever. An item takes a step for each 64 names passed over.
#[derive(Drop)]
#[must_use]
pub struct VertsByName<'a> {
    st: &'a Store,
    verts: VertsRising<'a>,
}

impl<'a> Iterator for VertsByName<'a> {
    type Item = VertName;

    ghost can_next = { CanGiveVertsByName };

    ghost next_gives = { YieldsFirst verts_by_name_left };

    ghost remaining = { item_count verts_by_name_left };

    fn next(&mut self) -> Option<VertName> {
        let v = self.verts.next()?;
        Some(VertName(self.st.vert_number(v)))
    }
}

impl<'a> FusedIterator for VertsByName<'a> {}

/// The vertices of a store.
pub(crate) fn verts_by_name(st: &Store) -> VertsByName<'_>
    ensures items { verts_by_name_left result ≡ map (λ s. vert_name st.now s.0) (by_name st.now.verts.names) }
    ensures ready { CanGiveVertsByName result }
{
    VertsByName {
        st,
        verts: mesh_cycles::verts_rising(st),
    }
}

/// An iterator over the edges by rising name, which `Mesh::edges_rising` makes.
///
/// After the last edge it answers `None` for ever. An item takes a step for each 64 names passed over.
#[derive(Drop)]
#[must_use]
pub struct EdgesByName<'a> {
    st: &'a Store,
    edges: EdgesRising<'a>,
}

impl<'a> Iterator for EdgesByName<'a> {
    type Item = EdgeName;

    ghost can_next = { CanGiveEdgesByName };

    ghost next_gives = { YieldsFirst edges_by_name_left };

    ghost remaining = { item_count edges_by_name_left };

    fn next(&mut self) -> Option<EdgeName> {
        let e = self.edges.next()?;
        Some(EdgeName(self.st.edge_number(e)))
    }
}

impl<'a> FusedIterator for EdgesByName<'a> {}

/// The edges of a store.
pub(crate) fn edges_by_name(st: &Store) -> EdgesByName<'_>
    ensures items { edges_by_name_left result ≡ map (λ s. edge_name st.now s.0) (by_name st.now.edges.names) }
    ensures ready { CanGiveEdgesByName result }
{
    EdgesByName {
        st,
        edges: mesh_cycles::edges_rising(st),
    }
}

/// An iterator over the faces by rising name, which `Mesh::faces_rising` makes.
///
/// After the last face it answers `None` for ever. An item takes a step for each 64 names passed over.
#[derive(Drop)]
#[must_use]
pub struct FacesByName<'a> {
    st: &'a Store,
    faces: FacesRising<'a>,
}

impl<'a> Iterator for FacesByName<'a> {
    type Item = FaceName;

    ghost can_next = { CanGiveFacesByName };

    ghost next_gives = { YieldsFirst faces_by_name_left };

    ghost remaining = { item_count faces_by_name_left };

    fn next(&mut self) -> Option<FaceName> {
        let f = self.faces.next()?;
        Some(FaceName(self.st.face_number(f)))
    }
}

impl<'a> FusedIterator for FacesByName<'a> {}

/// The faces of a store.
pub(crate) fn faces_by_name(st: &Store) -> FacesByName<'_>
    ensures items { faces_by_name_left result ≡ map (λ s. face_name st.now s.0) (by_name st.now.faces.names) }
    ensures ready { CanGiveFacesByName result }
{
    FacesByName {
        st,
        faces: mesh_cycles::faces_rising(st),
    }
}
