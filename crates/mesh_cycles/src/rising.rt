//! Elements by rising name.
ghost use Rattle.std.specs.Prelude.{◌≡◌};
ghost use Rattle.std.specs.Iterator.{YieldsFirst, item_count};
ghost use Rattle.link_ring.specs.Members.{AllDistinct};
ghost use Rattle.mesh_store.specs.Naming.{AreNamed};
ghost use Rattle.mesh_cycles.specs.Found.{by_name};
ghost use Rattle.mesh_cycles.specs.Left.{verts_rising_left, edges_rising_left, faces_rising_left};

use mesh_store::{Slot, Store};
use std::iter::FusedIterator;

/// An iterator over the live vertices by rising name, which [`verts_rising`] makes.
///
/// After the last vertex it answers `None` for ever. An item takes time that grows with the names passed over.
#[derive(Drop)]
#[must_use]
pub struct VertsRising<'a> {
    st: &'a Store,
    // The least name that may be next.
    from: u32,
}

impl<'a> Iterator for VertsRising<'a> {
    type Item = Slot;

    ghost next_gives = { YieldsFirst verts_rising_left };

    ghost remaining = { item_count verts_rising_left };

    fn next(&mut self) -> Option<Slot> {
        let slot = self.st.vert_from(self.from)?;
        self.from = self.st.vert_number(slot) + 1;
        Some(slot)
    }
}

impl<'a> FusedIterator for VertsRising<'a> {}

/// The live vertices, by rising name. Constant time.
///
/// The names lead to just the live vertices (`named`), each to its own (`once`).
pub fn verts_rising(st: &Store) -> VertsRising<'_>
    ensures items { verts_rising_left result ≡ by_name st.now.verts.names }
    ensures once { AllDistinct (by_name st.now.verts.names) }
    ensures named { AreNamed (λ c. c.number) st.now.verts.cells st.now.verts.names }
{
    // Read for its contract, which says that each name leads to a slot of its own.
    let _ = st.vert_slot(0);
    VertsRising { st, from: 0 }
}

/// An iterator over the live edges by rising name, which [`edges_rising`] makes.
///
/// After the last edge it answers `None` for ever. An item takes time that grows with the names passed over.
#[derive(Drop)]
#[must_use]
pub struct EdgesRising<'a> {
    st: &'a Store,
    // The least name that may be next.
    from: u32,
}

impl<'a> Iterator for EdgesRising<'a> {
    type Item = Slot;

    ghost next_gives = { YieldsFirst edges_rising_left };

    ghost remaining = { item_count edges_rising_left };

    fn next(&mut self) -> Option<Slot> {
        let slot = self.st.edge_from(self.from)?;
        self.from = self.st.edge_number(slot) + 1;
        Some(slot)
    }
}

impl<'a> FusedIterator for EdgesRising<'a> {}

/// The live edges, by rising name. Constant time.
///
/// The names lead to just the live edges (`named`), each to its own (`once`).
pub fn edges_rising(st: &Store) -> EdgesRising<'_>
    ensures items { edges_rising_left result ≡ by_name st.now.edges.names }
    ensures once { AllDistinct (by_name st.now.edges.names) }
    ensures named { AreNamed (λ c. c.number) st.now.edges.cells st.now.edges.names }
{
    // Read for its contract, which says that each name leads to a slot of its own.
    let _ = st.edge_slot(0);
    EdgesRising { st, from: 0 }
}

/// An iterator over the live faces by rising name, which [`faces_rising`] makes.
///
/// After the last face it answers `None` for ever. An item takes time that grows with the names passed over.
#[derive(Drop)]
#[must_use]
pub struct FacesRising<'a> {
    st: &'a Store,
    // The least name that may be next.
    from: u32,
}

impl<'a> Iterator for FacesRising<'a> {
    type Item = Slot;

    ghost next_gives = { YieldsFirst faces_rising_left };

    ghost remaining = { item_count faces_rising_left };

    fn next(&mut self) -> Option<Slot> {
        let slot = self.st.face_from(self.from)?;
        self.from = self.st.face_number(slot) + 1;
        Some(slot)
    }
}

impl<'a> FusedIterator for FacesRising<'a> {}

/// The live faces, by rising name. Constant time.
///
/// The names lead to just the live faces (`named`), each to its own (`once`).
pub fn faces_rising(st: &Store) -> FacesRising<'_>
    ensures items { faces_rising_left result ≡ by_name st.now.faces.names }
    ensures once { AllDistinct (by_name st.now.faces.names) }
    ensures named { AreNamed (λ c. c.number) st.now.faces.cells st.now.faces.names }
{
    // Read for its contract, which says that each name leads to a slot of its own.
    let _ = st.face_slot(0);
    FacesRising { st, from: 0 }
}
