//! Conditions of calls, which a caller can try.
ghost use Rattle.std.specs.Prelude.{◌≡◌, not, ◌||◌};
ghost use Rattle.std.specs.List.{list_any};
ghost use Rattle.raw_pool.specs.Slots.{IsLive};
ghost use Rattle.mesh_cycles.specs.Cycles.{AreCycles};
ghost use Rattle.mesh_cycles.specs.Found.{loops_in};
ghost use Rattle.mesh_model.specs.Table.{at, passes, allows};
ghost use Rattle.mesh_model.specs.Incidence.{has_end, uses_vert, is_at};
ghost use Rattle.mesh_model.specs.Kernel.{uses_edge_at, can_lose_vert};
ghost use Rattle.mesh_records.specs.ReadOff.{corner_rec, edge_at};
ghost use Rattle.mesh_records.specs.Whole.{AreLinked};
ghost use Rattle.mesh_core.specs.Seen.{now};

use crate::mesh::Mesh;
use mesh_cycles::corners_of_face;
use mesh_model::{EdgeName, FaceName, VertName};
use mesh_records::corner_at;
use mesh_store::{Slot, Store};

/// Conditions.
impl Mesh {
    /// Whether each face with a corner at a vertex has a corner along an edge that ends there, which `kill_vert` asks.
    /// It is so in every valid complex. It takes time that grows with the names of faces and with all corners.
    pub fn can_lose_vert(&self, v: VertName) -> bool
        ensures { result ≡ can_lose_vert (now self.now) v }
    {
        for f in 0..self.next.faces {
            if !self.can_face_lose(FaceName(f), v) {
                return false;
            }
        }
        true
    }

    // Whether no face stands at a name, or one without a corner at a vertex, or one along an edge that ends there.
    fn can_face_lose(&self, f: FaceName, v: VertName) -> bool
        ensures { result ≡ allows (λ r. not (uses_vert v r) || uses_edge_at (now self.now) v r)
            (at (now self.now).faces f.0) }
    {
        match self.store.face_slot(f.0) {
            None => true,
            Some(face) => {
                !has_corner_at(&self.store, face, v) || has_edge_at(&self.store, face, v)
            }
        }
    }
}

// Whether a live face has a corner at a vertex.
fn has_corner_at(st: &Store, f: Slot, v: VertName) -> bool
    requires cycles { AreCycles st.now }
    requires linked { AreLinked st.now }
    requires live { IsLive st.now.faces.cells f.0 }
    ensures { result ≡ list_any (λ l. is_at v (corner_rec st.now l)) (loops_in st.now f.0) }
{
    for l in corners_of_face(st, f) {
        if corner_at(st, l).0.0 == v.0 {
            return true;
        }
    }
    false
}

// Whether a live face has a corner along an edge that ends at a vertex.
fn has_edge_at(st: &Store, f: Slot, v: VertName) -> bool
    requires cycles { AreCycles st.now }
    requires linked { AreLinked st.now }
    requires live { IsLive st.now.faces.cells f.0 }
    ensures { result ≡ list_any (λ l. passes (has_end v) (edge_at st.now (corner_rec st.now l).edge.0))
        (loops_in st.now f.0) }
{
    for l in corners_of_face(st, f) {
        if ends_at(st, corner_at(st, l).1, v) {
            return true;
        }
    }
    false
}

// Whether an edge stands at a name that ends at a vertex.
fn ends_at(st: &Store, e: EdgeName, v: VertName) -> bool
    requires linked { AreLinked st.now }
    ensures { result ≡ passes (has_end v) (edge_at st.now e.0) }
{
    match st.edge_slot(e.0) {
        None => false,
        Some(edge) => {
            let [a, b] = st.ends(edge);
            st.vert_number(a) == v.0 || st.vert_number(b) == v.0
        }
    }
}
