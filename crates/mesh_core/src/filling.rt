//! A mesh filled with the elements of a draft. No call takes memory.
ghost use Rattle.std.specs.Prelude.{◌≡◌, ◌<◌, ◌≤◌, ◌+◌, ◌^◌, ◌++◌, ◌∷◌, [], None, Some, length, slice_get};
ghost use Rattle.std.specs.Option.{option_map};
ghost use Rattle.mesh_store.specs.Parts.{cleared};
ghost use Rattle.mesh_model.specs.Table.{at, IsThere};
ghost use Rattle.mesh_model.specs.Complex.{no_complex, corners_of, corner_sum, width};
ghost use Rattle.mesh_model.specs.Kernel.{with_corners_by};
ghost use Rattle.mesh_model.specs.Valid.{IsCornerLinked, IsLinked};
ghost use Rattle.mesh_model.specs.declared.names.Kind.TheVariants.{Corners};
ghost use Rattle.mesh_records.specs.Corners.{of_corners};
ghost use Rattle.mesh_records.specs.Loading.{with_vert_name, with_edge_name, with_face_name};
ghost use Rattle.mesh_records.specs.Places.{CanBecome, KeepsPlaces};
ghost use Rattle.mesh_core.specs.Filling.{HasVertsTo, HasEdgesTo, HasFacesTo, HasCornersTo};
ghost use Rattle.mesh_core.specs.Seen.{now, room};

use crate::mesh::Mesh;
use mesh_model::limits::{MAX_EDGES, MAX_FACES, MAX_VERTS};
use mesh_model::{
    Counters, Draft, EdgeName, Elem, FaceName, Kind, Shape, VertName, edge_row, face_row, vert_row,
};
use mesh_records::append_row;

// The most numbers that a row of values has: 16 layers of 4.
const MAX_ROW: usize = 64;

/// Filling.
impl Mesh {
    // Makes the mesh the complex of a draft, for which its store has places. It takes time that grows with what there
    // is and with the draft's names and corners.
    pub(crate) fn refill(&mut self, draft: &Draft)
        requires { CanBecome self.old.stored self.old.lists draft.now }
        ensures now { now self.new ≡ draft.now }
        ensures becomes { CanBecome self.new.stored self.new.lists draft.now }
        ensures base { self.new.base ≡ self.old.base }
    {
        let _ = draft.counters();
        self.clear();
        self.fill_verts(draft);
        self.fill_edges(draft);
        self.fill_faces(draft);
    }

    // Takes every element and every name away. Layers, lists of names and places stay.
    fn clear(&mut self)
        ensures now { now self.new ≡ record (now self.old) { verts = []; edges = []; faces = [] } }
        ensures stored { self.new.stored ≡ cleared self.old.stored }
        ensures lists { self.new.lists ≡ self.old.lists }
        ensures base { self.new.base ≡ self.old.base }
    {
        self.store.clear();
        self.next = Counters {
            verts: 0,
            edges: 0,
            faces: 0,
            corners: 0,
        };
    }
}

/// Vertices and edges.
impl Mesh {
    // The vertices of a draft.
    fn fill_verts(&mut self, draft: &Draft)
        requires linked { IsLinked draft.now }
        requires so_far { HasVertsTo self.old draft.now 0 }
        ensures so_far { HasEdgesTo self.new draft.now 0 }
        ensures base { self.new.base ≡ self.old.base }
    {
        let next = draft.counters();
        for v in 0..next.verts {
            self.fill_vert(draft, VertName(v));
        }
    }

    // The next vertex of a draft, or a name that is passed over.
    fn fill_vert(&mut self, draft: &Draft, v: VertName)
        requires linked { IsLinked draft.now }
        requires low { v.0 < length draft.now.verts }
        requires so_far { HasVertsTo self.old draft.now v.0 }
        ensures so_far { HasVertsTo self.new draft.now (v.0 + 1) }
        ensures base { self.new.base ≡ self.old.base }
    {
        if !draft.has(Elem::Vert(v)) {
            self.skip_vert();
            return;
        }
        self.notes_are();
        let row = vert_row(draft, v);
        let _ = self.make_vert(draft.point(v), None);
        let _ = self.set_vert_vals(v, row.as_slice());
    }

    // Passes over the next name of a vertex, which the directory reaches.
    fn skip_vert(&mut self)
        requires limit { length (now self.old).verts < MAX_VERTS }
        requires reach { length (now self.old).verts < length self.old.stored.verts.names }
        ensures now { now self.new ≡ with_vert_name (now self.old) None }
        ensures stored { self.new.stored ≡ self.old.stored }
        ensures base { self.new.base ≡ self.old.base }
    {
        self.next.verts += 1;
    }

    // The edges of a draft.
    fn fill_edges(&mut self, draft: &Draft)
        requires linked { IsLinked draft.now }
        requires so_far { HasEdgesTo self.old draft.now 0 }
        ensures so_far { HasFacesTo self.new draft.now 0 }
        ensures base { self.new.base ≡ self.old.base }
    {
        let next = draft.counters();
        for e in 0..next.edges {
            self.fill_edge(draft, EdgeName(e));
        }
    }

    // The next edge of a draft, or a name that is passed over.
    fn fill_edge(&mut self, draft: &Draft, e: EdgeName)
        requires linked { IsLinked draft.now }
        requires low { e.0 < length draft.now.edges }
        requires so_far { HasEdgesTo self.old draft.now e.0 }
        ensures so_far { HasEdgesTo self.new draft.now (e.0 + 1) }
        ensures base { self.new.base ≡ self.old.base }
    {
        if !draft.has(Elem::Edge(e)) {
            self.skip_edge();
            return;
        }
        self.notes_are();
        let row = edge_row(draft, e);
        let ends = draft.ends(e);
        let _ = self.make_edge(ends[0], ends[1], None);
        let _ = self.set_edge_vals(e, row.as_slice());
    }

    // Passes over the next name of an edge, which the directory reaches.
    fn skip_edge(&mut self)
        requires limit { length (now self.old).edges < MAX_EDGES }
        requires reach { length (now self.old).edges < length self.old.stored.edges.names }
        ensures now { now self.new ≡ with_edge_name (now self.old) None }
        ensures stored { self.new.stored ≡ self.old.stored }
        ensures base { self.new.base ≡ self.old.base }
    {
        self.next.edges += 1;
    }
}

/// Faces.
impl Mesh {
    // The faces of a draft.
    fn fill_faces(&mut self, draft: &Draft)
        requires linked { IsLinked draft.now }
        requires so_far { HasFacesTo self.old draft.now 0 }
        ensures now { now self.new ≡ draft.now }
        ensures becomes { CanBecome self.new.stored self.new.lists draft.now }
        ensures base { self.new.base ≡ self.old.base }
    {
        let next = draft.counters();
        for f in 0..next.faces {
            self.fill_face(draft, FaceName(f));
        }
    }

    // The next face of a draft, or a name that is passed over.
    fn fill_face(&mut self, draft: &Draft, f: FaceName)
        requires linked { IsLinked draft.now }
        requires low { f.0 < length draft.now.faces }
        requires so_far { HasFacesTo self.old draft.now f.0 }
        ensures so_far { HasFacesTo self.new draft.now (f.0 + 1) }
        ensures base { self.new.base ≡ self.old.base }
    {
        if !draft.has(Elem::Face(f)) {
            self.skip_face();
            return;
        }
        self.begin_face(draft, f);
        self.fill_corners(draft, f);
    }

    // The next face of a draft with its first corner and with its values.
    fn begin_face(&mut self, draft: &Draft, f: FaceName)
        requires linked { IsLinked draft.now }
        requires few { width draft.now Corners ≤ 64 }
        requires there { IsThere draft.now.faces f.0 }
        requires so_far { HasFacesTo self.old draft.now f.0 }
        ensures so_far { HasCornersTo self.new draft.now f.0 1 }
        ensures base { self.new.base ≡ self.old.base }
    {
        self.notes_are();
        let mut all = [0; MAX_ROW];
        let corner = &mut all[..draft.width(Kind::Corners)];
        read_corner_row(draft, f, 0, corner);
        let row = face_row(draft, f);
        let _ = self.make_face(&[draft.corner(f, 0)], None);
        let _ = self.set_corner_vals(f, 0, corner);
        let _ = self.set_face_vals(f, row.as_slice());
    }

    // The corners of the next face of a draft behind its first one.
    fn fill_corners(&mut self, draft: &Draft, f: FaceName)
        requires linked { IsLinked draft.now }
        requires there { IsThere draft.now.faces f.0 }
        requires so_far { HasCornersTo self.old draft.now f.0 1 }
        ensures so_far { HasFacesTo self.new draft.now (f.0 + 1) }
        ensures base { self.new.base ≡ self.old.base }
    {
        for i in 1..draft.corner_count(f) {
            self.fill_corner(draft, f, i);
        }
    }

    // The next corner of the next face of a draft.
    fn fill_corner(&mut self, draft: &Draft, f: FaceName, i: u32)
        requires linked { IsLinked draft.now }
        requires few { width draft.now Corners ≤ 64 }
        requires within { i < length (corners_of (at draft.now.faces f.0)) }
        requires so_far { HasCornersTo self.old draft.now f.0 i }
        ensures so_far { HasCornersTo self.new draft.now f.0 (i + 1) }
        ensures base { self.new.base ≡ self.old.base }
    {
        let mut all = [0; MAX_ROW];
        let row = &mut all[..draft.width(Kind::Corners)];
        read_corner_row(draft, f, i, row);
        let (vert, edge) = draft.corner(f, i);
        self.append_corner(f, vert, edge, row);
    }

    // Puts a corner behind the others of a live face, with its row of values. There is a place for it.
    fn append_corner(&mut self, f: FaceName, vert: VertName, edge: EdgeName, row: &[i64])
        requires there { IsThere (now self.old).faces f.0 }
        requires few { corner_sum (now self.old).faces < 2 ^ 24 }
        requires linked { IsCornerLinked (now self.old) (record { vert = vert; edge = edge; vals = row.now }) }
        requires room { 1 ≤ (room self.old).corners }
        ensures now { now self.new ≡ with_corners_by (now self.old) f
            (λ cs. cs ++ record { vert = vert; edge = edge; vals = row.now } ∷ []) }
        ensures places { KeepsPlaces (of_corners 1) self.old.stored self.new.stored }
        ensures base { self.new.base ≡ self.old.base }
    {
        append_row(&mut self.store, self.next, f, vert, edge, row);
        self.next.corners += 1;
    }

    // Passes over the next name of a face, which the directory reaches.
    fn skip_face(&mut self)
        requires limit { length (now self.old).faces < MAX_FACES }
        requires reach { length (now self.old).faces < length self.old.stored.faces.names }
        ensures now { now self.new ≡ with_face_name (now self.old) None }
        ensures stored { self.new.stored ≡ self.old.stored }
        ensures base { self.new.base ≡ self.old.base }
    {
        self.next.faces += 1;
    }
}

// Writes the row of values of a face's corner.
fn read_corner_row(draft: &Draft, f: FaceName, i: u32, into: &mut [i64])
    requires linked { IsLinked draft.now }
    requires within { i < length (corners_of (at draft.now.faces f.0)) }
    requires wide { length into.old ≡ width draft.now Corners }
    ensures { option_map (λ k. k.vals) (slice_get (corners_of (at draft.now.faces f.0)) i) ≡ Some into.new }
{
    for k in 0..into.len() {
        into[k] = draft.corner_value(f, i, k);
    }
}
