//! The mesh.
ghost use Rattle.std.specs.Prelude.{◌≡◌, ◌≢◌, ◌<◌, ◌≤◌, ◌+◌, ◌^◌, ◌++◌, []};
ghost use Rattle.std.specs.Prelude.{◌∷◌, length, slice_index_or, IfSome, IfOk, OnOk, OnErr, IsOk};
ghost use Rattle.std.specs.Prelude.{true, not, MatchOption};
ghost use Rattle.std.specs.List.{All};
ghost use Rattle.mesh_model.specs.Complex.{no_complex, corners_of, corner_sum};
ghost use Rattle.mesh_model.specs.Kernel.{with_vert_like, with_edge_like, with_face_like};
ghost use Rattle.mesh_model.specs.Kernel.{without_face, without_edge, without_vert, uses_edge_at, can_lose_vert};
ghost use Rattle.mesh_model.specs.Table.{at, IsThere, passes, kept};
ghost use Rattle.mesh_model.specs.Incidence.{corners_at_edge, corners_at_vert, has_end, uses_edge, edge_joining};
ghost use Rattle.mesh_model.specs.Incidence.{is_loose, is_bare};
ghost use Rattle.mesh_model.specs.Valid.{IsValid};
ghost use Rattle.mesh_core.specs.Seen.{now, disks};
ghost use Rattle.mesh_core.specs.Seen.{room};
ghost use Rattle.mesh_records.specs.Places.{KeepsPlaces};
ghost use Rattle.mesh_records.specs.Room.{Covers, UsesAtMost, none_of_all, of_verts, of_edges, of_face};
ghost use Rattle.mesh_records.specs.Room.{gone_with_edge, gone_with_vert};
ghost use Rattle.mesh_core.specs.Seen.{IsAsBefore, notes_of_a_copy};
ghost use Rattle.mesh_records.specs.Changes.{with_last, only_without_edge, only_without_vert, without_name};
ghost use Rattle.mesh_records.specs.Changes.{has_no_corner, without_edges_at};
ghost use Rattle.mesh_core.specs.Seen.{CyclesHold};
ghost use Rattle.mesh_records.specs.StandsFor.{ListsOnce};
ghost use Rattle.mesh_records.specs.Order.{verts_in_order, edges_in_order, faces_in_order};
ghost use Rattle.mesh_records.specs.Order.{corners_of_vert, faces_of_vert, faces_at_edge};
ghost use Rattle.mesh_core.specs.Left.{edges_at_left, CanGiveEdgesAt};
ghost use Rattle.mesh_core.specs.Left.{verts_by_name_left, edges_by_name_left, faces_by_name_left};
ghost use Rattle.mesh_core.specs.Left.{CanGiveVertsByName, CanGiveEdgesByName, CanGiveFacesByName};
ghost use Rattle.mesh_core.specs.Left.{corners_at_edge_left, CanGiveCornersAtEdge};
ghost use Rattle.mesh_core.specs.Left.{corners_at_vert_left, CanGiveCornersAtVert};
ghost use Rattle.mesh_core.specs.Left.{faces_at_edge_left, CanGiveFacesAtEdge};
ghost use Rattle.mesh_core.specs.Left.{faces_at_vert_left, CanGiveFacesAtVert};
ghost use Rattle.mesh_core.specs.Left.{corners_in_left, CanGiveCornersIn, places_from};

use crate::around::{EdgesAt, FacesAtEdge, FacesAtVert, edges_at, faces_at_edge, faces_at_vert};
use crate::corners::{
    CornersAtEdge, CornersAtVert, CornersIn, corners_at_edge, corners_at_vert, corners_in,
};
use crate::rising::{
    EdgesByName, FacesByName, VertsByName, edges_by_name, faces_by_name, verts_by_name,
};
use mesh_cycles::edge_between;
use mesh_model::limits::{MAX_EDGES, MAX_FACES, MAX_VERTS};
use mesh_model::{Counters, Draft, EdgeName, FaceName, NoMemory, Point, Sequence, Text, VertName};
use mesh_records::{
    coordinates, edge_like, face_like, make_room, put_edge, put_face, put_vert, slot_of_edge,
    slot_of_face, slot_of_vert, take_edge, take_loops, vert_like,
};
use mesh_store::Store;
use std::alloc::Global;
use std::marker::Model;

/// Vertices, edges and faces, with the cycles by which one is found from another.
///
/// Contracts see the complex `now` that it stands for, the complex `base` to which there is a way back, the edges
/// around each vertex in order (`disks`), and how much can be added and noted without memory (`room`, `notes`).
#[derive(Drop)]
pub struct Mesh {
    pub(crate) alloc: Global,
    pub(crate) store: Store,
    pub(crate) next: Counters,
    pub(crate) materials: Sequence<Text>,
    pub(crate) libraries: Sequence<Text>,
    // The complex to which there is a way back, whole, or `None` for the empty one. The store always has places for it.
    pub(crate) base: Option<Draft>,
}

impl Model for Mesh {
    ghost use Rattle.mesh_core.specs.Seen.{Seen};

    ghost Value = { Seen };

    ghost use Rattle.mesh_core.specs.Seen.{notes_of_a_copy, kept_base, IsMesh};

    ghost view = { λ m. record {
      stored = m.store;
      next = m.next;
      lists = record { materials = m.materials; libraries = m.libraries };
      base = kept_base m.base;
      notes = notes_of_a_copy;
    } };

    ghost invariant = { λ m. IsMesh m.store m.next
        (record { materials = m.materials; libraries = m.libraries }) m.base };
}

impl Mesh {
    /// An empty mesh without layers. Takes no memory.
    pub fn new(alloc: Global) -> Mesh
        ensures empty { now result ≡ no_complex }
        ensures base { result.base ≡ no_complex }
        ensures disks { disks result ≡ [] }
    {
        Mesh {
            alloc,
            store: Store::new(alloc),
            next: Counters {
                verts: 0,
                edges: 0,
                faces: 0,
                corners: 0,
            },
            materials: Sequence::new(alloc),
            libraries: Sequence::new(alloc),
            base: None,
        }
    }

    /// The edge of the least name that joins two live vertices, and `None` exactly where none does. It takes time that
    /// grows with the edges around the one that has fewer.
    pub fn find_edge(&self, a: VertName, b: VertName) -> Option<EdgeName>
        requires a { IsThere (now self.now).verts a.0 }
        requires b { IsThere (now self.now).verts b.0 }
        ensures { result ≡ edge_joining (now self.now).edges a b }
    {
        let from = slot_of_vert(&self.store, a.0);
        let to = slot_of_vert(&self.store, b.0);
        match edge_between(&self.store, from, to) {
            None => None,
            Some(e) => Some(EdgeName(self.store.edge_number(e))),
        }
    }

    /// The complex as a draft, in time that grows with its names and corners. Each face is read in one walk.
    pub fn snapshot(&self) -> Result<Draft, NoMemory>
        ensures { IfOk result (λ d. d ≡ now self.now) }
    {
        Draft::copy_of(self.alloc, self)
    }

    /// Does nothing. The store of the mesh stands for `now`: every cycle visits exactly its members.
    pub fn cycles_hold(&self)
        ensures { CyclesHold self.now }
    {
        let _ = &self.next;
    }
}

/// Iterators.
impl Mesh {
    /// The vertices by rising name. Constant time.
    pub fn verts_rising(&self) -> VertsByName<'_>
        ensures items { verts_by_name_left result ≡ verts_in_order (now self.now) }
        ensures ready { CanGiveVertsByName result }
    {
        verts_by_name(&self.store)
    }

    /// The edges by rising name. Constant time.
    pub fn edges_rising(&self) -> EdgesByName<'_>
        ensures items { edges_by_name_left result ≡ edges_in_order (now self.now) }
        ensures ready { CanGiveEdgesByName result }
    {
        edges_by_name(&self.store)
    }

    /// The faces by rising name. Constant time.
    pub fn faces_rising(&self) -> FacesByName<'_>
        ensures items { faces_by_name_left result ≡ faces_in_order (now self.now) }
        ensures ready { CanGiveFacesByName result }
    {
        faces_by_name(&self.store)
    }

    /// The edges around a live vertex, in the order of `disks`. Constant time.
    pub fn edges_of_vert(&self, v: VertName) -> EdgesAt<'_>
        requires { IsThere (now self.now).verts v.0 }
        ensures items { edges_at_left result ≡ slice_index_or (disks self.now) v.0 [] }
        ensures ready { CanGiveEdgesAt result }
    {
        edges_at(&self.store, v.0)
    }

    /// The corners at a live vertex whose edges end there, each once: in a valid complex all corners there. Constant
    /// time.
    pub fn loops_of_vert(&self, v: VertName) -> CornersAtVert<'_>
        requires { IsThere (now self.now).verts v.0 }
        ensures items { ListsOnce (corners_at_vert_left result) (corners_of_vert (now self.now) v) }
        ensures valid { IsValid (now self.now) → corners_of_vert (now self.now) v ≡ corners_at_vert (now self.now) v }
        ensures ready { CanGiveCornersAtVert result }
    {
        let vert = slot_of_vert(&self.store, v.0);
        corners_at_vert(&self.store, vert)
    }

    /// The faces with a corner at a live vertex whose edge ends there, each once. Constant time.
    pub fn faces_of_vert(&self, v: VertName) -> FacesAtVert<'_>
        requires { IsThere (now self.now).verts v.0 }
        ensures items { ListsOnce (faces_at_vert_left result) (faces_of_vert (now self.now) v) }
        ensures ready { CanGiveFacesAtVert result }
    {
        let vert = slot_of_vert(&self.store, v.0);
        faces_at_vert(&self.store, vert)
    }

    /// The corners along a live edge, each once, in the order of the cycle around it. Constant time.
    pub fn loops_of_edge(&self, e: EdgeName) -> CornersAtEdge<'_>
        requires { IsThere (now self.now).edges e.0 }
        ensures items { ListsOnce (corners_at_edge_left result) (corners_at_edge (now self.now) e) }
        ensures ready { CanGiveCornersAtEdge result }
    {
        let edge = slot_of_edge(&self.store, e.0);
        corners_at_edge(&self.store, edge)
    }

    /// The corners of a live face in order. Constant time.
    pub fn corners_of_face(&self, f: FaceName) -> CornersIn<'_>
        requires { IsThere (now self.now).faces f.0 }
        ensures items { corners_in_left result ≡ places_from f 0 (length (corners_of (at (now self.now).faces f.0))) }
        ensures ready { CanGiveCornersIn result }
    {
        corners_in(self, f)
    }

    /// The faces along a live edge, each once. Constant time.
    pub fn faces_of_edge(&self, e: EdgeName) -> FacesAtEdge<'_>
        requires { IsThere (now self.now).edges e.0 }
        ensures items { ListsOnce (faces_at_edge_left result) (faces_at_edge (now self.now) e) }
        ensures ready { CanGiveFacesAtEdge result }
    {
        let edge = slot_of_edge(&self.store, e.0);
        faces_at_edge(&self.store, edge)
    }
}

/// Room.
impl Mesh {
    /// Makes room for so many more elements of each kind, each number at most 16,777,216. After `NoMemory` some of it
    /// may have been made. It takes time that grows with what is made.
    pub fn reserve(
        &mut self,
        verts: usize,
        edges: usize,
        corners: usize,
        faces: usize,
    ) -> Result<(), NoMemory>
        requires verts { verts ≤ 2 ^ 24 }
        requires edges { edges ≤ 2 ^ 24 }
        requires corners { corners ≤ 2 ^ 24 }
        requires faces { faces ≤ 2 ^ 24 }
        ensures ok { OnOk result (Covers (room self.new)
            (record { verts = verts; edges = edges; corners = corners; faces = faces })) }
        ensures stays { IsAsBefore self.old self.new }
        ensures room { UsesAtMost none_of_all (room self.old) (room self.new) }
        ensures notes { self.new.notes ≡ self.old.notes }
        ensures enough { Covers (room self.old)
            (record { verts = verts; edges = edges; corners = corners; faces = faces }) → IsOk result }
    {
        make_room(
            &mut self.store,
            self.next,
            verts as u32,
            edges as u32,
            corners as u32,
            faces as u32,
        )
    }

    /// Makes room to note so many records of each kind, each number at most 16,777,216. As long as the base is kept
    /// whole, a note takes no memory and there is room always. Constant time.
    pub fn reserve_notes(
        &mut self,
        verts: usize,
        edges: usize,
        corners: usize,
        faces: usize,
    ) -> Result<(), NoMemory>
        requires verts { verts ≤ 2 ^ 24 }
        requires edges { edges ≤ 2 ^ 24 }
        requires corners { corners ≤ 2 ^ 24 }
        requires faces { faces ≤ 2 ^ 24 }
        ensures ok { OnOk result (Covers self.new.notes
            (record { verts = verts; edges = edges; corners = corners; faces = faces })) }
        ensures stays { IsAsBefore self.old self.new }
        ensures room { room self.new ≡ room self.old }
        ensures notes { UsesAtMost none_of_all self.old.notes self.new.notes }
        ensures enough { Covers self.old.notes
            (record { verts = verts; edges = edges; corners = corners; faces = faces }) → IsOk result }
    {
        let _ = &self.next;
        let _ = (verts, edges, corners, faces);
        Ok(())
    }
}

/// Notes.
impl Mesh {
    // Does nothing. As long as the base is kept whole, there are notes for every call.
    pub(crate) fn notes_are(&self)
        ensures { self.now.notes ≡ notes_of_a_copy }
    {
        let _ = &self.next;
    }
}

/// Making.
///
/// A new element has the next name of its kind, and the values of an example of its kind, or else zeros. A call takes
/// its room first: after `NoMemory` the mesh is as before. It takes constant time, but for the room that is made.
impl Mesh {
    /// A vertex at a point.
    pub fn make_vert(&mut self, p: Point, example: Option<VertName>) -> Result<VertName, NoMemory>
        requires limit { length (now self.old).verts < MAX_VERTS }
        requires example { IfSome example (λ v. IsThere (now self.old).verts v.0) }
        ensures name { IfOk result (λ v. v.0 ≡ length (now self.old).verts) }
        ensures now { OnOk result (now self.new ≡ with_vert_like (now self.old) p example) }
        ensures disks { OnOk result (disks self.new ≡ disks self.old ++ [] ∷ []) }
        ensures err { OnErr result (IsAsBefore self.old self.new) }
        ensures base { self.new.base ≡ self.old.base }
        ensures room { UsesAtMost (of_verts 1) (room self.old) (room self.new) }
        ensures notes { UsesAtMost (of_verts 1) self.old.notes self.new.notes }
        ensures places { KeepsPlaces (of_verts 1) self.old.stored self.new.stored }
        ensures enough { Covers (room self.old) (of_verts 1) → Covers self.old.notes (of_verts 1) → IsOk result }
    {
        let name = self.next.verts;
        make_room(&mut self.store, self.next, 1, 0, 0, 0)?;
        let like = vert_like(&self.store, example);
        put_vert(&mut self.store, name, coordinates(p), like);
        self.next.verts = name + 1;
        Ok(VertName(name))
    }

    /// An edge between two live vertices. It comes last around both.
    pub fn make_edge(
        &mut self,
        a: VertName,
        b: VertName,
        example: Option<EdgeName>,
    ) -> Result<EdgeName, NoMemory>
        requires limit { length (now self.old).edges < MAX_EDGES }
        requires a { IsThere (now self.old).verts a.0 }
        requires b { IsThere (now self.old).verts b.0 }
        requires differ { a.0 ≢ b.0 }
        requires example { IfSome example (λ e. IsThere (now self.old).edges e.0) }
        ensures name { IfOk result (λ e. e.0 ≡ length (now self.old).edges) }
        ensures now { OnOk result (now self.new ≡ with_edge_like (now self.old) a b example) }
        ensures disks { IfOk result (λ e. disks self.new ≡ with_last (with_last (disks self.old) a.0 e) b.0 e) }
        ensures err { OnErr result (IsAsBefore self.old self.new) }
        ensures base { self.new.base ≡ self.old.base }
        ensures room { UsesAtMost (of_edges 1) (room self.old) (room self.new) }
        ensures notes { UsesAtMost (of_edges 1) self.old.notes self.new.notes }
        ensures places { KeepsPlaces (of_edges 1) self.old.stored self.new.stored }
        ensures enough { Covers (room self.old) (of_edges 1) → Covers self.old.notes (of_edges 1) → IsOk result }
    {
        let name = self.next.edges;
        make_room(&mut self.store, self.next, 0, 1, 0, 0)?;
        let like = edge_like(&self.store, example);
        let from = slot_of_vert(&self.store, a.0);
        let to = slot_of_vert(&self.store, b.0);
        put_edge(&mut self.store, name, from, to, like);
        self.next.edges = name + 1;
        Ok(EdgeName(name))
    }

    /// A face with these corners, at least one, each a vertex with the edge along which the face goes from it. The
    /// values of its corners are 0. The mesh then has at most 16,777,216 corners. It takes time that grows with the
    /// corners.
    pub fn make_face(
        &mut self,
        corners: &[(VertName, EdgeName)],
        example: Option<FaceName>,
    ) -> Result<FaceName, NoMemory>
        requires limit { length (now self.old).faces < MAX_FACES }
        requires some { 1 ≤ length corners.now }
        requires few { corner_sum (now self.old).faces + length corners.now ≤ 2 ^ 24 }
        requires verts { All (λ k. IsThere (now self.old).verts k.0.0) corners.now }
        requires edges { All (λ k. IsThere (now self.old).edges k.1.0) corners.now }
        requires example { IfSome example (λ f. IsThere (now self.old).faces f.0) }
        ensures name { IfOk result (λ f. f.0 ≡ length (now self.old).faces) }
        ensures now { OnOk result (now self.new ≡ with_face_like (now self.old) corners.now example) }
        ensures disks { OnOk result (disks self.new ≡ disks self.old) }
        ensures err { OnErr result (IsAsBefore self.old self.new) }
        ensures base { self.new.base ≡ self.old.base }
        ensures room { UsesAtMost (of_face (length corners.now)) (room self.old) (room self.new) }
        ensures notes { UsesAtMost (of_face 0) self.old.notes self.new.notes }
        ensures places { KeepsPlaces (of_face (length corners.now)) self.old.stored self.new.stored }
        ensures enough { Covers (room self.old) (of_face (length corners.now)) → Covers self.old.notes (of_face 0)
            → IsOk result }
    {
        let name = self.next.faces;
        let count = corners.len() as u32;
        make_room(&mut self.store, self.next, 0, 0, count, 1)?;
        let like = face_like(&self.store, example);
        put_face(&mut self.store, self.next, corners, like);
        self.next.faces = name + 1;
        self.next.corners += count;
        Ok(FaceName(name))
    }
}

/// Killing.
///
/// A name that was given stays given.
impl Mesh {
    /// Takes a live face away, with its corners. It takes time that grows with their number.
    pub fn kill_face(&mut self, f: FaceName) -> Result<(), NoMemory>
        requires { IsThere (now self.old).faces f.0 }
        ensures now { OnOk result (now self.new ≡ without_face (now self.old) f) }
        ensures disks { disks self.new ≡ disks self.old }
        ensures err { OnErr result (IsAsBefore self.old self.new) }
        ensures base { self.new.base ≡ self.old.base }
        ensures room { UsesAtMost none_of_all (room self.old) (room self.new) }
        ensures notes { UsesAtMost (of_face (length (corners_of (at (now self.old).faces f.0))))
            self.old.notes self.new.notes }
        ensures enough { Covers self.old.notes (of_face (length (corners_of (at (now self.old).faces f.0))))
            → IsOk result }
    {
        self.remove_face(f);
        Ok(())
    }

    /// Takes a live edge away, and the faces along it. It takes time that grows with the corners of these faces.
    pub fn kill_edge(&mut self, e: EdgeName) -> Result<(), NoMemory>
        requires { IsThere (now self.old).edges e.0 }
        ensures now { OnOk result (now self.new ≡ without_edge (now self.old) e) }
        ensures disks { OnOk result (disks self.new ≡ without_name e (disks self.old)) }
        ensures err { OnErr result (IsAsBefore self.old self.new) }
        ensures base { self.new.base ≡ self.old.base }
        ensures room { UsesAtMost none_of_all (room self.old) (room self.new) }
        ensures notes { UsesAtMost (gone_with_edge (now self.old) e) self.old.notes self.new.notes }
        ensures enough { Covers self.old.notes (gone_with_edge (now self.old) e) → IsOk result }
    {
        self.remove_edge_and_faces(e);
        Ok(())
    }

    /// Takes a live vertex away, its edges, and the faces along these. Each face with a corner at the vertex has to
    /// have a corner along one of these edges, which is so in every valid complex. It takes time that grows with the
    /// edges and with the corners of these faces.
    pub fn kill_vert(&mut self, v: VertName) -> Result<(), NoMemory>
        requires there { IsThere (now self.old).verts v.0 }
        requires corners { can_lose_vert (now self.old) v ≡ true }
        ensures now { OnOk result (now self.new ≡ without_vert (now self.old) v) }
        ensures disks { OnOk result (disks self.new ≡ without_edges_at (now self.old) v (disks self.old)) }
        ensures err { OnErr result (IsAsBefore self.old self.new) }
        ensures base { self.new.base ≡ self.old.base }
        ensures room { UsesAtMost none_of_all (room self.old) (room self.new) }
        ensures notes { UsesAtMost (gone_with_vert (now self.old) v) self.old.notes self.new.notes }
        ensures enough { Covers self.old.notes (gone_with_vert (now self.old) v) → IsOk result }
    {
        self.remove_edges_at(v);
        self.remove_vert(v);
        Ok(())
    }
}

/// Parts of the calls that kill. They take no memory.
impl Mesh {
    // Takes a live face away.
    fn remove_face(&mut self, f: FaceName)
        requires { IsThere (now self.old).faces f.0 }
        ensures now { now self.new ≡ without_face (now self.old) f }
        ensures disks { disks self.new ≡ disks self.old }
        ensures base { self.new.base ≡ self.old.base }
        ensures room { UsesAtMost none_of_all (room self.old) (room self.new) }
        ensures notes { self.new.notes ≡ self.old.notes }
    {
        let face = slot_of_face(&self.store, f.0);
        let len = self.store.face_len(face);
        take_loops(&mut self.store, face);
        self.store.drop_face(face);
        self.next.corners -= len;
    }

    // Takes a live edge away that no face uses.
    fn remove_edge(&mut self, e: EdgeName)
        requires there { IsThere (now self.old).edges e.0 }
        requires loose { is_loose (now self.old) e ≡ true }
        ensures now { now self.new ≡ only_without_edge (now self.old) e }
        ensures disks { disks self.new ≡ without_name e (disks self.old) }
        ensures base { self.new.base ≡ self.old.base }
        ensures room { UsesAtMost none_of_all (room self.old) (room self.new) }
        ensures notes { self.new.notes ≡ self.old.notes }
    {
        let edge = slot_of_edge(&self.store, e.0);
        take_edge(&mut self.store, edge);
    }

    // Takes a live vertex away at which no edge ends and no face has a corner.
    fn remove_vert(&mut self, v: VertName)
        requires there { IsThere (now self.old).verts v.0 }
        requires bare { is_bare (now self.old) v ≡ true }
        requires corners { has_no_corner (now self.old) v ≡ true }
        ensures now { now self.new ≡ only_without_vert (now self.old) v }
        ensures disks { disks self.new ≡ disks self.old }
        ensures base { self.new.base ≡ self.old.base }
        ensures room { UsesAtMost none_of_all (room self.old) (room self.new) }
        ensures notes { self.new.notes ≡ self.old.notes }
    {
        let vert = slot_of_vert(&self.store, v.0);
        self.store.drop_vert(vert);
    }

    // Takes the edges of a live vertex away, and the faces along them.
    fn remove_edges_at(&mut self, v: VertName)
        requires { IsThere (now self.old).verts v.0 }
        ensures now { now self.new ≡ record (now self.old) {
          edges = kept (λ e. not (has_end v e)) (now self.old).edges;
          faces = kept (λ f. not (uses_edge_at (now self.old) v f)) (now self.old).faces;
        } }
        ensures bare { is_bare (now self.new) v ≡ true }
        ensures disks { disks self.new ≡ without_edges_at (now self.old) v (disks self.old) }
        ensures base { self.new.base ≡ self.old.base }
        ensures room { UsesAtMost none_of_all (room self.old) (room self.new) }
        ensures notes { self.new.notes ≡ self.old.notes }
    {
        while let Some(e) = self.edge_at(v) {
            self.remove_edge_and_faces(e);
        }
    }

    // Takes a live edge away, and the faces along it.
    fn remove_edge_and_faces(&mut self, e: EdgeName)
        requires { IsThere (now self.old).edges e.0 }
        ensures now { now self.new ≡ without_edge (now self.old) e }
        ensures disks { disks self.new ≡ without_name e (disks self.old) }
        ensures base { self.new.base ≡ self.old.base }
        ensures room { UsesAtMost none_of_all (room self.old) (room self.new) }
        ensures notes { self.new.notes ≡ self.old.notes }
    {
        self.remove_faces_along(e);
        self.remove_edge(e);
    }

    // Takes the faces away that use a live edge.
    fn remove_faces_along(&mut self, e: EdgeName)
        requires { IsThere (now self.old).edges e.0 }
        ensures now { now self.new ≡
            record (now self.old) { faces = kept (λ f. not (uses_edge e f)) (now self.old).faces } }
        ensures loose { is_loose (now self.new) e ≡ true }
        ensures disks { disks self.new ≡ disks self.old }
        ensures base { self.new.base ≡ self.old.base }
        ensures room { UsesAtMost none_of_all (room self.old) (room self.new) }
        ensures notes { self.new.notes ≡ self.old.notes }
    {
        while let Some(f) = self.face_along(e) {
            self.remove_face(f);
        }
    }

    // A face that uses a live edge, if there is one.
    pub(crate) fn face_along(&self, e: EdgeName) -> Option<FaceName>
        requires { IsThere (now self.now).edges e.0 }
        ensures { MatchOption result (is_loose (now self.now) e ≡ true)
            (λ f. passes (uses_edge e) (at (now self.now).faces f.0) ≡ true) }
    {
        let edge = slot_of_edge(&self.store, e.0);
        match self.store.first_loop(edge) {
            None => None,
            Some(l) => {
                let f = self.store.loop_face(l);
                Some(FaceName(self.store.face_number(f)))
            }
        }
    }

    // An edge at a live vertex, if there is one.
    fn edge_at(&self, v: VertName) -> Option<EdgeName>
        requires { IsThere (now self.now).verts v.0 }
        ensures { MatchOption result (is_bare (now self.now) v ≡ true)
            (λ e. passes (has_end v) (at (now self.now).edges e.0) ≡ true) }
    {
        let vert = slot_of_vert(&self.store, v.0);
        match self.store.first_edge(vert) {
            None => None,
            Some(e) => Some(EdgeName(self.store.edge_number(e))),
        }
    }
}
