ghost use Rattle.std.specs.Prelude.{◌≡◌, ◌≤◌, ◌<◌, ◌+◌, ◌*◌, ◌↔◌, true, [], ◌∷◌, OnOk, OnErr, IsOk, IfOk, IsSome, Some};
ghost use Rattle.std.specs.Prelude.{length, map, is_some, slice_get};
ghost use Rattle.std.specs.List.{flat_map};
ghost use Rattle.std.specs.FinMap.{get};
ghost use Rattle.std.specs.Option.{option_map};
ghost use Rattle.mesh_model.specs.Table.{at};
ghost use Rattle.mesh_model.specs.Complex.{corners_of};
ghost use Rattle.mesh_model.specs.ChangeSet.{trim};
ghost use Rattle.mesh_model.specs.ChangeSetNotes.{with_first_note};
ghost use Rattle.mesh_trail.specs.Pasts.{widths_of, no_changes, no_room, IsAtMost, number_of, count_of, is_noted, was_absent};
ghost use Rattle.mesh_trail.specs.Noted.{noted};
ghost use Rattle.mesh_trail.specs.Tree.{IsLeast};
ghost use Rattle.mesh_trail.specs.Wide.{AreRowsWide};

use crate::edges::{Ends, note_edge, trim_edges};
use crate::faces::FaceTable;
use crate::table::Table;
use crate::verts::{note_vert, trim_verts};
use mesh_model::{EdgeName, Elem, FaceName, Kind, NoMemory, Point, Shape, VertName};
use std::alloc::Global;
use std::marker::Model;

/// Earlier records of some elements, each with its values, or that an element wasn't there; and the next
/// names of then. A complex that has changed is led back by it.
///
/// To find or note a name takes at most 33 steps, beside its values and corners.
#[derive(Drop)]
pub struct Past {
    verts: Table<Point>,
    edges: Table<Ends>,
    faces: FaceTable,
    next_vert: u32,
    next_edge: u32,
    next_face: u32,
}

impl Model for Past {
    ghost use Rattle.mesh_trail.specs.Noted.{map_notes};
    ghost use Rattle.mesh_trail.specs.Kept.{vert_of, edge_of};
    ghost use Rattle.mesh_trail.specs.Pasts.{NotedPast, past_code};

    ghost Value = { NotedPast };

    ghost coded = { past_code };

    ghost view = { λ p. record {
      changes = record {
        verts = map_notes vert_of p.verts.names;
        edges = map_notes edge_of p.edges.names;
        faces = p.faces.names;
        next = record { verts = p.next_vert; edges = p.next_edge; faces = p.next_face };
      };
      widths = record {
        verts = p.verts.width;
        edges = p.edges.width;
        corners = p.faces.corner_width;
        faces = p.faces.width;
      };
      room = record { verts = p.verts.room; edges = p.edges.room; corners = p.faces.corner_room; faces = p.faces.room };
    } };
}

impl Past {
    /// No note, and the next names and the widths of now. Takes no memory.
    pub fn new<S: Shape>(alloc: Global, now: &S) -> Past
        ensures changes { result.changes ≡ no_changes (S.complex now.now) }
        ensures widths { result.widths ≡ widths_of (S.complex now.now) }
        ensures room { result.room ≡ no_room }
    {
        let next = now.counters();
        Past {
            verts: Table::new(alloc, now.width(Kind::Verts)),
            edges: Table::new(alloc, now.width(Kind::Edges)),
            faces: FaceTable::new(alloc, now.width(Kind::Faces), now.width(Kind::Corners)),
            next_vert: next.verts,
            next_edge: next.edges,
            next_face: next.faces,
        }
    }

    /// Whether the rows of values are as wide as a shape's, as each call asks that is given one.
    pub fn fits<S: Shape>(&self, now: &S) -> bool
        ensures { result ≡ true ↔ (self.now.widths ≡ widths_of (S.complex now.now)) }
    {
        let (faces, corners) = self.faces.widths();
        if self.verts.width() != now.width(Kind::Verts) {
            return false;
        }
        if self.edges.width() != now.width(Kind::Edges) {
            return false;
        }
        if corners != now.width(Kind::Corners) {
            return false;
        }
        faces == now.width(Kind::Faces)
    }

    /// Takes away each note, and has the next names and the widths of now. Takes no memory, and keeps what there is:
    /// the room of each kind whose width is the same stays.
    pub fn restart<S: Shape>(&mut self, now: &S)
        ensures changes { self.new.changes ≡ no_changes (S.complex now.now) }
        ensures widths { self.new.widths ≡ widths_of (S.complex now.now) }
        ensures room { self.old.widths ≡ widths_of (S.complex now.now) → self.new.room ≡ self.old.room }
    {
        let next = now.counters();
        self.verts.restart(now.width(Kind::Verts));
        self.edges.restart(now.width(Kind::Edges));
        self.faces
            .restart(now.width(Kind::Faces), now.width(Kind::Corners));
        self.next_vert = next.verts;
        self.next_edge = next.edges;
        self.next_face = next.faces;
    }

    /// The same notes, next names and widths in memory of its own, no more than the notes need: the rows of values
    /// and the corners of notes that were trimmed away aren't copied. Takes at most 33 steps a note, beside its
    /// values and corners.
    pub fn copy(&self) -> Result<Past, NoMemory>
        ensures changes { IfOk result (λ p. p.changes ≡ self.now.changes) }
        ensures widths { IfOk result (λ p. p.widths ≡ self.now.widths) }
    {
        let verts = self.verts.copy()?;
        let edges = self.edges.copy()?;
        let faces = self.faces.copy()?;
        Ok(Past {
            verts,
            edges,
            faces,
            next_vert: self.next_vert,
            next_edge: self.next_edge,
            next_face: self.next_face,
        })
    }

    /// Makes room for so many further notes of each kind, the faces with so many corners together: that many
    /// are then made without memory. After `NoMemory` the past is as before.
    pub fn reserve(
        &mut self,
        verts: usize,
        edges: usize,
        corners: usize,
        faces: usize,
    ) -> Result<(), NoMemory>
        ensures changes { self.new.changes ≡ self.old.changes }
        ensures widths { self.new.widths ≡ self.old.widths }
        ensures ok { OnOk result (IsAtMost (record { verts = verts; edges = edges; corners = corners; faces = faces })
            self.new.room) }
        ensures err { OnErr result (self.new ≡ self.old) }
        ensures room { IsAtMost self.old.room self.new.room }
    {
        let vert_room = self.verts.room();
        let edge_room = self.edges.room();
        let (face_room, corner_room) = self.faces.room();
        let made = self.make_room(verts, edges, corners, faces);
        if made.is_err() {
            self.verts.lessen(vert_room);
            self.edges.lessen(edge_room);
            self.faces.lessen(face_room, corner_room);
        }
        made
    }

    // Makes room for so many further notes of each kind, or maybe of some kinds alone.
    fn make_room(
        &mut self,
        verts: usize,
        edges: usize,
        corners: usize,
        faces: usize,
    ) -> Result<(), NoMemory>
        ensures changes { self.new.changes ≡ self.old.changes }
        ensures widths { self.new.widths ≡ self.old.widths }
        ensures ok { OnOk result (IsAtMost (record { verts = verts; edges = edges; corners = corners; faces = faces })
            self.new.room) }
        ensures room { IsAtMost self.old.room self.new.room }
    {
        self.verts.reserve(verts)?;
        self.edges.reserve(edges)?;
        self.faces.reserve(faces, corners)?;
        Ok(())
    }

    /// Notes a vertex's record, or that it isn't there. Where the name has a note, nothing changes.
    pub fn note_vert<S: Shape>(&mut self, name: VertName, now: &S) -> Result<(), NoMemory>
        requires { self.old.widths ≡ widths_of (S.complex now.now) }
        ensures ok { OnOk result (self.new.changes
            ≡ record self.old.changes {
              verts = with_first_note self.old.changes.verts name.0
                  (at (S.complex now.now).verts name.0);
            }) }
        ensures err { OnErr result (self.new ≡ self.old) }
        ensures there { IsSome (get self.old.changes.verts name.0) → IsOk result × (self.new ≡ self.old) }
        ensures widths { self.new.widths ≡ self.old.widths }
        ensures succeeds { 0 < self.old.room.verts → IsOk result }
        ensures room { IsAtMost self.old.room (record self.new.room { verts = self.new.room.verts + 1 }) }
    {
        if self.verts.has(name.0) {
            return Ok(());
        }
        note_vert(&mut self.verts, name, now)?;
        Ok(())
    }

    /// Notes an edge's record, or that it isn't there. Where the name has a note, nothing changes.
    pub fn note_edge<S: Shape>(&mut self, name: EdgeName, now: &S) -> Result<(), NoMemory>
        requires { self.old.widths ≡ widths_of (S.complex now.now) }
        ensures ok { OnOk result (self.new.changes
            ≡ record self.old.changes {
              edges = with_first_note self.old.changes.edges name.0
                  (at (S.complex now.now).edges name.0);
            }) }
        ensures err { OnErr result (self.new ≡ self.old) }
        ensures there { IsSome (get self.old.changes.edges name.0) → IsOk result × (self.new ≡ self.old) }
        ensures widths { self.new.widths ≡ self.old.widths }
        ensures succeeds { 0 < self.old.room.edges → IsOk result }
        ensures room { IsAtMost self.old.room (record self.new.room { edges = self.new.room.edges + 1 }) }
    {
        if self.edges.has(name.0) {
            return Ok(());
        }
        note_edge(&mut self.edges, name, now)?;
        Ok(())
    }

    /// Notes a face's record, or that it isn't there. Where the name has a note, nothing changes.
    pub fn note_face<S: Shape>(&mut self, name: FaceName, now: &S) -> Result<(), NoMemory>
        requires { self.old.widths ≡ widths_of (S.complex now.now) }
        ensures ok { OnOk result (self.new.changes
            ≡ record self.old.changes {
              faces = with_first_note self.old.changes.faces name.0
                  (at (S.complex now.now).faces name.0);
            }) }
        ensures err { OnErr result (self.new ≡ self.old) }
        ensures there { IsSome (get self.old.changes.faces name.0) → IsOk result × (self.new ≡ self.old) }
        ensures widths { self.new.widths ≡ self.old.widths }
        ensures succeeds { 0 < self.old.room.faces
            → length (corners_of (at (S.complex now.now).faces name.0)) ≤ self.old.room.corners → IsOk result }
        ensures room { IsAtMost self.old.room (record self.new.room {
          corners = self.new.room.corners + length (corners_of (at (S.complex now.now).faces name.0));
          faces = self.new.room.faces + 1;
        }) }
    {
        if self.faces.has(name.0) {
            return Ok(());
        }
        self.faces.note(name, now)?;
        Ok(())
    }

    /// Takes away each note whose record equals now's, and each that an element wasn't there which isn't there
    /// now. Takes no memory, and the time of a sort of the notes by name. The rows and the corners of notes that were
    /// taken away stay in memory until `restart`, and a `copy` has none of them.
    pub fn trim<S: Shape>(&mut self, now: &S)
        requires { self.old.widths ≡ widths_of (S.complex now.now) }
        ensures changes { self.new.changes ≡ trim self.old.changes (S.complex now.now) }
        ensures widths { self.new.widths ≡ self.old.widths }
        ensures room { IsAtMost self.old.room self.new.room }
    {
        trim_verts(&mut self.verts, now);
        trim_edges(&mut self.edges, now);
        self.faces.trim(now);
    }

    /// The number of notes of a kind, and 0 for corners.
    pub fn entries(&self, kind: Kind) -> usize
        ensures { result ≡ count_of self.now.changes kind }
    {
        match kind {
            Kind::Verts => self.verts.len(),
            Kind::Edges => self.edges.len(),
            Kind::Corners => 0,
            Kind::Faces => self.faces.len(),
        }
    }

    /// The number of values in each row of a kind.
    pub fn width(&self, kind: Kind) -> usize
        ensures { result ≡ number_of self.now.widths kind }
    {
        let (faces, corners) = self.faces.widths();
        match kind {
            Kind::Verts => self.verts.width(),
            Kind::Edges => self.edges.width(),
            Kind::Corners => corners,
            Kind::Faces => faces,
        }
    }

    /// Does nothing. Each row of values that is noted is as wide as the widths say.
    pub fn rows_fit(&self)
        ensures { AreRowsWide self.now }
    {
        self.verts.rows_fit();
        self.edges.rows_fit();
        self.faces.rows_fit();
    }

    /// Whether an element has a note.
    pub fn has(&self, x: Elem) -> bool
        ensures { result ≡ is_noted self.now.changes x }
    {
        match x {
            Elem::Vert(v) => self.verts.has(v.0),
            Elem::Edge(e) => self.edges.has(e.0),
            Elem::Face(f) => self.faces.has(f.0),
        }
    }

    /// Whether an element has the note that it wasn't there.
    pub fn was_absent(&self, x: Elem) -> bool
        ensures { result ≡ was_absent self.now.changes x }
    {
        match x {
            Elem::Vert(v) => self.verts.was_absent(v.0),
            Elem::Edge(e) => self.edges.was_absent(e.0),
            Elem::Face(f) => self.faces.was_absent(f.0),
        }
    }

    /// The earlier next names of vertices, edges and faces.
    pub fn counters(&self) -> [u32; 3]
        ensures { result ≡ self.now.changes.next.verts ∷ self.now.changes.next.edges ∷ self.now.changes.next.faces
            ∷ [] }
    {
        [self.next_vert, self.next_edge, self.next_face]
    }

    /// The least vertex with a note whose number isn't below `least`, and None just where there is none. Takes at
    /// most 33 steps after a trim or where names were noted in rising order, and beside them one step for each note
    /// since then.
    pub fn vert_from(&self, least: u32) -> Option<VertName>
        ensures { IsLeast self.now.changes.verts least (option_map (λ v. v.0) result) }
    {
        match self.verts.least(least) {
            Some(n) => Some(VertName(n)),
            None => None,
        }
    }

    /// The least edge with a note whose number isn't below `least`, and None just where there is none, at the cost of
    /// `vert_from`.
    pub fn edge_from(&self, least: u32) -> Option<EdgeName>
        ensures { IsLeast self.now.changes.edges least (option_map (λ e. e.0) result) }
    {
        match self.edges.least(least) {
            Some(n) => Some(EdgeName(n)),
            None => None,
        }
    }

    /// The least face with a note whose number isn't below `least`, and None just where there is none, at the cost of
    /// `vert_from`.
    pub fn face_from(&self, least: u32) -> Option<FaceName>
        ensures { IsLeast self.now.changes.faces least (option_map (λ f. f.0) result) }
    {
        match self.faces.least(least) {
            Some(n) => Some(FaceName(n)),
            None => None,
        }
    }

    /// The point that a vertex had, which has a note with a record.
    pub fn point(&self, v: VertName) -> Point
        requires { IsSome (noted self.now.changes.verts v.0) }
        ensures { option_map (λ r. r.point) (noted self.now.changes.verts v.0) ≡ Some result }
    {
        match self.verts.body(v.0) {
            Some(point) => point,
            None => Point { x: 0, y: 0, z: 0 },
        }
    }

    /// The two ends that an edge had, `a` first. It has a note with a record.
    pub fn ends(&self, e: EdgeName) -> [VertName; 2]
        requires { IsSome (noted self.now.changes.edges e.0) }
        ensures { option_map (λ r. r.a ∷ r.b ∷ []) (noted self.now.changes.edges e.0) ≡ Some result }
    {
        match self.edges.body(e.0) {
            Some(ends) => [ends.a, ends.b],
            None => [VertName(0), VertName(0)],
        }
    }

    /// The number of corners that a face had, which has a note with a record.
    pub fn corner_count(&self, f: FaceName) -> u32
        requires { IsSome (noted self.now.changes.faces f.0) }
        ensures { result ≡ length (corners_of (noted self.now.changes.faces f.0)) }
    {
        self.faces.corner_count(f.0)
    }

    /// The vertex and the edge that a face's corner had, by its position from 0.
    pub fn corner(&self, f: FaceName, i: u32) -> (VertName, EdgeName)
        requires { i < length (corners_of (noted self.now.changes.faces f.0)) }
        ensures { option_map (λ k. (k.vert, k.edge)) (slice_get (corners_of (noted self.now.changes.faces f.0)) i)
            ≡ Some result }
    {
        self.faces.corner(f.0, i)
    }

    /// The vertices and the edges of the corners that a face had in order, in one walk round it. The face has a note
    /// with a record.
    pub fn corners(&self, f: FaceName, into: &mut [(VertName, EdgeName)])
        requires there { IsSome (noted self.now.changes.faces f.0) }
        requires room { length into.old ≡ length (corners_of (noted self.now.changes.faces f.0)) }
        ensures { into.new ≡ map (λ k. (k.vert, k.edge)) (corners_of (noted self.now.changes.faces f.0)) }
    {
        self.faces.corners(f.0, into);
    }

    /// The values of the corners that a face had in order, one row behind another, in one walk round it. The face has
    /// a note with a record.
    pub fn corner_rows(&self, f: FaceName, into: &mut [i64])
        requires there { IsSome (noted self.now.changes.faces f.0) }
        requires room { length into.old ≡ length (corners_of (noted self.now.changes.faces f.0)) * self.now.widths.corners }
        ensures { into.new ≡ flat_map (λ k. k.vals) (corners_of (noted self.now.changes.faces f.0)) }
    {
        self.faces.corner_rows(f.0, into);
    }

    /// A number of the row of values that a vertex had.
    pub fn vert_value(&self, v: VertName, k: usize) -> i64
        requires there { IsSome (noted self.now.changes.verts v.0) }
        requires within { k < self.now.widths.verts }
        ensures { option_map (λ r. slice_get r.vals k) (noted self.now.changes.verts v.0) ≡ Some (Some result) }
    {
        self.verts.value(v.0, k)
    }

    /// A number of the row of values that an edge had.
    pub fn edge_value(&self, e: EdgeName, k: usize) -> i64
        requires there { IsSome (noted self.now.changes.edges e.0) }
        requires within { k < self.now.widths.edges }
        ensures { option_map (λ r. slice_get r.vals k) (noted self.now.changes.edges e.0) ≡ Some (Some result) }
    {
        self.edges.value(e.0, k)
    }

    /// A number of the row of values that a face's corner had, by its position from 0.
    pub fn corner_value(&self, f: FaceName, i: u32, k: usize) -> i64
        requires there { i < length (corners_of (noted self.now.changes.faces f.0)) }
        requires within { k < self.now.widths.corners }
        ensures { option_map (λ r. slice_get r.vals k) (slice_get (corners_of (noted self.now.changes.faces f.0)) i)
            ≡ Some (Some result) }
    {
        self.faces.corner_value(f.0, i, k)
    }

    /// A number of the row of values that a face had.
    pub fn face_value(&self, f: FaceName, k: usize) -> i64
        requires there { IsSome (noted self.now.changes.faces f.0) }
        requires within { k < self.now.widths.faces }
        ensures { option_map (λ r. slice_get r.vals k) (noted self.now.changes.faces f.0) ≡ Some (Some result) }
    {
        self.faces.value(f.0, k)
    }
}
