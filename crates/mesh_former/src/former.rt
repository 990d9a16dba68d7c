//! What is read from a past where an element has a note, and else from the shape that stands now.
ghost use Rattle.std.specs.Prelude.{◌≡◌, length, is_some};
ghost use Rattle.mesh_model.specs.Table.{at, passes};
ghost use Rattle.mesh_model.specs.Complex.{corners_of, corner_sum};
ghost use Rattle.mesh_model.specs.Incidence.{uses_edge};
ghost use Rattle.mesh_model.specs.Valid.{IsValid};
ghost use Rattle.mesh_model.specs.ChangeSet.{leads};

use mesh_model::{EdgeName, Elem, FaceName, Shape, VertName};
use mesh_trail::Past;
use std::marker::Model;

/// A complex as it was before the changes that a past notes.
///
/// An element that has a note is read from the past, and each other one from the shape that stands now. To find a
/// note takes at most 33 steps.
#[derive(Drop)]
pub struct Former<'a, S: Shape> {
    pub(crate) past: &'a Past,
    pub(crate) shape: &'a S,
}

impl<'a, S: Shape> Model for Former<'a, S> {
    ghost use Rattle.mesh_model.specs.Complex.{Complex};
    ghost use Rattle.mesh_former.specs.Former.{former, IsFormer};

    ghost Value = { Complex };

    ghost view = { λ f. former f.past.now (S.complex f.shape.now) };

    ghost invariant = { λ f. IsFormer (former f.past.now (S.complex f.shape.now)) };
}

impl<'a, S: Shape> Former<'a, S> {
    /// The complex to which a past leads from a shape, which has to be a valid one. Takes constant time and no memory.
    pub fn new(past: &'a Past, shape: &'a S) -> Former<'a, S>
        requires { IsValid (leads past.now.changes (S.complex shape.now)) }
        ensures { result ≡ leads past.now.changes (S.complex shape.now) }
    {
        Former { past, shape }
    }

    // The next name of a vertex.
    pub(crate) fn next_vert(&self) -> u32
        ensures { result ≡ length self.now.verts }
    {
        let [next, _, _] = self.past.counters();
        next
    }

    // The next name of an edge.
    pub(crate) fn next_edge(&self) -> u32
        ensures { result ≡ length self.now.edges }
    {
        let [_, next, _] = self.past.counters();
        next
    }

    // The next name of a face.
    pub(crate) fn next_face(&self) -> u32
        ensures { result ≡ length self.now.faces }
    {
        let [_, _, next] = self.past.counters();
        next
    }

    // Whether a vertex is there.
    pub(crate) fn has_vert(&self, v: VertName) -> bool
        ensures { result ≡ is_some (at self.now.verts v.0) }
    {
        if v.0 >= self.next_vert() {
            return false;
        }
        let x = Elem::Vert(v);
        if self.past.has(x) {
            return !self.past.was_absent(x);
        }
        self.shape.has(x)
    }

    // Whether an edge is there.
    pub(crate) fn has_edge(&self, e: EdgeName) -> bool
        ensures { result ≡ is_some (at self.now.edges e.0) }
    {
        if e.0 >= self.next_edge() {
            return false;
        }
        let x = Elem::Edge(e);
        if self.past.has(x) {
            return !self.past.was_absent(x);
        }
        self.shape.has(x)
    }

    // Whether a face is there.
    pub(crate) fn has_face(&self, f: FaceName) -> bool
        ensures { result ≡ is_some (at self.now.faces f.0) }
    {
        if f.0 >= self.next_face() {
            return false;
        }
        let x = Elem::Face(f);
        if self.past.has(x) {
            return !self.past.was_absent(x);
        }
        self.shape.has(x)
    }

    // The number of a face's corners, and 0 where it isn't there.
    fn corners_at(&self, f: FaceName) -> u32
        ensures { result ≡ length (corners_of (at self.now.faces f.0)) }
    {
        if self.has_face(f) {
            self.corner_count(f)
        } else {
            0
        }
    }

    // The number of corners of all faces.
    pub(crate) fn corner_total(&self) -> u32
        ensures { result ≡ corner_sum self.now.faces }
    {
        let _ = &self.past;
        let mut corners = 0;
        for f in 0..self.next_face() {
            corners += self.corners_at(FaceName(f));
        }
        corners
    }

    // Whether a face is there and has a corner along an edge.
    pub(crate) fn has_along(&self, f: FaceName, e: EdgeName) -> bool
        ensures { result ≡ passes (uses_edge e) (at self.now.faces f.0) }
    {
        for i in 0..self.corners_at(f) {
            let (_, edge) = self.corner(f, i);
            if edge.0 == e.0 {
                return true;
            }
        }
        false
    }
}
