//! One reader and one writer for each field, whose slots have to be live, and tests for that. All take constant time
//! and no memory.
ghost use Rattle.std.specs.Prelude.{◌≡◌, ◌<◌, ◌^◌, ◌↔◌, Some, IsTrue, length};
ghost use Rattle.std.specs.Option.{option_map};
ghost use Rattle.raw_pool.specs.Slots.{IsLive};
ghost use Rattle.mesh_store.specs.Slots.{at};
ghost use Rattle.mesh_store.specs.Stored.{with_point, with_first_edge, with_ends, with_first_loop, with_loop_vert, with_loop_edge, with_loop_face, with_face_loop, with_face_len, change_vert, change_edge, change_loop, change_face};

use crate::store::Store;
use raw_pool::Slot;

/// Vertices.
impl Store {
    /// Whether a slot is that of a live vertex.
    pub fn has_vert(&self, s: Slot) -> bool
        ensures { IsTrue result ↔ IsLive self.now.verts.cells s.0 }
    {
        self.verts.contains(s)
    }

    /// The number of a vertex's name.
    pub fn vert_number(&self, s: Slot) -> u32
        requires { IsLive self.now.verts.cells s.0 }
        ensures { option_map (λ c. c.number) (at self.now.verts.cells s.0) ≡ Some result }
    {
        self.verts.get(s).number
    }

    /// The three coordinates of a vertex, in units of the grid.
    pub fn point(&self, s: Slot) -> [i64; 3]
        requires { IsLive self.now.verts.cells s.0 }
        ensures { option_map (λ c. c.point) (at self.now.verts.cells s.0) ≡ Some result }
    {
        self.verts.get(s).point
    }

    /// Writes the coordinates of a vertex.
    pub fn set_point(&mut self, s: Slot, to: [i64; 3])
        requires { IsLive self.old.verts.cells s.0 }
        ensures { self.new ≡ change_vert (with_point to) self.old s.0 }
    {
        self.verts.update(s, |vert| vert.point = to);
    }

    /// The edge with which a vertex's disk cycle begins, or `None`.
    pub fn first_edge(&self, s: Slot) -> Option<Slot>
        requires { IsLive self.now.verts.cells s.0 }
        ensures { option_map (λ c. c.first_edge) (at self.now.verts.cells s.0) ≡ Some result }
    {
        self.verts.get(s).first_edge
    }

    /// Writes a vertex's first edge.
    pub fn set_first_edge(&mut self, s: Slot, to: Option<Slot>)
        requires { IsLive self.old.verts.cells s.0 }
        ensures { self.new ≡ change_vert (with_first_edge to) self.old s.0 }
    {
        self.verts.update(s, |vert| vert.first_edge = to);
    }
}

/// Edges.
impl Store {
    /// Whether a slot is that of a live edge.
    pub fn has_edge(&self, s: Slot) -> bool
        ensures { IsTrue result ↔ IsLive self.now.edges.cells s.0 }
    {
        self.edges.contains(s)
    }

    /// The number of an edge's name.
    pub fn edge_number(&self, s: Slot) -> u32
        requires { IsLive self.now.edges.cells s.0 }
        ensures { option_map (λ c. c.number) (at self.now.edges.cells s.0) ≡ Some result }
    {
        self.edges.get(s).number
    }

    /// The two ends of an edge, that of side 0 first.
    pub fn ends(&self, s: Slot) -> [Slot; 2]
        requires { IsLive self.now.edges.cells s.0 }
        ensures { option_map (λ c. c.ends) (at self.now.edges.cells s.0) ≡ Some result }
    {
        self.edges.get(s).ends
    }

    /// Writes the two ends of an edge.
    pub fn set_ends(&mut self, s: Slot, to: [Slot; 2])
        requires { IsLive self.old.edges.cells s.0 }
        ensures { self.new ≡ change_edge (with_ends to) self.old s.0 }
    {
        self.edges.update(s, |edge| edge.ends = to);
    }

    /// The loop with which an edge's radial cycle begins, or `None`.
    pub fn first_loop(&self, s: Slot) -> Option<Slot>
        requires { IsLive self.now.edges.cells s.0 }
        ensures { option_map (λ c. c.first_loop) (at self.now.edges.cells s.0) ≡ Some result }
    {
        self.edges.get(s).first_loop
    }

    /// Writes an edge's first loop.
    pub fn set_first_loop(&mut self, s: Slot, to: Option<Slot>)
        requires { IsLive self.old.edges.cells s.0 }
        ensures { self.new ≡ change_edge (with_first_loop to) self.old s.0 }
    {
        self.edges.update(s, |edge| edge.first_loop = to);
    }
}

/// Loops.
impl Store {
    /// Whether a slot is that of a live loop.
    pub fn has_loop(&self, s: Slot) -> bool
        ensures { IsTrue result ↔ IsLive self.now.loops s.0 }
    {
        self.loops.contains(s)
    }

    /// The vertex at which a loop stands.
    pub fn loop_vert(&self, s: Slot) -> Slot
        requires { IsLive self.now.loops s.0 }
        ensures { option_map (λ c. c.vert) (at self.now.loops s.0) ≡ Some result }
    {
        self.loops.get(s).vert
    }

    /// Writes a loop's vertex.
    pub fn set_loop_vert(&mut self, s: Slot, to: Slot)
        requires { IsLive self.old.loops s.0 }
        ensures { self.new ≡ change_loop (with_loop_vert to) self.old s.0 }
    {
        let corner = self.loops.get_mut(s);
        corner.vert = to;
    }

    /// The edge along which a loop goes.
    pub fn loop_edge(&self, s: Slot) -> Slot
        requires { IsLive self.now.loops s.0 }
        ensures { option_map (λ c. c.edge) (at self.now.loops s.0) ≡ Some result }
    {
        self.loops.get(s).edge
    }

    /// Writes a loop's edge.
    pub fn set_loop_edge(&mut self, s: Slot, to: Slot)
        requires { IsLive self.old.loops s.0 }
        ensures { self.new ≡ change_loop (with_loop_edge to) self.old s.0 }
    {
        let corner = self.loops.get_mut(s);
        corner.edge = to;
    }

    /// The face of a loop.
    pub fn loop_face(&self, s: Slot) -> Slot
        requires { IsLive self.now.loops s.0 }
        ensures { option_map (λ c. c.face) (at self.now.loops s.0) ≡ Some result }
    {
        self.loops.get(s).face
    }

    /// Writes a loop's face.
    pub fn set_loop_face(&mut self, s: Slot, to: Slot)
        requires { IsLive self.old.loops s.0 }
        ensures { self.new ≡ change_loop (with_loop_face to) self.old s.0 }
    {
        let corner = self.loops.get_mut(s);
        corner.face = to;
    }
}

/// Faces.
impl Store {
    /// Whether a slot is that of a live face.
    pub fn has_face(&self, s: Slot) -> bool
        ensures { IsTrue result ↔ IsLive self.now.faces.cells s.0 }
    {
        self.faces.contains(s)
    }

    /// The number of a face's name.
    pub fn face_number(&self, s: Slot) -> u32
        requires { IsLive self.now.faces.cells s.0 }
        ensures { option_map (λ c. c.number) (at self.now.faces.cells s.0) ≡ Some result }
    {
        self.faces.get(s).number
    }

    /// The loop with which a face's loop cycle begins, or `None`. There are never as many loops as 32 bits could count.
    pub fn face_loop(&self, s: Slot) -> Option<Slot>
        requires { IsLive self.now.faces.cells s.0 }
        ensures first { option_map (λ c. c.first_loop) (at self.now.faces.cells s.0) ≡ Some result }
        ensures few { length self.now.loops < 2 ^ 32 }
    {
        self.faces.get(s).first_loop
    }

    /// Writes a face's first loop.
    pub fn set_face_loop(&mut self, s: Slot, to: Option<Slot>)
        requires { IsLive self.old.faces.cells s.0 }
        ensures { self.new ≡ change_face (with_face_loop to) self.old s.0 }
    {
        self.faces.update(s, |face| face.first_loop = to);
    }

    /// The stored number of a face's loops. There are never as many loops as 32 bits could count.
    pub fn face_len(&self, s: Slot) -> u32
        requires { IsLive self.now.faces.cells s.0 }
        ensures len { option_map (λ c. c.len) (at self.now.faces.cells s.0) ≡ Some result }
        ensures few { length self.now.loops < 2 ^ 32 }
    {
        self.faces.get(s).len
    }

    /// Writes the stored number of a face's loops.
    pub fn set_face_len(&mut self, s: Slot, to: u32)
        requires { IsLive self.old.faces.cells s.0 }
        ensures { self.new ≡ change_face (with_face_len to) self.old s.0 }
    {
        self.faces.update(s, |face| face.len = to);
    }
}
