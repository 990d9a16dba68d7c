ghost use Rattle.std.specs.Prelude.{◌≡◌, IfOk, IsTrue};
ghost use Rattle.mesh_model.specs.Elements.{no_elements};
ghost use Rattle.mesh_model.specs.Naming.{are_rising, is_rising, vert_numbers, edge_numbers, face_numbers};

use mesh_model::{EdgeName, FaceName, VertName};
use sequence::{NoMemory, Sequence};
use std::alloc::Global;
use std::marker::Model;

/// Elements of each kind, by rising name and without repeats.
#[derive(Debug, Drop)]
pub struct Buffer {
    verts: Sequence<VertName>,
    edges: Sequence<EdgeName>,
    faces: Sequence<FaceName>,
}

impl Model for Buffer {
    ghost use Rattle.std.specs.Prelude.{IsTrue};
    ghost use Rattle.mesh_model.specs.Elements.{Elements};
    ghost use Rattle.mesh_model.specs.Naming.{are_rising};

    ghost Value = { Elements };

    ghost view = { λ b. record { verts = b.verts; edges = b.edges; faces = b.faces } };

    ghost invariant = { λ b. IsTrue (are_rising (record { verts = b.verts; edges = b.edges; faces = b.faces })) };
}

impl Buffer {
    /// No element. Takes no memory.
    pub fn new(alloc: Global) -> Buffer
        ensures { result ≡ no_elements }
    {
        Buffer {
            verts: Sequence::new(alloc),
            edges: Sequence::new(alloc),
            faces: Sequence::new(alloc),
        }
    }

    /// The elements of these names, which rise in each list. Takes no memory.
    pub fn of(
        verts: Sequence<VertName>,
        edges: Sequence<EdgeName>,
        faces: Sequence<FaceName>,
    ) -> Buffer
        requires { IsTrue (are_rising (record { verts = verts; edges = edges; faces = faces })) }
        ensures { result ≡ record { verts = verts; edges = edges; faces = faces } }
    {
        Buffer {
            verts,
            edges,
            faces,
        }
    }

    /// The vertices, by rising name.
    pub fn verts(&self) -> &[VertName]
        ensures names { result.now ≡ self.now.verts }
        ensures rising { IsTrue (is_rising (vert_numbers self.now.verts)) }
    {
        self.verts.as_slice()
    }

    /// The edges, by rising name.
    pub fn edges(&self) -> &[EdgeName]
        ensures names { result.now ≡ self.now.edges }
        ensures rising { IsTrue (is_rising (edge_numbers self.now.edges)) }
    {
        self.edges.as_slice()
    }

    /// The faces, by rising name.
    pub fn faces(&self) -> &[FaceName]
        ensures names { result.now ≡ self.now.faces }
        ensures rising { IsTrue (is_rising (face_numbers self.now.faces)) }
    {
        self.faces.as_slice()
    }

    /// An equal buffer, in time proportional to its names.
    pub fn copy(&self) -> Result<Buffer, NoMemory>
        ensures { IfOk result (λ b. b ≡ self.now) }
    {
        let verts = self.verts.copy()?;
        let edges = self.edges.copy()?;
        let faces = self.faces.copy()?;
        Ok(Buffer {
            verts,
            edges,
            faces,
        })
    }
}
