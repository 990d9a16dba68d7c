//! A draft of a shape, and a draft without some of its vertices.

ghost use Rattle.std.specs.Prelude.{◌≡◌, IfOk};
ghost use Rattle.std.specs.List.{All};
ghost use Rattle.mesh_model.specs.Table.{IsThere};
ghost use Rattle.mesh_model.specs.Deleting.{without_verts};
ghost use Rattle.mesh_model.specs.Valid.{IsValid, IsSimple};

use crate::copying::part_of;
use crate::draft::Draft;
use crate::names::VertName;
use crate::shape::Shape;
use sequence::NoMemory;
use std::alloc::Global;

impl Draft {
    /// The complex of a shape, in time proportional to its names and corners. Each face is read in one walk.
    pub fn copy_of<S: Shape>(alloc: Global, shape: &S) -> Result<Draft, NoMemory>
        ensures { IfOk result (λ d. d ≡ S.complex shape.now) }
    {
        part_of(alloc, shape, &[])
    }

    /// An equal complex, in time proportional to its names and corners.
    pub fn copy(&self) -> Result<Draft, NoMemory>
        ensures { IfOk result (λ d. d ≡ self.now) }
    {
        Draft::copy_of(self.alloc, self)
    }

    /// The complex without some vertices, their edges and the faces with them, in time proportional to its names and
    /// corners.
    pub fn without_verts(&self, verts: &[VertName]) -> Result<Draft, NoMemory>
        requires valid { IsValid self.now }
        requires there { All (λ v. IsThere self.now.verts v.0) verts.now }
        ensures rest { IfOk result (λ d. d ≡ without_verts self.now verts.now) }
        ensures valid { IfOk result (λ d. IsValid d) }
        ensures simple { IsSimple self.now → IfOk result (λ d. IsSimple d) }
    {
        part_of(self.alloc, self, verts)
    }
}
