//! The way back.
ghost use Rattle.std.specs.Prelude.{◌≡◌, IfOk, OnOk, OnErr};
ghost use Rattle.mesh_model.specs.ChangeSet.{change_set, leads};
ghost use Rattle.mesh_model.specs.Valid.{IsValid};
ghost use Rattle.mesh_trail.specs.Pasts.{widths_of};
ghost use Rattle.mesh_core.specs.Seen.{now, disks, room, IsAsBefore};

use crate::mesh::Mesh;
use mesh_former::Former;
use mesh_model::{Draft, NoMemory, Shape};
use mesh_trail::Past;
use std::mem;

/// The way back.
///
/// A mesh keeps a second complex, its base, to which it can go back whatever was done or failed since.
impl Mesh {
    /// Makes the mesh's complex the one to which there is a way back, in time and memory that grow with its names and
    /// corners. After `NoMemory` both are as before.
    pub fn mark(&mut self) -> Result<(), NoMemory>
        ensures now { now self.new ≡ now self.old }
        ensures base { OnOk result (self.new.base ≡ now self.old) }
        ensures disks { disks self.new ≡ disks self.old }
        ensures err { OnErr result (IsAsBefore self.old self.new) }
        ensures room { room self.new ≡ room self.old }
        ensures notes { self.new.notes ≡ self.old.notes }
    {
        self.base = Some(Draft::copy_of(self.alloc, self)?);
        Ok(())
    }

    /// Does what `mark` does, and hands out the complex to which there was a way back.
    pub fn exchange_base(&mut self) -> Result<Draft, NoMemory>
        ensures before { IfOk result (λ d. d ≡ self.old.base) }
        ensures now { now self.new ≡ now self.old }
        ensures base { OnOk result (self.new.base ≡ now self.old) }
        ensures disks { disks self.new ≡ disks self.old }
        ensures err { OnErr result (IsAsBefore self.old self.new) }
        ensures room { room self.new ≡ room self.old }
        ensures notes { self.new.notes ≡ self.old.notes }
    {
        let marked = Draft::copy_of(self.alloc, self)?;
        match mem::replace(&mut self.base, Some(marked)) {
            Some(before) => Ok(before),
            None => Ok(Draft::bare(self.alloc)),
        }
    }

    /// Goes back: makes the mesh its base again. Takes no memory, and time that grows with what there is and with the
    /// names and corners of the base.
    pub fn back(&mut self)
        ensures now { now self.new ≡ self.old.base }
        ensures base { self.new.base ≡ self.old.base }
    {
        let Some(base) = self.base.take() else {
            *self = Mesh::new(self.alloc);
            return;
        };
        self.refill(&base);
        self.base = Some(base);
    }

    /// Makes the mesh's complex the one to which a past leads from it, which has to be valid. The base stays. It takes
    /// time that grows with the names and corners of both, 33 steps for each name that is noted, and memory for the new
    /// complex beside the present one. After `NoMemory` the mesh is as before.
    pub fn revert(&mut self, past: &Past) -> Result<(), NoMemory>
        requires valid { IsValid (leads past.now.changes (now self.old)) }
        ensures now { OnOk result (now self.new ≡ leads past.now.changes (now self.old)) }
        ensures base { self.new.base ≡ self.old.base }
        ensures err { OnErr result (IsAsBefore self.old self.new) }
    {
        let led = Draft::copy_of(self.alloc, &Former::new(past, self))?;
        let next = led.counters();
        self.reserve(
            next.verts as usize,
            next.edges as usize,
            next.corners as usize,
            next.faces as usize,
        )?;
        self.refill(&led);
        Ok(())
    }

    /// The change set that leads back from the mesh's complex to its base: a note for exactly each element whose
    /// records differ, values included, or that stands in one of the two only, and the next names of the base. It
    /// takes at most 33 steps for each name of either, beside the values and corners, and on the way as much memory as
    /// notes of the whole base need.
    pub fn keep(&self) -> Result<Past, NoMemory>
        ensures changes { IfOk result (λ p. p.changes ≡ change_set self.now.base (now self.now)) }
        ensures widths { IfOk result (λ p. p.widths ≡ widths_of self.now.base) }
    {
        match &self.base {
            None => Past::from_nothing(self.alloc, self),
            Some(base) => Past::between(self.alloc, base, self),
        }
    }
}
