//! The values of a store's elements, by slot.
ghost use Rattle.std.specs.Prelude.{◌≡◌};
ghost use Rattle.std.specs.Borrow.{sem};
ghost use Rattle.mesh_store.specs.Stored.{no_values};
ghost use Rattle.mesh_store.specs.Parts.{table_of};
ghost use Rattle.mesh_store.specs.Lent.{lends_table};

use cust_data::LayerSet;
use std::alloc::Global;

/// A part of a store: a kind of elements, which has a pool and layers of values of its own.
#[derive(Clone, Copy, Debug, PartialEq, Eq)]
pub enum Part {
    /// Vertices.
    Vert,
    /// Edges.
    Edge,
    /// Loops, which are the corners of faces.
    Loop,
    /// Faces.
    Face,
}

/// The layers of each part, with a row of values for each slot.
#[derive(Drop)]
pub struct Layers {
    pub(crate) verts: LayerSet,
    pub(crate) edges: LayerSet,
    pub(crate) loops: LayerSet,
    pub(crate) faces: LayerSet,
}

impl Layers {
    /// No layer and no row. Takes no memory.
    pub(crate) fn new(alloc: Global) -> Layers
        ensures { result ≡ no_values }
    {
        Layers {
            verts: LayerSet::new(alloc),
            edges: LayerSet::new(alloc),
            loops: LayerSet::new(alloc),
            faces: LayerSet::new(alloc),
        }
    }

    /// The layers of a part.
    pub(crate) fn of(&self, part: Part) -> &LayerSet
        ensures { result.now ≡ table_of part self.now }
    {
        match part {
            Part::Vert => &self.verts,
            Part::Edge => &self.edges,
            Part::Loop => &self.loops,
            Part::Face => &self.faces,
        }
    }

    /// The layers of a part, to be changed.
    pub(crate) fn of_mut(&mut self, part: Part) -> &mut LayerSet
        ensures* writes_back { sem 𝓛 (lends_table self.entry part result) }
        ensures value { result.now ≡ table_of part self.old }
    {
        match part {
            Part::Vert => &mut self.verts,
            Part::Edge => &mut self.edges,
            Part::Loop => &mut self.loops,
            Part::Face => &mut self.faces,
        }
    }
}
