ghost use Rattle.std.specs.Prelude.{◌≡◌, ◌<◌, [], ◌∷◌, ◌++◌, false, length, slice_get, Some, IsTrue, IfOk, OnOk, OnErr};
ghost use Rattle.mesh_model.specs.Elements.{is_among};
ghost use Rattle.mesh_model.specs.Valid.{are_distinct};
ghost use Rattle.op_slots.specs.Mapping.{sources, mapping_of};

use indexmap::IndexMap;
use mesh_model::VertName;
use sequence::NoMemory;
use std::alloc::Global;
use std::marker::Model;

/// Where a vertex went.
#[derive(Clone, Copy, Debug, PartialEq, Eq)]
pub struct Pair {
    pub source: VertName,
    pub target: VertName,
}

/// Pairs of vertices in order, with distinct sources.
#[derive(Debug, Drop)]
pub struct Mapping {
    // each source's number, with its target
    targets: IndexMap<u32, VertName>,
}

impl Model for Mapping {
    ghost use Rattle.std.specs.Prelude.{List, IsTrue};
    ghost use Rattle.mesh_model.specs.Valid.{are_distinct};
    ghost use Rattle.op_slots.specs.Mapping.{sources, pairs_of};
    ghost use Rattle.op_slots.specs.declared.mapping.Pair.{Pair};

    ghost Value = { List Pair };

    ghost view = { λ m. pairs_of m.targets.entries };

    ghost invariant = { λ m. IsTrue (are_distinct (sources (pairs_of m.targets.entries))) };
}

impl Mapping {
    /// No pair. Takes no memory.
    pub fn new(alloc: Global) -> Mapping
        ensures { result ≡ [] }
    {
        Mapping {
            targets: IndexMap::new(alloc),
        }
    }

    /// The mapping of some pairs, or None where a source stands twice. Takes time and memory in proportion to
    /// the pairs.
    pub fn from_pairs(alloc: Global, pairs: &[Pair]) -> Result<Option<Mapping>, NoMemory>
        ensures { IfOk result (λ m. m ≡ mapping_of pairs.now) }
    {
        let mut targets = IndexMap::new(alloc);
        for pair in pairs {
            let before = targets.insert(pair.source.0, pair.target)?;
            if before.is_some() {
                return Ok(None);
            }
        }
        Ok(Some(Mapping { targets }))
    }

    /// Appends a pair, whose source isn't in the mapping yet. After `NoMemory` the mapping is as before.
    pub fn push(&mut self, pair: Pair) -> Result<(), NoMemory>
        requires { is_among (sources self.old) pair.source ≡ false }
        ensures ok { OnOk result (self.new ≡ self.old ++ pair ∷ []) }
        ensures err { OnErr result (self.new ≡ self.old) }
    {
        self.targets.insert(pair.source.0, pair.target)?;
        Ok(())
    }

    /// The number of pairs. Their sources are distinct.
    pub fn len(&self) -> usize
        ensures len { result ≡ length self.now }
        ensures distinct { IsTrue (are_distinct (sources self.now)) }
    {
        self.targets.len()
    }

    /// The pair at a place, counted from 0.
    pub fn get(&self, k: usize) -> Pair
        requires { k < length self.now }
        ensures { slice_get self.now k ≡ Some result }
    {
        Pair {
            source: VertName(self.targets.keys()[k]),
            target: self.targets[k],
        }
    }

    /// An equal mapping, in time proportional to its pairs.
    pub fn copy(&self) -> Result<Mapping, NoMemory>
        ensures { IfOk result (λ m. m ≡ self.now) }
    {
        let targets = self.targets.clone()?;
        Ok(Mapping { targets })
    }
}
