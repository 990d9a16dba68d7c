//! Which edge joins two vertices.

ghost use Rattle.std.specs.Prelude.{◌≡◌, ◌+◌, ◌<◌, ◌≤◌, ◌^◌, [], IfOk, OnOk, OnErr, length, Some, None, if◌then◌else◌};
ghost use Rattle.std.specs.Option.{option_or};
ghost use Rattle.std.specs.HashMap.{get, spare};
ghost use Rattle.mesh_model.specs.Table.{at};
ghost use Rattle.mesh_model.specs.Incidence.{edge_joining};
ghost use Rattle.mesh_model.specs.EdgeIndexes.{key_of, same_key, Knows};

use crate::edge_columns::EdgeColumns;
use crate::names::{EdgeName, VertName};
use sequence::NoMemory;
use std::alloc::Global;
use std::collections::HashMap;

/// The two ends of an edge, whichever comes first.
#[derive(Clone, Copy, Debug, PartialEq, Eq, Hash)]
pub(crate) struct EdgeKey {
    lesser: u32,
    greater: u32,
}

impl EdgeKey {
    fn of(a: VertName, b: VertName) -> EdgeKey
        ensures { result ≡ key_of a b }
    {
        EdgeKey {
            lesser: a.0.min(b.0),
            greater: a.0.max(b.0),
        }
    }
}

/// The least edge between any two vertices, of the edges whose numbers are below `known`.
#[derive(Drop)]
pub(crate) struct EdgeIndex {
    least: HashMap<EdgeKey, EdgeName>,
    known: u32,
}

impl EdgeIndex {
    /// Knows no edge. Takes no memory.
    pub(crate) fn new(alloc: Global) -> EdgeIndex
        ensures { Knows result [] }
    {
        EdgeIndex {
            least: HashMap::new(alloc),
            known: 0,
        }
    }

    /// Gets to know all edges of a table, and makes room for so many more.
    pub(crate) fn catch_up(&mut self, edges: &EdgeColumns, more: u32) -> Result<(), NoMemory>
        requires { Knows self.old edges.now.table }
        ensures knows { Knows self.new edges.now.table }
        ensures ok { OnOk result ((self.new.known ≡ length edges.now.table) × (more ≤ spare self.new.least)) }
    {
        let count = edges.len();
        self.least
            .reserve((count - self.known) as usize + more as usize)?;
        while self.known < count {
            self.note(edges);
        }
        Ok(())
    }

    /// Gets to know the next edge of a table. Takes no memory.
    pub(crate) fn note(&mut self, edges: &EdgeColumns)
        requires knows { Knows self.old edges.now.table }
        requires next { self.old.known < length edges.now.table }
        requires fits { length edges.now.table < 2 ^ 32 }
        requires room { 0 < spare self.old.least }
        ensures knows { Knows self.new edges.now.table }
        ensures known { self.new.known ≡ self.old.known + 1 }
        ensures room { spare self.old.least ≤ spare self.new.least + 1 }
    {
        let name = self.known;
        self.known += 1;
        if edges.has(name) {
            let ends = edges.ends(name);
            put_if_new(&mut self.least, EdgeKey::of(ends.a, ends.b), EdgeName(name));
        }
    }

    /// The least edge that joins two vertices, where all edges of a table are known.
    pub(crate) fn find(&self, edges: &EdgeColumns, a: VertName, b: VertName) -> Option<EdgeName>
        requires knows { Knows self.now edges.now.table }
        requires all { self.now.known ≡ length edges.now.table }
        ensures { result ≡ edge_joining edges.now.table a b }
    {
        self.least.get(&EdgeKey::of(a, b)).copied()
    }
}

// Puts a name at a key that has none. Takes no memory.
fn put_if_new(least: &mut HashMap<EdgeKey, EdgeName>, key: EdgeKey, name: EdgeName)
    requires { 0 < spare least.old }
    ensures names { (q : EdgeKey) → get same_key least.new q ≡ option_or (get same_key least.old q)
        (if same_key key q then Some name else None) }
    ensures room { spare least.old ≤ spare least.new + 1 }
{
    if !least.contains_key(&key) {
        let put: Result<_, _> = least.insert(key, name);
        let _ = put.unwrap();
    }
}
