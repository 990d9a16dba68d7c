//! The store: its elements and their names.
ghost use Rattle.std.specs.Prelude.{◌≡◌, ◌≤◌, ◌<◌, ◌+◌, ◌^◌, [], ◌∷◌, length, slice_set, Some, None, OnOk, IsOk, MatchOption};
ghost use Rattle.raw_pool.specs.Slots.{IsLive, spare_count, NoneLiveFrom, IsFirstLive};
ghost use Rattle.raw_pool.specs.Ownership.{HoldsLink};
ghost use Rattle.mesh_store.specs.Slots.{at, vacated, LeadsFirst};
ghost use Rattle.mesh_store.specs.Naming.{AreNamed, without_cell};
ghost use Rattle.mesh_store.specs.Stored.{empty_store, new_vert, new_edge, new_loop, new_face};
ghost use Rattle.mesh_store.specs.Parts.{places_in, spare_in, HasRows, cleared};
ghost use Rattle.mesh_store.specs.Room.{WidensCells, WidensPool, WidensRows, WidensStore, HasRoom, most_places};

use crate::cells::{EdgeCell, FaceCell, LoopCell, Numbered, VertCell};
use crate::layers::{Layers, Part};
use crate::named_pool::{NamedPool, most_places};
use cust_data::LayerSet;
use raw_pool::{NoMemory, Pool, Slot};
use std::alloc::Global;
use std::marker::Model;

/// The number of places in a chunk of each pool.
pub const CHUNK: usize = 1024;

/// Vertices, edges, loops and faces at their slots, the directories of names, and the values of each element.
///
/// Contracts see for each kind of element the list of its slots, in which a slot holds a cell or is vacant. Its length
/// is the number of places, and `spare_count` of it is the number of elements that can come without memory. For
/// vertices, edges and faces they see besides the table of names, which gives the slot to which a name leads. Its
/// length is the reach: names below it need no memory. Of the values of each kind they see the layers, and a row of
/// numbers for each place at least. No call shortens a list or a table.
///
/// Only `reserve` and `add_layer` take memory.
#[derive(Drop)]
pub struct Store {
    pub(crate) verts: NamedPool<VertCell>,
    pub(crate) edges: NamedPool<EdgeCell>,
    pub(crate) loops: Pool<LoopCell, CHUNK>,
    pub(crate) faces: NamedPool<FaceCell>,
    pub(crate) values: Layers,
}

impl Model for Store {
    ghost use Rattle.mesh_store.specs.Stored.{Stored};
    ghost use Rattle.mesh_store.specs.Parts.{HasRows};

    ghost Value = { Stored };

    ghost view = { λ s. record {
      verts = s.verts;
      edges = s.edges;
      loops = s.loops;
      faces = s.faces;
      values = s.values;
    } };

    ghost invariant = { λ s. HasRows (record {
      verts = s.verts;
      edges = s.edges;
      loops = s.loops;
      faces = s.faces;
      values = s.values;
    }) };
}

/// Room.
impl Store {
    /// An empty store. Takes no memory.
    pub fn new(alloc: Global) -> Store
        ensures { result ≡ empty_store }
    {
        Store {
            verts: NamedPool::new(alloc),
            edges: NamedPool::new(alloc),
            loops: Pool::new(alloc),
            faces: NamedPool::new(alloc),
            values: Layers::new(alloc),
        }
    }

    /// Makes room for so many more elements of each kind, each with a row of values, and for the names of vertices,
    /// edges and faces below the three numbers of `reach`.
    ///
    /// Where there is room already, nothing changes, and no memory is taken. Otherwise a pool grows by less than what
    /// lacks and a chunk; with what is asked and a chunk its places have to stay below 2^32. New rows have zeros. After
    /// an error, which is want of memory, some of the room may have been made, and all elements, names and rows are as
    /// they were. It takes time that grows with what is added, over many calls.
    pub fn reserve(
        &mut self,
        verts: usize,
        edges: usize,
        corners: usize,
        faces: usize,
        reach: [u32; 3],
    ) -> Result<(), NoMemory>
        requires verts { length self.old.verts.cells + verts + CHUNK < 2 ^ 32 }
        requires edges { length self.old.edges.cells + edges + CHUNK < 2 ^ 32 }
        requires corners { length self.old.loops + corners + CHUNK < 2 ^ 32 }
        requires faces { length self.old.faces.cells + faces + CHUNK < 2 ^ 32 }
        ensures ok { OnOk result (HasRoom self.new verts edges corners faces reach) }
        ensures enough { HasRoom self.old verts edges corners faces reach → IsOk result × (self.new ≡ self.old) }
        ensures widens { WidensStore self.old self.new verts edges corners faces CHUNK reach }
    {
        let [vert_names, edge_names, face_names] = reach;
        widen_named(&mut self.verts, &mut self.values.verts, verts, vert_names)?;
        widen_named(&mut self.edges, &mut self.values.edges, edges, edge_names)?;
        widen(&mut self.loops, &mut self.values.loops, corners)?;
        widen_named(&mut self.faces, &mut self.values.faces, faces, face_names)
    }

    /// The number of places of a part. Constant time.
    pub fn places(&self, part: Part) -> usize
        ensures places { result ≡ places_in part self.now }
        ensures rows { HasRows self.now }
    {
        match part {
            Part::Vert => self.verts.places(),
            Part::Edge => self.edges.places(),
            Part::Loop => self.loops.capacity(),
            Part::Face => self.faces.places(),
        }
    }

    /// The number of vacant places of a part, which is how many elements can come without memory. Constant time.
    pub fn spare(&self, part: Part) -> usize
        ensures { result ≡ spare_in part self.now }
    {
        match part {
            Part::Vert => self.verts.spare(),
            Part::Edge => self.edges.spare(),
            Part::Loop => self.loops.spare(),
            Part::Face => self.faces.spare(),
        }
    }

    /// The three numbers below which names of vertices, edges and faces need no memory. Constant time.
    pub fn reach(&self) -> [u32; 3]
        ensures { result ≡
            length self.now.verts.names ∷ length self.now.edges.names ∷ length self.now.faces.names ∷ [] }
    {
        [self.verts.reach(), self.edges.reach(), self.faces.reach()]
    }

    /// Drops every element, and so every name. Places, reach, layers and rows stay, and no memory is taken. It takes
    /// time that grows with the live elements, and a step for each 64 places.
    pub fn clear(&mut self)
        ensures { self.new ≡ cleared self.old }
    {
        self.verts.clear();
        self.edges.clear();
        empty(&mut self.loops);
        self.faces.clear();
    }
}

// Makes room in a pool with names, with a row for each of its places first.
fn widen_named<T: Numbered>(
    pool: &mut NamedPool<T>,
    values: &mut LayerSet,
    n: usize,
    reach: u32,
) -> Result<(), NoMemory>
    requires room { length pool.old.cells + n + CHUNK < 2 ^ 32 }
    requires wide { HoldsLink T.row }
    requires rows { length pool.old.cells ≤ length values.old.rows }
    ensures ok { OnOk result ((n ≤ spare_count pool.new.cells) × (reach ≤ length pool.new.names)) }
    ensures enough { n ≤ spare_count pool.old.cells → reach ≤ length pool.old.names →
        IsOk result × (pool.new ≡ pool.old) × (values.new ≡ values.old) }
    ensures widens { WidensPool pool.old pool.new n CHUNK reach }
    ensures new_rows { WidensRows values.old values.new (most_places pool.old.cells n CHUNK) }
    ensures rows { length pool.new.cells ≤ length values.new.rows }
{
    values.reserve(pool.most_places(n))?;
    pool.reserve(n, reach)
}

// The same of a pool without names.
fn widen<T>(pool: &mut Pool<T, CHUNK>, values: &mut LayerSet, n: usize) -> Result<(), NoMemory>
    requires room { length pool.old + n + CHUNK < 2 ^ 32 }
    requires wide { HoldsLink T.row }
    requires rows { length pool.old ≤ length values.old.rows }
    ensures ok { OnOk result (n ≤ spare_count pool.new) }
    ensures enough { n ≤ spare_count pool.old → IsOk result × (pool.new ≡ pool.old) × (values.new ≡ values.old) }
    ensures widens { WidensCells pool.old pool.new n CHUNK }
    ensures new_rows { WidensRows values.old values.new (most_places pool.old n CHUNK) }
    ensures rows { length pool.new ≤ length values.new.rows }
{
    values.reserve(most_places(pool, n))?;
    pool.reserve(n)
}

// Takes all values out of a pool.
fn empty<T: Copy>(pool: &mut Pool<T, CHUNK>)
    ensures { pool.new ≡ vacated pool.old }
{
    let mut next = pool.first();
    while let Some(s) = next {
        let _ = pool.take(s);
        next = pool.after(s);
    }
}

/// Elements come and go. Each call takes constant time, and changes only its own element and that element's name.
///
/// Where one is added with a name there is room for it, and the name is within reach and not live.
impl Store {
    /// Adds a vertex with no edge at a point, whose coordinates are in units of the grid.
    pub fn add_vert(&mut self, name: u32, p: [i64; 3]) -> Slot
        requires room { 1 ≤ spare_count self.old.verts.cells }
        requires reach { name < length self.old.verts.names }
        requires unnamed { at self.old.verts.names name ≡ None }
        ensures vacant { (result.0 < length self.old.verts.cells) × (at self.old.verts.cells result.0 ≡ None) }
        ensures adds { self.new ≡ record self.old {
          verts = record {
            cells = slice_set self.old.verts.cells result.0 (Some (new_vert name p));
            names = slice_set self.old.verts.names name (Some result);
          };
        } }
        ensures spare { spare_count self.new.verts.cells + 1 ≡ spare_count self.old.verts.cells }
    {
        self.verts.add(VertCell {
            number: name,
            point: p,
            first_edge: None,
        })
    }

    /// Adds an edge with no loop. The links of each of its darts lead to that dart.
    pub fn add_edge(&mut self, name: u32, ends: [Slot; 2]) -> Slot
        requires room { 1 ≤ spare_count self.old.edges.cells }
        requires reach { name < length self.old.edges.names }
        requires unnamed { at self.old.edges.names name ≡ None }
        ensures vacant { (result.0 < length self.old.edges.cells) × (at self.old.edges.cells result.0 ≡ None) }
        ensures adds { self.new ≡ record self.old {
          edges = record {
            cells = slice_set self.old.edges.cells result.0 (Some (new_edge name ends result));
            names = slice_set self.old.edges.names name (Some result);
          };
        } }
        ensures spare { spare_count self.new.edges.cells + 1 ≡ spare_count self.old.edges.cells }
    {
        self.edges
            .add_with(name, |slot| EdgeCell::alone(name, ends, slot))
    }

    /// Adds a loop whose links lead to itself. There is room for one.
    pub fn add_loop(&mut self, vert: Slot, edge: Slot, face: Slot) -> Slot
        requires { 1 ≤ spare_count self.old.loops }
        ensures vacant { (result.0 < length self.old.loops) × (at self.old.loops result.0 ≡ None) }
        ensures adds { self.new ≡ record self.old {
          loops = slice_set self.old.loops result.0 (Some (new_loop vert edge face result));
        } }
        ensures spare { spare_count self.new.loops + 1 ≡ spare_count self.old.loops }
    {
        self.loops
            .put_with(|slot| LoopCell::alone(vert, edge, face, slot))
    }

    /// Adds a face with no loop.
    pub fn add_face(&mut self, name: u32) -> Slot
        requires room { 1 ≤ spare_count self.old.faces.cells }
        requires reach { name < length self.old.faces.names }
        requires unnamed { at self.old.faces.names name ≡ None }
        ensures vacant { (result.0 < length self.old.faces.cells) × (at self.old.faces.cells result.0 ≡ None) }
        ensures adds { self.new ≡ record self.old {
          faces = record {
            cells = slice_set self.old.faces.cells result.0 (Some (new_face name));
            names = slice_set self.old.faces.names name (Some result);
          };
        } }
        ensures spare { spare_count self.new.faces.cells + 1 ≡ spare_count self.old.faces.cells }
    {
        self.faces.add(FaceCell {
            number: name,
            first_loop: None,
            len: 0,
        })
    }

    /// Drops a live vertex, whose name leads nowhere from now on. Edges that name it keep its slot.
    pub fn drop_vert(&mut self, s: Slot)
        requires { IsLive self.old.verts.cells s.0 }
        ensures drops { self.new ≡ record self.old { verts = without_cell (λ c. c.number) self.old.verts s.0 } }
        ensures spare { spare_count self.new.verts.cells ≡ spare_count self.old.verts.cells + 1 }
    {
        self.verts.remove(s);
    }

    /// Drops a live edge, whose name leads nowhere from now on. Links and loops that name it keep its slot.
    pub fn drop_edge(&mut self, s: Slot)
        requires { IsLive self.old.edges.cells s.0 }
        ensures drops { self.new ≡ record self.old { edges = without_cell (λ c. c.number) self.old.edges s.0 } }
        ensures spare { spare_count self.new.edges.cells ≡ spare_count self.old.edges.cells + 1 }
    {
        self.edges.remove(s);
    }

    /// Drops a live loop. Links that name it keep its slot.
    pub fn drop_loop(&mut self, s: Slot)
        requires { IsLive self.old.loops s.0 }
        ensures drops { self.new ≡ record self.old { loops = slice_set self.old.loops s.0 None } }
        ensures spare { spare_count self.new.loops ≡ spare_count self.old.loops + 1 }
    {
        let _ = self.loops.take(s);
    }

    /// Drops a live face, whose name leads nowhere from now on. Loops that name it keep its slot.
    pub fn drop_face(&mut self, s: Slot)
        requires { IsLive self.old.faces.cells s.0 }
        ensures drops { self.new ≡ record self.old { faces = without_cell (λ c. c.number) self.old.faces s.0 } }
        ensures spare { spare_count self.new.faces.cells ≡ spare_count self.old.faces.cells + 1 }
    {
        self.faces.remove(s);
    }
}

/// Names. `named` says that a table leads from the number of each live element to its slot, and from no other number;
/// `few` says that each name of the table is a `u32`.
impl Store {
    /// The slot of a vertex's name, and `None` exactly where the name isn't live. Constant time.
    pub fn vert_slot(&self, name: u32) -> Option<Slot>
        ensures slot { result ≡ at self.now.verts.names name }
        ensures named { AreNamed (λ c. c.number) self.now.verts.cells self.now.verts.names }
    {
        self.verts.slot(name)
    }

    /// The slot of an edge's name, and `None` exactly where the name isn't live. Constant time.
    pub fn edge_slot(&self, name: u32) -> Option<Slot>
        ensures slot { result ≡ at self.now.edges.names name }
        ensures named { AreNamed (λ c. c.number) self.now.edges.cells self.now.edges.names }
    {
        self.edges.slot(name)
    }

    /// The slot of a face's name, and `None` exactly where the name isn't live. Constant time.
    pub fn face_slot(&self, name: u32) -> Option<Slot>
        ensures slot { result ≡ at self.now.faces.names name }
        ensures named { AreNamed (λ c. c.number) self.now.faces.cells self.now.faces.names }
    {
        self.faces.slot(name)
    }

    /// The slot of the least live vertex name that isn't below `least`, and `None` exactly where there is none. It
    /// takes a step for each 64 names between.
    pub fn vert_from(&self, least: u32) -> Option<Slot>
        ensures slot { MatchOption result
            (NoneLiveFrom self.now.verts.names least) (LeadsFirst self.now.verts.names least) }
        ensures named { AreNamed (λ c. c.number) self.now.verts.cells self.now.verts.names }
        ensures few { length self.now.verts.names < 2 ^ 32 }
    {
        self.verts.slot_from(least)
    }

    /// The slot of the least live edge name that isn't below `least`, and `None` exactly where there is none. It takes
    /// a step for each 64 names between.
    pub fn edge_from(&self, least: u32) -> Option<Slot>
        ensures slot { MatchOption result
            (NoneLiveFrom self.now.edges.names least) (LeadsFirst self.now.edges.names least) }
        ensures named { AreNamed (λ c. c.number) self.now.edges.cells self.now.edges.names }
        ensures few { length self.now.edges.names < 2 ^ 32 }
    {
        self.edges.slot_from(least)
    }

    /// The slot of the least live face name that isn't below `least`, and `None` exactly where there is none. It takes
    /// a step for each 64 names between.
    pub fn face_from(&self, least: u32) -> Option<Slot>
        ensures slot { MatchOption result
            (NoneLiveFrom self.now.faces.names least) (LeadsFirst self.now.faces.names least) }
        ensures named { AreNamed (λ c. c.number) self.now.faces.cells self.now.faces.names }
        ensures few { length self.now.faces.names < 2 ^ 32 }
    {
        self.faces.slot_from(least)
    }

    /// The least live loop whose slot isn't below `least`, and `None` exactly where there is none. It takes a step for
    /// each 64 places between.
    pub fn loop_from(&self, least: u32) -> Option<Slot>
        ensures { MatchOption result (NoneLiveFrom self.now.loops least) (λ t. IsFirstLive self.now.loops least t.0) }
    {
        if least == 0 {
            self.loops.first()
        } else {
            self.loops.after(Slot(least - 1))
        }
    }
}
