//! A pool of cells whose elements have names.
ghost use Rattle.std.specs.Prelude.{◌≡◌, ◌≤◌, ◌<◌, ◌+◌, ◌^◌, ◌↔◌, ◌++◌, [], length, slice_set, Some, None, IsTrue, IsOk, OnOk, MatchOption};
ghost use Rattle.std.specs.Fn.{FnOnceReturnsAtMut};
ghost use Rattle.raw_pool.specs.Ownership.{HoldsLink};
ghost use Rattle.raw_pool.specs.Slots.{IsLive, spare_count, NoneLiveFrom, IsFirstLive};
ghost use Rattle.mesh_store.specs.Slots.{at, vacated, WidensTo, LeadsFirst};
ghost use Rattle.mesh_store.specs.Naming.{AreNamed, Updates, without_cell};
ghost use Rattle.mesh_store.specs.Room.{WidensPool, most_places};

use crate::cells::Numbered;
use crate::store::CHUNK;
use raw_pool::{NoMemory, Pool, Slot, Tags};
use std::alloc::Global;
use std::marker::Model;

/// Cells at slots, and a directory that leads from each number of a live cell to its slot.
#[derive(Drop)]
pub struct NamedPool<T: Numbered> {
    pool: Pool<T, CHUNK>,
    names: Vec<Option<Slot>>,
    // Which names lead to a slot.
    marks: Tags,
}

impl<T: Numbered> Model for NamedPool<T> {
    ghost use Rattle.mesh_store.specs.Naming.{NamedCells, named_code};

    ghost Value = { NamedCells T };

    ghost coded = { named_code T.code };

    ghost use Rattle.mesh_store.specs.Inside.{NamesHold};

    ghost view = { λ p. record { cells = p.pool; names = p.names.items } };

    ghost invariant = { λ p. NamesHold T.number p.pool p.names.items p.marks.words.items };
}

impl<T: Numbered> NamedPool<T> {
    /// No cell and no name. Takes no memory.
    pub(crate) fn new(alloc: Global) -> NamedPool<T>
        ensures { result ≡ record { cells = []; names = [] } }
    {
        NamedPool {
            pool: Pool::new(alloc),
            names: Vec::new(alloc),
            marks: Tags::new(alloc),
        }
    }

    /// Makes room for `n` cells, and for the names below `reach`.
    pub(crate) fn reserve(&mut self, n: usize, reach: u32) -> Result<(), NoMemory>
        requires room { length self.old.cells + n + CHUNK < 2 ^ 32 }
        requires wide { HoldsLink T.row }
        ensures spare { OnOk result (n ≤ spare_count self.new.cells) }
        ensures reach { OnOk result (reach ≤ length self.new.names) }
        ensures enough { n ≤ spare_count self.old.cells → reach ≤ length self.old.names →
            IsOk result × (self.new ≡ self.old) }
        ensures widens { WidensPool self.old self.new n CHUNK reach }
    {
        self.pool.reserve(n)?;
        self.marks.cover(reach as usize)?;
        widen(&mut self.names, reach as usize)
    }

    /// How many places there are at most after `reserve(n, ..)`.
    pub(crate) fn most_places(&self, n: usize) -> usize
        requires { length self.now.cells + n + CHUNK < 2 ^ 32 }
        ensures { result ≡ most_places self.now.cells n CHUNK }
    {
        most_places(&self.pool, n)
    }

    /// The number of places.
    pub(crate) fn places(&self) -> usize
        ensures { result ≡ length self.now.cells }
    {
        self.pool.capacity()
    }

    /// The number of vacant places.
    pub(crate) fn spare(&self) -> usize
        ensures { result ≡ spare_count self.now.cells }
    {
        self.pool.spare()
    }

    /// The number below which names need no memory.
    pub(crate) fn reach(&self) -> u32
        ensures { result ≡ length self.now.names }
    {
        self.names.len() as u32
    }

    /// Puts a cell into a vacant slot, to which its number leads from now on.
    pub(crate) fn add(&mut self, cell: T) -> Slot
        requires room { 1 ≤ spare_count self.old.cells }
        requires reach { T.number cell < length self.old.names }
        requires unnamed { at self.old.names (T.number cell) ≡ None }
        ensures vacant { (result.0 < length self.old.cells) × (at self.old.cells result.0 ≡ None) }
        ensures adds { self.new ≡ record {
          cells = slice_set self.old.cells result.0 (Some cell);
          names = slice_set self.old.names (T.number cell) (Some result);
        } }
        ensures spare { spare_count self.new.cells + 1 ≡ spare_count self.old.cells }
    {
        let number = cell.number() as usize;
        let slot = self.pool.put(cell);
        self.names[number] = Some(slot);
        self.marks.set(number);
        slot
    }

    /// Puts the cell that `make` gives of a vacant slot into that slot, to which its number leads from now on.
    pub(crate) fn add_with<F: FnOnce(Slot) -> T>(&mut self, number: u32, make: F) -> Slot
        requires room { 1 ≤ spare_count self.old.cells }
        requires reach { number < length self.old.names }
        requires unnamed { at self.old.names number ≡ None }
        requires callable { F.IsAlwaysCallable make }
        requires numbered { (s : _) (x : T) → F.post make s x → T.number x ≡ number }
        ensures vacant { (result.0 < length self.old.cells) × (at self.old.cells result.0 ≡ None) }
        ensures adds { (x : T) × F.post make result x × (self.new ≡ record {
          cells = slice_set self.old.cells result.0 (Some x);
          names = slice_set self.old.names number (Some result);
        }) }
        ensures spare { spare_count self.new.cells + 1 ≡ spare_count self.old.cells }
    {
        let slot = self.pool.put_with(make);
        self.names[number as usize] = Some(slot);
        self.marks.set(number as usize);
        slot
    }

    /// Takes the cell out of a live slot, to which no name leads from now on.
    pub(crate) fn remove(&mut self, s: Slot)
        requires { IsLive self.old.cells s.0 }
        ensures removes { self.new ≡ without_cell T.number self.old s.0 }
        ensures spare { spare_count self.new.cells ≡ spare_count self.old.cells + 1 }
    {
        let cell = self.pool.take(s);
        let number = cell.number() as usize;
        self.names[number] = None;
        self.marks.clear(number);
    }

    /// Takes all cells out. Places and reach stay.
    pub(crate) fn clear(&mut self)
        ensures { self.new ≡ record { cells = vacated self.old.cells; names = vacated self.old.names } }
    {
        let mut next = self.first();
        while let Some(s) = next {
            self.remove(s);
            next = self.after(s);
        }
    }

    // The least live slot.
    fn first(&self) -> Option<Slot>
        ensures slot { MatchOption result (NoneLiveFrom self.now.cells 0) (λ t. IsFirstLive self.now.cells 0 t.0) }
        ensures named { AreNamed T.number self.now.cells self.now.names }
    {
        self.pool.first()
    }

    // The least live slot above a slot.
    fn after(&self, s: Slot) -> Option<Slot>
        ensures slot { MatchOption result
            (NoneLiveFrom self.now.cells (s.0 + 1)) (λ t. IsFirstLive self.now.cells (s.0 + 1) t.0) }
        ensures named { AreNamed T.number self.now.cells self.now.names }
    {
        self.pool.after(s)
    }

    /// The slot of a name.
    pub(crate) fn slot(&self, name: u32) -> Option<Slot>
        ensures slot { result ≡ at self.now.names name }
        ensures named { AreNamed T.number self.now.cells self.now.names }
    {
        if (name as usize) < self.names.len() {
            self.names[name as usize]
        } else {
            None
        }
    }

    /// The slot of the least live name that isn't below `least`. It reads a word for each 64 names between.
    pub(crate) fn slot_from(&self, least: u32) -> Option<Slot>
        ensures slot { MatchOption result (NoneLiveFrom self.now.names least) (LeadsFirst self.now.names least) }
        ensures named { AreNamed T.number self.now.cells self.now.names }
        ensures few { length self.now.names < 2 ^ 32 }
    {
        let name = self.marks.first_from(least as usize)?;
        self.names[name]
    }

    /// Whether a slot is live.
    pub(crate) fn contains(&self, s: Slot) -> bool
        ensures { IsTrue result ↔ IsLive self.now.cells s.0 }
    {
        self.pool.contains(s)
    }

    /// The cell of a live slot.
    pub(crate) fn get(&self, s: Slot) -> &T
        requires { IsLive self.now.cells s.0 }
        ensures { at self.now.cells s.0 ≡ Some result.now }
    {
        self.pool.get(s)
    }

    /// Lends the cell of a live slot to `change`, which leaves its number.
    pub(crate) fn update<F: FnOnce(&mut T)>(&mut self, s: Slot, change: F)
        requires live { IsLive self.old.cells s.0 }
        requires callable { F.IsAlwaysCallable change }
        requires number { (x y : T) → FnOnceReturnsAtMut F.FnOnce change x tt y → T.number y ≡ T.number x }
        ensures { Updates (λ x y. FnOnceReturnsAtMut F.FnOnce change x tt y) self.old self.new s.0 }
    {
        let cell = self.pool.get_mut(s);
        change(cell);
    }
}

/// How many places a pool has at most after `reserve(n)`.
pub(crate) fn most_places<T>(pool: &Pool<T, CHUNK>, n: usize) -> usize
    requires { length pool.now + n + CHUNK < 2 ^ 32 }
    ensures { result ≡ most_places pool.now n CHUNK }
{
    if n <= pool.spare() {
        pool.capacity()
    } else {
        pool.capacity() + (n - pool.spare()) + (CHUNK - 1)
    }
}

// Makes the table at least so long.
fn widen(names: &mut Vec<Option<Slot>>, reach: usize) -> Result<(), NoMemory>
    ensures ok { OnOk result (reach ≤ length names.new.items) }
    ensures enough { reach ≤ length names.old.items → IsOk result × (names.new.items ≡ names.old.items) }
    ensures widens { WidensTo names.old.items names.new.items reach }
{
    while names.len() < reach {
        names.push(None)?;
    }
    Ok(())
}
