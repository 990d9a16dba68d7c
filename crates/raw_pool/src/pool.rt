//! The pool.
ghost use Rattle.std.specs.Prelude.{◌≡◌, ℕ, ◌<◌, ◌≤◌, ◌+◌, ◌^◌, ◌++◌, List, [], length, get_or, slice_set, replicate, Option, Some, None, MatchOption, OnOk, OnErr, IfOk, IsOk, IsTrue, ◌↔◌};
ghost use Rattle.std.specs.Borrow.{sem};
ghost use Rattle.raw_pool.specs.Ownership.{HoldsLink};
ghost use Rattle.raw_pool.specs.Slots.{IsLive, spare_count, NoneLiveFrom, IsFirstLive, GrowsFor};

use crate::chunk::Chunk;
use crate::chunks::{copy_all, fill_first, free_all};
use crate::tags::Tags;
use std::alloc::{AllocError, Global};
use std::marker::Model;

/// There was too little memory. It is the error of std's allocators, so `?` hands it on.
pub type NoMemory = AllocError;

/// The number of a place, which is below the pool's capacity.
#[derive(Clone, Copy, Debug, PartialEq, Eq)]
pub struct Slot(pub u32);

/// Values in chunks of `CHUNK` places, where `CHUNK` is 1 to 65,536. A value never moves.
///
/// Contracts see the list of the slots, in which a slot holds `Some` value or is vacant. Its length
/// is the capacity, and `spare_count` of it is the number of values that can come without memory.
///
/// A vacant place holds a link of four bytes, the number of the next vacant one. So the size and
/// the alignment of a `T` have to be multiples of 4 that aren't 0, which `reserve` asks for by
/// `HoldsLink`.
pub struct Pool<T, const CHUNK: usize> {
    chunks: Vec<Chunk<T>>,
    // Which places hold a value.
    tags: Tags,
    // The slot of the first vacant place. The link in each vacant place names the next.
    head: u32,
    // How many places are vacant.
    spare: usize,
    alloc: Global,
}

impl<T, const CHUNK: usize> Model for Pool<T, CHUNK> {
    ghost use Rattle.std.specs.Prelude.{List, Option};
    ghost use Rattle.std.specs.Coded.{coded_list, coded_option};

    ghost Value = { List (Option T) };

    ghost coded = { coded_list (coded_option T.code) };

    ghost use Rattle.raw_pool.specs.Inside.{slots_of, PoolHolds};

    ghost view = { λ p. slots_of p.chunks.items };

    ghost invariant = { λ p. PoolHolds CHUNK p.chunks.items p.tags.words.items p.head p.spare };
}

impl<T, const CHUNK: usize> Pool<T, CHUNK> {
    ghost use Rattle.raw_pool.specs.PoolLends.{lends_slot};

    /// An empty pool, which takes no memory.
    pub fn new(alloc: Global) -> Pool<T, CHUNK>
        requires { (1 ≤ CHUNK) × (CHUNK ≤ 65536) }
        ensures { result ≡ [] }
    {
        Pool {
            chunks: Vec::new(alloc),
            tags: Tags::new(alloc),
            head: 0,
            spare: 0,
            alloc,
        }
    }

    /// The number of places.
    pub fn capacity(&self) -> usize
        ensures { result ≡ length self.now }
    {
        self.chunks.len() * CHUNK
    }

    /// The number of vacant places, which is how many values can be put with no memory.
    pub fn spare(&self) -> usize
        ensures { result ≡ spare_count self.now }
    {
        self.spare
    }

    /// Whether a slot is live, in constant time.
    pub fn contains(&self, s: Slot) -> bool
        ensures { IsTrue result ↔ IsLive self.now s.0 }
    {
        let at = s.0 as usize;
        at < self.capacity() && self.tags.has(at)
    }

    /// Makes room for `n` values. Where there is room already, it takes no memory and changes
    /// nothing. After an error the pool may have grown, and its values are as they were.
    ///
    /// It takes time that grows with `n` and `CHUNK`.
    pub fn reserve(&mut self, n: usize) -> Result<(), NoMemory>
        requires room { length self.old + n + CHUNK < 2 ^ 32 }
        requires wide { HoldsLink T.row }
        ensures ok { OnOk result (n ≤ spare_count self.new) }
        ensures enough { n ≤ spare_count self.old → IsOk result × (self.new ≡ self.old) }
        ensures grows { GrowsFor self.old self.new n CHUNK }
    {
        while self.spare < n {
            self.grow()?;
        }
        Ok(())
    }

    // Adds a chunk of vacant places.
    fn grow(&mut self) -> Result<(), NoMemory>
        requires room { length self.old + CHUNK < 2 ^ 32 }
        requires wide { HoldsLink T.row }
        ensures ok { OnOk result (self.new ≡ self.old ++ replicate CHUNK None) }
        ensures err { OnErr result (self.new ≡ self.old) }
    {
        let start = self.chunks.len() * CHUNK;
        self.chunks.reserve(1)?;
        self.tags.cover(start + CHUNK)?;
        let chunk = Chunk::vacant(&self.alloc, CHUNK, start as u32, self.head)?;
        self.chunks.push_reserved(chunk);
        self.head = start as u32;
        self.spare += CHUNK;
        Ok(())
    }

    /// Puts a value into a vacant slot, in constant time and with no memory.
    pub fn put(&mut self, value: T) -> Slot
        requires { 1 ≤ spare_count self.old }
        ensures vacant { (result.0 < length self.old) × (get_or self.old result.0 None ≡ None) }
        ensures gains { self.new ≡ slice_set self.old result.0 (Some value) }
        ensures spare { spare_count self.new + 1 ≡ spare_count self.old }
    {
        let head = self.head;
        self.head = fill_first(
            &mut self.chunks,
            &mut self.tags,
            CHUNK,
            head,
            self.spare,
            value,
        );
        self.spare -= 1;
        Slot(head)
    }

    /// Puts the value that `make` gives of a vacant slot into that slot, with no memory. But for `make` it takes
    /// constant time. So a value that names its own slot is written once.
    pub fn put_with<F: FnOnce(Slot) -> T>(&mut self, make: F) -> Slot
        requires room { 1 ≤ spare_count self.old }
        requires callable { F.IsAlwaysCallable make }
        ensures vacant { (result.0 < length self.old) × (get_or self.old result.0 None ≡ None) }
        ensures gains { (x : T) × F.post make result x × (self.new ≡ slice_set self.old result.0 (Some x)) }
        ensures spare { spare_count self.new + 1 ≡ spare_count self.old }
    {
        let slot = Slot(self.head);
        let value = make(slot);
        self.head = fill_first(
            &mut self.chunks,
            &mut self.tags,
            CHUNK,
            slot.0,
            self.spare,
            value,
        );
        self.spare -= 1;
        slot
    }

    /// Moves the value out of a live slot, in constant time. The next `put` gives this slot.
    pub fn take(&mut self, s: Slot) -> T
        requires { IsLive self.old s.0 }
        ensures value { get_or self.old s.0 None ≡ Some result }
        ensures loses { self.new ≡ slice_set self.old s.0 None }
        ensures spare { spare_count self.new ≡ spare_count self.old + 1 }
    {
        let chunk = &mut self.chunks[s.0 as usize / CHUNK];
        let value = chunk.vacate(s.0 as usize % CHUNK, self.head);
        self.head = s.0;
        self.tags.clear(s.0 as usize);
        self.spare += 1;
        value
    }

    /// The value in a live slot, in constant time.
    pub fn get(&self, s: Slot) -> &T
        requires { IsLive self.now s.0 }
        ensures { get_or self.now s.0 None ≡ Some result.now }
    {
        let chunk = &self.chunks[s.0 as usize / CHUNK];
        chunk.get(s.0 as usize % CHUNK)
    }

    /// The value in a live slot, to be changed, in constant time.
    pub fn get_mut(&mut self, s: Slot) -> &mut T
        requires { IsLive self.old s.0 }
        ensures* writes_back { sem 𝓛 (lends_slot T.row CHUNK self.entry s.0 result) }
        ensures value { get_or self.old s.0 None ≡ Some result.now }
    {
        let chunks = &mut self.chunks;
        let chunk = &mut chunks[s.0 as usize / CHUNK];
        chunk.get_mut(s.0 as usize % CHUNK)
    }

    /// The least live slot. It reads a word for each 64 vacant slots before it.
    pub fn first(&self) -> Option<Slot>
        ensures { MatchOption result (NoneLiveFrom self.now 0) (λ t. IsFirstLive self.now 0 t.0) }
    {
        self.first_from(0)
    }

    /// The least live slot above `s`, live or not. It reads a word for each 64 vacant slots between them.
    pub fn after(&self, s: Slot) -> Option<Slot>
        ensures { MatchOption result (NoneLiveFrom self.now (s.0 + 1)) (λ t. IsFirstLive self.now (s.0 + 1) t.0) }
    {
        self.first_from(s.0 as usize + 1)
    }

    fn first_from(&self, low: usize) -> Option<Slot>
        ensures { MatchOption result (NoneLiveFrom self.now low) (λ t. IsFirstLive self.now low t.0) }
    {
        match self.tags.first_from(low) {
            Some(at) => Some(Slot(at as u32)),
            None => None,
        }
    }

    /// A pool with the same slots and the same values in them, in time and memory that grow with
    /// the capacity.
    pub fn copy(&self, alloc: Global) -> Result<Pool<T, CHUNK>, NoMemory>
    where
        T: Copy,
        ensures { IfOk result (λ p. p ≡ self.now) }
    {
        let tags = self.tags.copy(alloc)?;
        let chunks = copy_all(&self.chunks, &tags, alloc, CHUNK)?;
        Ok(Pool {
            chunks,
            tags,
            head: self.head,
            spare: self.spare,
            alloc,
        })
    }
}

impl<T: Drop, const CHUNK: usize> Drop for Pool<T, CHUNK> {
    fn drop(self) {
        let Pool {
            chunks,
            tags,
            head: _,
            spare: _,
            alloc,
        } = self;
        free_all(chunks, &tags, &alloc, CHUNK);
    }
}
