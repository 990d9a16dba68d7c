//! Chunks whose places hold values or links, by the raw functions of `chunk`.
ghost use Rattle.std.specs.Prelude.{◌≡◌, ℕ, ◌<◌, ◌≤◌, ◌+◌, ◌*◌, ◌^◌, length, get_or, slice_set, IfOk};
ghost use Rattle.raw_pool.specs.Place.{Empty, Value, Link, IsFilled, IsLinked};
ghost use Rattle.raw_pool.specs.Ownership.{HoldsLink};
ghost use Rattle.raw_pool.specs.FreeList.{IsFresh};
ghost use Rattle.raw_pool.specs.Inside.{TaggedFrom};

use crate::chunk::Chunk;
use crate::tags::Tags;
use std::alloc::{AllocError, Global};
use std_alloc::room::may_hold;

impl<T> Chunk<T> {
    /// Puts a value into a vacant place, and gives the link that lay there.
    pub(crate) fn fill(&mut self, at: usize, value: T) -> u32
        requires { IsLinked self.old.places at }
        ensures link { get_or self.old.places at Empty ≡ Link result }
        ensures places { self.new.places ≡ slice_set self.old.places at (Value value) }
    {
        let link = self.read_link(at);
        self.write(at, value);
        link
    }

    /// Moves a value out, and leaves a link in its place.
    pub(crate) fn vacate(&mut self, at: usize, link: u32) -> T
        requires { IsFilled self.old.places at }
        ensures value { get_or self.old.places at Empty ≡ Value result }
        ensures places { self.new.places ≡ slice_set self.old.places at (Link link) }
    {
        let value = self.read(at);
        self.write_link(at, link);
        value
    }

    /// A chunk of vacant places. The first is the slot `start`, each has a link to the next, and
    /// the last has the link `after`.
    pub(crate) fn vacant(
        alloc: &Global,
        len: usize,
        start: u32,
        after: u32,
    ) -> Result<Chunk<T>, AllocError>
        requires room { start + len < 2 ^ 32 }
        requires wide { HoldsLink T.row }
        ensures { IfOk result (λ c. IsFresh c.places start len after) }
    {
        if !may_hold::<T>(len) {
            return Err(AllocError);
        }
        let mut chunk = Chunk::allocate(alloc, len)?;
        for at in 0..len {
            let link = if at + 1 < len {
                start + at as u32 + 1
            } else {
                after
            };
            chunk.write_link(at, link);
        }
        Ok(chunk)
    }

    /// The same values and links in a chunk of its own. The first place has the bit `start`.
    pub(crate) fn copy(
        &self,
        alloc: &Global,
        tags: &Tags,
        start: usize,
        len: usize,
    ) -> Result<Chunk<T>, AllocError>
    where
        T: Copy,
        requires len { length self.now.places ≡ len }
        requires tagged { TaggedFrom self.now.places tags.now.words.items start }
        requires room { start + len ≤ length tags.now.words.items * 64 }
        ensures { IfOk result (λ c. c.places ≡ self.now.places) }
    {
        self.is_wide();
        if !may_hold::<T>(len) {
            return Err(AllocError);
        }
        let mut twin = Chunk::allocate(alloc, len)?;
        for at in 0..len {
            if tags.has(start + at) {
                twin.write(at, *self.get(at));
            } else {
                twin.write_link(at, self.get_link(at));
            }
        }
        Ok(twin)
    }

    /// Drops the values, and gives the block back. The first place has the bit `start`.
    pub(crate) fn free(self, alloc: &Global, tags: &Tags, start: usize, len: usize)
    where
        T: Drop,
        requires len { length self.places ≡ len }
        requires tagged { TaggedFrom self.places tags.now.words.items start }
        requires room { start + len ≤ length tags.now.words.items * 64 }
    {
        let mut chunk = self;
        for at in 0..len {
            if tags.has(start + at) {
                drop(chunk.read(at));
            } else {
                let _link = chunk.read_link(at);
            }
        }
        chunk.deallocate(alloc, len);
    }
}
