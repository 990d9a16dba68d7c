//! A chunk: a block of raw places. This file alone touches raw memory.
ghost use Rattle.std.specs.Prelude.{◌≡◌, ℕ, ◌<◌, List, length, replicate, get_or, slice_set, IfOk};
ghost use Rattle.std.specs.Borrow.{sem};
ghost use Rattle.std.specs.Vec.Ownership.{FitsInBlock};
ghost use Rattle.raw_pool.specs.Place.{Place, Empty, Value, Link, places_code, IsEmpty, IsFilled, IsLinked};
ghost use Rattle.raw_pool.specs.Ownership.{HoldsLink, chunk_owns, chunk_lends};

use std::alloc::{AllocError, Allocator, Global};
use std::marker::Model;
use std::mem::{align_of, size_of};

/// A block of memory from `Global`, cut into places. It is used up by `deallocate` alone.
pub struct Chunk<T> {
    start: *mut T,
    ghost places: { List (Place T) } by { places_code T.code },
}

impl<T> Model for Chunk<T> {
    ghost also_owns = { λ c. chunk_owns T.row c.start c.places };

    ghost also_shares = { λ c _ κ. chunk_lends T.row c.start c.places κ };
}

impl<T> Chunk<T> {
    ghost use Rattle.raw_pool.specs.Lends.{lends_place};

    /// `len` empty places in a block of their own.
    pub(crate) fn allocate(alloc: &Global, len: usize) -> Result<Chunk<T>, AllocError>
        requires fits { FitsInBlock T.row len }
        requires wide { HoldsLink T.row }
        ensures { IfOk result (λ c. c.places ≡ replicate len Empty) }
    {
        match alloc.allocate(len * size_of::<T>(), align_of::<T>()) {
            Ok(block) => Ok(Chunk {
                start: block as *mut T,
            }),
            Err(error) => Err(error),
        }
    }

    /// Gives the block of `len` empty places back.
    pub(crate) fn deallocate(self, alloc: &Global, len: usize)
        requires { self.places ≡ replicate len Empty }
    {
        let Chunk { start } = self;
        unsafe {
            alloc.deallocate(start as *mut u8, len * size_of::<T>(), align_of::<T>());
        }
    }

    /// Does nothing. Its contract says that a place of a chunk can hold a link, which each chunk owns as a fact.
    pub(crate) fn is_wide(&self)
        ensures { HoldsLink T.row }
    {}

    /// Moves a value into an empty place.
    pub(crate) fn write(&mut self, at: usize, value: T)
        requires { IsEmpty self.old.places at }
        ensures { self.new.places ≡ slice_set self.old.places at (Value value) }
    {
        unsafe { self.start.add(at).write(value) }
    }

    /// Moves a value out of its place.
    pub(crate) fn read(&mut self, at: usize) -> T
        requires { IsFilled self.old.places at }
        ensures value { get_or self.old.places at Empty ≡ Value result }
        ensures places { self.new.places ≡ slice_set self.old.places at Empty }
    {
        unsafe { self.start.add(at).read() }
    }

    /// The value in a place.
    pub(crate) fn get(&self, at: usize) -> &T
        requires { IsFilled self.now.places at }
        ensures { get_or self.now.places at Empty ≡ Value result.now }
    {
        unsafe { &*self.start.add(at) }
    }

    /// The value in a place, to be written over.
    pub(crate) fn get_mut(&mut self, at: usize) -> &mut T
        requires { IsFilled self.old.places at }
        ensures* writes_back { sem 𝓛 (lends_place T.row self.entry at result) }
        ensures value { get_or self.old.places at Empty ≡ Value result.now }
    {
        unsafe { &mut *self.start.add(at) }
    }

    /// Writes a link into the bytes of an empty place.
    pub(crate) fn write_link(&mut self, at: usize, link: u32)
        requires { IsEmpty self.old.places at }
        ensures { self.new.places ≡ slice_set self.old.places at (Link link) }
    {
        unsafe { (self.start.add(at) as *mut u32).write(link) }
    }

    /// The link in a place.
    pub(crate) fn get_link(&self, at: usize) -> u32
        requires { IsLinked self.now.places at }
        ensures { get_or self.now.places at Empty ≡ Link result }
    {
        unsafe { (self.start.add(at) as *const u32).read() }
    }

    /// Takes the link out of a place.
    pub(crate) fn read_link(&mut self, at: usize) -> u32
        requires { IsLinked self.old.places at }
        ensures link { get_or self.old.places at Empty ≡ Link result }
        ensures places { self.new.places ≡ slice_set self.old.places at Empty }
    {
        unsafe { (self.start.add(at) as *mut u32).read() }
    }
}
