ghost use Rattle.std.specs.Prelude.{◌≡◌, ◌<◌, ◌==◌, ◌^◌, [], ◌∷◌, ◌++◌, length, IfOk, OnOk, OnErr, slice_get, Some};
ghost use Rattle.std.specs.Slice.Iter.{iter_rest};
ghost use Rattle.std.specs.Iterator.Adapters.{IterYieldsInOrder};
ghost use Rattle.sequence.specs.Clones.{AreClones};

use crate::NoMemory;
use std::alloc::Global;
use std::marker::Model;
use std::slice;

/// A list of values in order. Contracts see it as that list.
#[derive(Drop, Debug)]
pub struct Sequence<T> {
    items: Vec<T>,
}

/// A text, as its bytes.
pub type Text = Sequence<u8>;

impl<T> Model for Sequence<T> {
    ghost use Rattle.std.specs.Prelude.{List};
    ghost use Rattle.std.specs.Coded.{coded_list};

    ghost Value = { List T };

    ghost coded = { coded_list T.code };

    ghost view = { λ s. s.items.items };
}

impl<T> Sequence<T> {
    /// The empty list. Takes no memory.
    pub fn new(alloc: Global) -> Self
        ensures { result ≡ [] }
    {
        Sequence {
            items: Vec::new(alloc),
        }
    }

    /// Appends a value, in constant time as a rule. After `NoMemory` the list is as before.
    pub fn push(&mut self, value: T) -> Result<(), NoMemory>
    where
        T: Drop,
        ensures ok { OnOk result (self.new ≡ self.old ++ value ∷ []) }
        ensures err { OnErr result (self.new ≡ self.old) }
    {
        self.items.push(value)?;
        Ok(())
    }

    /// Appends the values of a slice, in time proportional to their number as a rule. After
    /// `NoMemory` the list is as before.
    pub fn append(&mut self, values: &[T]) -> Result<(), NoMemory>
    where
        T: Copy,
        ensures ok { OnOk result (self.new ≡ self.old ++ values.now) }
        ensures err { OnErr result (self.new ≡ self.old) }
    {
        self.items.extend_from_slice(values)?;
        Ok(())
    }

    /// The number of values.
    pub fn len(&self) -> usize
        ensures { result ≡ length self.now }
    {
        self.items.len()
    }

    /// Whether there is no value.
    pub fn is_empty(&self) -> bool
        ensures { result ≡ (length self.now == 0) }
    {
        self.items.is_empty()
    }

    /// The value at a place, counted from 0.
    pub fn get(&self, k: usize) -> &T
        requires { k < length self.now }
        ensures { slice_get self.now k ≡ Some result.now }
    {
        &self.items[k]
    }

    /// The values as a slice.
    pub fn as_slice(&self) -> &[T]
        ensures { result.now ≡ self.now }
    {
        &self.items
    }

    /// The values by reference, in order.
    pub fn iter(&self) -> slice::Iter<'_, T>
        ensures rest { iter_rest result ≡ self.now }
        ensures bound { length (iter_rest result) < 2 ^ 64 }
        ensures runs { IterYieldsInOrder T }
    {
        self.items.iter()
    }
}

impl<T: Clone> Sequence<T> {
    /// The list of the clones of a slice's values, at their cost. It fails only for want of memory.
    pub fn of(alloc: Global, values: &[T]) -> Result<Sequence<T>, NoMemory>
        ensures { IfOk result (λ s. AreClones T.is_clone values.now s) }
    {
        let items = Vec::from_clones(alloc, values)?;
        Ok(Sequence { items })
    }

    /// The list of the values' clones, likewise: an equal list, where clones are equal.
    pub fn copy(&self) -> Result<Sequence<T>, NoMemory>
        ensures { IfOk result (λ c. AreClones T.is_clone self.now c) }
    {
        Sequence::of(*self.items.allocator(), &self.items)
    }
}

impl<T: Clone> Clone for Sequence<T> {
    ghost use Rattle.sequence.specs.Clones.{AreClones};

    ghost is_clone = { AreClones T.is_clone };

    fn clone(&self) -> Result<Sequence<T>, NoMemory> {
        self.copy()
    }
}

impl<'a, T> IntoIterator for &'a Sequence<T> {
    type Item = &'a T;

    type IntoIter = slice::Iter<'a, T>;

    ghost use Rattle.std.specs.Prelude.{◌≡◌};
    ghost use Rattle.std.specs.Slice.Iter.{iter_rest};

    ghost into_iter_gives = { λ s it. iter_rest it ≡ s.now };

    fn into_iter(self) -> slice::Iter<'a, T> {
        self.iter()
    }
}

impl<T> From<Vec<T>> for Sequence<T> {
    ghost use Rattle.std.specs.Prelude.{◌≡◌};

    ghost from_gives = { λ v s. s ≡ v.items };

    /// The list of what a `Vec` holds. Takes no memory.
    fn from(items: Vec<T>) -> Self {
        Sequence { items }
    }
}

impl<T> From<Sequence<T>> for Vec<T> {
    ghost use Rattle.std.specs.Prelude.{◌≡◌};

    ghost from_gives = { λ s v. v.items ≡ s };

    /// The `Vec` of a list. Takes no memory.
    fn from(list: Sequence<T>) -> Vec<T> {
        list.items
    }
}
