//! Names that are bound to slots.
ghost use Rattle.std.specs.Prelude.{◌≡◌, ◌≤◌, ◌<◌, ◌+◌, ◌-◌, [], ◌∷◌, ◌++◌, false, length, position, slice_get, Some};
ghost use Rattle.std.specs.Prelude.{option_map, option_to_list, OnOk, IfSome, IsSome, ◌↔◌};
ghost use Rattle.op_slots.specs.Bindings.{has_name, binding_of, slots_of, is_bound};

use crate::slots::Slots;
use sequence::{NoMemory, Text};
use std::alloc::Global;
use std::marker::Model;

/// A name and the slots that it is bound to.
#[derive(Debug, Drop)]
pub struct Binding {
    pub name: Text,
    pub slots: Slots,
}

/// Names that are bound to slots, in the order in which they were bound, and room for more.
#[derive(Debug, Drop)]
pub struct Bindings {
    list: Vec<Binding>,
}

impl Model for Bindings {
    ghost use Rattle.std.specs.Prelude.{◌-◌, IsTrue};
    ghost use Rattle.std.specs.Vec.{vec_capacity, vec_len};
    ghost use Rattle.op_slots.specs.Bindings.{Bound, are_named_once};

    ghost Value = { Bound };

    ghost view = { λ b. record { bound = b.list.items; spare = vec_capacity b.list - vec_len b.list } };

    ghost invariant = { λ b. IsTrue (are_named_once b.list.items) };
}

impl Bindings {
    /// No binding. Takes no memory.
    pub fn new(alloc: Global) -> Bindings
        ensures { result.bound ≡ [] }
    {
        Bindings {
            list: Vec::new(alloc),
        }
    }

    /// Makes room for at least so many more. In both outcomes the bindings stay, and the room isn't lessened.
    pub fn reserve(&mut self, more: usize) -> Result<(), NoMemory>
        ensures same { self.new.bound ≡ self.old.bound }
        ensures no_less { self.old.spare ≤ self.new.spare }
        ensures ok { OnOk result (more ≤ self.new.spare) }
    {
        self.list.reserve(more)?;
        Ok(())
    }

    /// Binds a name that isn't bound yet, last. There must be room. Takes no memory.
    pub fn push(&mut self, name: Text, slots: Slots)
        requires room { 0 < self.old.spare }
        requires unbound { is_bound self.old.bound name ≡ false }
        ensures bound { self.new.bound ≡ self.old.bound ++ record { name = name; slots = slots } ∷ [] }
        ensures room { self.new.spare ≡ self.old.spare - 1 }
    {
        self.list.push_reserved(Binding { name, slots });
    }

    /// Takes the last binding off, a name with its slots, which leaves room for one more; or None where there is
    /// none. Takes no memory.
    pub fn pop(&mut self) -> Option<(Text, Slots)>
        ensures bound { self.old.bound ≡ self.new.bound ++ option_to_list (option_map binding_of result) }
        ensures some { IsSome result ↔ (0 < length self.old.bound) }
        ensures room { self.new.spare ≡ self.old.spare + length (option_to_list result) }
    {
        match self.list.pop() {
            Some(binding) => Some((binding.name, binding.slots)),
            None => None,
        }
    }

    /// The number of bindings.
    pub fn len(&self) -> usize
        ensures { result ≡ length self.now.bound }
    {
        self.list.len()
    }

    /// The binding at a position from 0, in the order in which they were made.
    pub fn at(&self, k: usize) -> &Binding
        requires { k < length self.now.bound }
        ensures { slice_get self.now.bound k ≡ Some result.now }
    {
        &self.list[k]
    }

    /// The slots that a name is bound to, or None where it isn't bound.
    pub fn get(&self, name: &[u8]) -> Option<&Slots>
        ensures { option_map (λ s. s.now) result ≡ slots_of self.now.bound name.now }
    {
        match self.place_of(name) {
            Some(k) => Some(&self.at(k).slots),
            None => None,
        }
    }

    /// Whether a name is bound.
    pub fn contains(&self, name: &[u8]) -> bool
        ensures { result ≡ is_bound self.now.bound name.now }
    {
        self.list.iter().any(|b| has_name(name, b))
    }

    /// The position of the binding of a name, or None where it isn't bound.
    pub fn place_of(&self, name: &[u8]) -> Option<usize>
        ensures place { result ≡ position (has_name name.now) self.now.bound }
        ensures within { IfSome result (λ k. k < length self.now.bound) }
    {
        self.list.iter().position(|b| has_name(name, b))
    }
}

fn has_name(name: &[u8], binding: &Binding) -> bool
    ensures { result ≡ has_name name.now binding.now }
{
    binding.name.as_slice() == name
}
