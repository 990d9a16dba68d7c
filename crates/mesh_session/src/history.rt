//! What a session remembers.
ghost use Rattle.std.specs.Prelude.{◌≡◌, ◌<◌, [], ◌∷◌, ◌++◌, true, IfOk, option_map, option_to_list};
ghost use Rattle.mesh_session.specs.State.{is_new};
ghost use Rattle.mesh_session.specs.Steps.{binding_of, without_last};

use crate::entry::Entry;
use op_slots::{Binding, Bindings, Slots};
use sequence::{NoMemory, Text};
use std::alloc::Global;

/// What is bound, and the entries that undo and redo go to, the next one last.
#[derive(Drop)]
pub struct History {
    pub bindings: Bindings,
    pub undo: Vec<Entry>,
    pub redo: Vec<Entry>,
}

impl History {
    // Nothing is bound, and there is nothing to go to. Takes no memory.
    pub fn new(alloc: Global) -> History
        ensures bindings { result.bindings.bound ≡ [] }
        ensures undo { result.undo.items ≡ [] }
        ensures redo { result.redo.items ≡ [] }
    {
        History {
            bindings: Bindings::new(alloc),
            undo: Vec::new(alloc),
            redo: Vec::new(alloc),
        }
    }
}

// What is bound to a command's name, if it has one.
pub fn binding_of(name: &Option<Text>, slots: &Slots) -> Result<Option<Binding>, NoMemory>
    ensures { IfOk result (λ b. b ≡ binding_of name.now slots.now) }
{
    match name {
        Some(name) => {
            let name = name.copy()?;
            let slots = slots.copy()?;
            Ok(Some(Binding { name, slots }))
        }
        None => Ok(None),
    }
}

// An equal binding, if there is one.
pub fn copy_of(binding: &Option<Binding>) -> Result<Option<Binding>, NoMemory>
    ensures { IfOk result (λ b. b ≡ binding.now) }
{
    match binding {
        Some(binding) => {
            let name = binding.name.copy()?;
            let slots = binding.slots.copy()?;
            Ok(Some(Binding { name, slots }))
        }
        None => Ok(None),
    }
}

// Whether a name isn't bound yet, or there is none.
pub fn is_new(bindings: &Bindings, name: &Option<Text>) -> bool
    ensures { result ≡ is_new bindings.now.bound name.now }
{
    match name {
        Some(name) => !bindings.contains(name.as_slice()),
        None => true,
    }
}

// Binds a name, if there is one.
pub fn bind(bindings: &mut Bindings, binding: Option<Binding>)
    requires room { 0 < bindings.old.spare }
    requires unbound { is_new bindings.old.bound (option_map (λ b. b.name) binding) ≡ true }
    ensures { bindings.new.bound ≡ bindings.old.bound ++ option_to_list binding }
{
    match binding {
        Some(binding) => bindings.push(binding.name, binding.slots),
        None => {}
    }
}

// Takes the last binding away, if one goes.
pub fn unbind(bindings: &mut Bindings, binding: &Option<Binding>)
    ensures { bindings.new.bound ≡ without_last bindings.old.bound binding.now }
{
    match binding {
        Some(_) => {
            let _gone = bindings.pop();
        }
        None => {}
    }
}
