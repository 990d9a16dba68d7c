ghost use Rattle.std.specs.Prelude.{◌≡◌, ◌<◌, ℕ, [], true, length, max, slice_set, OnOk, OnErr};
ghost use Rattle.mesh_model.specs.NameSet.{is_in};

use sequence::NoMemory;
use std::alloc::Global;
use std::marker::Model;

/// A set of names of one kind, with a flag for each name below its width.
#[derive(Debug, Drop)]
pub(crate) struct NameSet {
    flags: Vec<bool>,
}

impl Model for NameSet {
    ghost use Rattle.std.specs.Prelude.{List, Bool};

    ghost Value = { List Bool };

    ghost view = { λ s. s.flags.items };
}

impl NameSet {
    /// The empty set. Takes no memory.
    pub(crate) fn new(alloc: Global) -> NameSet
        ensures { result ≡ [] }
    {
        NameSet {
            flags: Vec::new(alloc),
        }
    }

    /// Makes room for the names below `width`, in time proportional to the flags that are added.
    /// The members stay, and after `NoMemory` the set is as before.
    pub(crate) fn widen(&mut self, width: usize) -> Result<(), NoMemory>
        ensures members { (n : ℕ) → is_in self.new n ≡ is_in self.old n }
        ensures wide { OnOk result (length self.new ≡ max (length self.old) width) }
        ensures err { OnErr result (self.new ≡ self.old) }
    {
        if self.flags.len() < width {
            self.flags.resize(width, false)?;
        }
        Ok(())
    }

    /// Puts a name into the set, in constant time.
    pub(crate) fn insert(&mut self, name: u32)
        requires { name < length self.old }
        ensures { self.new ≡ slice_set self.old name true }
    {
        self.flags[name as usize] = true;
    }

    /// Whether a name is in the set, in constant time.
    pub(crate) fn contains(&self, name: u32) -> bool
        ensures { result ≡ is_in self.now name }
    {
        match self.flags.get(name as usize) {
            Some(flag) => *flag,
            None => false,
        }
    }
}
