ghost use Rattle.std.specs.Prelude.{◌≡◌, ◌<◌, [], length, OnOk, OnErr, IfSome};
ghost use Rattle.std.specs.List.{find, position};
ghost use Rattle.std.specs.Option.{option_copied};
ghost use Rattle.worlds.specs.Files.{is_named, entry_of, put, append_to};

use crate::entry::Entry;
use sequence::{NoMemory, Text};
use std::alloc::Global;
use std::marker::Model;

/// Files in memory, seen as their list.
#[derive(Drop)]
pub struct Folder {
    alloc: Global,
    entries: Vec<Entry>,
}

impl Model for Folder {
    ghost use Rattle.std.specs.Prelude.{List};
    ghost use Rattle.worlds.specs.declared.entry.Entry.{Entry};

    ghost Value = { List Entry };

    ghost view = { λ f. f.entries.items };
}

impl Folder {
    /// No files. It takes no memory.
    pub fn new(alloc: Global) -> Folder
        ensures { result ≡ [] }
    {
        Folder {
            alloc,
            entries: Vec::new(alloc),
        }
    }

    /// The bytes under a name.
    pub fn bytes(&self, name: &[u8]) -> Option<&[u8]>
        ensures { option_copied result ≡ entry_of name.now self.now }
    {
        match self.entry(name) {
            Some(entry) => Some(entry.bytes.as_slice()),
            None => None,
        }
    }

    // The file of a name.
    fn entry(&self, name: &[u8]) -> Option<&Entry>
        ensures { option_copied result ≡ find (is_named name.now) self.now }
    {
        self.entries.iter().find(|e| is_named(name, e))
    }

    /// Puts bytes under a name.
    pub fn put(&mut self, name: &[u8], bytes: &[u8]) -> Result<(), NoMemory>
        ensures ok { OnOk result (self.new ≡ put name.now bytes.now self.old) }
        ensures err { OnErr result (self.new ≡ self.old) }
    {
        let entry = Entry {
            name: Text::of(self.alloc, name)?,
            bytes: Text::of(self.alloc, bytes)?,
        };
        match place_of(&self.entries, name) {
            Some(i) => self.entries[i] = entry,
            None => self.entries.push(entry)?,
        }
        Ok(())
    }

    /// Puts bytes after those under a name, if it is there.
    pub fn append(&mut self, name: &[u8], bytes: &[u8]) -> Result<(), NoMemory>
        ensures ok { OnOk result (self.new ≡ append_to name.now bytes.now self.old) }
        ensures err { OnErr result (self.new ≡ self.old) }
    {
        match place_of(&self.entries, name) {
            Some(i) => {
                let entry = &mut self.entries[i];
                entry.bytes.append(bytes)?;
                Ok(())
            }
            None => Ok(()),
        }
    }
}

fn place_of(entries: &[Entry], name: &[u8]) -> Option<usize>
    ensures place { result ≡ position (is_named name.now) entries.now }
    ensures within { IfSome result (λ k. k < length entries.now) }
{
    entries.iter().position(|e| is_named(name, e))
}

fn is_named(name: &[u8], e: &Entry) -> bool
    ensures { result ≡ is_named name.now e.now }
{
    name == e.name.as_slice()
}
