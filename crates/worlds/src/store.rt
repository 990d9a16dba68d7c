ghost use Rattle.std.specs.Prelude.{◌≡◌, ◌<◌, ◌≤◌, ◌↔◌, ◌++◌, [], length, take, drop, min, IsTrue, IsSome, OnOk, OnErr, IfOk};
ghost use Rattle.std.specs.Option.{option_copied};
ghost use Rattle.worlds.specs.Files.{entry_of, bytes_of, put};
ghost use Rattle.worlds.specs.Stored.{nothing_stored, also_asked, append_begun};
ghost use Rattle.worlds.specs.declared.start.Purpose.TheVariants.{Reading, Writing};

use crate::folder::Folder;
use crate::start::{Purpose, Start};
use crate::unread::Unread;
use sequence::{NoMemory, Text};
use std::alloc::Global;
use std::marker::Model;

/// What the worlds in memory share: files, and the calls on them. Want of memory changes nothing.
#[derive(Drop)]
pub struct Store {
    alloc: Global,
    files: Folder,
    rest: Unread,
    made: Folder,
    begun: Option<Text>,
    printed: Text,
    started: Vec<Start>,
    piece: usize,
}

impl Model for Store {
    ghost use Rattle.std.specs.Prelude.{◌<◌};
    ghost use Rattle.worlds.specs.Stored.{Stored};

    ghost Value = { Stored };

    ghost view = { λ s. record {
      files = s.files;
      rest = s.rest;
      made = s.made;
      begun = s.begun;
      printed = s.printed;
      started = s.started.items;
      piece = s.piece;
    } };

    ghost invariant = { λ s. 0 < s.piece };
}

impl Store {
    /// No files, and calls handle pieces of any length.
    pub fn new(alloc: Global) -> Store
        ensures { result ≡ nothing_stored }
    {
        Store {
            alloc,
            files: Folder::new(alloc),
            rest: Unread::new(alloc),
            made: Folder::new(alloc),
            begun: None,
            printed: Text::new(alloc),
            started: Vec::new(alloc),
            piece: usize::MAX,
        }
    }

    /// Puts bytes under a name.
    pub fn add_file(&mut self, name: &[u8], bytes: &[u8]) -> Result<(), NoMemory>
        ensures ok { OnOk result (self.new ≡ record self.old { files = put name.now bytes.now self.old.files }) }
        ensures err { OnErr result (self.new ≡ self.old) }
    {
        self.files.put(name, bytes)?;
        Ok(())
    }

    /// From now on a read, write or print handles at most so many bytes.
    pub fn limit_pieces(&mut self, most: usize)
        requires { 0 < most }
        ensures { self.new ≡ record self.old { piece = most } }
    {
        self.piece = most;
    }

    /// What was made under a name.
    pub fn made_file(&self, name: &[u8]) -> Option<&[u8]>
        ensures { option_copied result ≡ entry_of name.now self.now.made }
    {
        self.made.bytes(name)
    }

    /// What was printed.
    pub fn printed_bytes(&self) -> &[u8]
        ensures { result.now ≡ self.now.printed }
    {
        self.printed.as_slice()
    }

    /// Whether there is a file to read under a name.
    pub fn has_file(&self, name: &[u8]) -> bool
        ensures { IsTrue result ↔ IsSome (entry_of name.now self.now.files) }
    {
        self.files.bytes(name).is_some()
    }

    /// Notes that a file was asked for.
    pub fn note(&mut self, name: &[u8], purpose: Purpose) -> Result<(), NoMemory>
        ensures ok { OnOk result (self.new ≡ also_asked self.old name.now purpose) }
        ensures err { OnErr result (self.new ≡ self.old) }
    {
        let name = Text::of(self.alloc, name)?;
        self.started.push(Start { name, purpose })?;
        Ok(())
    }

    /// Reads a file from its beginning; a name that isn't there has no bytes.
    pub fn start_read(&mut self, name: &[u8]) -> Result<(), NoMemory>
        ensures ok { OnOk result (self.new ≡ record (also_asked self.old name.now Reading)
            { rest = bytes_of name.now self.old.files }) }
        ensures err { OnErr result (self.new ≡ self.old) }
    {
        let bytes = self.copy_of(name)?;
        self.note(name, Purpose::Reading)?;
        self.rest = Unread::of(bytes);
        Ok(())
    }

    // The bytes of a file to read.
    fn copy_of(&self, name: &[u8]) -> Result<Text, NoMemory>
        ensures { IfOk result (λ b. b ≡ bytes_of name.now self.now.files) }
    {
        match self.files.bytes(name) {
            Some(bytes) => Text::of(self.alloc, bytes),
            None => Ok(Text::new(self.alloc)),
        }
    }

    /// Takes the next bytes of the file being read.
    pub fn read(&mut self, into: &mut [u8]) -> usize
        ensures count { result ≡ min (min self.old.piece (length into.old)) (length self.old.rest) }
        ensures more { 0 < length into.old → 0 < length self.old.rest → 0 < result }
        ensures bytes { take result into.new ≡ take result self.old.rest }
        ensures rest { self.new ≡ record self.old { rest = drop result self.old.rest } }
    {
        let piece = self.piece;
        self.rest.read(into, piece)
    }

    /// Makes a file with no bytes, and begins it.
    pub fn start_write(&mut self, name: &[u8]) -> Result<(), NoMemory>
        ensures ok { OnOk result (self.new ≡ record (also_asked self.old name.now Writing)
            { made = put name.now [] self.old.made; begun = Some name.now }) }
        ensures err { OnErr result (self.new ≡ self.old) }
    {
        let begun = Text::of(self.alloc, name)?;
        self.note(name, Purpose::Writing)?;
        if let Err(e) = self.made.put(name, &[]) {
            self.started.pop();
            return Err(e);
        }
        self.begun = Some(begun);
        Ok(())
    }

    /// No file is begun any more.
    pub fn finish(&mut self)
        ensures { self.new ≡ record self.old { begun = None } }
    {
        self.begun = None;
    }

    /// Puts some of the first bytes at the end of the begun file, if any.
    pub fn write(&mut self, from: &[u8]) -> Result<usize, NoMemory>
        ensures count { IfOk result (λ n. n ≡ min self.old.piece (length from.now)) }
        ensures some { IfOk result (λ n. 0 < length from.now → 0 < n) }
        ensures ok { IfOk result (λ n. self.new
            ≡ record self.old { made = append_begun self.old.begun (take n from.now) self.old.made }) }
        ensures err { OnErr result (self.new ≡ self.old) }
    {
        let n = self.piece.min(from.len());
        match &self.begun {
            Some(name) => self.made.append(name.as_slice(), &from[..n])?,
            None => {}
        }
        Ok(n)
    }

    /// Prints some of the first bytes.
    pub fn print(&mut self, from: &[u8]) -> Result<usize, NoMemory>
        ensures count { IfOk result (λ n. n ≡ min self.old.piece (length from.now)) }
        ensures some { IfOk result (λ n. 0 < length from.now → 0 < n) }
        ensures ok { IfOk result (λ n. self.new ≡ record self.old { printed = self.old.printed ++ take n from.now }) }
        ensures err { OnErr result (self.new ≡ self.old) }
    {
        let n = self.piece.min(from.len());
        self.printed.append(&from[..n])?;
        Ok(n)
    }
}
