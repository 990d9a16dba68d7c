ghost use Rattle.std.specs.Prelude.{◌≡◌, ◌<◌, ◌≤◌, [], length, take, OnOk, OnErr, IfOk, IfErr, IfSome};
ghost use Rattle.byte_sink.specs.Causes.{CountsFault};
ghost use Rattle.byte_sink.specs.Wrote.{with_after};
ghost use Rattle.worlds.specs.Told.{with_start, wrote_of, rest_of};
ghost use Rattle.worlds.specs.Calls.{FailsIn, FailsOut, StartsRead, ReadsNext, StartsWrite, Finishes, Prints, IsIdle, CountsIn, CountsOut};
ghost use Rattle.worlds.specs.Faults.{one_more};
ghost use Rattle.worlds.specs.Memory.{as_world};
ghost use Rattle.worlds.specs.declared.world_fault.WorldFault.TheVariants.{NoMemory};

use crate::start::{Purpose, Start};
use crate::world::World;
use crate::world_fault::WorldFault;
use byte_sink::{Sink, WriteFault};
use sequence::Text;
use std::fs::File;
use std::io::{Read, Write};
use std::marker::Model;
use std::{fs, io};

// How often a call that was interrupted is made at most.
const TRIES: u32 = 1000;

// A file that is begun.
#[derive(Drop)]
struct Begun {
    name: Text,
    file: File,
}

/// Real files and standard output. It tells what was asked for, which file is begun and the two
/// counts, and of the bytes only that nothing is left to read while no file was opened. A count at
/// its type's end stays there.
///
/// A call that was interrupted is made again, 1,000 times at most. Where a file can't be opened for
/// want of memory, the answer is `NoMemory`.
#[derive(Drop)]
pub struct HostWorld {
    rt: HostRuntime,
    reading: Option<File>,
    writing: Option<Begun>,
    started: Vec<Start>,
    in_faults: u64,
    out_faults: u64,
}

impl Model for HostWorld {
    ghost use Rattle.std.specs.declared.option.Option.TheVariants.{None};
    ghost use Rattle.std.specs.Option.{option_map};
    ghost use Rattle.worlds.specs.Told.{Told, left_of_none};
    ghost use Rattle.worlds.specs.declared.host_world.Begun.{Begun};

    ghost Value = { Told };

    ghost view = { λ w. record {
      files = None;
      rest = left_of_none w.reading;
      made = None;
      begun = option_map (λ (b : Begun). b.name) w.writing;
      printed = None;
      started = w.started.items;
      in_faults = w.in_faults;
      out_faults = w.out_faults;
    } };
}

impl HostWorld {
    /// Nothing was asked for, and no file is open or begun. It takes no memory.
    pub fn new(rt: HostRuntime) -> HostWorld
        ensures { result ≡ record {
          files = None;
          rest = Some [];
          made = None;
          begun = None;
          printed = None;
          started = [];
          in_faults = 0;
          out_faults = 0;
        } }
    {
        let alloc = rt.alloc();
        HostWorld {
            rt,
            reading: None,
            writing: None,
            started: Vec::new(alloc),
            in_faults: 0,
            out_faults: 0,
        }
    }

    // Notes that a file was asked for.
    fn note(&mut self, name: &str, purpose: Purpose) -> Result<(), WorldFault>
        ensures ok { OnOk result (self.new ≡ with_start self.old name.now purpose) }
        ensures err { OnErr result (self.new ≡ self.old) }
        ensures memory { IfErr result (λ e. e ≡ NoMemory) }
    {
        let name = Text::of(self.rt.alloc(), name.as_bytes())?;
        self.started.push(Start { name, purpose })?;
        Ok(())
    }

    // Counts a fault of input.
    fn fail_in(&mut self) -> WorldFault
        ensures fault { result ≡ WorldFault.Failed }
        ensures told { FailsIn self.old self.new }
        ensures one { self.new.in_faults ≡ one_more self.old.in_faults }
    {
        self.in_faults = self.in_faults.saturating_add(1);
        WorldFault::Failed
    }

    // Counts a fault of output.
    fn fail_out(&mut self) -> WorldFault
        ensures fault { result ≡ WorldFault.Failed }
        ensures told { FailsOut self.old self.new }
        ensures one { self.new.out_faults ≡ one_more self.old.out_faults }
    {
        self.out_faults = self.out_faults.saturating_add(1);
        WorldFault::Failed
    }
}

impl Sink for HostWorld {
    ghost use Rattle.worlds.specs.Told.{Told, wrote_of, rest_of};

    ghost wrote = { wrote_of };

    ghost Others = { Told };

    ghost others = { rest_of };

    ghost faults = { λ t. t.out_faults };

    // With no file begun all the bytes are taken, and go nowhere.
    fn write(&mut self, from: &[u8]) -> Result<usize, WriteFault>
        ensures most { IfOk result (λ n. n ≤ length from.now) }
        ensures some { IfOk result (λ n. 0 < length from.now → 0 < n) }
        ensures wrote { IfOk result (λ n. wrote_of self.new ≡ with_after (wrote_of self.old) (take n from.now)) }
        ensures fault { OnErr result (wrote_of self.new ≡ wrote_of self.old) }
        ensures empty { length from.now ≡ 0 → (result ≡ Ok 0) × (self.new ≡ self.old) }
        ensures others { rest_of self.new ≡ rest_of self.old }
        ensures cause { CountsFault result self.old.out_faults self.new.out_faults }

        ensures faults { CountsOut (as_world result) self.old self.new }
        ensures nowhere { self.old.begun ≡ None → (result ≡ Ok (length from.now)) × (self.new ≡ self.old) }
    {
        if from.is_empty() {
            return Ok(0);
        }
        match &mut self.writing {
            Some(begun) => match write_some(&mut begun.file, from) {
                Some(n) => Ok(n),
                None => {
                    self.out_faults = self.out_faults.saturating_add(1);
                    Err(WriteFault::Failed)
                }
            },
            None => Ok(from.len()),
        }
    }
}

impl World for HostWorld {
    ghost use Rattle.std.proofs.Common.{refl};

    ghost told = { λ t. t };

    ghost sink_is_begun = { λ t. (refl, refl) };

    ghost others_is_rest = { λ v w same. same };

    fn start_read(&mut self, name: &str) -> Result<(), WorldFault>
        ensures told { StartsRead self.old self.new name.now result }
        ensures faults { CountsIn result self.old self.new }
    {
        self.note(name, Purpose::Reading)?;
        match opened(&self.rt, name, Purpose::Reading) {
            Ok(file) => {
                self.reading = Some(file);
                Ok(())
            }
            Err(WorldFault::Failed) => Err(self.fail_in()),
            Err(WorldFault::NoMemory) => {
                self.started.pop();
                Err(WorldFault::NoMemory)
            }
        }
    }

    fn read(&mut self, into: &mut [u8]) -> Result<usize, WorldFault>
        ensures next { ReadsNext self.old self.new into.new result }
        ensures empty { IsIdle self.old self.new into.old result }
        ensures faults { CountsIn result self.old self.new }
    {
        if into.is_empty() {
            return Ok(0);
        }
        match &mut self.reading {
            Some(file) => match read_some(file, into) {
                Some(n) => Ok(n),
                None => Err(self.fail_in()),
            },
            None => Ok(0),
        }
    }

    fn start_write(&mut self, name: &str) -> Result<(), WorldFault>
        ensures told { StartsWrite self.old self.new name.now result }
        ensures faults { CountsOut result self.old self.new }
    {
        let begun = Text::of(self.rt.alloc(), name.as_bytes())?;
        self.note(name, Purpose::Writing)?;
        match opened(&self.rt, name, Purpose::Writing) {
            Ok(file) => {
                self.writing = Some(Begun { name: begun, file });
                Ok(())
            }
            Err(WorldFault::Failed) => Err(self.fail_out()),
            Err(WorldFault::NoMemory) => {
                self.started.pop();
                Err(WorldFault::NoMemory)
            }
        }
    }

    // With no file begun nothing is done. What the system still holds back of the file is written
    // first, where such a file can be asked for that.
    fn finish(&mut self) -> Result<(), WorldFault>
        ensures told { Finishes self.old self.new result }
        ensures faults { CountsOut result self.old self.new }
        ensures nothing { self.old.begun ≡ None → (result ≡ Ok tt) × (self.new ≡ self.old) }
    {
        let is_written = match &self.writing {
            Some(begun) => is_written_back(&begun.file),
            None => return Ok(()),
        };
        self.writing = None;
        if is_written {
            Ok(())
        } else {
            Err(self.fail_out())
        }
    }

    fn print(&mut self, from: &[u8]) -> Result<usize, WorldFault>
        ensures some { Prints self.old self.new from.now result }
        ensures empty { IsIdle self.old self.new from.now result }
        ensures faults { CountsOut result self.old self.new }
    {
        if from.is_empty() {
            return Ok(0);
        }
        match write_some(&mut self.rt.stdout(), from) {
            Some(n) => Ok(n),
            None => Err(self.fail_out()),
        }
    }
}

// A file opened at its beginning, or made with no bytes.
fn opened(rt: &HostRuntime, name: &str, purpose: Purpose) -> Result<File, WorldFault> {
    for _ in 0..TRIES {
        let file = match purpose {
            Purpose::Reading => fs::open(rt, name),
            Purpose::Writing => fs::create(rt, name),
        };
        match file {
            Ok(file) => return Ok(file),
            Err(e) if e.kind() == io::ErrorKind::Interrupted => {}
            Err(e) if e.kind() == io::ErrorKind::OutOfMemory => return Err(WorldFault::NoMemory),
            Err(_) => return Err(WorldFault::Failed),
        }
    }
    Err(WorldFault::Failed)
}

// Reads the next bytes.
fn read_some<R: Read>(file: &mut R, into: &mut [u8]) -> Option<usize>
    ensures { IfSome result (λ n. n ≤ length into.new) }
{
    for _ in 0..TRIES {
        match file.read(into) {
            Ok(n) => return Some(n),
            Err(e) if e.kind() == io::ErrorKind::Interrupted => {}
            Err(_) => return None,
        }
    }
    None
}

// Writes some of the first bytes, at least one.
fn write_some<W: Write>(file: &mut W, from: &[u8]) -> Option<usize>
    ensures { IfSome result (λ n. (0 < n) × (n ≤ length from.now)) }
{
    for _ in 0..TRIES {
        match file.write(from) {
            Ok(0) => return None,
            Ok(n) => return Some(n),
            Err(e) if e.kind() == io::ErrorKind::Interrupted => {}
            Err(_) => return None,
        }
    }
    None
}

// Whether all bytes of a file are where it lies, or it is of a kind that can't be asked for that, as
// a pipe.
fn is_written_back(file: &File) -> bool {
    for _ in 0..TRIES {
        match file.sync_all() {
            Ok(()) => return true,
            Err(e) if e.kind() == io::ErrorKind::Interrupted => {}
            Err(e) => {
                return matches!(
                    e.kind(),
                    io::ErrorKind::Unsupported | io::ErrorKind::InvalidInput
                );
            }
        }
    }
    false
}
