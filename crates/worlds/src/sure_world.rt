ghost use Rattle.std.specs.Prelude.{◌≡◌, ◌<◌, ◌≤◌, [], length, take, OnOk, OnErr, IfOk, IfErr};
ghost use Rattle.std.specs.Option.{option_copied};
ghost use Rattle.worlds.specs.Stored.{nothing_stored};
ghost use Rattle.byte_sink.specs.Wrote.{with_after};
ghost use Rattle.worlds.specs.Files.{entry_of, put};
ghost use Rattle.worlds.specs.Told.{wrote_of, rest_of};
ghost use Rattle.worlds.specs.Calls.{StartsRead, ReadsNext, StartsWrite, Finishes, Prints};
ghost use Rattle.worlds.specs.Memory.{sure_told};

use crate::store::Store;
use crate::world::World;
use crate::world_fault::WorldFault;
use byte_sink::{Sink, WriteFault};
use sequence::NoMemory;
use std::alloc::Global;
use std::marker::Model;

/// A world in memory, which tells all, and in which nothing fails: it tells counts of 0 for ever,
/// and a name that isn't there reads as no bytes.
#[derive(Drop)]
pub struct SureWorld {
    store: Store,
}

impl Model for SureWorld {
    ghost use Rattle.worlds.specs.Stored.{Stored};

    ghost Value = { Stored };

    ghost view = { λ w. w.store };
}

impl SureWorld {
    /// No file, and nothing done yet. Pieces may have any length. It takes no memory.
    pub fn new(alloc: Global) -> SureWorld
        ensures { result ≡ nothing_stored }
    {
        SureWorld {
            store: Store::new(alloc),
        }
    }

    /// Gives the files this name with these bytes.
    pub fn add_file(&mut self, name: &str, bytes: &[u8]) -> Result<(), NoMemory>
        ensures ok { OnOk result (self.new ≡ record self.old { files = put name.now bytes.now self.old.files }) }
        ensures err { OnErr result (self.new ≡ self.old) }
    {
        self.store.add_file(name.as_bytes(), bytes)?;
        Ok(())
    }

    /// From now on a read, write or print handles at most so many bytes.
    pub fn limit_pieces(&mut self, most: usize)
        requires { 0 < most }
        ensures { self.new ≡ record self.old { piece = most } }
    {
        self.store.limit_pieces(most);
    }

    /// What was made under a name. It takes no memory.
    pub fn made_file(&self, name: &str) -> Option<&[u8]>
        ensures { option_copied result ≡ entry_of name.now self.now.made }
    {
        self.store.made_file(name.as_bytes())
    }

    /// What was printed. It takes no memory.
    pub fn printed_bytes(&self) -> &[u8]
        ensures { result.now ≡ self.now.printed }
    {
        self.store.printed_bytes()
    }
}

impl Sink for SureWorld {
    ghost use Rattle.worlds.specs.Told.{Told, wrote_of, rest_of};
    ghost use Rattle.worlds.specs.Memory.{sure_told};

    ghost wrote = { λ s. wrote_of (sure_told s) };

    ghost Others = { Told };

    ghost others = { λ s. rest_of (sure_told s) };

    ghost faults = { λ _. 0 };

    #[tactic(auto, using(crate::proofs::FileLemmas::rest_append))]
    fn write(&mut self, from: &[u8]) -> Result<usize, WriteFault>
        ensures most { IfOk result (λ n. n ≤ length from.now) }
        ensures some { IfOk result (λ n. 0 < length from.now → 0 < n) }
        ensures wrote { IfOk result (λ n. wrote_of (sure_told self.new)
            ≡ with_after (wrote_of (sure_told self.old)) (take n from.now)) }
        ensures fault { OnErr result (wrote_of (sure_told self.new) ≡ wrote_of (sure_told self.old)) }
        ensures empty { length from.now ≡ 0 → (result ≡ Ok 0) × (self.new ≡ self.old) }
        ensures others { rest_of (sure_told self.new) ≡ rest_of (sure_told self.old) }
        ensures sure { IfErr result (λ e. e ≡ WriteFault.NoMemory) }

        ensures limit { IfOk result (λ n. n ≤ self.old.piece) }
        ensures piece { self.new.piece ≡ self.old.piece }
    {
        if from.is_empty() {
            return Ok(0);
        }
        let n = self.store.write(from)?;
        Ok(n)
    }
}

impl World for SureWorld {
    ghost use Rattle.std.proofs.Common.{refl};
    ghost use Rattle.worlds.specs.Memory.{sure_told};

    ghost told = { sure_told };

    ghost sink_is_begun = { λ s. (refl, refl) };

    ghost others_is_rest = { λ v w same. same };

    fn start_read(&mut self, name: &str) -> Result<(), WorldFault>
        ensures told { StartsRead (sure_told self.old) (sure_told self.new) name.now result }
        ensures piece { self.new.piece ≡ self.old.piece }
    {
        self.store.start_read(name.as_bytes())?;
        Ok(())
    }

    fn read(&mut self, into: &mut [u8]) -> Result<usize, WorldFault>
        ensures next { ReadsNext (sure_told self.old) (sure_told self.new) into.new result }
        ensures empty { length into.old ≡ 0 → (result ≡ Ok 0) × (self.new ≡ self.old) }
        ensures limit { IfOk result (λ n. n ≤ self.old.piece) }
        ensures piece { self.new.piece ≡ self.old.piece }
    {
        if into.is_empty() {
            return Ok(0);
        }
        Ok(self.store.read(into))
    }

    fn start_write(&mut self, name: &str) -> Result<(), WorldFault>
        ensures told { StartsWrite (sure_told self.old) (sure_told self.new) name.now result }
        ensures piece { self.new.piece ≡ self.old.piece }
    {
        self.store.start_write(name.as_bytes())?;
        Ok(())
    }

    fn finish(&mut self) -> Result<(), WorldFault>
        ensures told { Finishes (sure_told self.old) (sure_told self.new) result }
        ensures piece { self.new.piece ≡ self.old.piece }
    {
        self.store.finish();
        Ok(())
    }

    fn print(&mut self, from: &[u8]) -> Result<usize, WorldFault>
        ensures some { Prints (sure_told self.old) (sure_told self.new) from.now result }
        ensures empty { length from.now ≡ 0 → (result ≡ Ok 0) × (self.new ≡ self.old) }
        ensures limit { IfOk result (λ n. n ≤ self.old.piece) }
        ensures piece { self.new.piece ≡ self.old.piece }
    {
        if from.is_empty() {
            return Ok(0);
        }
        let n = self.store.print(from)?;
        Ok(n)
    }
}
