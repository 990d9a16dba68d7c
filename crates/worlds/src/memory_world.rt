ghost use Rattle.std.specs.Prelude.{◌≡◌, ◌<◌, ◌≤◌, ◌↔◌, ◌++◌, ◌∷◌, [], length, take, IsTrue, OnOk, OnErr, IfOk};
ghost use Rattle.std.specs.Option.{option_copied};
ghost use Rattle.byte_sink.specs.Causes.{CountsFault};
ghost use Rattle.byte_sink.specs.Wrote.{with_after};
ghost use Rattle.worlds.specs.Files.{entry_of, put};
ghost use Rattle.worlds.specs.Calls.{FailsIn, FailsOut, StartsRead, ReadsNext, StartsWrite, Finishes, Prints, CountsIn, CountsOut};
ghost use Rattle.worlds.specs.Told.{wrote_of, rest_of};
ghost use Rattle.worlds.specs.Stored.{nothing_stored};
ghost use Rattle.worlds.specs.Faults.{one_more};
ghost use Rattle.worlds.specs.Memory.{memory_told, IsToFail, CountsCall, Counts, FailsByNumber, FailsByName, as_world};

use crate::start::Purpose;
use crate::store::Store;
use crate::world::World;
use crate::world_fault::WorldFault;
use byte_sink::{Sink, WriteFault};
use sequence::{NoMemory, Sequence};
use std::alloc::Global;
use std::marker::Model;

/// A world in memory, which tells all, with calls that are to fail. A name that isn't there is a
/// failing `start_read`.
///
/// The calls of `World` and `Sink` are counted from 0. Calls on an empty piece and calls that
/// answer `NoMemory` aren't.
#[derive(Drop)]
pub struct MemoryWorld {
    store: Store,
    calls: u64,
    fails: Sequence<u64>,
    in_faults: u64,
    out_faults: u64,
}

impl Model for MemoryWorld {
    ghost use Rattle.worlds.specs.Memory.{MemoryState};

    ghost Value = { MemoryState };

    ghost view = { λ w. record {
      store = w.store;
      calls = w.calls;
      fails = w.fails;
      in_faults = w.in_faults;
      out_faults = w.out_faults;
    } };
}

impl MemoryWorld {
    /// No file, no call that fails, and nothing done yet. Pieces may have any length. It takes no
    /// memory.
    pub fn new(alloc: Global) -> MemoryWorld
        ensures { result ≡ record {
          store = nothing_stored;
          calls = 0;
          fails = [];
          in_faults = 0;
          out_faults = 0;
        } }
    {
        MemoryWorld {
            store: Store::new(alloc),
            calls: 0,
            fails: Sequence::new(alloc),
            in_faults: 0,
            out_faults: 0,
        }
    }

    /// Gives the files this name with these bytes.
    pub fn add_file(&mut self, name: &str, bytes: &[u8]) -> Result<(), NoMemory>
        ensures ok { OnOk result (self.new ≡ record self.old {
          store = record self.old.store { files = put name.now bytes.now self.old.store.files };
        }) }
        ensures err { OnErr result (self.new ≡ self.old) }
    {
        self.store.add_file(name.as_bytes(), bytes)?;
        Ok(())
    }

    /// The call of this number is to fail, besides those named earlier.
    pub fn fail_call(&mut self, k: u64) -> Result<(), NoMemory>
        ensures ok { OnOk result (self.new ≡ record self.old { fails = self.old.fails ++ k ∷ [] }) }
        ensures err { OnErr result (self.new ≡ self.old) }
    {
        self.fails.push(k)?;
        Ok(())
    }

    /// From now on a read, write or print handles at most so many bytes.
    pub fn limit_pieces(&mut self, most: usize)
        requires { 0 < most }
        ensures { self.new ≡ record self.old { store = record self.old.store { piece = most } } }
    {
        self.store.limit_pieces(most);
    }

    /// What was made under a name. It takes no memory.
    pub fn made_file(&self, name: &str) -> Option<&[u8]>
        ensures { option_copied result ≡ entry_of name.now self.now.store.made }
    {
        self.store.made_file(name.as_bytes())
    }

    /// What was printed. It takes no memory.
    pub fn printed_bytes(&self) -> &[u8]
        ensures { result.now ≡ self.now.store.printed }
    {
        self.store.printed_bytes()
    }

    // Whether the next call that is counted is to fail.
    fn is_to_fail(&self) -> bool
        ensures { IsTrue result ↔ IsToFail self.now }
    {
        self.fails.as_slice().contains(&self.calls)
    }

    // Counts a call.
    fn count(&mut self)
        ensures { self.new ≡ record self.old { calls = one_more self.old.calls } }
    {
        self.calls = self.calls.saturating_add(1);
    }

    // Counts a call, and a fault of input.
    fn fail_in(&mut self)
        ensures told { FailsIn (memory_told self.old) (memory_told self.new) }
        ensures one { self.new.in_faults ≡ one_more self.old.in_faults }
        ensures counted { CountsCall self.old self.new }
    {
        self.calls = self.calls.saturating_add(1);
        self.in_faults = self.in_faults.saturating_add(1);
    }

    // Counts a call, and a fault of output.
    fn fail_out(&mut self)
        ensures told { FailsOut (memory_told self.old) (memory_told self.new) }
        ensures one { self.new.out_faults ≡ one_more self.old.out_faults }
        ensures counted { CountsCall self.old self.new }
    {
        self.calls = self.calls.saturating_add(1);
        self.out_faults = self.out_faults.saturating_add(1);
    }
}

impl Sink for MemoryWorld {
    ghost use Rattle.worlds.specs.Told.{Told, wrote_of, rest_of};
    ghost use Rattle.worlds.specs.Memory.{memory_told};

    ghost wrote = { λ s. wrote_of (memory_told s) };

    ghost Others = { Told };

    ghost others = { λ s. rest_of (memory_told s) };

    ghost faults = { λ s. s.out_faults };

    #[tactic(auto, using(crate::proofs::FileLemmas::wrote_append, crate::proofs::FileLemmas::rest_append))]
    fn write(&mut self, from: &[u8]) -> Result<usize, WriteFault>
        ensures most { IfOk result (λ n. n ≤ length from.now) }
        ensures some { IfOk result (λ n. 0 < length from.now → 0 < n) }
        ensures wrote { IfOk result (λ n. wrote_of (memory_told self.new)
            ≡ with_after (wrote_of (memory_told self.old)) (take n from.now)) }
        ensures fault { OnErr result (wrote_of (memory_told self.new) ≡ wrote_of (memory_told self.old)) }
        ensures empty { length from.now ≡ 0 → result ≡ Ok 0 }
        ensures others { rest_of (memory_told self.new) ≡ rest_of (memory_told self.old) }
        ensures cause { CountsFault result self.old.out_faults self.new.out_faults }

        ensures limit { IfOk result (λ n. n ≤ self.old.store.piece) }
        ensures idle { length from.now ≡ 0 → self.new ≡ self.old }
        ensures counted { 0 < length from.now → Counts (as_world result) self.old self.new }
        ensures exact { 0 < length from.now → FailsByNumber (as_world result) self.old }
        ensures faults { CountsOut (as_world result) (memory_told self.old) (memory_told self.new) }
    {
        if from.is_empty() {
            return Ok(0);
        }
        if self.is_to_fail() {
            self.fail_out();
            return Err(WriteFault::Failed);
        }
        let n = self.store.write(from)?;
        self.count();
        Ok(n)
    }
}

impl World for MemoryWorld {
    ghost use Rattle.std.proofs.Common.{refl};
    ghost use Rattle.worlds.specs.Memory.{memory_told};

    ghost told = { memory_told };

    ghost sink_is_begun = { λ s. (refl, refl) };

    ghost others_is_rest = { λ v w same. same };

    fn start_read(&mut self, name: &str) -> Result<(), WorldFault>
        ensures told { StartsRead (memory_told self.old) (memory_told self.new) name.now result }
        ensures counted { Counts result self.old self.new }
        ensures exact { FailsByName result self.old name.now }
        ensures faults { CountsIn result (memory_told self.old) (memory_told self.new) }
    {
        if self.is_to_fail() {
            self.store.note(name.as_bytes(), Purpose::Reading)?;
            self.fail_in();
            return Err(WorldFault::Failed);
        }
        if !self.store.has_file(name.as_bytes()) {
            self.store.note(name.as_bytes(), Purpose::Reading)?;
            self.fail_in();
            return Err(WorldFault::Failed);
        }
        self.store.start_read(name.as_bytes())?;
        self.count();
        Ok(())
    }

    fn read(&mut self, into: &mut [u8]) -> Result<usize, WorldFault>
        ensures next { ReadsNext (memory_told self.old) (memory_told self.new) into.new result }
        ensures empty { length into.old ≡ 0 → result ≡ Ok 0 }
        ensures limit { IfOk result (λ n. n ≤ self.old.store.piece) }
        ensures idle { length into.old ≡ 0 → self.new ≡ self.old }
        ensures counted { 0 < length into.old → Counts result self.old self.new }
        ensures exact { 0 < length into.old → FailsByNumber result self.old }
        ensures faults { CountsIn result (memory_told self.old) (memory_told self.new) }
    {
        if into.is_empty() {
            return Ok(0);
        }
        if self.is_to_fail() {
            self.fail_in();
            return Err(WorldFault::Failed);
        }
        let n = self.store.read(into);
        self.count();
        Ok(n)
    }

    fn start_write(&mut self, name: &str) -> Result<(), WorldFault>
        ensures told { StartsWrite (memory_told self.old) (memory_told self.new) name.now result }
        ensures counted { Counts result self.old self.new }
        ensures exact { FailsByNumber result self.old }
        ensures faults { CountsOut result (memory_told self.old) (memory_told self.new) }
    {
        if self.is_to_fail() {
            self.store.note(name.as_bytes(), Purpose::Writing)?;
            self.fail_out();
            return Err(WorldFault::Failed);
        }
        self.store.start_write(name.as_bytes())?;
        self.count();
        Ok(())
    }

    fn finish(&mut self) -> Result<(), WorldFault>
        ensures told { Finishes (memory_told self.old) (memory_told self.new) result }
        ensures counted { Counts result self.old self.new }
        ensures exact { FailsByNumber result self.old }
        ensures faults { CountsOut result (memory_told self.old) (memory_told self.new) }
    {
        if self.is_to_fail() {
            self.fail_out();
            return Err(WorldFault::Failed);
        }
        self.store.finish();
        self.count();
        Ok(())
    }

    fn print(&mut self, from: &[u8]) -> Result<usize, WorldFault>
        ensures some { Prints (memory_told self.old) (memory_told self.new) from.now result }
        ensures empty { length from.now ≡ 0 → result ≡ Ok 0 }
        ensures limit { IfOk result (λ n. n ≤ self.old.store.piece) }
        ensures idle { length from.now ≡ 0 → self.new ≡ self.old }
        ensures counted { 0 < length from.now → Counts result self.old self.new }
        ensures exact { 0 < length from.now → FailsByNumber result self.old }
        ensures faults { CountsOut result (memory_told self.old) (memory_told self.new) }
    {
        if from.is_empty() {
            return Ok(0);
        }
        if self.is_to_fail() {
            self.fail_out();
            return Err(WorldFault::Failed);
        }
        let n = self.store.print(from)?;
        self.count();
        Ok(n)
    }
}
