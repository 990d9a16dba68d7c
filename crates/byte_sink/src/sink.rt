ghost use Rattle.std.specs.Prelude.{◌≡◌, ◌<◌, ◌≤◌, ℕ, List, length, take, Ok, IfOk, OnOk, OnErr};
ghost use Rattle.std.specs.declared.option.Option.{Option};
ghost use Rattle.byte_sink.specs.Wrote.{with_after, AddsPrefix};
ghost use Rattle.byte_sink.specs.Causes.{CountsFault};

use crate::write_fault::WriteFault;

/// Takes bytes, a piece after a piece.
pub trait Sink {
    /// The bytes taken so far, if it tells them.
    ghost wrote: { Self → Option (List ℕ) };

    /// The type of all else that it tells.
    ghost Others: { Type 0 };

    /// All else that it tells.
    ghost others: { Self → Others };

    /// How often it has failed. The count never falls.
    ghost faults: { Self → ℕ };

    /// Takes some of the piece's first bytes, at least one if there is one, and answers how many.
    /// `NoMemory` may come in any call of a piece that isn't empty, and has changed nothing.
    fn write(&mut self, from: &[u8]) -> Result<usize, WriteFault>
        ensures most { IfOk result (λ n. n ≤ length from.now) }
        ensures some { IfOk result (λ n. 0 < length from.now → 0 < n) }
        ensures wrote { IfOk result (λ n. wrote self.new ≡ with_after (wrote self.old) (take n from.now)) }
        ensures fault { OnErr result (wrote self.new ≡ wrote self.old) }
        ensures empty { length from.now ≡ 0 → (result ≡ Ok 0) × (wrote self.new ≡ wrote self.old) }
        ensures others { others self.new ≡ others self.old }
        ensures cause { CountsFault result (faults self.old) (faults self.new) };
}

/// Writes all the bytes, or a prefix of them before a fault.
#[tactic(auto, using(crate::proofs::WroteLemmas::with_after_more))]
pub fn write_all<K: Sink>(sink: &mut K, bytes: &[u8]) -> Result<(), WriteFault>
    ensures ok { OnOk result (K.wrote sink.new ≡ with_after (K.wrote sink.old) bytes.now) }
    ensures part { AddsPrefix (K.wrote sink.old) (K.wrote sink.new) bytes.now }
    ensures others { K.others sink.new ≡ K.others sink.old }
    ensures cause { CountsFault result (K.faults sink.old) (K.faults sink.new) }
{
    let mut done = 0;
    while done < bytes.len() {
        done += sink.write(&bytes[done..])?;
    }
    Ok(())
}
