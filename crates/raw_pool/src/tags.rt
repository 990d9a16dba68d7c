//! One bit for each place, in words of 64: which places of a pool hold a value, say.
ghost use Rattle.std.specs.Prelude.{◌≡◌, ℕ, ◌<◌, ◌≤◌, ◌*◌, ◌^◌, [], length, vec_len, OnOk, IfOk, IsOk, IsTrue, ◌↔◌, MatchOption};
ghost use Rattle.raw_pool.specs.Tags.{tag_at, SameTags, ChangesTag, NoTagFrom, IsFirstTag};

use std::alloc::{AllocError, Global};

// The bits in a word.
const WORD: usize = 64;

/// A bit for each of fewer than 2^32 places. The next one that is set is found 64 at a time.
///
/// Contracts see the bit of a place as `tag_at` of the words, which is 0 past the last one.
#[derive(Drop)]
pub struct Tags {
    words: Vec<u64>,
    ghost small: { vec_len words ≤ 2 ^ 26 },
}

impl Tags {
    /// No bit is set. Takes no memory.
    pub fn new(alloc: Global) -> Tags
        ensures { result.words.items ≡ [] }
    {
        Tags {
            words: Vec::new(alloc),
        }
    }

    /// Makes room for the bits of `places` places, in time that grows with the number of new ones. No bit changes.
    ///
    /// After an error, which is want of memory, some of the room may have been made.
    pub fn cover(&mut self, places: usize) -> Result<(), AllocError>
        requires { places < 2 ^ 32 }
        ensures same { SameTags self.old.words.items self.new.words.items }
        ensures grows { length self.old.words.items ≤ length self.new.words.items }
        ensures ok { OnOk result (places ≤ length self.new.words.items * 64) }
        ensures enough { places ≤ length self.old.words.items * 64 → IsOk result }
    {
        let count = places.div_ceil(WORD);
        while self.words.len() < count {
            self.words.push(0)?;
        }
        Ok(())
    }

    /// The same bits, in words of their own.
    pub(crate) fn copy(&self, alloc: Global) -> Result<Tags, AllocError>
        ensures { IfOk result (λ t. t.words.items ≡ self.now.words.items) }
    {
        let words = Vec::from_slice(alloc, &self.words)?;
        Ok(Tags { words })
    }

    /// Whether a bit is set, for which there is room. Constant time.
    pub fn has(&self, at: usize) -> bool
        requires { at < length self.now.words.items * 64 }
        ensures { IsTrue result ↔ (tag_at self.now.words.items at ≡ 1) }
    {
        self.words[at / WORD] >> (at % WORD) & 1 == 1
    }

    /// Sets a bit for which there is room. Constant time.
    pub fn set(&mut self, at: usize)
        requires { at < length self.old.words.items * 64 }
        ensures tags { ChangesTag self.old.words.items self.new.words.items at 1 }
        ensures len { length self.new.words.items ≡ length self.old.words.items }
    {
        let word = &mut self.words[at / WORD];
        *word |= 1 << (at % WORD);
    }

    /// Clears a bit for which there is room. Constant time.
    pub fn clear(&mut self, at: usize)
        requires { at < length self.old.words.items * 64 }
        ensures tags { ChangesTag self.old.words.items self.new.words.items at 0 }
        ensures len { length self.new.words.items ≡ length self.old.words.items }
    {
        let word = &mut self.words[at / WORD];
        *word &= !(1 << (at % WORD));
    }

    /// The first set bit from `low` on. It reads a word for each 64 bits on the way.
    pub fn first_from(&self, low: usize) -> Option<usize>
        ensures { MatchOption result (NoTagFrom self.now.words.items low) (IsFirstTag self.now.words.items low) }
    {
        let mut index = low / WORD;
        if index >= self.words.len() {
            return None;
        }
        let mut word = self.words[index] & (u64::MAX << (low % WORD));
        while word == 0 {
            index += 1;
            if index == self.words.len() {
                return None;
            }
            word = self.words[index];
        }
        Some(index * WORD + word.trailing_zeros() as usize)
    }
}
