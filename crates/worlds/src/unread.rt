ghost use Rattle.std.specs.Prelude.{◌≡◌, ◌≤◌, [], length, take, drop, min};

use sequence::Text;
use std::alloc::Global;
use std::marker::Model;

/// What is left to read of a file, seen as the list of its bytes.
#[derive(Drop)]
pub struct Unread {
    bytes: Text,
    at: usize,
}

impl Model for Unread {
    ghost use Rattle.std.specs.Prelude.{List, ℕ, ◌≤◌, length, drop};

    ghost Value = { List ℕ };

    ghost view = { λ u. drop u.at u.bytes };

    ghost invariant = { λ u. u.at ≤ length u.bytes };
}

impl Unread {
    /// Nothing is left. It takes no memory.
    pub fn new(alloc: Global) -> Unread
        ensures { result ≡ [] }
    {
        Unread {
            bytes: Text::new(alloc),
            at: 0,
        }
    }

    /// All of these bytes are left.
    pub fn of(bytes: Text) -> Unread
        ensures { result ≡ bytes }
    {
        Unread { bytes, at: 0 }
    }

    /// Takes the next bytes, as many as there are, fit and are wanted at most.
    pub fn read(&mut self, into: &mut [u8], most: usize) -> usize
        ensures count { result ≡ min (min most (length into.old)) (length self.old) }
        ensures bytes { take result into.new ≡ take result self.old }
        ensures rest { self.new ≡ drop result self.old }
    {
        let left = &self.bytes.as_slice()[self.at..];
        let n = most.min(into.len()).min(left.len());
        into[..n].copy_from_slice(&left[..n]);
        self.at += n;
        n
    }
}
