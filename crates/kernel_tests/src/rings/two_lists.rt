//! Links of the keys 0 to n - 1, kept in two lists.
ghost use Rattle.std.specs.Prelude.{◌≡◌, ℕ, ◌<◌, length, IfOk};
ghost use Rattle.kernel_tests.specs.TwoLists.{links_of, one_number, limited_by_length};

use link_ring::Links;
use std::alloc::{AllocError, Global};

#[derive(Drop)]
pub struct TwoLists {
    next: Vec<usize>,
    prev: Vec<usize>,
    ghost same_length: { length next.items ≡ length prev.items },
}

impl TwoLists {
    /// Links of the keys below `count`, in no ring yet.
    pub fn new(alloc: Global, count: usize) -> Result<Self, AllocError>
        ensures { IfOk result (λ links. length links.next.items ≡ count) }
    {
        let next = vec![in alloc; 0; count]?;
        let prev = vec![in alloc; 0; count]?;
        Ok(TwoLists { next, prev })
    }
}

impl Links<usize> for TwoLists {
    ghost links = { λ s. links_of s.next.items s.prev.items };

    ghost Rest = { ℕ };

    ghost rest = { λ s. length s.next.items };

    ghost key_limit = { λ s. length s.next.items };

    fn next(&self, k: usize) -> usize {
        self.next[k]
    }

    fn prev(&self, k: usize) -> usize {
        self.prev[k]
    }

    fn set_next(&mut self, k: usize, to: usize) {
        self.next[k] = to;
    }

    fn set_prev(&mut self, k: usize, to: usize) {
        self.prev[k] = to;
    }

    ghost one_key = { one_number };

    ghost limited = { λ s. limited_by_length s.next.items s.prev.items };
}
