//! A walk once around a cycle, which may be empty.
ghost use Rattle.std.specs.Prelude.{◌≡◌, List};
ghost use Rattle.std.specs.Iterator.{YieldsFirst, item_count};
ghost use Rattle.link_ring.specs.Ring.{ReadsAs};
ghost use Rattle.mesh_cycles.specs.Left.{members_left, CanGoOn};

use link_ring::{Links, RingIter, walk};
use std::iter::FusedIterator;

/// An iterator over the members of a ring that is read from a first one, which may be `None`.
#[derive(Drop)]
#[must_use]
pub struct CycleIter<'a, K, L> {
    walk: Option<RingIter<'a, K, L>>,
}

impl<'a, K: Copy + Eq, L: Links<K>> Iterator for CycleIter<'a, K, L> {
    type Item = K;

    ghost can_next = { CanGoOn K.eq L.links L.key_limit };

    ghost next_gives = { YieldsFirst (members_left K.eq L.links L.key_limit) };

    ghost remaining = { item_count (members_left K.eq L.links L.key_limit) };

    fn next(&mut self) -> Option<K> {
        match &mut self.walk {
            None => None,
            Some(walk) => walk.next(),
        }
    }
}

impl<'a, K: Copy + Eq, L: Links<K>> FusedIterator for CycleIter<'a, K, L> {}

/// Walks once around the ring that reads from `first`. Constant time, and constant time an item.
pub(crate) fn members_of<K: Copy + Eq, L: Links<K>>(
    links: &L,
    first: Option<K>,
) -> CycleIter<'_, K, L>
    requires { (xs : List K) × ReadsAs (L.links links.now) first xs }
    ensures items { (xs : List K) → ReadsAs (L.links links.now) first xs
        → members_left K.eq L.links L.key_limit result ≡ xs }
    ensures ready { CanGoOn K.eq L.links L.key_limit result }
{
    match first {
        None => CycleIter { walk: None },
        Some(head) => CycleIter {
            walk: Some(walk(links, head)),
        },
    }
}
