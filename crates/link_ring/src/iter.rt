//! A walk around a ring.
ghost use Rattle.std.specs.Prelude.{◌≡◌, List, ◌∷◌};
ghost use Rattle.std.specs.Iterator.{YieldsFirst, item_count};
ghost use Rattle.link_ring.specs.Ring.{IsRing, IsInRing};
ghost use Rattle.link_ring.specs.Walk.{items_left, CanWalk};

use crate::traits::Links;
use std::iter::FusedIterator;

/// An iterator over the members of a ring, which [`walk`] makes.
///
/// After the last member it answers `None` for ever. An item takes constant time.
#[derive(Drop)]
#[must_use]
pub struct RingIter<'a, K, L> {
    links: &'a L,
    first: K,
    // The next item.
    at: Option<K>,
}

impl<'a, K: Copy + Eq, L: Links<K>> Iterator for RingIter<'a, K, L> {
    type Item = K;

    ghost can_next = { CanWalk K.eq L.links L.key_limit };

    ghost next_gives = { YieldsFirst (items_left K.eq L.links L.key_limit) };

    ghost remaining = { item_count (items_left K.eq L.links L.key_limit) };

    fn next(&mut self) -> Option<K> {
        let member = self.at?;
        let after = self.links.next(member);
        self.at = if after == self.first {
            None
        } else {
            Some(after)
        };
        Some(member)
    }
}

impl<'a, K: Copy + Eq, L: Links<K>> FusedIterator for RingIter<'a, K, L> {}

/// Walks once around the ring of `first`: its items are the members in order, from `first` on.
///
/// `first` has to be in a ring. Constant time, and constant time an item.
pub fn walk<K: Copy + Eq, L: Links<K>>(links: &L, first: K) -> RingIter<'_, K, L>
    requires { IsInRing (L.links links.now) first }
    ensures items { (xs : List K) → IsRing (L.links links.now) (first ∷ xs) →
        items_left K.eq L.links L.key_limit result ≡ first ∷ xs }
    ensures ready { CanWalk K.eq L.links L.key_limit result }
{
    RingIter {
        links,
        first,
        at: Some(first),
    }
}
