//! Rings that are read from a first member, which may be `None`.
ghost use Rattle.std.specs.Prelude.{◌≡◌, IsTrue, List, [], ◌∷◌, ◌++◌};
ghost use Rattle.link_ring.specs.Members.{HasMember};
ghost use Rattle.link_ring.specs.Ring.{ReadsAs};
ghost use Rattle.link_ring.specs.Changes.{SameKeys, SameOutside};

use link_ring::{Links, insert_after, start_ring, take_out};

/// Puts `k` last in the ring that reads from `first`, and answers the ring's first member.
pub(crate) fn push_last<K: Copy + Eq, L: Links<K>>(
    links: &mut L,
    first: Option<K>,
    k: K,
) -> Option<K>
    requires key { IsTrue ((L.links links.old).has k) }
    requires apart { (xs : List K) × ReadsAs (L.links links.old) first xs × (HasMember xs k → ⊥) }
    ensures reads { (xs : List K) → ReadsAs (L.links links.old) first xs
        → ReadsAs (L.links links.new) result (xs ++ k ∷ []) }
    ensures others { (xs : List K) → ReadsAs (L.links links.old) first xs
        → SameOutside (L.links links.old) (L.links links.new) (k ∷ xs) }
    ensures keys { SameKeys (L.links links.old) (L.links links.new) }
    ensures rest { L.rest links.new ≡ L.rest links.old }
{
    let Some(head) = first else {
        start_ring(links, k);
        return Some(k);
    };
    let last = links.prev(head);
    insert_after(links, last, k);
    Some(head)
}

/// Takes `k` out of the ring that reads from `first`, and answers the ring's first member.
pub(crate) fn take_member<K: Copy + Eq, L: Links<K>>(
    links: &mut L,
    first: Option<K>,
    k: K,
) -> Option<K>
    requires { (xs : List K) × ReadsAs (L.links links.old) first xs × HasMember xs k }
    ensures reads { (xs ys : List K) → ReadsAs (L.links links.old) first (xs ++ k ∷ ys)
        → ReadsAs (L.links links.new) result (xs ++ ys) }
    ensures others { (xs : List K) → ReadsAs (L.links links.old) first xs
        → SameOutside (L.links links.old) (L.links links.new) xs }
    ensures keys { SameKeys (L.links links.old) (L.links links.new) }
    ensures rest { L.rest links.new ≡ L.rest links.old }
{
    let follower = take_out(links, k);
    if first == Some(k) { follower } else { first }
}
