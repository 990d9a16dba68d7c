//! The calls that edit rings.
ghost use Rattle.std.specs.Prelude.{◌≡◌, List, [], ◌∷◌, IsTrue, reverse as backwards};
ghost use Rattle.link_ring.specs.Ring.{IsRing, IsInRing, IsInRingWithout, first_of};
ghost use Rattle.link_ring.specs.Changes.{SameKeys, SameOutside};

use crate::traits::Links;

/// Makes `k` a ring of one: its own next and previous key.
///
/// `k` has to be one of the keys. Links of other keys stay, so a ring of several keys that `k` was in
/// is a ring no more. Constant time.
pub fn start_ring<K: Copy + Eq, L: Links<K>>(links: &mut L, k: K)
    requires { IsTrue ((L.links links.old).has k) }
    ensures ring { IsRing (L.links links.new) (k ∷ []) }
    ensures others { SameOutside (L.links links.old) (L.links links.new) (k ∷ []) }
    ensures keys { SameKeys (L.links links.old) (L.links links.new) }
    ensures rest { L.rest links.new ≡ L.rest links.old }
{
    links.set_next(k, k);
    links.set_prev(k, k);
}

/// Puts `k` into the ring of `place`, right after it.
///
/// `place` has to be in a ring, and `k` has to be one of the keys and not in that ring. Links of
/// keys outside the ring stay, but for those of `k`. Constant time.
pub fn insert_after<K: Copy + Eq, L: Links<K>>(links: &mut L, place: K, k: K)
    requires apart { IsInRingWithout (L.links links.old) place k }
    requires key { IsTrue ((L.links links.old).has k) }
    ensures ring { (xs : List K) → IsRing (L.links links.old) (place ∷ xs) →
        IsRing (L.links links.new) (place ∷ k ∷ xs) }
    ensures others { (xs : List K) → IsRing (L.links links.old) (place ∷ xs) →
        SameOutside (L.links links.old) (L.links links.new) (k ∷ place ∷ xs) }
    ensures keys { SameKeys (L.links links.old) (L.links links.new) }
    ensures rest { L.rest links.new ≡ L.rest links.old }
{
    let after = links.next(place);
    links.set_next(place, k);
    links.set_prev(k, place);
    links.set_next(k, after);
    links.set_prev(after, k);
}

/// Takes `k` out of its ring, and answers the member that followed it: `None` exactly where `k` was
/// alone.
///
/// `k` has to be in a ring. Afterwards nothing is promised of its own two links. Links of keys
/// outside the ring stay. Constant time.
pub fn take_out<K: Copy + Eq, L: Links<K>>(links: &mut L, k: K) -> Option<K>
    requires { IsInRing (L.links links.old) k }
    ensures follower { (xs : List K) → IsRing (L.links links.old) (k ∷ xs) → result ≡ first_of xs }
    ensures ring { (xs : List K) → IsRing (L.links links.old) (k ∷ xs) → IsRing (L.links links.new) xs }
    ensures others { (xs : List K) → IsRing (L.links links.old) (k ∷ xs) →
        SameOutside (L.links links.old) (L.links links.new) (k ∷ xs) }
    ensures keys { SameKeys (L.links links.old) (L.links links.new) }
    ensures rest { L.rest links.new ≡ L.rest links.old }
{
    let before = links.prev(k);
    let after = links.next(k);
    links.set_next(before, after);
    links.set_prev(after, before);
    if after == k { None } else { Some(after) }
}

/// Puts `new` in the place of `old`, which leaves its ring.
///
/// `old` has to be in a ring, and `new` has to be one of the keys and not in that ring. Afterwards
/// nothing is promised of the two links of `old`. Links of keys outside the ring stay, but for
/// those of `new`. Constant time.
pub fn swap_member<K: Copy + Eq, L: Links<K>>(links: &mut L, old: K, new: K)
    requires apart { IsInRingWithout (L.links links.old) old new }
    requires key { IsTrue ((L.links links.old).has new) }
    ensures ring { (xs : List K) → IsRing (L.links links.old) (old ∷ xs) →
        IsRing (L.links links.new) (new ∷ xs) }
    ensures others { (xs : List K) → IsRing (L.links links.old) (old ∷ xs) →
        SameOutside (L.links links.old) (L.links links.new) (new ∷ old ∷ xs) }
    ensures keys { SameKeys (L.links links.old) (L.links links.new) }
    ensures rest { L.rest links.new ≡ L.rest links.old }
{
    insert_after(links, old, new);
    let _ = take_out(links, old);
}

/// Turns the ring of `first` the other way round: read from `first`, the other members come in
/// opposite order.
///
/// `first` has to be in a ring. Links of keys outside the ring stay. Linear in the ring.
pub fn reverse<K: Copy + Eq, L: Links<K>>(links: &mut L, first: K)
    requires { IsInRing (L.links links.old) first }
    ensures ring { (xs : List K) → IsRing (L.links links.old) (first ∷ xs) →
        IsRing (L.links links.new) (first ∷ backwards xs) }
    ensures others { (xs : List K) → IsRing (L.links links.old) (first ∷ xs) →
        SameOutside (L.links links.old) (L.links links.new) (first ∷ xs) }
    ensures keys { SameKeys (L.links links.old) (L.links links.new) }
    ensures rest { L.rest links.new ≡ L.rest links.old }
{
    let mut at = first;
    loop {
        let after = links.next(at);
        let before = links.prev(at);
        links.set_next(at, before);
        links.set_prev(at, after);
        if after == first {
            return;
        }
        at = after;
    }
}
