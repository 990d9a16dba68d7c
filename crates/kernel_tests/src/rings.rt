//! Rings over links that are kept in two lists.
ghost use Rattle.std.specs.Prelude.{◌≡◌, ℕ, ◌<◌, ◌≤◌, List, [], ◌∷◌, IsTrue, IfOk};
ghost use Rattle.link_ring.specs.Ring.{AllKeys, IsRing, IsInRing};

mod two_lists;

use crate::confirm::confirm;
use link_ring::{Links, insert_after, reverse, start_ring, swap_member, take_out, walk};
use std::alloc::{AllocError, Global};
use std::process::Abort;
use std::test::Fail;
use two_lists::TwoLists;

/// The members of a ring, in order.
fn members<K: Copy + Eq, L: Links<K>>(
    alloc: Global,
    links: &L,
    first: K,
) -> Result<Vec<K>, AllocError>
    requires { IsInRing (L.links links.now) first }
    ensures { IfOk result (λ all. (xs : List K) → IsRing (L.links links.now) (first ∷ xs) →
        all.items ≡ first ∷ xs) }
{
    let mut all = Vec::new(alloc);
    for k in walk(links, first) {
        all.push(k)?;
    }
    Ok(all)
}

/// Makes a ring of 0, 3, 1 and 2.
fn insert_three<L: Links<usize>>(links: &mut L)
    requires keys { AllKeys (L.links links.old) (0 ∷ 1 ∷ 2 ∷ 3 ∷ 4 ∷ []) }
    ensures ring { IsRing (L.links links.new) (0 ∷ 3 ∷ 1 ∷ 2 ∷ []) }
    ensures keys { AllKeys (L.links links.new) (0 ∷ 1 ∷ 2 ∷ 3 ∷ 4 ∷ []) }
{
    start_ring(links, 0);
    insert_after(links, 0, 1);
    insert_after(links, 1, 2);
    insert_after(links, 0, 3);
}

/// Walks a ring of one, and on past its end.
fn walk_alone<L: Links<usize>>(rt: &impl Abort, links: &L)
    requires { IsRing (L.links links.now) (0 ∷ []) }
{
    let mut items = walk(links, 0);
    confirm(rt, "its member", items.next() == Some(0));
    confirm(rt, "no more", items.next().is_none());
    confirm(rt, "still no more", items.next().is_none());
}

/// Takes the ring of 0, 2, 1 and 3 apart.
fn take_apart<L: Links<usize>>(rt: &impl Abort, alloc: Global, links: &mut L) -> Result<(), Fail>
    requires ring { IsRing (L.links links.old) (0 ∷ 2 ∷ 1 ∷ 3 ∷ []) }
    requires keys { AllKeys (L.links links.old) (0 ∷ 1 ∷ 2 ∷ 3 ∷ 4 ∷ []) }
{
    let follower = take_out(links, 2);
    confirm(rt, "the follower of 2", follower == Some(1));
    swap_member(links, 1, 4);
    let ring = members(alloc, links, 0)?;
    confirm(rt, "0, 4 and 3", ring.as_slice() == [0, 4, 3].as_slice());
    let follower = take_out(links, 4);
    confirm(rt, "the follower of 4", follower == Some(3));
    let follower = take_out(links, 3);
    confirm(rt, "the follower of 3", follower == Some(0));
    walk_alone(rt, links);
    let follower = take_out(links, 0);
    confirm(rt, "no follower", follower.is_none());
    Ok(())
}

/// Edits a ring over any links of the keys 0 to 4.
fn edit<L: Links<usize>>(rt: &impl Abort, alloc: Global, links: &mut L) -> Result<(), Fail>
    requires { AllKeys (L.links links.old) (0 ∷ 1 ∷ 2 ∷ 3 ∷ 4 ∷ []) }
{
    insert_three(links);
    let ring = members(alloc, links, 0)?;
    confirm(rt, "in order", ring.as_slice() == [0, 3, 1, 2].as_slice());
    reverse(links, 0);
    let ring = members(alloc, links, 0)?;
    confirm(
        rt,
        "the other way round",
        ring.as_slice() == [0, 2, 1, 3].as_slice(),
    );
    take_apart(rt, alloc, links)
}

#[test]
fn edits_a_ring(rt: HostRuntime) -> Result<(), Fail> {
    let mut links = TwoLists::new(rt.alloc(), 5)?;
    edit(&rt, rt.alloc(), &mut links)
}

/// Makes a ring of 0 and then the other keys below `count`, the greatest first.
fn descending_ring<L: Links<usize>>(links: &mut L, count: usize)
    requires some { 1 ≤ count }
    requires keys { (k : ℕ) → k < count → IsTrue ((L.links links.old).has k) }
    ensures { IsInRing (L.links links.new) 0 }
{
    start_ring(links, 0);
    for k in 1..count {
        insert_after(links, 0, k);
    }
}

// From 0 on, the keys come with the greatest first.
fn descends(ring: &[usize]) -> bool {
    for k in 1..ring.len() {
        if ring[k] != ring.len() - k {
            return false;
        }
    }
    ring.first() == Some(&0)
}

// The keys come with the least first.
fn ascends(ring: &[usize]) -> bool {
    for k in 0..ring.len() {
        if ring[k] != k {
            return false;
        }
    }
    true
}

#[test]
fn walks_a_large_ring(rt: HostRuntime) -> Result<(), Fail> {
    let count = 1_000_000;
    let mut links = TwoLists::new(rt.alloc(), count)?;
    descending_ring(&mut links, count);
    let ring = members(rt.alloc(), &links, 0)?;
    confirm(&rt, "all", ring.len() == count);
    confirm(&rt, "the greatest first", descends(ring.as_slice()));
    reverse(&mut links, 0);
    let ring = members(rt.alloc(), &links, 0)?;
    confirm(&rt, "all", ring.len() == count);
    confirm(&rt, "the least first", ascends(ring.as_slice()));
    Ok(())
}
