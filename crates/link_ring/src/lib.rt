//! Rings: circular doubly linked lists whose links another type keeps.
//!
//! A ring is a circle of keys, in which each key has a next and a previous one.
//! [`Links`] is what a ring stands on: a type that keeps these two links for each of its keys.
//! The calls edit rings over every such type, and are proved once for all of them.
//! None allocates, and none needs to know which key begins a ring.
//!
//! A contract names a ring by the list of its members, read from a key that the call is given.
//! That list is the only one from this key. `proofs/Rings.antt` has what reads a ring from
//! another member, and `proofs/Reading.antt` what a caller that keeps a first key needs.
//!
//! | Call | After it | Cost |
//! |---|---|---|
//! | [`start_ring`] | a key is a ring of one | constant |
//! | [`insert_after`] | a key stands right after another | constant |
//! | [`take_out`] | a key is out of its ring | constant |
//! | [`swap_member`] | a key stands in the place of another | constant |
//! | [`reverse`] | a ring goes the other way round | linear in the ring |
//! | [`walk`] | an iterator over the members, from one of them on | constant, and constant an item |
#![tactic(auto)]

mod iter;
mod ring;
mod traits;

pub use iter::{RingIter, walk};
pub use ring::{insert_after, reverse, start_ring, swap_member, take_out};
pub use traits::Links;
