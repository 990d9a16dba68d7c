//! Copies of a closed set, as one change.
#![tactic(auto)]

mod copying;
mod faces;
mod names;
mod slots;

pub use copying::copy_set;
