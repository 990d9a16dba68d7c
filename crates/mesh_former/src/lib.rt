//! A complex as it was before the changes that a past notes, read without being made.
#![tactic(auto)]

mod former;
mod former_shape;

pub use former::Former;
