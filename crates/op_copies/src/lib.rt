//! Operators that copy.
#![tactic(auto)]

mod counting;
mod duplicating;
pub mod laws;
mod splitting;

pub use duplicating::{DuplicateArgs, duplicate};
pub use splitting::{SplitArgs, split};
