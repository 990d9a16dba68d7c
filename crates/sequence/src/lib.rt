//! Lists of values, and texts as lists of bytes.
#![tactic(auto)]

mod list;

pub use list::{Sequence, Text};
pub use std::alloc::AllocError as NoMemory;
