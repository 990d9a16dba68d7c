//! Lines, words and numbers of a text, as bytes.
#![tactic(auto)]

pub mod laws;
mod numbers;
mod outcome;
mod pieces;
mod trims;

pub use numbers::{capped, integer, natural, up_to};
pub use outcome::{Stop, or_fault, or_stop};
pub use pieces::{cut, is_text, lines, parts, words};
pub use trims::{ByteClass, trim_end, trim_start};
