//! A complex written as a text in the Wavefront OBJ format.
#![tactic(auto)]

mod face_lines;
mod loose_lines;
mod names;
mod numbers;
mod places;
mod ranks;
mod vert_lines;
mod writer;

pub use writer::{text_of, write};
