//! The format of Wavefront OBJ texts: lines, words, numbers, indices and names, and why a text is no model.
#![tactic(auto)]

mod indices;
mod lines;
mod names;
mod numbers;
mod obj_fault;
mod table;
mod texture;

pub use indices::{Corner, Counts, corner_of};
pub use lines::{
    Line, bare, begins_comment, ends_in_backslash, is_hash_first, is_open, onto, shut,
};
pub use names::name_in;
pub use numbers::{is_numeral, number};
pub use obj_fault::{ObjFault, ObjRefusal, ObjWhy};
pub use table::{Word, word_of};
pub use texture::Uv;
