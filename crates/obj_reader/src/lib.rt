//! Texts in the Wavefront OBJ format, read.
#![tactic(auto)]

mod edges;
mod faces;
mod items;
mod marks;
mod named_draft;
mod parts;
mod physical;
mod reader;
mod settings;
mod statements;
mod values;

pub use reader::Reader;
