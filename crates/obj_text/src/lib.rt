//! Texts in the Wavefront OBJ format, read and written, and laws of both.
#![tactic(auto)]

pub mod laws;

pub use byte_sink::{Sink, WriteFault, write_all};
pub use obj_format::{ObjFault, ObjRefusal, ObjWhy};
pub use obj_reader::Reader;
pub use obj_writer::{text_of, write};
