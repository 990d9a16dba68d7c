//! What takes bytes, a piece after a piece.
#![tactic(auto)]

mod sink;
mod write_fault;

pub use sink::{Sink, write_all};
pub use write_fault::WriteFault;
