//! The whole run: a script of commands over a Wavefront OBJ model, by the words of a command line.
#![tactic(auto)]

mod commands;
pub mod laws;
mod read;
mod status;
mod stop;
mod whole_run;
mod write;

pub use status::Status;
pub use whole_run::run;
