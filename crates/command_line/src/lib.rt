//! The words of the command line, as the crate `clap` reads them.
#![tactic(auto)]

mod job;
pub mod laws;

pub use job::{Job, JobFault, job_of};
