//! Files that are written, and what is printed.

pub mod layers;
pub mod report;
pub mod whole_file;
