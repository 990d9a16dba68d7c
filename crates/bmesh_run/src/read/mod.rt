//! Files that are read to their end and judged.

pub mod inputs;
pub mod whole_file;
