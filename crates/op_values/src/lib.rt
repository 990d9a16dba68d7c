//! An operator that sets the numbers of a layer.
#![tactic(auto)]

pub mod laws;
mod putting;
mod setting;

pub use setting::{SetArgs, set};
