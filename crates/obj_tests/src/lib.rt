//! Tests of models, read and written.
//!
//! They stand apart from the crate that reads and writes them, since a crate is proved a second time with its tests.
#![tactic(auto)]

#[cfg(test)]
mod confirm;
#[cfg(test)]
mod faults;
#[cfg(test)]
mod models;
#[cfg(test)]
mod names;
#[cfg(test)]
mod reading;
#[cfg(test)]
mod writing;
