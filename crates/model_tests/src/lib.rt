//! Tests of drafts, of what reads a shape, and of the laws of complexes.
//!
//! They stand apart from `mesh_model`, since a crate is proved a second time with its tests.
#![tactic(auto)]

#[cfg(test)]
mod building;
#[cfg(test)]
mod confirm;
#[cfg(test)]
mod copies;
#[cfg(test)]
mod drafts;
#[cfg(test)]
mod laws;
#[cfg(test)]
mod many;
#[cfg(test)]
mod reading;
#[cfg(test)]
mod sums;
#[cfg(test)]
mod texts;
