//! Tests of the crates under the mesh: pools, rings, the store and its cycles.
//!
//! They stand apart from those crates, since a crate is proved a second time with its tests.
#![tactic(auto)]

#[cfg(test)]
mod confirm;
#[cfg(test)]
mod cycles;
#[cfg(test)]
mod named;
#[cfg(test)]
mod pools;
#[cfg(test)]
mod rings;
#[cfg(test)]
mod stores;
