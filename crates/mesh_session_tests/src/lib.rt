//! Tests of the session.
//!
//! They stand apart from it, since a crate is proved a second time with its tests.
#![tactic(auto)]

#[cfg(test)]
mod commands;
#[cfg(test)]
mod confirm;
#[cfg(test)]
mod layers;
#[cfg(test)]
mod many;
#[cfg(test)]
mod told;
