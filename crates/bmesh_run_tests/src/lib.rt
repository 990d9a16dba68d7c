//! Tests of the whole run.
#![tactic(auto)]

#[cfg(test)]
mod commands;
#[cfg(test)]
mod copies;
#[cfg(test)]
mod layers;
#[cfg(test)]
mod runs;
#[cfg(test)]
mod values;
