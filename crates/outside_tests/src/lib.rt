//! Tests of the crates at the outside of the program: lists, sinks, words and worlds.
#![tactic(auto)]

#[cfg(test)]
mod confirm;
#[cfg(test)]
mod lists;
#[cfg(test)]
mod words;
#[cfg(test)]
mod worlds_in_memory;
#[cfg(test)]
mod worlds_on_the_host;
