//! Tests of `mesh_trail`, in a crate of their own, since a crate with code and tests is proved twice.
#![tactic(auto)]

#[cfg(test)]
mod between;
#[cfg(test)]
mod confirm;
#[cfg(test)]
mod large;
#[cfg(test)]
mod noting;
#[cfg(test)]
mod small;
#[cfg(test)]
mod told;
