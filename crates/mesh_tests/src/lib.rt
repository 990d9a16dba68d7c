//! Tests of `mesh_core`: tables of steps, and a few meshes at size.
//!
//! They stand in a crate of their own, since a crate with code and tests is proved twice. A test is a table of what is
//! done to a mesh and of what is then read of it, by numbers worked out by hand, and one walk takes the steps of every
//! table: it is proved once.
#![tactic(auto)]

#[cfg(test)]
mod changing;
#[cfg(test)]
mod grids;
#[cfg(test)]
mod kept;
#[cfg(test)]
mod large;
#[cfg(test)]
mod leading;
#[cfg(test)]
mod loading;
#[cfg(test)]
mod making;
#[cfg(test)]
mod names;
#[cfg(test)]
mod steps;
#[cfg(test)]
mod tables;
#[cfg(test)]
mod telling;
#[cfg(test)]
mod walking;
