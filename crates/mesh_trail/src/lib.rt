//! Pasts: what a mesh was before its changes, by which one leads back.
#![tactic(auto)]

mod between;
mod corners;
mod edges;
mod faces;
pub mod laws;
mod note_map;
mod past;
mod rows;
mod table;
mod verts;

pub use mesh_model::NoMemory;
pub use past::Past;
