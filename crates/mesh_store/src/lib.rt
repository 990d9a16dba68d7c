//! The stored structure of a mesh: four pools of elements, the directories of their names, and the links of three kinds
//! of cycles.
//!
//! A [`Store`] keeps vertices, edges, loops (the corners of faces) and faces, each at a [`Slot`] that stays its own
//! until it is dropped. Vertices, edges and faces have names, which are numbers, and a directory leads from each name
//! to its slot. A store knows fields and links and nothing of what they are to mean: which vertices an edge joins is
//! what was written there. The cycles stand in the crate above.
//!
//! Contracts see a store as [`Store`] says: for each pool the list of its slots, and for each directory the table of
//! its names. Each writer changes the one field that it names.
//!
//! | Call | Cost |
//! |---|---|
//! | readers, writers, adds and drops, `vert_slot` and its like, links | constant |
//! | `vert_from` and its like | the names passed over, 64 at a step |
//! | `Store::reserve` | what is added, and a chunk of [`CHUNK`] places a pool |
//! | `Store::clear` | the places and the names |
#![tactic(auto)]

mod cells;
mod fields;
pub mod laws;
mod layers;
mod links;
mod named_pool;
mod store;
mod values;

pub use cells::{Dart, DiskLink, EdgeCell, FaceCell, LoopCell, Radial, Round, VertCell};
// A crate can name a store in a contract only if the types of its fields are exported.
#[doc(hidden)]
pub use cells::Numbered;
pub use cust_data::{LayerFault, Rule};
#[doc(hidden)]
pub use layers::Layers;
pub use layers::Part;
#[doc(hidden)]
pub use named_pool::NamedPool;
pub use raw_pool::{NoMemory, Slot};
pub use store::{CHUNK, Store};
