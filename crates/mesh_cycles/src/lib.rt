//! The cycles of a mesh: the edges around a vertex, the loops around an edge, and the loops of a face.
//!
//! An edge is in the disk cycles of its two ends, and heads a radial cycle whose loops are in the loop cycles of their
//! faces. Each call that edits changes one cycle of a [`Store`], and its contract gives the list of that cycle's
//! members afterwards, and says that every other cycle of all three kinds keeps its members, and that all else the
//! store holds stays. So nothing above has to think of links. The iterators and `find_edge` read cycles, and their
//! contracts give the list of their items.
//!
//! `AreCycles` of `specs/Cycles.antt` is what every call on cycles asks of the store and leaves it in: every cycle
//! reads as the list of its members, they name their owner, and the two ends of an edge differ. `disk_of`, `radial_of`
//! and `round_of` are those lists, from the first member on.
//!
//! No call takes memory.
//!
//! | Call | Cost |
//! |---|---|
//! | `disk_add`, `disk_remove`, `radial_add`, `radial_remove`, `loop_make` | constant |
//! | `loop_insert`, `loop_remove` | the loops of the face |
//! | `loop_insert_counted`, `loop_remove_counted`, `loop_append`, `loop_turn` | constant |
//! | `loop_reverse` | the loops of the face |
//! | iterators | constant to make; what an item costs is said at each |
//! | `find_edge` | the edges of the first vertex |
//! | `edge_between` | the edges of the vertex that has fewer |
#![tactic(auto)]

mod along_edge;
mod around_vert;
mod cycle_iter;
mod disk;
mod face_loops;
mod find;
mod in_face;
pub mod laws;
mod leader;
mod members;
mod radial;
mod rising;

pub use along_edge::{FacesOfEdge, LoopsOfEdge, faces_of_edge, loops_of_edge};
pub use around_vert::{
    EdgesOfVert, FacesOfVert, LoopsOfVert, edges_of_vert, faces_of_vert, loops_of_vert,
};
// A crate can name an iterator in a contract only if the types of its fields are exported.
#[doc(hidden)]
pub use cycle_iter::CycleIter;
pub use disk::{disk_add, disk_remove, first_dart};
pub use face_loops::{
    first_round, loop_append, loop_insert, loop_insert_counted, loop_make, loop_remove,
    loop_remove_counted, loop_reverse, loop_turn,
};
pub use find::{edge_between, find_edge};
pub use in_face::{CornersOfFace, corners_of_face};
pub use radial::{first_radial, radial_add, radial_remove};
pub use rising::{EdgesRising, FacesRising, VertsRising, edges_rising, faces_rising, verts_rising};
