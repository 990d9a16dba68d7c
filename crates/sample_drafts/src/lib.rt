//! Drafts that tests are made with. Each element is added where what its call asks holds, and not added where it
//! doesn't.
#![tactic(auto)]

mod elements;
mod faces;
mod shapes;

pub use elements::{corner, edge, face, is_there, material, vert};
pub use faces::{are_corners, are_values, has_room};
pub use shapes::{grown_square, row_of_verts, square};
