//! What operators are made of: many calls of the mesh in a row, each row as one change.
#![tactic(auto)]

mod bare;
mod closing;
mod giving;
mod kills;
mod limits;
mod moving;
mod names;
mod operator;
mod turning;

pub use bare::is_bare;
pub use closing::{closure, corners_of};
pub use giving::{no_slots, only, only_edges, only_faces, only_verts};
pub use kills::{kill_bare, kill_edges, kill_faces, kill_loose, kill_parts, kill_set, kill_verts};
pub use limits::unless_too_many;
pub use moving::{Motion, first_leaving, move_verts, unless_on_grid};
pub use names::{edges_named, numbers_of_verts, risen};
pub use operator::{Operator, run};
pub use turning::turn_faces;
