//! The mesh: a store and what it stands for.
//!
//! A [`Mesh`] keeps vertices, edges and faces with their names, points, corners and values, and the cycles by which one
//! is found from another. It stands for a complex, and each call changes that complex as its contract says, or answers
//! `NoMemory` and leaves it as it was. Contracts see of a mesh `now`, the complex; `base`, the complex to which there
//! is a way back; `disks`, which gives for each vertex its edges in the order in which `edges_of_vert` gives them;
//! `room`, how many elements can be added without memory; and `notes`, how many records can be noted for the way back
//! without memory.
//!
//! `StandsFor` of `mesh_records` says, part by part, when a store, with its next names and the names of materials and
//! libraries, stands for a complex.
//!
//! | Call | Cost |
//! |---|---|
//! | `new`, `cycles_hold`, `reserve_notes` | constant |
//! | iterators | constant to make; what an item costs is said at each |
//! | reading a mesh as a shape | said there |
//! | `snapshot`, `load`, `mark` | the names and the corners |
//! | `keep` | the names of the mesh and of its base, and the corners of the base |
//! | `back` | the elements that are there, and the names and corners of the base |
//! | `find_edge` | the edges around the vertex that has fewer |
//! | `can_lose_vert` | the names of faces and the corners |
//! | `make_vert`, `make_edge` | constant, but for the room that is made |
//! | `make_face` | its corners, and the room that is made |
//! | `kill_face`, `kill_edge`, `kill_vert` | the edges and corners that go |
//! | `set_point`, `set_end` | constant |
//! | `set_vert_vals`, `set_edge_vals`, `set_face_vals` | the row of values |
//! | `set_corner_vals`, `remove_corner` | the position, and the row of values |
//! | `insert_corner`, `reface`, `reverse_face` | the corners, and the room that is made |
//! | `reserve` | the room that is made |
#![tactic(auto)]

mod around;
mod changing;
mod conditions;
mod corners;
mod filling;
mod loading;
mod mesh;
mod mesh_shape;
mod returning;
mod rising;

pub use around::{EdgesAt, FacesAtEdge, FacesAtVert};
pub use corners::{CornersAtEdge, CornersAtVert, CornersIn};
pub use mesh::Mesh;
pub use mesh_model::{
    Draft, EdgeName, Elem, FaceName, Kind, LayerDecl, NoMemory, Point, Rule, Shape, VertName,
};
pub use mesh_trail::Past;
pub use rising::{EdgesByName, FacesByName, VertsByName};
