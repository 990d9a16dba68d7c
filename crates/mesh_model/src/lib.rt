//! Names, records, the incidence complex and a draft of one.
#![tactic(auto)]

mod copying;
mod draft;
mod draft_copies;
mod draft_names;
mod draft_polygons;
mod draft_room;
mod draft_rows;
mod draft_shape;
mod edge_columns;
mod edge_index;
mod face_columns;
pub mod laws;
mod layer_decl;
mod layer_rows;
pub mod limits;
mod name_set;
mod names;
mod records;
mod refusal;
mod shape;
mod vert_columns;

pub use copying::{edge_row, face_row, libraries_of, materials_of, read_corners, vert_row};
pub use cust_data::Rule;
pub use draft::{Draft, DraftCorner};
pub use draft_room::is_in_range;
pub use draft_rows::RowBuffer;
pub use layer_decl::LayerDecl;
pub use names::{EdgeName, Elem, FaceName, Kind, VertName};
pub use records::{CornerRec, Corners, Counters, EdgeRec, FaceRec, Point, Vals, VertRec};
pub use refusal::{Place, Refusal, Why};
pub use sequence::{NoMemory, Sequence, Text};
pub use shape::Shape;
