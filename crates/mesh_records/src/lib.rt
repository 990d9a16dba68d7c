//! A store read as the records of a complex, and the steps by which a mesh changes it.
//!
//! What is stored at a slot is read as a record of `mesh_model`, in which slots have become names. A store, with its
//! next names and its lists of names, is thus read as a complex (`read_off` of `specs/ReadOff.antt`), and `StandsFor` of
//! `specs/StandsFor.antt` says, part by part, what it means that it stands for it. `IsWhole` of `specs/Whole.antt` is
//! the rule of a mesh, slot by slot, from which that follows.
//!
//! Each step adds, changes or takes away one thing at slots and links, and its contract says what that does to what is
//! read at each slot and to each cycle. A mesh is made of these steps; nothing else should call them.
//!
//! Only `make_room` takes memory.
//!
//! | Call | Cost |
//! |---|---|
//! | `slot_of_vert` and its like, `put_vert`, `put_edge`, `take_edge`, `corner_at` | constant, and the row of values |
//! | `value_at` | the row of values |
//! | `loop_at` | the position |
//! | `set_end` | constant |
//! | `append_row` | the row of values |
//! | `insert_corner`, `reverse_face` | the corners |
//! | `put_face`, `put_corners`, `take_loops`, `corners_into`, `rows_into` | the corners |
//! | `make_room` | the room that is made |
#![tactic(auto)]

mod corners;
pub mod laws;
mod loading;
mod moving;
mod putting;
mod readers;
mod room;
mod slots;
mod taking;

pub use corners::{insert_corner, reverse_face};
pub use loading::append_row;
pub use moving::set_end;
pub use putting::{put_corners, put_edge, put_face, put_vert};
pub use readers::{
    coordinates, corner_at, corners_into, loop_at, part_of, point_of, rows_into, value_at,
};
pub use room::make_room;
pub use slots::{edge_like, face_like, slot_of_edge, slot_of_face, slot_of_vert, vert_like};
pub use taking::{take_edge, take_loop, take_loops};
