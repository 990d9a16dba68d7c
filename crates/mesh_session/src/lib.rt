//! Commands on a complex, with undo and redo.
#![tactic(auto)]

mod entry;
mod going;
mod history;
pub mod laws;
mod on_elements;
mod on_lists;
mod operating;
mod performing;
mod reply;
mod session;
mod session_shape;
mod stepping;

pub use reply::Reply;
pub use session::Session;
