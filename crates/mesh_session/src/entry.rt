//! What undo and redo go to.

use mesh_model::Draft;
use op_slots::Binding;

/// A complex that undo or redo goes to, and the binding that goes or comes with it, if there is one.
#[derive(Drop)]
pub struct Entry {
    pub complex: Draft,
    pub binding: Option<Binding>,
}
