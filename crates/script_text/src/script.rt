//! What a script is.

use mesh_model::LayerDecl;
use op_slots::Command;
use sequence::Sequence;

/// A script: the layers that it declares and its commands, each in the order written.
#[derive(Debug, Drop)]
pub struct Script {
    pub layers: Sequence<LayerDecl>,
    pub commands: Sequence<Command>,
}
