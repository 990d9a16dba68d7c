//! Commands of a script.

use crate::op::Op;
use sequence::Text;

/// What a command does.
#[derive(Debug, Drop)]
pub enum What {
    /// Runs an operator.
    Run(Op),
    /// Takes the last command back.
    Undo,
    /// Does again what was taken back last.
    Redo,
}

/// A command: the number of its line in the script, counted from 1, the name that its slots are bound to,
/// if it has one, and what it does.
#[derive(Debug, Drop)]
pub struct Command {
    pub line: u32,
    pub bind: Option<Text>,
    pub what: What,
}
