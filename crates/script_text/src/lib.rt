//! Scripts: texts whose lines declare layers and give commands.
//!
//! A byte other than a tab, a line feed, a carriage return and 32 to 126 is no text. `#` begins a comment. Lines
//! without words are skipped. The other lines are `layer KIND NAME width=W rule=R`, `undo`, `redo`, and
//! `OP KEY=VALUE ..` with or without `NAME =` before it, keys in any order.
#![tactic(auto)]

mod arguments;
mod commands;
mod fault;
pub mod laws;
mod layers;
mod lines;
mod maps;
mod parsing;
mod rowed;
mod script;
mod table;
mod terms;
mod values;

pub use fault::{ScriptFault, ScriptRefusal, ScriptWhy};
pub use parsing::{LONGEST_SCRIPT, parse};
pub use script::Script;
pub use terms::MOST_TERMS;
