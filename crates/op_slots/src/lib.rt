//! Commands with their arguments, the slots that they give back, and what an argument stands for.
#![tactic(auto)]

mod bindings;
mod buffer;
mod command;
mod fault;
pub mod laws;
mod mapping;
mod op;
mod resolving;
mod slots;
mod term;

pub use bindings::{Binding, Bindings};
pub use buffer::Buffer;
pub use command::{Command, What};
pub use fault::Fault;
pub use mapping::{Mapping, Pair};
pub use op::{Axis, Context, Method, Names, Op};
pub use resolving::{Want, list_refusal, resolve, resolve_map};
pub use slots::Slots;
pub use term::{Expr, MapArg, Term};
