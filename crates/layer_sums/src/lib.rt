//! The numbers of layers, summed over all elements of a shape.
#![tactic(auto)]

mod adding;
pub mod laws;
mod named;
mod rows;
mod totals;

pub use named::numbers_named;
pub use totals::Totals;
