//! Layers of whole numbers: each place of a mesh's element gets a row of them, which is copied and mixed exactly.
//!
//! A [`LayerSet`] has layers, each with a name, a width of 1 to 4 numbers and a [`Rule`], and for each place one flat
//! row, layer after layer. A layer's numbers lie in a [`Column`], one place after the other, with nothing beside them.
//! [`mix`] and [`mean`] round towards minus infinity, below 0 too.
//!
//! | Call | Memory | Time |
//! |---|---|---|
//! | `LayerSet::add`, `LayerSet::reserve` | yes | what is added |
//! | rows: `row`, `set_row`, `clear_row`, `copy_row`, `mix_row` | none | the row's width |
//! | `value`, `set_value` and all else | none | the number of layers |
#![tactic(auto)]

mod cell_rows;
mod cells;
mod column;
mod fault;
pub mod laws;
mod layer_column;
mod layer_set;
mod mixing;
mod rule;

// A crate can name a layer set in a contract only if the types of its fields are exported.
#[doc(hidden)]
pub use cells::Cells;
pub use column::Column;
pub use fault::LayerFault;
#[doc(hidden)]
pub use layer_column::LayerColumn;
pub use layer_set::LayerSet;
pub use mixing::{mean, mix};
pub use rule::Rule;
pub use std::alloc::AllocError as NoMemory;
