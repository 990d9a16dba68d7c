//! The store: its elements and their names, its links, its room, and its values.
mod elements;
mod links;
mod room;
mod values;

use mesh_store::{NoMemory, Store};
use std::alloc::Global;

/// A store with room for an element of each kind, and for names below 8.
fn roomy(alloc: Global) -> Result<Store, NoMemory> {
    let mut st = Store::new(alloc);
    st.reserve(1, 1, 1, 1, [8, 8, 8])?;
    Ok(st)
}
