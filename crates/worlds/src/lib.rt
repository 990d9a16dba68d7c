//! Files and a place to print on: the trait `World`, a world in memory whose calls can be made to
//! fail, one that never fails, and the real one.
#![tactic(auto)]

mod entry;
mod folder;
mod host_world;
mod memory_world;
mod start;
mod store;
mod sure_world;
mod unread;
mod world;
mod world_fault;

pub use entry::Entry;
pub use host_world::HostWorld;
pub use memory_world::MemoryWorld;
pub use start::{Purpose, Start};
pub use sure_world::SureWorld;
pub use world::World;
pub use world_fault::WorldFault;
