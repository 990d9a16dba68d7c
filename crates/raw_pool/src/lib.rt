//! A pool of values that never move, in chunks of raw memory.
//!
//! A [`Slot`] names a place. The pool grows by chunks of `CHUNK` places, and a chunk stays where it
//! is until the pool is dropped. A vacant place holds, in its own bytes, the number of the next
//! vacant one. So a pool takes the memory of its places, at most two bits for each of them, and at
//! most two pointers for each chunk.
#![tactic(auto)]

mod chunk;
mod chunks;
mod linked;
mod pool;
mod tags;

// A crate can name a pool in a contract only if the types of its fields are exported.
#[doc(hidden)]
pub use chunk::Chunk;
pub use pool::{NoMemory, Pool, Slot};
pub use tags::Tags;
