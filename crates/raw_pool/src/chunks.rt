//! All the chunks of a pool.
ghost use Rattle.std.specs.Prelude.{◌≡◌, ℕ, ◌<◌, ◌≤◌, ◌*◌, ◌-◌, Option, Some, None, length, get_or, slice_set, IfOk};
ghost use Rattle.raw_pool.specs.Inside.{rows, all_places, slots_of, Even, Tagged, PoolHolds};

use crate::chunk::Chunk;
use crate::tags::Tags;
use std::alloc::{AllocError, Global};

/// Puts a value into the first vacant place, and gives the slot of the next one. A chunk has `len` places, the first
/// vacant one is at the slot `head`, and `spare` are vacant.
pub(crate) fn fill_first<T>(
    chunks: &mut Vec<Chunk<T>>,
    tags: &mut Tags,
    len: usize,
    head: u32,
    spare: usize,
    value: T,
) -> u32
    requires holds { PoolHolds len chunks.old.items tags.old.words.items head spare }
    requires room { 1 ≤ spare }
    ensures holds { PoolHolds len chunks.new.items tags.new.words.items result (spare - 1) }
    ensures vacant { (head < length (slots_of chunks.old.items))
        × (get_or (slots_of chunks.old.items) head None ≡ None) }
    ensures gains { slots_of chunks.new.items ≡ slice_set (slots_of chunks.old.items) head (Some value) }
{
    let chunk = &mut chunks[head as usize / len];
    let next = chunk.fill(head as usize % len, value);
    tags.set(head as usize);
    next
}

/// Drops every value, and gives each block back.
pub(crate) fn free_all<T: Drop>(chunks: Vec<Chunk<T>>, tags: &Tags, alloc: &Global, len: usize)
    requires even { Even len (rows chunks.items) }
    requires tagged { Tagged (all_places chunks.items) tags.now.words.items }
    requires room { length (all_places chunks.items) ≤ length tags.now.words.items * 64 }
{
    let mut chunks = chunks;
    while let Some(chunk) = chunks.pop() {
        let start = chunks.len() * len;
        chunk.free(alloc, tags, start, len);
    }
    chunks.destroy_empty();
}

/// The same places in chunks of their own.
pub(crate) fn copy_all<T: Copy>(
    chunks: &Vec<Chunk<T>>,
    tags: &Tags,
    alloc: Global,
    len: usize,
) -> Result<Vec<Chunk<T>>, AllocError>
    requires even { Even len (rows chunks.now.items) }
    requires tagged { Tagged (all_places chunks.now.items) tags.now.words.items }
    requires room { length (all_places chunks.now.items) ≤ length tags.now.words.items * 64 }
    ensures { IfOk result (λ v. rows v.items ≡ rows chunks.now.items) }
{
    let mut twins = Vec::with_capacity(alloc, chunks.len())?;
    for index in 0..chunks.len() {
        let chunk = &chunks[index];
        match chunk.copy(&alloc, tags, index * len, len) {
            Ok(twin) => twins.push_reserved(twin),
            Err(error) => {
                free_all(twins, tags, &alloc, len);
                return Err(error);
            }
        }
    }
    Ok(twins)
}
