//! Marks on vertices, which show whether one stands twice in a list.
ghost use Rattle.std.specs.Prelude.{◌≡◌, ◌+◌, ◌<◌, ◌≤◌, ℕ, map, length, IfOk, OnOk};
ghost use Rattle.std.specs.List.{All};
ghost use Rattle.mesh_model.specs.Valid.{are_distinct};
ghost use Rattle.obj_format.specs.Indices.{IsRead};
ghost use Rattle.obj_reader.specs.Values.{vert_of};

use mesh_model::NoMemory;
use obj_format::{Corner, Counts};
use std::alloc::Global;
use std::marker::Model;

/// For each vertex the number of the list in which it was last seen. Lists are numbered from 1, and anew once the
/// numbers are used up.
#[derive(Drop)]
pub struct Marks {
    seen: Vec<u32>,
    last: u32,
}

impl Model for Marks {
    ghost use Rattle.std.specs.Prelude.{ℕ, ◌≤◌, length};
    ghost use Rattle.std.specs.List.{All};

    ghost Value = { ℕ };

    ghost view = { λ m. length m.seen.items };

    ghost invariant = { λ m. All (λ k. k ≤ m.last) m.seen.items };
}

impl Marks {
    /// No vertex has a mark. Takes no memory.
    pub fn new(alloc: Global) -> Marks {
        Marks {
            seen: Vec::new(alloc),
            last: 0,
        }
    }

    /// Whether no vertex stands twice among corners, which were read. Takes constant time a corner, beside that for
    /// vertices which it meets for the first time.
    pub fn are_distinct(&mut self, counts: Counts, corners: &[Corner]) -> Result<bool, NoMemory>
        requires { All (IsRead counts) corners.now }
        ensures { IfOk result (λ b. b ≡ are_distinct (map vert_of corners.now)) }
    {
        let mark = next_mark(&mut self.seen, self.last);
        self.last = mark;
        grow(&mut self.seen, counts.verts as usize)?;
        Ok(mark_all(&mut self.seen, mark, corners))
    }
}

// The number of the next list, which no vertex has.
fn next_mark(seen: &mut Vec<u32>, last: u32) -> u32
    requires { All (λ k. k ≤ last) seen.old.items }
    ensures some { 0 < result }
    ensures fresh { All (λ k. k < result) seen.new.items }
{
    if last == u32::MAX {
        seen.clear();
        return 1;
    }
    last + 1
}

// Makes room for so many vertices, which have no mark yet.
fn grow(seen: &mut Vec<u32>, verts: usize) -> Result<(), NoMemory>
    ensures enough { OnOk result (verts ≤ length seen.new.items) }
    ensures below { (m : ℕ) → 0 < m → All (λ k. k < m) seen.old.items → All (λ k. k < m) seen.new.items }
{
    while seen.len() < verts {
        seen.push(0)?;
    }
    Ok(())
}

// Whether no vertex stands twice. Each gets a mark that none has yet.
fn mark_all(seen: &mut [u32], mark: u32, corners: &[Corner]) -> bool
    requires fresh { All (λ m. m < mark) seen.old }
    requires within { All (λ k. k.vert < length seen.old) corners.now }
    ensures same { result ≡ are_distinct (map vert_of corners.now) }
    ensures most { All (λ m. m ≤ mark) seen.new }
{
    for corner in corners {
        let place = corner.vert as usize;
        if seen[place] == mark {
            return false;
        }
        seen[place] = mark;
    }
    true
}
