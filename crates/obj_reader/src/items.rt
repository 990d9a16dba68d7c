//! Lines of points, texture items and normals.
ghost use Rattle.std.specs.Prelude.{◌≡◌, ◌≤◌, ◌<◌, ◌+◌, ℕ, map, length, OnOk};
ghost use Rattle.text_words.specs.Outcome.{Leaves};
ghost use Rattle.mesh_model.specs.Valid.{IsSound};
ghost use Rattle.obj_reader.specs.Statements.{counts, with_point, with_texture, with_normal, with_dots};
ghost use Rattle.obj_reader.specs.Holding.{AreParts};

use crate::parts::{MAX_TEXTURES, Parts};
use crate::values::{dots_of, is_normal, point_of, texture_of};
use obj_format::{Counts, ObjWhy};
use std::alloc::Global;
use text_words::{Stop, or_stop};

/// How many items of each kind were read.
pub fn counts(parts: &Parts) -> Counts
    requires { length parts.now.textures ≤ MAX_TEXTURES }
    ensures { result ≡ counts parts.now }
{
    Counts {
        verts: parts.draft.counters().verts,
        textures: parts.textures.len() as u32,
        normals: parts.normals,
    }
}

/// A `v` line.
#[tactic(auto, using(crate::proofs::RuleSets::points))]
pub fn add_point(scale: usize, words: &[&[u8]], parts: &mut Parts) -> Result<(), Stop<ObjWhy>>
    requires scale { scale ≤ 6 }
    requires sound { IsSound parts.old.draft }
    ensures told { Leaves result parts.new (with_point scale (map (λ w. w.now) words.now) parts.old) }
    ensures keeps { (n : ℕ) → AreParts n parts.old → OnOk result (AreParts (n + 1) parts.new) }
{
    let point = or_stop(point_of(scale, words))?;
    if !parts.draft.has_vert_room() {
        return Err(Stop::Fault(ObjWhy::TooMany));
    }
    parts.draft.add_vert(point)?;
    Ok(())
}

/// A `vt` line.
#[tactic(auto, using(text_words::proofs::OutcomeLemmas::stops_on, crate::proofs::HoldingLemmas::parts_with_texture))]
pub fn add_texture(words: &[&[u8]], parts: &mut Parts) -> Result<(), Stop<ObjWhy>>
    ensures told { Leaves result parts.new (with_texture (map (λ w. w.now) words.now) parts.old) }
    ensures keeps { (n : ℕ) → AreParts n parts.old → OnOk result (AreParts (n + 1) parts.new) }
{
    let uv = or_stop(texture_of(words))?;
    if MAX_TEXTURES as usize <= parts.textures.len() {
        return Err(Stop::Fault(ObjWhy::TooMany));
    }
    parts.textures.push(uv)?;
    Ok(())
}

/// A `vn` line.
#[tactic(auto, using(crate::proofs::HoldingLemmas::parts_with_normal))]
pub fn add_normal(words: &[&[u8]], parts: &mut Parts) -> Result<(), Stop<ObjWhy>>
    requires { parts.old.normals ≤ 268435457 }
    ensures told { Leaves result parts.new (with_normal (map (λ w. w.now) words.now) parts.old) }
    ensures keeps { (n : ℕ) → AreParts n parts.old → OnOk result (AreParts (n + 1) parts.new) }
{
    if !is_normal(words) {
        return Err(Stop::Fault(ObjWhy::BadNumber));
    }
    parts.normals += 1;
    Ok(())
}

/// A `p` line.
#[tactic(auto, using(text_words::proofs::OutcomeLemmas::stops_on))]
pub fn try_dots(alloc: Global, words: &[&[u8]], parts: &Parts) -> Result<(), Stop<ObjWhy>>
    requires { length parts.now.textures ≤ MAX_TEXTURES }
    ensures { Leaves result parts.now (with_dots (map (λ w. w.now) words.now) parts.now) }
{
    dots_of(alloc, counts(parts), words)?;
    Ok(())
}
