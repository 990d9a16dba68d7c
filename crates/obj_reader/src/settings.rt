//! Lines that set what the faces after them have.
ghost use Rattle.std.specs.Prelude.{◌≡◌, ◌≤◌, ◌+◌, ℕ, Ok, map, OnOk};
ghost use Rattle.text_words.specs.Outcome.{Leaves};
ghost use Rattle.obj_reader.specs.Statements.{with_smooth, with_material, with_library};
ghost use Rattle.obj_reader.specs.Holding.{AreParts};

use crate::parts::Parts;
use crate::values::smooth_of;
use obj_format::ObjWhy;
use text_words::{Stop, or_fault};

/// An `s` line.
#[tactic(auto, using(text_words::proofs::OutcomeLemmas::stops_on, crate::proofs::HoldingLemmas::parts_with_smooth))]
pub fn set_smooth(words: &[&[u8]], parts: &mut Parts) -> Result<(), Stop<ObjWhy>>
    ensures told { Leaves result parts.new (with_smooth (map (λ w. w.now) words.now) parts.old) }
    ensures keeps { (n : ℕ) → AreParts n parts.old → OnOk result (AreParts (n + 1) parts.new) }
{
    let smooth = or_fault(smooth_of(words), ObjWhy::BadNumber)?;
    parts.smooth = smooth as i64;
    Ok(())
}

/// A `usemtl` line with a name.
pub fn use_material(name: &[u8], parts: &mut Parts) -> Result<(), Stop<ObjWhy>>
    ensures told { Leaves result parts.new (Ok (with_material name.now parts.old)) }
    ensures keeps { (n : ℕ) → AreParts n parts.old → OnOk result (AreParts (n + 1) parts.new) }
{
    if name.is_empty() {
        parts.material = 0;
        return Ok(());
    }
    parts.material = parts.draft.material_number(name)?;
    Ok(())
}

/// A `mtllib` line with a name.
pub fn use_library(name: &[u8], parts: &mut Parts) -> Result<(), Stop<ObjWhy>>
    ensures told { Leaves result parts.new (Ok (with_library name.now parts.old)) }
    ensures keeps { (n : ℕ) → AreParts n parts.old → OnOk result (AreParts (n + 1) parts.new) }
{
    if name.is_empty() {
        return Ok(());
    }
    parts.draft.add_library(name)?;
    Ok(())
}
