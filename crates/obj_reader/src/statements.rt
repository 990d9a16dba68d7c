//! What a line adds to what was read before it.
ghost use Rattle.std.specs.Prelude.{◌≡◌, ◌≤◌, ◌+◌, ℕ, map, OnOk};
ghost use Rattle.std.specs.List.{list_any};
ghost use Rattle.text_words.specs.Outcome.{Leaves};
ghost use Rattle.obj_reader.specs.Statements.{said, statement, is_zero_byte, line_adds};
ghost use Rattle.obj_reader.specs.Holding.{AreParts};

use crate::edges::add_wire;
use crate::faces::add_ring;
use crate::items::{add_normal, add_point, add_texture, try_dots};
use crate::marks::Marks;
use crate::parts::Parts;
use crate::settings::{set_smooth, use_library, use_material};
use crate::values::uncommented;
use obj_format::{ObjWhy, Word, name_in, word_of};
use std::alloc::Global;
use text_words::{Stop, or_fault, words};

fn is_zero_byte(b: u8) -> bool
    ensures { result ≡ is_zero_byte b }
{
    b == 0
}

fn has_zero_byte(text: &[u8]) -> bool
    ensures { result ≡ list_any is_zero_byte text.now }
{
    text.iter().any(|b| is_zero_byte(*b))
}

// What a line says after its first word.
#[tactic(auto, using(crate::proofs::HoldingLemmas::parts_more))]
fn said(
    alloc: Global,
    scale: usize,
    word: Word,
    words: &[&[u8]],
    text: &[u8],
    marks: &mut Marks,
    parts: &mut Parts,
) -> Result<(), Stop<ObjWhy>>
    requires scale { scale ≤ 6 }
    requires parts { AreParts 268435457 parts.old }
    ensures told { Leaves result parts.new (said scale word (map (λ w. w.now) words.now) text.now parts.old) }
    ensures keeps { (n : ℕ) → AreParts n parts.old → OnOk result (AreParts (n + 1) parts.new) }
{
    match word {
        Word::Vertex => add_point(scale, uncommented(words), parts),
        Word::Texture => add_texture(uncommented(words), parts),
        Word::Normal => add_normal(uncommented(words), parts),
        Word::Ring => add_ring(alloc, uncommented(words), marks, parts),
        Word::Wire => add_wire(alloc, uncommented(words), parts),
        Word::Points => try_dots(alloc, uncommented(words), parts),
        Word::Smooth => set_smooth(uncommented(words), parts),
        Word::Material => use_material(name_in(text), parts),
        Word::Library => use_library(name_in(text), parts),
        Word::Skipped => Ok(()),
        Word::FreeForm => Err(Stop::Fault(ObjWhy::FreeForm)),
    }
}

#[tactic(auto, using(text_words::proofs::OutcomeLemmas::stops_on, crate::proofs::HoldingLemmas::parts_more))]
fn statement(
    alloc: Global,
    scale: usize,
    words: &[&[u8]],
    text: &[u8],
    marks: &mut Marks,
    parts: &mut Parts,
) -> Result<(), Stop<ObjWhy>>
    requires scale { scale ≤ 6 }
    requires parts { AreParts 268435457 parts.old }
    ensures told { Leaves result parts.new (statement scale (map (λ w. w.now) words.now) text.now parts.old) }
    ensures keeps { (n : ℕ) → AreParts n parts.old → OnOk result (AreParts (n + 1) parts.new) }
{
    match words {
        [] => Ok(()),
        [first, rest @ ..] => {
            let word = or_fault(word_of(first), ObjWhy::UnknownWord)?;
            said(alloc, scale, word, rest, text, marks, parts)
        }
    }
}

/// Adds what a line says, which may be a comment. Takes time in proportion to the line, as a rule.
#[tactic(auto, using(crate::proofs::HoldingLemmas::parts_more))]
pub fn add_line(
    alloc: Global,
    scale: usize,
    comment: bool,
    text: &[u8],
    marks: &mut Marks,
    parts: &mut Parts,
) -> Result<(), Stop<ObjWhy>>
    requires scale { scale ≤ 6 }
    requires parts { AreParts 268435457 parts.old }
    ensures told { Leaves result parts.new (line_adds scale comment text.now parts.old) }
    ensures keeps { (n : ℕ) → AreParts n parts.old → OnOk result (AreParts (n + 1) parts.new) }
{
    if has_zero_byte(text) {
        return Err(Stop::Fault(ObjWhy::NotText));
    }
    if comment {
        return Ok(());
    }
    let words = words(alloc, text)?;
    statement(alloc, scale, &words, text, marks, parts)
}
