//! A text read by its physical lines, one after another.
ghost use Rattle.std.specs.Prelude.{◌≡◌, ◌≤◌, ◌+◌, ℕ, OnOk, IfOk, None};
ghost use Rattle.text_words.specs.Outcome.{Leaves, Gives};
ghost use Rattle.mesh_model.specs.Valid.{IsSound};
ghost use Rattle.obj_format.specs.Lines.{onto};
ghost use Rattle.obj_reader.specs.Obj.{line_read, model_of};
ghost use Rattle.obj_reader.specs.Progress.{start, taken, step, end_of, stop_at};
ghost use Rattle.obj_reader.specs.Holding.{AreParts};

use crate::marks::Marks;
use crate::named_draft::NamedDraft;
use crate::parts::Parts;
use crate::statements::add_line;
use mesh_model::{Draft, Sequence};
use obj_format::{
    Line, ObjRefusal, ObjWhy, bare, begins_comment, ends_in_backslash, is_open, onto, shut,
};
use std::alloc::Global;
use text_words::Stop;

/// What was read up to the last line feed: how many physical lines, the line that is begun, and what the lines
/// before it make.
#[derive(Drop)]
pub struct Progress {
    pub number: u32,
    pub begun: Option<Line>,
    pub parts: Parts,
}

impl Progress {
    /// Nothing read yet. Takes no memory.
    pub fn new(alloc: Global) -> Progress
        ensures start { result ≡ start }
        ensures parts { AreParts 0 result.parts }
    {
        Progress {
            number: 0,
            begun: None,
            parts: Parts {
                draft: NamedDraft::new(alloc),
                textures: Sequence::new(alloc),
                normals: 0,
                material: 0,
                smooth: 0,
            },
        }
    }
}

fn at_line(line: u32, stop: Stop<ObjWhy>) -> Stop<ObjRefusal>
    ensures { result ≡ stop_at line stop }
{
    match stop {
        Stop::Fault(why) => Stop::Fault(ObjRefusal { line, why }),
        Stop::NoMemory => Stop::NoMemory,
    }
}

#[tactic(auto, using(crate::proofs::ProgressLemmas::stops_at))]
fn read_line(
    alloc: Global,
    scale: usize,
    number: u32,
    comment: bool,
    text: &[u8],
    marks: &mut Marks,
    parts: &mut Parts,
) -> Result<(), Stop<ObjRefusal>>
    requires scale { scale ≤ 6 }
    requires parts { AreParts 268435457 parts.old }
    ensures told { Leaves result parts.new (line_read scale
        (record { number = number; comment = comment; text = text.now }) parts.old) }
    ensures keeps { (n : ℕ) → AreParts n parts.old → OnOk result (AreParts (n + 1) parts.new) }
{
    match add_line(alloc, scale, comment, text, marks, parts) {
        Ok(()) => Ok(()),
        Err(stop) => Err(at_line(number, stop)),
    }
}

// The first physical line of a line: it is begun, or read.
#[tactic(auto, using(text_words::proofs::OutcomeLemmas::stops_on, crate::proofs::HoldingLemmas::parts_more))]
fn first_line(
    alloc: Global,
    scale: usize,
    text: &[u8],
    marks: &mut Marks,
    progress: &mut Progress,
) -> Result<(), Stop<ObjRefusal>>
    requires scale { scale ≤ 6 }
    requires parts { AreParts 268435457 progress.old.parts }
    requires begun { progress.old.begun ≡ None }
    ensures told { Leaves result progress.new (taken scale progress.old.number (onto progress.old.number None text.now)
        progress.old.parts) }
    ensures keeps { (n : ℕ) → AreParts n progress.old.parts → OnOk result (AreParts (n + 1) progress.new.parts) }
    ensures number { OnOk result (progress.new.number ≡ progress.old.number) }
{
    let comment = begins_comment(text);
    if !comment && ends_in_backslash(text) {
        let bytes = text[..text.len() - 1].to_vec(alloc)?;
        progress.begun = Some(Line {
            number: progress.number,
            comment,
            text: Sequence::from(bytes),
        });
        return Ok(());
    }
    read_line(
        alloc,
        scale,
        progress.number,
        comment,
        text,
        marks,
        &mut progress.parts,
    )
}

// A line with one physical line more: it goes on, or is read.
#[tactic(auto, using(text_words::proofs::OutcomeLemmas::stops_on, crate::proofs::HoldingLemmas::parts_more))]
fn joined_line(
    alloc: Global,
    scale: usize,
    line: Line,
    marks: &mut Marks,
    progress: &mut Progress,
) -> Result<(), Stop<ObjRefusal>>
    requires scale { scale ≤ 6 }
    requires parts { AreParts 268435457 progress.old.parts }
    requires begun { progress.old.begun ≡ None }
    ensures told { Leaves result progress.new (taken scale progress.old.number line progress.old.parts) }
    ensures keeps { (n : ℕ) → AreParts n progress.old.parts → OnOk result (AreParts (n + 1) progress.new.parts) }
    ensures number { OnOk result (progress.new.number ≡ progress.old.number) }
{
    if is_open(&line) {
        progress.begun = Some(shut(line));
        return Ok(());
    }
    read_line(
        alloc,
        scale,
        line.number,
        line.comment,
        line.text.as_slice(),
        marks,
        &mut progress.parts,
    )
}

/// Reads a physical line more.
pub fn read_physical_line(
    alloc: Global,
    scale: usize,
    text: &[u8],
    marks: &mut Marks,
    progress: &mut Progress,
) -> Result<(), Stop<ObjRefusal>>
    requires scale { scale ≤ 6 }
    requires parts { AreParts progress.old.number progress.old.parts }
    requires number { progress.old.number ≤ 268435456 }
    ensures told { Leaves result progress.new (step scale text.now progress.old) }
    ensures keeps { OnOk result (AreParts progress.new.number progress.new.parts) }
    ensures number { OnOk result (progress.new.number ≡ progress.old.number + 1) }
{
    let text = bare(text);
    progress.number += 1;
    match progress.begun.take() {
        None => first_line(alloc, scale, text, marks, progress),
        Some(line) => {
            let line = onto(alloc, progress.number, Some(line), text)?;
            joined_line(alloc, scale, line, marks, progress)
        }
    }
}

// The complex of the text that a line ends.
#[tactic(auto, using(text_words::proofs::OutcomeLemmas::stops_on))]
fn finish_line(
    alloc: Global,
    scale: usize,
    line: &Line,
    mut marks: Marks,
    mut parts: Parts,
) -> Result<Draft, Stop<ObjRefusal>>
    requires scale { scale ≤ 6 }
    requires parts { AreParts 268435457 parts }
    ensures told { Gives result (model_of (line_read scale line.now parts)) }
    ensures sound { IfOk result IsSound }
{
    read_line(
        alloc,
        scale,
        line.number,
        line.comment,
        line.text.as_slice(),
        &mut marks,
        &mut parts,
    )?;
    Ok(parts.draft.into_draft())
}

/// The complex of the whole text: what is begun still is read.
pub fn finish(
    alloc: Global,
    scale: usize,
    marks: Marks,
    progress: Progress,
) -> Result<Draft, Stop<ObjRefusal>>
    requires scale { scale ≤ 6 }
    requires parts { AreParts 268435457 progress.parts }
    ensures told { Gives result (model_of (end_of scale progress)) }
    ensures sound { IfOk result IsSound }
{
    let Progress { begun, parts, .. } = progress;
    match begun {
        Some(line) => finish_line(alloc, scale, &line, marks, parts),
        None => Ok(parts.draft.into_draft()),
    }
}
