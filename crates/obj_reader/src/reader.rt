//! A model read piece by piece.
ghost use Rattle.std.specs.Prelude.{◌≡◌, ◌≤◌, ◌++◌, ℕ, List, Err, [], length, IfOk, OnOk, OnErr, IsErr};
ghost use Rattle.mesh_model.specs.Complex.{fixed_layers};
ghost use Rattle.mesh_model.specs.Valid.{IsSound};
ghost use Rattle.text_words.specs.Verdict.{Answers};
ghost use Rattle.obj_format.specs.Faults.{refusal_of};
ghost use Rattle.text_words.specs.Outcome.{Gives, steps};
ghost use Rattle.text_words.specs.Text.{lines};
ghost use Rattle.obj_format.specs.Lines.{joined};
ghost use Rattle.obj_reader.specs.Obj.{nothing, line_read, model_of, read_text};
ghost use Rattle.obj_reader.specs.Progress.{start, step};
ghost use Rattle.obj_reader.specs.Holding.{AreParts};
ghost use Rattle.obj_reader.specs.Reading.{IsFed, IsLost};

use crate::marks::Marks;
use crate::physical::{Progress, finish, read_physical_line};
use mesh_model::{Draft, NoMemory};
use obj_format::{ObjFault, ObjRefusal, ObjWhy};
use std::alloc::{AllocError, Global};
use std::marker::Model;
use text_words::{Stop, cut};

/// The greatest number of bytes that a model has.
const MOST_BYTES: usize = 268_435_456;

/// Reads a model that comes in pieces. Once memory ran out it only answers that.
#[derive(Drop)]
pub struct Reader {
    alloc: Global,
    scale: u8,
    fed: Option<Vec<u8>>,
}

impl Model for Reader {
    ghost use Rattle.std.specs.Prelude.{◌≤◌};
    ghost use Rattle.std.specs.Option.{option_map};
    ghost use Rattle.obj_reader.specs.Reading.{Reading};

    ghost Value = { Reading };

    ghost view = { λ r. record { scale = r.scale; fed = option_map (λ v. v.items) r.fed } };

    ghost invariant = { λ r. r.scale ≤ 6 };
}

impl Reader {
    /// A reader that has been fed nothing, for numbers with up to `scale` decimal places: a number
    /// of the text is that many times ten to the `scale` units. Takes no memory.
    pub fn new(alloc: Global, scale: u8) -> Reader
        requires { scale ≤ 6 }
        ensures { IsFed scale [] result }
    {
        Reader {
            alloc,
            scale,
            fed: Some(Vec::new(alloc)),
        }
    }

    /// Takes the next bytes of the text, and keeps them. After `NoMemory` this and each later call
    /// of `feed` and `end` answers `NoMemory`.
    pub fn feed(&mut self, piece: &[u8]) -> Result<(), NoMemory>
        ensures ok { OnOk result ((scale : ℕ) (bytes : List ℕ)
            → IsFed scale bytes self.old → IsFed scale (bytes ++ piece.now) self.new) }
        ensures err { OnErr result (IsLost self.new) }
        ensures lost { IsLost self.old → IsErr result }
    {
        match self.fed.take() {
            None => Err(AllocError),
            Some(mut bytes) => {
                bytes.extend_from_slice(piece)?;
                self.fed = Some(bytes);
                Ok(())
            }
        }
    }

    /// The draft of the text that was fed, or its refusal: line 0, `TooLarge`, where it has more than 268,435,456
    /// bytes; otherwise the first line with a fault, counted from 1, and its first fault.
    ///
    /// Lines end at line feeds; carriage returns before one are dropped. A line whose first byte that is no blank is
    /// `#` is a comment. Any other that ends with a backslash is joined with the next, and has the number of its
    /// first. Words stand between spaces, tabs and carriage returns. The faults of a line are tried in this order:
    /// `NotText` for a byte 0; `UnknownWord` or `FreeForm` for the first word; a wrong number of numbers; the words
    /// from left to right; `TooShort`; `TooLong`; `Repeated`; `TooMany` where a limit would be passed.
    ///
    /// Vertices and faces are named from 0 in order, edges in order of first use with the ends in the direction of
    /// that use. The draft's layers are those that every model has from its beginning.
    pub fn end(self) -> Result<Draft, ObjFault>
        ensures told { (scale : ℕ) (bytes : List ℕ) → IsFed scale bytes self
            → Answers refusal_of result (read_text scale bytes) }
        ensures lost { IsLost self → result ≡ Err ObjFault.NoMemory }
        ensures sound { IfOk result (λ d. IsSound d) }
        ensures fixed { IfOk result (λ d. d.layers ≡ fixed_layers) }
    {
        let Reader { alloc, scale, fed } = self;
        match fed {
            None => Err(ObjFault::NoMemory),
            Some(bytes) => read(alloc, scale, &bytes),
        }
    }
}

// The draft of a text.
fn read(alloc: Global, scale: u8, text: &[u8]) -> Result<Draft, ObjFault>
    requires { scale ≤ 6 }
    ensures told { Answers refusal_of result (read_text scale text.now) }
    ensures sound { IfOk result (λ d. IsSound d) }
    ensures fixed { IfOk result (λ d. d.layers ≡ fixed_layers) }
{
    if MOST_BYTES < text.len() {
        return Err(ObjFault::Refused(ObjRefusal {
            line: 0,
            why: ObjWhy::TooLarge,
        }));
    }
    match read_lines(alloc, scale as usize, text) {
        Ok(draft) => Ok(draft),
        Err(Stop::Fault(refusal)) => Err(ObjFault::Refused(refusal)),
        Err(Stop::NoMemory) => Err(ObjFault::NoMemory),
    }
}

// The draft of the lines of a text that isn't too long.
fn read_lines(alloc: Global, scale: usize, text: &[u8]) -> Result<Draft, Stop<ObjRefusal>>
    requires scale { scale ≤ 6 }
    requires short { length text.now ≤ 268435456 }
    ensures told { Gives result (model_of (steps (line_read scale) nothing (joined text.now))) }
    ensures sound { IfOk result (λ d. IsSound d) }
{
    let mut marks = Marks::new(alloc);
    match read_each(alloc, scale, text, &mut marks) {
        Ok(progress) => finish(alloc, scale, marks, progress),
        Err(stop) => Err(stop),
    }
}

// What the physical lines of a text make, one after another.
fn read_each(
    alloc: Global,
    scale: usize,
    text: &[u8],
    marks: &mut Marks,
) -> Result<Progress, Stop<ObjRefusal>>
    requires scale { scale ≤ 6 }
    requires few { length text.now ≤ 268435456 }
    ensures told { Gives result (steps (step scale) start (lines text.now)) }
    ensures parts { IfOk result (λ p. AreParts 268435457 p.parts) }
{
    let mut progress = Progress::new(alloc);
    let mut rest = text;
    while let Some((line, more)) = cut(rest, b'\n') {
        match read_physical_line(alloc, scale, line, marks, &mut progress) {
            Ok(()) => rest = more,
            Err(stop) => return Err(stop),
        }
    }
    match read_physical_line(alloc, scale, rest, marks, &mut progress) {
        Ok(()) => Ok(progress),
        Err(stop) => Err(stop),
    }
}
