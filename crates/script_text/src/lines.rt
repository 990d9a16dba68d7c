//! Lines: what each adds to the script before it.
ghost use Rattle.std.specs.Prelude.{◌≡◌, ◌∷◌, map};
ghost use Rattle.std.specs.List.{list_all};
ghost use Rattle.text_words.specs.Outcome.{Leaves};
ghost use Rattle.script_text.specs.Lines.{plain, statement, is_text_byte, uncommented, line};

use crate::commands::command;
use crate::fault::ScriptWhy;
use crate::layers::layer;
use crate::script::Script;
use std::alloc::Global;
use text_words::{Stop, cut, is_text, words};

// A line that doesn't bind: its first word, the others, and all.
fn plain(
    alloc: Global,
    number: u32,
    first: &[u8],
    rest: &[&[u8]],
    all: &[&[u8]],
    script: &mut Script,
) -> Result<(), Stop<ScriptWhy>>
    requires { map (λ w. w.now) all.now ≡ first.now ∷ map (λ w. w.now) rest.now }
    ensures { Leaves result script.new (plain number first.now (map (λ w. w.now) rest.now) script.old) }
{
    if is_text(b"layer", first) {
        layer(alloc, rest, script)
    } else {
        command(alloc, number, None, all, script)
    }
}

// The words of a line.
fn statement(
    alloc: Global,
    number: u32,
    words: &[&[u8]],
    script: &mut Script,
) -> Result<(), Stop<ScriptWhy>>
    ensures { Leaves result script.new (statement number (map (λ w. w.now) words.now) script.old) }
{
    match words {
        [] => Ok(()),
        [first] => plain(alloc, number, first, &words[1..], words, script),
        [first, second, rest @ ..] => {
            if is_text(b"=", second) {
                command(alloc, number, Some(*first), rest, script)
            } else {
                plain(alloc, number, first, &words[1..], words, script)
            }
        }
    }
}

fn is_text_byte(b: u8) -> bool
    ensures { result ≡ is_text_byte b }
{
    b == b'\t' || (b == b'\r' || (b' ' <= b && b <= b'~'))
}

fn all_text(line: &[u8]) -> bool
    ensures { result ≡ list_all is_text_byte line.now }
{
    line.iter().all(|b| is_text_byte(*b))
}

// A line without its comment.
fn uncommented(line: &[u8]) -> &[u8]
    ensures { result.now ≡ uncommented line.entry.now }
{
    match cut(line, b'#') {
        Some((before, _)) => before,
        None => line,
    }
}

/// Takes a line in.
pub(crate) fn line(
    alloc: Global,
    number: u32,
    text: &[u8],
    script: &mut Script,
) -> Result<(), Stop<ScriptWhy>>
    ensures { Leaves result script.new (line number text.now script.old) }
{
    if !all_text(text) {
        return Err(Stop::Fault(ScriptWhy::NotText));
    }
    let words = words(alloc, uncommented(text))?;
    statement(alloc, number, &words, script)
}
