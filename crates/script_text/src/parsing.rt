//! A text read as a script.
ghost use Rattle.std.specs.Prelude.{◌≡◌, ◌≤◌, length, map, IfOk};
ghost use Rattle.text_words.specs.Verdict.{Answers};
ghost use Rattle.script_text.specs.Faults.{refusal_of};
ghost use Rattle.script_text.specs.Layers.{AreDeclarable};
ghost use Rattle.script_text.specs.Script.{stopped, empty, script_of_lines, script_of};

use crate::fault::{ScriptFault, ScriptRefusal, ScriptWhy};
use crate::lines::line;
use crate::script::Script;
use sequence::Sequence;
use std::alloc::Global;
use text_words::Stop;

/// The most bytes that a script may have.
pub const LONGEST_SCRIPT: usize = 1_048_576;

/// Reads a text as a script. Lines are separated by line feeds and counted from 1, so a text that ends in a
/// line feed has an empty last line.
///
/// Refused `TooLarge` at line 0 where the text has more than 1,048,576 bytes, and else at the first line with a
/// fault, with the first fault of that line. Fails otherwise only for want of memory. Takes time and memory in
/// proportion to the text. The layers of a script can be declared behind those that every model has from its beginning.
pub fn parse(alloc: Global, text: &[u8]) -> Result<Script, ScriptFault>
    ensures read { Answers refusal_of result (script_of text.now) }
    ensures layers { IfOk result (λ s. AreDeclarable s.layers) }
{
    if text.len() > LONGEST_SCRIPT {
        return Err(refused(0, ScriptWhy::TooLarge));
    }
    let lines = text_words::lines(alloc, text)?;
    script_of_lines(alloc, &lines)
}

fn refused(line: u32, why: ScriptWhy) -> ScriptFault
    ensures { result ≡ ScriptFault.Refused (record { line = line; why = why }) }
{
    ScriptFault::Refused(ScriptRefusal { line, why })
}

// The fault of a line.
fn stopped(line: u32, stop: Stop<ScriptWhy>) -> ScriptFault
    ensures { result ≡ stopped line stop }
{
    match stop {
        Stop::Fault(why) => refused(line, why),
        Stop::NoMemory => ScriptFault::NoMemory,
    }
}

fn script_of_lines(alloc: Global, lines: &[&[u8]]) -> Result<Script, ScriptFault>
    requires { length lines.now ≤ 1048577 }
    ensures { Answers refusal_of result (script_of_lines 0 empty (map (λ l. l.now) lines.now)) }
{
    let mut script = Script {
        layers: Sequence::new(alloc),
        commands: Sequence::new(alloc),
    };
    for (k, text) in lines.iter().enumerate() {
        let number = k as u32 + 1;
        if let Err(stop) = line(alloc, number, text, &mut script) {
            return Err(stopped(number, stop));
        }
    }
    Ok(script)
}
