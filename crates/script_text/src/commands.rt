//! Commands: `OP KEY=VALUE ..`, `NAME = OP KEY=VALUE ..`, `undo` and `redo`.
ghost use Rattle.std.specs.Prelude.{◌≡◌, map, option_map};
ghost use Rattle.text_words.specs.Outcome.{Gives, Leaves};
ghost use Rattle.script_text.specs.Commands.{past, operator_of, what_of, binds, is_bound, new_name, bound_name, command};

use crate::fault::ScriptWhy;
use crate::rowed::arguments_of;
use crate::script::Script;
use crate::table::{OpName, Row, is_now, op_named, op_of};
use crate::values::{is_name, text_of};
use op_slots::{Command, What};
use sequence::Text;
use std::alloc::Global;
use text_words::{Stop, is_text, or_fault};

const MOST_COMMANDS: usize = 4_096;

// `undo` or `redo`, which has no name and no word behind it.
fn past(what: What, bound: bool, rest: &[&[u8]]) -> Result<What, Stop<ScriptWhy>>
    ensures { Gives result (past what bound (map (λ w. w.now) rest.now)) }
{
    if bound || !rest.is_empty() {
        return Err(Stop::Fault(ScriptWhy::BadExpression));
    }
    Ok(what)
}

// The operator of a word.
#[tactic(auto, using(text_words::proofs::OutcomeLemmas::stops_on))]
fn operator_of(word: &[u8]) -> Result<OpName, Stop<ScriptWhy>>
    ensures { Gives result (operator_of word.now) }
{
    let name = or_fault(op_named(word), ScriptWhy::UnknownWord)?;
    if is_now(name) {
        Ok(name)
    } else {
        Err(Stop::Fault(ScriptWhy::NotYet))
    }
}

// What the words of a command say.
#[tactic(auto, using(text_words::proofs::OutcomeLemmas::stops_on))]
fn what_of(alloc: Global, bound: bool, words: &[&[u8]]) -> Result<What, Stop<ScriptWhy>>
    ensures { Gives result (what_of bound (map (λ w. w.now) words.now)) }
{
    match words {
        [] => Err(Stop::Fault(ScriptWhy::MissingArgument)),
        [word, rest @ ..] => {
            if is_text(b"undo", word) {
                return past(What::Undo, bound, rest);
            }
            if is_text(b"redo", word) {
                return past(What::Redo, bound, rest);
            }
            let name = operator_of(word)?;
            let mut arguments = arguments_of(alloc, Row::Operator(name), rest)?;
            let op = or_fault(op_of(name, &mut arguments), ScriptWhy::MissingArgument)?;
            Ok(What::Run(op))
        }
    }
}

fn binds(name: &[u8], command: &Command) -> bool
    ensures { result ≡ binds name.now command.now }
{
    match &command.bind {
        Some(bound) => is_text(bound.as_slice(), name),
        None => false,
    }
}

fn is_bound(name: &[u8], commands: &[Command]) -> bool
    ensures { result ≡ is_bound name.now commands.now }
{
    commands.iter().any(|c| binds(name, c))
}

fn new_name(alloc: Global, name: &[u8], commands: &[Command]) -> Result<Text, Stop<ScriptWhy>>
    ensures { Gives result (new_name name.now commands.now) }
{
    if !is_name(name) {
        return Err(Stop::Fault(ScriptWhy::BadExpression));
    }
    if is_bound(name, commands) {
        return Err(Stop::Fault(ScriptWhy::Rebound));
    }
    let name = text_of(alloc, name)?;
    Ok(name)
}

#[tactic(auto, using(text_words::proofs::OutcomeLemmas::stops_on))]
fn bound_name(
    alloc: Global,
    name: Option<&[u8]>,
    commands: &[Command],
) -> Result<Option<Text>, Stop<ScriptWhy>>
    ensures { Gives result (bound_name (option_map (λ n. n.now) name.entry) commands.now) }
{
    match name {
        Some(name) => {
            let name = new_name(alloc, name, commands)?;
            Ok(Some(name))
        }
        None => Ok(None),
    }
}

#[tactic(auto, using(text_words::proofs::OutcomeLemmas::stops_on))]
pub(crate) fn command(
    alloc: Global,
    line: u32,
    name: Option<&[u8]>,
    words: &[&[u8]],
    script: &mut Script,
) -> Result<(), Stop<ScriptWhy>>
    ensures { Leaves result script.new
        (command line (option_map (λ n. n.now) name.entry) (map (λ w. w.now) words.now) script.old) }
{
    if script.commands.len() >= MOST_COMMANDS {
        return Err(Stop::Fault(ScriptWhy::TooMany));
    }
    let bind = bound_name(alloc, name, script.commands.as_slice())?;
    let what = what_of(alloc, name.is_some(), words)?;
    script.commands.push(Command { line, bind, what })?;
    Ok(())
}
