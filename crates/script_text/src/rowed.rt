//! The words of a row: `KEY=VALUE`, in any order.
ghost use Rattle.std.specs.Prelude.{◌≡◌, map};
ghost use Rattle.text_words.specs.Outcome.{Gives, Leaves};
ghost use Rattle.script_text.specs.Rowed.{put, pair, argument, arguments_of};

use crate::arguments::{Arguments, Form, Place};
use crate::fault::ScriptWhy;
use crate::table::{Row, row_key};
use crate::values::value_of;
use std::alloc::Global;
use text_words::{Stop, cut, or_fault};

#[tactic(auto, using(text_words::proofs::OutcomeLemmas::stops_on))]
fn put(
    alloc: Global,
    place: Place,
    form: Form,
    value: &[u8],
    arguments: &mut Arguments,
) -> Result<(), Stop<ScriptWhy>>
    ensures { Leaves result arguments.new (put place form value.now arguments.old) }
{
    if arguments.is_given(place) {
        return Err(Stop::Fault(ScriptWhy::TwiceGiven));
    }
    let argument = value_of(alloc, form, value)?;
    arguments.put(place, argument);
    Ok(())
}

#[tactic(auto, using(text_words::proofs::OutcomeLemmas::stops_on))]
fn pair(
    alloc: Global,
    row: Row,
    key: &[u8],
    value: &[u8],
    arguments: &mut Arguments,
) -> Result<(), Stop<ScriptWhy>>
    ensures { Leaves result arguments.new (pair row key.now value.now arguments.old) }
{
    let (place, form) = or_fault(row_key(row, key), ScriptWhy::UnknownWord)?;
    put(alloc, place, form, value, arguments)
}

// A word `KEY=VALUE`.
fn argument(
    alloc: Global,
    row: Row,
    word: &[u8],
    arguments: &mut Arguments,
) -> Result<(), Stop<ScriptWhy>>
    ensures { Leaves result arguments.new (argument row word.now arguments.old) }
{
    match cut(word, b'=') {
        Some((key, value)) => pair(alloc, row, key, value, arguments),
        None => Err(Stop::Fault(ScriptWhy::UnknownWord)),
    }
}

pub(crate) fn arguments_of(
    alloc: Global,
    row: Row,
    words: &[&[u8]],
) -> Result<Arguments, Stop<ScriptWhy>>
    ensures { Gives result (arguments_of row (map (λ w. w.now) words.now)) }
{
    let mut arguments = Arguments::new();
    for word in words {
        argument(alloc, row, word, &mut arguments)?;
    }
    Ok(arguments)
}
