//! Mappings of vertices.
ghost use Rattle.std.specs.Prelude.{◌≡◌, map, IfOk};
ghost use Rattle.text_words.specs.Each.{each};
ghost use Rattle.text_words.specs.Outcome.{Gives};
ghost use Rattle.script_text.specs.Terms.{at_most};
ghost use Rattle.script_text.specs.Maps.{pair, pairs, slot, map_arg};

use crate::fault::ScriptWhy;
use crate::terms::{MOST_TERMS, vert};
use crate::values::{is_name, text_of};
use op_slots::{MapArg, Mapping, Pair};
use sequence::{NoMemory, Sequence};
use std::alloc::Global;
use text_words::{Stop, cut, is_text, or_fault, parts};

fn pair(word: &[u8]) -> Option<Pair>
    ensures { result ≡ pair word.now }
{
    match cut(word, b':') {
        Some((first, second)) => {
            let source = vert(first)?;
            let target = vert(second)?;
            Some(Pair { source, target })
        }
        None => None,
    }
}

fn each_pair(alloc: Global, words: &[&[u8]]) -> Result<Option<Sequence<Pair>>, NoMemory>
    ensures { IfOk result (λ ps. ps ≡ each (λ w. pair w.now) words.now) }
{
    let mut pairs = Sequence::new(alloc);
    for word in words {
        match pair(word) {
            Some(pair) => pairs.push(pair)?,
            None => return Ok(None),
        }
    }
    Ok(Some(pairs))
}

fn few_pairs(alloc: Global, words: &[&[u8]]) -> Result<Option<Sequence<Pair>>, NoMemory>
    ensures { IfOk result (λ ps. ps ≡ at_most 4096 pair (map (λ w. w.now) words.now)) }
{
    if words.len() > MOST_TERMS {
        return Ok(None);
    }
    let pairs = each_pair(alloc, words)?;
    Ok(pairs)
}

#[tactic(auto, using(text_words::proofs::OutcomeLemmas::stops_on))]
fn pairs(alloc: Global, words: &[&[u8]]) -> Result<MapArg, Stop<ScriptWhy>>
    ensures { Gives result (pairs (map (λ w. w.now) words.now)) }
{
    let pairs = or_fault(few_pairs(alloc, words)?, ScriptWhy::BadExpression)?;
    let mapping = or_fault(
        Mapping::from_pairs(alloc, pairs.as_slice())?,
        ScriptWhy::TwiceGiven,
    )?;
    Ok(MapArg::Pairs(mapping))
}

fn slot(alloc: Global, word: &[u8]) -> Result<Option<MapArg>, NoMemory>
    ensures { IfOk result (λ m. m ≡ slot word.now) }
{
    match cut(word, b'.') {
        Some((name, ending)) => {
            if is_text(b"map", ending) && is_name(name) {
                let text = text_of(alloc, name)?;
                Ok(Some(MapArg::Slot(text)))
            } else {
                Ok(None)
            }
        }
        None => Ok(None),
    }
}

/// The mapping that a word spells, or its fault.
#[tactic(auto, using(text_words::proofs::OutcomeLemmas::stops_on))]
pub(crate) fn map_arg(alloc: Global, word: &[u8]) -> Result<MapArg, Stop<ScriptWhy>>
    ensures { Gives result (map_arg word.now) }
{
    match word {
        [] => Err(Stop::Fault(ScriptWhy::BadExpression)),
        [b, rest @ ..] => {
            if *b == b'$' {
                let slot = slot(alloc, rest)?;
                return or_fault(slot, ScriptWhy::BadExpression);
            }
            let words = parts(alloc, word, b',')?;
            pairs(alloc, &words)
        }
    }
}
