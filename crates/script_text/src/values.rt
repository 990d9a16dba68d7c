//! Values by their forms.
ghost use Rattle.std.specs.Prelude.{◌≡◌, map, IfOk};
ghost use Rattle.text_words.specs.Outcome.{Gives};
ghost use Rattle.script_text.specs.Values.{kind_of, rule_of, axis_of, method_of, context_of, point_of, point, ints_of};
ghost use Rattle.script_text.specs.Values.{ints, layer_name, value_of};
ghost use Rattle.std.specs.List.{list_all};
ghost use Rattle.script_text.specs.Names.{is_letter, is_name_byte, is_name};
ghost use Rattle.text_words.specs.Each.{each};
ghost use Rattle.text_words.specs.Text.{integer};

use crate::arguments::{Argument, Form};
use crate::fault::ScriptWhy;
use crate::maps::map_arg;
use crate::terms::{geom, verts};
use cust_data::Rule;
use mesh_model::{Kind, Point, Vals};
use op_slots::{Axis, Context, Method};
use sequence::{NoMemory, Sequence, Text};
use std::alloc::Global;
use text_words::{Stop, integer, is_text, or_fault, parts};

pub(crate) fn kind_of(word: &[u8]) -> Option<Kind>
    ensures { result ≡ kind_of word.now }
{
    if is_text(b"verts", word) {
        Some(Kind::Verts)
    } else if is_text(b"edges", word) {
        Some(Kind::Edges)
    } else if is_text(b"corners", word) {
        Some(Kind::Corners)
    } else if is_text(b"faces", word) {
        Some(Kind::Faces)
    } else {
        None
    }
}

fn rule_of(word: &[u8]) -> Option<Rule>
    ensures { result ≡ rule_of word.now }
{
    if is_text(b"mix", word) {
        Some(Rule::Mix)
    } else if is_text(b"copy", word) {
        Some(Rule::Copy)
    } else {
        None
    }
}

fn axis_of(word: &[u8]) -> Option<Axis>
    ensures { result ≡ axis_of word.now }
{
    if is_text(b"x", word) {
        Some(Axis::X)
    } else if is_text(b"y", word) {
        Some(Axis::Y)
    } else if is_text(b"z", word) {
        Some(Axis::Z)
    } else {
        None
    }
}

fn method_of(word: &[u8]) -> Option<Method>
    ensures { result ≡ method_of word.now }
{
    if is_text(b"fan", word) {
        Some(Method::Fan)
    } else if is_text(b"ear", word) {
        Some(Method::Ear)
    } else {
        None
    }
}

fn context_of(word: &[u8]) -> Option<Context>
    ensures { result ≡ context_of word.now }
{
    if is_text(b"verts", word) {
        Some(Context::Verts)
    } else if is_text(b"edges", word) {
        Some(Context::Edges)
    } else if is_text(b"edges_faces", word) {
        Some(Context::EdgesFaces)
    } else if is_text(b"faces_only", word) {
        Some(Context::FacesOnly)
    } else if is_text(b"faces", word) {
        Some(Context::Faces)
    } else if is_text(b"faces_keep_boundary", word) {
        Some(Context::FacesKeepBoundary)
    } else {
        None
    }
}

fn point_of(parts: &[&[u8]]) -> Option<Point>
    ensures { result ≡ point_of (map (λ p. p.now) parts.now) }
{
    match parts {
        [x, y, z] => {
            let x = integer(x, 18)?;
            let y = integer(y, 18)?;
            let z = integer(z, 18)?;
            Some(Point { x, y, z })
        }
        _ => None,
    }
}

fn point(alloc: Global, word: &[u8]) -> Result<Option<Point>, NoMemory>
    ensures { IfOk result (λ p. p ≡ point word.now) }
{
    let parts = parts(alloc, word, b',')?;
    Ok(point_of(&parts))
}

fn each_int(alloc: Global, parts: &[&[u8]]) -> Result<Option<Vals>, NoMemory>
    ensures { IfOk result (λ zs. zs ≡ each (λ p. integer 18 p.now) parts.now) }
{
    let mut numbers = Vals::new(alloc);
    for part in parts {
        match integer(part, 18) {
            Some(number) => numbers.push(number)?,
            None => return Ok(None),
        }
    }
    Ok(Some(numbers))
}

fn ints_of(alloc: Global, parts: &[&[u8]]) -> Result<Option<Vals>, NoMemory>
    ensures { IfOk result (λ zs. zs ≡ ints_of (map (λ p. p.now) parts.now)) }
{
    if parts.len() > 4 {
        return Ok(None);
    }
    let numbers = each_int(alloc, parts)?;
    Ok(numbers)
}

fn ints(alloc: Global, word: &[u8]) -> Result<Option<Vals>, NoMemory>
    ensures { IfOk result (λ zs. zs ≡ ints word.now) }
{
    let parts = parts(alloc, word, b',')?;
    let numbers = ints_of(alloc, &parts)?;
    Ok(numbers)
}

fn is_letter(b: u8) -> bool
    ensures { result ≡ is_letter b }
{
    (b'A' <= b && b <= b'Z') || (b'a' <= b && b <= b'z')
}

fn is_name_byte(b: u8) -> bool
    ensures { result ≡ is_name_byte b }
{
    is_letter(b) || ((b'0' <= b && b <= b'9') || b == b'_')
}

fn all_name_bytes(bs: &[u8]) -> bool
    ensures { result ≡ list_all is_name_byte bs.now }
{
    bs.iter().all(|b| is_name_byte(*b))
}

/// Whether a word is a name: a letter and up to 62 letters, digits or `_`.
pub(crate) fn is_name(word: &[u8]) -> bool
    ensures { result ≡ is_name word.now }
{
    match word {
        [] => false,
        [b, bs @ ..] => is_letter(*b) && (bs.len() <= 62 && all_name_bytes(bs)),
    }
}

pub(crate) fn text_of(alloc: Global, word: &[u8]) -> Result<Text, NoMemory>
    ensures { IfOk result (λ t. t ≡ word.now) }
{
    let bytes = word.to_vec(alloc)?;
    Ok(Sequence::from(bytes))
}

pub(crate) fn layer_name(alloc: Global, word: &[u8]) -> Result<Option<Text>, NoMemory>
    ensures { IfOk result (λ t. t ≡ layer_name word.now) }
{
    if 0 < word.len() && word.len() <= 63 {
        let text = text_of(alloc, word)?;
        Ok(Some(text))
    } else {
        Ok(None)
    }
}

/// The value that a word spells in a form, or its fault.
#[tactic(auto, using(text_words::proofs::OutcomeLemmas::stops_on))]
pub(crate) fn value_of(alloc: Global, form: Form, word: &[u8]) -> Result<Argument, Stop<ScriptWhy>>
    ensures { Gives result (value_of form word.now) }
{
    match form {
        Form::Int => {
            let number = or_fault(integer(word, 18), ScriptWhy::BadNumber)?;
            Ok(Argument::Int(number))
        }
        Form::Point => {
            let point = or_fault(point(alloc, word)?, ScriptWhy::BadNumber)?;
            Ok(Argument::Point(point))
        }
        Form::Ints => {
            let numbers = or_fault(ints(alloc, word)?, ScriptWhy::BadNumber)?;
            Ok(Argument::Ints(numbers))
        }
        Form::Kind => {
            let kind = or_fault(kind_of(word), ScriptWhy::UnknownWord)?;
            Ok(Argument::Kind(kind))
        }
        Form::Context => {
            let context = or_fault(context_of(word), ScriptWhy::UnknownWord)?;
            Ok(Argument::Context(context))
        }
        Form::Rule => {
            let rule = or_fault(rule_of(word), ScriptWhy::UnknownWord)?;
            Ok(Argument::Rule(rule))
        }
        Form::Axis => {
            let axis = or_fault(axis_of(word), ScriptWhy::UnknownWord)?;
            Ok(Argument::Axis(axis))
        }
        Form::Method => {
            let method = or_fault(method_of(word), ScriptWhy::UnknownWord)?;
            Ok(Argument::Method(method))
        }
        Form::Name => {
            let name = or_fault(layer_name(alloc, word)?, ScriptWhy::BadExpression)?;
            Ok(Argument::Name(name))
        }
        Form::Geom => {
            let terms = or_fault(geom(alloc, word)?, ScriptWhy::BadExpression)?;
            Ok(Argument::Geom(terms))
        }
        Form::Verts => {
            let names = or_fault(verts(alloc, word)?, ScriptWhy::BadExpression)?;
            Ok(Argument::Verts(names))
        }
        Form::Map => {
            let map = map_arg(alloc, word)?;
            Ok(Argument::Map(map))
        }
    }
}
