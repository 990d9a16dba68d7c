//! Declarations of layers: `layer KIND NAME width=W rule=R`.
ghost use Rattle.std.specs.Prelude.{◌≡◌, ◌&&◌, ◌||◌, nat_le, map};
ghost use Rattle.std.specs.List.{list_all, list_any};
ghost use Rattle.cust_data.specs.Layers.{same_name, is_layer_name, is_width};
ghost use Rattle.text_words.specs.Outcome.{Leaves};
ghost use Rattle.script_text.specs.Taken.{has_kind, is_declared, is_fixed, fixed_count, is_full, is_unfit};
ghost use Rattle.script_text.specs.Layers.{width_of, is_refused, declared, added, layer_words, layer};

use crate::arguments::{as_int, as_rule};
use crate::fault::ScriptWhy;
use crate::rowed::arguments_of;
use crate::script::Script;
use crate::table::Row;
use crate::values::{kind_of, layer_name};
use cust_data::Rule;
use mesh_model::{Kind, LayerDecl};
use sequence::Text;
use std::alloc::Global;
use text_words::{Stop, or_fault};

fn width_of(width: i64) -> Option<u8>
    ensures { result ≡ width_of width }
{
    if 1 <= width && width <= 4 {
        Some(width as u8)
    } else {
        None
    }
}

fn same_name(one: &[u8], other: &[u8]) -> bool
    ensures { result ≡ same_name one.now other.now }
{
    one == other
}

fn has_kind(kind: Kind, layer: &LayerDecl) -> bool
    ensures { result ≡ has_kind kind layer.now }
{
    kind as u8 == layer.kind as u8
}

fn is_declared(kind: Kind, name: &[u8], layer: &LayerDecl) -> bool
    ensures { result ≡ is_declared kind name.now layer.now }
{
    has_kind(kind, layer) && same_name(layer.name.as_slice(), name)
}

fn is_fixed(kind: Kind, name: &[u8]) -> bool
    ensures { result ≡ is_fixed kind name.now }
{
    match kind {
        Kind::Corners => same_name(b"uv", name),
        Kind::Faces => same_name(b"material", name) || same_name(b"smooth", name),
        _ => false,
    }
}

fn any_declared(kind: Kind, name: &[u8], layers: &[LayerDecl]) -> bool
    ensures { result ≡ list_any (is_declared kind name.now) layers.now }
{
    layers.iter().any(|l| is_declared(kind, name, l))
}

fn is_taken(kind: Kind, name: &[u8], layers: &[LayerDecl]) -> bool
    ensures { result ≡ (is_fixed kind name.now || list_any (is_declared kind name.now) layers.now) }
{
    is_fixed(kind, name) || any_declared(kind, name, layers)
}

fn fixed_count(kind: Kind) -> usize
    ensures { result ≡ fixed_count kind }
{
    match kind {
        Kind::Corners => 1,
        Kind::Faces => 2,
        _ => 0,
    }
}

fn is_full(kind: Kind, layers: &[LayerDecl]) -> bool
    ensures { result ≡ is_full kind layers.now }
{
    fixed_count(kind) + layers.iter().filter(|l| has_kind(kind, l)).count() >= 16
}

fn all_visible(name: &[u8]) -> bool
    ensures { result ≡ list_all (λ b. nat_le 33 b && nat_le b 126) name.now }
{
    name.iter().all(|b| 33 <= *b && *b <= 126)
}

fn is_layer_name(name: &[u8]) -> bool
    ensures { result ≡ is_layer_name name.now }
{
    1 <= name.len() && name.len() <= 63 && all_visible(name)
}

fn is_width(width: u8) -> bool
    ensures { result ≡ is_width width }
{
    1 <= width && width <= 4
}

// Whether a layer can't be declared behind some others, by these alone.
fn is_unfit(layer: &LayerDecl, layers: &[LayerDecl]) -> bool
    ensures { result ≡ is_unfit layer.now layers.now }
{
    let name = layer.name.as_slice();
    !is_layer_name(name)
        || (!is_width(layer.width)
            || (is_taken(layer.kind, name, layers) || is_full(layer.kind, layers)))
}

// Whether a layer can't be declared behind the fixed layers and some others.
fn is_refused(layer: &LayerDecl, layers: &[LayerDecl]) -> bool
    ensures { result ≡ is_refused layer.now layers.now }
{
    is_unfit(layer, layers)
}

fn declared(layer: LayerDecl, script: &mut Script) -> Result<(), Stop<ScriptWhy>>
    ensures { Leaves result script.new (declared layer script.old) }
{
    if is_refused(&layer, script.layers.as_slice()) {
        return Err(Stop::Fault(ScriptWhy::BadLayer));
    }
    script.layers.push(layer)?;
    Ok(())
}

#[tactic(auto, using(text_words::proofs::OutcomeLemmas::stops_on))]
fn added(
    kind: Kind,
    name: Text,
    width: i64,
    rule: Rule,
    script: &mut Script,
) -> Result<(), Stop<ScriptWhy>>
    ensures { Leaves result script.new (added kind name width rule script.old) }
{
    let width = or_fault(width_of(width), ScriptWhy::BadLayer)?;
    declared(
        LayerDecl {
            kind,
            name,
            width,
            rule,
        },
        script,
    )
}

// The words of a declaration after `layer`.
#[tactic(auto, using(text_words::proofs::OutcomeLemmas::stops_on))]
fn layer_words(alloc: Global, words: &[&[u8]], script: &mut Script) -> Result<(), Stop<ScriptWhy>>
    ensures { Leaves result script.new (layer_words (map (λ w. w.now) words.now) script.old) }
{
    match words {
        [] => Err(Stop::Fault(ScriptWhy::MissingArgument)),
        [kind] => {
            let _kind = or_fault(kind_of(kind), ScriptWhy::UnknownWord)?;
            Err(Stop::Fault(ScriptWhy::MissingArgument))
        }
        [kind, name, rest @ ..] => {
            let kind = or_fault(kind_of(kind), ScriptWhy::UnknownWord)?;
            let name = or_fault(layer_name(alloc, name)?, ScriptWhy::BadExpression)?;
            let mut arguments = arguments_of(alloc, Row::Layer, rest)?;
            let width = or_fault(as_int(arguments.first.take()), ScriptWhy::MissingArgument)?;
            let rule = or_fault(as_rule(arguments.second.take()), ScriptWhy::MissingArgument)?;
            added(kind, name, width, rule, script)
        }
    }
}

/// Takes a declaration in, by its words after `layer`.
pub(crate) fn layer(
    alloc: Global,
    words: &[&[u8]],
    script: &mut Script,
) -> Result<(), Stop<ScriptWhy>>
    ensures { Leaves result script.new (layer (map (λ w. w.now) words.now) script.old) }
{
    if !script.commands.is_empty() {
        return Err(Stop::Fault(ScriptWhy::LateLayer));
    }
    layer_words(alloc, words, script)
}
