//! What a line spells.

use crate::confirm::confirm;
use mesh_model::{Elem, Kind, LayerDecl, Rule, VertName};
use op_slots::{Context, Op, Term, What};
use script_text::{Script, ScriptFault, parse};
use sequence::NoMemory;
use std::alloc::Global;
use std::test::Fail;

fn is_vert(term: &Term, name: u32) -> bool {
    match term {
        Term::One(elem) => *elem == Elem::Vert(VertName(name)),
        _ => false,
    }
}

fn is_range(term: &Term, first: u32, last: u32) -> bool {
    match term {
        Term::Range(Kind::Verts, n, m) => *n == first && *m == last,
        _ => false,
    }
}

fn are_terms(terms: &[Term]) -> bool {
    match terms {
        [a, b, c] => is_vert(a, 7) && is_range(b, 2, 10) && is_vert(c, 0),
        _ => false,
    }
}

fn is_deletion(what: &What) -> bool {
    match what {
        What::Run(Op::Delete { geom, context }) => {
            *context == Context::Verts && are_terms(geom.as_slice())
        }
        _ => false,
    }
}

fn is_wanted(script: &Script) -> bool {
    if script.commands.len() != 1 || !script.layers.is_empty() {
        return false;
    }
    let command = script.commands.get(0);
    command.line == 3 && command.bind.is_none() && is_deletion(&command.what)
}

// Whether a text of one command spells it.
fn is_spelled(alloc: Global) -> Result<bool, NoMemory> {
    match parse(alloc, b"\n# so\ndelete geom=v007,v2-v10,v0 # and so on") {
        Ok(script) => Ok(is_wanted(&script)),
        Err(ScriptFault::Refused(_)) => Ok(false),
        Err(ScriptFault::NoMemory) => Err(NoMemory),
    }
}

#[test]
fn a_line_spells_a_command(rt: HostRuntime) -> Result<(), Fail> {
    confirm(
        &rt,
        "the terms, the context and the line are those",
        is_spelled(rt.alloc())?,
    );
    Ok(())
}

// A layer is declared so.
fn is_layer(layer: &LayerDecl, kind: Kind, name: &[u8], width: u8, rule: Rule) -> bool {
    layer.kind == kind
        && layer.name.as_slice() == name
        && layer.width == width
        && layer.rule == rule
}

fn are_layers(layers: &[LayerDecl]) -> bool {
    match layers {
        [a, b, c, d] => {
            is_layer(a, Kind::Faces, b"mark", 1, Rule::Copy)
                && is_layer(b, Kind::Corners, b"tint", 4, Rule::Mix)
                && is_layer(c, Kind::Edges, b"tint", 2, Rule::Copy)
                && is_layer(d, Kind::Verts, b"w.1", 3, Rule::Mix)
        }
        _ => false,
    }
}

// Whether a text of four declarations and a command spells them in order.
fn are_spelled(alloc: Global) -> Result<bool, NoMemory> {
    let text = b"layer faces mark width=1 rule=copy\nlayer corners tint rule=mix width=4\n\
        layer edges tint width=02 rule=copy # so\n\nlayer verts w.1 width=3 rule=mix\nundo\n";
    match parse(alloc, text) {
        Ok(script) => Ok(are_layers(script.layers.as_slice()) && script.commands.len() == 1),
        Err(ScriptFault::Refused(_)) => Ok(false),
        Err(ScriptFault::NoMemory) => Err(NoMemory),
    }
}

#[test]
fn lines_spell_layers(rt: HostRuntime) -> Result<(), Fail> {
    confirm(
        &rt,
        "kinds, names, widths and rules are those",
        are_spelled(rt.alloc())?,
    );
    Ok(())
}
