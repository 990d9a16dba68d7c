//! Layers that are declared where a session is loaded.
ghost use Rattle.std.specs.Prelude.{◌≡◌, [], ◌∷◌, IfOk};

use crate::confirm::confirm;
use mesh_model::{Draft, Kind, LayerDecl, Rule, Shape};
use mesh_session::Session;
use sequence::{NoMemory, Text};
use std::alloc::Global;
use std::process::Abort;
use std::test::Fail;

// A layer with a name of one letter.
fn layer(alloc: Global, kind: Kind, name: u8, width: u8, rule: Rule) -> Result<LayerDecl, NoMemory>
    ensures { IfOk result (λ d. d ≡ record { kind = kind; name = name ∷ []; width = width; rule = rule }) }
{
    let mut text = Text::new(alloc);
    text.push(name)?;
    Ok(LayerDecl {
        kind,
        name: text,
        width,
        rule,
    })
}

// A layer of vertices, and one of corners.
fn layers(alloc: Global) -> Result<Vec<LayerDecl>, NoMemory>
    ensures { IfOk result (λ v. v.items
        ≡ record { kind = Kind.Verts; name = 119 ∷ []; width = 1; rule = Rule.Mix }
        ∷ record { kind = Kind.Corners; name = 116 ∷ []; width = 4; rule = Rule.Copy } ∷ []) }
{
    let mut layers = Vec::new(alloc);
    layers.push(layer(alloc, Kind::Verts, b'w', 1, Rule::Mix)?)?;
    layers.push(layer(alloc, Kind::Corners, b't', 4, Rule::Copy)?)?;
    Ok(layers)
}

// A session without elements that has these layers.
fn with_layers(alloc: Global) -> Result<Session, NoMemory> {
    let mut session = Session::new(alloc);
    let layers = layers(alloc)?;
    session.load(&Draft::new(alloc), &layers)?;
    Ok(session)
}

// They stand behind the fixed layers of their kinds.
fn are_declared(rt: &impl Abort, session: &Session) {
    let counts = [
        session.layers(Kind::Verts),
        session.layers(Kind::Edges),
        session.layers(Kind::Corners),
        session.layers(Kind::Faces),
    ];
    confirm(rt, "layers of each kind", counts == [1, 0, 2, 2]);
    let widths = [
        session.width(Kind::Verts),
        session.width(Kind::Edges),
        session.width(Kind::Corners),
        session.width(Kind::Faces),
    ];
    confirm(rt, "numbers of each kind", widths == [1, 0, 6, 2]);
}

// The last layer of corners.
fn is_last(rt: &impl Abort, session: &Session) {
    let count = session.layers(Kind::Corners);
    confirm(rt, "two layers", count == 2);
    let name = session.layer_name(Kind::Corners, 1);
    confirm(rt, "its name", name == b"t".as_slice());
    let width = session.layer_width(Kind::Corners, 1);
    confirm(rt, "its width", width == 4);
    let rule = session.layer_rule(Kind::Corners, 1);
    confirm(rt, "its rule", rule == Rule::Copy);
}

#[test]
fn layers_are_declared(rt: HostRuntime) -> Result<(), Fail> {
    let session = with_layers(rt.alloc())?;
    are_declared(&rt, &session);
    is_last(&rt, &session);
    Ok(())
}
