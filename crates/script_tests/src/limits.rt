//! Texts, commands and terms as many as may be, with ample memory, and one more.
ghost use Rattle.std.specs.Prelude.{◌<◌};

use crate::confirm::confirm;
use script_text::{LONGEST_SCRIPT, MOST_TERMS, ScriptFault, parse};
use sequence::NoMemory;
use std::alloc::Global;
use std::test::Fail;

// A text of a beginning and so many equal pieces behind it.
fn repeated(alloc: Global, first: &[u8], piece: &[u8], count: usize) -> Result<Vec<u8>, NoMemory> {
    let mut text = Vec::new(alloc);
    text.extend_from_slice(first)?;
    for _ in 0..count {
        text.extend_from_slice(piece)?;
    }
    Ok(text)
}

// The number of a text's commands where it is a script, else the line and the number of its refusal.
fn outcome_of(alloc: Global, text: &[u8]) -> Result<Result<usize, (u32, u8)>, NoMemory> {
    match parse(alloc, text) {
        Ok(script) => Ok(Ok(script.commands.len())),
        Err(ScriptFault::Refused(refusal)) => Ok(Err((refusal.line, refusal.why.code()))),
        Err(ScriptFault::NoMemory) => Err(NoMemory),
    }
}

// Whether a text is a script of so many commands.
fn has_commands(alloc: Global, text: &[u8], count: usize) -> Result<bool, NoMemory> {
    match outcome_of(alloc, text)? {
        Ok(found) => Ok(found == count),
        Err(_) => Ok(false),
    }
}

// Whether a text is refused at a line by the reason of a number.
fn is_refused(alloc: Global, text: &[u8], line: u32, code: u8) -> Result<bool, NoMemory> {
    match outcome_of(alloc, text)? {
        Ok(_) => Ok(false),
        Err((at, why)) => Ok(at == line && why == code),
    }
}

#[test]
fn longest_text(rt: HostRuntime) -> Result<(), Fail> {
    let text = repeated(rt.alloc(), b"delete geom=v0 #", b"x", LONGEST_SCRIPT - 16)?;
    confirm(
        &rt,
        "the longest is read",
        has_commands(rt.alloc(), &text, 1)?,
    );
    let text = repeated(rt.alloc(), b"delete geom=v0 #", b"x", LONGEST_SCRIPT - 15)?;
    confirm(
        &rt,
        "a longer one is TooLarge",
        is_refused(rt.alloc(), &text, 0, 10)?,
    );
    Ok(())
}

#[test]
fn most_commands(rt: HostRuntime) -> Result<(), Fail> {
    let mut text = repeated(rt.alloc(), b"", b"delete geom=v0\n", 4_096)?;
    confirm(
        &rt,
        "so many commands are read",
        has_commands(rt.alloc(), &text, 4_096)?,
    );
    text.extend_from_slice(b"x")?;
    confirm(
        &rt,
        "one more is TooMany",
        is_refused(rt.alloc(), &text, 4_097, 8)?,
    );
    Ok(())
}

#[test]
fn most_terms(rt: HostRuntime) -> Result<(), Fail> {
    let text = repeated(
        rt.alloc(),
        b"delete geom=v0",
        b",v0-v999999",
        MOST_TERMS - 1,
    )?;
    confirm(
        &rt,
        "so many terms are read",
        has_commands(rt.alloc(), &text, 1)?,
    );
    let text = repeated(rt.alloc(), b"delete geom=v0", b",v0-v999999", MOST_TERMS)?;
    confirm(
        &rt,
        "one more is BadExpression",
        is_refused(rt.alloc(), &text, 1, 6)?,
    );
    Ok(())
}

// So many declarations of layers of a kind, each with its own name.
fn declarations(alloc: Global, kind: &str, count: u8) -> Result<Vec<u8>, NoMemory> {
    let mut text = Vec::new(alloc);
    for k in 0..count {
        let line = format!(in alloc; "layer {kind} w{k} width=1 rule=mix\n")?;
        text.extend_from_slice(line.as_bytes())?;
    }
    Ok(text)
}

// Whether a text is a script of so many layers.
fn has_layers(alloc: Global, text: &[u8], count: u8) -> Result<bool, NoMemory> {
    match parse(alloc, text) {
        Ok(script) => Ok(script.layers.len() == count as usize && script.commands.is_empty()),
        Err(ScriptFault::Refused(_)) => Ok(false),
        Err(ScriptFault::NoMemory) => Err(NoMemory),
    }
}

// Whether so many layers of a kind are read, and one more is BadLayer.
fn are_most(alloc: Global, kind: &str, count: u8) -> Result<bool, NoMemory>
    requires { count < 255 }
{
    let most = declarations(alloc, kind, count)?;
    let more = declarations(alloc, kind, count + 1)?;
    Ok(has_layers(alloc, &most, count)? && is_refused(alloc, &more, count as u32 + 1, 11)?)
}

#[test]
fn most_layers(rt: HostRuntime) -> Result<(), Fail> {
    let verts = are_most(rt.alloc(), "verts", 16)?;
    confirm(&rt, "sixteen of vertices", verts);
    let edges = are_most(rt.alloc(), "edges", 16)?;
    confirm(&rt, "sixteen of edges", edges);
    let corners = are_most(rt.alloc(), "corners", 15)?;
    confirm(&rt, "fifteen of corners beside the fixed one", corners);
    let faces = are_most(rt.alloc(), "faces", 14)?;
    confirm(&rt, "fourteen of faces beside the fixed two", faces);
    Ok(())
}
