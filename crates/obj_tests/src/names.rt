//! Models with many names.
ghost use Rattle.std.specs.Prelude.{◌≤◌};

use crate::confirm::confirm;
use crate::reading::read;
use mesh_model::{Draft, NoMemory, Shape};
use obj_text::ObjFault;
use std::alloc::Global;
use std::process::Abort;
use std::test::Fail;

// So many materials and libraries, each named twice, the second time after all others.
fn named_twice(alloc: Global, count: u32) -> Result<String, NoMemory> {
    let mut text = String::new(alloc);
    for _ in 0..2 {
        push_names(alloc, &mut text, count)?;
    }
    Ok(text)
}

fn push_names(alloc: Global, text: &mut String, count: u32) -> Result<(), NoMemory> {
    for n in 0..count {
        let lines = format!(in alloc; "usemtl m{n}\nmtllib l{n}\n")?;
        text.push_str(lines.as_str())?;
    }
    Ok(())
}

fn is_name(found: Option<&[u8]>, name: &[u8]) -> bool {
    match found {
        Some(text) => text == name,
        None => false,
    }
}

// Whether the materials and the libraries end with these.
fn ends_with(draft: &Draft, last: usize, material: &[u8], library: &[u8]) -> bool
    requires { last ≤ 1000000 }
{
    let more = draft.material(last + 1).is_none() && draft.library(last + 1).is_none();
    more && is_name(draft.material(last), material) && is_name(draft.library(last), library)
}

fn names_are_numbered(alloc: Global) -> Result<bool, ObjFault> {
    let text = named_twice(alloc, 20_000)?;
    let draft = read(alloc, 0, text.as_bytes(), 99)?;
    Ok(ends_with(&draft, 19_999, b"m19999", b"l19999"))
}

#[test]
fn many_names(rt: HostRuntime) -> Result<(), Fail> {
    let numbered = names_are_numbered(rt.alloc());
    confirm(&rt, "many names", matches!(numbered, Ok(true)));
    Ok(())
}
