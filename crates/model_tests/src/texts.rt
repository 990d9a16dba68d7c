//! Elements, kinds and reasons as they are printed.

use crate::confirm::confirm;
use mesh_model::{EdgeName, Elem, FaceName, Kind, NoMemory, VertName, Why};
use std::alloc::Global;
use std::process::Abort;
use std::test::Fail;

// An element is printed so.
fn is_elem(rt: &impl Abort, alloc: Global, x: Elem, text: &str) -> Result<(), NoMemory> {
    let printed = format!(in alloc; "{x}")?;
    confirm(rt, text, printed.as_str() == text);
    Ok(())
}

// A kind is printed so.
fn is_kind(rt: &impl Abort, alloc: Global, kind: Kind, text: &str) -> Result<(), NoMemory> {
    let printed = format!(in alloc; "{kind}")?;
    confirm(rt, text, printed.as_str() == text);
    Ok(())
}

// A reason is printed so, and has this number.
fn is_why(rt: &impl Abort, alloc: Global, why: Why, text: &str, code: u8) -> Result<(), NoMemory> {
    let printed = format!(in alloc; "{why}")?;
    confirm(rt, text, printed.as_str() == text);
    confirm(rt, text, why.code() == code);
    Ok(())
}

#[test]
fn texts(rt: HostRuntime) -> Result<(), Fail> {
    is_elem(&rt, rt.alloc(), Elem::Vert(VertName(0)), "v0")?;
    is_elem(&rt, rt.alloc(), Elem::Edge(EdgeName(17)), "e17")?;
    is_elem(
        &rt,
        rt.alloc(),
        Elem::Face(FaceName(4_294_967_295)),
        "f4294967295",
    )?;
    is_kind(&rt, rt.alloc(), Kind::Corners, "corners")?;
    is_why(&rt, rt.alloc(), Why::NoSuch, "NoSuch", 1)?;
    is_why(&rt, rt.alloc(), Why::Apart, "Apart", 24)?;
    Ok(())
}
