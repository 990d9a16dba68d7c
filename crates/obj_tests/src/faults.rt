//! Each fault, with the number of its line.

use crate::confirm::confirm;
use crate::reading::refusal;
use mesh_model::NoMemory;
use obj_text::{ObjFault, ObjRefusal, ObjWhy};
use std::alloc::Global;
use std::process::Abort;
use std::test::Fail;

// After three lines of points a text is refused at a line for a reason.
fn is_refused(
    rt: &impl Abort,
    alloc: Global,
    text: &str,
    line: u32,
    why: ObjWhy,
) -> Result<(), NoMemory> {
    let whole = format!(in alloc; "v 0 0 0\nv 4 0 0\r\nv 4 4 0\n{text}")?;
    let found = refusal(alloc, 0, whole.as_bytes(), 30)?;
    confirm(rt, text, found == Some(ObjRefusal { line, why }));
    Ok(())
}

fn words_are_refused(rt: &impl Abort, alloc: Global) -> Result<(), NoMemory> {
    is_refused(rt, alloc, "f 1 2 \\\r\n3\nw", 6, ObjWhy::UnknownWord)?;
    is_refused(rt, alloc, "\\\n# 1", 4, ObjWhy::UnknownWord)?;
    is_refused(rt, alloc, "# \0", 4, ObjWhy::NotText)?;
    is_refused(rt, alloc, "curv 1", 4, ObjWhy::FreeForm)?;
    Ok(())
}

fn numbers_are_refused(rt: &impl Abort, alloc: Global) -> Result<(), NoMemory> {
    is_refused(rt, alloc, "v .5 2", 4, ObjWhy::BadNumber)?;
    is_refused(rt, alloc, "\r\nvt", 5, ObjWhy::BadNumber)?;
    is_refused(rt, alloc, "s 1 1", 4, ObjWhy::BadNumber)?;
    is_refused(rt, alloc, "v 1 2 0.5", 4, ObjWhy::OffGrid)?;
    is_refused(rt, alloc, "v 1 2 -1000000001", 4, ObjWhy::OutOfGrid)?;
    Ok(())
}

fn corners_are_refused(rt: &impl Abort, alloc: Global) -> Result<(), NoMemory> {
    is_refused(rt, alloc, "f 1 2 4\nv 0 0 0", 4, ObjWhy::BadIndex)?;
    is_refused(rt, alloc, "f 0 1 2", 4, ObjWhy::BadIndex)?;
    is_refused(rt, alloc, "f -5 1 2", 4, ObjWhy::BadIndex)?;
    is_refused(rt, alloc, "f 1 2 \\\n\\\n2/1", 4, ObjWhy::BadIndex)?;
    is_refused(rt, alloc, "f 1 2", 4, ObjWhy::TooShort)?;
    is_refused(rt, alloc, "f 1 2 3 -3", 4, ObjWhy::Repeated)?;
    is_refused(rt, alloc, "l 1 2 2", 4, ObjWhy::Repeated)?;
    Ok(())
}

fn chains_are_refused(rt: &impl Abort, alloc: Global) -> Result<(), NoMemory> {
    is_refused(rt, alloc, "# c \\\nl 1 # 2", 5, ObjWhy::TooShort)?;
    is_refused(rt, alloc, "p\n", 4, ObjWhy::TooShort)?;
    is_refused(rt, alloc, "\\\n\\\np 1/1\n", 4, ObjWhy::BadIndex)?;
    Ok(())
}

#[test]
fn words(rt: HostRuntime) -> Result<(), Fail> {
    words_are_refused(&rt, rt.alloc())?;
    Ok(())
}

#[test]
fn numbers(rt: HostRuntime) -> Result<(), Fail> {
    numbers_are_refused(&rt, rt.alloc())?;
    Ok(())
}

#[test]
fn corners(rt: HostRuntime) -> Result<(), Fail> {
    corners_are_refused(&rt, rt.alloc())?;
    chains_are_refused(&rt, rt.alloc())?;
    Ok(())
}

// A refusal and its reason as they are printed.
fn is_printed(rt: &impl Abort, alloc: Global) -> Result<(), NoMemory> {
    let why = ObjWhy::BadIndex;
    let fault = ObjFault::Refused(ObjRefusal { line: 4, why });
    let text = format!(in alloc; "{fault}")?;
    confirm(
        rt,
        "a printed fault",
        text.as_str() == "model line 4: BadIndex",
    );
    confirm(rt, "the number of a reason", why.code() == 4);
    Ok(())
}

#[test]
fn printed(rt: HostRuntime) -> Result<(), Fail> {
    is_printed(&rt, rt.alloc())?;
    Ok(())
}
