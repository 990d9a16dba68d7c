//! A text read in two pieces, and what came of it as plain numbers.
ghost use Rattle.std.specs.Prelude.{◌≤◌, IfOk};
ghost use Rattle.mesh_model.specs.Valid.{IsSound};
ghost use Rattle.obj_format.specs.Fixed.{BeginsFixed};

use mesh_model::{Draft, NoMemory, Shape};
use obj_text::{ObjFault, ObjRefusal, Reader};
use std::alloc::Global;

/// The draft of a text that is cut in two.
pub(crate) fn read(alloc: Global, scale: u8, text: &[u8], cut: usize) -> Result<Draft, ObjFault>
    requires { scale ≤ 6 }
    ensures sound { IfOk result (λ d. IsSound d) }
    ensures fixed { IfOk result (λ d. BeginsFixed d) }
{
    let (front, back) = text.split_at(cut.min(text.len()));
    let mut reader = Reader::new(alloc, scale);
    reader.feed(front)?;
    reader.feed(back)?;
    reader.end()
}

// How many vertices, edges, faces and corners, and the numbers of materials and libraries up to three.
fn counts_of(draft: &Draft) -> [u32; 4] {
    let counters = draft.counters();
    [
        counters.verts,
        counters.edges,
        counters.faces,
        counters.corners,
    ]
}

/// How many vertices, edges, faces and corners a text makes that is cut in two.
pub(crate) fn counted(
    alloc: Global,
    scale: u8,
    text: &[u8],
    cut: usize,
) -> Result<[u32; 4], ObjFault>
    requires { scale ≤ 6 }
{
    let draft = read(alloc, scale, text, cut)?;
    Ok(counts_of(&draft))
}

/// Why a text is no model, or None where it is one.
pub(crate) fn refusal(
    alloc: Global,
    scale: u8,
    text: &[u8],
    cut: usize,
) -> Result<Option<ObjRefusal>, NoMemory>
    requires { scale ≤ 6 }
{
    match counted(alloc, scale, text, cut) {
        Ok(_) => Ok(None),
        Err(ObjFault::Refused(refusal)) => Ok(Some(refusal)),
        Err(ObjFault::NoMemory) => Err(NoMemory),
    }
}
