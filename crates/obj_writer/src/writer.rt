//! The text of a complex.
ghost use Rattle.std.specs.Prelude.{◌≡◌, ◌≤◌, IfOk, OnOk};
ghost use Rattle.mesh_model.specs.Complex.{Complex};
ghost use Rattle.mesh_model.specs.Valid.{IsValid};
ghost use Rattle.obj_format.specs.Fixed.{BeginsFixed};
ghost use Rattle.obj_writer.specs.Whole.{text};
ghost use Rattle.byte_sink.specs.Wrote.{with_after, AddsPrefix};
ghost use Rattle.byte_sink.specs.Causes.{CountsFault};

use crate::face_lines::push_faces;
use crate::loose_lines::push_loose;
use crate::names::library_lines;
use crate::places::Places;
use crate::ranks::indices_of;
use crate::vert_lines::push_verts;
use byte_sink::{Sink, WriteFault, write_all};
use mesh_model::{NoMemory, Shape};
use std::alloc::Global;

/// The text of a complex: a line `mtllib NAME` for each library; `v X Y Z` for each vertex by rising name, with
/// `scale` decimal places; where some corner doesn't lie at 0 0 in the texture, `vt U V` in millionths for each
/// distinct place, in order of first use; `l A B` for each edge that no face has, by rising name; and for each face by
/// rising name `usemtl` and `s` where its material or its smoothing group differs from that of the face before, and
/// `f` with its corners, each with the number of its place where there are such lines. A vertex's index is its place
/// among the vertices, from 1. Each line ends with a line feed.
///
/// Takes time and memory in proportion to the names ever given and the corners, as a rule. Fails only for want of
/// memory.
pub fn text_of<S: Shape>(alloc: Global, shape: &S, scale: u8) -> Result<Vec<u8>, NoMemory>
    requires valid { IsValid (S.complex shape.now) }
    requires fixed { BeginsFixed (S.complex shape.now) }
    requires scale { scale ≤ 6 }
    ensures { IfOk result (λ t. t.items ≡ text scale (S.complex shape.now)) }
{
    let indices = indices_of(alloc, shape)?;
    let places = Places::of(alloc, shape)?;
    let mut text = library_lines(alloc, shape)?;
    push_verts(shape, scale, &mut text)?;
    places.push_lines(&mut text)?;
    push_loose(shape, &indices, &mut text)?;
    push_faces(alloc, shape, &indices, &places, &mut text)?;
    Ok(text)
}

/// Writes the text of a complex, as `text_of` makes it, to a sink. After a fault a prefix of the text
/// has been written: `Failed` where the sink refused the rest, `NoMemory` for want of memory here or
/// in the sink. The whole text is made before the first byte is written.
pub fn write<S: Shape, K: Sink>(
    alloc: Global,
    shape: &S,
    scale: u8,
    sink: &mut K,
) -> Result<(), WriteFault>
    requires valid { IsValid (S.complex shape.now) }
    requires fixed { BeginsFixed (S.complex shape.now) }
    requires scale { scale ≤ 6 }
    ensures ok { OnOk result (K.wrote sink.new ≡ with_after (K.wrote sink.old) (text scale (S.complex shape.now))) }
    ensures part { AddsPrefix (K.wrote sink.old) (K.wrote sink.new) (text scale (S.complex shape.now)) }
    ensures others { K.others sink.new ≡ K.others sink.old }
    ensures cause { CountsFault result (K.faults sink.old) (K.faults sink.new) }
{
    let text = text_of(alloc, shape, scale)?;
    write_all(sink, &text)
}
