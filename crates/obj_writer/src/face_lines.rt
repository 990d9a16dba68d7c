//! The lines of the faces.
ghost use Rattle.std.specs.Prelude.{◌≡◌, ◌++◌, [], map, Some, IfOk, OnOk};
ghost use Rattle.std.specs.List.{flat_map};
ghost use Rattle.std.specs.Option.{option_map, option_map_or};
ghost use Rattle.mesh_model.specs.Complex.{Complex, corners_of};
ghost use Rattle.mesh_model.specs.Table.{at, IsThere};
ghost use Rattle.mesh_model.specs.Valid.{IsLinked};
ghost use Rattle.obj_format.specs.Fixed.{BeginsFixed};
ghost use Rattle.obj_writer.specs.Whole.{places, corner_text, corner_word, face_line, numbers_of};
ghost use Rattle.obj_writer.specs.Whole.{entry_text, entry_numbers, face_texts};
ghost use Rattle.obj_writer.specs.Ranks.{AreIndices};

use crate::names::set_lines;
use crate::numbers::push_decimal;
use crate::places::{Places, face_places};
use mesh_model::{EdgeName, Elem, FaceName, NoMemory, Shape, VertName};
use std::alloc::Global;

// The vertices and the edges of a face's corners.
fn face_corners<S: Shape>(
    alloc: Global,
    shape: &S,
    f: FaceName,
) -> Result<Vec<(VertName, EdgeName)>, NoMemory>
    requires { IsThere (S.complex shape.now).faces f.0 }
    ensures { IfOk result (λ v. v.items
        ≡ map (λ k. (k.vert, k.edge)) (corners_of (at (S.complex shape.now).faces f.0))) }
{
    let mut corners = Vec::new(alloc);
    corners.resize(shape.corner_count(f) as usize, (VertName(0), EdgeName(0)))?;
    shape.corners(f, &mut corners);
    Ok(corners)
}

fn push_corner(out: &mut Vec<u8>, index: u32, place: Option<usize>) -> Result<(), NoMemory>
    ensures { OnOk result (out.new.items ≡ out.old.items ++ corner_text index place) }
{
    out.push(b' ')?;
    push_decimal(out, index as u64)?;
    if let Some(number) = place {
        out.push(b'/')?;
        push_decimal(out, number as u64)?;
        return Ok(());
    }
    Ok(())
}

// Appends the words of a face's corners.
fn push_corners<S: Shape>(
    alloc: Global,
    shape: &S,
    indices: &[u32],
    all: &Places,
    f: FaceName,
    out: &mut Vec<u8>,
) -> Result<(), NoMemory>
    requires linked { IsLinked (S.complex shape.now) }
    requires fixed { BeginsFixed (S.complex shape.now) }
    requires indices { AreIndices (S.complex shape.now) indices.now }
    requires places { all.now ≡ places (S.complex shape.now) }
    requires there { IsThere (S.complex shape.now).faces f.0 }
    ensures { OnOk result (out.new.items ≡ out.old.items
        ++ flat_map (corner_word (S.complex shape.now)) (corners_of (at (S.complex shape.now).faces f.0))) }
{
    let sides = face_corners(alloc, shape, f)?;
    let uvs = face_places(alloc, shape, f)?;
    let corners = sides.as_slice();
    let places = uvs.as_slice();
    for i in 0..corners.len() {
        let (v, _) = corners[i];
        let index = indices[v.0 as usize];
        push_corner(out, index, all.number(places[i]))?;
    }
    Ok(())
}

// Appends the line of a face.
fn push_face<S: Shape>(
    alloc: Global,
    shape: &S,
    indices: &[u32],
    uvs: &Places,
    f: FaceName,
    out: &mut Vec<u8>,
) -> Result<(), NoMemory>
    requires linked { IsLinked (S.complex shape.now) }
    requires fixed { BeginsFixed (S.complex shape.now) }
    requires indices { AreIndices (S.complex shape.now) indices.now }
    requires places { uvs.now ≡ places (S.complex shape.now) }
    requires there { IsThere (S.complex shape.now).faces f.0 }
    ensures { OnOk result (out.new.items
        ≡ out.old.items ++ option_map_or (face_line (S.complex shape.now)) (at (S.complex shape.now).faces f.0) []) }
{
    out.push(b'f')?;
    push_corners(alloc, shape, indices, uvs, f, out)?;
    out.push(b'\n')?;
    Ok(())
}

// The material and the smoothing group of a face.
fn face_numbers<S: Shape>(shape: &S, f: FaceName) -> (i64, i64)
    requires fixed { BeginsFixed (S.complex shape.now) }
    requires there { IsThere (S.complex shape.now).faces f.0 }
    ensures { option_map (numbers_of (S.complex shape.now)) (at (S.complex shape.now).faces f.0) ≡ Some result }
{
    let material = shape.face_value(f, 0);
    let smooth = shape.face_value(f, 1);
    (material, smooth)
}

// Appends the lines of what stands at a face's name, and answers the numbers of the last face then.
fn push_entry<S: Shape>(
    alloc: Global,
    shape: &S,
    indices: &[u32],
    uvs: &Places,
    f: FaceName,
    before: (i64, i64),
    out: &mut Vec<u8>,
) -> Result<(i64, i64), NoMemory>
    requires linked { IsLinked (S.complex shape.now) }
    requires fixed { BeginsFixed (S.complex shape.now) }
    requires indices { AreIndices (S.complex shape.now) indices.now }
    requires places { uvs.now ≡ places (S.complex shape.now) }
    ensures lines { OnOk result (out.new.items
        ≡ out.old.items ++ entry_text (S.complex shape.now) before (at (S.complex shape.now).faces f.0)) }
    ensures numbers { IfOk result (λ n. n ≡ entry_numbers (S.complex shape.now) before
        (at (S.complex shape.now).faces f.0)) }
{
    if !shape.has(Elem::Face(f)) {
        return Ok(before);
    }
    let now = face_numbers(shape, f);
    let set = set_lines(alloc, shape, before, now)?;
    out.extend_from_slice(&set)?;
    push_face(alloc, shape, indices, uvs, f, out)?;
    Ok(now)
}

/// Appends the lines of each face, by rising name: what differs from the face before is set, and then `f` and its
/// corners.
pub fn push_faces<S: Shape>(
    alloc: Global,
    shape: &S,
    indices: &[u32],
    uvs: &Places,
    out: &mut Vec<u8>,
) -> Result<(), NoMemory>
    requires linked { IsLinked (S.complex shape.now) }
    requires fixed { BeginsFixed (S.complex shape.now) }
    requires indices { AreIndices (S.complex shape.now) indices.now }
    requires places { uvs.now ≡ places (S.complex shape.now) }
    ensures { OnOk result (out.new.items ≡ out.old.items ++ face_texts (S.complex shape.now)) }
{
    let mut before = (0, 0);
    for n in 0..shape.counters().faces {
        before = push_entry(alloc, shape, indices, uvs, FaceName(n), before, out)?;
    }
    Ok(())
}
