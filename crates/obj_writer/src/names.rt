//! Lines with names.
ghost use Rattle.std.specs.Prelude.{◌≡◌, ◌++◌, codes, IfOk, OnOk};
ghost use Rattle.mesh_model.specs.Complex.{Complex};
ghost use Rattle.obj_writer.specs.Whole.{name_line, material_line, material_set, smooth_set, set_lines, library_lines};

use crate::numbers::push_grid_number;
use mesh_model::{NoMemory, Shape};
use std::alloc::Global;

// A line of a word and a name.
fn name_line(alloc: Global, word: &[u8], name: &[u8]) -> Result<Vec<u8>, NoMemory>
    ensures { IfOk result (λ v. v.items ≡ name_line word.now name.now) }
{
    let mut line = word.to_vec(alloc)?;
    line.push(b' ')?;
    line.extend_from_slice(name)?;
    line.push(b'\n')?;
    Ok(line)
}

// The line that sets a material, by its number from 1; 0 sets none.
fn material_line<S: Shape>(alloc: Global, shape: &S, n: i64) -> Result<Vec<u8>, NoMemory>
    ensures { IfOk result (λ v. v.items ≡ material_line (S.complex shape.now).materials n) }
{
    if n < 0 {
        return Ok(Vec::new(alloc));
    }
    let number = n.unsigned_abs() as usize;
    if number == 0 {
        return b"usemtl\n".to_vec(alloc);
    }
    match shape.material(number - 1) {
        Some(name) => name_line(alloc, b"usemtl", name),
        None => name_line(alloc, b"usemtl", b""),
    }
}

// The line that sets a material, unless it is that of the face before.
fn material_set<S: Shape>(
    alloc: Global,
    shape: &S,
    before: i64,
    now: i64,
) -> Result<Vec<u8>, NoMemory>
    ensures { IfOk result (λ v. v.items ≡ material_set (S.complex shape.now).materials before now) }
{
    if before == now {
        return Ok(Vec::new(alloc));
    }
    material_line(alloc, shape, now)
}

// Appends the line that sets a smoothing group, unless it is that of the face before.
fn push_smooth(out: &mut Vec<u8>, before: i64, now: i64) -> Result<(), NoMemory>
    ensures { OnOk result (out.new.items ≡ out.old.items ++ smooth_set before now) }
{
    if before == now {
        return Ok(());
    }
    out.extend_from_slice(b"s ")?;
    push_grid_number(out, 0, now)?;
    out.push(b'\n')?;
    Ok(())
}

/// The lines that set the material and the smoothing group of a face, as far as they differ from those of the face
/// before.
pub fn set_lines<S: Shape>(
    alloc: Global,
    shape: &S,
    before: (i64, i64),
    now: (i64, i64),
) -> Result<Vec<u8>, NoMemory>
    ensures { IfOk result (λ v. v.items ≡ set_lines (S.complex shape.now).materials before now) }
{
    let mut out = material_set(alloc, shape, before.0, now.0)?;
    push_smooth(&mut out, before.1, now.1)?;
    Ok(out)
}

/// A line `mtllib NAME` for each library, in order.
pub fn library_lines<S: Shape>(alloc: Global, shape: &S) -> Result<Vec<u8>, NoMemory>
    ensures { IfOk result (λ v. v.items ≡ library_lines (S.complex shape.now)) }
{
    let mut out = Vec::new(alloc);
    for k in 0..usize::MAX {
        match shape.library(k) {
            Some(name) => {
                let line = name_line(alloc, b"mtllib", name)?;
                out.extend_from_slice(&line)?;
            }
            None => return Ok(out),
        }
    }
    Err(NoMemory)
}
