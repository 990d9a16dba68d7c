//! The places in the texture.
ghost use Rattle.std.specs.Prelude.{◌≡◌, ◌<◌, ◌+◌, ◌++◌, length, map, IfOk, OnOk};
ghost use Rattle.std.specs.List.{flat_map, list_all};
ghost use Rattle.indexmap.specs.IndexSet.{insert_all};
ghost use Rattle.mesh_model.specs.Complex.{Complex, corners_of};
ghost use Rattle.mesh_model.specs.Table.{at, IsThere};
ghost use Rattle.mesh_model.specs.Valid.{IsLinked};
ghost use Rattle.obj_format.specs.Fixed.{BeginsFixed};
ghost use Rattle.obj_writer.specs.Whole.{origin, place_in, same_uv, uv_of, places, has_places};
ghost use Rattle.obj_writer.specs.Whole.{place_line, place_lines, place_number};

use crate::numbers::push_grid_number;
use indexmap::IndexSet;
use mesh_model::{Elem, FaceName, Kind, NoMemory, Shape};
use obj_format::Uv;
use std::alloc::Global;
use std::marker::Model;

// The rows of values of a face's corners, one behind another.
fn corner_rows<S: Shape>(alloc: Global, shape: &S, f: FaceName) -> Result<Vec<i64>, NoMemory>
    requires linked { IsLinked (S.complex shape.now) }
    requires there { IsThere (S.complex shape.now).faces f.0 }
    ensures { IfOk result (λ v. v.items ≡ flat_map (λ k. k.vals) (corners_of (at (S.complex shape.now).faces f.0))) }
{
    let count = shape.corner_count(f) as usize;
    let mut rows = Vec::new(alloc);
    rows.resize(count * shape.width(Kind::Corners), 0)?;
    shape.corner_rows(f, &mut rows);
    Ok(rows)
}

// The place that two numbers tell.
fn place_at(numbers: &[i64], start: usize) -> Uv
    requires { start + 1 < length numbers.now }
    ensures { result ≡ place_in start numbers.now }
{
    let u = numbers[start];
    let v = numbers[start + 1];
    Uv { u, v }
}

/// Where the corners of a face lie in the texture, in order.
pub fn face_places<S: Shape>(alloc: Global, shape: &S, f: FaceName) -> Result<Vec<Uv>, NoMemory>
    requires linked { IsLinked (S.complex shape.now) }
    requires there { IsThere (S.complex shape.now).faces f.0 }
    requires fixed { BeginsFixed (S.complex shape.now) }
    ensures { IfOk result (λ v. v.items ≡ map (uv_of (S.complex shape.now))
        (corners_of (at (S.complex shape.now).faces f.0))) }
{
    let numbers = corner_rows(alloc, shape, f)?;
    let rows = numbers.as_slice();
    let width = shape.width(Kind::Corners);
    let mut uvs = Vec::new(alloc);
    for i in 0..shape.corner_count(f) as usize {
        let start = i * width;
        let place = place_at(rows, start);
        uvs.push(place)?;
    }
    Ok(uvs)
}

// Adds what is new among some places.
fn add_places(found: &mut IndexSet<Uv>, uvs: &[Uv]) -> Result<(), NoMemory>
    ensures { OnOk result (found.new.keys ≡ insert_all same_uv found.old.keys uvs.now) }
{
    for uv in uvs {
        found.insert(*uv)?;
    }
    Ok(())
}

// Adds what is new among the places of what stands at a face's name.
fn add_entry<S: Shape>(
    alloc: Global,
    shape: &S,
    f: FaceName,
    found: &mut IndexSet<Uv>,
) -> Result<(), NoMemory>
    requires linked { IsLinked (S.complex shape.now) }
    requires fixed { BeginsFixed (S.complex shape.now) }
    ensures { OnOk result (found.new.keys
        ≡ insert_all same_uv found.old.keys
        (map (uv_of (S.complex shape.now)) (corners_of (at (S.complex shape.now).faces f.0)))) }
{
    if !shape.has(Elem::Face(f)) {
        return Ok(());
    }
    let uvs = face_places(alloc, shape, f)?;
    add_places(found, &uvs)
}

// The places of all corners, each once, in order of first use.
fn found_places<S: Shape>(alloc: Global, shape: &S) -> Result<IndexSet<Uv>, NoMemory>
    requires linked { IsLinked (S.complex shape.now) }
    requires fixed { BeginsFixed (S.complex shape.now) }
    ensures { IfOk result (λ s. s.keys ≡ places (S.complex shape.now)) }
{
    let mut found = IndexSet::new(alloc);
    for n in 0..shape.counters().faces {
        add_entry(alloc, shape, FaceName(n), &mut found)?;
    }
    Ok(found)
}

fn is_origin(uv: Uv) -> bool
    ensures { result ≡ same_uv origin uv }
{
    0 == uv.u && 0 == uv.v
}

fn all_origin(uvs: &[Uv]) -> bool
    ensures { result ≡ list_all (same_uv origin) uvs.now }
{
    uvs.iter().all(|uv| is_origin(*uv))
}

fn has_places(uvs: &[Uv]) -> bool
    ensures { result ≡ has_places uvs.now }
{
    !all_origin(uvs)
}

fn push_place(out: &mut Vec<u8>, uv: Uv) -> Result<(), NoMemory>
    ensures { OnOk result (out.new.items ≡ out.old.items ++ place_line uv) }
{
    out.extend_from_slice(b"vt ")?;
    push_grid_number(out, 6, uv.u)?;
    out.push(b' ')?;
    push_grid_number(out, 6, uv.v)?;
    out.push(b'\n')?;
    Ok(())
}

fn push_all(out: &mut Vec<u8>, uvs: &[Uv]) -> Result<(), NoMemory>
    ensures { OnOk result (out.new.items ≡ out.old.items ++ flat_map place_line uvs.now) }
{
    for uv in uvs {
        push_place(out, *uv)?;
    }
    Ok(())
}

/// The distinct places of all corners of a complex, in order of first use.
#[derive(Drop)]
pub struct Places {
    found: IndexSet<Uv>,
    // Whether one of them isn't 0 0.
    told: bool,
}

impl Model for Places {
    ghost use Rattle.std.specs.Prelude.{◌≡◌, List};
    ghost use Rattle.obj_format.specs.declared.texture.Uv.{Uv};
    ghost use Rattle.obj_writer.specs.Whole.{has_places};

    ghost Value = { List Uv };

    ghost view = { λ p. p.found.keys };

    ghost invariant = { λ p. p.told ≡ has_places p.found.keys };
}

impl Places {
    /// The places of a complex.
    pub fn of<S: Shape>(alloc: Global, shape: &S) -> Result<Places, NoMemory>
        requires linked { IsLinked (S.complex shape.now) }
        requires fixed { BeginsFixed (S.complex shape.now) }
        ensures { IfOk result (λ p. p ≡ places (S.complex shape.now)) }
    {
        let found = found_places(alloc, shape)?;
        let told = has_places(found.as_slice());
        Ok(Places { found, told })
    }

    /// Appends the lines of the places, or none where all are 0 0.
    pub fn push_lines(&self, out: &mut Vec<u8>) -> Result<(), NoMemory>
        ensures { OnOk result (out.new.items ≡ out.old.items ++ place_lines self.now) }
    {
        if !self.told {
            return Ok(());
        }
        push_all(out, self.found.as_slice())
    }

    /// The number of a place from 1, or None where all places are 0 0. Takes constant time as a rule.
    pub fn number(&self, uv: Uv) -> Option<usize>
        ensures { result ≡ place_number self.now uv }
    {
        if !self.told {
            return None;
        }
        let count = self.found.len();
        match self.found.get_index_of(&uv) {
            Some(n) => {
                prove!(n < count);
                Some(n + 1)
            }
            None => None,
        }
    }
}
