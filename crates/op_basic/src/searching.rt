//! What the conditions of making a face look for.
ghost use Rattle.std.specs.Prelude.{◌≡◌, ◌==◌, ◌<◌, length, map, Some, true, IsTrue, IfOk};
ghost use Rattle.std.specs.Ordering.{nat_cmp};
ghost use Rattle.std.specs.List.{list_any};
ghost use Rattle.std.specs.List.Sorted.{IsPermutation, IsSorted};
ghost use Rattle.mesh_model.specs.Complex.{corners_of, verts_of};
ghost use Rattle.mesh_model.specs.Lookups.{least_face};
ghost use Rattle.mesh_model.specs.Naming.{is_rising, vert_numbers};
ghost use Rattle.mesh_model.specs.Table.{at, IsThere, passes};
ghost use Rattle.mesh_model.specs.Valid.{IsValid};
ghost use Rattle.mesh_core.specs.Seen.{now};
ghost use Rattle.op_basic.specs.Making.{has_just};
ghost use Rattle.op_basic.specs.Searching.{is_doubled, first_double, lesser, lesser_if};

use mesh_core::{EdgeName, FaceName, Mesh, NoMemory, VertName};
use mesh_passes::{corners_of, numbers_of_verts, risen};
use std::alloc::Global;

/// The numbers of some vertices, sorted, in time k log k for k vertices.
pub(crate) fn sorted_numbers(alloc: Global, verts: &[VertName]) -> Result<Vec<u32>, NoMemory>
    ensures same { IfOk result (λ ns. IsPermutation (vert_numbers verts.now) ns.items) }
    ensures sorted { IfOk result (λ ns. IsSorted nat_cmp ns.items) }
{
    let mut numbers = numbers_of_verts(alloc, verts)?;
    numbers.sort_unstable();
    Ok(numbers)
}

/// The first of some numbers that is equal to the one after it.
pub(crate) fn first_double(numbers: &[u32]) -> Option<u32>
    ensures { result ≡ first_double numbers.now }
{
    for k in 0..numbers.len() {
        if is_doubled(numbers, k) {
            return Some(numbers[k]);
        }
    }
    None
}

// Whether a number is equal to the one after it.
fn is_doubled(numbers: &[u32], k: usize) -> bool
    requires { k < length numbers.now }
    ensures { result ≡ is_doubled numbers.now k }
{
    k + 1 < numbers.len() && numbers[k] == numbers[k + 1]
}

/// The least face that has just the vertices of some rising numbers. It looks at the faces of one of them, in time
/// k log k for the k corners of these.
pub(crate) fn face_on(
    alloc: Global,
    mesh: &Mesh,
    v: VertName,
    numbers: &[u32],
) -> Result<Option<FaceName>, NoMemory>
    requires valid { IsValid (now mesh.now) }
    requires live { IsThere (now mesh.now).verts v.0 }
    requires among { list_any (λ m. m == v.0) numbers.now ≡ true }
    requires rising { IsTrue (is_rising numbers.now) }
    ensures { IfOk result (λ f. f
        ≡ least_face (has_just (map (λ n. record { 0 = n }) numbers.now)) (now mesh.now)) }
{
    let mut least = None;
    for f in mesh.faces_of_vert(v) {
        least = least_with(alloc, mesh, numbers, least, f)?;
    }
    Ok(least)
}

// The lesser of a face that may have been found and another one, if that has just the vertices of some rising numbers.
fn least_with(
    alloc: Global,
    mesh: &Mesh,
    numbers: &[u32],
    least: Option<FaceName>,
    f: FaceName,
) -> Result<Option<FaceName>, NoMemory>
    requires there { IsThere (now mesh.now).faces f.0 }
    requires rising { IsTrue (is_rising numbers.now) }
    ensures { IfOk result (λ r. r ≡ lesser_if
        (passes (has_just (map (λ n. record { 0 = n }) numbers.now)) (at (now mesh.now).faces f.0)) least f) }
{
    if has_just(alloc, mesh, numbers, f)? {
        Ok(Some(lesser(least, f)))
    } else {
        Ok(least)
    }
}

// The lesser of a face that may have been found and another one.
fn lesser(least: Option<FaceName>, f: FaceName) -> FaceName
    ensures { Some result ≡ lesser least f }
{
    match least {
        None => f,
        Some(g) => { if f.0 < g.0 { f } else { g } }
    }
}

// Whether a live face has just the vertices of some rising numbers.
fn has_just(alloc: Global, mesh: &Mesh, numbers: &[u32], f: FaceName) -> Result<bool, NoMemory>
    requires there { IsThere (now mesh.now).faces f.0 }
    requires rising { IsTrue (is_rising numbers.now) }
    ensures { IfOk result (λ b. b
        ≡ passes (has_just (map (λ n. record { 0 = n }) numbers.now)) (at (now mesh.now).faces f.0)) }
{
    let own = numbers_of_face(alloc, mesh, f)?;
    let own = risen(own);
    Ok(numbers == own.as_slice())
}

// The numbers of a live face's vertices, in order.
fn numbers_of_face(alloc: Global, mesh: &Mesh, f: FaceName) -> Result<Vec<u32>, NoMemory>
    requires { IsThere (now mesh.now).faces f.0 }
    ensures { IfOk result (λ ns. ns.items ≡ vert_numbers (verts_of (corners_of (at (now mesh.now).faces f.0)))) }
{
    let corners = corners_of(alloc, mesh, f)?;
    let numbers = numbers_along(alloc, &corners)?;
    Ok(numbers)
}

// The numbers of the vertices of some corners, in order.
fn numbers_along(alloc: Global, corners: &[(VertName, EdgeName)]) -> Result<Vec<u32>, NoMemory>
    ensures { IfOk result (λ ns. ns.items ≡ map (λ k. k.0.0) corners.now) }
{
    corners.iter().map(|k| k.0.0).collect(alloc)
}
