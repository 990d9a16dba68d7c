//! make_face.
ghost use Rattle.std.specs.Prelude.{◌≡◌, ◌==◌, ◌+◌, ◌^◌, ◌<◌, ◌≤◌, ◌∷◌, [], ℕ, length, None, IsTrue, IfOk, OnOk};
ghost use Rattle.std.specs.List.{All, list_any, range_with_len};
ghost use Rattle.std.specs.Option.{option_map};
ghost use Rattle.mesh_model.specs.Closure.{new_between};
ghost use Rattle.mesh_model.specs.Incidence.{sides};
ghost use Rattle.mesh_model.specs.Lookups.{least_face};
ghost use Rattle.mesh_model.specs.Naming.{is_rising, vert_numbers};
ghost use Rattle.mesh_model.specs.Refusals.{first_of, refused_at, unless_too_many};
ghost use Rattle.mesh_model.specs.Table.{IsThere};
ghost use Rattle.mesh_model.specs.Valid.{IsValid, are_distinct};
ghost use Rattle.mesh_model.specs.declared.limits.TheConstants.{MAX_SIDES};
ghost use Rattle.mesh_model.specs.declared.names.Elem.TheVariants.{Vert, Face};
ghost use Rattle.mesh_model.specs.declared.refusal.Why.TheVariants.{Repeated, Exists};
ghost use Rattle.mesh_core.specs.Seen.{now};
ghost use Rattle.mesh_passes.specs.Answer.{IsReady, Meets};
ghost use Rattle.op_basic.specs.Making.{has_just, least_repeated, with_face_on};
ghost use Rattle.op_basic.specs.Making.{make_face_refusal, make_face_row};
ghost use Rattle.op_basic.specs.Searching.{missing, edges_and_face};

use crate::searching::{face_on, first_double, sorted_numbers};
use crate::siding::{count_missing, make_sides};
use mesh_core::{Elem, FaceName, Mesh, NoMemory, Shape, VertName};
use mesh_model::limits::{MAX_SIDES, MIN_SIDES};
use mesh_model::{Counters, Place, Refusal, Why};
use mesh_passes::{Operator, edges_named, only, run, unless_too_many};
use op_slots::{Buffer, Fault, Names, Slots};
use sequence::Sequence;
use std::alloc::Global;

/// The arguments of `make_face`.
#[derive(Debug, Drop)]
pub struct MakeFaceArgs {
    /// The vertices, in order round the face.
    pub verts: Names,
}

/// Makes a face on some vertices and the edges that it lacks, each from a corner to the next, all with values 0. It is
/// refused with `TooShort` below 3 vertices and with `TooLong` above 4,096, with `Repeated` at the least vertex that
/// stands twice, with `Exists` at the least face that has the same vertices, and with `TooMany` where a limit would be
/// passed. It gives the new edges and the face back.
///
/// The mesh is between two commands, and the vertices are live. It takes time k log k for the k vertices and corners of
/// faces at the first vertex, and time that grows with the edges around the vertices.
pub fn make_face(alloc: Global, mesh: &mut Mesh, args: &MakeFaceArgs) -> Result<Slots, Fault>
    requires ready { IsReady mesh.old }
    requires live { All (λ v. IsThere (now mesh.old).verts v.0) args.now.verts }
    ensures { Meets (make_face_row args.now.verts (now mesh.old)) mesh.old mesh.new result }
{
    run(alloc, mesh, args)
}

impl Operator for MakeFaceArgs {
    ghost use Rattle.std.specs.List.{All};
    ghost use Rattle.mesh_model.specs.Table.{IsThere};
    ghost use Rattle.op_basic.specs.Making.{make_face_refusal, make_face_result};

    ghost fits = { λ a c. All (λ v. IsThere c.verts v.0) a.verts };

    ghost refusal = { λ a c. make_face_refusal a.verts c };

    ghost outcome = { λ a c. make_face_result a.verts c };

    fn check(&self, alloc: Global, mesh: &Mesh) -> Result<Option<Refusal>, NoMemory> {
        let refusal = refused_on(alloc, mesh, self.verts.as_slice())?;
        Ok(refusal)
    }

    fn change(&self, alloc: Global, mesh: &mut Mesh) -> Result<Slots, NoMemory> {
        let geom = make_on(alloc, mesh, self.verts.as_slice())?;
        Ok(only(alloc, geom))
    }
}

// Makes the face and the edges that it lacks, and gives them. All room is made before the first of them.
fn make_on(alloc: Global, mesh: &mut Mesh, verts: &[VertName]) -> Result<Buffer, NoMemory>
    requires valid { IsValid (now mesh.old) }
    requires live { All (λ v. IsThere (now mesh.old).verts v.0) verts.now }
    requires may { make_face_refusal verts.now (now mesh.old) ≡ None }
    ensures now { OnOk result (now mesh.new ≡ with_face_on (now mesh.old) verts.now) }
    ensures new { IfOk result (λ x. x ≡ new_between (now mesh.old) (with_face_on (now mesh.old) verts.now)) }
    ensures base { mesh.new.base ≡ mesh.old.base }
{
    let geom = new_names(alloc, mesh, verts)?;
    reserve_for(mesh, verts.len())?;
    make_polygon(alloc, mesh, verts)?;
    Ok(geom)
}

// Makes room for a face with so many corners and as many edges.
fn reserve_for(mesh: &mut Mesh, count: usize) -> Result<(), NoMemory>
    requires { count ≤ MAX_SIDES }
    ensures now { now mesh.new ≡ now mesh.old }
    ensures base { mesh.new.base ≡ mesh.old.base }
{
    mesh.reserve(0, count, count, 1)?;
    mesh.reserve_notes(0, count, 0, 1)?;
    Ok(())
}

// Makes the face and the edges that it lacks. After `NoMemory` some of the edges may be made.
fn make_polygon(alloc: Global, mesh: &mut Mesh, verts: &[VertName]) -> Result<(), NoMemory>
    requires live { All (λ v. IsThere (now mesh.old).verts v.0) verts.now }
    requires may { make_face_refusal verts.now (now mesh.old) ≡ None }
    ensures now { OnOk result (now mesh.new ≡ with_face_on (now mesh.old) verts.now) }
    ensures base { mesh.new.base ≡ mesh.old.base }
{
    let mut corners = Vec::with_capacity(alloc, verts.len())?;
    make_sides(mesh, verts, &mut corners)?;
    mesh.make_face(&corners, None)?;
    Ok(())
}

// Why no face is made on the vertices of a list.
fn refused_on(alloc: Global, mesh: &Mesh, verts: &[VertName]) -> Result<Option<Refusal>, NoMemory>
    requires valid { IsValid (now mesh.now) }
    requires live { All (λ v. IsThere (now mesh.now).verts v.0) verts.now }
    ensures { IfOk result (λ r. r ≡ make_face_refusal verts.now (now mesh.now)) }
{
    if verts.len() < MIN_SIDES as usize {
        return Ok(Some(Refusal {
            why: Why::TooShort,
            place: Place::Nowhere,
        }));
    }
    if verts.len() > MAX_SIDES as usize {
        return Ok(Some(Refusal {
            why: Why::TooLong,
            place: Place::Nowhere,
        }));
    }
    let refusal = refused_twice(alloc, mesh, verts)?;
    Ok(refusal)
}

// Refused where a vertex stands twice, or else by the conditions that follow.
fn refused_twice(
    alloc: Global,
    mesh: &Mesh,
    verts: &[VertName],
) -> Result<Option<Refusal>, NoMemory>
    requires valid { IsValid (now mesh.now) }
    requires live { All (λ v. IsThere (now mesh.now).verts v.0) verts.now }
    requires least { 3 ≤ length verts.now }
    requires most { length verts.now ≤ MAX_SIDES }
    ensures { IfOk result (λ r. r ≡ first_of (
        refused_at Repeated (option_map Vert (least_repeated (now mesh.now) verts.now))
        ∷ refused_at Exists (option_map Face (least_face (has_just verts.now) (now mesh.now)))
        ∷ unless_too_many (with_face_on (now mesh.now) verts.now)
        ∷ [])) }
{
    let numbers = sorted_numbers(alloc, verts)?;
    match first_double(&numbers) {
        Some(n) => Ok(Some(Refusal {
            why: Why::Repeated,
            place: Place::Elem(Elem::Vert(VertName(n))),
        })),
        None => {
            let refusal = refused_again(alloc, mesh, verts, &numbers)?;
            Ok(refusal)
        }
    }
}

// Refused where a face has the same vertices, or else where a limit would be passed.
fn refused_again(
    alloc: Global,
    mesh: &Mesh,
    verts: &[VertName],
    numbers: &[u32],
) -> Result<Option<Refusal>, NoMemory>
    requires valid { IsValid (now mesh.now) }
    requires live { All (λ v. IsThere (now mesh.now).verts v.0) verts.now }
    requires least { 3 ≤ length verts.now }
    requires most { length verts.now ≤ MAX_SIDES }
    requires distinct { IsTrue (are_distinct verts.now) }
    requires rising { IsTrue (is_rising numbers.now) }
    requires alike { (n : ℕ) → list_any (λ m. m == n) numbers.now ≡ list_any (λ m. m == n) (vert_numbers verts.now) }
    ensures { IfOk result (λ r. r ≡ first_of (
        refused_at Exists (option_map Face (least_face (has_just verts.now) (now mesh.now)))
        ∷ unless_too_many (with_face_on (now mesh.now) verts.now)
        ∷ [])) }
{
    match face_on(alloc, mesh, verts[0], numbers)? {
        Some(f) => Ok(Some(Refusal {
            why: Why::Exists,
            place: Place::Elem(Elem::Face(f)),
        })),
        None => Ok(unless_many(mesh, verts)),
    }
}

// Refused where a limit would be passed.
fn unless_many(mesh: &Mesh, verts: &[VertName]) -> Option<Refusal>
    requires valid { IsValid (now mesh.now) }
    requires live { All (λ v. IsThere (now mesh.now).verts v.0) verts.now }
    requires least { 3 ≤ length verts.now }
    requires most { length verts.now ≤ MAX_SIDES }
    requires distinct { IsTrue (are_distinct verts.now) }
    ensures { result ≡ unless_too_many (with_face_on (now mesh.now) verts.now) }
{
    let before = mesh.counters();
    let missing = count_missing(mesh, verts);
    let edges = before.edges + missing;
    let faces = before.faces + 1;
    let corners = before.corners + verts.len() as u32;
    unless_too_many(Counters {
        verts: before.verts,
        edges,
        faces,
        corners,
    })
}

// The names of the edges that a face will lack, and of the face.
fn new_names(alloc: Global, mesh: &Mesh, verts: &[VertName]) -> Result<Buffer, NoMemory>
    requires valid { IsValid (now mesh.now) }
    requires live { All (λ v. IsThere (now mesh.now).verts v.0) verts.now }
    requires most { length verts.now ≤ MAX_SIDES }
    ensures { IfOk result (λ x. x ≡ edges_and_face (now mesh.now) (missing (now mesh.now) (sides verts.now))) }
{
    let before = mesh.counters();
    let count = count_missing(mesh, verts);
    let numbers = numbers_from(alloc, before.edges, count)?;
    let edges = edges_named(alloc, &numbers)?;
    let faces = vec![in alloc; FaceName(before.faces)]?;
    Ok(Buffer::of(
        Sequence::new(alloc),
        Sequence::from(edges),
        Sequence::from(faces),
    ))
}

// So many numbers from one on.
fn numbers_from(alloc: Global, first: u32, count: u32) -> Result<Vec<u32>, NoMemory>
    requires { first + count < 2 ^ 32 }
    ensures { IfOk result (λ ns. ns.items ≡ range_with_len first count) }
{
    let mut numbers = Vec::with_capacity(alloc, count as usize)?;
    for i in 0..count {
        numbers.push(first + i)?;
    }
    Ok(numbers)
}
