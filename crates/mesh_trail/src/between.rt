//! The past from one shape to another.

ghost use Rattle.std.specs.Prelude.{◌≡◌, ◌≤◌, IfOk, OnOk};
ghost use Rattle.mesh_model.specs.Complex.{no_complex};
ghost use Rattle.mesh_model.specs.ChangeSet.{change_set, same_vert, same_edge, same_face};
ghost use Rattle.mesh_model.specs.ChangeSetNotes.{notes_between};
ghost use Rattle.mesh_model.specs.Table.{at};
ghost use Rattle.std.specs.FinMap.{empty};
ghost use Rattle.std.specs.Prelude.{[]};
ghost use Rattle.mesh_trail.specs.Pasts.{widths_of};
ghost use Rattle.mesh_trail.specs.Between.{StaysAt, NotesVerts, NotesEdges, NotesFaces, with_new};

use crate::past::Past;
use mesh_model::{Draft, EdgeName, Elem, FaceName, NoMemory, Shape, VertName};
use std::alloc::Global;

impl Past {
    /// The change set that leads from a shape back to an earlier one whose rows of values are as wide: a note for
    /// exactly each element whose records differ, or that stands in one of the two only. It takes at most 33 steps for
    /// each name of either, beside the values and corners, and on the way as much memory as notes of the whole
    /// earlier shape need; what is handed out has no more than its notes need.
    pub fn between<B: Shape, A: Shape>(
        alloc: Global,
        before: &B,
        after: &A,
    ) -> Result<Past, NoMemory>
        requires { widths_of (B.complex before.now) ≡ widths_of (A.complex after.now) }
        ensures changes { IfOk result (λ p. p.changes ≡ change_set (B.complex before.now) (A.complex after.now)) }
        ensures widths { IfOk result (λ p. p.widths ≡ widths_of (B.complex before.now)) }
    {
        let was = before.counters();
        let is = after.counters();
        let mut past = Past::new(alloc, before);
        note_verts(&mut past, before, greater(was.verts, is.verts))?;
        note_edges(&mut past, before, greater(was.edges, is.edges))?;
        note_faces(&mut past, before, greater(was.faces, is.faces))?;
        past.trim(after);
        let made = past.copy()?;
        Ok(made)
    }

    /// The change set that leads from a shape back to nothing: a note for exactly each element that it wasn't there.
    /// It takes at most 33 steps for each name.
    pub fn from_nothing<S: Shape>(alloc: Global, now: &S) -> Result<Past, NoMemory>
        ensures changes { IfOk result (λ p. p.changes ≡ change_set no_complex (S.complex now.now)) }
        ensures widths { IfOk result (λ p. p.widths ≡ widths_of no_complex) }
    {
        let nothing = Draft::bare(alloc);
        let mut past = Past::new(alloc, &nothing);
        note_new_verts(&mut past, &nothing, now)?;
        note_new_edges(&mut past, &nothing, now)?;
        note_new_faces(&mut past, &nothing, now)?;
        Ok(past)
    }
}

// The greater of two numbers.
fn greater(a: u32, b: u32) -> u32
    ensures a { a ≤ result }
    ensures b { b ≤ result }
{
    if a < b { b } else { a }
}

// Notes what stands at each name of a vertex below a bound.
fn note_verts<S: Shape>(past: &mut Past, shape: &S, bound: u32) -> Result<(), NoMemory>
    requires wide { past.old.widths ≡ widths_of (S.complex shape.now) }
    requires stays { StaysAt past.old.changes (S.complex shape.now) }
    ensures ok { OnOk result (NotesVerts past.old.changes past.new.changes (S.complex shape.now) bound) }
    ensures widths { past.new.widths ≡ past.old.widths }
{
    for n in 0..bound {
        past.note_vert(VertName(n), shape)?;
    }
    Ok(())
}

// The same of edges.
fn note_edges<S: Shape>(past: &mut Past, shape: &S, bound: u32) -> Result<(), NoMemory>
    requires wide { past.old.widths ≡ widths_of (S.complex shape.now) }
    requires stays { StaysAt past.old.changes (S.complex shape.now) }
    ensures ok { OnOk result (NotesEdges past.old.changes past.new.changes (S.complex shape.now) bound) }
    ensures widths { past.new.widths ≡ past.old.widths }
{
    for n in 0..bound {
        past.note_edge(EdgeName(n), shape)?;
    }
    Ok(())
}

// The same of faces.
fn note_faces<S: Shape>(past: &mut Past, shape: &S, bound: u32) -> Result<(), NoMemory>
    requires wide { past.old.widths ≡ widths_of (S.complex shape.now) }
    requires stays { StaysAt past.old.changes (S.complex shape.now) }
    ensures ok { OnOk result (NotesFaces past.old.changes past.new.changes (S.complex shape.now) bound) }
    ensures widths { past.new.widths ≡ past.old.widths }
{
    for n in 0..bound {
        past.note_face(FaceName(n), shape)?;
    }
    Ok(())
}

// Notes of each vertex that it wasn't there.
fn note_new_verts<S: Shape>(past: &mut Past, nothing: &Draft, now: &S) -> Result<(), NoMemory>
    requires wide { past.old.widths ≡ widths_of no_complex }
    requires nothing { nothing.now ≡ no_complex }
    requires first { past.old.changes.verts ≡ empty }
    ensures ok { OnOk result (past.new.changes
        ≡ record past.old.changes { verts = notes_between same_vert [] (S.complex now.now).verts }) }
    ensures widths { past.new.widths ≡ past.old.widths }
{
    let next = now.counters();
    for n in 0..next.verts {
        note_new_vert(past, nothing, now, VertName(n))?;
    }
    Ok(())
}

// The same of edges.
fn note_new_edges<S: Shape>(past: &mut Past, nothing: &Draft, now: &S) -> Result<(), NoMemory>
    requires wide { past.old.widths ≡ widths_of no_complex }
    requires nothing { nothing.now ≡ no_complex }
    requires first { past.old.changes.edges ≡ empty }
    ensures ok { OnOk result (past.new.changes
        ≡ record past.old.changes { edges = notes_between same_edge [] (S.complex now.now).edges }) }
    ensures widths { past.new.widths ≡ past.old.widths }
{
    let next = now.counters();
    for n in 0..next.edges {
        note_new_edge(past, nothing, now, EdgeName(n))?;
    }
    Ok(())
}

// The same of faces.
fn note_new_faces<S: Shape>(past: &mut Past, nothing: &Draft, now: &S) -> Result<(), NoMemory>
    requires wide { past.old.widths ≡ widths_of no_complex }
    requires nothing { nothing.now ≡ no_complex }
    requires first { past.old.changes.faces ≡ empty }
    ensures ok { OnOk result (past.new.changes
        ≡ record past.old.changes { faces = notes_between same_face [] (S.complex now.now).faces }) }
    ensures widths { past.new.widths ≡ past.old.widths }
{
    let next = now.counters();
    for n in 0..next.faces {
        note_new_face(past, nothing, now, FaceName(n))?;
    }
    Ok(())
}

// Notes of a vertex that it wasn't there, if it is there now.
fn note_new_vert<S: Shape>(
    past: &mut Past,
    nothing: &Draft,
    now: &S,
    name: VertName,
) -> Result<(), NoMemory>
    requires wide { past.old.widths ≡ widths_of no_complex }
    requires nothing { nothing.now ≡ no_complex }
    ensures ok { OnOk result (past.new.changes ≡ record past.old.changes {
      verts = with_new past.old.changes.verts name.0 (at (S.complex now.now).verts name.0);
    }) }
    ensures widths { past.new.widths ≡ past.old.widths }
{
    if !now.has(Elem::Vert(name)) {
        return Ok(());
    }
    past.note_vert(name, nothing)
}

// Notes of an edge that it wasn't there, if it is there now.
fn note_new_edge<S: Shape>(
    past: &mut Past,
    nothing: &Draft,
    now: &S,
    name: EdgeName,
) -> Result<(), NoMemory>
    requires wide { past.old.widths ≡ widths_of no_complex }
    requires nothing { nothing.now ≡ no_complex }
    ensures ok { OnOk result (past.new.changes ≡ record past.old.changes {
      edges = with_new past.old.changes.edges name.0 (at (S.complex now.now).edges name.0);
    }) }
    ensures widths { past.new.widths ≡ past.old.widths }
{
    if !now.has(Elem::Edge(name)) {
        return Ok(());
    }
    past.note_edge(name, nothing)
}

// Notes of a face that it wasn't there, if it is there now.
fn note_new_face<S: Shape>(
    past: &mut Past,
    nothing: &Draft,
    now: &S,
    name: FaceName,
) -> Result<(), NoMemory>
    requires wide { past.old.widths ≡ widths_of no_complex }
    requires nothing { nothing.now ≡ no_complex }
    ensures ok { OnOk result (past.new.changes ≡ record past.old.changes {
      faces = with_new past.old.changes.faces name.0 (at (S.complex now.now).faces name.0);
    }) }
    ensures widths { past.new.widths ≡ past.old.widths }
{
    if !now.has(Elem::Face(name)) {
        return Ok(());
    }
    past.note_face(name, nothing)
}
