//! The faces of a past.

ghost use Rattle.std.specs.Prelude.{◌≡◌, ◌≤◌, ◌<◌, ◌+◌, ◌*◌, OnOk, OnErr, IsOk, IfOk, IsSome, IfSome, Some, None};
ghost use Rattle.std.specs.Prelude.{length, map, is_some, slice_get};
ghost use Rattle.std.specs.List.{flat_map};
ghost use Rattle.std.specs.FinMap.{get, insert, empty, len};
ghost use Rattle.std.specs.List.Sorted.{IsNonDecreasingBy};
ghost use Rattle.std.specs.Option.{option_map};
ghost use Rattle.mesh_model.specs.Table.{at};
ghost use Rattle.mesh_model.specs.Complex.{corners_of, width as width_of};
ghost use Rattle.mesh_model.specs.Valid.{IsLinked};
ghost use Rattle.mesh_model.specs.ChangeSet.{same_face};
ghost use Rattle.mesh_model.specs.ChangeSetNotes.{note_between, trimmed_notes};
ghost use Rattle.std.specs.Vec.{vec_len, vec_capacity};
ghost use Rattle.mesh_trail.specs.Noted.{noted, is_absent, map_notes};
ghost use Rattle.mesh_trail.specs.Kept.{face_in, face_of, AreWithin, AreSpans, AreKeptSpans, IsTrimmed};
ghost use Rattle.mesh_trail.specs.Tree.{IsLeast, IsTree, pairs, names_of};
ghost use Rattle.mesh_trail.specs.Wide.{EachNoted, IsFaceWide};

use crate::corners::CornerStore;
use crate::note_map::{Entry, NoteMap, entry_at, settle};
use crate::rows::{FaceRow, same_row};
use crate::table::{Kept, Table};
use mesh_model::{EdgeName, Elem, FaceName, Kind, NoMemory, Shape, VertName};
use std::alloc::Global;
use std::marker::Model;

// Where the corners of a noted face stand.
#[derive(Clone, Copy)]
pub(crate) struct Span {
    pub(crate) from: usize,
    pub(crate) count: u32,
}

// The noted faces, and their corners. Corners of notes that were taken away stay where they were, until a copy is
// made.
#[derive(Drop)]
pub(crate) struct FaceTable {
    spans: Table<Span>,
    corners: CornerStore,
}

impl Model for FaceTable {
    ghost use Rattle.std.specs.Prelude.{length};
    ghost use Rattle.mesh_trail.specs.Noted.{map_notes};
    ghost use Rattle.mesh_trail.specs.Kept.{KeptFaces, faces_code, face_of, AreSpans};

    ghost Value = { KeptFaces };

    ghost coded = { faces_code };

    ghost view = { λ t. record {
      names = map_notes (face_of t.corners.corners) t.spans.names;
      width = t.spans.width;
      corner_width = t.corners.width;
      room = t.spans.room;
      corner_room = t.corners.room;
    } };

    ghost invariant = { λ t. AreSpans (length t.corners.corners) t.corners.longest t.spans.names };
}

// Whether a noted record differs from what stands at its name now.
fn differs<S: Shape>(
    corners: &mut CornerStore,
    now: &S,
    name: u32,
    was: Option<Kept<Span>>,
    values: &[i64],
    width: usize,
) -> bool
    requires linked { IsLinked (S.complex now.now) }
    requires wide { width ≡ width_of (S.complex now.now) Kind.Faces }
    requires corners_wide { corners.old.width ≡ width_of (S.complex now.now) Kind.Corners }
    requires within { IfSome was (λ k. k.row + width ≤ length values.now) }
    requires stored { IfSome was (λ k. (k.body.from + k.body.count ≤ length corners.old.corners)
        × (k.body.count ≤ corners.old.longest)) }
    ensures same { corners.new ≡ corners.old }
    ensures result { result ≡ is_some (note_between same_face
        (option_map (face_in corners.old.corners width values.now) was) (at (S.complex now.now).faces name)) }
{
    let face = FaceName(name);
    let there = now.has(Elem::Face(face));
    let Some(kept) = was else {
        return there;
    };
    if !there {
        return true;
    }
    if !corners.same(kept.body.from, kept.body.count as usize, face, now) {
        return true;
    }
    !same_row(&values[kept.row..kept.row + width], &FaceRow { now, face })
}

// Takes away each note whose record equals what stands now, and puts the others in the order of names.
fn trim_entries<S: Shape>(
    entries: &mut Vec<Entry<Kept<Span>>>,
    corners: &mut CornerStore,
    values: &[i64],
    width: usize,
    now: &S,
)
    requires tree { IsTree entries.old.items }
    requires few { vec_len entries.old ≤ 4294967295 }
    requires linked { IsLinked (S.complex now.now) }
    requires wide { width ≡ width_of (S.complex now.now) Kind.Faces }
    requires corners_wide { corners.old.width ≡ width_of (S.complex now.now) Kind.Corners }
    requires within { AreWithin width (length values.now) (names_of entries.old.items) }
    requires stored { AreKeptSpans (length corners.old.corners) corners.old.longest (names_of entries.old.items) }
    ensures trimmed { IsTrimmed (face_in corners.old.corners width values.now) same_face (S.complex now.now).faces
        (names_of entries.old.items) (names_of entries.new.items) }
    ensures corners { corners.new ≡ corners.old }
    ensures tree { IsTree entries.new.items }
    ensures rising { IsNonDecreasingBy (λ x. x.0) (pairs entries.new.items) }
    ensures len { vec_len entries.new ≤ vec_len entries.old }
    ensures capacity { vec_capacity entries.new ≡ vec_capacity entries.old }
{
    entries.sort_unstable_by_key(|e| e.name);
    let mut kept: usize = 0;
    for k in 0..entries.len() {
        let e = entries[k];
        if differs(corners, now, e.name, e.was, values, width) {
            settle(entries, kept, e.name, e.was);
            kept += 1;
        }
    }
    entries.truncate(kept);
}

// Takes away each note of the map whose record equals what stands now.
fn trim_map<S: Shape>(
    map: &mut NoteMap<Kept<Span>>,
    corners: &mut CornerStore,
    values: &[i64],
    width: usize,
    now: &S,
)
    requires linked { IsLinked (S.complex now.now) }
    requires wide { width ≡ width_of (S.complex now.now) Kind.Faces }
    requires corners_wide { corners.old.width ≡ width_of (S.complex now.now) Kind.Corners }
    requires within { AreWithin width (length values.now) map.old.names }
    requires stored { AreKeptSpans (length corners.old.corners) corners.old.longest map.old.names }
    ensures trimmed { IsTrimmed (face_in corners.old.corners width values.now) same_face (S.complex now.now).faces
        map.old.names map.new.names }
    ensures corners { corners.new ≡ corners.old }
    ensures room { map.old.room ≤ map.new.room }
{
    trim_entries(&mut map.entries, corners, values, width, now);
    map.rising = map.entries.len();
}

// Takes away each note whose record equals what stands now.
fn trim_spans<S: Shape>(table: &mut Table<Span>, corners: &mut CornerStore, now: &S)
    requires wide { table.old.width ≡ width_of (S.complex now.now) Kind.Faces }
    requires corners_wide { corners.old.width ≡ width_of (S.complex now.now) Kind.Corners }
    requires stored { AreSpans (length corners.old.corners) corners.old.longest table.old.names }
    ensures trimmed { IsTrimmed (face_of corners.old.corners) same_face (S.complex now.now).faces table.old.names
        table.new.names }
    ensures corners { corners.new ≡ corners.old }
    ensures width { table.new.width ≡ table.old.width }
    ensures room { table.new.room ≡ table.old.room }
{
    now.counters();
    trim_map(&mut table.map, corners, &table.values, table.width, now);
}

impl FaceTable {
    // No note. Takes no memory.
    pub(crate) fn new(alloc: Global, width: usize, corner_width: usize) -> FaceTable
        ensures names { result.names ≡ empty }
        ensures width { result.width ≡ width }
        ensures corner_width { result.corner_width ≡ corner_width }
        ensures room { result.room ≡ 0 }
        ensures corner_room { result.corner_room ≡ 0 }
    {
        FaceTable {
            spans: Table::new(alloc, width),
            corners: CornerStore::new(alloc, corner_width),
        }
    }

    // How many more faces and how many more corners surely take no memory.
    pub(crate) fn room(&self) -> (usize, usize)
        ensures { result ≡ (self.now.room, self.now.corner_room) }
    {
        (self.spans.room(), self.corners.room())
    }

    // The widths of the rows of faces and of corners.
    pub(crate) fn widths(&self) -> (usize, usize)
        ensures { result ≡ (self.now.width, self.now.corner_width) }
    {
        (self.spans.width(), self.corners.width())
    }

    // Tells of less room.
    pub(crate) fn lessen(&mut self, room: usize, corner_room: usize)
        requires room { room ≤ self.old.room }
        requires corner_room { corner_room ≤ self.old.corner_room }
        ensures { self.new ≡ record self.old { room = room; corner_room = corner_room } }
    {
        self.spans.lessen(room);
        self.corners.lessen(corner_room);
    }

    // Takes away each note, and has rows of these widths from then on. Takes no memory, and keeps what there is.
    pub(crate) fn restart(&mut self, width: usize, corner_width: usize)
        ensures names { self.new.names ≡ empty }
        ensures width { self.new.width ≡ width }
        ensures corner_width { self.new.corner_width ≡ corner_width }
        ensures room { self.old.width ≡ width → self.new.room ≡ self.old.room }
        ensures corner_room { self.old.corner_width ≡ corner_width → self.new.corner_room ≡ self.old.corner_room }
    {
        self.spans.restart(width);
        self.corners.restart(corner_width);
    }

    // The same notes and no more memory than they need.
    pub(crate) fn copy(&self) -> Result<FaceTable, NoMemory>
        ensures names { IfOk result (λ t. t.names ≡ self.now.names) }
        ensures width { IfOk result (λ t. t.width ≡ self.now.width) }
        ensures corner_width { IfOk result (λ t. t.corner_width ≡ self.now.corner_width) }
    {
        let (width, corner_width) = self.widths();
        let mut faces = FaceTable::new(self.spans.allocator(), width, corner_width);
        copy_spans(&mut faces, &self.spans, &self.corners)?;
        faces.shrink();
        Ok(faces)
    }

    // Gives back the memory that isn't used, after which no note surely takes none.
    fn shrink(&mut self)
        ensures names { self.new.names ≡ self.old.names }
        ensures width { self.new.width ≡ self.old.width }
        ensures corner_width { self.new.corner_width ≡ self.old.corner_width }
    {
        self.spans.shrink();
        self.corners.shrink();
    }

    // Notes what a face's name had that has no note, its row and its corners being among these.
    fn put(
        &mut self,
        name: u32,
        was: Option<Kept<Span>>,
        values: &[i64],
        corners: &CornerStore,
    ) -> Result<(), NoMemory>
        requires none { get self.old.names name ≡ None }
        requires wide { corners.now.width ≡ self.old.corner_width }
        requires within { IfSome was (λ k. k.row + self.old.width ≤ length values.now) }
        requires stored { IfSome was (λ k. k.body.from + k.body.count ≤ length corners.now.corners) }
        ensures ok { OnOk result (self.new.names
            ≡ insert self.old.names name (option_map (face_in corners.now.corners self.old.width values.now) was)) }
        ensures width { self.new.width ≡ self.old.width }
        ensures corner_width { self.new.corner_width ≡ self.old.corner_width }
    {
        match was {
            None => {
                self.spans.note_absent(name)?;
                Ok(())
            }
            Some(kept) => {
                let count = kept.body.count;
                let from = self.corners.len();
                self.corners
                    .append_part(corners, kept.body.from, count as usize)?;
                let moved = Kept {
                    body: Span { from, count },
                    row: kept.row,
                };
                self.spans.put(name, Some(moved), values)?;
                Ok(())
            }
        }
    }

    // Makes room for so many further faces, which have so many corners together.
    pub(crate) fn reserve(&mut self, faces: usize, corners: usize) -> Result<(), NoMemory>
        ensures names { self.new.names ≡ self.old.names }
        ensures width { self.new.width ≡ self.old.width }
        ensures corner_width { self.new.corner_width ≡ self.old.corner_width }
        ensures ok { OnOk result (faces ≤ self.new.room) }
        ensures corners_ok { OnOk result (corners ≤ self.new.corner_room) }
        ensures room { self.old.room ≤ self.new.room }
        ensures corner_room { self.old.corner_room ≤ self.new.corner_room }
    {
        self.corners.reserve(corners)?;
        self.spans.reserve(faces)?;
        Ok(())
    }

    // Notes what stands at a face's name, which has no note.
    pub(crate) fn note<S: Shape>(&mut self, name: FaceName, now: &S) -> Result<(), NoMemory>
        requires none { get self.old.names name.0 ≡ None }
        requires wide { self.old.width ≡ width_of (S.complex now.now) Kind.Faces }
        requires corners_wide { self.old.corner_width ≡ width_of (S.complex now.now) Kind.Corners }
        ensures ok { OnOk result (self.new.names ≡ insert self.old.names name.0 (at (S.complex now.now).faces name.0)) }
        ensures err { OnErr result (self.new ≡ self.old) }
        ensures width { self.new.width ≡ self.old.width }
        ensures corner_width { self.new.corner_width ≡ self.old.corner_width }
        ensures succeeds { 0 < self.old.room → length (corners_of (at (S.complex now.now).faces name.0))
            ≤ self.old.corner_room → IsOk result }
        ensures room { self.old.room ≤ self.new.room + 1 }
        ensures corner_room { self.old.corner_room
            ≤ self.new.corner_room + length (corners_of (at (S.complex now.now).faces name.0)) }
    {
        now.counters();
        if !now.has(Elem::Face(name)) {
            self.spans.note_absent(name.0)?;
            return Ok(());
        }
        let from = self.corners.len();
        let room = self.corners.room();
        let count = now.corner_count(name);
        self.corners.append(name, now)?;
        match self
            .spans
            .note_row(name.0, Span { from, count }, &FaceRow { now, face: name })
        {
            Ok(()) => Ok(()),
            Err(e) => {
                self.corners.cut(from, room);
                Err(e)
            }
        }
    }

    // Takes away each note whose record equals what stands now.
    pub(crate) fn trim<S: Shape>(&mut self, now: &S)
        requires wide { self.old.width ≡ width_of (S.complex now.now) Kind.Faces }
        requires corners_wide { self.old.corner_width ≡ width_of (S.complex now.now) Kind.Corners }
        ensures names { self.new.names ≡ trimmed_notes same_face self.old.names (S.complex now.now).faces }
        ensures width { self.new.width ≡ self.old.width }
        ensures corner_width { self.new.corner_width ≡ self.old.corner_width }
        ensures room { self.new.room ≡ self.old.room }
        ensures corner_room { self.new.corner_room ≡ self.old.corner_room }
    {
        trim_spans(&mut self.spans, &mut self.corners, now);
    }

    // Whether a name has a note.
    pub(crate) fn has(&self, name: u32) -> bool
        ensures { result ≡ is_some (get self.now.names name) }
    {
        self.spans.has(name)
    }

    // Whether a name's note is that no face stood there.
    pub(crate) fn was_absent(&self, name: u32) -> bool
        ensures { result ≡ is_absent (get self.now.names name) }
    {
        self.spans.was_absent(name)
    }

    // The least noted name from a number on.
    pub(crate) fn least(&self, least: u32) -> Option<u32>
        ensures { IsLeast self.now.names least result }
    {
        self.spans.least(least)
    }

    // The number of notes.
    pub(crate) fn len(&self) -> usize
        ensures { result ≡ len self.now.names }
    {
        self.spans.len()
    }

    // Does nothing. Each noted row of a face or of a corner is as wide as is said.
    pub(crate) fn rows_fit(&self)
        ensures { EachNoted (IsFaceWide self.now.width self.now.corner_width) self.now.names }
    {
        self.spans.rows_fit();
        self.corners.rows_fit();
    }

    // The number of a noted face's corners.
    pub(crate) fn corner_count(&self, name: u32) -> u32
        requires { IsSome (noted self.now.names name) }
        ensures { result ≡ length (corners_of (noted self.now.names name)) }
    {
        match self.spans.body(name) {
            Some(span) => span.count,
            None => 0,
        }
    }

    // The vertex and the edge of a noted face's corner.
    pub(crate) fn corner(&self, name: u32, i: u32) -> (VertName, EdgeName)
        requires { i < length (corners_of (noted self.now.names name)) }
        ensures { option_map (λ k. (k.vert, k.edge)) (slice_get (corners_of (noted self.now.names name)) i)
            ≡ Some result }
    {
        match self.spans.body(name) {
            Some(span) => self.corners.pair(span.from, i as usize),
            None => (VertName(0), EdgeName(0)),
        }
    }

    // The vertices and edges of a noted face's corners in order.
    pub(crate) fn corners(&self, name: u32, into: &mut [(VertName, EdgeName)])
        requires there { IsSome (noted self.now.names name) }
        requires room { length into.old ≡ length (corners_of (noted self.now.names name)) }
        ensures { into.new ≡ map (λ k. (k.vert, k.edge)) (corners_of (noted self.now.names name)) }
    {
        if let Some(span) = self.spans.body(name) {
            self.corners.copy_pairs(span.from, into);
        }
    }

    // The rows of a noted face's corners in order, one behind another.
    pub(crate) fn corner_rows(&self, name: u32, into: &mut [i64])
        requires there { IsSome (noted self.now.names name) }
        requires room { length into.old ≡ length (corners_of (noted self.now.names name)) * self.now.corner_width }
        ensures { into.new ≡ flat_map (λ k. k.vals) (corners_of (noted self.now.names name)) }
    {
        if let Some(span) = self.spans.body(name) {
            self.corners.copy_rows(span.from, span.count as usize, into);
        }
    }

    // A number of the row of a noted face's corner.
    pub(crate) fn corner_value(&self, name: u32, i: u32, k: usize) -> i64
        requires there { i < length (corners_of (noted self.now.names name)) }
        requires within { k < self.now.corner_width }
        ensures { option_map (λ r. slice_get r.vals k) (slice_get (corners_of (noted self.now.names name)) i)
            ≡ Some (Some result) }
    {
        match self.spans.body(name) {
            Some(span) => self.corners.value(span.from, i as usize, k),
            None => 0,
        }
    }

    // A number of a noted face's row.
    pub(crate) fn value(&self, name: u32, k: usize) -> i64
        requires there { IsSome (noted self.now.names name) }
        requires within { k < self.now.width }
        ensures { option_map (λ r. slice_get r.vals k) (noted self.now.names name) ≡ Some (Some result) }
    {
        self.spans.value(name, k)
    }
}

// Notes all that entries note, in their order, in a table without a note.
fn copy_entries(
    faces: &mut FaceTable,
    entries: &[Entry<Kept<Span>>],
    values: &[i64],
    corners: &CornerStore,
) -> Result<(), NoMemory>
    requires empty { faces.old.names ≡ empty }
    requires wide { corners.now.width ≡ faces.old.corner_width }
    requires tree { IsTree entries.now }
    requires within { AreWithin faces.old.width (length values.now) (names_of entries.now) }
    requires stored { AreKeptSpans (length corners.now.corners) corners.now.longest (names_of entries.now) }
    ensures names { OnOk result (faces.new.names
        ≡ map_notes (face_in corners.now.corners faces.old.width values.now) (names_of entries.now)) }
    ensures width { faces.new.width ≡ faces.old.width }
    ensures corner_width { faces.new.corner_width ≡ faces.old.corner_width }
{
    for k in 0..entries.len() {
        let e = entry_at(entries, k);
        faces.put(e.name, e.was, values, corners)?;
    }
    Ok(())
}

// Notes all that a map notes in a table without a note.
fn copy_map(
    faces: &mut FaceTable,
    map: &NoteMap<Kept<Span>>,
    values: &[i64],
    corners: &CornerStore,
) -> Result<(), NoMemory>
    requires empty { faces.old.names ≡ empty }
    requires wide { corners.now.width ≡ faces.old.corner_width }
    requires within { AreWithin faces.old.width (length values.now) map.now.names }
    requires stored { AreKeptSpans (length corners.now.corners) corners.now.longest map.now.names }
    ensures names { OnOk result (faces.new.names
        ≡ map_notes (face_in corners.now.corners faces.old.width values.now) map.now.names) }
    ensures width { faces.new.width ≡ faces.old.width }
    ensures corner_width { faces.new.corner_width ≡ faces.old.corner_width }
{
    copy_entries(faces, &map.entries, values, corners)?;
    Ok(())
}

// Notes all that a table notes in one without a note.
fn copy_spans(
    faces: &mut FaceTable,
    table: &Table<Span>,
    corners: &CornerStore,
) -> Result<(), NoMemory>
    requires empty { faces.old.names ≡ empty }
    requires wide { faces.old.width ≡ table.now.width }
    requires corners_wide { corners.now.width ≡ faces.old.corner_width }
    requires stored { AreSpans (length corners.now.corners) corners.now.longest table.now.names }
    ensures names { OnOk result (faces.new.names ≡ map_notes (face_of corners.now.corners) table.now.names) }
    ensures width { faces.new.width ≡ faces.old.width }
    ensures corner_width { faces.new.corner_width ≡ faces.old.corner_width }
{
    copy_map(faces, &table.map, &table.values, corners)?;
    Ok(())
}
