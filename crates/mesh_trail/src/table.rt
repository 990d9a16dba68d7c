//! Notes of one kind with a row of values each; the rows stand one behind another in one vector.

ghost use Rattle.std.specs.Prelude.{◌≡◌, ◌≤◌, ◌<◌, ◌+◌, ◌*◌, OnOk, OnErr, IsOk, IfOk, IfSome, IsSome, Some, None, true, length, is_some, slice_get};
ghost use Rattle.std.specs.FinMap.{get, empty, insert, len};
ghost use Rattle.mesh_trail.specs.Noted.{noted, is_absent, map_notes};
ghost use Rattle.mesh_trail.specs.Kept.{kept_row, AreWithin};
ghost use Rattle.std.specs.Option.{option_map};
ghost use Rattle.mesh_trail.specs.Tree.{IsLeast, IsTree, names_of};
ghost use Rattle.mesh_trail.specs.Wide.{EachNoted, HasRow};

use crate::note_map::{Entry, NoteMap, entry_at};
use crate::rows::{NumberRow, Row, push_row};
use mesh_model::NoMemory;
use std::alloc::Global;
use std::marker::Model;

// A record as it is kept: its body, and where its row of values begins.
#[derive(Clone, Copy)]
pub(crate) struct Kept<B> {
    pub(crate) body: B,
    pub(crate) row: usize,
}

// Whether a note is that nothing stood there.
fn says_absent<B: Copy>(note: Option<Option<B>>) -> bool
    ensures { result ≡ is_absent note }
{
    match note {
        Some(None) => true,
        _ => false,
    }
}

// The room that is told of for rows of another width: none.
fn room_at(room: usize, old: usize, new: usize) -> usize
    ensures same { old ≡ new → result ≡ room }
    ensures less { result ≤ room }
    ensures numbers { result * new ≤ room * old }
{
    if old == new { room } else { 0 }
}

// Notes of one kind. Rows of notes that were taken away stay where they were, until a copy is made.
#[derive(Drop)]
pub(crate) struct Table<B> {
    pub(crate) map: NoteMap<Kept<B>>,
    pub(crate) values: Vec<i64>,
    pub(crate) width: usize,
    // How many more notes surely take no memory.
    pub(crate) spare: usize,
}

impl<B> Model for Table<B> {
    ghost use Rattle.std.specs.Vec.{vec_len, vec_capacity};
    ghost use Rattle.mesh_trail.specs.Noted.{map_notes};
    ghost use Rattle.mesh_trail.specs.Kept.{KeptRows, kept_code, kept_row, IsTable};

    ghost Value = { KeptRows B };

    ghost coded = { kept_code B.code };

    ghost view = { λ t. record {
      names = map_notes (kept_row t.width t.values.items) t.map.names;
      width = t.width;
      room = t.spare;
    } };

    ghost invariant = { λ t. IsTable t.width t.spare t.map (vec_len t.values) (vec_capacity t.values) };
}

impl<B: Copy> Table<B> {
    // No note. Takes no memory.
    pub(crate) fn new(alloc: Global, width: usize) -> Table<B>
        ensures names { result.names ≡ empty }
        ensures width { result.width ≡ width }
        ensures room { result.room ≡ 0 }
    {
        Table {
            map: NoteMap::new(alloc),
            values: Vec::new(alloc),
            width,
            spare: 0,
        }
    }

    // Makes room for so many further notes.
    pub(crate) fn reserve(&mut self, more: usize) -> Result<(), NoMemory>
        ensures names { self.new.names ≡ self.old.names }
        ensures width { self.new.width ≡ self.old.width }
        ensures ok { OnOk result (more ≤ self.new.room) }
        ensures err { OnErr result (self.new ≡ self.old) }
        ensures room { self.old.room ≤ self.new.room }
    {
        if more <= self.spare {
            return Ok(());
        }
        let Some(numbers) = more.checked_mul(self.width) else {
            return Err(NoMemory);
        };
        self.map.reserve(more)?;
        self.values.reserve(numbers)?;
        self.spare = more;
        Ok(())
    }

    // How many more notes surely take no memory.
    pub(crate) fn room(&self) -> usize
        ensures { result ≡ self.now.room }
    {
        self.spare
    }

    // The width of a row.
    pub(crate) fn width(&self) -> usize
        ensures { result ≡ self.now.width }
    {
        self.width
    }

    // Tells of less room.
    pub(crate) fn lessen(&mut self, room: usize)
        requires { room ≤ self.old.room }
        ensures { self.new ≡ record self.old { room = room } }
    {
        self.spare = room;
    }

    // Takes away each note, and has rows of a width from then on. Takes no memory, and keeps what there is.
    pub(crate) fn restart(&mut self, width: usize)
        ensures names { self.new.names ≡ empty }
        ensures width { self.new.width ≡ width }
        ensures room { self.old.width ≡ width → self.new.room ≡ self.old.room }
    {
        self.spare = room_at(self.spare, self.width, width);
        self.width = width;
        self.values.clear();
        self.map.clear();
    }

    // Gives back the memory that isn't used, after which no note surely takes none.
    pub(crate) fn shrink(&mut self)
        ensures names { self.new.names ≡ self.old.names }
        ensures width { self.new.width ≡ self.old.width }
    {
        self.spare = 0;
        self.values.shrink_to_fit();
        self.map.shrink();
    }

    // Where its memory is from.
    pub(crate) fn allocator(&self) -> Global {
        *self.values.allocator()
    }

    // The same notes and no more memory than they need.
    pub(crate) fn copy(&self) -> Result<Table<B>, NoMemory>
        ensures names { IfOk result (λ t. t.names ≡ self.now.names) }
        ensures width { IfOk result (λ t. t.width ≡ self.now.width) }
    {
        let mut table = Table::new(self.allocator(), self.width);
        copy_map(&mut table, &self.map, &self.values)?;
        table.shrink();
        Ok(table)
    }

    // Notes what a name had that has no note, its row being one of these numbers.
    pub(crate) fn put(
        &mut self,
        name: u32,
        was: Option<Kept<B>>,
        values: &[i64],
    ) -> Result<(), NoMemory>
        requires none { get self.old.names name ≡ None }
        requires within { IfSome was (λ k. k.row + self.old.width ≤ length values.now) }
        ensures ok { OnOk result (self.new.names
            ≡ insert self.old.names name (option_map (kept_row self.old.width values.now) was)) }
        ensures err { OnErr result (self.new ≡ self.old) }
        ensures width { self.new.width ≡ self.old.width }
    {
        let Some(kept) = was else {
            return self.note_absent(name);
        };
        let row = NumberRow {
            numbers: &values[kept.row..kept.row + self.width],
        };
        self.note_row(name, kept.body, &row)
    }

    // Whether a name has a note.
    pub(crate) fn has(&self, name: u32) -> bool
        ensures { result ≡ is_some (get self.now.names name) }
    {
        self.map.find(name).is_some()
    }

    // The body of a name's note, if it has one with a record.
    pub(crate) fn body(&self, name: u32) -> Option<B>
        ensures { result ≡ option_map (λ r. r.0) (noted self.now.names name) }
    {
        match self.map.record(name) {
            Some(kept) => Some(kept.body),
            None => None,
        }
    }

    // Whether a name's note is that nothing stood there.
    pub(crate) fn was_absent(&self, name: u32) -> bool
        ensures { result ≡ is_absent (get self.now.names name) }
    {
        says_absent(self.map.find(name))
    }

    // A number of a noted row.
    pub(crate) fn value(&self, name: u32, k: usize) -> i64
        requires there { IsSome (noted self.now.names name) }
        requires within { k < self.now.width }
        ensures { option_map (λ r. slice_get r.1 k) (noted self.now.names name) ≡ Some (Some result) }
    {
        match self.map.record(name) {
            Some(kept) => self.values[kept.row + k],
            None => 0,
        }
    }

    // Notes that a name without a note has no record.
    pub(crate) fn note_absent(&mut self, name: u32) -> Result<(), NoMemory>
        requires { get self.old.names name ≡ None }
        ensures ok { OnOk result (self.new.names ≡ insert self.old.names name None) }
        ensures err { OnErr result (self.new ≡ self.old) }
        ensures width { self.new.width ≡ self.old.width }
        ensures succeeds { 0 < self.old.room → IsOk result }
        ensures room { self.old.room ≤ self.new.room + 1 }
    {
        self.map.note(name, None)?;
        self.spare = self.spare.saturating_sub(1);
        Ok(())
    }

    // Notes a body and a row at a name without a note.
    pub(crate) fn note_row<R: Row>(&mut self, name: u32, body: B, row: &R) -> Result<(), NoMemory>
        requires none { get self.old.names name ≡ None }
        requires wide { length (R.vals row.now) ≡ self.old.width }
        ensures ok { OnOk result (self.new.names ≡ insert self.old.names name (Some (body, R.vals row.now))) }
        ensures err { OnErr result (self.new ≡ self.old) }
        ensures width { self.new.width ≡ self.old.width }
        ensures succeeds { 0 < self.old.room → IsOk result }
        ensures room { self.old.room ≤ self.new.room + 1 }
    {
        let at = self.values.len();
        push_row(&mut self.values, self.width, row)?;
        match self.map.note(name, Some(Kept { body, row: at })) {
            Ok(()) => {
                self.spare = self.spare.saturating_sub(1);
                Ok(())
            }
            Err(e) => {
                self.values.truncate(at);
                Err(e)
            }
        }
    }

    // The least noted name from a number on.
    pub(crate) fn least(&self, least: u32) -> Option<u32>
        ensures { IsLeast self.now.names least result }
    {
        self.map.least(least)
    }

    // The number of notes.
    pub(crate) fn len(&self) -> usize
        ensures { result ≡ len self.now.names }
    {
        self.map.len()
    }

    // Does nothing. Each noted row is as wide as is said.
    pub(crate) fn rows_fit(&self)
        ensures { EachNoted (HasRow self.now.width) self.now.names }
    {
        let _ = &self.width;
    }
}

// Notes all that entries note, in their order, in a table without a note.
fn copy_entries<B: Copy>(
    table: &mut Table<B>,
    entries: &[Entry<Kept<B>>],
    values: &[i64],
) -> Result<(), NoMemory>
    requires empty { table.old.names ≡ empty }
    requires tree { IsTree entries.now }
    requires within { AreWithin table.old.width (length values.now) (names_of entries.now) }
    ensures names { OnOk result (table.new.names
        ≡ map_notes (kept_row table.old.width values.now) (names_of entries.now)) }
    ensures width { table.new.width ≡ table.old.width }
{
    for k in 0..entries.len() {
        let e = entry_at(entries, k);
        table.put(e.name, e.was, values)?;
    }
    Ok(())
}

// Notes all that a map notes in a table without a note.
fn copy_map<B: Copy>(
    table: &mut Table<B>,
    map: &NoteMap<Kept<B>>,
    values: &[i64],
) -> Result<(), NoMemory>
    requires empty { table.old.names ≡ empty }
    requires within { AreWithin table.old.width (length values.now) map.now.names }
    ensures names { OnOk result (table.new.names ≡ map_notes (kept_row table.old.width values.now) map.now.names) }
    ensures width { table.new.width ≡ table.old.width }
{
    copy_entries(table, &map.entries, values)?;
    Ok(())
}
