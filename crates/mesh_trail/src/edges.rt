//! The edges of a past.

ghost use Rattle.std.specs.Prelude.{◌≡◌, ◌≤◌, ◌<◌, ◌+◌, OnOk, OnErr, IsOk, IfSome, Some, None, length, is_some};
ghost use Rattle.std.specs.FinMap.{get, insert};
ghost use Rattle.std.specs.List.Sorted.{IsNonDecreasingBy};
ghost use Rattle.std.specs.Option.{option_map};
ghost use Rattle.std.specs.Vec.{vec_len, vec_capacity};
ghost use Rattle.mesh_model.specs.Table.{at, IsThere};
ghost use Rattle.mesh_model.specs.Complex.{width as width_of};
ghost use Rattle.mesh_model.specs.Valid.{IsLinked};
ghost use Rattle.mesh_model.specs.ChangeSet.{same_edge};
ghost use Rattle.mesh_model.specs.ChangeSetNotes.{note_between, trimmed_notes};
ghost use Rattle.mesh_trail.specs.Noted.{map_notes};
ghost use Rattle.mesh_trail.specs.Kept.{edge_in, edge_of, AreWithin, IsTrimmed};
ghost use Rattle.mesh_trail.specs.Tree.{IsTree, pairs, names_of};

use crate::note_map::{Entry, NoteMap, settle};
use crate::rows::{EdgeRow, same_row};
use crate::table::{Kept, Table};
use mesh_model::{EdgeName, Elem, Kind, NoMemory, Shape, VertName};

// The two ends of a noted edge.
#[derive(Clone, Copy)]
pub(crate) struct Ends {
    pub(crate) a: VertName,
    pub(crate) b: VertName,
}

// The ends of an edge.
fn ends_of<S: Shape>(now: &S, edge: EdgeName) -> Ends
    requires { IsThere (S.complex now.now).edges edge.0 }
    ensures { option_map (λ r. record { a = r.a; b = r.b }) (at (S.complex now.now).edges edge.0) ≡ Some result }
{
    let [a, b] = now.ends(edge);
    Ends { a, b }
}

// Notes what stands at an edge's name, which has no note.
pub(crate) fn note_edge<S: Shape>(
    table: &mut Table<Ends>,
    name: EdgeName,
    now: &S,
) -> Result<(), NoMemory>
    requires none { get table.old.names name.0 ≡ None }
    requires wide { table.old.width ≡ width_of (S.complex now.now) Kind.Edges }
    ensures ok { OnOk result (map_notes edge_of table.new.names
        ≡ insert (map_notes edge_of table.old.names) name.0 (at (S.complex now.now).edges name.0)) }
    ensures err { OnErr result (table.new ≡ table.old) }
    ensures width { table.new.width ≡ table.old.width }
    ensures succeeds { 0 < table.old.room → IsOk result }
    ensures room { table.old.room ≤ table.new.room + 1 }
{
    now.counters();
    if !now.has(Elem::Edge(name)) {
        table.note_absent(name.0)?;
        return Ok(());
    }
    table.note_row(name.0, ends_of(now, name), &EdgeRow { now, edge: name })?;
    Ok(())
}

// Whether a noted record differs from what stands at its name now.
fn differs<S: Shape>(
    now: &S,
    name: u32,
    was: Option<Kept<Ends>>,
    values: &[i64],
    width: usize,
) -> bool
    requires linked { IsLinked (S.complex now.now) }
    requires wide { width ≡ width_of (S.complex now.now) Kind.Edges }
    requires within { IfSome was (λ k. k.row + width ≤ length values.now) }
    ensures { result ≡ is_some (note_between same_edge (option_map (edge_in width values.now) was)
        (at (S.complex now.now).edges name)) }
{
    let edge = EdgeName(name);
    let there = now.has(Elem::Edge(edge));
    let Some(kept) = was else {
        return there;
    };
    if !there {
        return true;
    }
    let ends = ends_of(now, edge);
    if ends.a != kept.body.a || ends.b != kept.body.b {
        return true;
    }
    !same_row(&values[kept.row..kept.row + width], &EdgeRow { now, edge })
}

// Takes away each note whose record equals what stands now, and puts the others in the order of names.
fn trim_entries<S: Shape>(
    entries: &mut Vec<Entry<Kept<Ends>>>,
    values: &[i64],
    width: usize,
    now: &S,
)
    requires tree { IsTree entries.old.items }
    requires few { vec_len entries.old ≤ 4294967295 }
    requires linked { IsLinked (S.complex now.now) }
    requires wide { width ≡ width_of (S.complex now.now) Kind.Edges }
    requires within { AreWithin width (length values.now) (names_of entries.old.items) }
    ensures trimmed { IsTrimmed (edge_in width values.now) same_edge (S.complex now.now).edges
        (names_of entries.old.items) (names_of entries.new.items) }
    ensures tree { IsTree entries.new.items }
    ensures rising { IsNonDecreasingBy (λ x. x.0) (pairs entries.new.items) }
    ensures len { vec_len entries.new ≤ vec_len entries.old }
    ensures capacity { vec_capacity entries.new ≡ vec_capacity entries.old }
{
    entries.sort_unstable_by_key(|e| e.name);
    let mut kept: usize = 0;
    for k in 0..entries.len() {
        let e = entries[k];
        if differs(now, e.name, e.was, values, width) {
            settle(entries, kept, e.name, e.was);
            kept += 1;
        }
    }
    entries.truncate(kept);
}

// Takes away each note of the map whose record equals what stands now.
fn trim_map<S: Shape>(map: &mut NoteMap<Kept<Ends>>, values: &[i64], width: usize, now: &S)
    requires linked { IsLinked (S.complex now.now) }
    requires wide { width ≡ width_of (S.complex now.now) Kind.Edges }
    requires within { AreWithin width (length values.now) map.old.names }
    ensures trimmed { IsTrimmed (edge_in width values.now) same_edge (S.complex now.now).edges map.old.names
        map.new.names }
    ensures room { map.old.room ≤ map.new.room }
{
    trim_entries(&mut map.entries, values, width, now);
    map.rising = map.entries.len();
}

// Takes away each note whose record equals what stands now.
pub(crate) fn trim_edges<S: Shape>(table: &mut Table<Ends>, now: &S)
    requires { table.old.width ≡ width_of (S.complex now.now) Kind.Edges }
    ensures names { map_notes edge_of table.new.names
        ≡ trimmed_notes same_edge (map_notes edge_of table.old.names) (S.complex now.now).edges }
    ensures width { table.new.width ≡ table.old.width }
    ensures room { table.new.room ≡ table.old.room }
{
    now.counters();
    trim_map(&mut table.map, &table.values, table.width, now);
}
