ghost use Rattle.std.specs.Prelude.{◌≡◌, ◌≢◌, ◌<◌, ◌≤◌, ◌+◌, ◌-◌, ◌^◌, ℕ, [], ◌∷◌, ◌++◌, length, slice_get, slice_set, if◌then◌else◌, ◌==◌, ◌%◌, OnOk, OnErr, IfOk, IfSome, Some, None, IsOk, is_some, IsSome, true, min, take};
ghost use Rattle.std.specs.List.Sorted.{IsNonDecreasingBy};
ghost use Rattle.mesh_trail.specs.Tree.{IsTree, IsSpot, link, with_link, pairs, with_pair, names_of, IsAbsent, IsLeast, IsFirstFrom, IsBehind, nearer_name};
ghost use Rattle.mesh_model.specs.ChangeSetNotes.{with_first_note};
ghost use Rattle.std.specs.FinMap.{get, empty, len};
ghost use Rattle.std.specs.Vec.{vec_len, vec_capacity};
ghost use Rattle.mesh_trail.specs.Noted.{noted};

use crate::NoMemory;
use std::alloc::Global;
use std::marker::Model;

/// A name's entry, with the two links that its search tree has at it.
#[derive(Clone, Copy)]
pub(crate) struct Entry<R> {
    pub(crate) name: u32,
    pub(crate) even: u32,
    pub(crate) odd: u32,
    pub(crate) was: Option<R>,
}

/// Where a name's entry stands, or the entry at which it would hang, and the bits of the name that
/// are left there.
#[derive(Clone, Copy)]
pub(crate) enum Spot {
    Here(usize),
    Free(usize, u32),
}

// The entry at a position.
pub(crate) fn entry_at<R: Copy>(entries: &[Entry<R>], k: usize) -> Entry<R>
    requires { k < length entries.now }
    ensures { slice_get entries.now k ≡ Some result }
{
    entries[k]
}

// The link that some bits follow.
fn link<R: Copy>(e: &Entry<R>, bits: u32) -> u32
    ensures { result ≡ link (Some e.now) bits }
{
    if bits % 2 == 0 { e.even } else { e.odd }
}

// Follows the bits of a name through the tree, the lowest first.
fn seek<R: Copy>(entries: &[Entry<R>], name: u32) -> Spot
    requires some { 0 < length entries.now }
    requires tree { IsTree entries.now }
    ensures { IsSpot entries.now name result }
{
    let mut at = 0;
    let mut bits = name;
    loop {
        let e = &entries[at];
        if e.name == name {
            return Spot::Here(at);
        }
        let next = link(e, bits);
        if next == 0 {
            return Spot::Free(at, bits);
        }
        at = next as usize;
        bits /= 2;
    }
}

// Sets the link that some bits follow.
fn hang<R: Copy>(entries: &mut Vec<Entry<R>>, at: usize, bits: u32, to: u32)
    requires { at < length entries.old.items }
    ensures items { IfSome (slice_get entries.old.items at)
        (λ e. entries.new.items ≡ slice_set entries.old.items at (with_link e bits to)) }
    ensures len { vec_len entries.new ≡ vec_len entries.old }
    ensures capacity { vec_capacity entries.new ≡ vec_capacity entries.old }
{
    let e = entries[at];
    entries[at] = if bits % 2 == 0 {
        Entry {
            name: e.name,
            even: to,
            odd: e.odd,
            was: e.was,
        }
    } else {
        Entry {
            name: e.name,
            even: e.even,
            odd: to,
            was: e.was,
        }
    };
}

// Puts an entry at a name that has none.
fn place<R: Copy>(entries: &mut Vec<Entry<R>>, name: u32, was: Option<R>) -> Result<(), NoMemory>
    requires tree { IsTree entries.old.items }
    requires few { vec_len entries.old ≤ 4294967295 }
    ensures ok { OnOk result (names_of entries.new.items ≡ with_first_note (names_of entries.old.items) name was) }
    ensures err { OnErr result ((entries.new.items ≡ entries.old.items) × (vec_len entries.new ≡ vec_len entries.old)
        × (vec_capacity entries.new ≡ vec_capacity entries.old)) }
    ensures pairs { OnOk result (pairs entries.new.items
        ≡ with_pair (is_some (get (names_of entries.old.items) name)) (pairs entries.old.items) name was) }
    ensures tree { IsTree entries.new.items }
    ensures few { vec_len entries.new ≤ 4294967295 }
    ensures there { IsSome (get (names_of entries.old.items) name) → IsOk result × (entries.new ≡ entries.old) }
    ensures succeeds { vec_len entries.old < min (vec_capacity entries.old) 4294967295 → IsOk result }
    ensures capacity { vec_capacity entries.old ≤ vec_capacity entries.new }
    ensures len { vec_len entries.new ≤ vec_len entries.old + 1 }
{
    let n = entries.len();
    if n == 0 {
        entries.reserve(1)?;
        entries.push(Entry {
            name,
            even: 0,
            odd: 0,
            was,
        })?;
        return Ok(());
    }
    match seek(entries, name) {
        Spot::Here(_) => Ok(()),
        Spot::Free(at, bits) => {
            if n >= u32::MAX as usize {
                return Err(NoMemory);
            }
            entries.reserve(1)?;
            entries.push(Entry {
                name,
                even: 0,
                odd: 0,
                was,
            })?;
            hang(entries, at, bits, n as u32);
            Ok(())
        }
    }
}

// The entry of a name.
fn look_up<R: Copy>(entries: &[Entry<R>], name: u32) -> Option<Option<R>>
    requires { IsTree entries.now }
    ensures { result ≡ get (names_of entries.now) name }
{
    if entries.len() == 0 {
        return None;
    }
    match seek(entries, name) {
        Spot::Here(i) => Some(entries[i].was),
        Spot::Free(_, _) => None,
    }
}

// Where the names of a front that rises reach a number, by halves.
fn first_from<R: Copy>(entries: &[Entry<R>], rising: usize, least: u32) -> usize
    requires within { rising ≤ length entries.now }
    requires rising { IsNonDecreasingBy (λ x. x.0) (take rising (pairs entries.now)) }
    ensures { IsFirstFrom entries.now rising least result }
{
    entries[..rising].partition_point(|e| e.name < least)
}

// The least name from a number on in a front that rises.
fn least_in_front<R: Copy>(entries: &[Entry<R>], rising: usize, least: u32) -> Option<u32>
    requires tree { IsTree entries.now }
    requires within { rising ≤ length entries.now }
    requires rising { IsNonDecreasingBy (λ x. x.0) (take rising (pairs entries.now)) }
    ensures { IsLeast (names_of (take rising entries.now)) least result }
{
    let at = first_from(entries, rising, least);
    if at < rising {
        Some(entries[at].name)
    } else {
        None
    }
}

// The least name from a number on: by halves in the front that rises, and one by one behind it.
fn least_name<R: Copy>(entries: &[Entry<R>], rising: usize, least: u32) -> Option<u32>
    requires tree { IsTree entries.now }
    requires within { rising ≤ length entries.now }
    requires rising { IsNonDecreasingBy (λ x. x.0) (take rising (pairs entries.now)) }
    ensures { IsLeast (names_of entries.now) least result }
{
    let mut best = least_in_front(entries, rising, least);
    for k in rising..entries.len() {
        best = nearer(best, least, entries[k].name);
    }
    best
}

// Whether all names rise, and a name surely comes behind them.
fn is_behind<R: Copy>(entries: &[Entry<R>], rising: usize, name: u32) -> bool
    requires within { rising ≤ length entries.now }
    requires rising { IsNonDecreasingBy (λ x. x.0) (take rising (pairs entries.now)) }
    ensures { result ≡ true → IsBehind (pairs entries.now) name }
{
    let n = entries.len();
    if rising != n {
        return false;
    }
    if n == 0 {
        return true;
    }
    let last = entries[n - 1].name;
    if last < name {
        return true;
    }
    false
}

// The lesser of two names, leaving out one below a number.
fn nearer(best: Option<u32>, least: u32, name: u32) -> Option<u32>
    ensures { result ≡ nearer_name best least name }
{
    if name < least {
        return best;
    }
    match best {
        Some(b) => if b <= name { Some(b) } else { Some(name) },
        None => Some(name),
    }
}

// Puts an entry right behind the first few, which are a tree, and hangs it there. Those behind stay.
pub(crate) fn settle<R: Copy>(entries: &mut Vec<Entry<R>>, kept: usize, name: u32, was: Option<R>)
    requires within { kept < length entries.old.items }
    requires tree { IsTree (take kept entries.old.items) }
    requires absent { IsAbsent (take kept entries.old.items) name }
    requires few { vec_len entries.old ≤ 4294967295 }
    ensures tree { IsTree (take (kept + 1) entries.new.items) }
    ensures pairs { pairs (take (kept + 1) entries.new.items)
        ≡ pairs (take kept entries.old.items) ++ (name, was) ∷ [] }
    ensures rest { (i : ℕ) → kept < i → slice_get entries.new.items i ≡ slice_get entries.old.items i }
    ensures len { vec_len entries.new ≡ vec_len entries.old }
    ensures capacity { vec_capacity entries.new ≡ vec_capacity entries.old }
{
    let entry = Entry {
        name,
        even: 0,
        odd: 0,
        was,
    };
    if kept == 0 {
        entries[0] = entry;
        return;
    }
    let spot = seek(&entries[..kept], name);
    entries[kept] = entry;
    match spot {
        Spot::Here(_) => {}
        Spot::Free(at, bits) => hang(entries, at, bits, kept as u32),
    }
}

/// Notes of one kind, each with the record that it had or none: in order of noting beside a search
/// tree, so that a look-up takes at most 33 steps.
#[derive(Drop)]
pub(crate) struct NoteMap<R> {
    pub(crate) entries: Vec<Entry<R>>,
    /// How many entries from the front surely stand by rising name: all of them as long as names are noted
    /// in that order, and once they were sorted.
    pub(crate) rising: usize,
}

impl<R> Model for NoteMap<R> {
    ghost use Rattle.std.specs.Prelude.{◌-◌, min};
    ghost use Rattle.std.specs.Vec.{vec_len, vec_capacity};
    ghost use Rattle.mesh_trail.specs.Noted.{Noted, noted_code};

    ghost Value = { Noted R };

    ghost coded = { noted_code R.code };

    ghost use Rattle.mesh_trail.specs.Tree.{names_of, AreNoted};

    ghost view = { λ m. record {
      names = names_of m.entries.items;
      room = min (vec_capacity m.entries) 4294967295 - vec_len m.entries;
    } };

    ghost invariant = { λ m. AreNoted m.entries.items (vec_len m.entries) m.rising };
}

impl<R: Copy> NoteMap<R> {
    /// No entry. Takes no memory.
    pub(crate) fn new(alloc: Global) -> NoteMap<R>
        ensures { result.names ≡ empty }
    {
        NoteMap {
            entries: Vec::new(alloc),
            rising: 0,
        }
    }

    /// Makes room for more entries.
    pub(crate) fn reserve(&mut self, more: usize) -> Result<(), NoMemory>
        ensures names { self.new.names ≡ self.old.names }
        ensures ok { OnOk result (more ≤ self.new.room) }
        ensures err { OnErr result (self.new ≡ self.old) }
        ensures room { self.old.room ≤ self.new.room }
    {
        if more > u32::MAX as usize - self.entries.len() {
            return Err(NoMemory);
        }
        self.entries.reserve(more)?;
        Ok(())
    }

    /// Notes a name that has no entry.
    pub(crate) fn note(&mut self, name: u32, was: Option<R>) -> Result<(), NoMemory>
        ensures ok { OnOk result (self.new.names ≡ with_first_note self.old.names name was) }
        ensures err { OnErr result (self.new ≡ self.old) }
        ensures there { IsSome (get self.old.names name) → IsOk result × (self.new ≡ self.old) }
        ensures succeeds { 0 < self.old.room → IsOk result }
        ensures room { self.old.room ≤ self.new.room + 1 }
    {
        let last = is_behind(&self.entries, self.rising, name);
        place(&mut self.entries, name, was)?;
        if last {
            self.rising = self.entries.len();
        }
        Ok(())
    }

    /// Takes away each note. Takes no memory, and keeps what there is.
    pub(crate) fn clear(&mut self)
        ensures names { self.new.names ≡ empty }
        ensures room { self.old.room ≤ self.new.room }
    {
        self.entries.clear();
        self.rising = 0;
    }

    /// Gives back the memory that isn't used.
    pub(crate) fn shrink(&mut self)
        ensures { self.new.names ≡ self.old.names }
    {
        self.entries.shrink_to_fit();
    }

    /// The entry of a name.
    pub(crate) fn find(&self, name: u32) -> Option<Option<R>>
        ensures { result ≡ get self.now.names name }
    {
        look_up(&self.entries, name)
    }

    /// The record of a name's entry, if it has one with a record.
    pub(crate) fn record(&self, name: u32) -> Option<R>
        ensures { result ≡ noted self.now.names name }
    {
        match self.find(name) {
            Some(was) => was,
            None => None,
        }
    }

    /// The least name from a number on: by halves among those that stand by rising name, and one by one behind
    /// them.
    pub(crate) fn least(&self, least: u32) -> Option<u32>
        ensures { IsLeast self.now.names least result }
    {
        least_name(&self.entries, self.rising, least)
    }

    /// The number of notes.
    pub(crate) fn len(&self) -> usize
        ensures { result ≡ len self.now.names }
    {
        self.entries.len()
    }
}
