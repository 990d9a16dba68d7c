//! Pasts with many notes, and of large shapes.

use crate::confirm::confirm;
use crate::noting::{note_vert, trim};
use crate::told::counts;
use mesh_model::{Draft, NoMemory};
use mesh_trail::Past;
use sample_drafts::row_of_verts;
use std::alloc::Global;
use std::test::Fail;

// Notes so many vertices, the greatest name first.
fn note_falling(past: &mut Past, now: &Draft, count: u32) -> Result<(), NoMemory> {
    for i in 0..count {
        note_vert(past, count - 1 - i, now)?;
    }
    Ok(())
}

// How many vertices with notes are met in the order of their names, and the last one.
fn met_in_order(past: &Past, most: u32) -> [u32; 2] {
    let mut last = 0;
    let mut next = 0;
    for met in 0..most {
        let Some(v) = past.vert_from(next) else {
            return [met, last];
        };
        last = v.0;
        next = v.0.saturating_add(1);
    }
    [most, last]
}

// A past with a note for each of a million names of vertices that aren't there.
fn noted(alloc: Global) -> Result<Past, NoMemory> {
    let before = Draft::new(alloc);
    let mut past = Past::new(alloc, &before);
    note_falling(&mut past, &before, 1_000_000)?;
    Ok(past)
}

// Trims it by a shape that has the lower half of them.
fn trim_by_row(alloc: Global, past: &mut Past) -> Result<(), NoMemory> {
    let after = row_of_verts(alloc, 500_000)?;
    trim(past, &after)
}

// The past, trimmed.
fn trimmed(alloc: Global) -> Result<Past, NoMemory> {
    let mut past = noted(alloc)?;
    trim_by_row(alloc, &mut past)?;
    Ok(past)
}

#[test]
fn a_million_notes_in_falling_order(rt: HostRuntime) -> Result<(), Fail> {
    let past = trimmed(rt.alloc())?;
    confirm(&rt, "how many", counts(&past) == [500_000, 0, 0, 0]);
    let met = met_in_order(&past, 1_000_000);
    confirm(&rt, "in order", met == [500_000, 499_999]);
    Ok(())
}

// A past of one vertex of a shape.
fn past_of_one(alloc: Global, now: &Draft, v: u32) -> Result<Past, NoMemory> {
    let mut past = Past::new(alloc, now);
    note_vert(&mut past, v, now)?;
    Ok(past)
}

// Keeps so many pasts of one vertex each of a shape.
fn keep(alloc: Global, pasts: &mut Vec<Past>, now: &Draft, count: u32) -> Result<(), NoMemory> {
    for v in 0..count {
        let past = past_of_one(alloc, now, v)?;
        pasts.push(past)?;
    }
    Ok(())
}

// How many pasts have one note.
fn with_one_note(pasts: &[Past]) -> usize {
    let mut found: usize = 0;
    for past in pasts {
        if counts(past) == [1, 0, 0, 0] {
            found = found.saturating_add(1);
        }
    }
    found
}

// How many of many pasts of one vertex each have one note. The shape has a million vertices: where a past cost
// more than its own note, there would not be memory for so many.
fn kept(alloc: Global) -> Result<usize, NoMemory> {
    let now = row_of_verts(alloc, 1_000_000)?;
    let mut pasts = Vec::new(alloc);
    keep(alloc, &mut pasts, &now, 100_000)?;
    Ok(with_one_note(&pasts))
}

#[test]
fn pasts_of_one_vertex_each(rt: HostRuntime) -> Result<(), Fail> {
    let found = kept(rt.alloc())?;
    confirm(&rt, "one note each", found == 100_000);
    Ok(())
}
