//! What arguments stand for, over models of vertices and edges.

use crate::confirm::confirm;
use mesh_model::{Draft, Kind, VertName};
use op_slots::{
    Bindings, Buffer, Expr, Fault, MapArg, Mapping, Pair, Slots, Term, Want, resolve, resolve_map,
};
use sample_drafts::{edge, vert};
use sequence::{NoMemory, Text};
use std::alloc::Global;
use std::test::Fail;

// A row of vertices without edges.
fn row_of(alloc: Global, count: u32) -> Result<Draft, NoMemory> {
    let mut draft = Draft::new(alloc);
    for _ in 0..count {
        vert(&mut draft, 0, 0, 0)?;
    }
    Ok(draft)
}

// Four vertices with four edges round them.
fn square_of(alloc: Global) -> Result<Draft, NoMemory> {
    let mut draft = row_of(alloc, 4)?;
    edge(&mut draft, 0, 1)?;
    edge(&mut draft, 1, 2)?;
    edge(&mut draft, 2, 3)?;
    edge(&mut draft, 3, 0)?;
    Ok(draft)
}

// So many equal ranges.
fn ranges_of(
    alloc: Global,
    kind: Kind,
    first: u32,
    last: u32,
    count: usize,
) -> Result<Expr, NoMemory> {
    let mut terms = Expr::new(alloc);
    for _ in 0..count {
        terms.push(Term::Range(kind, first, last))?;
    }
    Ok(terms)
}

// How many vertices and edges a value has, or None where there is none.
fn counts_of(
    alloc: Global,
    terms: &Expr,
    want: Want,
    draft: &Draft,
) -> Result<Option<(usize, usize)>, NoMemory> {
    match resolve(alloc, terms, want, draft, &Bindings::new(alloc)) {
        Ok(value) => Ok(Some((value.verts().len(), value.edges().len()))),
        Err(Fault::Refused(_)) => Ok(None),
        Err(Fault::NoMemory) => Err(NoMemory),
    }
}

// Whether the edges 0 to 3 of a square are its four edges.
fn edges_of_square(alloc: Global) -> Result<bool, NoMemory> {
    let draft = square_of(alloc)?;
    let terms = ranges_of(alloc, Kind::Edges, 0, 3, 1)?;
    let found = counts_of(alloc, &terms, Want::Edges, &draft)?;
    Ok(found == Some((0, 4)))
}

// How many pairs of vertices the pair `v1:v0` is on a square, or None where it is refused.
fn pairs_of_square(alloc: Global) -> Result<Option<usize>, NoMemory> {
    let draft = square_of(alloc)?;
    let mut pairs = Mapping::new(alloc);
    pairs.push(Pair {
        source: VertName(1),
        target: VertName(0),
    })?;
    match resolve_map(alloc, &MapArg::Pairs(pairs), &draft, &Bindings::new(alloc)) {
        Ok(value) => Ok(Some(value.len())),
        Err(Fault::Refused(_)) => Ok(None),
        Err(Fault::NoMemory) => Err(NoMemory),
    }
}

// Whether so many ranges over a long model, and past its end, stand for all its vertices.
fn all_of_a_long_model(alloc: Global, count: usize) -> Result<bool, NoMemory> {
    let draft = row_of(alloc, 100_000)?;
    let terms = ranges_of(alloc, Kind::Verts, 0, 999_999_999, count)?;
    let found = counts_of(alloc, &terms, Want::Any, &draft)?;
    Ok(found == Some((100_000, 0)))
}

fn is_named(binding: Option<(Text, Slots)>, name: &[u8]) -> bool {
    match binding {
        Some((bound, _)) => bound.as_slice() == name,
        None => false,
    }
}

// Whether a binding can be had, and taken off once.
fn binding_comes_and_goes(alloc: Global) -> Result<bool, NoMemory> {
    let mut bindings = Bindings::new(alloc);
    bindings.reserve(1)?;
    let name = Text::of(alloc, b"a")?;
    let slots = Slots {
        geom: Buffer::new(alloc),
        map: Mapping::new(alloc),
    };
    bindings.push(name, slots);
    let had = bindings.get(b"a").is_some() && bindings.get(b"b").is_none();
    let taken = is_named(bindings.pop(), b"a");
    let gone = bindings.pop().is_none();
    Ok(had && taken && gone)
}

#[test]
fn ranges_and_pairs_of_a_square(rt: HostRuntime) -> Result<(), Fail> {
    confirm(&rt, "four edges", edges_of_square(rt.alloc())?);
    let pairs = pairs_of_square(rt.alloc())?;
    confirm(&rt, "one pair", pairs == Some(1));
    Ok(())
}

#[test]
fn many_ranges_of_a_long_model(rt: HostRuntime) -> Result<(), Fail> {
    confirm(
        &rt,
        "each vertex once",
        all_of_a_long_model(rt.alloc(), 4_096)?,
    );
    Ok(())
}

#[test]
fn bindings_come_and_go(rt: HostRuntime) -> Result<(), Fail> {
    confirm(
        &rt,
        "had, taken and gone",
        binding_comes_and_goes(rt.alloc())?,
    );
    Ok(())
}
