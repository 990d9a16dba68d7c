//! Values summed over all elements.

use crate::confirm::confirm;
use layer_sums::{Totals, numbers_named};
use mesh_model::{Draft, Kind, LayerDecl, NoMemory, Rule, Shape, Text};
use sample_drafts::square;
use std::alloc::Global;
use std::process::Abort;
use std::test::Fail;

// A layer that is declared for a kind.
fn declared(alloc: Global, kind: Kind) -> Result<LayerDecl, NoMemory> {
    let mut name = Text::new(alloc);
    name.push(b'w')?;
    Ok(LayerDecl {
        kind,
        name,
        width: 1,
        rule: Rule::Mix,
    })
}

// Whether the numbers of a layer have these sums.
fn have_sums(
    rt: &impl Abort,
    draft: &Draft,
    totals: &Totals,
    kind: Kind,
    name: &[u8],
    sums: &[i64],
) -> bool {
    let row = totals.row(kind);
    let long = row.len();
    let wide = draft.width(kind);
    confirm(rt, "a sum for each number", long == wide);
    numbers_named(draft, kind, name, row) == sums
}

// The places of a square's corners, its material and its smoothing group are summed.
fn square_summed(rt: &impl Abort, alloc: Global) -> Result<(), NoMemory> {
    let draft = square(alloc, 0, -9)?;
    let mut layers = Vec::new(alloc);
    layers.push(declared(alloc, Kind::Faces)?)?;
    layers.push(declared(alloc, Kind::Corners)?)?;
    let totals = Totals::of(alloc, &draft, &layers)?;
    let places = have_sums(rt, &draft, &totals, Kind::Corners, b"uv", &[-4, 12]);
    confirm(rt, "places", places);
    let materials = have_sums(rt, &draft, &totals, Kind::Faces, b"material", &[2]);
    confirm(rt, "materials", materials);
    let groups = have_sums(rt, &draft, &totals, Kind::Faces, b"smooth", &[3]);
    confirm(rt, "smoothing groups", groups);
    let none = have_sums(rt, &draft, &totals, Kind::Faces, b"w", &[]);
    confirm(rt, "no such layer", none);
    Ok(())
}

#[test]
fn values_are_summed(rt: HostRuntime) -> Result<(), Fail> {
    square_summed(&rt, rt.alloc())?;
    Ok(())
}
