//! Edges.
ghost use Rattle.std.specs.Prelude.{◌≡◌, ◌≢◌, ◌≤◌, ◌+◌, ℕ, IsTrue, nat_le, map, length, IfOk, OnOk};
ghost use Rattle.std.specs.List.{All, zip};
ghost use Rattle.text_words.specs.Outcome.{Leaves};
ghost use Rattle.mesh_model.specs.Table.{IsThere};
ghost use Rattle.mesh_model.specs.Making.{edge_between, edges_along};
ghost use Rattle.mesh_model.specs.Valid.{IsSound};
ghost use Rattle.mesh_model.specs.declared.limits.TheConstants.{MAX_EDGES};
ghost use Rattle.obj_reader.specs.Values.{vert_of};
ghost use Rattle.obj_reader.specs.Statements.{limited, with_wire};
ghost use Rattle.obj_reader.specs.Holding.{AreParts, chain_sides, IsSide};

use crate::items::counts;
use crate::named_draft::NamedDraft;
use crate::parts::Parts;
use crate::values::wire_of;
use mesh_model::{NoMemory, VertName};
use obj_format::{Corner, ObjWhy};
use std::alloc::Global;
use text_words::Stop;

// Makes the edge between two vertices if there is none, and answers whether it is within the limit.
#[tactic(auto, using(crate::proofs::RuleSets::sides))]
fn make_edge(draft: &mut NamedDraft, a: VertName, b: VertName) -> Result<bool, NoMemory>
    requires a { IsThere draft.old.verts a.0 }
    requires b { IsThere draft.old.verts b.0 }
    requires differ { a.0 ≢ b.0 }
    requires sound { IsSound draft.old }
    ensures made { IfOk result (λ r. IsTrue r → draft.new ≡ (edge_between draft.old a b).0) }
    ensures fits { IfOk result (λ r. r ≡ nat_le (length (edge_between draft.old a b).0.edges) MAX_EDGES) }
    ensures sound { IfOk result (λ r. IsTrue r → IsSound draft.new) }
{
    if draft.has_edge_room() {
        draft.edge_between(a, b)?;
        return Ok(true);
    }
    let found = draft.find_edge(a, b)?;
    Ok(found.is_some())
}

/// Makes the edges along some sides that aren't there, and answers whether they are within the limit.
pub fn make_edges(draft: &mut NamedDraft, sides: &[(VertName, VertName)]) -> Result<bool, NoMemory>
    requires sides { All (IsSide draft.old.verts) sides.now }
    requires sound { IsSound draft.old }
    ensures made { IfOk result (λ r. IsTrue r → draft.new ≡ (edges_along draft.old sides.now).0) }
    ensures fits { IfOk result (λ r. r ≡ nat_le (length (edges_along draft.old sides.now).0.edges) MAX_EDGES) }
    ensures sound { IfOk result (λ r. IsTrue r → IsSound draft.new) }
{
    for side in sides {
        let fits = make_edge(draft, side.0, side.1)?;
        if !fits {
            return Ok(false);
        }
    }
    Ok(true)
}

/// Each of some vertices with the one at the same place among others.
pub fn pairs(
    alloc: Global,
    firsts: &[VertName],
    seconds: &[VertName],
) -> Result<Vec<(VertName, VertName)>, NoMemory>
    ensures { IfOk result (λ v. v.items ≡ zip firsts.now seconds.now) }
{
    firsts
        .iter()
        .copied()
        .zip(seconds.iter().copied())
        .collect(alloc)
}

/// The vertex of a corner.
pub fn vert_of(k: Corner) -> VertName
    ensures { result ≡ vert_of k }
{
    VertName(k.vert)
}

fn verts_of(alloc: Global, corners: &[Corner]) -> Result<Vec<VertName>, NoMemory>
    ensures { IfOk result (λ v. v.items ≡ map vert_of corners.now) }
{
    corners.iter().map(|k| vert_of(*k)).collect(alloc)
}

// The sides of a chain.
fn chain_sides(alloc: Global, corners: &[Corner]) -> Result<Vec<(VertName, VertName)>, NoMemory>
    requires { 1 ≤ length corners.now }
    ensures { IfOk result (λ v. v.items ≡ chain_sides corners.now) }
{
    let verts = verts_of(alloc, corners)?;
    pairs(alloc, &verts, &verts[1..])
}

fn add_edges(sides: &[(VertName, VertName)], parts: &mut Parts) -> Result<(), Stop<ObjWhy>>
    requires sides { All (IsSide parts.old.draft.verts) sides.now }
    requires sound { IsSound parts.old.draft }
    ensures told { Leaves result parts.new (limited (edges_along parts.old.draft sides.now).0 parts.old) }
    ensures keeps { (n : ℕ) → AreParts n parts.old → OnOk result (AreParts (n + 1) parts.new) }
{
    let fits = make_edges(&mut parts.draft, sides)?;
    if !fits {
        return Err(Stop::Fault(ObjWhy::TooMany));
    }
    Ok(())
}

/// An `l` line.
#[tactic(auto, using(text_words::proofs::OutcomeLemmas::stops_on))]
pub fn add_wire(alloc: Global, words: &[&[u8]], parts: &mut Parts) -> Result<(), Stop<ObjWhy>>
    requires { AreParts 268435457 parts.old }
    ensures told { Leaves result parts.new (with_wire (map (λ w. w.now) words.now) parts.old) }
    ensures keeps { (n : ℕ) → AreParts n parts.old → OnOk result (AreParts (n + 1) parts.new) }
{
    let corners = wire_of(alloc, counts(parts), words)?;
    let sides = chain_sides(alloc, corners.as_slice())?;
    add_edges(&sides, parts)
}
