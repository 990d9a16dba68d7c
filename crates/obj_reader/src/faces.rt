//! Faces.
ghost use Rattle.std.specs.Prelude.{◌≡◌, ◌≤◌, ◌+◌, ℕ, ℤ, IsTrue, map, length, IfOk, OnOk};
ghost use Rattle.std.specs.List.{All};
ghost use Rattle.text_words.specs.Outcome.{Leaves};
ghost use Rattle.mesh_model.specs.Incidence.{sides};
ghost use Rattle.mesh_model.specs.Making.{with_face_told};
ghost use Rattle.mesh_model.specs.Valid.{IsSound};
ghost use Rattle.obj_reader.specs.Statements.{fits, limited, told, uv_at, with_ring};
ghost use Rattle.obj_reader.specs.Holding.{AreParts, told_sides, has_corner_room, IsPolygonTold, IsReady};

use crate::edges::{make_edges, pairs, vert_of};
use crate::items::counts;
use crate::marks::Marks;
use crate::named_draft::NamedDraft;
use crate::parts::Parts;
use crate::values::ring_of;
use mesh_model::limits::{MAX_CORNERS, MAX_FACES};
use mesh_model::{DraftCorner, NoMemory, VertName};
use obj_format::{Corner, ObjWhy, Uv};
use std::alloc::Global;
use text_words::Stop;

// The sides of a polygon.
fn sides(alloc: Global, verts: &[VertName]) -> Result<Vec<(VertName, VertName)>, NoMemory>
    requires { 1 ≤ length verts.now }
    ensures { IfOk result (λ v. v.items ≡ sides verts.now) }
{
    let mut next = Vec::new(alloc);
    next.extend_from_slice(&verts[1..])?;
    next.extend_from_slice(&verts[..1])?;
    pairs(alloc, verts, &next)
}

fn verts_told(alloc: Global, corners: &[DraftCorner]) -> Result<Vec<VertName>, NoMemory>
    ensures { IfOk result (λ v. v.items ≡ map (λ k. k.vert) corners.now) }
{
    corners.iter().map(|k| k.vert).collect(alloc)
}

fn uv_at(textures: &[Uv], texture: Option<u32>) -> [i64; 2]
    ensures { result ≡ uv_at textures.now texture }
{
    match texture {
        None => [0, 0],
        Some(t) => match textures.get(t as usize) {
            Some(uv) => [uv.u, uv.v],
            None => [0, 0],
        },
    }
}

fn told(textures: &[Uv], k: Corner) -> DraftCorner
    ensures { result ≡ told textures.now k }
{
    DraftCorner {
        vert: vert_of(k),
        uv: uv_at(textures, k.texture),
    }
}

fn corners_told(
    alloc: Global,
    textures: &[Uv],
    corners: &[Corner],
) -> Result<Vec<DraftCorner>, NoMemory>
    ensures { IfOk result (λ v. v.items ≡ map (told textures.now) corners.now) }
{
    corners.iter().map(|k| told(textures, *k)).collect(alloc)
}

// The sides of a polygon as it is told.
fn told_sides(alloc: Global, corners: &[DraftCorner]) -> Result<Vec<(VertName, VertName)>, NoMemory>
    requires { 1 ≤ length corners.now }
    ensures { IfOk result (λ v. v.items ≡ told_sides corners.now) }
{
    let verts = verts_told(alloc, corners)?;
    sides(alloc, &verts)
}

// Whether the limits on faces and corners leave room for a face on some corners.
fn has_corner_room(draft: &NamedDraft, corners: &[DraftCorner]) -> bool
    ensures { result ≡ has_corner_room draft.now (length corners.now) }
{
    let counters = draft.counters();
    counters.faces < MAX_FACES && counters.corners as usize + corners.len() <= MAX_CORNERS as usize
}

// Answers whether a face on some corners fits. Where there may be too many edges, makes the missing ones.
fn has_face_room(
    alloc: Global,
    draft: &mut NamedDraft,
    corners: &[DraftCorner],
) -> Result<bool, NoMemory>
    requires polygon { IsPolygonTold draft.old corners.now }
    requires sound { IsSound draft.old }
    ensures fits { IfOk result (λ b. (material smooth : ℤ)
        → b ≡ fits (with_face_told draft.old corners.now material smooth)) }
    ensures ready { IfOk result (λ b. IsTrue b → IsReady draft.old draft.new corners.now) }
{
    if draft.has_room(corners.len()) {
        return Ok(true);
    }
    if !has_corner_room(draft, corners) {
        return Ok(false);
    }
    let sides = told_sides(alloc, corners)?;
    let fits = make_edges(draft, &sides)?;
    Ok(fits)
}

fn add_polygon(
    alloc: Global,
    corners: &[DraftCorner],
    parts: &mut Parts,
) -> Result<(), Stop<ObjWhy>>
    requires polygon { IsPolygonTold parts.old.draft corners.now }
    requires parts { AreParts 268435457 parts.old }
    ensures told { Leaves result parts.new (limited (with_face_told parts.old.draft corners.now parts.old.material
        parts.old.smooth) parts.old) }
    ensures keeps { (n : ℕ) → AreParts n parts.old → OnOk result (AreParts (n + 1) parts.new) }
{
    let fits = has_face_room(alloc, &mut parts.draft, corners)?;
    if !fits {
        return Err(Stop::Fault(ObjWhy::TooMany));
    }
    parts.draft.add_face(corners, parts.material, parts.smooth)?;
    Ok(())
}

/// An `f` line.
#[tactic(auto, using(text_words::proofs::OutcomeLemmas::stops_on))]
pub fn add_ring(
    alloc: Global,
    words: &[&[u8]],
    marks: &mut Marks,
    parts: &mut Parts,
) -> Result<(), Stop<ObjWhy>>
    requires { AreParts 268435457 parts.old }
    ensures told { Leaves result parts.new (with_ring (map (λ w. w.now) words.now) parts.old) }
    ensures keeps { (n : ℕ) → AreParts n parts.old → OnOk result (AreParts (n + 1) parts.new) }
{
    let corners = ring_of(alloc, marks, counts(parts), words)?;
    let told = corners_told(alloc, parts.textures.as_slice(), corners.as_slice())?;
    add_polygon(alloc, &told, parts)
}
