//! Indices and corners.
ghost use Rattle.std.specs.Prelude.{◌≡◌, ◌≤◌, ◌<◌, IfSome};
ghost use Rattle.obj_format.specs.Indices.{fore, back, index, corner_one, corner_two, corner_three, corner_rest, corner};
ghost use Rattle.obj_format.specs.Indices.{IsRead};

use text_words::{cut, up_to};

/// A corner: the places of its vertex and of its texture item, from 0.
#[derive(Clone, Copy, Debug, PartialEq, Eq)]
pub struct Corner {
    pub vert: u32,
    pub texture: Option<u32>,
}

/// How many items of each kind were read.
#[derive(Clone, Copy, Debug, PartialEq, Eq)]
pub struct Counts {
    pub verts: u32,
    pub textures: u32,
    pub normals: u32,
}

fn fore(n: u32) -> Option<u32>
    ensures same { result ≡ fore n }
    ensures read { IfSome result (λ k. k < n) }
{
    if n == 0 { None } else { Some(n - 1) }
}

fn back(count: u32, n: u32) -> Option<u32>
    requires { n ≤ count }
    ensures same { result ≡ back count n }
    ensures read { IfSome result (λ k. k < count) }
{
    if n == 0 { None } else { Some(count - n) }
}

// The place of an item, from 0.
fn index(count: u32, word: &[u8]) -> Option<u32>
    ensures same { result ≡ index count word.now }
    ensures read { IfSome result (λ k. k < count) }
{
    match word {
        [] => None,
        [b'-', ds @ ..] => match up_to(ds, count) {
            Some(n) => back(count, n),
            None => None,
        },
        _ => match up_to(word, count) {
            Some(n) => fore(n),
            None => None,
        },
    }
}

fn corner_one(counts: Counts, a: &[u8]) -> Option<Corner>
    ensures same { result ≡ corner_one counts a.now }
    ensures read { IfSome result (IsRead counts) }
{
    let vert = index(counts.verts, a)?;
    Some(Corner {
        vert,
        texture: None,
    })
}

fn corner_two(counts: Counts, a: &[u8], b: &[u8]) -> Option<Corner>
    ensures same { result ≡ corner_two counts a.now b.now }
    ensures read { IfSome result (IsRead counts) }
{
    let vert = index(counts.verts, a)?;
    let texture = index(counts.textures, b)?;
    Some(Corner {
        vert,
        texture: Some(texture),
    })
}

fn corner_three(counts: Counts, a: &[u8], b: &[u8], c: &[u8]) -> Option<Corner>
    ensures same { result ≡ corner_three counts a.now b.now c.now }
    ensures read { IfSome result (IsRead counts) }
{
    index(counts.normals, c)?;
    if b.is_empty() {
        corner_one(counts, a)
    } else {
        corner_two(counts, a, b)
    }
}

fn corner_rest(counts: Counts, a: &[u8], rest: &[u8]) -> Option<Corner>
    ensures same { result ≡ corner_rest counts a.now rest.now }
    ensures read { IfSome result (IsRead counts) }
{
    match cut(rest, b'/') {
        Some((b, c)) => corner_three(counts, a, b, c),
        None => corner_two(counts, a, rest),
    }
}

/// The corner of a word: `a`, `a/b`, `a//c` or `a/b/c` with the indices of a vertex, a texture item and a normal,
/// each counted from 1, or back from the last with a minus. None where the word isn't of that form, or no such
/// item was read. Takes time in proportion to the word.
pub fn corner_of(counts: Counts, word: &[u8]) -> Option<Corner>
    ensures same { result ≡ corner counts word.now }
    ensures read { IfSome result (IsRead counts) }
{
    match cut(word, b'/') {
        Some((a, rest)) => corner_rest(counts, a, rest),
        None => corner_one(counts, word),
    }
}
