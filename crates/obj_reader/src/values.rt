//! What the words of a line spell.
ghost use Rattle.std.specs.Prelude.{◌≡◌, ◌≤◌, map, IsTrue, IfOk, IfSome};
ghost use Rattle.std.specs.List.{All, list_all};
ghost use Rattle.text_words.specs.Each.{each};
ghost use Rattle.text_words.specs.Outcome.{Gives};
ghost use Rattle.obj_format.specs.Numbers.{is_numeral};
ghost use Rattle.obj_format.specs.Indices.{corner, IsRead};
ghost use Rattle.mesh_model.specs.Valid.{is_in_range, is_on_grid};
ghost use Rattle.obj_reader.specs.Holding.{IsPlace, IsRing, IsChain};
ghost use Rattle.obj_reader.specs.Values.{uncommented, point_of, second, third, texture_of, is_normal, smooth_word};
ghost use Rattle.obj_reader.specs.Values.{smooth_of, stutters, corners_of, ring_of, wire_of, dots_of};

use crate::marks::Marks;
use mesh_model::limits::{MAX_SIDES, MIN_SIDES};
use mesh_model::{NoMemory, Point, Sequence};
use obj_format::{Corner, Counts, ObjWhy, Uv, corner_of, is_hash_first, is_numeral, number};
use std::alloc::Global;
use text_words::{Stop, is_text, up_to};

/// The words before the first that begins with `#`.
pub fn uncommented<'a, 'b>(words: &'b [&'a [u8]]) -> &'b [&'a [u8]]
    ensures { map (λ w. w.now) result.now ≡ uncommented (map (λ w. w.now) words.now) }
{
    for k in 0..words.len() {
        if is_hash_first(words[k]) {
            return &words[..k];
        }
    }
    words
}

fn all_numerals(words: &[&[u8]]) -> bool
    ensures { result ≡ list_all (λ w. is_numeral w.now) words.now }
{
    words.iter().all(|w| is_numeral(w))
}

fn are_numerals(words: &[&[u8]]) -> bool
    ensures { result ≡ list_all is_numeral (map (λ w. w.now) words.now) }
{
    all_numerals(words)
}

/// The point of a `v` line: three numbers at a scale, and up to four more that are tried for their form.
#[tactic(auto, using(crate::proofs::HoldingLemmas::on_grid))]
pub fn point_of(scale: usize, words: &[&[u8]]) -> Result<Point, ObjWhy>
    requires { scale ≤ 6 }
    ensures same { result ≡ point_of scale (map (λ w. w.now) words.now) }
    ensures grid { IfOk result (λ p. IsTrue (is_on_grid p)) }
{
    match words {
        [x, y, z, more @ ..] => {
            if 4 < more.len() {
                return Err(ObjWhy::BadNumber);
            }
            let x = number(x, scale)?;
            let y = number(y, scale)?;
            let z = number(z, scale)?;
            if are_numerals(more) {
                Ok(Point { x, y, z })
            } else {
                Err(ObjWhy::BadNumber)
            }
        }
        _ => Err(ObjWhy::BadNumber),
    }
}

// The second number, 0 where there is none.
fn second(words: &[&[u8]]) -> Result<i64, ObjWhy>
    ensures same { result ≡ second (map (λ w. w.now) words.now) }
    ensures grid { IfOk result (λ z. IsTrue (is_in_range z)) }
{
    match words {
        [] => Ok(0),
        [v, ..] => number(v, 6),
    }
}

// Whether the words after the first are numbers.
fn third(words: &[&[u8]]) -> bool
    ensures { result ≡ third (map (λ w. w.now) words.now) }
{
    match words {
        [] => true,
        [_, rest @ ..] => are_numerals(rest),
    }
}

/// The place of a `vt` line: one to three numbers in millionths, the third tried for its form.
pub fn texture_of(words: &[&[u8]]) -> Result<Uv, ObjWhy>
    ensures same { result ≡ texture_of (map (λ w. w.now) words.now) }
    ensures grid { IfOk result IsPlace }
{
    match words {
        [] => Err(ObjWhy::BadNumber),
        [u, more @ ..] => {
            if 2 < more.len() {
                return Err(ObjWhy::BadNumber);
            }
            let u = number(u, 6)?;
            let v = second(more)?;
            if third(more) {
                Ok(Uv { u, v })
            } else {
                Err(ObjWhy::BadNumber)
            }
        }
    }
}

/// Whether the words are those of a `vn` line: exactly three numbers.
pub fn is_normal(words: &[&[u8]]) -> bool
    ensures { result ≡ is_normal (map (λ w. w.now) words.now) }
{
    words.len() == 3 && are_numerals(words)
}

fn smooth_word(word: &[u8]) -> Option<u32>
    ensures same { result ≡ smooth_word word.now }
    ensures most { IfSome result (λ n. n ≤ 1000000000) }
{
    if is_text(b"off", word) {
        Some(0)
    } else if is_text(b"on", word) {
        Some(1)
    } else {
        up_to(word, 1_000_000_000)
    }
}

/// The smoothing group of an `s` line: one word, `off`, `on` or digits.
pub fn smooth_of(words: &[&[u8]]) -> Option<u32>
    ensures same { result ≡ smooth_of (map (λ w. w.now) words.now) }
    ensures most { IfSome result (λ n. n ≤ 1000000000) }
{
    match words {
        [] => None,
        [word] => smooth_word(word),
        [_, _, ..] => None,
    }
}

// Whether a vertex stands twice in a row.
fn stutters(corners: &[Corner]) -> bool
    ensures { result ≡ stutters corners.now }
{
    let mut rest = corners;
    while let [a, more @ ..] = rest {
        if let [b, ..] = more {
            if a.vert == b.vert {
                return true;
            }
        }
        rest = more;
    }
    false
}

fn each_corner(
    alloc: Global,
    counts: Counts,
    words: &[&[u8]],
) -> Result<Option<Sequence<Corner>>, NoMemory>
    ensures same { IfOk result (λ ks. ks ≡ each (λ w. corner counts w.now) words.now) }
    ensures read { IfOk result (λ ks. IfSome ks (All (IsRead counts))) }
{
    let mut corners = Sequence::new(alloc);
    for word in words {
        match corner_of(counts, word) {
            Some(corner) => corners.push(corner)?,
            None => return Ok(None),
        }
    }
    Ok(Some(corners))
}

fn corners_of(
    alloc: Global,
    counts: Counts,
    words: &[&[u8]],
) -> Result<Sequence<Corner>, Stop<ObjWhy>>
    ensures same { Gives result (corners_of counts (map (λ w. w.now) words.now)) }
    ensures read { IfOk result (All (IsRead counts)) }
{
    let corners = each_corner(alloc, counts, words)?;
    match corners {
        Some(corners) => Ok(corners),
        None => Err(Stop::Fault(ObjWhy::BadIndex)),
    }
}

/// The corners of a face.
#[tactic(auto, using(text_words::proofs::OutcomeLemmas::stops_on))]
pub fn ring_of(
    alloc: Global,
    marks: &mut Marks,
    counts: Counts,
    words: &[&[u8]],
) -> Result<Sequence<Corner>, Stop<ObjWhy>>
    ensures same { Gives result (ring_of counts (map (λ w. w.now) words.now)) }
    ensures read { IfOk result (All (IsRead counts)) }
    ensures ring { IfOk result IsRing }
{
    let corners = corners_of(alloc, counts, words)?;
    if corners.len() < MIN_SIDES as usize {
        return Err(Stop::Fault(ObjWhy::TooShort));
    }
    if (MAX_SIDES as usize) < corners.len() {
        return Err(Stop::Fault(ObjWhy::TooLong));
    }
    if !marks.are_distinct(counts, corners.as_slice())? {
        return Err(Stop::Fault(ObjWhy::Repeated));
    }
    Ok(corners)
}

/// The corners of a chain of edges.
#[tactic(auto, using(text_words::proofs::OutcomeLemmas::stops_on))]
pub fn wire_of(
    alloc: Global,
    counts: Counts,
    words: &[&[u8]],
) -> Result<Sequence<Corner>, Stop<ObjWhy>>
    ensures same { Gives result (wire_of counts (map (λ w. w.now) words.now)) }
    ensures read { IfOk result (All (IsRead counts)) }
    ensures chain { IfOk result IsChain }
{
    let corners = corners_of(alloc, counts, words)?;
    if corners.len() < 2 {
        return Err(Stop::Fault(ObjWhy::TooShort));
    }
    if stutters(corners.as_slice()) {
        return Err(Stop::Fault(ObjWhy::Repeated));
    }
    Ok(corners)
}

/// The corners of a line of points.
#[tactic(auto, using(text_words::proofs::OutcomeLemmas::stops_on))]
pub fn dots_of(
    alloc: Global,
    counts: Counts,
    words: &[&[u8]],
) -> Result<Sequence<Corner>, Stop<ObjWhy>>
    ensures { Gives result (dots_of counts (map (λ w. w.now) words.now)) }
{
    let corners = corners_of(alloc, counts, words)?;
    if corners.is_empty() {
        return Err(Stop::Fault(ObjWhy::TooShort));
    }
    Ok(corners)
}
