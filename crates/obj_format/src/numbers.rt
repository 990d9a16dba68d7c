//! Numbers at a scale.
ghost use Rattle.std.specs.Prelude.{◌≡◌, ◌≤◌, ◌<◌, ◌+◌, ◌++◌, true, IsTrue, IfOk, length, min, slice_index};
ghost use Rattle.std.specs.List.{list_all};
ghost use Rattle.text_words.specs.Text.{is_digit, value};
ghost use Rattle.mesh_model.specs.Valid.{is_in_range};
ghost use Rattle.obj_format.specs.Numbers.{halves, is_number, is_zero, padded, in_range, unsigned, number, is_numeral};

use crate::obj_fault::ObjWhy;
use text_words::cut;

// One above the greatest number of units.
const TOO_FAR: u64 = 1_000_000_001;

fn all_digits(ds: &[u8]) -> bool
    ensures { result ≡ list_all is_digit ds.now }
{
    ds.iter().all(|b| b'0' <= *b && *b <= b'9')
}

fn all_zeros(ds: &[u8]) -> bool
    ensures { result ≡ list_all is_zero ds.now }
{
    ds.iter().all(|b| *b == b'0')
}

fn is_number(whole: &[u8], part: &[u8]) -> bool
    ensures { result ≡ is_number whole.now part.now }
{
    (all_digits(whole) && all_digits(part)) && 0 < whole.len() + part.len()
}

// The digit at a place of the whole digits and as many more as the scale has.
fn digit_at(whole: &[u8], part: &[u8], k: usize, scale: usize) -> u8
    requires { k < length whole.now + scale }
    ensures { result ≡ slice_index (whole.now ++ padded scale part.now) k }
{
    if k < whole.len() {
        whole[k]
    } else if k - whole.len() < part.len() {
        part[k - whole.len()]
    } else {
        b'0'
    }
}

// The number of units that the digits spell, or one that is too far.
fn units(whole: &[u8], part: &[u8], scale: usize) -> u64
    requires few { scale ≤ 6 }
    requires whole_digits { list_all is_digit whole.now ≡ true }
    requires part_digits { list_all is_digit part.now ≡ true }
    ensures { result ≡ min 1000000001 (value (whole.now ++ padded scale part.now)) }
{
    let mut n = 0;
    for k in 0..whole.len() + scale {
        let d = digit_at(whole, part, k, scale) - b'0';
        n = TOO_FAR.min(10 * n + d as u64);
    }
    n
}

fn in_range(negative: bool, n: u64) -> Result<i64, ObjWhy>
    ensures same { result ≡ in_range negative n }
    ensures grid { IfOk result (λ z. IsTrue (is_in_range z)) }
{
    if n > 1_000_000_000 {
        return Err(ObjWhy::OutOfGrid);
    }
    if negative {
        Ok(-(n as i64))
    } else {
        Ok(n as i64)
    }
}

fn unsigned(negative: bool, whole: &[u8], part: &[u8], scale: usize) -> Result<i64, ObjWhy>
    requires { scale ≤ 6 }
    ensures same { result ≡ unsigned scale negative whole.now part.now }
    ensures grid { IfOk result (λ z. IsTrue (is_in_range z)) }
{
    if !is_number(whole, part) {
        return Err(ObjWhy::BadNumber);
    }
    if part.len() > scale && !all_zeros(&part[scale..]) {
        return Err(ObjWhy::OffGrid);
    }
    in_range(negative, units(whole, part, scale))
}

fn halves(negative: bool, word: &[u8], scale: usize) -> Result<i64, ObjWhy>
    requires { scale ≤ 6 }
    ensures same { result ≡ halves scale negative word.now }
    ensures grid { IfOk result (λ z. IsTrue (is_in_range z)) }
{
    match cut(word, b'.') {
        Some((whole, part)) => unsigned(negative, whole, part, scale),
        None => unsigned(negative, word, b"", scale),
    }
}

/// The units that a word spells at a scale: an optional sign, and digits with at most one point and at least
/// one digit, else `BadNumber`; with no digit but 0 past `scale` decimals, else `OffGrid`; at most 1,000,000,000
/// units, else `OutOfGrid`. Takes time in proportion to the word.
pub fn number(word: &[u8], scale: usize) -> Result<i64, ObjWhy>
    requires { scale ≤ 6 }
    ensures same { result ≡ number scale word.now }
    ensures grid { IfOk result (λ z. IsTrue (is_in_range z)) }
{
    match word {
        [b'-', rest @ ..] => halves(true, rest, scale),
        [b'+', rest @ ..] => halves(false, rest, scale),
        _ => halves(false, word, scale),
    }
}

/// Whether a word has the form of a number.
pub fn is_numeral(word: &[u8]) -> bool
    ensures { result ≡ is_numeral word.now }
{
    match number(word, 0) {
        Err(ObjWhy::BadNumber) => false,
        _ => true,
    }
}
