//! Numbers that decimal digits spell.
ghost use Rattle.std.specs.Prelude.{◌≡◌, ◌≤◌, ◌<◌, ◌^◌, ◌<ℤ◌, pos, neg_ℤ, true, length, min, IfSome};
ghost use Rattle.std.specs.List.{list_all};
ghost use Rattle.text_words.specs.Text.{is_digit, are_digits, is_numeral, value, natural, capped, up_to, integer};

/// The number that one or more decimal digits spell, or `most` where it is greater; None where the
/// bytes aren't such digits. There may be any number of them. Takes time in proportion to the bytes.
pub fn capped(ds: &[u8], most: u64) -> Option<u64>
    ensures { result ≡ capped most ds.now }
{
    if is_numeral(ds) {
        Some(capped_value(ds, most))
    } else {
        None
    }
}

/// The number that one or more decimal digits spell, or None where the bytes aren't such digits or it is above
/// `most`. There may be any number of them. Takes time in proportion to the bytes.
pub fn up_to(ds: &[u8], most: u32) -> Option<u32>
    ensures same { result ≡ up_to most ds.now }
    ensures below { IfSome result (λ n. n ≤ most) }
{
    if !is_numeral(ds) {
        return None;
    }
    let n = capped_value(ds, most as u64 + 1);
    if n <= most as u64 {
        Some(n as u32)
    } else {
        None
    }
}

/// The number that 1 to `most` decimal digits spell, or None where the bytes aren't such digits.
/// Leading zeros are digits like any other. Takes time in proportion to the bytes.
#[tactic(auto, using(crate::proofs::NumberLemmas::uncapped))]
pub fn natural(ds: &[u8], most: usize) -> Option<u64>
    requires { most ≤ 18 }
    ensures same { result ≡ natural most ds.now }
    ensures below { IfSome result (λ n. n < 10 ^ most) }
{
    if are_digits(ds, most) {
        Some(capped_value(ds, u64::MAX))
    } else {
        None
    }
}

/// The number that an optional minus and 1 to `most` decimal digits spell, or None where the word
/// isn't of that form. Takes time in proportion to the word.
#[tactic(auto, using(crate::proofs::NumberLemmas::power_of_ten_fits))]
pub fn integer(word: &[u8], most: usize) -> Option<i64>
    requires { most ≤ 18 }
    ensures same { result ≡ integer most word.now }
    ensures above { IfSome result (λ z. neg_ℤ (pos (10 ^ most)) <ℤ z) }
    ensures below { IfSome result (λ z. z <ℤ pos (10 ^ most)) }
{
    match word {
        [] => None,
        [b'-', ds @ ..] => match natural(ds, most) {
            Some(n) => Some(negative(n)),
            None => None,
        },
        _ => match natural(word, most) {
            Some(n) => Some(n as i64),
            None => None,
        },
    }
}

fn negative(n: u64) -> i64
    requires { n < 10 ^ 18 }
    ensures { result ≡ neg_ℤ (pos n) }
{
    -(n as i64)
}

fn are_digits(ds: &[u8], most: usize) -> bool
    ensures { result ≡ are_digits most ds.now }
{
    ds.len() <= most && is_numeral(ds)
}

fn is_numeral(ds: &[u8]) -> bool
    ensures { result ≡ is_numeral ds.now }
{
    0 < ds.len() && all_digits(ds)
}

fn all_digits(ds: &[u8]) -> bool
    ensures { result ≡ list_all is_digit ds.now }
{
    ds.iter().all(|b| is_digit(*b))
}

fn is_digit(b: u8) -> bool
    ensures { result ≡ is_digit b }
{
    b'0' <= b && b <= b'9'
}

// What the digits spell, or `most` where it is greater.
fn capped_value(ds: &[u8], most: u64) -> u64
    requires { list_all is_digit ds.now ≡ true }
    ensures same { result ≡ min most (value ds.now) }
    ensures below { result < 10 ^ length ds.now }
{
    let mut n: u64 = 0;
    for d in ds {
        n = most.min(n.saturating_mul(10).saturating_add((*d - b'0') as u64));
    }
    n
}
