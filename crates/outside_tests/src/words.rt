//! Lines, words and numbers of a text.

ghost use Rattle.std.specs.Prelude.{◌≤◌};

use crate::confirm::confirm;
use std::alloc::{AllocError, Global};
use std::process::Abort;
use std::test::Fail;
use text_words::{capped, integer, is_text, lines, natural, parts, words};

// A caller's cast and product, for which the clauses on the range must be enough.
fn millionths(word: &[u8]) -> Option<i64> {
    match integer(word, 9) {
        Some(z) => Some(z * 1_000_000),
        None => None,
    }
}

fn index(word: &[u8]) -> Option<u32> {
    match natural(word, 9) {
        Some(n) => Some(n as u32),
        None => None,
    }
}

// A word is this number without a sign, of at most 18 digits.
fn is_natural(rt: &impl Abort, word: &[u8], number: u64) {
    confirm(rt, "a number", natural(word, 18) == Some(number));
}

// A word is no number of so many digits.
fn is_no_natural(rt: &impl Abort, word: &[u8], most: usize)
    requires { most ≤ 18 }
{
    confirm(rt, "no number", natural(word, most).is_none());
}

// A word is this number with or without a sign, of at most 18 digits.
fn is_integer(rt: &impl Abort, word: &[u8], number: i64) {
    confirm(rt, "a signed number", integer(word, 18) == Some(number));
}

#[test]
fn numbers_as_written(rt: HostRuntime) {
    is_natural(&rt, b"000000000000000018", 18);
    is_natural(&rt, b"999999999999999999", 999_999_999_999_999_999);
    is_no_natural(&rt, b"1000000000000000000", 18);
    is_no_natural(&rt, b"1", 0);
    is_no_natural(&rt, b"/", 3);
    is_no_natural(&rt, b":", 3);
    is_integer(&rt, b"-999999999999999999", -999_999_999_999_999_999);
    is_integer(&rt, b"42", 42);
    confirm(&rt, "no sign inside", integer(b"4-2", 9).is_none());
}

#[test]
fn numbers_are_used(rt: HostRuntime) {
    let least = Some(-999_999_999_000_000);
    confirm(&rt, "a product", millionths(b"-999999999") == least);
    confirm(&rt, "a cast", index(b"999999999") == Some(999_999_999));
}

// A list of words, written one behind another with bars between them.
fn barred(alloc: Global, words: &[&[u8]]) -> Result<Vec<u8>, AllocError> {
    let mut text = Vec::new(alloc);
    for word in words {
        text.extend_from_slice(word)?;
        text.push(b'|')?;
    }
    Ok(text)
}

// A text's lines, its words and its parts between commas are these.
fn has_pieces(rt: &impl Abort, pieces: &[u8], wanted: &[u8]) {
    confirm(rt, "pieces", pieces == wanted);
}

fn barred_lines(alloc: Global, text: &[u8]) -> Result<Vec<u8>, AllocError> {
    let lines = lines(alloc, text)?;
    barred(alloc, &lines)
}

fn barred_words(alloc: Global, line: &[u8]) -> Result<Vec<u8>, AllocError> {
    let words = words(alloc, line)?;
    barred(alloc, &words)
}

fn barred_parts(alloc: Global, word: &[u8]) -> Result<Vec<u8>, AllocError> {
    let parts = parts(alloc, word, b',')?;
    barred(alloc, &parts)
}

#[test]
fn lines_of_a_text(rt: HostRuntime) -> Result<(), Fail> {
    let lines = barred_lines(rt.alloc(), b"f 1\r\n\n v  2\t3 \n")?;
    has_pieces(&rt, &lines, b"f 1\r|| v  2\t3 ||");
    Ok(())
}

#[test]
fn words_of_a_line(rt: HostRuntime) -> Result<(), Fail> {
    let words = barred_words(rt.alloc(), b" v  2\t3 ")?;
    has_pieces(&rt, &words, b"v|2|3|");
    Ok(())
}

#[test]
fn parts_of_a_word(rt: HostRuntime) -> Result<(), Fail> {
    let parts = barred_parts(rt.alloc(), b",a,,b")?;
    has_pieces(&rt, &parts, b"|a||b|");
    Ok(())
}

#[test]
fn texts_are_compared_byte_by_byte(rt: HostRuntime) {
    confirm(&rt, "equal", is_text(b"delete", b"delete"));
    confirm(&rt, "longer", !is_text(b"delete", b"deletes"));
    confirm(&rt, "shorter", !is_text(b"delete", b"delet"));
    confirm(&rt, "a capital", !is_text(b"delete", b"Delete"));
    confirm(&rt, "empty", is_text(b"", b""));
}

// A word is this number, or more where it is the greatest that is told.
fn is_capped(rt: &impl Abort, word: &[u8], most: u64, number: u64) {
    confirm(rt, "a long number", capped(word, most) == Some(number));
}

#[test]
fn numbers_of_any_length(rt: HostRuntime) {
    is_capped(&rt, b"0000000000000000000000000000042", 99, 42);
    is_capped(&rt, b"100", 99, 99);
    is_capped(&rt, b"18446744073709551615", u64::MAX, u64::MAX);
    let most = 1_000_000_001;
    is_capped(&rt, b"99999999999999999999999999999999", most, most);
    confirm(&rt, "no digit", capped(b"", 99).is_none());
    confirm(&rt, "a letter", capped(b"1x", 99).is_none());
}

// So many lines of three bytes.
fn long_text(alloc: Global, count: usize) -> Result<Vec<u8>, AllocError> {
    let mut text = Vec::new(alloc);
    for _ in 0..count {
        text.extend_from_slice(b"a b\n")?;
    }
    Ok(text)
}

// How many lines, parts and words it has.
fn counts(alloc: Global, count: usize) -> Result<[usize; 3], AllocError> {
    let text = long_text(alloc, count)?;
    let lines = lines(alloc, &text)?;
    let parts = parts(alloc, &text, b' ')?;
    let words = words(alloc, &text)?;
    Ok([lines.len(), parts.len(), words.len()])
}

#[test]
fn a_text_of_many_lines_and_words(rt: HostRuntime) -> Result<(), Fail> {
    let counts = counts(rt.alloc(), 100_000)?;
    confirm(&rt, "counts", counts == [100_001; 3]);
    Ok(())
}
