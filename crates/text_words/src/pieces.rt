//! A text in pieces: its lines, its words, the parts between separators.
ghost use Rattle.std.specs.Prelude.{◌≡◌, ◌<◌, ◌==◌, map, length, position, option_map, IfOk, IfSome};
ghost use Rattle.std.specs.List.{filter, slice_split};
ghost use Rattle.text_words.specs.Text.{lines, parts_of, is_blank, is_word, words, cut, is_text};

use std::alloc::{AllocError, Global};

/// The lines of a text, which line feeds separate: one more than there are line feeds.
/// A text that ends in a line feed has an empty last line.
///
/// Takes time and memory in proportion to the text, and fails only for want of memory.
pub fn lines(alloc: Global, text: &[u8]) -> Result<Vec<&[u8]>, AllocError>
    ensures { IfOk result (λ v. map (λ l. l.now) v.items ≡ lines text.now) }
{
    parts(alloc, text, b'\n')
}

/// The parts of a text between the separators, empty ones too: one more than there are separators.
///
/// Takes time and memory in proportion to the text, and fails only for want of memory.
pub fn parts(alloc: Global, text: &[u8], separator: u8) -> Result<Vec<&[u8]>, AllocError>
    ensures { IfOk result (λ v. map (λ p. p.now) v.items ≡ parts_of separator text.now) }
{
    text.split(|b| *b == separator).collect(alloc)
}

/// The words of a line: the parts between blanks that aren't empty. A blank is a space, a tab or a
/// carriage return.
///
/// Takes time and memory in proportion to the line, and fails only for want of memory.
pub fn words(alloc: Global, line: &[u8]) -> Result<Vec<&[u8]>, AllocError>
    ensures { IfOk result (λ v. map (λ w. w.now) v.items ≡ words line.now) }
{
    let parts = parts_between_blanks(alloc, line)?;
    nonempty(alloc, &parts)
}

fn parts_between_blanks(alloc: Global, line: &[u8]) -> Result<Vec<&[u8]>, AllocError>
    ensures { IfOk result (λ v. map (λ p. p.now) v.items ≡ slice_split is_blank line.now) }
{
    line.split(|b| is_blank(*b)).collect(alloc)
}

fn nonempty<'a>(alloc: Global, parts: &[&'a [u8]]) -> Result<Vec<&'a [u8]>, AllocError>
    ensures { IfOk result (λ v. v.items ≡ filter (λ p. is_word p.now) parts.now) }
{
    parts.iter().copied().filter(|p| is_word(p)).collect(alloc)
}

fn is_word(part: &[u8]) -> bool
    ensures { result ≡ is_word part.now }
{
    !part.is_empty()
}

pub(crate) fn is_blank(b: u8) -> bool
    ensures { result ≡ is_blank b }
{
    b == b' ' || b == b'\t' || b == b'\r'
}

/// The bytes before the first separator and those behind it, or None where there is none. Takes time in
/// proportion to the first part.
pub fn cut(text: &[u8], separator: u8) -> Option<(&[u8], &[u8])>
    ensures { option_map (λ p. (p.0.now, p.1.now)) result ≡ cut separator text.now }
{
    match place_of(text, separator) {
        Some(k) => Some((&text[..k], &text[k + 1..])),
        None => None,
    }
}

// The place of the first separator.
fn place_of(text: &[u8], separator: u8) -> Option<usize>
    ensures same { result ≡ position (λ b. b == separator) text.now }
    ensures within { IfSome result (λ k. k < length text.now) }
{
    text.iter().position(|b| *b == separator)
}

/// Whether a word is a given text, byte by byte.
pub fn is_text(text: &[u8], word: &[u8]) -> bool
    ensures { result ≡ is_text text.now word.now }
{
    word == text
}
