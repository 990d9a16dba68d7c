//! Terms: the elements that an argument names.
ghost use Rattle.std.specs.Prelude.{◌≡◌, map, IfOk};
ghost use Rattle.text_words.specs.Each.{each};
ghost use Rattle.text_words.specs.Text.{natural};
ghost use Rattle.script_text.specs.Terms.{named, kind_of_letter, elem, numbered, range, suffix, slot, term, geom_of};
ghost use Rattle.script_text.specs.Terms.{geom, vert, verts_of, verts};

use crate::values::{is_name, text_of};
use mesh_model::{EdgeName, Elem, FaceName, Kind, VertName};
use op_slots::{Expr, Names, Term};
use sequence::NoMemory;
use std::alloc::Global;
use text_words::{cut, is_text, natural, parts};

/// The most terms that an argument may have.
pub const MOST_TERMS: usize = 4_096;

fn kind_of_letter(letter: u8) -> Option<Kind>
    ensures { result ≡ kind_of_letter letter }
{
    if letter == b'v' {
        Some(Kind::Verts)
    } else if letter == b'e' {
        Some(Kind::Edges)
    } else if letter == b'f' {
        Some(Kind::Faces)
    } else {
        None
    }
}

fn elem(kind: Kind, number: u32) -> Elem
    ensures { result ≡ elem kind number }
{
    match kind {
        Kind::Verts => Elem::Vert(VertName(number)),
        Kind::Edges => Elem::Edge(EdgeName(number)),
        _ => Elem::Face(FaceName(number)),
    }
}

fn number(ds: &[u8]) -> Option<u32>
    ensures { result ≡ natural 9 ds.now }
{
    match natural(ds, 9) {
        Some(n) => Some(n as u32),
        None => None,
    }
}

// `N-vM` behind the letter of a range.
fn range(letter: u8, kind: Kind, first: &[u8], last: &[u8]) -> Option<Term>
    ensures { result ≡ range letter kind first.now last.now }
{
    match last {
        [] => None,
        [again, ds @ ..] => {
            if *again != letter {
                return None;
            }
            let n = number(first)?;
            let m = number(ds)?;
            if n <= m {
                Some(Term::Range(kind, n, m))
            } else {
                None
            }
        }
    }
}

// A letter with a number, or a range.
fn numbered(letter: u8, rest: &[u8]) -> Option<Term>
    ensures { result ≡ numbered letter rest.now }
{
    let kind = kind_of_letter(letter)?;
    match cut(rest, b'-') {
        Some((first, last)) => range(letter, kind, first, last),
        None => {
            let n = number(rest)?;
            Some(Term::One(elem(kind, n)))
        }
    }
}

fn suffix(word: &[u8]) -> Option<Kind>
    ensures { result ≡ suffix word.now }
{
    if is_text(b"verts", word) {
        Some(Kind::Verts)
    } else if is_text(b"edges", word) {
        Some(Kind::Edges)
    } else if is_text(b"faces", word) {
        Some(Kind::Faces)
    } else {
        None
    }
}

fn named(alloc: Global, name: &[u8], kind: Option<Kind>) -> Result<Option<Term>, NoMemory>
    ensures { IfOk result (λ t. t ≡ named name.now kind) }
{
    if is_name(name) {
        let text = text_of(alloc, name)?;
        Ok(Some(Term::Slot(text, kind)))
    } else {
        Ok(None)
    }
}

// `$NAME`, or `$NAME.verts` and so on, behind the dollar sign.
fn slot(alloc: Global, word: &[u8]) -> Result<Option<Term>, NoMemory>
    ensures { IfOk result (λ t. t ≡ slot word.now) }
{
    match cut(word, b'.') {
        Some((name, ending)) => match suffix(ending) {
            Some(kind) => named(alloc, name, Some(kind)),
            None => Ok(None),
        },
        None => named(alloc, word, None),
    }
}

fn term(alloc: Global, word: &[u8]) -> Result<Option<Term>, NoMemory>
    ensures { IfOk result (λ t. t ≡ term word.now) }
{
    if is_text(b"all", word) {
        return Ok(Some(Term::All(None)));
    }
    if is_text(b"all.v", word) {
        return Ok(Some(Term::All(Some(Kind::Verts))));
    }
    if is_text(b"all.e", word) {
        return Ok(Some(Term::All(Some(Kind::Edges))));
    }
    if is_text(b"all.f", word) {
        return Ok(Some(Term::All(Some(Kind::Faces))));
    }
    match word {
        [] => Ok(None),
        [letter, rest @ ..] => {
            if *letter == b'$' {
                slot(alloc, rest)
            } else {
                Ok(numbered(*letter, rest))
            }
        }
    }
}

fn each_term(alloc: Global, words: &[&[u8]]) -> Result<Option<Expr>, NoMemory>
    ensures { IfOk result (λ terms. terms ≡ each (λ w. term w.now) words.now) }
{
    let mut terms = Expr::new(alloc);
    for word in words {
        match term(alloc, word)? {
            Some(term) => terms.push(term)?,
            None => return Ok(None),
        }
    }
    Ok(Some(terms))
}

fn geom_of(alloc: Global, words: &[&[u8]]) -> Result<Option<Expr>, NoMemory>
    ensures { IfOk result (λ terms. terms ≡ geom_of (map (λ w. w.now) words.now)) }
{
    if words.len() > MOST_TERMS {
        return Ok(None);
    }
    let terms = each_term(alloc, words)?;
    Ok(terms)
}

/// The terms of an argument, or None where it isn't of the form.
pub(crate) fn geom(alloc: Global, word: &[u8]) -> Result<Option<Expr>, NoMemory>
    ensures { IfOk result (λ terms. terms ≡ geom word.now) }
{
    let words = parts(alloc, word, b',')?;
    let terms = geom_of(alloc, &words)?;
    Ok(terms)
}

pub(crate) fn vert(word: &[u8]) -> Option<VertName>
    ensures { result ≡ vert word.now }
{
    match word {
        [b'v', ds @ ..] => {
            let n = number(ds)?;
            Some(VertName(n))
        }
        _ => None,
    }
}

fn each_vert(alloc: Global, words: &[&[u8]]) -> Result<Option<Names>, NoMemory>
    ensures { IfOk result (λ names. names ≡ each (λ w. vert w.now) words.now) }
{
    let mut names = Names::new(alloc);
    for word in words {
        match vert(word) {
            Some(name) => names.push(name)?,
            None => return Ok(None),
        }
    }
    Ok(Some(names))
}

fn verts_of(alloc: Global, words: &[&[u8]]) -> Result<Option<Names>, NoMemory>
    ensures { IfOk result (λ names. names ≡ verts_of (map (λ w. w.now) words.now)) }
{
    if words.len() > MOST_TERMS {
        return Ok(None);
    }
    let names = each_vert(alloc, words)?;
    Ok(names)
}

/// The vertices of a list, or None where it isn't of the form.
pub(crate) fn verts(alloc: Global, word: &[u8]) -> Result<Option<Names>, NoMemory>
    ensures { IfOk result (λ names. names ≡ verts word.now) }
{
    let words = parts(alloc, word, b',')?;
    let names = verts_of(alloc, &words)?;
    Ok(names)
}
