//! Lines of a model: physical lines, joined where one ends with a backslash.
ghost use Rattle.std.specs.Prelude.{◌≡◌, IfOk};
ghost use Rattle.obj_format.specs.Lines.{is_hash_first, begins_comment, ends_in_backslash, is_open, shut, onto, bare};

use mesh_model::{NoMemory, Sequence, Text};
use std::alloc::Global;
use text_words::{ByteClass, trim_end, trim_start};

/// A line.
#[derive(Debug, Drop)]
pub struct Line {
    /// The number of its first physical line, from 1.
    pub number: u32,
    /// Whether it is a comment by itself.
    pub comment: bool,
    pub text: Text,
}

/// Whether a text begins with `#`.
pub fn is_hash_first(text: &[u8]) -> bool
    ensures { result ≡ is_hash_first text.now }
{
    match text {
        [b'#', ..] => true,
        _ => false,
    }
}

/// Whether the first byte that is no blank is `#`.
pub fn begins_comment(text: &[u8]) -> bool
    ensures { result ≡ begins_comment text.now }
{
    is_hash_first(trim_start(text, ByteClass::Blank))
}

/// A physical line without carriage returns at its end.
pub fn bare(text: &[u8]) -> &[u8]
    ensures { result.now ≡ bare text.now }
{
    trim_end(text, ByteClass::CarriageReturn)
}

/// Whether the last byte is a backslash.
pub fn ends_in_backslash(text: &[u8]) -> bool
    ensures { result ≡ ends_in_backslash text.now }
{
    0 < text.len() && text[text.len() - 1] == b'\\'
}

/// Whether a line is joined with the next physical line.
pub fn is_open(line: &Line) -> bool
    ensures { result ≡ is_open line.now }
{
    !line.comment && ends_in_backslash(line.text.as_slice())
}

/// A line without its last byte.
pub fn shut(line: Line) -> Line
    ensures { result ≡ shut line }
{
    let Line {
        number,
        comment,
        text,
    } = line;
    let mut bytes = Vec::from(text);
    bytes.pop();
    Line {
        number,
        comment,
        text: Sequence::from(bytes),
    }
}

/// A physical line, joined to what stands before it if something was begun. Takes time in proportion to the
/// physical line.
pub fn onto(
    alloc: Global,
    number: u32,
    begun: Option<Line>,
    physical: &[u8],
) -> Result<Line, NoMemory>
    ensures { IfOk result (λ l. l ≡ onto number begun physical.now) }
{
    match begun {
        None => {
            let bytes = physical.to_vec(alloc)?;
            Ok(Line {
                number,
                comment: begins_comment(physical),
                text: Sequence::from(bytes),
            })
        }
        Some(line) => {
            let Line { number, text, .. } = line;
            let mut bytes = Vec::from(text);
            bytes.push(b' ')?;
            bytes.extend_from_slice(physical)?;
            Ok(Line {
                number,
                comment: false,
                text: Sequence::from(bytes),
            })
        }
    }
}
