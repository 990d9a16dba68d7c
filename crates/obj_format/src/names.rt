//! Names: the rest of a line.
ghost use Rattle.std.specs.Prelude.{◌≡◌};
ghost use Rattle.obj_format.specs.Names.{name_in};

use text_words::{ByteClass, trim_end, trim_start};

/// What stands after the first word of a line, without blanks at the start, and without blanks and backslashes at
/// the end. Takes time in proportion to the line.
pub fn name_in(text: &[u8]) -> &[u8]
    ensures { result.now ≡ name_in text.now }
{
    let word = trim_start(text, ByteClass::Blank);
    let rest = trim_start(word, ByteClass::NoBlank);
    trim_end(
        trim_start(rest, ByteClass::Blank),
        ByteClass::BlankOrBackslash,
    )
}
