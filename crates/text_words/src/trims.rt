//! Texts without what stands at their ends.
ghost use Rattle.std.specs.Prelude.{◌≡◌};
ghost use Rattle.text_words.specs.Trims.{is_of, trimmed, skipped};

use crate::pieces::is_blank;

/// A class of bytes.
#[derive(Clone, Copy, Debug, PartialEq, Eq)]
pub enum ByteClass {
    /// A carriage return.
    CarriageReturn,
    /// A space, a tab or a carriage return.
    Blank,
    /// Any other byte.
    NoBlank,
    /// A blank or a backslash.
    BlankOrBackslash,
}

impl ByteClass {
    /// Whether a byte is of the class.
    pub fn has(self, b: u8) -> bool
        ensures { result ≡ is_of self b }
    {
        match self {
            ByteClass::CarriageReturn => b == b'\r',
            ByteClass::Blank => is_blank(b),
            ByteClass::NoBlank => !is_blank(b),
            ByteClass::BlankOrBackslash => is_blank(b) || b == b'\\',
        }
    }
}

/// A text without its last bytes, as far as they are of a class. Takes time in proportion to what goes.
pub fn trim_end(text: &[u8], class: ByteClass) -> &[u8]
    ensures { result.now ≡ trimmed (is_of class) text.now }
{
    let mut n = text.len();
    while 0 < n && class.has(text[n - 1]) {
        n -= 1;
    }
    &text[..n]
}

/// A text without its first bytes, as far as they are of a class. Takes time in proportion to what goes.
pub fn trim_start(text: &[u8], class: ByteClass) -> &[u8]
    ensures { result.now ≡ skipped (is_of class) text.now }
{
    let mut k = 0;
    while k < text.len() && class.has(text[k]) {
        k += 1;
    }
    &text[k..]
}
