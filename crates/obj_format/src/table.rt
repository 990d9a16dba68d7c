//! The table of the words that begin a line.
ghost use Rattle.std.specs.Prelude.{◌≡◌};
ghost use Rattle.obj_format.specs.Table.{word_of};

use text_words::is_text;

/// What the first word of a line says.
#[derive(Clone, Copy, Debug, PartialEq, Eq)]
pub enum Word {
    Vertex,
    Texture,
    Normal,
    Ring,
    Wire,
    Points,
    Smooth,
    Material,
    Library,
    Skipped,
    FreeForm,
}

macro_rules! with_words {
    ($cases:ident $given:ident) => {
        $cases! {
            [$given]
            Vertex: b"v";
            Texture: b"vt";
            Normal: b"vn";
            Ring: b"f";
            Wire: b"l";
            Points: b"p";
            Smooth: b"s";
            Material: b"usemtl";
            Library: b"mtllib";
            Skipped: b"g" b"o" b"bevel" b"c_interp" b"d_interp" b"lod" b"usemap" b"maplib" b"shadow_obj" b"trace_obj";
            FreeForm: b"vp" b"cstype" b"deg" b"bmat" b"step" b"curv" b"curv2" b"surf" b"parm" b"trim"
                b"hole" b"scrv" b"sp" b"end" b"con" b"mg";
        }
    };
}

macro_rules! words {
    ([$word:ident] $($name:ident: $($text:literal)*;)*) => {{
        $($(if is_text($text, $word) {
            return Some(Word::$name);
        })*)*
        None
    }};
}

pub fn word_of(word: &[u8]) -> Option<Word>
    ensures { result ≡ word_of word.now }
{
    with_words!(words word)
}
