//! The table of operators.
ghost use Rattle.std.specs.Prelude.{◌≡◌};
ghost use Rattle.script_text.specs.Table.{op_named, is_now, key_of, layer_key, row_key, op_of};

use crate::arguments::{
    Arguments, Form, Place, as_axis, as_context, as_geom, as_int, as_ints, as_kind, as_map,
    as_method, as_name, as_point, as_verts,
};
use op_slots::Op;
use text_words::is_text;

/// An operator.
#[derive(Clone, Copy)]
pub(crate) enum OpName {
    MakeVert,
    MakeEdge,
    MakeFace,
    Set,
    Translate,
    Scale,
    Mirror,
    Reverse,
    Duplicate,
    Split,
    Delete,
    Connect,
    DissolveEdges,
    DissolveFaces,
    DissolveVerts,
    ExtrudeRegion,
    ExtrudeEdges,
    ExtrudeVerts,
    Bridge,
    Subdivide,
    Weld,
    MergeDoubles,
    Collapse,
    EdgeSplit,
    Triangulate,
    Poke,
}

/// What has keys: a declaration of a layer, or an operator.
#[derive(Clone, Copy)]
pub(crate) enum Row {
    Layer,
    Operator(OpName),
}

// The table: each operator with its word, whether a session can do it now or later, and its keys in order, each with
// the form of its value.
macro_rules! with_operators {
    ($cases:ident $($given:ident)*) => {
        $cases! {
            [$($given)*]
            MakeVert b"make_vert" now { at b"at" Point }
            MakeEdge b"make_edge" now { verts b"verts" Verts }
            MakeFace b"make_face" now { verts b"verts" Verts }
            Set b"set" now { of b"of" Kind, geom b"geom" Geom, layer b"layer" Name, values b"values" Ints }
            Translate b"translate" now { verts b"verts" Geom, by b"by" Point }
            Scale b"scale" now { verts b"verts" Geom, about b"about" Point, num b"num" Int, den b"den" Int }
            Mirror b"mirror" now { verts b"verts" Geom, axis b"axis" Axis, about b"about" Int }
            Reverse b"reverse" now { faces b"faces" Geom }
            Duplicate b"duplicate" now { geom b"geom" Geom }
            Split b"split" now { geom b"geom" Geom }
            Delete b"delete" now { geom b"geom" Geom, context b"context" Context }
            Connect b"connect" later { verts b"verts" Verts }
            DissolveEdges b"dissolve_edges" later { edges b"edges" Geom }
            DissolveFaces b"dissolve_faces" later { faces b"faces" Geom }
            DissolveVerts b"dissolve_verts" later { verts b"verts" Geom }
            ExtrudeRegion b"extrude_region" later { faces b"faces" Geom }
            ExtrudeEdges b"extrude_edges" later { edges b"edges" Geom }
            ExtrudeVerts b"extrude_verts" later { verts b"verts" Geom }
            Bridge b"bridge" later { a b"a" Geom, b b"b" Geom }
            Subdivide b"subdivide" later { edges b"edges" Geom, cuts b"cuts" Int }
            Weld b"weld" later { map b"map" Map }
            MergeDoubles b"merge_doubles" later { verts b"verts" Geom, dist b"dist" Int }
            Collapse b"collapse" later { edges b"edges" Geom }
            EdgeSplit b"edge_split" later { edges b"edges" Geom }
            Triangulate b"triangulate" later { faces b"faces" Geom, method b"method" Method }
            Poke b"poke" later { faces b"faces" Geom }
        }
    };
}

macro_rules! words {
    ([$word:ident] $($name:ident $text:literal $when:ident { $($fields:tt)* })*) => {{
        $(if is_text($text, $word) {
            return Some(OpName::$name);
        })*
        None
    }};
}

macro_rules! times {
    ([$name:ident] $($op:ident $text:literal $when:ident { $($fields:tt)* })*) => {
        match $name {
            $(OpName::$op => time!($when),)*
        }
    };
}

macro_rules! time {
    (now) => { true };
    (later) => { false };
}

macro_rules! keys {
    ([$name:ident $word:ident] $($op:ident $text:literal $when:ident { $($field:ident $key:literal $form:ident),* })*) => {
        match $name {
            $(OpName::$op => key!($word [First Second Third Fourth] $($key $form)*),)*
        }
    };
}

macro_rules! key {
    ($word:ident [$place:ident $($places:ident)*] $key:literal $form:ident $($rest:tt)*) => {
        if is_text($key, $word) {
            Some((Place::$place, Form::$form))
        } else {
            key!($word [$($places)*] $($rest)*)
        }
    };
    ($word:ident [$($places:ident)*]) => {
        None
    };
}

macro_rules! builds {
    ([$name:ident $arguments:ident] $($op:ident $text:literal $when:ident { $($field:ident $key:literal $form:ident),* })*) => {
        match $name {
            $(OpName::$op => build!($op $arguments [first second third fourth] [] $($field $form)*),)*
        }
    };
}

macro_rules! build {
    ($op:ident $arguments:ident [$($places:ident)*] [$($field:ident)*]) => {
        Some(Op::$op { $($field),* })
    };
    ($op:ident $arguments:ident [$place:ident $($places:ident)*] [$($done:ident)*]
        $field:ident $form:ident $($rest:tt)*) => {{
        let $field = taken!($form $arguments.$place.take())?;
        build!($op $arguments [$($places)*] [$($done)* $field] $($rest)*)
    }};
}

macro_rules! taken {
    (Point $place:expr) => { as_point($place) };
    (Verts $place:expr) => { as_verts($place) };
    (Kind $place:expr) => { as_kind($place) };
    (Geom $place:expr) => { as_geom($place) };
    (Name $place:expr) => { as_name($place) };
    (Ints $place:expr) => { as_ints($place) };
    (Context $place:expr) => { as_context($place) };
    (Int $place:expr) => { as_int($place) };
    (Axis $place:expr) => { as_axis($place) };
    (Method $place:expr) => { as_method($place) };
    (Map $place:expr) => { as_map($place) };
}

pub(crate) fn op_named(word: &[u8]) -> Option<OpName>
    ensures { result ≡ op_named word.now }
{
    with_operators!(words word)
}

/// Whether a session can do an operator so far.
pub(crate) fn is_now(name: OpName) -> bool
    ensures { result ≡ is_now name }
{
    with_operators!(times name)
}

pub(crate) fn key_of(name: OpName, word: &[u8]) -> Option<(Place, Form)>
    ensures { result ≡ key_of name word.now }
{
    with_operators!(keys name word)
}

pub(crate) fn op_of(name: OpName, arguments: &mut Arguments) -> Option<Op>
    ensures { result ≡ op_of name arguments.old }
{
    with_operators!(builds name arguments)
}

fn layer_key(word: &[u8]) -> Option<(Place, Form)>
    ensures { result ≡ layer_key word.now }
{
    key!(word [First Second Third Fourth] b"width" Int b"rule" Rule)
}

pub(crate) fn row_key(row: Row, word: &[u8]) -> Option<(Place, Form)>
    ensures { result ≡ row_key row word.now }
{
    match row {
        Row::Layer => layer_key(word),
        Row::Operator(name) => key_of(name, word),
    }
}
