//! Arguments by their places in an operator's row.
ghost use Rattle.std.specs.Prelude.{◌≡◌};
ghost use Rattle.script_text.specs.Arguments.{given, with, as_point, as_verts, as_kind, as_geom, as_name, as_ints};
ghost use Rattle.script_text.specs.Arguments.{as_context, as_int, as_rule, as_axis, as_method, as_map, nothing};

use cust_data::Rule;
use mesh_model::{Kind, Point, Vals};
use op_slots::{Axis, Context, Expr, MapArg, Method, Names};
use sequence::Text;

/// What a key's value must be.
#[derive(Clone, Copy)]
pub(crate) enum Form {
    Int,
    Point,
    Ints,
    Kind,
    Context,
    Rule,
    Axis,
    Method,
    Name,
    Geom,
    Verts,
    Map,
}

/// A value that was read.
#[derive(Drop)]
pub(crate) enum Argument {
    Int(i64),
    Point(Point),
    Ints(Vals),
    Kind(Kind),
    Context(Context),
    Rule(Rule),
    Axis(Axis),
    Method(Method),
    Name(Text),
    Geom(Expr),
    Verts(Names),
    Map(MapArg),
}

/// A place in a row.
#[derive(Clone, Copy)]
pub(crate) enum Place {
    First,
    Second,
    Third,
    Fourth,
}

/// The values of a row so far.
#[derive(Drop)]
pub(crate) struct Arguments {
    pub(crate) first: Option<Argument>,
    pub(crate) second: Option<Argument>,
    pub(crate) third: Option<Argument>,
    pub(crate) fourth: Option<Argument>,
}

impl Arguments {
    pub(crate) fn new() -> Arguments
        ensures { result ≡ nothing }
    {
        Arguments {
            first: None,
            second: None,
            third: None,
            fourth: None,
        }
    }

    pub(crate) fn is_given(&self, place: Place) -> bool
        ensures { result ≡ given place self.now }
    {
        match place {
            Place::First => self.first.is_some(),
            Place::Second => self.second.is_some(),
            Place::Third => self.third.is_some(),
            Place::Fourth => self.fourth.is_some(),
        }
    }

    pub(crate) fn put(&mut self, place: Place, argument: Argument)
        ensures { self.new ≡ with place argument self.old }
    {
        match place {
            Place::First => self.first = Some(argument),
            Place::Second => self.second = Some(argument),
            Place::Third => self.third = Some(argument),
            Place::Fourth => self.fourth = Some(argument),
        }
    }
}

pub(crate) fn as_point(argument: Option<Argument>) -> Option<Point>
    ensures { result ≡ as_point argument }
{
    match argument {
        Some(Argument::Point(point)) => Some(point),
        _ => None,
    }
}

pub(crate) fn as_verts(argument: Option<Argument>) -> Option<Names>
    ensures { result ≡ as_verts argument }
{
    match argument {
        Some(Argument::Verts(verts)) => Some(verts),
        _ => None,
    }
}

pub(crate) fn as_kind(argument: Option<Argument>) -> Option<Kind>
    ensures { result ≡ as_kind argument }
{
    match argument {
        Some(Argument::Kind(kind)) => Some(kind),
        _ => None,
    }
}

pub(crate) fn as_geom(argument: Option<Argument>) -> Option<Expr>
    ensures { result ≡ as_geom argument }
{
    match argument {
        Some(Argument::Geom(terms)) => Some(terms),
        _ => None,
    }
}

pub(crate) fn as_name(argument: Option<Argument>) -> Option<Text>
    ensures { result ≡ as_name argument }
{
    match argument {
        Some(Argument::Name(name)) => Some(name),
        _ => None,
    }
}

pub(crate) fn as_ints(argument: Option<Argument>) -> Option<Vals>
    ensures { result ≡ as_ints argument }
{
    match argument {
        Some(Argument::Ints(numbers)) => Some(numbers),
        _ => None,
    }
}

/// A context, by default of vertices.
pub(crate) fn as_context(argument: Option<Argument>) -> Option<Context>
    ensures { result ≡ as_context argument }
{
    match argument {
        Some(Argument::Context(context)) => Some(context),
        None => Some(Context::Verts),
        _ => None,
    }
}

pub(crate) fn as_int(argument: Option<Argument>) -> Option<i64>
    ensures { result ≡ as_int argument }
{
    match argument {
        Some(Argument::Int(number)) => Some(number),
        _ => None,
    }
}

pub(crate) fn as_rule(argument: Option<Argument>) -> Option<Rule>
    ensures { result ≡ as_rule argument }
{
    match argument {
        Some(Argument::Rule(rule)) => Some(rule),
        _ => None,
    }
}

pub(crate) fn as_axis(argument: Option<Argument>) -> Option<Axis>
    ensures { result ≡ as_axis argument }
{
    match argument {
        Some(Argument::Axis(axis)) => Some(axis),
        _ => None,
    }
}

pub(crate) fn as_method(argument: Option<Argument>) -> Option<Method>
    ensures { result ≡ as_method argument }
{
    match argument {
        Some(Argument::Method(method)) => Some(method),
        _ => None,
    }
}

pub(crate) fn as_map(argument: Option<Argument>) -> Option<MapArg>
    ensures { result ≡ as_map argument }
{
    match argument {
        Some(Argument::Map(map)) => Some(map),
        _ => None,
    }
}
