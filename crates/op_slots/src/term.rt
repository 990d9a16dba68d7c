//! Arguments that stand for elements or for a mapping.

use crate::mapping::Mapping;
use mesh_model::{Elem, Kind};
use sequence::{NoMemory, Sequence, Text};

/// A term of an argument. A kind is never `Corners`.
#[derive(Debug, Drop)]
pub enum Term {
    /// One element by its name.
    One(Elem),
    /// The elements of a kind whose numbers are from the first to the last, both included.
    Range(Kind, u32, u32),
    /// All elements of a kind, or of each kind that the argument takes.
    All(Option<Kind>),
    /// The elements of a slot by its name, of a kind or of each kind that the argument takes.
    Slot(Text, Option<Kind>),
}

impl Clone for Term {
    ghost use Rattle.std.specs.Prelude.{◌≡◌};

    ghost is_clone = { λ t c. c ≡ t };

    fn clone(&self) -> Result<Term, NoMemory> {
        match self {
            Term::One(elem) => Ok(Term::One(*elem)),
            Term::Range(kind, first, last) => Ok(Term::Range(*kind, *first, *last)),
            Term::All(kind) => Ok(Term::All(*kind)),
            Term::Slot(name, kind) => {
                let name = name.copy()?;
                Ok(Term::Slot(name, *kind))
            }
        }
    }
}

/// An argument that stands for elements: its terms in the order written.
pub type Expr = Sequence<Term>;

/// An argument that stands for a mapping.
#[derive(Debug, Drop)]
pub enum MapArg {
    /// Pairs as they are written.
    Pairs(Mapping),
    /// The mapping of a slot by its name.
    Slot(Text),
}

impl MapArg {
    ghost use Rattle.std.specs.Prelude.{◌≡◌, IfOk};

    /// An equal argument, in time proportional to what it holds.
    pub fn copy(&self) -> Result<MapArg, NoMemory>
        ensures { IfOk result (λ m. m ≡ self.now) }
    {
        match self {
            MapArg::Pairs(pairs) => {
                let pairs = pairs.copy()?;
                Ok(MapArg::Pairs(pairs))
            }
            MapArg::Slot(name) => {
                let name = name.copy()?;
                Ok(MapArg::Slot(name))
            }
        }
    }
}
