//! Why a command is refused, and at which element.

ghost use Rattle.std.specs.Prelude.{◌≡◌};
ghost use Rattle.mesh_model.specs.Words.{why_code};

use crate::names::{Elem, Kind};
use std::fmt;

/// The reason of a refusal. Each says what the refusal carries.
#[derive(Clone, Copy, Debug, PartialEq, Eq)]
pub enum Why {
    /// A named element isn't there: the element.
    NoSuch = 1,
    /// A named slot isn't bound: nothing.
    NoSlot = 2,
    /// An element of a kind that the argument doesn't take: the element if it was named singly.
    WrongKind = 3,
    /// No element is left of an argument: nothing.
    Empty = 4,
    /// The element to be made is there: that edge or face.
    Exists = 5,
    /// A vertex stands twice: the vertex.
    Repeated = 6,
    /// Too few vertices for a face: the face if there is one.
    TooShort = 7,
    /// Too many corners for a face: the face.
    TooLong = 8,
    /// A limit on names or live corners would be passed: the kind.
    TooMany = 9,
    /// A point would leave the grid: the vertex.
    OutOfGrid = 10,
    /// Two vertices are neighbours in the face: nothing.
    Adjacent = 11,
    /// No face has both vertices: nothing.
    NotInFace = 12,
    /// A vertex has an unsuitable number of edges: the vertex.
    Valence = 13,
    /// An edge has an unsuitable number of corners: the edge.
    NonManifold = 14,
    /// Two faces run the same way along an edge: the edge.
    Winding = 15,
    /// The elements form no ring: a face or an edge.
    NoRing = 16,
    /// Two rings differ in length: nothing.
    Uneven = 17,
    /// A face would have a vertex twice: the face.
    Pinched = 18,
    /// A target is itself a source: the vertex.
    Chain = 19,
    /// The undo list is empty: nothing.
    NothingToUndo = 20,
    /// The redo list is empty: nothing.
    NothingToRedo = 21,
    /// That kind has no such layer: nothing.
    NoLayer = 22,
    /// A value is out of its range: nothing.
    BadValue = 23,
    /// Elements that should touch don't: an edge or a face.
    Apart = 24,
}

impl Why {
    /// The number of the reason, from 1 to 24.
    pub fn code(self) -> u8
        ensures { result ≡ why_code self }
    {
        self as u8
    }
}

impl fmt::Display for Why {
    ghost use Rattle.std.specs.Prelude.{Some};
    ghost use Rattle.mesh_model.specs.Words.{why_text};

    ghost output = { λ why. Some (why_text why) };

    fn fmt<W: fmt::Write>(&self, f: &mut fmt::Formatter<W>) -> fmt::Result {
        match self {
            Why::NoSuch => write!(f, "NoSuch"),
            Why::NoSlot => write!(f, "NoSlot"),
            Why::WrongKind => write!(f, "WrongKind"),
            Why::Empty => write!(f, "Empty"),
            Why::Exists => write!(f, "Exists"),
            Why::Repeated => write!(f, "Repeated"),
            Why::TooShort => write!(f, "TooShort"),
            Why::TooLong => write!(f, "TooLong"),
            Why::TooMany => write!(f, "TooMany"),
            Why::OutOfGrid => write!(f, "OutOfGrid"),
            Why::Adjacent => write!(f, "Adjacent"),
            Why::NotInFace => write!(f, "NotInFace"),
            Why::Valence => write!(f, "Valence"),
            Why::NonManifold => write!(f, "NonManifold"),
            Why::Winding => write!(f, "Winding"),
            Why::NoRing => write!(f, "NoRing"),
            Why::Uneven => write!(f, "Uneven"),
            Why::Pinched => write!(f, "Pinched"),
            Why::Chain => write!(f, "Chain"),
            Why::NothingToUndo => write!(f, "NothingToUndo"),
            Why::NothingToRedo => write!(f, "NothingToRedo"),
            Why::NoLayer => write!(f, "NoLayer"),
            Why::BadValue => write!(f, "BadValue"),
            Why::Apart => write!(f, "Apart"),
        }
    }
}

/// What a refusal carries besides its reason.
#[derive(Clone, Copy, Debug, PartialEq, Eq)]
pub enum Place {
    Nowhere,
    Elem(Elem),
    Kind(Kind),
}

/// A refusal by name: why, and where.
#[derive(Clone, Copy, Debug, PartialEq, Eq)]
pub struct Refusal {
    pub why: Why,
    pub place: Place,
}
