//! Why a text is no model.

ghost use Rattle.std.specs.Prelude.{◌≡◌};
ghost use Rattle.obj_format.specs.Words.{why_code};

use mesh_model::NoMemory as OutOfMemory;
use std::alloc::AllocFailed;
use std::fmt;
use thiserror::Error;

/// The reason of a refusal.
#[derive(Clone, Copy, Debug, PartialEq, Eq)]
pub enum ObjWhy {
    /// A number is malformed, or there are too few or too many.
    BadNumber = 1,
    /// A number has more decimal places than the grid.
    OffGrid = 2,
    /// A point or a texture coordinate leaves the grid.
    OutOfGrid = 3,
    /// An index is malformed, or no item of that kind has it so far.
    BadIndex = 4,
    /// Too few corners.
    TooShort = 5,
    /// More corners than a face may have.
    TooLong = 6,
    /// A vertex stands twice.
    Repeated = 7,
    /// The first word of a line isn't known.
    UnknownWord = 8,
    /// A line of free-form geometry.
    FreeForm = 9,
    /// A limit on names or live corners would be passed.
    TooMany = 10,
    /// The text is too long.
    TooLarge = 11,
    /// A byte that isn't text.
    NotText = 12,
    /// A kind of model that isn't read so far. No text is refused for it.
    NotYet = 13,
}

impl ObjWhy {
    /// The number of the reason, from 1 to 13.
    pub fn code(self) -> u8
        ensures { result ≡ why_code self }
    {
        self as u8
    }
}

impl fmt::Display for ObjWhy {
    ghost use Rattle.std.specs.Prelude.{Some};
    ghost use Rattle.obj_format.specs.Words.{why_text};

    ghost output = { λ why. Some (why_text why) };

    fn fmt<W: fmt::Write>(&self, f: &mut fmt::Formatter<W>) -> fmt::Result {
        match self {
            ObjWhy::BadNumber => write!(f, "BadNumber"),
            ObjWhy::OffGrid => write!(f, "OffGrid"),
            ObjWhy::OutOfGrid => write!(f, "OutOfGrid"),
            ObjWhy::BadIndex => write!(f, "BadIndex"),
            ObjWhy::TooShort => write!(f, "TooShort"),
            ObjWhy::TooLong => write!(f, "TooLong"),
            ObjWhy::Repeated => write!(f, "Repeated"),
            ObjWhy::UnknownWord => write!(f, "UnknownWord"),
            ObjWhy::FreeForm => write!(f, "FreeForm"),
            ObjWhy::TooMany => write!(f, "TooMany"),
            ObjWhy::TooLarge => write!(f, "TooLarge"),
            ObjWhy::NotText => write!(f, "NotText"),
            ObjWhy::NotYet => write!(f, "NotYet"),
        }
    }
}

/// A text that is no model: the first line at fault, counted from 1, or 0 for the whole text; and why.
#[derive(Clone, Copy, Debug, PartialEq, Eq)]
pub struct ObjRefusal {
    pub line: u32,
    pub why: ObjWhy,
}

/// Why there is no model.
#[derive(Clone, Copy, Debug, PartialEq, Eq, Error)]
pub enum ObjFault {
    /// The text is no model.
    #[error("model line {line}: {why}", line = .0.line, why = .0.why)]
    Refused(ObjRefusal),
    /// Memory ran out.
    #[error("out of memory")]
    NoMemory,
}

impl From<OutOfMemory> for ObjFault {
    ghost use Rattle.std.specs.Prelude.{◌≡◌};
    ghost use Rattle.obj_format.specs.declared.obj_fault.ObjFault.TheVariants.{NoMemory};

    ghost from_gives = { λ _ e. e ≡ NoMemory };

    fn from(_: OutOfMemory) -> Self {
        ObjFault::NoMemory
    }
}

impl<T: Drop> From<AllocFailed<T>> for ObjFault {
    ghost use Rattle.std.specs.Prelude.{◌≡◌};
    ghost use Rattle.obj_format.specs.declared.obj_fault.ObjFault.TheVariants.{NoMemory};

    ghost from_gives = { λ _ e. e ≡ NoMemory };

    fn from(_: AllocFailed<T>) -> Self {
        ObjFault::NoMemory
    }
}
