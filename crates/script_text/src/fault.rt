//! Why a text is no script.

ghost use Rattle.std.specs.Prelude.{◌≡◌};
ghost use Rattle.script_text.specs.Words.{why_code};

use std::alloc::{AllocError, AllocFailed};
use std::fmt;
use thiserror::Error;

/// The reason of a refusal.
#[derive(Clone, Copy, Debug, PartialEq, Eq)]
pub enum ScriptWhy {
    /// A byte that isn't text.
    NotText = 1,
    /// A word that isn't known where it stands.
    UnknownWord = 2,
    /// A key that has to be given isn't.
    MissingArgument = 3,
    /// A key, or a source of a pair, is given twice.
    TwiceGiven = 4,
    /// A whole number, a point or a list of numbers is malformed.
    BadNumber = 5,
    /// Any other value or name is malformed.
    BadExpression = 6,
    /// The name was bound on an earlier line.
    Rebound = 7,
    /// More commands than a script may have.
    TooMany = 8,
    /// A layer is declared after the first command.
    LateLayer = 9,
    /// The text is too long.
    TooLarge = 10,
    /// A layer can't be declared so.
    BadLayer = 11,
    /// A word asks for what a session can't do yet.
    NotYet = 12,
}

impl ScriptWhy {
    /// The number of the reason, from 1 to 12.
    pub fn code(self) -> u8
        ensures { result ≡ why_code self }
    {
        self as u8
    }
}

impl fmt::Display for ScriptWhy {
    ghost use Rattle.std.specs.Prelude.{Some};
    ghost use Rattle.script_text.specs.Words.{why_text};

    ghost output = { λ why. Some (why_text why) };

    fn fmt<W: fmt::Write>(&self, f: &mut fmt::Formatter<W>) -> fmt::Result {
        match self {
            ScriptWhy::NotText => write!(f, "NotText"),
            ScriptWhy::UnknownWord => write!(f, "UnknownWord"),
            ScriptWhy::MissingArgument => write!(f, "MissingArgument"),
            ScriptWhy::TwiceGiven => write!(f, "TwiceGiven"),
            ScriptWhy::BadNumber => write!(f, "BadNumber"),
            ScriptWhy::BadExpression => write!(f, "BadExpression"),
            ScriptWhy::Rebound => write!(f, "Rebound"),
            ScriptWhy::TooMany => write!(f, "TooMany"),
            ScriptWhy::LateLayer => write!(f, "LateLayer"),
            ScriptWhy::TooLarge => write!(f, "TooLarge"),
            ScriptWhy::BadLayer => write!(f, "BadLayer"),
            ScriptWhy::NotYet => write!(f, "NotYet"),
        }
    }
}

/// A text that is no script: the first line that is at fault, counted from 1, or 0 for the whole
/// text; and why.
#[derive(Clone, Copy, Debug, PartialEq, Eq)]
pub struct ScriptRefusal {
    pub line: u32,
    pub why: ScriptWhy,
}

/// Why there is no script.
#[derive(Clone, Copy, Debug, PartialEq, Eq, Error)]
pub enum ScriptFault {
    /// The text is no script.
    #[error("script line {line}: {why}", line = .0.line, why = .0.why)]
    Refused(ScriptRefusal),
    /// Memory ran out.
    #[error("out of memory")]
    NoMemory,
}

impl From<AllocError> for ScriptFault {
    ghost use Rattle.std.specs.Prelude.{◌≡◌};
    ghost use Rattle.script_text.specs.declared.fault.ScriptFault.TheVariants.{NoMemory};

    ghost from_gives = { λ _ e. e ≡ NoMemory };

    fn from(_: AllocError) -> Self {
        ScriptFault::NoMemory
    }
}

impl<T: Drop> From<AllocFailed<T>> for ScriptFault {
    ghost use Rattle.std.specs.Prelude.{◌≡◌};
    ghost use Rattle.script_text.specs.declared.fault.ScriptFault.TheVariants.{NoMemory};

    ghost from_gives = { λ _ e. e ≡ NoMemory };

    fn from(_: AllocFailed<T>) -> Self {
        ScriptFault::NoMemory
    }
}
