//! Values, or why there is none.
ghost use Rattle.text_words.specs.Outcome.{Gives, ok_or};

use std::alloc::{AllocError, AllocFailed};

/// Why something that is made of a text, step by step, is not made.
#[derive(Clone, Copy, Debug, PartialEq, Eq)]
pub enum Stop<W> {
    /// The text is at fault, and why.
    Fault(W),
    /// Memory ran out.
    NoMemory,
}

impl<W> From<AllocError> for Stop<W> {
    ghost use Rattle.std.specs.Prelude.{◌≡◌};
    ghost use Rattle.text_words.specs.declared.outcome.Stop.TheVariants.{NoMemory};

    ghost from_gives = { λ _ e. e ≡ NoMemory };

    fn from(_: AllocError) -> Self {
        Stop::NoMemory
    }
}

impl<T: Drop, W> From<AllocFailed<T>> for Stop<W> {
    ghost use Rattle.std.specs.Prelude.{◌≡◌};
    ghost use Rattle.text_words.specs.declared.outcome.Stop.TheVariants.{NoMemory};

    ghost from_gives = { λ _ e. e ≡ NoMemory };

    fn from(_: AllocFailed<T>) -> Self {
        Stop::NoMemory
    }
}

/// A value, or a fault where there is none.
pub fn or_fault<T: Drop, W: Copy>(value: Option<T>, why: W) -> Result<T, Stop<W>>
    ensures { Gives result (ok_or value why) }
{
    match value {
        Some(value) => Ok(value),
        None => Err(Stop::Fault(why)),
    }
}

/// A value, or the fault in its place.
pub fn or_stop<T: Drop, W: Copy>(value: Result<T, W>) -> Result<T, Stop<W>>
    ensures { Gives result value }
{
    match value {
        Ok(value) => Ok(value),
        Err(why) => Err(Stop::Fault(why)),
    }
}
