//! Closures of sets and new elements, worked out, and what holds of them.

ghost use Rattle.mesh_model.specs.ClosureLaws.{ClosureRises, ClosureIsLive, ClosureIsClosed, RankIsPosition, NoLimitPassed};
ghost use Rattle.mesh_model.specs.ClosureRows.{FinClosure, StripClosure, NewElements, FreshNames};

/// The closures of sets of elements.
pub fn closures()
    ensures fin { FinClosure }
    ensures strip { StripClosure }
{}

/// What is new, and how it is named.
pub fn new_elements()
    ensures new { NewElements }
    ensures names { FreshNames }
{}

/// The names of a closure rise.
pub fn closure_rises()
    ensures { ClosureRises }
{}

/// The elements of a closure are there.
pub fn closure_is_live()
    ensures { ClosureIsLive }
{}

/// A closure is its own closure.
pub fn closure_is_closed()
    ensures { ClosureIsClosed }
{}

/// Ranks are positions.
pub fn rank_is_position()
    ensures { RankIsPosition }
{}

/// No limit is passed where all hold.
pub fn no_limit_passed()
    ensures { NoLimitPassed }
{}
