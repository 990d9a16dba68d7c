//! What holds of all sessions, and commands on the square, worked out. The checker proves each statement, and no call
//! does anything.

ghost use Rattle.mesh_session.specs.Rows.{BindsItsSlots, CutsACorner, DeletesOnce, NoCommand};
ghost use Rattle.mesh_session.specs.Rows.{RefusesAMissingVertex, RefusesOtherTerms, NamesStandForSlots};
ghost use Rattle.mesh_session.specs.Rows.{DeletesARange, RefusesTheRest, NothingToGoTo, GoesBackAndOn};
ghost use Rattle.mesh_session.specs.Laws.{UndoGivesBack};

/// Undo gives back the complex, what is bound and what can be undone, as they were before a done command.
pub fn undo_gives_back()
    ensures { UndoGivesBack }
{}

/// Single commands, done and refused.
pub fn single()
    ensures cuts { CutsACorner }
    ensures binds { BindsItsSlots }
    ensures missing { RefusesAMissingVertex }
    ensures kinds { RefusesOtherTerms }
{}

/// Names, ranges, and what can't be done so far.
pub fn arguments()
    ensures names { NamesStandForSlots }
    ensures range { DeletesARange }
    ensures rest { RefusesTheRest }
{}

/// Lists of commands.
pub fn lists()
    ensures nothing { NothingToGoTo }
    ensures back { GoesBackAndOn }
    ensures once { DeletesOnce }
    ensures none { NoCommand }
{}
