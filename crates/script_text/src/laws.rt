//! Laws of the definitions. Each function does nothing, and its contract is the law.
ghost use Rattle.script_text.specs.Rows.{Commands, Contexts, Others, Faults, Later, Values, Declarations};
ghost use Rattle.script_text.specs.Laws.{OnlyWhatIsBuilt};

/// What some small scripts are.
pub fn rows()
    ensures commands { Commands }
    ensures contexts { Contexts }
    ensures others { Others }
    ensures faults { Faults }
    ensures later { Later }
{}

/// What some arguments and declarations are.
pub fn parts()
    ensures values { Values }
    ensures declarations { Declarations }
{}

/// A session can do each command of a script so far.
pub fn built()
    ensures { OnlyWhatIsBuilt }
{}
