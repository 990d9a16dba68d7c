//! Whole runs over small files, worked out. The checker proves each statement, and no
//! call does anything.

ghost use Rattle.bmesh_run.specs.Rows.{NamesOfFiles, SquareCut, NothingGiven, ScaleKept, ScaleOfSix};
ghost use Rattle.bmesh_run.specs.Rows.{MissingVertex, LayersGiven, LayersReported, InputsRefused, WordsRefused};
ghost use Rattle.bmesh_run.specs.Rows.{FilesDue};

/// Names that are no files.
pub fn names()
    ensures { NamesOfFiles }
{}

/// Whole runs that are delivered.
pub fn delivered()
    ensures cut { SquareCut }
    ensures nothing { NothingGiven }
    ensures missing { MissingVertex }
    ensures layers { LayersGiven }
    ensures sums { LayersReported }
    ensures scale { ScaleKept }
    ensures six { ScaleOfSix }
{}

/// Whole runs that are refused, and the files that are due.
pub fn refused()
    ensures inputs { InputsRefused }
    ensures words { WordsRefused }
    ensures due { FilesDue }
{}
