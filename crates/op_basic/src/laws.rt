//! Operators on small models, worked out. The checker proves each statement, and no call does anything.

ghost use Rattle.op_basic.specs.Rows.{MakesVerts, MakesFaces, MakesEdges, MakesOtherFaces};
ghost use Rattle.op_basic.specs.Rows.{Translates, LeavesTheGrid, MirrorsAndScales, ScalesAbout};
ghost use Rattle.op_basic.specs.Rows.{MirrorsOthers, Reverses, ReversesOne, DeletesFaces, DeletesEdges};
ghost use Rattle.op_basic.specs.Rows.{DeletesVerts, KeepsBoundary, DeletesMore};

/// Elements made.
pub fn makes()
    ensures verts { MakesVerts }
    ensures edges { MakesEdges }
    ensures faces { MakesFaces }
    ensures others { MakesOtherFaces }
{}

/// Vertices moved.
pub fn moves()
    ensures translates { Translates }
    ensures leaves { LeavesTheGrid }
    ensures turns { MirrorsAndScales }
    ensures scales { ScalesAbout }
    ensures mirrors { MirrorsOthers }
{}

/// Faces turned over.
pub fn reverses()
    ensures all { Reverses }
    ensures one { ReversesOne }
{}

/// Elements deleted.
pub fn deletes()
    ensures faces { DeletesFaces }
    ensures edges { DeletesEdges }
    ensures verts { DeletesVerts }
    ensures boundary { KeepsBoundary }
    ensures more { DeletesMore }
{}
