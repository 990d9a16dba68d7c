//! The small models worked out.

ghost use Rattle.mesh_model.specs.Rows.{SquareTables, SquareCut, SquareLoose, SquareGone, StripTables, FinEdge, FinCut, FinBare, BowMiddle, BowCut, EdgesFound, NamesGiven, PastTheEnd, NothingThere, TablesChanged, SidesGiven, GridEnds, NamesRise, AreGood, CornersFound, AreUnlinked, AreInvalid, AreOutOfRange, MaterialsTold, LimitsTold, AreDoubled};
ghost use Rattle.mesh_model.specs.ValueRows.{NumbersFound, RowsGiven, LayersHeld, LayersDeclared};

/// A square, and what deleting its vertices leaves.
pub fn square()
    ensures tables { SquareTables }
    ensures cut { SquareCut }
    ensures loose { SquareLoose }
    ensures gone { SquareGone }
{}

/// Two squares on one edge.
pub fn strip()
    ensures tables { StripTables }
{}

/// Three triangles on one edge.
pub fn fin()
    ensures edge { FinEdge }
    ensures cut { FinCut }
    ensures bare { FinBare }
{}

/// Two triangles at one vertex.
pub fn bow()
    ensures middle { BowMiddle }
    ensures cut { BowCut }
{}

/// Names, tables, sides and the ends of the grid.
pub fn words()
    ensures found { EdgesFound }
    ensures names { NamesGiven }
    ensures past { PastTheEnd }
    ensures nothing { NothingThere }
    ensures tables { TablesChanged }
    ensures rising { NamesRise }
    ensures sides { SidesGiven }
    ensures grid { GridEnds }
{}

/// Layers and rows of values.
pub fn values()
    ensures numbers { NumbersFound }
    ensures rows { RowsGiven }
    ensures layers { LayersHeld }
    ensures declared { LayersDeclared }
{}

/// What is linked, valid and simple, and what isn't.
pub fn tests()
    ensures good { AreGood }
    ensures corners { CornersFound }
    ensures unlinked { AreUnlinked }
    ensures invalid { AreInvalid }
    ensures range { AreOutOfRange }
    ensures materials { MaterialsTold }
    ensures limits { LimitsTold }
    ensures doubled { AreDoubled }
{}
