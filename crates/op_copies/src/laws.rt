//! Copies on small models, worked out. The checker proves each statement, and no call does anything.

ghost use Rattle.op_copies.specs.Rows.{Duplicates, CopiesValues, CopiesCorners, Splits, SplitsAVert};

/// Elements copied.
pub fn copies()
    ensures duplicates { Duplicates }
    ensures values { CopiesValues }
    ensures corners { CopiesCorners }
    ensures splits { Splits }
    ensures vert { SplitsAVert }
{}
