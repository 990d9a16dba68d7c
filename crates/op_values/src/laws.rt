//! Values set on small models, worked out. The checker proves each statement, and no call does anything.

ghost use Rattle.op_values.specs.Rows.{SetsValues, SetsCorners, SetsLayers};

/// Values set.
pub fn sets()
    ensures values { SetsValues }
    ensures corners { SetsCorners }
    ensures layers { SetsLayers }
{}
