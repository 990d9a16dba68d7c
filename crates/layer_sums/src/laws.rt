//! Sums of a small complex, worked out. The checker proves each statement, and no call does anything.

ghost use Rattle.layer_sums.specs.Rows.{LayersSummed, NothingSummed, RowsListed};

/// Sums of layers, and the rows that they are taken over.
pub fn sums()
    ensures layers { LayersSummed }
    ensures nothing { NothingSummed }
    ensures rows { RowsListed }
{}
