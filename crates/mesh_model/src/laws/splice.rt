//! Splicing and separating on the small models.

ghost use Rattle.mesh_model.specs.EulerLaws.{SpliceValid};
ghost use Rattle.mesh_model.specs.SpliceRows.{BowSeparated, SquareSpliced, StripSeparated, BothCopied, SpliceResults, SpliceVertRefusals, SpliceEdgeRefusals, SeparateCornerRefusals, SeparateVertRefusals};

/// Vertices separated and spliced, edges copied and spliced.
pub fn changes()
    ensures bow { BowSeparated }
    ensures square { SquareSpliced }
    ensures strip { StripSeparated }
    ensures both_copied { BothCopied }
    ensures results { SpliceResults }
{}

/// Each refusal, in order.
pub fn refusals()
    ensures splice_vert { SpliceVertRefusals }
    ensures splice_edge { SpliceEdgeRefusals }
    ensures separate_corner { SeparateCornerRefusals }
    ensures separate_vert { SeparateVertRefusals }
{}

/// What each call keeps: where its test answers None, a valid complex stays valid.
pub fn kept()
    ensures { SpliceValid }
{}
