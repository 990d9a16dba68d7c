//! Two small meshes, worked out by hand: a square, whose slots are in another order than its names, and three triangles
//! on one edge. The checker proves each statement, and no call does anything.

ghost use Rattle.mesh_records.specs.Rows.{SquareRead, SquareDisks, SquareRoom};
ghost use Rattle.mesh_records.specs.Rows.{FinRead, FinDisks, FinEdges, FinAlong, FinAlongLast};

/// The store of a square: what it stands for, the edges around its vertices, and its room.
pub fn square()
    ensures read { SquareRead }
    ensures disks { SquareDisks }
    ensures room { SquareRoom }
{}

/// The store of three triangles on one edge: what it stands for, the edges around its vertices, and the corners along
/// edges.
pub fn fin()
    ensures read { FinRead }
    ensures disks { FinDisks }
    ensures edges { FinEdges }
    ensures along { FinAlong }
    ensures along_last { FinAlongLast }
{}
