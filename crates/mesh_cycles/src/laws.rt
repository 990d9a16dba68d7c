//! A small store and small lists, worked out, and what is true of every new element. The checker proves each statement,
//! and no call does anything.

ghost use Rattle.mesh_cycles.specs.NewElements.{NewVerts, NewEdges, NewLoops, NewFaces, NoElements};
ghost use Rattle.mesh_cycles.specs.Rows.{SmallOwners, SmallEdges, SmallLoops, SmallCorners, SmallStanding, SmallFaces, SmallAround, HalfBuiltFaces, HalfBuiltAround, SmallNames, SmallJoins, OneLess, OneMore};

/// Two edges at one vertex, and three faces, of which one has two corners on one edge; also before these are in its own
/// cycle.
pub fn small_store()
    ensures owners { SmallOwners }
    ensures edges { SmallEdges }
    ensures loops { SmallLoops }
    ensures corners { SmallCorners }
    ensures standing { SmallStanding }
    ensures faces { SmallFaces }
    ensures around { SmallAround }
    ensures half_built_faces { HalfBuiltFaces }
    ensures half_built_around { HalfBuiltAround }
    ensures names { SmallNames }
    ensures joins { SmallJoins }
{}

/// A member less, and a member more.
pub fn lists()
    ensures less { OneLess }
    ensures more { OneMore }
{}

/// What a new element has in every store whose cycles hold: it is in no cycle, its own cycle is empty, and every other
/// cycle has its members. In a store that was cleared all cycles hold.
pub fn new_elements()
    ensures verts { NewVerts }
    ensures edges { NewEdges }
    ensures loops { NewLoops }
    ensures faces { NewFaces }
    ensures none { NoElements }
{}
