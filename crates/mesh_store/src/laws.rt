//! A small store, worked out. The checker proves each statement, and no call does anything.

ghost use Rattle.mesh_store.specs.Rows.{SmallChanges, SmallDrop, SmallNew, SmallKeys, SmallLinks, SmallBeside};

/// An edge joins two vertices, and both loops of a face go along it.
pub fn small_store()
    ensures changes { SmallChanges }
    ensures drop { SmallDrop }
    ensures fresh { SmallNew }
    ensures keys { SmallKeys }
    ensures links { SmallLinks }
    ensures beside { SmallBeside }
{}
