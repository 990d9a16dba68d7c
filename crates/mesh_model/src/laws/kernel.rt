//! The changes that a mesh makes, worked out.

ghost use Rattle.mesh_model.specs.KernelLaws.{TurnedOver, TurnedTwice, KilledAlone};
ghost use Rattle.mesh_model.specs.KernelRows.{Made, MadeFace, FaceKilled, EdgeKilled, VertKilled, VertCanGo, EndSet, CornerSet, Reversed, ReversedValues, PartsSet};

/// Elements made, with the values of an example and without.
pub fn made()
    ensures edges { Made }
    ensures face { MadeFace }
{}

/// Elements killed, with those that stand on them.
pub fn killed()
    ensures face { FaceKilled }
    ensures edge { EdgeKilled }
    ensures vert { VertKilled }
    ensures can_go { VertCanGo }
{}

/// Ends and corners replaced, and faces turned over.
pub fn rewired()
    ensures end { EndSet }
    ensures corner { CornerSet }
    ensures reversed { Reversed }
    ensures values { ReversedValues }
{}

/// Points and values replaced.
pub fn set()
    ensures parts { PartsSet }
{}

/// Where the corners of a face stand that is turned over.
pub fn turned_over()
    ensures { TurnedOver }
{}

/// A face turned over twice.
pub fn turned_twice()
    ensures { TurnedTwice }
{}

/// A vertex killed, and the list of one vertex deleted.
pub fn killed_alone()
    ensures { KilledAlone }
{}
