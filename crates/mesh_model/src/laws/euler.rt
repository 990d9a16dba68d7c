//! The Euler calls on the small models.

ghost use Rattle.mesh_model.specs.EulerLaws.{ReverseTwice, EulerValid, EulerSound};
ghost use Rattle.mesh_model.specs.EulerRows.{SquareSplit, SquareJoinedBack, SquareCutAndFused, SquareReversed, FinSplit, StripSplit, StripCut, StripFused, StripReversed, EulerResults, SplitEdgeRefusals, SplitEdgeTooLong, JoinEdgeRefusals, SplitFaceRefusals, JoinFaceRefusals, JoinFaceTooLong, ReverseRefusals, LimitsPassed};

/// The square split and joined, cut and fused, reversed.
pub fn square()
    ensures split { SquareSplit }
    ensures joined_back { SquareJoinedBack }
    ensures cut_and_fused { SquareCutAndFused }
    ensures reversed { SquareReversed }
{}

/// An edge with three faces, split in each.
pub fn fin()
    ensures split { FinSplit }
{}

/// Which values new and changed corners, edges and vertices have.
pub fn values()
    ensures split { StripSplit }
    ensures cut { StripCut }
    ensures fused { StripFused }
    ensures reversed { StripReversed }
    ensures results { EulerResults }
{}

/// Each refusal, in order.
pub fn refusals()
    ensures split_edge { SplitEdgeRefusals }
    ensures join_edge { JoinEdgeRefusals }
    ensures split_face { SplitFaceRefusals }
    ensures join_face { JoinFaceRefusals }
    ensures loop_reverse { ReverseRefusals }
    ensures limits { LimitsPassed }
{}

/// Faces that have no room for more corners.
pub fn long_faces()
    ensures split_edge { SplitEdgeTooLong }
    ensures join_face { JoinFaceTooLong }
{}

/// What each call keeps: where its test answers None, a valid complex stays valid, and a simple one simple unless the
/// call makes an edge between two vertices that another edge joins.
pub fn kept()
    ensures twice { ReverseTwice }
    ensures valid { EulerValid }
    ensures sound { EulerSound }
{}
