//! The limits on names and corners.
ghost use Rattle.std.specs.Prelude.{◌≡◌};
ghost use Rattle.mesh_model.specs.Refusals.{limit_passed, refused_of};

use mesh_model::limits::{MAX_CORNERS, MAX_EDGES, MAX_FACES, MAX_VERTS};
use mesh_model::{Counters, Kind, Place, Refusal, Why};

/// The refusal of a result with these next names and so many live corners: of the first limit that they pass.
pub fn unless_too_many(after: Counters) -> Option<Refusal>
    ensures { result ≡ refused_of Why.TooMany (limit_passed after) }
{
    let kind = limit_passed(after)?;
    Some(Refusal {
        why: Why::TooMany,
        place: Place::Kind(kind),
    })
}

// The first limit that is passed.
fn limit_passed(after: Counters) -> Option<Kind>
    ensures { result ≡ limit_passed after }
{
    if after.verts > MAX_VERTS {
        return Some(Kind::Verts);
    }
    if after.edges > MAX_EDGES {
        return Some(Kind::Edges);
    }
    if after.faces > MAX_FACES {
        return Some(Kind::Faces);
    }
    if after.corners > MAX_CORNERS {
        return Some(Kind::Corners);
    }
    None
}
