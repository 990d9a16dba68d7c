//! Vertices at which no edge ends.
ghost use Rattle.std.specs.Prelude.{◌≡◌};
ghost use Rattle.mesh_model.specs.Table.{IsThere};
ghost use Rattle.mesh_model.specs.Incidence.{is_bare};
ghost use Rattle.mesh_core.specs.Seen.{now};

use mesh_core::{Mesh, VertName};

/// Whether no edge ends at a live vertex. Constant time.
pub fn is_bare(mesh: &Mesh, v: VertName) -> bool
    requires { IsThere (now mesh.now).verts v.0 }
    ensures { result ≡ is_bare (now mesh.now) v }
{
    mesh.cycles_hold();
    match mesh.edges_of_vert(v).next() {
        None => true,
        Some(_) => false,
    }
}
