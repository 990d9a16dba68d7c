//! A square is led back by what was kept of the same changes.
ghost use Rattle.std.specs.Prelude.{◌≡◌, IfOk, OnOk};
ghost use Rattle.mesh_model.specs.ChangeSet.{change_set};
ghost use Rattle.mesh_model.specs.Valid.{IsValid};
ghost use Rattle.mesh_core.specs.Seen.{now};
ghost use Rattle.mesh_tests.specs.Grown.{with_sides, grown};

use crate::loading::model_of;
use crate::making::{kill_edge, make_edge, make_face, make_vert};
use crate::names::{E0, E4, E5, V0, V1, V4};
use crate::steps::{Model, Side};
use mesh_core::Mesh;
use mesh_model::{Draft, NoMemory, Point};
use mesh_trail::Past;
use mesh_trail::laws::leads_back;
use std::alloc::Global;

/// The corners of a triangle over the first edge of a square.
pub(crate) const TRIANGLE: &[Side] = &[(V0, E0), (V1, E4), (V4, E5)];

// A vertex comes, and the two edges of a triangle there.
#[tactic(auto, unfolding(crate::specs::Grown::with_sides))]
fn add_sides(mesh: &mut Mesh) -> Result<(), NoMemory>
    ensures now { OnOk result (now mesh.new ≡ with_sides (now mesh.old)) }
    ensures base { mesh.new.base ≡ mesh.old.base }
{
    make_vert(mesh, Point { x: 0, y: 0, z: 4 }, None)?;
    make_edge(mesh, V1, V4, None)?;
    make_edge(mesh, V4, V0, None)?;
    Ok(())
}

// The triangle comes, and its first edge goes with all its faces.
#[tactic(auto, unfolding(crate::specs::Grown::grown))]
fn grow(mesh: &mut Mesh) -> Result<(), NoMemory>
    ensures now { OnOk result (now mesh.new ≡ grown (now mesh.old)) }
    ensures base { mesh.new.base ≡ mesh.old.base }
{
    add_sides(mesh)?;
    make_face(mesh, TRIANGLE, None)?;
    kill_edge(mesh, E0)
}

// What is kept of these changes.
fn keep_grown(mesh: &mut Mesh) -> Result<Past, NoMemory>
    ensures changes { IfOk result (λ p. p.changes ≡ change_set mesh.old.base (grown (now mesh.old))) }
    ensures base { mesh.new.base ≡ mesh.old.base }
{
    grow(mesh)?;
    mesh.keep()
}

// Changes a square again, and leads it back by the past.
fn lead_back(mesh: &mut Mesh, past: &Past) -> Result<(), NoMemory>
    requires valid { IsValid (now mesh.old) }
    requires changes { past.now.changes ≡ change_set (now mesh.old) (grown (now mesh.old)) }
{
    grow(mesh)?;
    leads_back();
    mesh.revert(past)
}

// Changes a square that is the base and goes back, and leads it back from the same changes.
fn grow_and_lead(mesh: &mut Mesh) -> Result<(), NoMemory>
    requires valid { IsValid mesh.old.base }
    requires same { mesh.old.base ≡ now mesh.old }
{
    let past = keep_grown(mesh)?;
    mesh.back();
    lead_back(mesh, &past)
}

// The same with a square that is loaded first.
fn load_and_lead(mesh: &mut Mesh, square: &Draft) -> Result<(), NoMemory>
    requires { IsValid square.now }
{
    mesh.load(square, &[])?;
    grow_and_lead(mesh)
}

/// Loads a square, changes it and goes back, and leads it back from the same changes.
pub(crate) fn lead_square_back(mesh: &mut Mesh, alloc: Global) -> Result<bool, NoMemory> {
    let square = model_of(alloc, Model::Square(0))?;
    load_and_lead(mesh, &square)?;
    Ok(true)
}
