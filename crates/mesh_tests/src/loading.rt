//! Meshes are loaded, and go back.
ghost use Rattle.std.specs.Prelude.{IfOk, ◌≡◌, None};
ghost use Rattle.mesh_model.specs.Complex.{no_complex};
ghost use Rattle.mesh_model.specs.Declaring.{first_declaration_fault};
ghost use Rattle.mesh_model.specs.Valid.{IsValid};

use crate::grids::grid;
use crate::kept::is_kept;
use crate::leading::lead_square_back;
use crate::steps::{Kept, Model, Way};
use mesh_core::Mesh;
use mesh_model::{Draft, Kind, LayerDecl, NoMemory, Rule, Shape, Text};
use sample_drafts::square;
use std::alloc::Global;

/// The most that can be asked for at once.
const MOST: usize = 1 << 24;

/// A model by itself. The third corner of the square's face has the place 5, 6 in the texture.
pub(crate) fn model_of(alloc: Global, model: Model) -> Result<Draft, NoMemory>
    ensures { IfOk result (λ d. IsValid d) }
{
    match model {
        Model::Square(height) => square(alloc, height, 5),
        Model::Grid(side) => grid(alloc, side),
    }
}

/// Takes a mesh some way. The answer is whether it went so.
pub(crate) fn go(mesh: &mut Mesh, alloc: Global, way: &Way) -> Result<bool, NoMemory> {
    match *way {
        Way::Load(model) => load(mesh, alloc, model),
        Way::LeadBack => lead_square_back(mesh, alloc),
        Way::Layer(kind) => load_layer(mesh, alloc, kind),
        Way::Reserve(n) => reserve(mesh, n),
        Way::ReserveNotes(n) => reserve_notes(mesh, n),
        Way::Mark => mark(mesh),
        Way::Exchange(wanted) => exchange(mesh, wanted),
        Way::Back => {
            mesh.back();
            Ok(true)
        }
        Way::Keep(ref wanted) => keep(mesh, wanted),
    }
}

fn load(mesh: &mut Mesh, alloc: Global, model: Model) -> Result<bool, NoMemory> {
    let draft = model_of(alloc, model)?;
    mesh.load(&draft, &[])?;
    Ok(true)
}

// An empty mesh with a layer of two numbers that are copied.
fn load_layer(mesh: &mut Mesh, alloc: Global, kind: Kind) -> Result<bool, NoMemory> {
    let name = Text::of(alloc, b"w")?;
    let layers = [LayerDecl {
        kind,
        name,
        width: 2,
        rule: Rule::Copy,
    }];
    load_layers(mesh, alloc, &layers)
}

// An empty mesh with layers.
fn load_layers(mesh: &mut Mesh, alloc: Global, layers: &[LayerDecl]) -> Result<bool, NoMemory>
    requires { first_declaration_fault no_complex.layers layers.now ≡ None }
{
    let bare = Draft::bare(alloc);
    mesh.load(&bare, layers)?;
    Ok(true)
}

fn reserve(mesh: &mut Mesh, n: [usize; 4]) -> Result<bool, NoMemory> {
    let [verts, edges, corners, faces] = n;
    if verts > MOST || edges > MOST || corners > MOST || faces > MOST {
        return Ok(false);
    }
    mesh.reserve(verts, edges, corners, faces)?;
    Ok(true)
}

fn reserve_notes(mesh: &mut Mesh, n: [usize; 4]) -> Result<bool, NoMemory> {
    let [verts, edges, corners, faces] = n;
    if verts > MOST || edges > MOST || corners > MOST || faces > MOST {
        return Ok(false);
    }
    mesh.reserve_notes(verts, edges, corners, faces)?;
    Ok(true)
}

fn mark(mesh: &mut Mesh) -> Result<bool, NoMemory> {
    mesh.mark()?;
    Ok(true)
}

fn keep(mesh: &Mesh, wanted: &Kept) -> Result<bool, NoMemory> {
    let past = mesh.keep()?;
    Ok(is_kept(&past, wanted))
}

// The base becomes what the mesh is, and had these next names and so many corners.
fn exchange(mesh: &mut Mesh, wanted: [u32; 4]) -> Result<bool, NoMemory> {
    let before = mesh.exchange_base()?;
    let n = before.counters();
    Ok([n.verts, n.edges, n.faces, n.corners] == wanted)
}
