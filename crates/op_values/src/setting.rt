//! set.
ghost use Rattle.std.specs.Prelude.{◌≡◌, ◌<◌, length, Some, IfOk, OnOk, slice_get, true, not, ◌||◌};
ghost use Rattle.std.specs.List.{list_all};
ghost use Rattle.std.specs.Option.{option_map};
ghost use Rattle.cust_data.specs.Layers.{same_name, find_layer};
ghost use Rattle.mesh_model.specs.Complex.{layers_of, material_layer, smooth_layer};
ghost use Rattle.mesh_model.specs.Closure.{AreLive};
ghost use Rattle.mesh_model.specs.Elements.{no_elements};
ghost use Rattle.mesh_model.specs.Refusals.{unless};
ghost use Rattle.mesh_model.specs.Valid.{IsSound, is_in_range, is_material, is_smooth};
ghost use Rattle.mesh_model.specs.Values.{offset, same_layer, with_numbers};
ghost use Rattle.mesh_core.specs.Seen.{now};
ghost use Rattle.mesh_passes.specs.Answer.{IsReady, Meets};
ghost use Rattle.mesh_passes.specs.Row.{only};
ghost use Rattle.op_values.specs.Putting.{AreAllowed, layer_at, rows_put};
ghost use Rattle.op_values.specs.Setting.{are_values, is_allowed, set_refusal, set_row};

use crate::putting::put_numbers;
use mesh_core::{Kind, Mesh, NoMemory, Rule, Shape};
use mesh_model::{Place, Refusal, Text, Vals, Why, is_in_range};
use mesh_passes::{Operator, only, run};
use op_slots::{Buffer, Fault, Slots};
use std::alloc::Global;

/// The arguments of `set`.
#[derive(Debug, Drop)]
pub struct SetArgs {
    /// Of what the layer is.
    pub of: Kind,
    /// Elements of that kind, and faces for corners.
    pub geom: Buffer,
    /// The name of the layer, in bytes.
    pub layer: Text,
    /// The numbers, as many as the layer is wide.
    pub values: Vals,
}

/// Sets the numbers of a layer at elements, or at each corner of faces. It is refused with `NoLayer` where the kind has
/// no layer of the name, and with `BadValue` where there are more or fewer numbers than the layer is wide, one of them
/// isn't from -1,000,000,000 to 1,000,000,000, a face's material isn't 0 to the number of materials, or its smoothing
/// group is below 0. It gives the elements back.
///
/// The mesh is between two commands, and the elements are live. It takes time that grows with their number and with
/// their rows of values, and for a face's corners with the square of their number.
pub fn set(alloc: Global, mesh: &mut Mesh, args: &SetArgs) -> Result<Slots, Fault>
    requires ready { IsReady mesh.old }
    requires live { AreLive (now mesh.old) args.now.geom }
    ensures { Meets (set_row args.now.of args.now.geom args.now.layer args.now.values (now mesh.old))
        mesh.old mesh.new result }
{
    run(alloc, mesh, args)
}

impl Operator for SetArgs {
    ghost use Rattle.mesh_model.specs.Closure.{AreLive};
    ghost use Rattle.op_values.specs.Setting.{set_refusal, set_result};

    ghost fits = { λ a c. AreLive c a.geom };

    ghost refusal = { λ a c. set_refusal a.of a.geom a.layer a.values c };

    ghost outcome = { λ a c. set_result a.of a.geom a.layer a.values c };

    fn check(&self, _alloc: Global, mesh: &Mesh) -> Result<Option<Refusal>, NoMemory> {
        Ok(refused(mesh, self.of, self.layer.as_slice(), self.values.as_slice()))
    }

    fn change(&self, alloc: Global, mesh: &mut Mesh) -> Result<Slots, NoMemory> {
        match layer_of(mesh, self.of, self.layer.as_slice()) {
            Some(k) => set_layer(alloc, mesh, self.of, k, &self.geom, self.values.as_slice()),
            None => unreachable!(),
        }
    }
}

// The refusal of the first condition that fails.
fn refused(mesh: &Mesh, kind: Kind, name: &[u8], values: &[i64]) -> Option<Refusal>
    ensures { result ≡ set_refusal kind no_elements name.now values.now (now mesh.now) }
{
    match layer_of(mesh, kind, name) {
        Some(k) => unless_values(mesh, kind, k, values),
        None => Some(Refusal {
            why: Why::NoLayer,
            place: Place::Nowhere,
        }),
    }
}

// Refused where a layer can't have these numbers.
fn unless_values(mesh: &Mesh, kind: Kind, k: usize, values: &[i64]) -> Option<Refusal>
    requires { k < length (layers_of (now mesh.now).layers kind) }
    ensures { result
        ≡ unless (are_values (now mesh.now) kind values.now (layer_at (now mesh.now) kind k)) Why.BadValue }
{
    if are_values(mesh, kind, k, values) {
        None
    } else {
        Some(Refusal {
            why: Why::BadValue,
            place: Place::Nowhere,
        })
    }
}

// The position of the layer of a name.
fn layer_of(mesh: &Mesh, kind: Kind, name: &[u8]) -> Option<usize>
    ensures { result ≡ find_layer (layers_of (now mesh.now).layers kind) name.now }
{
    for k in 0..mesh.layers(kind) {
        if is_named(mesh, kind, k, name) {
            return Some(k);
        }
    }
    None
}

// Whether a layer has a name.
fn is_named(mesh: &Mesh, kind: Kind, k: usize, name: &[u8]) -> bool
    requires { k < length (layers_of (now mesh.now).layers kind) }
    ensures { option_map (λ l. same_name l.name name.now) (slice_get (layers_of (now mesh.now).layers kind) k)
        ≡ Some result }
{
    mesh.layer_name(kind, k) == name
}

// Whether a layer can have these numbers: as many as it is wide, each in range and allowed.
fn are_values(mesh: &Mesh, kind: Kind, k: usize, values: &[i64]) -> bool
    requires { k < length (layers_of (now mesh.now).layers kind) }
    ensures { result ≡ are_values (now mesh.now) kind values.now (layer_at (now mesh.now) kind k) }
{
    mesh.layer_width(kind, k) as usize == values.len()
        && (are_in_range(values) && are_allowed(mesh, kind, k, values))
}

// Whether each number is in range.
fn are_in_range(values: &[i64]) -> bool
    ensures { result ≡ list_all is_in_range values.now }
{
    values.iter().all(|n| is_in_range(*n))
}

// Whether a layer is allowed to have each of the numbers.
fn are_allowed(mesh: &Mesh, kind: Kind, k: usize, values: &[i64]) -> bool
    requires { k < length (layers_of (now mesh.now).layers kind) }
    ensures { result ≡ list_all (is_allowed (now mesh.now) kind (layer_at (now mesh.now) kind k)) values.now }
{
    match kind {
        Kind::Faces => are_allowed_at_faces(mesh, k, values),
        _ => true,
    }
}

// The same of a layer of faces: materials are there, and smoothing groups aren't negative.
fn are_allowed_at_faces(mesh: &Mesh, k: usize, values: &[i64]) -> bool
    requires { k < length (layers_of (now mesh.now).layers Kind.Faces) }
    ensures { result
        ≡ list_all (is_allowed (now mesh.now) Kind.Faces (layer_at (now mesh.now) Kind.Faces k)) values.now }
{
    can_be_materials(mesh, k, values) && can_be_smooth(mesh, k, values)
}

// Whether numbers of the layer of materials are materials.
fn can_be_materials(mesh: &Mesh, k: usize, values: &[i64]) -> bool
    requires { k < length (layers_of (now mesh.now).layers Kind.Faces) }
    ensures { result ≡ (not (same_layer material_layer (layer_at (now mesh.now) Kind.Faces k))
        || list_all (is_material (now mesh.now)) values.now) }
{
    !is_fixed(mesh, k, b"material") || are_materials(mesh, values)
}

// Whether numbers of the layer of smoothing groups are such.
fn can_be_smooth(mesh: &Mesh, k: usize, values: &[i64]) -> bool
    requires { k < length (layers_of (now mesh.now).layers Kind.Faces) }
    ensures { result ≡ (not (same_layer smooth_layer (layer_at (now mesh.now) Kind.Faces k))
        || list_all is_smooth values.now) }
{
    !is_fixed(mesh, k, b"smooth") || are_smooth(values)
}

// Whether a layer of faces has a name, is one number wide and is copied.
fn is_fixed(mesh: &Mesh, k: usize, name: &[u8]) -> bool
    requires { k < length (layers_of (now mesh.now).layers Kind.Faces) }
    ensures { option_map (same_layer (record { name = name.now; width = 1; rule = Rule.Copy }))
        (slice_get (layers_of (now mesh.now).layers Kind.Faces) k)
        ≡ Some result }
{
    mesh.layer_name(Kind::Faces, k) == name
        && mesh.layer_width(Kind::Faces, k) == 1
        && mesh.layer_rule(Kind::Faces, k) == Rule::Copy
}

// Whether each number is 0 or counts a material.
fn are_materials(mesh: &Mesh, values: &[i64]) -> bool
    ensures { result ≡ list_all (is_material (now mesh.now)) values.now }
{
    values.iter().all(|n| is_material(mesh, *n))
}

// Whether a number is 0 or counts a material.
fn is_material(mesh: &Mesh, n: i64) -> bool
    ensures { result ≡ is_material (now mesh.now) n }
{
    n == 0 || (0 < n && mesh.material((n - 1) as usize).is_some())
}

// Whether no number is negative.
fn are_smooth(values: &[i64]) -> bool
    ensures { result ≡ list_all is_smooth values.now }
{
    values.iter().all(|n| 0 <= *n)
}

// Puts numbers that a layer can have into the rows of live elements, which it gives back.
fn set_layer(
    alloc: Global,
    mesh: &mut Mesh,
    kind: Kind,
    k: usize,
    geom: &Buffer,
    values: &[i64],
) -> Result<Slots, NoMemory>
    requires sound { IsSound (now mesh.old) }
    requires live { AreLive (now mesh.old) geom.now }
    requires within { k < length (layers_of (now mesh.old).layers kind) }
    requires values { are_values (now mesh.old) kind values.now (layer_at (now mesh.old) kind k) ≡ true }
    ensures slots { IfOk result (λ slots. slots ≡ only geom.now) }
    ensures now { OnOk result (now mesh.new
        ≡ rows_put (with_numbers (layers_of (now mesh.old).layers kind) k values.now) kind (now mesh.old) geom.now) }
    ensures sound { OnOk result (IsSound (now mesh.new)) }
    ensures base { mesh.new.base ≡ mesh.old.base }
{
    let from = offset(mesh, kind, k);
    let given = geom.copy()?;
    put_numbers(alloc, mesh, kind, geom, from, values)?;
    Ok(only(alloc, given))
}

// Where the numbers of a layer begin in a row.
fn offset(mesh: &Mesh, kind: Kind, k: usize) -> usize
    requires { k < length (layers_of (now mesh.now).layers kind) }
    ensures { result ≡ offset (layers_of (now mesh.now).layers kind) k }
{
    let _ = mesh.counters();
    let mut from = 0;
    for j in 0..k {
        from += mesh.layer_width(kind, j) as usize;
    }
    from
}
