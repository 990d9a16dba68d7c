//! Operators over the elements for which an expression stands. What is refused of the expression comes first.
ghost use Rattle.std.specs.Prelude.{◌≡◌};
ghost use Rattle.mesh_model.specs.Closure.{AreLive};
ghost use Rattle.op_basic.specs.Deleting.{delete_row};
ghost use Rattle.op_basic.specs.Motions.{translate_row, scale_row, mirror_row};
ghost use Rattle.op_basic.specs.Turning.{reverse_row};
ghost use Rattle.op_copies.specs.Duplicating.{duplicate_row, split_row};
ghost use Rattle.op_slots.specs.Values.{resolved};
ghost use Rattle.op_slots.specs.declared.resolving.want.Want.TheVariants as want;
ghost use Rattle.op_values.specs.Setting.{set_row};
ghost use Rattle.mesh_core.specs.Seen.{now};
ghost use Rattle.mesh_passes.specs.Answer.{IsReady, Meets};
ghost use Rattle.mesh_session.specs.Operators.{kind_set, kind_wanted, over};

use mesh_core::{Mesh, Point};
use mesh_model::{Kind, Text, Vals};
use op_basic::{
    DeleteArgs, MirrorArgs, ReverseArgs, ScaleArgs, TranslateArgs, delete, mirror, reverse, scale,
    translate,
};
use op_copies::{DuplicateArgs, SplitArgs, duplicate, split};
use op_slots::{Axis, Bindings, Buffer, Context, Expr, Fault, Slots, Want, resolve};
use op_values::{SetArgs, set};
use std::alloc::Global;

// Sets a layer.
pub fn set_all(
    alloc: Global,
    mesh: &mut Mesh,
    bindings: &Bindings,
    of: Kind,
    geom: &Expr,
    layer: &Text,
    values: &Vals,
) -> Result<Slots, Fault>
    requires { IsReady mesh.old }
    ensures { Meets (over (resolved (now mesh.old) bindings.now.bound (kind_set of) geom.now)
        (λ x. set_row of x layer.now values.now (now mesh.old))) mesh.old mesh.new result }
{
    match resolve(alloc, geom, kind_set(of), mesh, bindings) {
        Ok(geom) => set_on(alloc, mesh, of, geom, layer, values),
        Err(fault) => Err(fault),
    }
}

// Sets a layer at elements that are there.
fn set_on(
    alloc: Global,
    mesh: &mut Mesh,
    of: Kind,
    geom: Buffer,
    layer: &Text,
    values: &Vals,
) -> Result<Slots, Fault>
    requires ready { IsReady mesh.old }
    requires live { AreLive (now mesh.old) geom }
    ensures { Meets (set_row of geom layer.now values.now (now mesh.old)) mesh.old mesh.new result }
{
    let layer = layer.copy()?;
    let values = values.copy()?;
    set(
        alloc,
        mesh,
        &SetArgs {
            of,
            geom,
            layer,
            values,
        },
    )
}

// The kind of the elements at which a layer of a kind is set.
fn kind_set(of: Kind) -> Want
    ensures { result ≡ kind_set of }
{
    match of {
        Kind::Verts => Want::Verts,
        Kind::Edges => Want::Edges,
        Kind::Corners => Want::Faces,
        Kind::Faces => Want::Faces,
    }
}

// Moves vertices.
pub fn translate_all(
    alloc: Global,
    mesh: &mut Mesh,
    bindings: &Bindings,
    verts: &Expr,
    by: Point,
) -> Result<Slots, Fault>
    requires { IsReady mesh.old }
    ensures { Meets (over (resolved (now mesh.old) bindings.now.bound want.Verts verts.now)
        (λ x. translate_row x.verts by (now mesh.old))) mesh.old mesh.new result }
{
    match resolve(alloc, verts, Want::Verts, mesh, bindings) {
        Ok(verts) => translate(alloc, mesh, &TranslateArgs { verts, by }),
        Err(fault) => Err(fault),
    }
}

// Scales vertices.
pub fn scale_all(
    alloc: Global,
    mesh: &mut Mesh,
    bindings: &Bindings,
    verts: &Expr,
    about: Point,
    num: i64,
    den: i64,
) -> Result<Slots, Fault>
    requires { IsReady mesh.old }
    ensures { Meets (over (resolved (now mesh.old) bindings.now.bound want.Verts verts.now)
        (λ x. scale_row x.verts about num den (now mesh.old))) mesh.old mesh.new result }
{
    match resolve(alloc, verts, Want::Verts, mesh, bindings) {
        Ok(verts) => scale(
            alloc,
            mesh,
            &ScaleArgs {
                verts,
                about,
                num,
                den,
            },
        ),
        Err(fault) => Err(fault),
    }
}

// Mirrors vertices.
pub fn mirror_all(
    alloc: Global,
    mesh: &mut Mesh,
    bindings: &Bindings,
    verts: &Expr,
    axis: Axis,
    about: i64,
) -> Result<Slots, Fault>
    requires { IsReady mesh.old }
    ensures { Meets (over (resolved (now mesh.old) bindings.now.bound want.Verts verts.now)
        (λ x. mirror_row x.verts axis about (now mesh.old))) mesh.old mesh.new result }
{
    match resolve(alloc, verts, Want::Verts, mesh, bindings) {
        Ok(verts) => mirror(alloc, mesh, &MirrorArgs { verts, axis, about }),
        Err(fault) => Err(fault),
    }
}

// Turns faces over.
pub fn reverse_all(
    alloc: Global,
    mesh: &mut Mesh,
    bindings: &Bindings,
    faces: &Expr,
) -> Result<Slots, Fault>
    requires { IsReady mesh.old }
    ensures { Meets (over (resolved (now mesh.old) bindings.now.bound want.Faces faces.now)
        (λ x. reverse_row x.faces (now mesh.old))) mesh.old mesh.new result }
{
    match resolve(alloc, faces, Want::Faces, mesh, bindings) {
        Ok(faces) => reverse(alloc, mesh, &ReverseArgs { faces }),
        Err(fault) => Err(fault),
    }
}

// Copies the closure of elements.
pub fn duplicate_all(
    alloc: Global,
    mesh: &mut Mesh,
    bindings: &Bindings,
    geom: &Expr,
) -> Result<Slots, Fault>
    requires { IsReady mesh.old }
    ensures { Meets (over (resolved (now mesh.old) bindings.now.bound want.Any geom.now)
        (λ x. duplicate_row x (now mesh.old))) mesh.old mesh.new result }
{
    match resolve(alloc, geom, Want::Any, mesh, bindings) {
        Ok(geom) => duplicate(alloc, mesh, &DuplicateArgs { geom }),
        Err(fault) => Err(fault),
    }
}

// Splits the closure of elements off.
pub fn split_all(
    alloc: Global,
    mesh: &mut Mesh,
    bindings: &Bindings,
    geom: &Expr,
) -> Result<Slots, Fault>
    requires { IsReady mesh.old }
    ensures { Meets (over (resolved (now mesh.old) bindings.now.bound want.Any geom.now)
        (λ x. split_row x (now mesh.old))) mesh.old mesh.new result }
{
    match resolve(alloc, geom, Want::Any, mesh, bindings) {
        Ok(geom) => split(alloc, mesh, &SplitArgs { geom }),
        Err(fault) => Err(fault),
    }
}

// Deletes elements.
pub fn delete_all(
    alloc: Global,
    mesh: &mut Mesh,
    bindings: &Bindings,
    geom: &Expr,
    context: Context,
) -> Result<Slots, Fault>
    requires { IsReady mesh.old }
    ensures { Meets (over (resolved (now mesh.old) bindings.now.bound (kind_wanted context) geom.now)
        (λ x. delete_row context x (now mesh.old))) mesh.old mesh.new result }
{
    match resolve(alloc, geom, kind_wanted(context), mesh, bindings) {
        Ok(geom) => delete(alloc, mesh, &DeleteArgs { geom, context }),
        Err(fault) => Err(fault),
    }
}

// The kind that a context deletes.
fn kind_wanted(context: Context) -> Want
    ensures { result ≡ kind_wanted context }
{
    match context {
        Context::Verts => Want::Verts,
        Context::Edges => Want::Edges,
        Context::EdgesFaces => Want::Edges,
        Context::FacesOnly => Want::Faces,
        Context::Faces => Want::Faces,
        Context::FacesKeepBoundary => Want::Faces,
    }
}
