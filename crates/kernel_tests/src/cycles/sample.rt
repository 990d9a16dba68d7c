//! Stores whose cycles hold: elements come, and get into their cycles.
ghost use Rattle.std.specs.Prelude.{◌≡◌, ◌≢◌, ◌≤◌, ℕ, Some, IfOk};
ghost use Rattle.raw_pool.specs.Slots.{IsLive};
ghost use Rattle.mesh_cycles.specs.Owners.{dart_end, face_of};
ghost use Rattle.mesh_cycles.specs.Cycles.{AreCycles, AreWhole, AreWholeBut, IsInNoDisk, IsInNoRound};
ghost use Rattle.kernel_tests.specs.Sound.{IsSound};

use crate::confirm::confirm;
use crate::named;
use mesh_cycles::{disk_add, first_round, loop_append, loop_make, radial_add};
use mesh_store::{Dart, NoMemory, Part, Slot, Store};
use std::alloc::Global;
use std::process::Abort;

/// An empty store with room for so many elements of each kind, and for names below that number.
pub(super) fn empty(alloc: Global, count: u32) -> Result<Store, NoMemory>
    requires { count ≤ 1_000_000 }
    ensures { IfOk result (λ st. IsSound st × AreWhole st) }
{
    let mut st = Store::new(alloc);
    let each = count as usize;
    st.reserve(each, each, each, each, [count, count, count])?;
    Ok(st)
}

/// Adds a vertex.
pub(super) fn add_vert(rt: &impl Abort, st: &mut Store, name: u32) -> Slot
    requires { IsSound st.old }
    ensures sound { IsSound st.new }
    ensures whole { AreWhole st.old → AreWhole st.new }
{
    confirm(rt, "a place for a vertex", st.spare(Part::Vert) > 0);
    confirm(rt, "a place for its name", name < st.reach()[0]);
    confirm(rt, "a new name", st.vert_slot(name).is_none());
    st.add_vert(name, [0, 0, 0])
}

/// Adds vertices of the names below a number.
pub(super) fn add_verts(rt: &impl Abort, st: &mut Store, count: u32)
    requires { IsSound st.old }
    ensures { IsSound st.new }
{
    for name in 0..count {
        add_vert(rt, st, name);
    }
}

// The ends differ.
fn two_ends(rt: &impl Abort, from: Slot, to: Slot)
    ensures { from.0 ≢ to.0 }
{
    confirm(rt, "two ends", from.0 != to.0);
}

/// Adds an edge, and puts it last around both of its ends.
pub(super) fn join(rt: &impl Abort, st: &mut Store, name: u32, a: u32, b: u32) -> Slot
    requires { IsSound st.old }
    ensures sound { IsSound st.new }
    ensures whole { AreWhole st.old → AreWhole st.new }
{
    confirm(rt, "a place for an edge", st.spare(Part::Edge) > 0);
    confirm(rt, "a place for its name", name < st.reach()[1]);
    confirm(rt, "a new name", st.edge_slot(name).is_none());
    let from = named::vert(rt, st, a);
    let to = named::vert(rt, st, b);
    two_ends(rt, from, to);
    let edge = st.add_edge(name, [from, to]);
    put_darts(st, edge, from, to);
    edge
}

// Puts both darts of an edge last around its ends.
fn put_darts(st: &mut Store, edge: Slot, from: Slot, to: Slot)
    requires cycles { AreCycles st.old }
    requires from { IsLive st.old.verts.cells from.0 }
    requires to { IsLive st.old.verts.cells to.0 }
    requires start { dart_end st.old (record { edge = edge; side = 0 }) ≡ Some from.0 }
    requires end { dart_end st.old (record { edge = edge; side = 1 }) ≡ Some to.0 }
    requires apart { (side : ℕ) → IsInNoDisk st.old (record { edge = edge; side = side }) }
    ensures sound { IsSound st.old → IsSound st.new }
    ensures whole { AreWholeBut edge.0 st.old → AreWhole st.new }
{
    disk_add(st, from, Dart { edge, side: 0 });
    disk_add(st, to, Dart { edge, side: 1 });
}

/// Adds a face with no corner.
pub(super) fn add_face(rt: &impl Abort, st: &mut Store, name: u32) -> Slot
    requires { IsSound st.old }
    ensures { IsSound st.new }
{
    confirm(rt, "a place for a face", st.spare(Part::Face) > 0);
    confirm(rt, "a place for its name", name < st.reach()[2]);
    confirm(rt, "a new name", st.face_slot(name).is_none());
    st.add_face(name)
}

/// Adds faces of the names below a number.
pub(super) fn add_faces(rt: &impl Abort, st: &mut Store, count: u32)
    requires { IsSound st.old }
    ensures { IsSound st.new }
{
    for name in 0..count {
        add_face(rt, st, name);
    }
}

/// Adds a loop, and puts it last along its edge. Its face's own cycle doesn't get it.
pub(super) fn put_loop(rt: &impl Abort, st: &mut Store, vert: Slot, edge: Slot, face: Slot) -> Slot
    requires sound { IsSound st.old }
    requires edge { IsLive st.old.edges.cells edge.0 }
    requires live { IsLive st.old.faces.cells face.0 }
    ensures sound { IsSound st.new }
    ensures live { IsLive st.new.faces.cells face.0 }
    ensures face { face_of st.new result ≡ Some face.0 }
    ensures apart { IsInNoRound st.new result }
{
    confirm(rt, "a place for a loop", st.spare(Part::Loop) > 0);
    let l = st.add_loop(vert, edge, face);
    radial_add(st, edge, l);
    l
}

/// The same by name.
pub(super) fn add_loop(rt: &impl Abort, st: &mut Store, vert: u32, edge: u32, face: u32) -> Slot
    requires { IsSound st.old }
    ensures { IsSound st.new }
{
    let vert = named::vert(rt, st, vert);
    let edge = named::edge(rt, st, edge);
    let face = named::face(rt, st, face);
    put_loop(rt, st, vert, edge, face)
}

/// Adds a loop, and puts it last along its edge and last around its face.
pub(super) fn add_corner(rt: &impl Abort, st: &mut Store, vert: u32, edge: u32, face: u32) -> Slot
    requires { IsSound st.old }
    ensures { IsSound st.new }
{
    let vert = named::vert(rt, st, vert);
    let edge = named::edge(rt, st, edge);
    let face = named::face(rt, st, face);
    let l = put_loop(rt, st, vert, edge, face);
    put_corner(st, face, l);
    l
}

/// Puts a loop last around its face.
pub(super) fn put_corner(st: &mut Store, face: Slot, l: Slot)
    requires sound { IsSound st.old }
    requires live { IsLive st.old.faces.cells face.0 }
    requires face { face_of st.old l ≡ Some face.0 }
    requires apart { IsInNoRound st.old l }
    ensures { IsSound st.new }
{
    if first_round(st, face).is_none() {
        loop_make(st, face, l);
    } else {
        loop_append(st, face, l);
    }
}
