//! Slots that operators give back, and their elements.
ghost use Rattle.std.specs.Prelude.{◌≡◌, IsTrue, IfOk};
ghost use Rattle.mesh_model.specs.Elements.{no_elements};
ghost use Rattle.mesh_model.specs.Naming.{is_rising, vert_numbers, edge_numbers, face_numbers};
ghost use Rattle.mesh_passes.specs.Row.{only, no_slots};

use mesh_core::{EdgeName, FaceName, NoMemory, VertName};
use op_slots::{Buffer, Mapping, Slots};
use sequence::Sequence;
use std::alloc::Global;

/// Slots with these elements and no pair. Takes no memory.
pub fn only(alloc: Global, geom: Buffer) -> Slots
    ensures { result ≡ only geom }
{
    Slots {
        geom,
        map: Mapping::new(alloc),
    }
}

/// Slots with no element and no pair. Takes no memory.
pub fn no_slots(alloc: Global) -> Slots
    ensures { result ≡ no_slots }
{
    only(alloc, Buffer::new(alloc))
}

/// Vertices of rising names, and nothing else, in time that grows with their number.
pub fn only_verts(alloc: Global, verts: &[VertName]) -> Result<Buffer, NoMemory>
    requires { IsTrue (is_rising (vert_numbers verts.now)) }
    ensures { IfOk result (λ x. x ≡ record no_elements { verts = verts.now }) }
{
    let verts = verts.to_vec(alloc)?;
    Ok(Buffer::of(
        Sequence::from(verts),
        Sequence::new(alloc),
        Sequence::new(alloc),
    ))
}

/// Edges of rising names, and nothing else, in time that grows with their number.
pub fn only_edges(alloc: Global, edges: &[EdgeName]) -> Result<Buffer, NoMemory>
    requires { IsTrue (is_rising (edge_numbers edges.now)) }
    ensures { IfOk result (λ x. x ≡ record no_elements { edges = edges.now }) }
{
    let edges = edges.to_vec(alloc)?;
    Ok(Buffer::of(
        Sequence::new(alloc),
        Sequence::from(edges),
        Sequence::new(alloc),
    ))
}

/// Faces of rising names, and nothing else, in time that grows with their number.
pub fn only_faces(alloc: Global, faces: &[FaceName]) -> Result<Buffer, NoMemory>
    requires { IsTrue (is_rising (face_numbers faces.now)) }
    ensures { IfOk result (λ x. x ≡ record no_elements { faces = faces.now }) }
{
    let faces = faces.to_vec(alloc)?;
    Ok(Buffer::of(
        Sequence::new(alloc),
        Sequence::new(alloc),
        Sequence::from(faces),
    ))
}
