//! Notes of a shape, made where it has the widths of the past.

use mesh_model::{Draft, EdgeName, FaceName, NoMemory, VertName};
use mesh_trail::Past;

/// Notes a vertex.
pub(crate) fn note_vert(past: &mut Past, v: u32, now: &Draft) -> Result<(), NoMemory> {
    if !past.fits(now) {
        return Err(NoMemory);
    }
    past.note_vert(VertName(v), now)
}

/// Notes an edge.
pub(crate) fn note_edge(past: &mut Past, e: u32, now: &Draft) -> Result<(), NoMemory> {
    if !past.fits(now) {
        return Err(NoMemory);
    }
    past.note_edge(EdgeName(e), now)
}

/// Notes a face.
pub(crate) fn note_face(past: &mut Past, f: u32, now: &Draft) -> Result<(), NoMemory> {
    if !past.fits(now) {
        return Err(NoMemory);
    }
    past.note_face(FaceName(f), now)
}

/// Trims a past by a shape.
pub(crate) fn trim(past: &mut Past, now: &Draft) -> Result<(), NoMemory> {
    if !past.fits(now) {
        return Err(NoMemory);
    }
    past.trim(now);
    Ok(())
}
