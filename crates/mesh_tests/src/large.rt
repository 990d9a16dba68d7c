//! Many steps of one kind.

use crate::steps::{Make, Many, Step};
use crate::walking::Walked;
use mesh_core::Mesh;
use mesh_model::{EdgeName, Elem, FaceName, Point, VertName};
use std::alloc::Global;

/// Takes many steps.
pub(crate) fn take_many(walked: &mut Walked, mesh: &mut Mesh, alloc: Global, many: &Many) {
    match *many {
        Many::Spokes(count) => add_spokes(walked, mesh, alloc, count),
        Many::Edges(below) => kill_edges(walked, mesh, alloc, below),
        Many::Faces(below) => kill_faces(walked, mesh, alloc, below),
    }
}

fn add_spokes(walked: &mut Walked, mesh: &mut Mesh, alloc: Global, count: u32) {
    for n in 0..count {
        let far = VertName(n + 1);
        walked.take(
            mesh,
            alloc,
            &Step::Make(Make::Vert(far, Point { x: 1, y: 1, z: 0 })),
        );
        let ends = [VertName(0), far];
        walked.take(mesh, alloc, &Step::Make(Make::Edge(EdgeName(n), ends)));
    }
}

fn kill_edges(walked: &mut Walked, mesh: &mut Mesh, alloc: Global, below: u32) {
    for n in 0..below {
        walked.take(mesh, alloc, &Step::Kill(Elem::Edge(EdgeName(n))));
    }
}

fn kill_faces(walked: &mut Walked, mesh: &mut Mesh, alloc: Global, below: u32) {
    for n in 0..below {
        if n % 2 == 0 {
            walked.take(mesh, alloc, &Step::Kill(Elem::Face(FaceName(n))));
        }
    }
}
