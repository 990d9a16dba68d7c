//! The names of copies.
ghost use Rattle.std.specs.Prelude.{◌≡◌, ◌≤◌, length, IsTrue};
ghost use Rattle.mesh_model.specs.Naming.{is_rising, rank, vert_numbers, edge_numbers};
ghost use Rattle.mesh_copies.specs.CopyingSteps.{vert_after, edge_after, HasNames};

use mesh_model::{Counters, EdgeName, VertName};
use op_slots::Buffer;

/// The name of the copy of a vertex of a set, by the next names before the copies are made. It takes time that grows with
/// the logarithm of the set.
pub(crate) fn vert_after(set: &Buffer, next: Counters, v: VertName) -> VertName
    requires { HasNames next set.now }
    ensures { result ≡ vert_after next set.now v }
{
    VertName(next.verts + rank_of_vert(set.verts(), v) as u32)
}

/// The name of the copy of an edge of a set, likewise.
pub(crate) fn edge_after(set: &Buffer, next: Counters, e: EdgeName) -> EdgeName
    requires { HasNames next set.now }
    ensures { result ≡ edge_after next set.now e }
{
    EdgeName(next.edges + rank_of_edge(set.edges(), e) as u32)
}

// How many vertices have a lesser name.
fn rank_of_vert(verts: &[VertName], v: VertName) -> usize
    requires { IsTrue (is_rising (vert_numbers verts.now)) }
    ensures rank { result ≡ rank (vert_numbers verts.now) v.0 }
    ensures few { result ≤ length verts.now }
{
    verts.partition_point(|w| w.0 < v.0)
}

// How many edges have a lesser name.
fn rank_of_edge(edges: &[EdgeName], e: EdgeName) -> usize
    requires { IsTrue (is_rising (edge_numbers edges.now)) }
    ensures rank { result ≡ rank (edge_numbers edges.now) e.0 }
    ensures few { result ≤ length edges.now }
{
    edges.partition_point(|d| d.0 < e.0)
}
