//! Lists of names.
ghost use Rattle.std.specs.Prelude.{◌≡◌, ◌==◌, ℕ, map, IsTrue, IfOk};
ghost use Rattle.std.specs.List.{list_any};
ghost use Rattle.mesh_model.specs.Naming.{is_rising, vert_numbers, edge_numbers, face_numbers};

use mesh_core::{EdgeName, FaceName, NoMemory, VertName};
use std::alloc::Global;

/// Numbers by rising order, each once, in time k log k for k numbers. Takes no memory.
pub fn risen(numbers: Vec<u32>) -> Vec<u32>
    ensures rising { IsTrue (is_rising result.items) }
    ensures members { (n : ℕ) → list_any (λ m. m == n) result.items ≡ list_any (λ m. m == n) numbers.items }
{
    let mut numbers = numbers;
    numbers.sort_unstable();
    numbers.dedup();
    numbers
}

/// The numbers of some vertices, in order.
pub fn numbers_of_verts(alloc: Global, verts: &[VertName]) -> Result<Vec<u32>, NoMemory>
    ensures { IfOk result (λ ns. ns.items ≡ vert_numbers verts.now) }
{
    verts.iter().map(|v| v.0).collect(alloc)
}

/// The numbers of some edges, in order.
pub(crate) fn numbers_of_edges(alloc: Global, edges: &[EdgeName]) -> Result<Vec<u32>, NoMemory>
    ensures { IfOk result (λ ns. ns.items ≡ edge_numbers edges.now) }
{
    edges.iter().map(|e| e.0).collect(alloc)
}

/// The numbers of some faces, in order.
pub(crate) fn numbers_of_faces(alloc: Global, faces: &[FaceName]) -> Result<Vec<u32>, NoMemory>
    ensures { IfOk result (λ ns. ns.items ≡ face_numbers faces.now) }
{
    faces.iter().map(|f| f.0).collect(alloc)
}

fn vert_named(n: u32) -> VertName
    ensures { result ≡ record { 0 = n } }
{
    VertName(n)
}

/// The vertices of some numbers, in order.
pub(crate) fn verts_named(alloc: Global, numbers: &[u32]) -> Result<Vec<VertName>, NoMemory>
    ensures { IfOk result (λ vs. vs.items ≡ map (λ n. record { 0 = n }) numbers.now) }
{
    numbers.iter().map(|n| vert_named(*n)).collect(alloc)
}

fn edge_named(n: u32) -> EdgeName
    ensures { result ≡ record { 0 = n } }
{
    EdgeName(n)
}

/// The edges of some numbers, in order.
pub fn edges_named(alloc: Global, numbers: &[u32]) -> Result<Vec<EdgeName>, NoMemory>
    ensures { IfOk result (λ es. es.items ≡ map (λ n. record { 0 = n }) numbers.now) }
{
    numbers.iter().map(|n| edge_named(*n)).collect(alloc)
}

fn face_named(n: u32) -> FaceName
    ensures { result ≡ record { 0 = n } }
{
    FaceName(n)
}

/// The faces of some numbers, in order.
pub(crate) fn faces_named(alloc: Global, numbers: &[u32]) -> Result<Vec<FaceName>, NoMemory>
    ensures { IfOk result (λ fs. fs.items ≡ map (λ n. record { 0 = n }) numbers.now) }
{
    numbers.iter().map(|n| face_named(*n)).collect(alloc)
}
