//! A draft whose names of materials and libraries are found by an index.

ghost use Rattle.std.specs.Prelude.{◌≡◌, ◌≢◌, ◌+◌, ◌<◌, ◌≤◌, ◌↔◌, ◌++◌, ◌∷◌, [], ℤ, List, pos, IsTrue, length, map};
ghost use Rattle.std.specs.Prelude.{IfOk, OnOk, None};
ghost use Rattle.std.specs.List.{All, list_all, position};
ghost use Rattle.std.specs.HashSet.{spare};
ghost use Rattle.cust_data.specs.Layers.{same_name};
ghost use Rattle.mesh_model.specs.Table.{IsThere};
ghost use Rattle.mesh_model.specs.Complex.{new_model, corner_sum, counters_of};
ghost use Rattle.mesh_model.specs.Draft.{with_name};
ghost use Rattle.mesh_model.specs.Incidence.{edge_joining};
ghost use Rattle.mesh_model.specs.Making.{with_vert, vert_at_point, edge_between, with_face_told};
ghost use Rattle.mesh_model.specs.Room.{has_room};
ghost use Rattle.mesh_model.specs.Valid.{is_on_grid, is_in_range, is_material, is_smooth, are_distinct, IsValid, IsSimple};
ghost use Rattle.mesh_model.specs.declared.limits.TheConstants.{MAX_VERTS, MAX_EDGES, MAX_FACES, MAX_CORNERS};
ghost use Rattle.mesh_model.specs.declared.limits.TheConstants.{MIN_SIDES, MAX_SIDES};
ghost use Rattle.mesh_model.specs.declared.draft.DraftCorner.{DraftCorner};
ghost use Rattle.mesh_model.specs.declared.names.VertName.{VertName};
ghost use Rattle.obj_reader.specs.NameIndex.{names_in};

use indexmap::IndexSet;
use mesh_model::{
    Counters, Draft, DraftCorner, EdgeName, FaceName, NoMemory, Point, Shape, VertName,
};
use std::alloc::Global;
use std::marker::Model;

// More names than memory can hold.
const MOST: usize = 1 << 62;

/// A draft, with an index of the names of its materials and one of those of its libraries. Each call does what the
/// draft's does; a name is found in time that grows with its length alone, as a rule.
#[derive(Drop)]
pub struct NamedDraft {
    alloc: Global,
    draft: Draft,
    materials: IndexSet<Vec<u8>>,
    libraries: IndexSet<Vec<u8>>,
}

impl Model for NamedDraft {
    ghost use Rattle.mesh_model.specs.Complex.{Complex};
    ghost use Rattle.obj_reader.specs.NameIndex.{AreIndexed};

    ghost Value = { Complex };

    ghost view = { λ d. d.draft };

    ghost invariant = { λ d. AreIndexed d.draft d.materials.keys d.libraries.keys };
}

impl NamedDraft {
    /// No element, and the layers that every model has from its beginning. Takes no memory.
    pub fn new(alloc: Global) -> NamedDraft
        ensures empty { result ≡ new_model }
        ensures valid { IsValid result }
        ensures simple { IsSimple result }
    {
        NamedDraft {
            alloc,
            draft: Draft::new(alloc),
            materials: IndexSet::new(alloc),
            libraries: IndexSet::new(alloc),
        }
    }

    /// The draft alone.
    pub fn into_draft(self) -> Draft
        ensures { result ≡ self }
    {
        let NamedDraft { draft, .. } = self;
        draft
    }

    /// The next names, and the number of live corners.
    pub fn counters(&self) -> Counters
        ensures { result ≡ counters_of self.now }
    {
        self.draft.counters()
    }

    pub fn has_vert_room(&self) -> bool
        ensures { IsTrue result ↔ (length self.now.verts < MAX_VERTS) }
    {
        self.draft.has_vert_room()
    }

    pub fn has_edge_room(&self) -> bool
        ensures exact { IsTrue result ↔ (length self.now.edges < MAX_EDGES) }
        ensures edge { IsTrue result → (a b : VertName) → length (edge_between self.now a b).0.edges ≤ MAX_EDGES }
    {
        self.draft.has_edge_room()
    }

    pub fn has_room(&self, corners: usize) -> bool
        ensures same { result ≡ has_room self.now corners }
        ensures edges { IsTrue result → (ks : List DraftCorner) (material smooth : ℤ) → length ks ≤ corners
            → length (with_face_told self.now ks material smooth).edges ≤ MAX_EDGES }
    {
        self.draft.has_room(corners)
    }

    #[tactic(auto, using(crate::proofs::IndexedLemmas::indexed_vert, crate::proofs::IndexedLemmas::indexed_old))]
    pub fn add_vert(&mut self, p: Point) -> Result<VertName, NoMemory>
        requires room { length self.old.verts < MAX_VERTS }
        requires on_grid { IsTrue (is_on_grid p) }
        ensures ok { OnOk result (self.new ≡ with_vert self.old (vert_at_point self.old p)) }
        ensures valid { IsValid self.old → IsValid self.new }
        ensures simple { IsSimple self.old → IsSimple self.new }
    {
        let name = self.draft.add_vert(p)?;
        Ok(name)
    }

    #[tactic(auto, using(crate::proofs::IndexedLemmas::indexed_edge, crate::proofs::IndexedLemmas::indexed_old))]
    pub fn edge_between(&mut self, a: VertName, b: VertName) -> Result<EdgeName, NoMemory>
        requires room { length (edge_between self.old a b).0.edges ≤ MAX_EDGES }
        requires a { IsThere self.old.verts a.0 }
        requires b { IsThere self.old.verts b.0 }
        requires differ { a.0 ≢ b.0 }
        ensures ok { OnOk result (self.new ≡ (edge_between self.old a b).0) }
        ensures valid { IsValid self.old → IsValid self.new }
        ensures simple { IsSimple self.old → IsSimple self.new }
    {
        let name = self.draft.edge_between(a, b)?;
        Ok(name)
    }

    #[tactic(auto, using(crate::proofs::IndexedLemmas::indexed_old))]
    pub fn find_edge(&mut self, a: VertName, b: VertName) -> Result<Option<EdgeName>, NoMemory>
        ensures found { IfOk result (λ e. e ≡ edge_joining self.old.edges a b) }
        ensures same { self.new ≡ self.old }
    {
        self.draft.find_edge(a, b)
    }

    #[tactic(auto, using(crate::proofs::IndexedLemmas::indexed_face, crate::proofs::IndexedLemmas::indexed_old))]
    pub fn add_face(
        &mut self,
        corners: &[DraftCorner],
        material: i64,
        smooth: i64,
    ) -> Result<FaceName, NoMemory>
        requires faces { length self.old.faces < MAX_FACES }
        requires edges { length (with_face_told self.old corners.now material smooth).edges ≤ MAX_EDGES }
        requires corners { corner_sum self.old.faces + length corners.now ≤ MAX_CORNERS }
        requires least { MIN_SIDES ≤ length corners.now }
        requires most { length corners.now ≤ MAX_SIDES }
        requires distinct { IsTrue (are_distinct (map (λ k. k.vert) corners.now)) }
        requires there { All (λ k. IsThere self.old.verts k.vert.0) corners.now }
        requires uv { All (λ k. IsTrue (list_all is_in_range k.uv)) corners.now }
        requires material { IsTrue (is_material self.old material) }
        requires material_in_range { IsTrue (is_in_range material) }
        requires smooth { IsTrue (is_smooth smooth) }
        requires smooth_in_range { IsTrue (is_in_range smooth) }
        ensures ok { OnOk result (self.new ≡ with_face_told self.old corners.now material smooth) }
        ensures valid { IsValid self.old → IsValid self.new }
        ensures simple { IsSimple self.old → IsSimple self.new }
    {
        let name = self.draft.add_face(corners, material, smooth)?;
        Ok(name)
    }

    /// The position of a name among the materials, counted from 1, appended if it is new.
    pub fn material_number(&mut self, name: &[u8]) -> Result<i64, NoMemory>
        ensures number { IfOk result (λ n. n ≡ pos ((with_name self.old.materials name.now).1 + 1)) }
        ensures ok { OnOk result (self.new
            ≡ record self.old { materials = (with_name self.old.materials name.now).0 }) }
        ensures valid { IsValid self.old → IsValid self.new }
        ensures simple { IsSimple self.old → IsSimple self.new }
    {
        if let Some(place) = find_name(&self.materials, name) {
            return number_at(place);
        }
        let copy = ready_name(self.alloc, &mut self.materials, name)?;
        let number = self.draft.push_material(name)?;
        put_name(&mut self.materials, copy);
        Ok(number)
    }

    /// Appends a library of materials if it is new.
    pub fn add_library(&mut self, name: &[u8]) -> Result<(), NoMemory>
        ensures ok { OnOk result (self.new
            ≡ record self.old { libraries = (with_name self.old.libraries name.now).0 }) }
        ensures valid { IsValid self.old → IsValid self.new }
        ensures simple { IsSimple self.old → IsSimple self.new }
    {
        if find_name(&self.libraries, name).is_some() {
            return Ok(());
        }
        let copy = ready_name(self.alloc, &mut self.libraries, name)?;
        self.draft.push_library(name)?;
        put_name(&mut self.libraries, copy);
        Ok(())
    }
}

// The number of the material at a place.
fn number_at(place: usize) -> Result<i64, NoMemory>
    ensures { IfOk result (λ n. n ≡ pos (place + 1)) }
{
    if place >= MOST {
        return Err(NoMemory);
    }
    Ok(place as i64 + 1)
}

// The place of a name.
fn find_name(names: &IndexSet<Vec<u8>>, name: &[u8]) -> Option<usize>
    ensures { result ≡ position (same_name name.now) (names_in names.now.keys) }
{
    names.get_index_of(name)
}

// A name to be put into an index, with the room for it.
fn ready_name(
    alloc: Global,
    names: &mut IndexSet<Vec<u8>>,
    name: &[u8],
) -> Result<Vec<u8>, NoMemory>
    ensures keys { names.new.keys ≡ names.old.keys }
    ensures room { OnOk result (0 < spare names.new) }
    ensures copy { IfOk result (λ v. v.items ≡ name.now) }
{
    names.reserve(1)?;
    let copy = name.to_vec(alloc)?;
    Ok(copy)
}

// Puts a name that isn't there into an index, behind the others.
fn put_name(names: &mut IndexSet<Vec<u8>>, name: Vec<u8>)
    requires room { 0 < spare names.old }
    requires new { position (same_name name.items) (names_in names.old.keys) ≡ None }
    ensures { names_in names.new.keys ≡ names_in names.old.keys ++ name.items ∷ [] }
{
    match names.insert(name) {
        Ok(_) => {}
        Err(_) => {}
    }
}
