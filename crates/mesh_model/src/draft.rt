ghost use Rattle.std.specs.Prelude.{◌≡◌, ◌≢◌, ◌+◌, ◌<◌, ◌≤◌, ◌++◌, ◌∷◌, [], pos, IsTrue, length, map};
ghost use Rattle.std.specs.Prelude.{IfOk, OnOk, OnErr};
ghost use Rattle.std.specs.List.{All, list_all};
ghost use Rattle.mesh_model.specs.Table.{IsThere};
ghost use Rattle.mesh_model.specs.Complex.{no_complex, new_model, corner_sum};
ghost use Rattle.mesh_model.specs.Incidence.{edge_joining};
ghost use Rattle.mesh_model.specs.Making.{with_vert, vert_at_point, edge_between, with_face_told};
ghost use Rattle.mesh_model.specs.Valid.{is_on_grid, is_in_range, is_material, is_smooth, are_distinct, IsLinked};
ghost use Rattle.mesh_model.specs.Valid.{IsValid, IsSimple};
ghost use Rattle.mesh_model.specs.Draft.{due_model, with_name};

use crate::draft_names::{name_number, push_name};
use crate::draft_polygons::{edge_in, polygon_in};
use crate::draft_rows::{face_row, zero_row};
use crate::edge_columns::EdgeColumns;
use crate::edge_index::EdgeIndex;
use crate::face_columns::FaceColumns;
use crate::layer_rows::{Due, LayerRows};
use crate::limits::{MAX_CORNERS, MAX_EDGES, MAX_FACES, MAX_SIDES, MAX_VERTS, MIN_SIDES};
use crate::names::{EdgeName, FaceName, VertName};
use crate::records::Point;
use crate::vert_columns::VertColumns;
use sequence::{NoMemory, Sequence, Text};
use std::alloc::Global;
use std::marker::Model;

/// What `add_face` is told of a corner: its vertex, and where it lies in the texture, in millionths.
#[derive(Clone, Copy, Debug, PartialEq, Eq)]
pub struct DraftCorner {
    pub vert: VertName,
    pub uv: [i64; 2],
}

/// A complex in flat columns: one for each field of the records, and the corners of all faces one behind another.
///
/// What its records name is there. Whether it is valid and simple is said by each call. After `NoMemory` it is as
/// before.
#[derive(Drop)]
pub struct Draft {
    pub(crate) alloc: Global,
    pub(crate) verts: VertColumns,
    pub(crate) edges: EdgeColumns,
    pub(crate) faces: FaceColumns,
    pub(crate) materials: Sequence<Text>,
    pub(crate) libraries: Sequence<Text>,
    /// The least edge between two vertices.
    pub(crate) index: EdgeIndex,
}

impl Model for Draft {
    ghost use Rattle.mesh_model.specs.Complex.{Complex};
    ghost use Rattle.mesh_model.specs.Draft.{complex_of, IsDraft};

    ghost Value = { Complex };

    ghost view = { λ d. complex_of d.verts d.edges d.faces d.materials d.libraries };

    ghost invariant = { λ d. IsDraft (complex_of d.verts d.edges d.faces d.materials d.libraries) d.edges.used
        d.faces.open d.index };
}

impl Draft {
    /// No element, and the layers that every model has from its beginning: `uv` of corners, of two numbers that are
    /// mixed, and `material` and `smooth` of faces, of one number each that is copied. Takes no memory.
    pub fn new(alloc: Global) -> Draft
        ensures empty { result ≡ new_model }
        ensures valid { IsValid result }
        ensures simple { IsSimple result }
    {
        Draft::of_layers(alloc, Due::CornerLayers, Due::FaceLayers)
    }

    /// No element and no layer. Takes no memory.
    pub fn bare(alloc: Global) -> Draft
        ensures empty { result ≡ no_complex }
        ensures valid { IsValid result }
        ensures simple { IsSimple result }
    {
        Draft::of_layers(alloc, Due::Nothing, Due::Nothing)
    }

    // No element, and these layers of corners and of faces.
    fn of_layers(alloc: Global, corner_layers: Due, face_layers: Due) -> Draft
        ensures empty { result ≡ due_model corner_layers face_layers }
        ensures valid { IsValid result }
        ensures simple { IsSimple result }
    {
        Draft {
            alloc,
            verts: VertColumns::new(alloc, LayerRows::new(alloc, Due::Nothing)),
            edges: EdgeColumns::new(alloc, LayerRows::new(alloc, Due::Nothing)),
            faces: FaceColumns::new(
                alloc,
                LayerRows::new(alloc, corner_layers),
                LayerRows::new(alloc, face_layers),
            ),
            materials: Sequence::new(alloc),
            libraries: Sequence::new(alloc),
            index: EdgeIndex::new(alloc),
        }
    }

    /// Adds a vertex with the next name, whose values are 0, in constant time as a rule.
    pub fn add_vert(&mut self, p: Point) -> Result<VertName, NoMemory>
        requires room { length self.old.verts < MAX_VERTS }
        requires on_grid { IsTrue (is_on_grid p) }
        ensures name { IfOk result (λ v. v.0 ≡ length self.old.verts) }
        ensures ok { OnOk result (self.new ≡ with_vert self.old (vert_at_point self.old p)) }
        ensures err { OnErr result (self.new ≡ self.old) }
        ensures valid { IsValid self.old → IsValid self.new }
        ensures simple { IsSimple self.old → IsSimple self.new }
    {
        self.verts.reserve(1)?;
        let name = self.verts.len();
        let row = zero_row(self.verts.values());
        self.verts.push(p, row.as_slice());
        Ok(VertName(name))
    }

    /// The least-named edge that joins two vertices, made with ends `a` and `b` and values 0 if there is none, in
    /// constant time as a rule.
    pub fn edge_between(&mut self, a: VertName, b: VertName) -> Result<EdgeName, NoMemory>
        requires room { length (edge_between self.old a b).0.edges ≤ MAX_EDGES }
        requires a { IsThere self.old.verts a.0 }
        requires b { IsThere self.old.verts b.0 }
        requires differ { a.0 ≢ b.0 }
        ensures name { IfOk result (λ e. e ≡ (edge_between self.old a b).1) }
        ensures ok { OnOk result (self.new ≡ (edge_between self.old a b).0) }
        ensures err { OnErr result (self.new ≡ self.old) }
        ensures valid { IsValid self.old → IsValid self.new }
        ensures simple { IsSimple self.old → IsSimple self.new }
    {
        self.edges.reserve(1)?;
        self.index.catch_up(&self.edges, 1)?;
        let name = edge_in(&mut self.edges, &mut self.index, a, b);
        Ok(name)
    }

    /// The least-named edge that joins two vertices, or `None` exactly where none does, in constant time as a rule. The
    /// first search in a copy takes time in proportion to its edges.
    pub fn find_edge(&mut self, a: VertName, b: VertName) -> Result<Option<EdgeName>, NoMemory>
        ensures found { IfOk result (λ e. e ≡ edge_joining self.old.edges a b) }
        ensures same { self.new ≡ self.old }
    {
        self.index.catch_up(&self.edges, 0)?;
        let found = self.index.find(&self.edges, a, b);
        Ok(found)
    }

    /// Adds the face on a polygon of vertices, of a material, counted from 1, and a smoothing group, 0 being none. Each
    /// side takes the edge that `edge_between` gives, and the missing ones are made in order. Values that aren't told
    /// are 0, and what is told of a layer that isn't there is dropped. Takes time in proportion to the corners, as a
    /// rule.
    pub fn add_face(
        &mut self,
        corners: &[DraftCorner],
        material: i64,
        smooth: i64,
    ) -> Result<FaceName, NoMemory>
        requires faces { length self.old.faces < MAX_FACES }
        requires edges { length (with_face_told self.old corners.now material smooth).edges ≤ MAX_EDGES }
        requires corners { corner_sum self.old.faces + length corners.now ≤ MAX_CORNERS }
        requires least { MIN_SIDES ≤ length corners.now }
        requires most { length corners.now ≤ MAX_SIDES }
        requires distinct { IsTrue (are_distinct (map (λ k. k.vert) corners.now)) }
        requires there { All (λ k. IsThere self.old.verts k.vert.0) corners.now }
        requires uv { All (λ k. IsTrue (list_all is_in_range k.uv)) corners.now }
        requires material { IsTrue (is_material self.old material) }
        requires material_in_range { IsTrue (is_in_range material) }
        requires smooth { IsTrue (is_smooth smooth) }
        requires smooth_in_range { IsTrue (is_in_range smooth) }
        ensures name { IfOk result (λ f. f.0 ≡ length self.old.faces) }
        ensures ok { OnOk result (self.new ≡ with_face_told self.old corners.now material smooth) }
        ensures err { OnErr result (self.new ≡ self.old) }
        ensures valid { IsValid self.old → IsValid self.new }
        ensures simple { IsSimple self.old → IsSimple self.new }
    {
        let sides = corners.len() as u32;
        self.edges.reserve(sides)?;
        self.index.catch_up(&self.edges, sides)?;
        self.faces.reserve_corners(sides)?;
        self.faces.reserve(1)?;
        let name = self.faces.len();
        polygon_in(&mut self.edges, &mut self.index, &mut self.faces, corners);
        let row = face_row(self.faces.values(), material, smooth);
        self.faces.close(row.as_slice());
        Ok(FaceName(name))
    }

    /// The position of a name among the materials, counted from 1, appended if it is new.
    pub fn material_number(&mut self, name: &[u8]) -> Result<i64, NoMemory>
        ensures number { IfOk result (λ n. n ≡ pos ((with_name self.old.materials name.now).1 + 1)) }
        ensures ok { OnOk result (self.new
            ≡ record self.old { materials = (with_name self.old.materials name.now).0 }) }
        ensures err { OnErr result (self.new ≡ self.old) }
        ensures valid { IsValid self.old → IsValid self.new }
        ensures simple { IsSimple self.old → IsSimple self.new }
    {
        let number = name_number(self.alloc, &mut self.materials, name)?;
        Ok(number as i64 + 1)
    }

    /// Appends a material, and answers its number, counted from 1. It doesn't look whether the name is there already, as
    /// `material_number` does, and so takes time that grows with the name alone: it is for callers who keep an index of
    /// the names.
    pub fn push_material(&mut self, name: &[u8]) -> Result<i64, NoMemory>
        ensures number { IfOk result (λ n. n ≡ pos (length self.old.materials + 1)) }
        ensures ok { OnOk result (self.new
            ≡ record self.old { materials = self.old.materials ++ name.now ∷ [] }) }
        ensures err { OnErr result (self.new ≡ self.old) }
        ensures valid { IsValid self.old → IsValid self.new }
        ensures simple { IsSimple self.old → IsSimple self.new }
    {
        let place = push_name(self.alloc, &mut self.materials, name)?;
        Ok(place as i64 + 1)
    }

    /// Appends a library of materials if it is new.
    pub fn add_library(&mut self, name: &[u8]) -> Result<(), NoMemory>
        ensures ok { OnOk result (self.new
            ≡ record self.old { libraries = (with_name self.old.libraries name.now).0 }) }
        ensures err { OnErr result (self.new ≡ self.old) }
        ensures valid { IsValid self.old → IsValid self.new }
        ensures simple { IsSimple self.old → IsSimple self.new }
    {
        name_number(self.alloc, &mut self.libraries, name)?;
        Ok(())
    }

    /// Appends a library of materials. It doesn't look whether the name is there already, as `add_library` does, and so
    /// takes time that grows with the name alone: it is for callers who keep an index of the names.
    pub fn push_library(&mut self, name: &[u8]) -> Result<(), NoMemory>
        ensures ok { OnOk result (self.new
            ≡ record self.old { libraries = self.old.libraries ++ name.now ∷ [] }) }
        ensures err { OnErr result (self.new ≡ self.old) }
        ensures valid { IsValid self.old → IsValid self.new }
        ensures simple { IsSimple self.old → IsSimple self.new }
    {
        push_name(self.alloc, &mut self.libraries, name)?;
        Ok(())
    }
}
