//! A mesh read as a shape.
ghost use Rattle.mesh_core.specs.Seen.{now};

use crate::mesh::Mesh;
use mesh_model::{Counters, EdgeName, Elem, FaceName, Kind, Point, Rule, Shape, VertName};
use mesh_records::{
    corner_at, corners_into, loop_at, part_of, point_of, rows_into, slot_of_edge, slot_of_face,
    slot_of_vert, value_at,
};
use mesh_store::Part;

/// The least name from a number on takes a step for each 64 names between; `corner` and `corner_value` walk to their
/// position; `corners` and `corner_rows` take one walk round the face; a value takes time that grows with its row. All
/// else takes constant time, and no call takes memory.
impl Shape for Mesh {
    ghost complex = { λ m. now m };

    fn vert_from(&self, least: u32) -> Option<VertName> {
        match self.store.vert_from(least) {
            None => None,
            Some(s) => Some(VertName(self.store.vert_number(s))),
        }
    }

    fn edge_from(&self, least: u32) -> Option<EdgeName> {
        match self.store.edge_from(least) {
            None => None,
            Some(s) => Some(EdgeName(self.store.edge_number(s))),
        }
    }

    fn face_from(&self, least: u32) -> Option<FaceName> {
        match self.store.face_from(least) {
            None => None,
            Some(s) => Some(FaceName(self.store.face_number(s))),
        }
    }

    fn has(&self, x: Elem) -> bool {
        match x {
            Elem::Vert(v) => self.store.vert_slot(v.0).is_some(),
            Elem::Edge(e) => self.store.edge_slot(e.0).is_some(),
            Elem::Face(f) => self.store.face_slot(f.0).is_some(),
        }
    }

    fn counters(&self) -> Counters {
        self.next
    }

    fn width(&self, kind: Kind) -> usize {
        self.store.total(part_of(kind))
    }

    fn point(&self, v: VertName) -> Point {
        let vert = slot_of_vert(&self.store, v.0);
        point_of(self.store.point(vert))
    }

    fn ends(&self, e: EdgeName) -> [VertName; 2] {
        let edge = slot_of_edge(&self.store, e.0);
        let [a, b] = self.store.ends(edge);
        [
            VertName(self.store.vert_number(a)),
            VertName(self.store.vert_number(b)),
        ]
    }

    fn is_loose(&self, e: EdgeName) -> bool {
        self.face_along(e).is_none()
    }

    fn corner_count(&self, f: FaceName) -> u32 {
        let face = slot_of_face(&self.store, f.0);
        self.store.face_len(face)
    }

    fn corner(&self, f: FaceName, i: u32) -> (VertName, EdgeName) {
        let face = slot_of_face(&self.store, f.0);
        corner_at(&self.store, loop_at(&self.store, face, i))
    }

    fn corners(&self, f: FaceName, into: &mut [(VertName, EdgeName)]) {
        let face = slot_of_face(&self.store, f.0);
        corners_into(&self.store, face, into);
    }

    fn corner_rows(&self, f: FaceName, into: &mut [i64]) {
        let face = slot_of_face(&self.store, f.0);
        rows_into(&self.store, face, into);
    }

    fn vert_value(&self, v: VertName, k: usize) -> i64 {
        let vert = slot_of_vert(&self.store, v.0);
        value_at(&self.store, Part::Vert, vert, k)
    }

    fn edge_value(&self, e: EdgeName, k: usize) -> i64 {
        let edge = slot_of_edge(&self.store, e.0);
        value_at(&self.store, Part::Edge, edge, k)
    }

    fn corner_value(&self, f: FaceName, i: u32, k: usize) -> i64 {
        let face = slot_of_face(&self.store, f.0);
        let corner = loop_at(&self.store, face, i);
        value_at(&self.store, Part::Loop, corner, k)
    }

    fn face_value(&self, f: FaceName, k: usize) -> i64 {
        let face = slot_of_face(&self.store, f.0);
        value_at(&self.store, Part::Face, face, k)
    }

    fn material(&self, k: usize) -> Option<&[u8]> {
        if k < self.materials.len() {
            Some(self.materials.get(k).as_slice())
        } else {
            None
        }
    }

    fn library(&self, k: usize) -> Option<&[u8]> {
        if k < self.libraries.len() {
            Some(self.libraries.get(k).as_slice())
        } else {
            None
        }
    }

    fn layers(&self, kind: Kind) -> usize {
        self.store.layers(part_of(kind))
    }

    fn layer_name(&self, kind: Kind, k: usize) -> &[u8] {
        self.store.layer_name(part_of(kind), k)
    }

    fn layer_width(&self, kind: Kind, k: usize) -> u8 {
        self.store.layer_width(part_of(kind), k)
    }

    fn layer_rule(&self, kind: Kind, k: usize) -> Rule {
        self.store.layer_rule(part_of(kind), k)
    }
}
