//! A complex as it was, read as a shape.
use crate::former::Former;
use cust_data::Rule;
use mesh_model::{Counters, EdgeName, Elem, FaceName, Kind, Point, Shape, VertName};

/// `counters`, the least name from a number on and `is_loose` take time that grows with the names and corners that
/// they pass. A note is found in at most 33 steps; beside them each call takes as long as that of the past or of the
/// shape that is read. No call takes memory.
impl<'a, S: Shape> Shape for Former<'a, S> {
    ghost complex = { λ c. c };

    fn vert_from(&self, least: u32) -> Option<VertName> {
        for n in least..self.next_vert() {
            if self.has_vert(VertName(n)) {
                return Some(VertName(n));
            }
        }
        None
    }

    fn edge_from(&self, least: u32) -> Option<EdgeName> {
        for n in least..self.next_edge() {
            if self.has_edge(EdgeName(n)) {
                return Some(EdgeName(n));
            }
        }
        None
    }

    fn face_from(&self, least: u32) -> Option<FaceName> {
        for n in least..self.next_face() {
            if self.has_face(FaceName(n)) {
                return Some(FaceName(n));
            }
        }
        None
    }

    fn has(&self, x: Elem) -> bool {
        match x {
            Elem::Vert(v) => self.has_vert(v),
            Elem::Edge(e) => self.has_edge(e),
            Elem::Face(f) => self.has_face(f),
        }
    }

    fn counters(&self) -> Counters {
        let _ = &self.past;
        Counters {
            verts: self.next_vert(),
            edges: self.next_edge(),
            faces: self.next_face(),
            corners: self.corner_total(),
        }
    }

    fn width(&self, kind: Kind) -> usize {
        self.shape.width(kind)
    }

    fn point(&self, v: VertName) -> Point {
        if self.past.has(Elem::Vert(v)) {
            self.past.point(v)
        } else {
            self.shape.point(v)
        }
    }

    fn ends(&self, e: EdgeName) -> [VertName; 2] {
        if self.past.has(Elem::Edge(e)) {
            self.past.ends(e)
        } else {
            self.shape.ends(e)
        }
    }

    fn is_loose(&self, e: EdgeName) -> bool {
        for f in 0..self.next_face() {
            if self.has_along(FaceName(f), e) {
                return false;
            }
        }
        true
    }

    fn corner_count(&self, f: FaceName) -> u32 {
        if self.past.has(Elem::Face(f)) {
            self.past.corner_count(f)
        } else {
            self.shape.corner_count(f)
        }
    }

    fn corner(&self, f: FaceName, i: u32) -> (VertName, EdgeName) {
        if self.past.has(Elem::Face(f)) {
            self.past.corner(f, i)
        } else {
            self.shape.corner(f, i)
        }
    }

    fn corners(&self, f: FaceName, into: &mut [(VertName, EdgeName)]) {
        if self.past.has(Elem::Face(f)) {
            self.past.corners(f, into);
        } else {
            self.shape.corners(f, into);
        }
    }

    fn corner_rows(&self, f: FaceName, into: &mut [i64]) {
        if self.past.has(Elem::Face(f)) {
            self.past.rows_fit();
            self.past.corner_rows(f, into);
        } else {
            self.shape.corner_rows(f, into);
        }
    }

    fn vert_value(&self, v: VertName, k: usize) -> i64 {
        if self.past.has(Elem::Vert(v)) {
            self.past.rows_fit();
            self.past.vert_value(v, k)
        } else {
            self.shape.vert_value(v, k)
        }
    }

    fn edge_value(&self, e: EdgeName, k: usize) -> i64 {
        if self.past.has(Elem::Edge(e)) {
            self.past.rows_fit();
            self.past.edge_value(e, k)
        } else {
            self.shape.edge_value(e, k)
        }
    }

    fn corner_value(&self, f: FaceName, i: u32, k: usize) -> i64 {
        if self.past.has(Elem::Face(f)) {
            self.past.rows_fit();
            self.past.corner_value(f, i, k)
        } else {
            self.shape.corner_value(f, i, k)
        }
    }

    fn face_value(&self, f: FaceName, k: usize) -> i64 {
        if self.past.has(Elem::Face(f)) {
            self.past.rows_fit();
            self.past.face_value(f, k)
        } else {
            self.shape.face_value(f, k)
        }
    }

    fn material(&self, k: usize) -> Option<&[u8]> {
        self.shape.material(k)
    }

    fn library(&self, k: usize) -> Option<&[u8]> {
        self.shape.library(k)
    }

    fn layers(&self, kind: Kind) -> usize {
        self.shape.layers(kind)
    }

    fn layer_name(&self, kind: Kind, k: usize) -> &[u8] {
        self.shape.layer_name(kind, k)
    }

    fn layer_width(&self, kind: Kind, k: usize) -> u8 {
        self.shape.layer_width(kind, k)
    }

    fn layer_rule(&self, kind: Kind, k: usize) -> Rule {
        self.shape.layer_rule(kind, k)
    }
}
