//! A draft read as a shape.

ghost use Rattle.std.specs.Prelude.{◌≡◌, ◌<◌};
ghost use Rattle.mesh_model.specs.Complex.{layers_of};

use crate::draft::Draft;
use crate::layer_rows::LayerRows;
use crate::names::{EdgeName, Elem, FaceName, Kind, VertName};
use crate::records::{Counters, Point};
use crate::shape::Shape;
use cust_data::Rule;

impl Draft {
    // The layers of a kind.
    fn values(&self, kind: Kind) -> &LayerRows
        ensures { result.now.layers ≡ layers_of self.now.layers kind }
    {
        match kind {
            Kind::Verts => self.verts.values(),
            Kind::Edges => self.edges.values(),
            Kind::Corners => self.faces.corner_values(),
            Kind::Faces => self.faces.values(),
        }
    }
}

impl Shape for Draft {
    ghost complex = { λ d. d };

    fn vert_from(&self, least: u32) -> Option<VertName> {
        self.verts.first_from(least).map(VertName)
    }

    fn edge_from(&self, least: u32) -> Option<EdgeName> {
        self.edges.first_from(least).map(EdgeName)
    }

    fn face_from(&self, least: u32) -> Option<FaceName> {
        self.faces.first_from(least).map(FaceName)
    }

    fn has(&self, x: Elem) -> bool {
        match x {
            Elem::Vert(v) => self.verts.has(v.0),
            Elem::Edge(e) => self.edges.has(e.0),
            Elem::Face(f) => self.faces.has(f.0),
        }
    }

    fn counters(&self) -> Counters {
        Counters {
            verts: self.verts.len(),
            edges: self.edges.len(),
            faces: self.faces.len(),
            corners: self.faces.corners(),
        }
    }

    fn width(&self, kind: Kind) -> usize {
        self.values(kind).total()
    }

    fn point(&self, v: VertName) -> Point {
        self.verts.point(v.0)
    }

    fn ends(&self, e: EdgeName) -> [VertName; 2] {
        let ends = self.edges.ends(e.0);
        [ends.a, ends.b]
    }

    fn is_loose(&self, e: EdgeName) -> bool {
        !self.edges.is_used(e.0)
    }

    fn corner_count(&self, f: FaceName) -> u32 {
        self.faces.corner_count(f.0)
    }

    fn corner(&self, f: FaceName, i: u32) -> (VertName, EdgeName) {
        let side = self.faces.corner(f.0, i);
        (side.vert, side.edge)
    }

    fn corners(&self, f: FaceName, into: &mut [(VertName, EdgeName)]) {
        for i in 0..self.corner_count(f) {
            into[i as usize] = self.corner(f, i);
        }
    }

    fn corner_rows(&self, f: FaceName, into: &mut [i64]) {
        self.faces.corner_rows(f.0, into);
    }

    fn vert_value(&self, v: VertName, k: usize) -> i64 {
        self.verts.value(v.0, k)
    }

    fn edge_value(&self, e: EdgeName, k: usize) -> i64 {
        self.edges.value(e.0, k)
    }

    fn corner_value(&self, f: FaceName, i: u32, k: usize) -> i64 {
        self.faces.corner_value(f.0, i, k)
    }

    fn face_value(&self, f: FaceName, k: usize) -> i64 {
        self.faces.value(f.0, k)
    }

    fn material(&self, k: usize) -> Option<&[u8]> {
        if k < self.materials.len() {
            Some(self.materials.get(k).as_slice())
        } else {
            None
        }
    }

    fn library(&self, k: usize) -> Option<&[u8]> {
        if k < self.libraries.len() {
            Some(self.libraries.get(k).as_slice())
        } else {
            None
        }
    }

    fn layers(&self, kind: Kind) -> usize {
        self.values(kind).layers()
    }

    fn layer_name(&self, kind: Kind, k: usize) -> &[u8] {
        self.values(kind).layer_name(k)
    }

    fn layer_width(&self, kind: Kind, k: usize) -> u8 {
        self.values(kind).layer_width(k)
    }

    fn layer_rule(&self, kind: Kind, k: usize) -> Rule {
        self.values(kind).layer_rule(k)
    }
}
