//! A session read as a shape.

use crate::session::Session;
use mesh_model::{Counters, EdgeName, Elem, FaceName, Kind, Point, Rule, Shape, VertName};

impl Shape for Session {
    ghost complex = { λ s. s.state.now };

    fn vert_from(&self, least: u32) -> Option<VertName> {
        self.mesh.vert_from(least)
    }

    fn edge_from(&self, least: u32) -> Option<EdgeName> {
        self.mesh.edge_from(least)
    }

    fn face_from(&self, least: u32) -> Option<FaceName> {
        self.mesh.face_from(least)
    }

    fn has(&self, x: Elem) -> bool {
        self.mesh.has(x)
    }

    fn counters(&self) -> Counters {
        self.mesh.counters()
    }

    fn width(&self, kind: Kind) -> usize {
        self.mesh.width(kind)
    }

    fn point(&self, v: VertName) -> Point {
        self.mesh.point(v)
    }

    fn ends(&self, e: EdgeName) -> [VertName; 2] {
        self.mesh.ends(e)
    }

    fn is_loose(&self, e: EdgeName) -> bool {
        self.mesh.is_loose(e)
    }

    fn corner_count(&self, f: FaceName) -> u32 {
        self.mesh.corner_count(f)
    }

    fn corner(&self, f: FaceName, i: u32) -> (VertName, EdgeName) {
        self.mesh.corner(f, i)
    }

    fn corners(&self, f: FaceName, into: &mut [(VertName, EdgeName)]) {
        self.mesh.corners(f, into)
    }

    fn corner_rows(&self, f: FaceName, into: &mut [i64]) {
        self.mesh.corner_rows(f, into)
    }

    fn vert_value(&self, v: VertName, k: usize) -> i64 {
        self.mesh.vert_value(v, k)
    }

    fn edge_value(&self, e: EdgeName, k: usize) -> i64 {
        self.mesh.edge_value(e, k)
    }

    fn corner_value(&self, f: FaceName, i: u32, k: usize) -> i64 {
        self.mesh.corner_value(f, i, k)
    }

    fn face_value(&self, f: FaceName, k: usize) -> i64 {
        self.mesh.face_value(f, k)
    }

    fn material(&self, k: usize) -> Option<&[u8]> {
        self.mesh.material(k)
    }

    fn library(&self, k: usize) -> Option<&[u8]> {
        self.mesh.library(k)
    }

    fn layers(&self, kind: Kind) -> usize {
        self.mesh.layers(kind)
    }

    fn layer_name(&self, kind: Kind, k: usize) -> &[u8] {
        self.mesh.layer_name(kind, k)
    }

    fn layer_width(&self, kind: Kind, k: usize) -> u8 {
        self.mesh.layer_width(kind, k)
    }

    fn layer_rule(&self, kind: Kind, k: usize) -> Rule {
        self.mesh.layer_rule(kind, k)
    }
}
