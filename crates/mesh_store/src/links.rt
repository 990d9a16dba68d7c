//! The links of the three kinds of cycles. Each call takes constant time.
ghost use Rattle.std.specs.Prelude.{◌*◌, length};
ghost use Rattle.std.proofs.Common.{rules};
ghost use Rattle.mesh_store.specs.Stored.{Stored, dart_links, radial_links, round_links, beside_darts, beside_radials, beside_rounds};
ghost use Rattle.mesh_store.specs.Limits.{darts_limited, radials_limited, rounds_limited};

use crate::cells::{Dart, Radial, Round};
use crate::store::Store;
use link_ring::Links;

/// Disk cycles: the darts of live edges.
impl Links<Dart> for Store {
    ghost links = { dart_links };

    ghost Rest = { Stored };

    ghost rest = { beside_darts };

    ghost key_limit = { λ s. 2 * length s.edges.cells };

    fn next(&self, d: Dart) -> Dart {
        let edge = self.edges.get(d.edge);
        if d.side == 0 {
            edge.disk_a.next
        } else {
            edge.disk_b.next
        }
    }

    fn prev(&self, d: Dart) -> Dart {
        let edge = self.edges.get(d.edge);
        if d.side == 0 {
            edge.disk_a.prev
        } else {
            edge.disk_b.prev
        }
    }

    fn set_next(&mut self, d: Dart, to: Dart) {
        if d.side == 0 {
            self.edges.update(d.edge, |edge| edge.disk_a.next = to);
        } else {
            self.edges.update(d.edge, |edge| edge.disk_b.next = to);
        }
    }

    fn set_prev(&mut self, d: Dart, to: Dart) {
        if d.side == 0 {
            self.edges.update(d.edge, |edge| edge.disk_a.prev = to);
        } else {
            self.edges.update(d.edge, |edge| edge.disk_b.prev = to);
        }
    }

    ghost one_key = { Prim.search rules };

    ghost limited = { darts_limited };
}

/// Radial cycles: the live loops, around their edges.
impl Links<Radial> for Store {
    ghost links = { radial_links };

    ghost Rest = { Stored };

    ghost rest = { beside_radials };

    ghost key_limit = { λ s. length s.loops };

    fn next(&self, r: Radial) -> Radial {
        self.loops.get(r.0).radial_next
    }

    fn prev(&self, r: Radial) -> Radial {
        self.loops.get(r.0).radial_prev
    }

    fn set_next(&mut self, r: Radial, to: Radial) {
        let corner = self.loops.get_mut(r.0);
        corner.radial_next = to;
    }

    fn set_prev(&mut self, r: Radial, to: Radial) {
        let corner = self.loops.get_mut(r.0);
        corner.radial_prev = to;
    }

    ghost one_key = { Prim.search rules };

    ghost limited = { radials_limited };
}

/// Loop cycles: the live loops, around their faces.
impl Links<Round> for Store {
    ghost links = { round_links };

    ghost Rest = { Stored };

    ghost rest = { beside_rounds };

    ghost key_limit = { λ s. length s.loops };

    fn next(&self, r: Round) -> Round {
        self.loops.get(r.0).round_next
    }

    fn prev(&self, r: Round) -> Round {
        self.loops.get(r.0).round_prev
    }

    fn set_next(&mut self, r: Round, to: Round) {
        let corner = self.loops.get_mut(r.0);
        corner.round_next = to;
    }

    fn set_prev(&mut self, r: Round, to: Round) {
        let corner = self.loops.get_mut(r.0);
        corner.round_prev = to;
    }

    ghost one_key = { Prim.search rules };

    ghost limited = { rounds_limited };
}
