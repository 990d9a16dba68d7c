ghost use Rattle.std.specs.Prelude.{◌≡◌, ◌<◌, ◌*◌, ◌∷◌, [], length, map, Some, slice_get};
ghost use Rattle.std.specs.Option.{option_map};
ghost use Rattle.std.specs.List.{flat_map};
ghost use Rattle.mesh_model.specs.Table.{at, IsThere, least_from};
ghost use Rattle.mesh_model.specs.Complex.{Complex, has, counters_of, corners_of, layers_of, width};
ghost use Rattle.mesh_model.specs.Incidence.{is_loose};
ghost use Rattle.mesh_model.specs.Valid.{IsLinked};

use crate::names::{EdgeName, Elem, FaceName, Kind, VertName};
use crate::records::{Counters, Point};
use cust_data::Rule;

/// Reads a complex, element by element, and takes no memory. Unless a call says otherwise, a name that is
/// given has to be there, and a position has to be in range.
pub trait Shape {
    ghost complex: { Self → Complex };

    /// The least vertex whose number isn't below `least`.
    fn vert_from(&self, least: u32) -> Option<VertName>
        ensures { option_map (λ v. v.0) result ≡ least_from (complex self.now).verts least };

    /// The least edge whose number isn't below `least`.
    fn edge_from(&self, least: u32) -> Option<EdgeName>
        ensures { option_map (λ e. e.0) result ≡ least_from (complex self.now).edges least };

    /// The least face whose number isn't below `least`.
    fn face_from(&self, least: u32) -> Option<FaceName>
        ensures { option_map (λ f. f.0) result ≡ least_from (complex self.now).faces least };

    /// Whether an element is there.
    fn has(&self, x: Elem) -> bool
        ensures { result ≡ has (complex self.now) x };

    /// The next names, and the number of live corners. What is read is always a linked complex.
    fn counters(&self) -> Counters
        ensures counters { result ≡ counters_of (complex self.now) }
        ensures linked { IsLinked (complex self.now) };

    /// The number of values that each element of a kind has.
    fn width(&self, kind: Kind) -> usize
        ensures { result ≡ width (complex self.now) kind };

    /// The point of a vertex.
    fn point(&self, v: VertName) -> Point
        requires { IsThere (complex self.now).verts v.0 }
        ensures { option_map (λ r. r.point) (at (complex self.now).verts v.0) ≡ Some result };

    /// The two ends of an edge, `a` first.
    fn ends(&self, e: EdgeName) -> [VertName; 2]
        requires { IsThere (complex self.now).edges e.0 }
        ensures { option_map (λ r. r.a ∷ r.b ∷ []) (at (complex self.now).edges e.0) ≡ Some result };

    /// Whether no corner has the edge.
    fn is_loose(&self, e: EdgeName) -> bool
        requires { IsThere (complex self.now).edges e.0 }
        ensures { result ≡ is_loose (complex self.now) e };

    /// The number of a face's corners.
    fn corner_count(&self, f: FaceName) -> u32
        requires { IsThere (complex self.now).faces f.0 }
        ensures { result ≡ length (corners_of (at (complex self.now).faces f.0)) };

    /// The vertex and the edge of a face's corner, by its position from 0. A mesh walks there from the
    /// first corner: to read a whole face take `corners`.
    fn corner(&self, f: FaceName, i: u32) -> (VertName, EdgeName)
        requires { i < length (corners_of (at (complex self.now).faces f.0)) }
        ensures { option_map (λ k. (k.vert, k.edge)) (slice_get (corners_of (at (complex self.now).faces f.0)) i)
            ≡ Some result };

    /// The vertices and the edges of a face's corners in order, in one walk round it.
    fn corners(&self, f: FaceName, into: &mut [(VertName, EdgeName)])
        requires there { IsThere (complex self.now).faces f.0 }
        requires room { length into.old ≡ length (corners_of (at (complex self.now).faces f.0)) }
        ensures { into.new ≡ map (λ k. (k.vert, k.edge)) (corners_of (at (complex self.now).faces f.0)) };

    /// The values of a face's corners in order, one row behind another, in one walk round it.
    fn corner_rows(&self, f: FaceName, into: &mut [i64])
        requires there { IsThere (complex self.now).faces f.0 }
        requires room { length into.old ≡ length (corners_of (at (complex self.now).faces f.0)) * width
            (complex self.now) Kind.Corners }
        ensures { into.new ≡ flat_map (λ k. k.vals) (corners_of (at (complex self.now).faces f.0)) };

    /// A number of a vertex's row of values.
    fn vert_value(&self, v: VertName, k: usize) -> i64
        requires there { IsThere (complex self.now).verts v.0 }
        requires within { k < width (complex self.now) Kind.Verts }
        ensures { option_map (λ r. slice_get r.vals k) (at (complex self.now).verts v.0) ≡ Some (Some result) };

    /// A number of an edge's row of values.
    fn edge_value(&self, e: EdgeName, k: usize) -> i64
        requires there { IsThere (complex self.now).edges e.0 }
        requires within { k < width (complex self.now) Kind.Edges }
        ensures { option_map (λ r. slice_get r.vals k) (at (complex self.now).edges e.0) ≡ Some (Some result) };

    /// A number of the row of values of a face's corner, by its position from 0.
    fn corner_value(&self, f: FaceName, i: u32, k: usize) -> i64
        requires there { i < length (corners_of (at (complex self.now).faces f.0)) }
        requires within { k < width (complex self.now) Kind.Corners }
        ensures { option_map (λ r. slice_get r.vals k) (slice_get (corners_of (at (complex self.now).faces f.0)) i)
            ≡ Some (Some result) };

    /// A number of a face's row of values.
    fn face_value(&self, f: FaceName, k: usize) -> i64
        requires there { IsThere (complex self.now).faces f.0 }
        requires within { k < width (complex self.now) Kind.Faces }
        ensures { option_map (λ r. slice_get r.vals k) (at (complex self.now).faces f.0) ≡ Some (Some result) };

    /// The name of a material, by its position from 0, and None past the last.
    fn material(&self, k: usize) -> Option<&[u8]>
        ensures { option_map (λ name. name.now) result ≡ slice_get (complex self.now).materials k };

    /// The name of a library of materials, by its position from 0, and None past the last.
    fn library(&self, k: usize) -> Option<&[u8]>
        ensures { option_map (λ name. name.now) result ≡ slice_get (complex self.now).libraries k };

    /// The number of layers of a kind.
    fn layers(&self, kind: Kind) -> usize
        ensures { result ≡ length (layers_of (complex self.now).layers kind) };

    /// The name of a layer of a kind, by its position from 0.
    fn layer_name(&self, kind: Kind, k: usize) -> &[u8]
        requires { k < length (layers_of (complex self.now).layers kind) }
        ensures { option_map (λ l. l.name) (slice_get (layers_of (complex self.now).layers kind) k) ≡ Some result.now };

    /// The width of a layer of a kind, by its position from 0.
    fn layer_width(&self, kind: Kind, k: usize) -> u8
        requires { k < length (layers_of (complex self.now).layers kind) }
        ensures { option_map (λ l. l.width) (slice_get (layers_of (complex self.now).layers kind) k) ≡ Some result };

    /// The rule of a layer of a kind, by its position from 0.
    fn layer_rule(&self, kind: Kind, k: usize) -> Rule
        requires { k < length (layers_of (complex self.now).layers kind) }
        ensures { option_map (λ l. l.rule) (slice_get (layers_of (complex self.now).layers kind) k) ≡ Some result };
}
