//! Calls that change what is there, one record at a time.
ghost use Rattle.std.specs.Prelude.{◌≡◌, ◌≢◌, ◌<◌, ◌≤◌, ◌+◌, ◌-◌, ◌^◌, length, OnOk, OnErr, IsOk};
ghost use Rattle.std.specs.List.{All};
ghost use Rattle.mesh_model.specs.Table.{at, IsThere};
ghost use Rattle.mesh_model.specs.Complex.{corners_of, corner_sum, width};
ghost use Rattle.mesh_model.specs.Kernel.{with_point, with_vert_vals, with_edge_vals, with_face_vals, with_corner_vals};
ghost use Rattle.mesh_model.specs.Kernel.{with_corners, with_corner, without_corner, reversed_face, with_end};
ghost use Rattle.mesh_model.specs.Valid.{IsCornerLinked};
ghost use Rattle.mesh_model.specs.declared.names.Kind.TheVariants.{Verts, Edges, Corners, Faces};
ghost use Rattle.mesh_records.specs.Corners.{of_corners};
ghost use Rattle.mesh_records.specs.MovesEnd.{end_name, with_moved};
ghost use Rattle.mesh_records.specs.Places.{KeepsPlaces};
ghost use Rattle.mesh_records.specs.Room.{Covers, UsesAtMost, none_of_all, of_verts, of_edges, of_face};
ghost use Rattle.mesh_core.specs.Seen.{now, disks, room, IsAsBefore};

use crate::mesh::Mesh;
use mesh_model::{CornerRec, EdgeName, FaceName, NoMemory, Point, VertName};
use mesh_records::{
    coordinates, insert_corner, loop_at, make_room, put_corners, reverse_face, set_end,
    slot_of_edge, slot_of_face, slot_of_vert, take_loop, take_loops,
};
use mesh_store::Part;

/// Points and values.
///
/// A row of values has a number for each number of the layers of its kind.
impl Mesh {
    /// Moves a live vertex to a point. Constant time.
    pub fn set_point(&mut self, v: VertName, p: Point) -> Result<(), NoMemory>
        requires { IsThere (now self.old).verts v.0 }
        ensures now { OnOk result (now self.new ≡ with_point (now self.old) v p) }
        ensures disks { disks self.new ≡ disks self.old }
        ensures err { OnErr result (IsAsBefore self.old self.new) }
        ensures base { self.new.base ≡ self.old.base }
        ensures room { UsesAtMost none_of_all (room self.old) (room self.new) }
        ensures notes { UsesAtMost (of_verts 1) self.old.notes self.new.notes }
        ensures enough { Covers self.old.notes (of_verts 1) → IsOk result }
    {
        let vert = slot_of_vert(&self.store, v.0);
        self.store.set_point(vert, coordinates(p));
        Ok(())
    }

    /// Replaces the row of values of a live vertex. It takes time that grows with the row.
    pub fn set_vert_vals(&mut self, v: VertName, vals: &[i64]) -> Result<(), NoMemory>
        requires there { IsThere (now self.old).verts v.0 }
        requires wide { length vals.now ≡ width (now self.old) Verts }
        ensures now { OnOk result (now self.new ≡ with_vert_vals (now self.old) v vals.now) }
        ensures disks { disks self.new ≡ disks self.old }
        ensures err { OnErr result (IsAsBefore self.old self.new) }
        ensures base { self.new.base ≡ self.old.base }
        ensures room { UsesAtMost none_of_all (room self.old) (room self.new) }
        ensures places { KeepsPlaces none_of_all self.old.stored self.new.stored }
        ensures notes { UsesAtMost (of_verts 1) self.old.notes self.new.notes }
        ensures enough { Covers self.old.notes (of_verts 1) → IsOk result }
    {
        let vert = slot_of_vert(&self.store, v.0);
        self.store.set_row(Part::Vert, vert, vals);
        Ok(())
    }

    /// Replaces the row of values of a live edge. It takes time that grows with the row.
    pub fn set_edge_vals(&mut self, e: EdgeName, vals: &[i64]) -> Result<(), NoMemory>
        requires there { IsThere (now self.old).edges e.0 }
        requires wide { length vals.now ≡ width (now self.old) Edges }
        ensures now { OnOk result (now self.new ≡ with_edge_vals (now self.old) e vals.now) }
        ensures disks { disks self.new ≡ disks self.old }
        ensures err { OnErr result (IsAsBefore self.old self.new) }
        ensures base { self.new.base ≡ self.old.base }
        ensures room { UsesAtMost none_of_all (room self.old) (room self.new) }
        ensures places { KeepsPlaces none_of_all self.old.stored self.new.stored }
        ensures notes { UsesAtMost (of_edges 1) self.old.notes self.new.notes }
        ensures enough { Covers self.old.notes (of_edges 1) → IsOk result }
    {
        let edge = slot_of_edge(&self.store, e.0);
        self.store.set_row(Part::Edge, edge, vals);
        Ok(())
    }

    /// Replaces the row of values of a live face. It takes time that grows with the row.
    pub fn set_face_vals(&mut self, f: FaceName, vals: &[i64]) -> Result<(), NoMemory>
        requires there { IsThere (now self.old).faces f.0 }
        requires wide { length vals.now ≡ width (now self.old) Faces }
        ensures now { OnOk result (now self.new ≡ with_face_vals (now self.old) f vals.now) }
        ensures disks { disks self.new ≡ disks self.old }
        ensures err { OnErr result (IsAsBefore self.old self.new) }
        ensures base { self.new.base ≡ self.old.base }
        ensures room { UsesAtMost none_of_all (room self.old) (room self.new) }
        ensures places { KeepsPlaces none_of_all self.old.stored self.new.stored }
        ensures notes { UsesAtMost (of_face (length (corners_of (at (now self.old).faces f.0))))
            self.old.notes self.new.notes }
        ensures enough { Covers self.old.notes (of_face (length (corners_of (at (now self.old).faces f.0))))
            → IsOk result }
    {
        let face = slot_of_face(&self.store, f.0);
        self.store.set_row(Part::Face, face, vals);
        Ok(())
    }

    /// Replaces the row of values of a live face's corner at a position from 0. It takes time that grows with the
    /// position and the row.
    pub fn set_corner_vals(&mut self, f: FaceName, i: u32, vals: &[i64]) -> Result<(), NoMemory>
        requires there { IsThere (now self.old).faces f.0 }
        requires within { i < length (corners_of (at (now self.old).faces f.0)) }
        requires wide { length vals.now ≡ width (now self.old) Corners }
        ensures now { OnOk result (now self.new ≡ with_corner_vals (now self.old) f i vals.now) }
        ensures disks { disks self.new ≡ disks self.old }
        ensures err { OnErr result (IsAsBefore self.old self.new) }
        ensures base { self.new.base ≡ self.old.base }
        ensures room { UsesAtMost none_of_all (room self.old) (room self.new) }
        ensures places { KeepsPlaces none_of_all self.old.stored self.new.stored }
        ensures notes { UsesAtMost (of_face (length (corners_of (at (now self.old).faces f.0))))
            self.old.notes self.new.notes }
        ensures enough { Covers self.old.notes (of_face (length (corners_of (at (now self.old).faces f.0))))
            → IsOk result }
    {
        let face = slot_of_face(&self.store, f.0);
        let corner = loop_at(&self.store, face, i);
        self.store.set_row(Part::Loop, corner, vals);
        Ok(())
    }
}

/// Corners of a face.
///
/// A position counts the corners from the first one, which has 0.
impl Mesh {
    /// Puts a corner into a live face at a position from 0 to the number of its corners; the corners from there on
    /// follow. The mesh then has at most 16,777,216 corners. It takes time that grows with the corners of the face.
    pub fn insert_corner(&mut self, f: FaceName, i: u32, corner: &CornerRec) -> Result<(), NoMemory>
        requires there { IsThere (now self.old).faces f.0 }
        requires within { i ≤ length (corners_of (at (now self.old).faces f.0)) }
        requires few { corner_sum (now self.old).faces < 2 ^ 24 }
        requires linked { IsCornerLinked (now self.old) corner.now }
        ensures now { OnOk result (now self.new ≡ with_corner (now self.old) f i corner.now) }
        ensures disks { disks self.new ≡ disks self.old }
        ensures err { OnErr result (IsAsBefore self.old self.new) }
        ensures base { self.new.base ≡ self.old.base }
        ensures room { UsesAtMost (of_corners 1) (room self.old) (room self.new) }
        ensures notes { UsesAtMost (of_face (length (corners_of (at (now self.old).faces f.0))))
            self.old.notes self.new.notes }
        ensures enough { Covers (room self.old) (of_corners 1)
            → Covers self.old.notes (of_face (length (corners_of (at (now self.old).faces f.0)))) → IsOk result }
    {
        make_room(&mut self.store, self.next, 0, 0, 1, 0)?;
        insert_corner(&mut self.store, self.next, f, i, corner);
        self.next.corners += 1;
        Ok(())
    }

    /// Takes the corner of a live face at a position away; the corners behind it move up. The face has another corner.
    /// It takes time that grows with the position.
    pub fn remove_corner(&mut self, f: FaceName, i: u32) -> Result<(), NoMemory>
        requires there { IsThere (now self.old).faces f.0 }
        requires within { i < length (corners_of (at (now self.old).faces f.0)) }
        requires more { 2 ≤ length (corners_of (at (now self.old).faces f.0)) }
        ensures now { OnOk result (now self.new ≡ without_corner (now self.old) f i) }
        ensures disks { disks self.new ≡ disks self.old }
        ensures err { OnErr result (IsAsBefore self.old self.new) }
        ensures base { self.new.base ≡ self.old.base }
        ensures room { UsesAtMost none_of_all (room self.old) (room self.new) }
        ensures notes { UsesAtMost (of_face (length (corners_of (at (now self.old).faces f.0))))
            self.old.notes self.new.notes }
        ensures enough { Covers self.old.notes (of_face (length (corners_of (at (now self.old).faces f.0))))
            → IsOk result }
    {
        let face = slot_of_face(&self.store, f.0);
        let corner = loop_at(&self.store, face, i);
        take_loop(&mut self.store, face, corner);
        self.next.corners -= 1;
        Ok(())
    }

    /// Gives a live face other corners, at least one. The mesh then has at most 16,777,216 corners. It takes time that
    /// grows with the corners before and after.
    pub fn reface(&mut self, f: FaceName, corners: &[CornerRec]) -> Result<(), NoMemory>
        requires there { IsThere (now self.old).faces f.0 }
        requires some { 1 ≤ length corners.now }
        requires few { corner_sum (now self.old).faces + length corners.now
            ≤ 2 ^ 24 + length (corners_of (at (now self.old).faces f.0)) }
        requires linked { All (IsCornerLinked (now self.old)) corners.now }
        ensures now { OnOk result (now self.new ≡ with_corners (now self.old) f corners.now) }
        ensures disks { disks self.new ≡ disks self.old }
        ensures err { OnErr result (IsAsBefore self.old self.new) }
        ensures base { self.new.base ≡ self.old.base }
        ensures room { UsesAtMost (of_corners (length corners.now - length (corners_of (at (now self.old).faces f.0))))
            (room self.old) (room self.new) }
        ensures notes { UsesAtMost (of_face (length (corners_of (at (now self.old).faces f.0))))
            self.old.notes self.new.notes }
        ensures enough { Covers (room self.old)
            (of_corners (length corners.now - length (corners_of (at (now self.old).faces f.0))))
            → Covers self.old.notes (of_face (length (corners_of (at (now self.old).faces f.0)))) → IsOk result }
    {
        let face = slot_of_face(&self.store, f.0);
        let before = self.store.face_len(face);
        let count = corners.len() as u32;
        make_room(
            &mut self.store,
            self.next,
            0,
            0,
            count.saturating_sub(before),
            0,
        )?;
        take_loops(&mut self.store, face);
        self.next.corners -= before;
        put_corners(&mut self.store, self.next, f, corners);
        self.next.corners += count;
        Ok(())
    }
}

/// Faces turned over, and ends.
impl Mesh {
    /// Turns a live face over: its first corner stays first, the others follow in the opposite order, and each goes
    /// along the edge that led to it before. It takes time that grows with the corners.
    pub fn reverse_face(&mut self, f: FaceName) -> Result<(), NoMemory>
        requires { IsThere (now self.old).faces f.0 }
        ensures now { OnOk result (now self.new ≡ reversed_face (now self.old) f) }
        ensures disks { disks self.new ≡ disks self.old }
        ensures err { OnErr result (IsAsBefore self.old self.new) }
        ensures base { self.new.base ≡ self.old.base }
        ensures room { UsesAtMost none_of_all (room self.old) (room self.new) }
        ensures notes { UsesAtMost (of_face (length (corners_of (at (now self.old).faces f.0))))
            self.old.notes self.new.notes }
        ensures enough { Covers self.old.notes (of_face (length (corners_of (at (now self.old).faces f.0))))
            → IsOk result }
    {
        reverse_face(&mut self.store, self.next, f);
        Ok(())
    }

    /// Makes a live vertex the end of a live edge on a side: 0 where the edge begins, and 1 where it ends. The other
    /// end has to be another vertex. Where the edge didn't end on that side there, it is then the last one around the
    /// vertex. Constant time.
    pub fn set_end(&mut self, e: EdgeName, side: u8, v: VertName) -> Result<(), NoMemory>
        requires edge { IsThere (now self.old).edges e.0 }
        requires side { side < 2 }
        requires vert { IsThere (now self.old).verts v.0 }
        requires differ { end_name (1 - side) (at (now self.old).edges e.0) ≢ v.0 }
        ensures now { OnOk result (now self.new ≡ with_end (now self.old) e side v) }
        ensures disks { OnOk result (disks self.new
            ≡ with_moved (disks self.old) e (end_name side (at (now self.old).edges e.0)) v.0) }
        ensures err { OnErr result (IsAsBefore self.old self.new) }
        ensures base { self.new.base ≡ self.old.base }
        ensures room { UsesAtMost none_of_all (room self.old) (room self.new) }
        ensures notes { UsesAtMost (of_edges 1) self.old.notes self.new.notes }
        ensures enough { Covers self.old.notes (of_edges 1) → IsOk result }
    {
        set_end(&mut self.store, self.next, e, side, v);
        Ok(())
    }
}
