//! The corners of noted faces, one face behind another.

ghost use Rattle.std.specs.Prelude.{◌≡◌, ◌≤◌, ◌<◌, ◌+◌, ◌*◌, ◌++◌, ◌↔◌, [], OnOk, OnErr, IsOk, is_ok, if◌then◌else◌, Some, true, length, take, drop, map, slice_get};
ghost use Rattle.std.specs.List.{All, flat_map};
ghost use Rattle.std.specs.Vec.{vec_len, vec_capacity};
ghost use Rattle.std.specs.Option.{option_map};
ghost use Rattle.mesh_model.specs.Table.{at, IsThere};
ghost use Rattle.mesh_model.specs.Complex.{corners_of, width as width_of};
ghost use Rattle.mesh_model.specs.Valid.{IsLinked};
ghost use Rattle.mesh_trail.specs.Wide.{IsCornerWide};

use mesh_model::{EdgeName, FaceName, Kind, NoMemory, Shape, VertName};
use std::alloc::Global;
use std::marker::Model;

// The corners of faces, and two buffers into which a whole face of a shape is read.
#[derive(Drop)]
pub(crate) struct CornerStore {
    pairs: Vec<(VertName, EdgeName)>,
    values: Vec<i64>,
    width: usize,
    // How many more corners surely take no memory.
    spare: usize,
    pair_buffer: Vec<(VertName, EdgeName)>,
    value_buffer: Vec<i64>,
}

impl Model for CornerStore {
    ghost use Rattle.std.specs.Vec.{vec_len, vec_capacity};
    ghost use Rattle.std.specs.Prelude.{length};
    ghost use Rattle.mesh_trail.specs.Kept.{KeptCorners, corners_code, corner_recs, AreStored};

    ghost Value = { KeptCorners };

    ghost coded = { corners_code };

    ghost view = { λ s. record {
      corners = corner_recs s.width s.pairs.items s.values.items;
      width = s.width;
      room = s.spare;
      longest = length s.pair_buffer.items;
    } };

    ghost invariant = { λ s. AreStored s.width s.spare (vec_len s.pairs) (vec_len s.values) (length s.pair_buffer.items)
        (length s.value_buffer.items) (vec_capacity s.pairs) (vec_capacity s.values) };
}

impl CornerStore {
    // No corner. Takes no memory.
    pub(crate) fn new(alloc: Global, width: usize) -> CornerStore
        ensures corners { result.corners ≡ [] }
        ensures width { result.width ≡ width }
        ensures room { result.room ≡ 0 }
    {
        CornerStore {
            pairs: Vec::new(alloc),
            values: Vec::new(alloc),
            width,
            spare: 0,
            pair_buffer: Vec::new(alloc),
            value_buffer: Vec::new(alloc),
        }
    }

    // Lets the buffers take a face of so many corners.
    fn widen(&mut self, count: usize) -> Result<(), NoMemory>
        ensures corners { self.new.corners ≡ self.old.corners }
        ensures width { self.new.width ≡ self.old.width }
        ensures room { self.new.room ≡ self.old.room }
        ensures longest { self.old.longest ≤ self.new.longest }
        ensures ok { OnOk result (count ≤ self.new.longest) }
        ensures enough { count ≤ self.old.room → IsOk result }
    {
        if count <= self.pair_buffer.len() {
            return Ok(());
        }
        let Some(numbers) = count.checked_mul(self.width) else {
            return Err(NoMemory);
        };
        self.value_buffer.resize(numbers, 0)?;
        self.pair_buffer.resize(count, (VertName(0), EdgeName(0)))?;
        Ok(())
    }

    // Does nothing. Each row is as wide as is said.
    pub(crate) fn rows_fit(&self)
        ensures { All (IsCornerWide self.now.width) self.now.corners }
    {
        let _ = &self.width;
    }

    // Makes room for so many further corners.
    pub(crate) fn reserve(&mut self, more: usize) -> Result<(), NoMemory>
        ensures corners { self.new.corners ≡ self.old.corners }
        ensures width { self.new.width ≡ self.old.width }
        ensures longest { self.old.longest ≤ self.new.longest }
        ensures ok { OnOk result (more ≤ self.new.room) }
        ensures err { OnErr result (self.new.room ≡ self.old.room) }
        ensures room { self.old.room ≤ self.new.room }
    {
        if more <= self.spare {
            return Ok(());
        }
        let Some(numbers) = more.checked_mul(self.width) else {
            return Err(NoMemory);
        };
        self.widen(more)?;
        self.pairs.reserve(more)?;
        self.values.reserve(numbers)?;
        self.spare = more;
        Ok(())
    }

    // The number of corners.
    pub(crate) fn len(&self) -> usize
        ensures { result ≡ length self.now.corners }
    {
        self.pairs.len()
    }

    // How many more corners surely take no memory.
    pub(crate) fn room(&self) -> usize
        ensures room { result ≡ self.now.room }
        ensures enough { result ≤ self.now.longest }
    {
        self.spare
    }

    // The width of a row.
    pub(crate) fn width(&self) -> usize
        ensures { result ≡ self.now.width }
    {
        self.width
    }

    // Tells of less room.
    pub(crate) fn lessen(&mut self, room: usize)
        requires { room ≤ self.old.room }
        ensures { self.new ≡ record self.old { room = room } }
    {
        self.spare = room;
    }

    // Takes away each corner, and has rows of a width from then on. Takes no memory, and keeps what there is.
    pub(crate) fn restart(&mut self, width: usize)
        ensures corners { self.new.corners ≡ [] }
        ensures width { self.new.width ≡ width }
        ensures room { self.old.width ≡ width → self.new.room ≡ self.old.room }
    {
        if self.width != width {
            self.spare = 0;
            self.pair_buffer.clear();
        }
        self.width = width;
        self.pairs.clear();
        self.values.clear();
    }

    // Gives back the memory that isn't used, after which no corner surely takes none.
    pub(crate) fn shrink(&mut self)
        ensures corners { self.new.corners ≡ self.old.corners }
        ensures width { self.new.width ≡ self.old.width }
        ensures longest { self.new.longest ≡ self.old.longest }
    {
        self.spare = 0;
        self.pairs.shrink_to_fit();
        self.values.shrink_to_fit();
    }

    // Puts a part of another store's corners at the end.
    pub(crate) fn append_part(
        &mut self,
        other: &CornerStore,
        from: usize,
        count: usize,
    ) -> Result<(), NoMemory>
        requires within { from + count ≤ length other.now.corners }
        requires wide { self.old.width ≡ other.now.width }
        ensures ok { OnOk result (self.new.corners ≡ self.old.corners ++ take count (drop from other.now.corners)) }
        ensures err { OnErr result (self.new.corners ≡ self.old.corners) }
        ensures holds { OnOk result (count ≤ self.new.longest) }
        ensures width { self.new.width ≡ self.old.width }
        ensures longest { self.old.longest ≤ self.new.longest }
    {
        self.widen(count)?;
        let pairs = &other.pairs[from..from + count];
        let first = from * self.width;
        let numbers = count * self.width;
        let values = &other.values[first..first + numbers];
        store(&mut self.pairs, pairs, &mut self.values, values)?;
        self.spare = self.spare.saturating_sub(count);
        Ok(())
    }

    // Puts the corners of a face at the end.
    pub(crate) fn append<S: Shape>(&mut self, f: FaceName, now: &S) -> Result<(), NoMemory>
        requires there { IsThere (S.complex now.now).faces f.0 }
        requires linked { IsLinked (S.complex now.now) }
        requires wide { self.old.width ≡ width_of (S.complex now.now) Kind.Corners }
        ensures ok { OnOk result (self.new.corners
            ≡ self.old.corners ++ corners_of (at (S.complex now.now).faces f.0)) }
        ensures holds { OnOk result (length (corners_of (at (S.complex now.now).faces f.0)) ≤ self.new.longest) }
        ensures err { OnErr result ((self.new.corners ≡ self.old.corners) × (self.new.room ≡ self.old.room)) }
        ensures width { self.new.width ≡ self.old.width }
        ensures longest { self.old.longest ≤ self.new.longest }
        ensures succeeds { length (corners_of (at (S.complex now.now).faces f.0)) ≤ self.old.room → IsOk result }
        ensures room { self.old.room ≤ self.new.room + length (corners_of (at (S.complex now.now).faces f.0)) }
    {
        let count = now.corner_count(f) as usize;
        self.widen(count)?;
        let numbers = count * self.width;
        read_pairs(&mut self.pair_buffer, count, f, now);
        read_rows(&mut self.value_buffer, numbers, f, now);
        store(
            &mut self.pairs,
            &self.pair_buffer[..count],
            &mut self.values,
            &self.value_buffer[..numbers],
        )?;
        self.spare = self.spare.saturating_sub(count);
        Ok(())
    }

    // Takes away the corners from a place on, with no less room than there was when they were put there.
    pub(crate) fn cut(&mut self, from: usize, room: usize)
        requires within { from ≤ length self.old.corners }
        requires room { room + from ≤ self.old.room + length self.old.corners }
        requires enough { room ≤ self.old.longest }
        ensures { self.new ≡ record self.old { corners = take from self.old.corners; room = room } }
    {
        self.pairs.truncate(from);
        self.values.truncate(from * self.width);
        self.spare = room;
    }

    // Whether stored corners are those of a face.
    pub(crate) fn same<S: Shape>(&mut self, from: usize, count: usize, f: FaceName, now: &S) -> bool
        requires there { IsThere (S.complex now.now).faces f.0 }
        requires linked { IsLinked (S.complex now.now) }
        requires wide { self.old.width ≡ width_of (S.complex now.now) Kind.Corners }
        requires within { from + count ≤ length self.old.corners }
        requires holds { count ≤ self.old.longest }
        ensures same { self.new ≡ self.old }
        ensures result { result ≡ true ↔ (take count (drop from self.old.corners)
            ≡ corners_of (at (S.complex now.now).faces f.0)) }
    {
        if now.corner_count(f) as usize != count {
            return false;
        }
        let first = from * self.width;
        let numbers = count * self.width;
        read_pairs(&mut self.pair_buffer, count, f, now);
        read_rows(&mut self.value_buffer, numbers, f, now);
        if !same_pairs_at(&self.pairs, from, count, &self.pair_buffer) {
            return false;
        }
        same_numbers_at(&self.values, first, numbers, &self.value_buffer)
    }

    // The vertex and the edge of a corner behind a place.
    pub(crate) fn pair(&self, from: usize, i: usize) -> (VertName, EdgeName)
        requires { from + i < length self.now.corners }
        ensures { option_map (λ k. (k.vert, k.edge)) (slice_get self.now.corners (from + i)) ≡ Some result }
    {
        self.pairs[from + i]
    }

    // Copies the vertices and edges of corners that stand behind one another.
    pub(crate) fn copy_pairs(&self, from: usize, into: &mut [(VertName, EdgeName)])
        requires { from + length into.old ≤ length self.now.corners }
        ensures { into.new ≡ map (λ k. (k.vert, k.edge)) (take (length into.old) (drop from self.now.corners)) }
    {
        copy_part(&self.pairs, from, into);
    }

    // Copies the rows of corners that stand behind one another.
    pub(crate) fn copy_rows(&self, from: usize, count: usize, into: &mut [i64])
        requires within { from + count ≤ length self.now.corners }
        requires room { length into.old ≡ count * self.now.width }
        ensures { into.new ≡ flat_map (λ k. k.vals) (take count (drop from self.now.corners)) }
    {
        copy_part(&self.values, from * self.width, into);
    }

    // A number of the row of a corner behind a place.
    pub(crate) fn value(&self, from: usize, i: usize, k: usize) -> i64
        requires there { from + i < length self.now.corners }
        requires within { k < self.now.width }
        ensures { option_map (λ r. slice_get r.vals k) (slice_get self.now.corners (from + i)) ≡ Some (Some result) }
    {
        self.values[(from + i) * self.width + k]
    }
}

// Copies as much as there is to be filled, from a place on.
fn copy_part<T: Copy>(all: &[T], from: usize, into: &mut [T])
    requires { from + length into.old ≤ length all.now }
    ensures { into.new ≡ take (length into.old) (drop from all.now) }
{
    let end = from + into.len();
    into.copy_from_slice(&all[from..end]);
}

// Reads the vertices and edges of a face's corners into the front of a buffer.
fn read_pairs<S: Shape>(buffer: &mut Vec<(VertName, EdgeName)>, count: usize, f: FaceName, now: &S)
    requires there { IsThere (S.complex now.now).faces f.0 }
    requires count { count ≡ length (corners_of (at (S.complex now.now).faces f.0)) }
    requires room { count ≤ length buffer.old.items }
    ensures front { take count buffer.new.items
        ≡ map (λ k. (k.vert, k.edge)) (corners_of (at (S.complex now.now).faces f.0)) }
    ensures len { length buffer.new.items ≡ length buffer.old.items }
{
    fill_pairs(buffer, count, f, now);
}

// Reads the vertices and edges of a face's corners into the front of a slice.
fn fill_pairs<S: Shape>(buffer: &mut [(VertName, EdgeName)], count: usize, f: FaceName, now: &S)
    requires there { IsThere (S.complex now.now).faces f.0 }
    requires count { count ≡ length (corners_of (at (S.complex now.now).faces f.0)) }
    requires room { count ≤ length buffer.old }
    ensures { take count buffer.new ≡ map (λ k. (k.vert, k.edge)) (corners_of (at (S.complex now.now).faces f.0)) }
{
    now.corners(f, &mut buffer[..count]);
}

// Reads the rows of a face's corners into the front of a buffer.
fn read_rows<S: Shape>(buffer: &mut Vec<i64>, numbers: usize, f: FaceName, now: &S)
    requires there { IsThere (S.complex now.now).faces f.0 }
    requires linked { IsLinked (S.complex now.now) }
    requires numbers { numbers ≡ length (corners_of (at (S.complex now.now).faces f.0)) * width_of (S.complex now.now)
        Kind.Corners }
    requires room { numbers ≤ length buffer.old.items }
    ensures front { take numbers buffer.new.items
        ≡ flat_map (λ k. k.vals) (corners_of (at (S.complex now.now).faces f.0)) }
    ensures len { length buffer.new.items ≡ length buffer.old.items }
{
    fill_rows(buffer, numbers, f, now);
}

// Reads the rows of a face's corners into the front of a slice.
fn fill_rows<S: Shape>(buffer: &mut [i64], numbers: usize, f: FaceName, now: &S)
    requires there { IsThere (S.complex now.now).faces f.0 }
    requires numbers { numbers ≡ length (corners_of (at (S.complex now.now).faces f.0)) * width_of (S.complex now.now)
        Kind.Corners }
    requires room { numbers ≤ length buffer.old }
    requires linked { IsLinked (S.complex now.now) }
    ensures { take numbers buffer.new ≡ flat_map (λ k. k.vals) (corners_of (at (S.complex now.now).faces f.0)) }
{
    now.corner_rows(f, &mut buffer[..numbers]);
}

// Puts corners and their rows at the end, or leaves all as before.
fn store(
    pairs: &mut Vec<(VertName, EdgeName)>,
    more_pairs: &[(VertName, EdgeName)],
    values: &mut Vec<i64>,
    more_values: &[i64],
) -> Result<(), NoMemory>
    ensures pairs { pairs.new.items ≡ (if is_ok result then pairs.old.items ++ more_pairs.now else pairs.old.items) }
    ensures values { values.new.items
        ≡ (if is_ok result then values.old.items ++ more_values.now else values.old.items) }
    ensures pairs_len { OnOk result (vec_len pairs.new ≡ vec_len pairs.old + length more_pairs.now) }
    ensures values_len { OnOk result (vec_len values.new ≡ vec_len values.old + length more_values.now) }
    ensures err { OnErr result ((vec_len pairs.new ≡ vec_len pairs.old) × (vec_len values.new ≡ vec_len values.old)) }
    ensures succeeds { vec_len pairs.old + length more_pairs.now ≤ vec_capacity pairs.old
        → vec_len values.old + length more_values.now ≤ vec_capacity values.old → IsOk result }
    ensures pairs_hold { OnOk result (vec_len pairs.old + length more_pairs.now ≤ vec_capacity pairs.new) }
    ensures values_hold { OnOk result (vec_len values.old + length more_values.now ≤ vec_capacity values.new) }
    ensures pair_room { vec_capacity pairs.old ≤ vec_capacity pairs.new }
    ensures value_room { vec_capacity values.old ≤ vec_capacity values.new }
{
    pairs.reserve(more_pairs.len())?;
    values.reserve(more_values.len())?;
    pairs.extend_from_slice(more_pairs)?;
    values.extend_from_slice(more_values)?;
    Ok(())
}

// Whether a part of a list of corners equals the front of another one.
fn same_pairs_at(
    all: &[(VertName, EdgeName)],
    from: usize,
    count: usize,
    other: &[(VertName, EdgeName)],
) -> bool
    requires within { from + count ≤ length all.now }
    requires holds { count ≤ length other.now }
    ensures { result ≡ true ↔ (take count (drop from all.now) ≡ take count other.now) }
{
    same_pairs(&all[from..][..count], &other[..count])
}

// Whether a part of a list of numbers equals the front of another one.
fn same_numbers_at(all: &[i64], from: usize, count: usize, other: &[i64]) -> bool
    requires within { from + count ≤ length all.now }
    requires holds { count ≤ length other.now }
    ensures { result ≡ true ↔ (take count (drop from all.now) ≡ take count other.now) }
{
    same_numbers(&all[from..][..count], &other[..count])
}

// Whether two lists of corners are equal.
fn same_pairs(a: &[(VertName, EdgeName)], b: &[(VertName, EdgeName)]) -> bool
    requires { length a.now ≡ length b.now }
    ensures { result ≡ true ↔ (a.now ≡ b.now) }
{
    a == b
}

// Whether two lists of numbers are equal.
fn same_numbers(a: &[i64], b: &[i64]) -> bool
    requires { length a.now ≡ length b.now }
    ensures { result ≡ true ↔ (a.now ≡ b.now) }
{
    a == b
}
