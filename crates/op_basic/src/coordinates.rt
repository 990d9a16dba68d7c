//! Coordinates of moved points.
ghost use Rattle.std.specs.Prelude.{◌≡◌, ◌≤◌, ◌+ℤ◌, ◌-ℤ◌, ◌*ℤ◌, ◌<ℤ◌, pos, unsigned_abs, IsTrue, Some, None, if◌then◌else◌};
ghost use Rattle.cust_data.specs.Mixing.{floor_div};
ghost use Rattle.mesh_model.specs.Valid.{is_in_range};
ghost use Rattle.op_basic.specs.Coordinates.{point_of};
ghost use Rattle.op_basic.specs.Motions.{is_ratio, scaled};

use mesh_core::Point;

/// A coordinate moved by as much, if it is on the grid then.
pub(crate) fn shifted(c: i64, by: i64) -> Option<i64>
    requires { IsTrue (is_in_range c) }
    ensures { result ≡ (if is_in_range (c +ℤ by) then Some (c +ℤ by) else None) }
{
    in_range(c as i128 + by as i128)
}

/// A coordinate as far on the other side of a plane, if it is on the grid then.
pub(crate) fn mirrored(c: i64, about: i64) -> Option<i64>
    requires coordinate { IsTrue (is_in_range c) }
    requires plane { IsTrue (is_in_range about) }
    ensures { result ≡ (if is_in_range (pos 2 *ℤ about -ℤ c) then Some (pos 2 *ℤ about -ℤ c) else None) }
{
    in_range(2 * about as i128 - c as i128)
}

/// A coordinate whose way from a point is scaled by a ratio, rounded down, if it is on the grid then.
pub(crate) fn scaled(c: i64, about: i64, num: i64, den: i64) -> Option<i64>
    requires coordinate { IsTrue (is_in_range c) }
    requires point { IsTrue (is_in_range about) }
    requires ratio { IsTrue (is_ratio num den) }
    ensures { result ≡ (if is_in_range (scaled num den about c) then Some (scaled num den about c) else None) }
{
    let step = stretched(c, about, num, den);
    in_range(about as i128 + step)
}

// The way from a point, times a ratio, rounded down: at most 2,000,000,000,000,000 in size.
fn stretched(c: i64, about: i64, num: i64, den: i64) -> i128
    requires coordinate { IsTrue (is_in_range c) }
    requires point { IsTrue (is_in_range about) }
    requires ratio { IsTrue (is_ratio num den) }
    ensures exact { result ≡ floor_div ((c -ℤ about) *ℤ num) den }
    ensures small { unsigned_abs result ≤ 2000000000000000 }
{
    let way = c as i128 - about as i128;
    floor_div(way * num as i128, den as i128)
}

// The quotient, rounded down.
fn floor_div(n: i128, d: i128) -> i128
    requires { pos 0 <ℤ d }
    ensures { result ≡ floor_div n d }
{
    n.div_euclid(d)
}

// A coordinate, if it is in range.
fn in_range(x: i128) -> Option<i64>
    ensures { result ≡ (if is_in_range x then Some x else None) }
{
    if -1_000_000_000 <= x && x <= 1_000_000_000 {
        Some(x as i64)
    } else {
        None
    }
}

/// Whether the numerator is at most a million in size, and the denominator is 1 to a million.
pub(crate) fn is_ratio(num: i64, den: i64) -> bool
    ensures { result ≡ is_ratio num den }
{
    (1 <= den && den <= 1_000_000) && (-1_000_000 <= num && num <= 1_000_000)
}

/// The point of three coordinates, where each is there.
pub(crate) fn point_of(x: Option<i64>, y: Option<i64>, z: Option<i64>) -> Option<Point>
    ensures { result ≡ point_of x y z }
{
    match (x, y, z) {
        (Some(x), Some(y), Some(z)) => Some(Point { x, y, z }),
        _ => None,
    }
}
