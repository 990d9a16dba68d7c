//! Mixing two numbers, and the mean of several.
ghost use Rattle.std.specs.Prelude.{◌≡◌, ◌<◌, ◌^◌, ◌*ℤ◌, pos, ◌≤ℤ◌, ◌<ℤ◌, length, unsigned_abs};
ghost use Rattle.cust_data.specs.Mixing as mixing;

use crate::rule::Rule;

/// The number that lies `num / den` of the way from `a` to `b`, rounded towards minus infinity.
///
/// `num` is between 0 and `den`, and `den` is at least 1. The result lies between `a` and `b`. Takes constant time.
pub fn mix(a: i64, b: i64, num: i64, den: i64) -> i64
    requires from { pos 0 ≤ℤ num }
    requires until { num ≤ℤ den }
    requires parts { pos 0 <ℤ den }
    ensures mixed { result ≡ mixing.mix a b num den }
    ensures between { mixing.IsBetween a b result }
{
    let (a, b) = (i128::from(a), i128::from(b));
    let step = share(b - a, i128::from(num), i128::from(den));
    (a + step) as i64
}

// The part `num / den` of a number, rounded towards minus infinity.
fn share(whole: i128, num: i128, den: i128) -> i128
    requires small { unsigned_abs whole < 2 ^ 64 }
    requires from { pos 0 ≤ℤ num }
    requires until { num ≤ℤ den }
    requires parts { pos 0 <ℤ den }
    requires few { den <ℤ pos 9223372036854775808 }
    ensures part { result ≡ mixing.floor_div (whole *ℤ num) den }
    ensures between { mixing.IsBetween (pos 0) whole result }
{
    floor_div(whole * num, den)
}

// The quotient, rounded towards minus infinity.
fn floor_div(n: i128, d: i128) -> i128
    requires { pos 0 <ℤ d }
    ensures { result ≡ mixing.floor_div n d }
{
    n.div_euclid(d)
}

/// The mean of numbers of a layer: their sum by their count, rounded towards minus infinity, or for the rule `Copy` the
/// first of them.
///
/// There is at least one number. Takes time in proportion to their count.
pub fn mean(rule: Rule, values: &[i64]) -> i64
    requires { 0 < length values.now }
    ensures { result ≡ mixing.mean rule values.now }
{
    match rule {
        Rule::Mix => floor_mean(values),
        Rule::Copy => values[0],
    }
}

// The sum by the count, rounded towards minus infinity.
fn floor_mean(values: &[i64]) -> i64
    requires { 0 < length values.now }
    ensures { result ≡ mixing.floor_div (mixing.int_sum values.now) (pos (length values.now)) }
{
    let count = values.len() as i128;
    let mut sum = 0i128;
    for value in values {
        sum += i128::from(*value);
    }
    floor_div(sum, count) as i64
}
