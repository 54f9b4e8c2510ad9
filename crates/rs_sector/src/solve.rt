//! The values at given points with given sums.
ghost use Rattle.std.specs.Prelude.{◌≡◌, ◌<◌, length, slice_index};
ghost use Rattle.rs_sector.specs.Locating.{AreApart, DividesOut, EliminatesFirst, Solves};

use crate::field::{inverse, mul};

// Puts in place of the sums the values at the points that have them.
pub(crate) fn solve(points: &[u8], sums: &mut [u8])
    requires long { length points.now ≡ length sums.old }
    requires apart { AreApart (λ k. slice_index points.now k) (length points.now) }
    ensures { Solves points.now sums.old sums.new }
{
    if points.len() > 1 {
        eliminate_first(points[0], sums);
        solve(&points[1..], &mut sums[1..]);
        divide_out(points, sums);
    }
}

// Eliminates the first point from all sums but the first.
fn eliminate_first(point: u8, sums: &mut [u8])
    requires { 0 < length sums.old }
    ensures { EliminatesFirst point sums.old sums.new }
{
    let mut before = sums[0];
    for j in 1..sums.len() {
        let kept = sums[j];
        sums[j] ^= mul(point, before);
        before = kept;
    }
}

// Divides the other values by the distance of their points from the first, and takes them from the first sum.
fn divide_out(points: &[u8], values: &mut [u8])
    requires some { 0 < length values.old }
    requires long { length points.now ≡ length values.old }
    requires apart { AreApart (λ k. slice_index points.now k) (length points.now) }
    ensures { DividesOut points.now values.old values.new }
{
    let first = points[0];
    for k in 1..values.len() {
        let value = mul(values[k], inverse(points[k] ^ first));
        values[k] = value;
        values[0] ^= value;
    }
}
