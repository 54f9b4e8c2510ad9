//! Sums of products in 16 lanes.
ghost use Rattle.std.specs.Prelude.{◌≡◌, ◌+◌, ◌*◌, ◌/◌, ◌<◌, ◌≤◌, length, map};
ghost use Rattle.rs_sector.specs.Field.{field_product};
ghost use Rattle.rs_sector.specs.Lanes.{combination_of, combination_of_first, AddsScaled, Eliminates, HoldBlocks, HoldChecks, HoldPowers};

use crate::field::{high_products, low_products};
use crate::tables::rows::{BLOCK_POWERS, CHECKS, POINT_POWERS};
use std::simd::prelude::*;

// The sum of the rows, each times its byte.
#[inline(always)]
pub(crate) fn combined(bytes: &[u8], rows: &[[u8; 16]]) -> [u8; 16]
    requires { length bytes.now ≤ length rows.now }
    ensures { result ≡ combination_of bytes.now rows.now }
{
    let mut sums = whole_fours(bytes, rows);
    for k in bytes.len() / 4 * 4..bytes.len() {
        sums = with_row(sums, bytes, rows, k);
    }
    sums.to_array()
}

// The sum of the rows up to the last whole four; four a turn, since a turn's own steps cost as much as a row's.
#[inline(always)]
fn whole_fours(bytes: &[u8], rows: &[[u8; 16]]) -> u8x16
    requires { length bytes.now ≤ length rows.now }
    ensures { result ≡ combination_of_first bytes.now rows.now (length bytes.now / 4 * 4) }
{
    let mut sums = u8x16::splat(0);
    for k in 0..bytes.len() / 4 {
        sums = with_row(sums, bytes, rows, 4 * k);
        sums = with_row(sums, bytes, rows, 4 * k + 1);
        sums = with_row(sums, bytes, rows, 4 * k + 2);
        sums = with_row(sums, bytes, rows, 4 * k + 3);
    }
    sums
}

// The sum of the first rows with the next one added, times its byte.
#[inline(always)]
fn with_row(sums: u8x16, bytes: &[u8], rows: &[[u8; 16]], k: usize) -> u8x16
    requires byte { k < length bytes.now }
    requires rows { length bytes.now ≤ length rows.now }
    requires sums { sums ≡ combination_of_first bytes.now rows.now k }
    ensures { result ≡ combination_of_first bytes.now rows.now (k + 1) }
{
    sums ^ scaled(bytes[k], u8x16::from_array(rows[k]))
}

#[inline(always)]
fn scaled(a: u8, lanes: u8x16) -> u8x16
    ensures { result ≡ map (λ x. field_product a x) lanes }
{
    let low = u8x16::from_array(low_products(a));
    let high = u8x16::from_array(high_products(a));
    low.swizzle_dyn(lanes & u8x16::splat(15)) ^ high.swizzle_dyn(lanes >> u8x16::splat(4))
}

// The powers of each place's point.
#[inline(always)]
pub(crate) fn point_powers() -> &'static [[u8; 16]; 148]
    ensures { HoldPowers result.now }
{
    &POINT_POWERS
}

// The check bytes that have one syndrome each.
#[inline(always)]
pub(crate) fn check_rows() -> &'static [[u8; 16]; 16]
    ensures { HoldChecks result.now }
{
    &CHECKS
}

// Adds the lanes, each times the factor.
pub(crate) fn add_scaled(to: &mut [u8; 16], factor: u8, lanes: &[u8; 16])
    ensures { AddsScaled to.old to.new factor lanes.now }
{
    *to = (u8x16::from_array(*to) ^ scaled(factor, u8x16::from_array(*lanes))).to_array();
}

// Eliminates a point from the sums: each becomes the next, plus the point times itself. The last one is lost.
pub(crate) fn eliminate(sums: &mut [u8; 16], point: u8)
    ensures { Eliminates sums.old sums.new point }
{
    let lanes = u8x16::from_array(*sums);
    *sums = (lanes.rotate_elements_left::<1>() ^ scaled(point, lanes)).to_array();
}

// The powers of 16 neighbouring places, a power a row.
#[inline(always)]
pub(crate) fn block_powers() -> &'static [[[u8; 16]; 9]; 10]
    ensures { HoldBlocks result.now }
{
    &BLOCK_POWERS
}
