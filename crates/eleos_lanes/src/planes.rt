// The transformations of AES on eight blocks in planes of bits.
ghost use Rattle.std.specs.Prelude.{◌≡◌, ℕ, ◌+◌, ◌*◌, ◌/◌, ◌%◌, ◌<◌, bit_xor};
ghost use Rattle.eleos_base.specs.AesState.{mix_columns, shift_rows};
ghost use Rattle.eleos_lanes.specs.Planes.{block_at, differ, lane_bit, plane_byte, turned};

use crate::gate::xor;
use std::simd::prelude::*;

/// The rows of a state, each turned left by its number.
#[inline(always)]
fn rows_shifted(v: u8x16) -> u8x16
    ensures { (i j : ℕ) → i < 16
        → lane_bit result i j ≡ lane_bit v (4 * (i / 4) + (i % 4 + i / 4) % 4) j }
{
    v.swizzle([0, 1, 2, 3, 5, 6, 7, 4, 10, 11, 8, 9, 15, 12, 13, 14])
}

#[inline(always)]
pub(crate) fn shift_planes(v: [u8x16; 8]) -> [u8x16; 8]
    ensures { (b : ℕ) → b < 8 → block_at result b ≡ shift_rows (block_at v b) }
{
    let [a0, a1, a2, a3, a4, a5, a6, a7] = v;
    [
        rows_shifted(a0),
        rows_shifted(a1),
        rows_shifted(a2),
        rows_shifted(a3),
        rows_shifted(a4),
        rows_shifted(a5),
        rows_shifted(a6),
        rows_shifted(a7),
    ]
}

/// Each column turned by one row.
#[inline(always)]
fn next_row(v: u8x16) -> u8x16
    ensures { (i j : ℕ) → i < 16 → lane_bit result i j ≡ lane_bit v (turned i 1) j }
{
    v.swizzle([4, 5, 6, 7, 8, 9, 10, 11, 12, 13, 14, 15, 0, 1, 2, 3])
}

/// Each column turned by two rows.
#[inline(always)]
fn second_row(v: u8x16) -> u8x16
    ensures { (i j : ℕ) → i < 16 → lane_bit result i j ≡ lane_bit v (turned i 2) j }
{
    v.swizzle([8, 9, 10, 11, 12, 13, 14, 15, 0, 1, 2, 3, 4, 5, 6, 7])
}

/// Each byte plus the next in its column, and the sum of the three others.
#[inline(always)]
fn column_sums(v: u8x16) -> (u8x16, u8x16)
    ensures pair { (i j : ℕ) → i < 16
        → lane_bit result.0 i j ≡ differ (lane_bit v i j) (lane_bit v (turned i 1) j) }
    ensures others { (i j : ℕ) → i < 16
        → lane_bit result.1 i j ≡ differ (lane_bit v (turned i 1) j)
        (differ (lane_bit v (turned i 2) j) (lane_bit v (turned i 3) j)) }
{
    let next = next_row(v);
    let pair = xor(v, next);
    (pair, xor(next, second_row(pair)))
}

/// Each column times the matrix: the pair of a byte and the next times x, plus the others.
#[inline(always)]
pub(crate) fn mix_planes(v: [u8x16; 8]) -> [u8x16; 8]
    ensures { (b : ℕ) → b < 8 → block_at result b ≡ mix_columns (block_at v b) }
{
    let [a0, a1, a2, a3, a4, a5, a6, a7] = v;
    let (s0, r0) = column_sums(a0);
    let (s1, r1) = column_sums(a1);
    let (s2, r2) = column_sums(a2);
    let (s3, r3) = column_sums(a3);
    let (s4, r4) = column_sums(a4);
    let (s5, r5) = column_sums(a5);
    let (s6, r6) = column_sums(a6);
    let (s7, r7) = column_sums(a7);
    [
        xor(s7, r0),
        xor(xor(s0, s7), r1),
        xor(s1, r2),
        xor(xor(s2, s7), r3),
        xor(xor(s3, s7), r4),
        xor(s4, r5),
        xor(s5, r6),
        xor(s6, r7),
    ]
}
