// Blocks of bytes into planes of bits and back: in each lane a square of eight by eight bits is
// mirrored.
ghost use Rattle.std.specs.Prelude.{◌≡◌, ℕ, ◌+◌, ◌-◌, ◌<◌, cond, eqb, ltb};
ghost use Rattle.std.specs.Int.{bit_at};
ghost use Rattle.eleos_lanes.specs.Planes.{lane_bit, lane_of, plane_bit};

use std::simd::prelude::*;

/// Exchanges the bits of `b` that `mask` shows with the bits of `a` that stand `by` higher.
#[inline(always)]
fn exchange(a: u8x16, b: u8x16, by: u8, mask: u8) -> (u8x16, u8x16)
    requires { by < 8 }
    ensures first { (i j : ℕ) → i < 16 → j < 8
        → lane_bit result.0 i j ≡ cond (ltb j by) (lane_bit a i j)
        (cond (eqb (bit_at mask (j - by)) 1) (lane_bit b i (j - by)) (lane_bit a i j)) }
    ensures second { (i j : ℕ) → i < 16 → j < 8
        → lane_bit result.1 i j
        ≡ cond (eqb (bit_at mask j) 1) (lane_bit a i (by + j)) (lane_bit b i j) }
{
    let change = ((a >> u8x16::splat(by)) ^ b) & u8x16::splat(mask);
    (a ^ (change << u8x16::splat(by)), b ^ change)
}

/// Bit b of lane i of vector k and bit k of lane i of vector b change places.
#[inline(always)]
fn mirrored(v: [u8x16; 8]) -> [u8x16; 8]
    ensures { (b k i : ℕ) → b < 8 → k < 8 → i < 16 → plane_bit result b i k ≡ plane_bit v k i b }
{
    let [a0, a1, a2, a3, a4, a5, a6, a7] = v;
    let (b0, b1) = exchange(a0, a1, 1, 0x55);
    let (b2, b3) = exchange(a2, a3, 1, 0x55);
    let (b4, b5) = exchange(a4, a5, 1, 0x55);
    let (b6, b7) = exchange(a6, a7, 1, 0x55);
    let (c0, c2) = exchange(b0, b2, 2, 0x33);
    let (c1, c3) = exchange(b1, b3, 2, 0x33);
    let (c4, c6) = exchange(b4, b6, 2, 0x33);
    let (c5, c7) = exchange(b5, b7, 2, 0x33);
    let (d0, d4) = exchange(c0, c4, 4, 0x0f);
    let (d1, d5) = exchange(c1, c5, 4, 0x0f);
    let (d2, d6) = exchange(c2, c6, 4, 0x0f);
    let (d3, d7) = exchange(c3, c7, 4, 0x0f);
    [d0, d1, d2, d3, d4, d5, d6, d7]
}

/// Lanes by rows in place of by columns, or by columns in place of by rows.
#[inline(always)]
fn turned_over(v: u8x16) -> u8x16
    ensures { (i j : ℕ) → i < 16 → lane_bit result i j ≡ lane_bit v (lane_of i) j }
{
    v.swizzle([0, 4, 8, 12, 1, 5, 9, 13, 2, 6, 10, 14, 3, 7, 11, 15])
}

#[inline(always)]
fn all_turned_over(v: [u8x16; 8]) -> [u8x16; 8]
    ensures { (b k i : ℕ) → b < 8 → k < 8 → i < 16
        → plane_bit result b i k ≡ plane_bit v b (lane_of i) k }
{
    let [a0, a1, a2, a3, a4, a5, a6, a7] = v;
    [
        turned_over(a0),
        turned_over(a1),
        turned_over(a2),
        turned_over(a3),
        turned_over(a4),
        turned_over(a5),
        turned_over(a6),
        turned_over(a7),
    ]
}

/// The planes of eight blocks.
#[inline(always)]
pub(crate) fn to_planes(blocks: [u8x16; 8]) -> [u8x16; 8]
    ensures { (b k i : ℕ) → b < 8 → k < 8 → i < 16
        → plane_bit result b (lane_of i) k ≡ plane_bit blocks k i b }
{
    all_turned_over(mirrored(blocks))
}

/// The eight blocks in planes.
#[inline(always)]
pub(crate) fn from_planes(planes: [u8x16; 8]) -> [u8x16; 8]
    ensures { (b k i : ℕ) → b < 8 → k < 8 → i < 16
        → plane_bit planes b (lane_of i) k ≡ plane_bit result k i b }
{
    mirrored(all_turned_over(planes))
}
