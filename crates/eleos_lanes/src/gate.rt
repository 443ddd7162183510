// Gates: an operation on each bit of each lane.
ghost use Rattle.std.specs.Prelude.{◌≡◌, ℕ, ◌<◌};
ghost use Rattle.eleos_lanes.specs.Planes.{both, differ, lane_bit};

use std::simd::prelude::*;

#[inline(always)]
pub(crate) fn xor(a: u8x16, b: u8x16) -> u8x16
    ensures { (i j : ℕ) → i < 16 → lane_bit result i j ≡ differ (lane_bit a i j) (lane_bit b i j) }
{
    a ^ b
}

#[inline(always)]
pub(crate) fn and(a: u8x16, b: u8x16) -> u8x16
    ensures { (i j : ℕ) → i < 16 → lane_bit result i j ≡ both (lane_bit a i j) (lane_bit b i j) }
{
    a & b
}

#[inline(always)]
pub(crate) fn complement(a: u8x16) -> u8x16
    ensures { (i j : ℕ) → i < 16 → j < 8 → lane_bit result i j ≡ differ (lane_bit a i j) 1 }
{
    a ^ u8x16::splat(0xff)
}
