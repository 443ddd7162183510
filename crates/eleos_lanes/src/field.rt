// The field of GCM, on blocks as numbers.
ghost use Rattle.std.specs.Prelude.{◌≡◌, ◌<◌, bit_xor, length};
ghost use Rattle.eleos_base.specs.BlockField.{block_of, number_of, times_bits, times_power_of_x};
ghost use Rattle.eleos_base.specs.BlockField.{times_x, where_set};
ghost use Rattle.eleos_lanes.specs.Rows.{value};

use std::simd::prelude::*;

/// The lanes of a number, its highest byte first.
#[inline(always)]
pub(crate) fn lanes(number: u128) -> u8x16
    ensures { result ≡ block_of number }
{
    let high = (number >> 64) as u64;
    let low = (number & 0xffff_ffff_ffff_ffff) as u64;
    u64x2::from_array([high.swap_bytes(), low.swap_bytes()]).to_le_bytes()
}

/// The number of a block in lanes.
#[inline(always)]
pub(crate) fn number(block: u8x16) -> u128
    ensures is { result ≡ number_of block }
    ensures value { result ≡ value block }
    ensures long { length block ≡ 16 }
{
    u128::from_be_bytes(block.to_array())
}

/// R: 11100001 and 120 zero bits.
const REDUCTION: u128 = 0xe1 << 120;

/// `v` where the bit is 1, else 0.
#[inline(always)]
fn where_set(bit: u128, v: u128) -> u128
    requires { bit < 2 }
    ensures { result ≡ where_set bit v }
{
    v & 0u128.wrapping_sub(bit)
}

#[inline(always)]
fn times_x(v: u128) -> u128
    ensures { result ≡ times_x v }
{
    (v >> 1) ^ where_set(v & 1, REDUCTION)
}

/// `h` times x^4.
pub(crate) fn times_x4(h: u128) -> u128
    ensures { result ≡ times_power_of_x 4 h }
{
    times_x(times_x(times_x(times_x(h))))
}

/// The product of four bits, the highest of which is the coefficient of x^0, and `h`.
pub(crate) fn multiple(h: u128, bits: u8) -> u128
    ensures { result ≡ times_bits 4 bits h }
{
    let h1 = times_x(h);
    let h2 = times_x(h1);
    let h3 = times_x(h2);
    let n = u128::from(bits);
    where_set((n >> 3) & 1, h)
        ^ (where_set((n >> 2) & 1, h1) ^ (where_set((n >> 1) & 1, h2) ^ where_set(n & 1, h3)))
}

/// `high` plus x^128 times `low`.
#[inline(always)]
pub(crate) fn remainder(high: u128, low: u128) -> u128
    ensures { result ≡ bit_xor high (times_power_of_x 128 low) }
{
    let folded = low ^ (low << 127) ^ (low << 126) ^ (low << 121);
    high ^ (folded ^ (folded >> 1) ^ (folded >> 2) ^ (folded >> 7))
}
