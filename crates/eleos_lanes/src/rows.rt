// The rows of the products with a block, by four bits at a time.
ghost use Rattle.std.specs.Prelude.{◌≡◌, ℕ, ◌/◌, ◌%◌, ◌^◌, ◌<◌, [], ◌∷◌, ◌++◌, List, length};
ghost use Rattle.std.specs.Prelude.{bit_xor, map, slice_index, slice_index_or, take};
ghost use Rattle.std.specs.Simd.Lanes.{zip2};
ghost use Rattle.eleos_base.specs.BlockField.{block_of, product, number_of, times_bits};
ghost use Rattle.eleos_lanes.specs.Rows.{AreRows, row, value};

use crate::field::{lanes, multiple, number, remainder, times_x4};
use std::marker::Model;
use std::simd::prelude::*;

/// The products of the numbers of four bits and `h`.
fn multiples(h: u128) -> [[u8; 16]; 16]
    ensures { (n : ℕ) → n < 16 → slice_index_or result n [] ≡ block_of (times_bits 4 n h) }
{
    let mut products = [[0; 16]; 16];
    for n in 0u8..16 {
        products[usize::from(n)] = multiple(h, n).to_be_bytes();
    }
    products
}

/// Byte `j` of each.
fn column(products: &[[u8; 16]; 16], j: usize) -> [u8; 16]
    requires { j < 16 }
    ensures { (n : ℕ) → n < 16
        → slice_index result n ≡ slice_index (slice_index_or products.now n []) j }
{
    [
        products[0][j],
        products[1][j],
        products[2][j],
        products[3][j],
        products[4][j],
        products[5][j],
        products[6][j],
        products[7][j],
        products[8][j],
        products[9][j],
        products[10][j],
        products[11][j],
        products[12][j],
        products[13][j],
        products[14][j],
        products[15][j],
    ]
}

/// The rows of the products of four bits and `h`.
fn rows_of(h: u128) -> [[u8; 16]; 16]
    ensures { AreRows h result }
{
    let products = multiples(h);
    let mut rows = [[0; 16]; 16];
    for j in 0..16 {
        rows[j] = column(&products, j);
    }
    rows
}

/// The entry at the higher four bits of each byte.
#[inline(always)]
fn by_high(entries: &[u8; 16], x: u8x16) -> u8x16
    ensures { result ≡ map (λ b. slice_index entries.now (b / 16)) x }
{
    u8x16::from_array(*entries).swizzle_dyn(x >> u8x16::splat(4))
}

/// The entry at the lower four bits of each byte.
#[inline(always)]
fn by_low(entries: &[u8; 16], x: u8x16) -> u8x16
    ensures { result ≡ map (λ b. slice_index entries.now (b % 16)) x }
{
    u8x16::from_array(*entries).swizzle_dyn(x & u8x16::splat(15))
}

/// The rows of a block, which all are read whatever it is multiplied with.
#[derive(Drop)]
pub(crate) struct Rows {
    h: u128,
    high: [[u8; 16]; 16],
    low: [[u8; 16]; 16],
}

impl Model for Rows {
    ghost use Rattle.std.specs.Prelude.{ℕ};
    ghost use Rattle.eleos_lanes.specs.Rows.{HasRows};

    ghost Value = { ℕ };

    ghost view = { λ r. r.h };

    ghost invariant = { λ r. HasRows r.h r.high r.low };
}

impl Rows {
    pub(crate) fn of(h: u128) -> Rows
        ensures { result ≡ h }
    {
        Rows {
            h,
            high: rows_of(h),
            low: rows_of(times_x4(h)),
        }
    }

    /// Byte `j` of the product of each byte of `x` and the block.
    #[inline(always)]
    pub(crate) fn row(&self, j: usize, x: u8x16) -> u8x16
        requires { j < 16 }
        ensures row { result ≡ row self.now j x }
        ensures fits { self.now < 2 ^ 128 }
    {
        by_high(&self.high[j], x) ^ by_low(&self.low[j], x)
    }

    /// The product of a block and this one.
    #[inline(always)]
    pub(crate) fn product(&self, x: u8x16) -> u128
        ensures { result ≡ product (number_of x) self.now }
    {
        let mut front = u8x16::splat(0);
        let mut back = u8x16::splat(0);
        for j in 0..16 {
            let (next, behind) = step(front, back, self.row(15 - j, x));
            front = next;
            back = behind;
        }
        reduced(front, back)
    }
}

/// A sum of rows one byte further on, and a row: its first 16 bytes, and those that moved out.
#[inline(always)]
pub(crate) fn step(front: u8x16, back: u8x16, row: u8x16) -> (u8x16, u8x16)
    ensures long { (length front ≡ 16) × (length back ≡ 16) × (length row ≡ 16) }
    ensures front { result.0 ≡ zip2 bit_xor (0 ∷ take 15 front) row }
    ensures back { result.1 ≡ slice_index front 15 ∷ take 15 back }
{
    let moved = u8x16::splat(0).shuffle(
        front,
        [
            0, 16, 17, 18, 19, 20, 21, 22, 23, 24, 25, 26, 27, 28, 29, 30,
        ],
    );
    let behind = front.shuffle(
        back,
        [
            15, 16, 17, 18, 19, 20, 21, 22, 23, 24, 25, 26, 27, 28, 29, 30,
        ],
    );
    (moved ^ row, behind)
}

/// The 31 bytes of a sum, modulo the field's polynomial.
#[inline(always)]
pub(crate) fn reduced(front: u8x16, back: u8x16) -> u128
    ensures { result ≡ value (front ++ back) }
{
    remainder(number(front), number(back))
}
