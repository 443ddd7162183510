// The hash subkey's powers, and the hash of blocks by them.
ghost use Rattle.std.specs.Prelude.{◌≡◌, ◌^◌, ◌<◌, ℕ, bit_xor};
ghost use Rattle.std.specs.Simd.Lanes.{zip2};
ghost use Rattle.eleos_base.specs.BlockField.{power, product, number_of};
ghost use Rattle.eleos_base.specs.Ghash.{blocks, sum_of_powers};
ghost use Rattle.eleos_lanes.specs.Rows.{row};

use crate::field::lanes;
use crate::rows::{Rows, reduced, step};
use std::marker::Model;
use std::simd::prelude::*;

/// The rows of a hash subkey and of its second, third and fourth power.
#[derive(Drop)]
pub struct Powers {
    first: Rows,
    second: Rows,
    third: Rows,
    fourth: Rows,
}

impl Model for Powers {
    ghost use Rattle.std.specs.Prelude.{ℕ};
    ghost use Rattle.eleos_lanes.specs.Rows.{ArePowers};

    ghost Value = { ℕ };

    ghost view = { λ p. p.first };

    ghost invariant = { λ p. ArePowers p.first p.second p.third p.fourth };
}

impl Powers {
    pub fn of(h: u128) -> Powers
        ensures { result ≡ h }
    {
        let first = Rows::of(h);
        let square = first.product(lanes(h));
        let cube = first.product(lanes(square));
        let fourth = first.product(lanes(cube));
        Powers {
            first,
            second: Rows::of(square),
            third: Rows::of(cube),
            fourth: Rows::of(fourth),
        }
    }

    /// The hash after one more block, from the hash so far.
    pub fn absorb(&self, sum: u128, block: &[u8; 16]) -> u128
        ensures fits { self.now < 2 ^ 128 }
        ensures hash { result ≡ product (bit_xor sum (number_of block.now)) self.now }
    {
        self.first.product(u8x16::from_array(*block) ^ lanes(sum))
    }

    /// A row of the sum of four products, with the highest power first.
    #[inline(always)]
    fn rows(&self, j: usize, a: u8x16, b: u8x16, c: u8x16, d: u8x16) -> u8x16
        requires { j < 16 }
        ensures fits { self.now < 2 ^ 128 }
        ensures row { result ≡ zip2 bit_xor
            (zip2 bit_xor (row (power self.now 4) j a) (row (power self.now 3) j b))
            (zip2 bit_xor (row (power self.now 2) j c) (row (power self.now 1) j d)) }
    {
        (self.fourth.row(j, a) ^ self.third.row(j, b))
            ^ (self.second.row(j, c) ^ self.first.row(j, d))
    }

    /// The sum of four blocks' products with the powers, the first with the fourth.
    #[inline(always)]
    fn products(&self, a: u8x16, b: u8x16, c: u8x16, d: u8x16) -> u128
        ensures fits { self.now < 2 ^ 128 }
        ensures sum { result ≡ bit_xor
            (bit_xor (product (number_of a) (power self.now 4))
            (product (number_of b) (power self.now 3)))
            (bit_xor (product (number_of c) (power self.now 2))
            (product (number_of d) (power self.now 1))) }
    {
        let mut front = u8x16::splat(0);
        let mut back = u8x16::splat(0);
        for j in 0..16 {
            let (next, behind) = step(front, back, self.rows(15 - j, a, b, c, d));
            front = next;
            back = behind;
        }
        reduced(front, back)
    }

    /// The hash after four more blocks, from the hash so far.
    pub fn absorb_four(&self, sum: u128, bytes: &[u8; 64]) -> u128
        ensures fits { self.now < 2 ^ 128 }
        ensures hash { result
            ≡ bit_xor (product sum (power self.now 4))
            (sum_of_powers self.now (blocks 4 bytes.now)) }
    {
        self.products(
            u8x16::from_slice(&bytes[0..]) ^ lanes(sum),
            u8x16::from_slice(&bytes[16..]),
            u8x16::from_slice(&bytes[32..]),
            u8x16::from_slice(&bytes[48..]),
        )
    }
}
