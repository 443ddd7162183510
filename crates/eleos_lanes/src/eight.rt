// Eight blocks, as bytes and in planes of bits, and the rounds of AES on them.
ghost use Rattle.std.specs.Prelude.{◌≡◌, ℕ, ◌+◌, ◌*◌, ◌<◌, [], take, drop, slice_index};
ghost use Rattle.std.specs.Prelude.{slice_index_or};
ghost use Rattle.eleos_base.specs.AesState.{mix_columns, shift_rows, sub_bytes};
ghost use Rattle.eleos_lanes.specs.Planes.{add_block, block_at, plane_byte, vectors};

use crate::circuit::sub_planes;
use crate::gate::xor;
use crate::mirror::{from_planes, to_planes};
use crate::planes::{mix_planes, shift_planes};
use std::simd::prelude::*;

/// Eight vectors, as they stand one after another.
#[inline(always)]
fn vectors(bytes: &[u8; 128]) -> [u8x16; 8]
    ensures { result ≡ vectors bytes.now }
{
    [
        u8x16::from_slice(&bytes[0..]),
        u8x16::from_slice(&bytes[16..]),
        u8x16::from_slice(&bytes[32..]),
        u8x16::from_slice(&bytes[48..]),
        u8x16::from_slice(&bytes[64..]),
        u8x16::from_slice(&bytes[80..]),
        u8x16::from_slice(&bytes[96..]),
        u8x16::from_slice(&bytes[112..]),
    ]
}

/// The lanes of a vector.
#[inline(always)]
fn lanes_of(v: u8x16) -> [u8; 16]
    ensures lanes { result ≡ v }
    ensures fit { (i : ℕ) → slice_index v i < 256 }
{
    v.to_array()
}

/// Lays eight vectors one after another.
#[inline(always)]
fn lay(v: [u8x16; 8], bytes: &mut [u8; 128])
    ensures lanes { (k : ℕ) → k < 8
        → take 16 (drop (16 * k) bytes.new) ≡ slice_index_or v k [] }
    ensures fit { (k i : ℕ) → k < 8 → slice_index (slice_index_or v k []) i < 256 }
{
    for k in 0..8 {
        bytes[16 * k..16 * k + 16].copy_from_slice(&lanes_of(v[k]));
    }
}

/// Eight blocks into planes.
#[inline(always)]
pub fn planes_of(blocks: &[u8; 128]) -> [u8x16; 8]
    ensures { (b : ℕ) → b < 8 → block_at result b ≡ take 16 (drop (16 * b) blocks.now) }
{
    to_planes(vectors(blocks))
}

/// Eight blocks out of their planes.
#[inline(always)]
pub fn put_blocks(planes: [u8x16; 8], blocks: &mut [u8; 128])
    ensures { (b : ℕ) → b < 8 → take 16 (drop (16 * b) blocks.new) ≡ block_at planes b }
{
    lay(from_planes(planes), blocks);
}

/// The planes, one after another, that hold one block eight times.
pub fn spread(block: &[u8; 16]) -> [u8; 128]
    ensures { (b : ℕ) → b < 8 → block_at (vectors result) b ≡ block.now }
{
    let v = u8x16::from_array(*block);
    let mut planes = [0; 128];
    lay(to_planes([v, v, v, v, v, v, v, v]), &mut planes);
    planes
}

/// Adds a key's planes, which stand one after another.
#[inline(always)]
pub fn add_planes(v: [u8x16; 8], key: &[u8; 128]) -> [u8x16; 8]
    ensures { (b : ℕ) → b < 8
        → block_at result b ≡ add_block (block_at v b) (block_at (vectors key.now) b) }
{
    let [a0, a1, a2, a3, a4, a5, a6, a7] = v;
    let [k0, k1, k2, k3, k4, k5, k6, k7] = vectors(key);
    [
        xor(a0, k0),
        xor(a1, k1),
        xor(a2, k2),
        xor(a3, k3),
        xor(a4, k4),
        xor(a5, k5),
        xor(a6, k6),
        xor(a7, k7),
    ]
}

/// A round that mixes columns, on eight blocks.
#[inline(always)]
pub fn full_round(v: [u8x16; 8], key: &[u8; 128]) -> [u8x16; 8]
    ensures { (b : ℕ) → b < 8 → block_at result b
        ≡ add_block (mix_columns (shift_rows (sub_bytes (block_at v b))))
        (block_at (vectors key.now) b) }
{
    add_planes(mix_planes(shift_planes(sub_planes(v))), key)
}

/// The last round, on eight blocks.
#[inline(always)]
pub fn last_round(v: [u8x16; 8], key: &[u8; 128]) -> [u8x16; 8]
    ensures { (b : ℕ) → b < 8 → block_at result b
        ≡ add_block (shift_rows (sub_bytes (block_at v b))) (block_at (vectors key.now) b) }
{
    add_planes(shift_planes(sub_planes(v)), key)
}
