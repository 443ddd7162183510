// Kernels on bytes.
ghost use Rattle.std.specs.Prelude.{◌≡◌, ◌≢◌, ◌↔◌, ℕ, ◌+◌, ◌*◌, ◌%◌, ◌≤◌, length, take, drop};
ghost use Rattle.std.specs.Prelude.{bit_xor, map, IsTrue};
ghost use Rattle.std.specs.Simd.Lanes.{zip2};
ghost use Rattle.eleos_base.specs.SBox.{s_box};
ghost use Rattle.eleos_base.specs.AesState.{mix_columns};

use crate::circuit::sub_planes;
use crate::eight::{planes_of, put_blocks};
use crate::planes::mix_planes;
use std::simd::prelude::*;

/// Adds each byte of `from` to the one at the same place.
pub fn xor_into(into: &mut [u8], from: &[u8])
    requires { length into.old ≡ length from.now }
    ensures { into.new ≡ zip2 bit_xor into.old from.now }
{
    let n = from.len();
    let mut at = 0;
    while n - at >= 64 {
        let v = u8x64::from_slice(&into[at..]) ^ u8x64::from_slice(&from[at..]);
        v.copy_to_slice(&mut into[at..]);
        at += 64;
    }
    while at < n {
        into[at] ^= from[at];
        at += 1;
    }
}

/// Whether two tags differ, found in the same steps wherever they do.
pub fn differs(a: &[u8; 16], b: &[u8; 16]) -> bool
    ensures { IsTrue result ↔ (a.now ≢ b.now) }
{
    (u8x16::from_array(*a) ^ u8x16::from_array(*b)).reduce_or() != 0
}

/// Bytes that have room in eight blocks, by the S-box.
fn sub_part(part: &mut [u8])
    requires { length part.old ≤ 128 }
    ensures { part.new ≡ map s_box part.old }
{
    let size = part.len();
    let mut blocks = [0; 128];
    blocks[..size].copy_from_slice(part);
    put_blocks(sub_planes(planes_of(&blocks)), &mut blocks);
    part.copy_from_slice(&blocks[..size]);
}

/// Each byte by the S-box, 128 at a time.
pub fn sub_bytes(bytes: &mut [u8])
    ensures { bytes.new ≡ map s_box bytes.old }
{
    let len = bytes.len();
    let mut at = 0;
    while at < len {
        let end = (len - at).min(128) + at;
        sub_part(&mut bytes[at..end]);
        at = end;
    }
}

/// The columns of up to eight states, each times the matrix.
fn mix_part(part: &mut [u8])
    requires { length part.old ≤ 128 }
    ensures { (b : ℕ) → 16 * b + 16 ≤ length part.old
        → take 16 (drop (16 * b) part.new) ≡ mix_columns (take 16 (drop (16 * b) part.old)) }
{
    let size = part.len();
    let mut blocks = [0; 128];
    blocks[..size].copy_from_slice(part);
    put_blocks(mix_planes(planes_of(&blocks)), &mut blocks);
    part.copy_from_slice(&blocks[..size]);
}

/// The columns of states of 16 bytes, one after another, each times the matrix: eight states at a
/// time.
pub fn mix_columns(states: &mut [u8])
    requires { length states.old % 16 ≡ 0 }
    ensures { (b : ℕ) → 16 * b + 16 ≤ length states.old
        → take 16 (drop (16 * b) states.new) ≡ mix_columns (take 16 (drop (16 * b) states.old)) }
{
    let len = states.len();
    let mut at = 0;
    while at < len {
        let size = (len - at).min(128);
        mix_part(&mut states[at..at + size]);
        at += size;
    }
}
