// GHASH.
ghost use Rattle.std.specs.Prelude.{◌≡◌, ◌+◌, ◌*◌, ◌%◌, ◌/◌, ◌^◌, ◌<◌, ◌≤◌, ◌++◌, length, take};
ghost use Rattle.std.specs.Prelude.{drop};
ghost use Rattle.std.specs.Int.{w64, to_be_bytes};
ghost use Rattle.eleos_base.specs.BlockField.{block_of, number_of};
ghost use Rattle.eleos_base.specs.Ghash.{blocks, ghash, sum_of_powers};
ghost use Rattle.eleos_base.specs.Gcm.{block_count, hashed, padded};
ghost use Rattle.eleos_gcm.specs.Horner.{horner};

use crate::field::{block_of, number_of};
use eleos_base::LONGEST_SEALED;
use eleos_lanes::Powers;

/// How many blocks `len` bytes have, with a short one at the end.
pub(crate) fn block_count(len: usize) -> usize
    ensures { result ≡ block_count len }
{
    if len % 16 == 0 {
        len / 16
    } else {
        len / 16 + 1
    }
}

/// The block from `at` on, with zeros past the end.
fn block_at(bytes: &[u8], at: usize) -> [u8; 16]
    requires within { at < length bytes.now }
    requires whole { at % 16 ≡ 0 }
    ensures { result ≡ take 16 (drop at (padded bytes.now)) }
{
    let rest = &bytes[at..];
    let size = rest.len().min(16);
    let mut block = [0; 16];
    block[..size].copy_from_slice(&rest[..size]);
    block
}

/// The four blocks from `at` on.
fn four_at(bytes: &[u8], at: usize) -> [u8; 64]
    requires { at + 64 ≤ length bytes.now }
    ensures { result ≡ take 64 (drop at bytes.now) }
{
    let mut four = [0; 64];
    four.copy_from_slice(&bytes[at..at + 64]);
    four
}

/// Hashes the padded bytes after blocks whose hash is `start`: four blocks at a time, and then the
/// others.
fn hash_from(powers: &Powers, start: u128, bytes: &[u8]) -> u128
    ensures fits { 0 < length bytes.now → powers.now < 2 ^ 128 }
    ensures hash { result
        ≡ horner powers.now start (blocks (block_count (length bytes.now)) (padded bytes.now)) }
{
    let mut sum = start;
    'fours: for i in 0..bytes.len() / 64 {
        sum = powers.absorb_four(sum, &four_at(bytes, 64 * i));
    }
    'others: for i in 4 * (bytes.len() / 64)..block_count(bytes.len()) {
        sum = powers.absorb(sum, &block_at(bytes, 16 * i));
    }
    sum
}

/// The hash of whole blocks under a hash subkey.
pub fn ghash(h: &[u8; 16], bytes: &[u8]) -> [u8; 16]
    requires { length bytes.now % 16 ≡ 0 }
    ensures { result ≡ ghash h.now bytes.now }
{
    block_of(hash_from(&Powers::of(number_of(h)), 0, bytes))
}

/// The lengths in bits, in 8 bytes each.
fn lengths(aad: u64, ciphertext: u64) -> [u8; 16]
    requires aad_fits { aad ≤ LONGEST_SEALED }
    requires ciphertext_fits { ciphertext ≤ LONGEST_SEALED }
    ensures { result ≡ to_be_bytes w64 (8 * aad) ++ to_be_bytes w64 (8 * ciphertext) }
{
    let mut block = [0; 16];
    block[..8].copy_from_slice(&(8 * aad).to_be_bytes());
    block[8..].copy_from_slice(&(8 * ciphertext).to_be_bytes());
    block
}

/// The hash from which the tag is made.
pub(crate) fn hash_for_tag(powers: &Powers, aad: &[u8], ciphertext: &[u8]) -> [u8; 16]
    requires aad_fits { length aad.now ≤ LONGEST_SEALED }
    requires ciphertext_fits { length ciphertext.now ≤ LONGEST_SEALED }
    ensures { let bytes = hashed aad.now ciphertext.now in
        result ≡ block_of (sum_of_powers powers.now (blocks (length bytes / 16) bytes)) }
{
    let sum = hash_from(powers, 0, aad);
    let sum = hash_from(powers, sum, ciphertext);
    let block = lengths(aad.len() as u64, ciphertext.len() as u64);
    block_of(hash_from(powers, sum, &block))
}
