// The cipher.
ghost use Rattle.std.specs.Prelude.{◌≡◌, ◌↔◌, ℕ, ◌+◌, ◌*◌, ◌/◌, ◌<◌, ◌≤◌, List, length, IfOk};
ghost use Rattle.std.specs.Prelude.{IsErr, IsTrue, slice_range, take, drop};
ghost use Rattle.eleos_base.specs.AesKey.{IsKeyLength};
ghost use Rattle.eleos_base.specs.AesCipher.{aes, last_round, rounds};
ghost use Rattle.eleos_lanes.specs.Planes.{block_at};
ghost use Rattle.eleos_aes.specs.Sliced.{HasKeys, key_block};

use crate::words::{MAX_WORDS, expanded};
use eleos_lanes::{add_planes, full_round, last_round, planes_of, put_blocks, spread};
use std::marker::Model;
use std::simd::prelude::*;

/// How many round keys the longest key expands to.
const MAX_KEYS: usize = 15;

/// A key has 16, 24 or 32 bytes.
#[derive(Clone, Copy, Debug, PartialEq, Eq, thiserror::Error)]
#[error("a key has 16, 24 or 32 bytes")]
pub struct BadKeyLength;

/// The cipher under one key, which is expanded once: each round key in planes of bits, eight times
/// side by side.
#[derive(Drop)]
pub struct Aes {
    /// The words of the key itself: 4, 6 or 8.
    key_words: usize,
    words: [[u8; 4]; MAX_WORDS],
    keys: [[u8; 128]; MAX_KEYS],
}

impl Model for Aes {
    ghost use Rattle.std.specs.Prelude.{List, ℕ};
    ghost use Rattle.eleos_aes.specs.Expanded.{key_of, IsExpanded};
    ghost use Rattle.eleos_aes.specs.Sliced.{HasKeys};

    ghost Value = { List ℕ };

    ghost view = { λ a. key_of a.key_words a.words };

    ghost invariant = { λ a. IsExpanded a.key_words a.words × HasKeys a.words a.keys };
}

fn is_key_length(len: usize) -> bool
    ensures { IsTrue result ↔ IsKeyLength len }
{
    len == 16 || len == 24 || len == 32
}

/// The bytes of round key `n`, by columns.
fn key_block(words: &[[u8; 4]; MAX_WORDS], n: usize) -> [u8; 16]
    requires { n < MAX_KEYS }
    ensures { result ≡ key_block words.now n }
{
    let [a, b, c, d] = words[4 * n];
    let [e, f, g, h] = words[4 * n + 1];
    let [i, j, k, l] = words[4 * n + 2];
    let [m, n, o, p] = words[4 * n + 3];
    [a, b, c, d, e, f, g, h, i, j, k, l, m, n, o, p]
}

/// The planes of the round keys.
fn round_keys(words: &[[u8; 4]; MAX_WORDS]) -> [[u8; 128]; MAX_KEYS]
    ensures { HasKeys words.now result }
{
    let mut keys = [[0; 128]; MAX_KEYS];
    'keys: for n in 0..MAX_KEYS {
        keys[n] = spread(&key_block(words, n));
    }
    keys
}

/// The cipher on eight blocks, with an expanded key.
fn encrypt_by(keys: &[[u8; 128]; MAX_KEYS], key_words: usize, blocks: &mut [u8; 128])
    requires { key_words ≤ 8 }
    ensures { (words : List (List ℕ)) (b : ℕ) → HasKeys words keys.now → b < 8
        → take 16 (drop (16 * b) blocks.new)
        ≡ last_round words (rounds words (take 16 (drop (16 * b) blocks.old)) (key_words + 5))
        (key_words + 6) }
{
    let mut planes = add_planes(planes_of(blocks), &keys[0]);
    'rounds: for round in 0..key_words + 5 {
        let next = full_round(planes, &keys[round + 1]);
        planes = next;
    }
    put_blocks(last_round(planes, &keys[key_words + 6]), blocks);
}

impl Aes {
    pub fn new(key: &[u8]) -> Result<Aes, BadKeyLength>
        ensures ok { IfOk result (λ cipher. cipher ≡ key.now) }
        ensures refused { IsErr result ↔ ¬ IsKeyLength (length key.now) }
    {
        if !is_key_length(key.len()) {
            return Err(BadKeyLength);
        }
        let words = expanded(key);
        Ok(Aes {
            key_words: key.len() / 4,
            words,
            keys: round_keys(&words),
        })
    }

    /// Encrypts a block, in the time of eight.
    pub fn encrypt(&self, block: &mut [u8; 16])
        ensures { block.new ≡ aes self.now block.old }
    {
        self.encrypt_front(block);
    }

    /// Encrypts four blocks, in the time of eight.
    pub fn encrypt_four(&self, blocks: &mut [u8; 64])
        ensures { (i : ℕ) → i < 4 → slice_range blocks.new (16 * i) (16 * i + 16)
            ≡ aes self.now (slice_range blocks.old (16 * i) (16 * i + 16)) }
    {
        self.encrypt_front(blocks);
    }

    /// Encrypts up to eight blocks, in the time of eight.
    fn encrypt_front(&self, blocks: &mut [u8])
        requires { length blocks.old ≤ 128 }
        ensures { (i : ℕ) → 16 * i + 16 ≤ length blocks.old → take 16 (drop (16 * i) blocks.new)
            ≡ aes self.now (take 16 (drop (16 * i) blocks.old)) }
    {
        let size = blocks.len();
        let mut eight = [0; 128];
        eight[..size].copy_from_slice(blocks);
        self.encrypt_eight(&mut eight);
        blocks.copy_from_slice(&eight[..size]);
    }

    /// Encrypts eight blocks.
    pub fn encrypt_eight(&self, blocks: &mut [u8; 128])
        ensures { (i : ℕ) → i < 8 → take 16 (drop (16 * i) blocks.new)
            ≡ aes self.now (take 16 (drop (16 * i) blocks.old)) }
    {
        encrypt_by(&self.keys, self.key_words, blocks);
    }
}
