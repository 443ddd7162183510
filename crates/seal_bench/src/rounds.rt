//! The rounds.
ghost use Rattle.std.specs.Prelude.{◌≤◌, length};

use eleos_base::{LONGEST_SEALED, Sealer};
use eleos_gcm::Gcm;

/// The nonce of a round.
fn nonce(round: u64) -> [u8; 12] {
    let [a, b, c, d, e, f, g, h] = round.to_be_bytes();
    [0, 0, 0, 0, a, b, c, d, e, f, g, h]
}

/// Seals a text again and again, each time under a nonce of its own, and adds up the tags' first
/// bytes.
#[inline(never)]
pub fn seal_rounds(sealer: &Gcm, text: &mut [u8], rounds: u64) -> u64
    requires { length text.old ≤ LONGEST_SEALED }
{
    let mut sum = 0u64;
    for round in 0..rounds {
        let tag = sealer.seal(&nonce(round), &[], text);
        sum = sum.wrapping_add(u64::from(tag[0]));
    }
    sum
}

/// Seals a text and unseals it again and again, and counts how often it was let through.
#[inline(never)]
pub fn open_rounds(sealer: &Gcm, text: &mut [u8], rounds: u64) -> u64
    requires { length text.old ≤ LONGEST_SEALED }
{
    let mut passed = 0u64;
    for round in 0..rounds {
        let tag = sealer.seal(&nonce(round), &[], text);
        if sealer.unseal(&nonce(round), &[], text, &tag) {
            passed = passed.wrapping_add(1);
        }
    }
    passed
}

/// Seals a text again and again, each time by the sealer of another key, and adds up the tags'
/// first bytes.
#[inline(never)]
pub fn key_rounds(text: &mut [u8], rounds: u64) -> u64
    requires { length text.old ≤ LONGEST_SEALED }
{
    let mut sum = 0u64;
    for round in 0..rounds {
        let mut key = [0; 16];
        key[..8].copy_from_slice(&round.to_be_bytes());
        if let Ok(sealer) = Gcm::new(&key) {
            let tag = sealer.seal(&nonce(0), &[], text);
            sum = sum.wrapping_add(u64::from(tag[0]));
        }
    }
    sum
}
