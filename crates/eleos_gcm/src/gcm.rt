// Sealing by GCM.
ghost use Rattle.std.specs.Prelude.{◌≡◌, ◌↔◌, ◌≤◌, ℕ, List, length, IfOk, IsErr, IsTrue};
ghost use Rattle.eleos_base.specs.BlockField.{number_of};
ghost use Rattle.eleos_base.specs.AesKey.{IsKeyLength};
ghost use Rattle.eleos_base.specs.Gcm.{ciphertext_of, hash_subkey, tag_of};
ghost use Rattle.eleos_base.proofs.GctrLemmas.{opens_once};

use crate::counter::{gctr, inc32, pre_counter};
use crate::field::number_of;
use crate::hash::hash_for_tag;
use eleos_aes::{Aes, BadKeyLength};
use eleos_base::{LONGEST_SEALED, Sealer};
use eleos_lanes::{Powers, differs};
use std::marker::Model;

/// GCM under one key, which is expanded once.
#[derive(Drop)]
pub struct Gcm {
    cipher: Aes,
    powers: Powers,
}

impl Model for Gcm {
    ghost use Rattle.std.specs.Prelude.{◌≡◌, List, ℕ};
    ghost use Rattle.eleos_base.specs.BlockField.{number_of};
    ghost use Rattle.eleos_base.specs.Gcm.{hash_subkey};

    ghost Value = { List ℕ };

    ghost view = { λ g. g.cipher };

    ghost invariant = { λ g. g.powers ≡ number_of (hash_subkey g.cipher) };
}

fn tag_by(
    cipher: &Aes,
    powers: &Powers,
    nonce: &[u8; 12],
    aad: &[u8],
    ciphertext: &[u8],
) -> [u8; 16]
    requires aad_fits { length aad.now ≤ LONGEST_SEALED }
    requires ciphertext_fits { length ciphertext.now ≤ LONGEST_SEALED }
    ensures { powers.now ≡ number_of (hash_subkey cipher.now)
        → result ≡ tag_of cipher.now nonce.now aad.now ciphertext.now }
{
    let mut tag = hash_for_tag(powers, aad, ciphertext);
    gctr(cipher, &pre_counter(nonce), &mut tag);
    tag
}

/// Encrypts or decrypts the text from the counter block after the pre-counter block on.
fn apply(cipher: &Aes, nonce: &[u8; 12], text: &mut [u8])
    ensures { text.new ≡ ciphertext_of cipher.now nonce.now text.old }
{
    let mut counter = pre_counter(nonce);
    inc32(&mut counter);
    gctr(cipher, &counter, text);
}

impl Gcm {
    pub fn new(key: &[u8]) -> Result<Gcm, BadKeyLength>
        ensures ok { IfOk result (λ sealer. sealer ≡ key.now) }
        ensures refused { IsErr result ↔ ¬ IsKeyLength (length key.now) }
    {
        let cipher = Aes::new(key)?;
        let mut block = [0; 16];
        cipher.encrypt(&mut block);
        Ok(Gcm {
            cipher,
            powers: Powers::of(number_of(&block)),
        })
    }
}

impl Sealer for Gcm {
    ghost key = { λ g. g };

    fn seal(&self, nonce: &[u8; 12], aad: &[u8], text: &mut [u8]) -> [u8; 16] {
        apply(&self.cipher, nonce, text);
        tag_by(&self.cipher, &self.powers, nonce, aad, text)
    }

    fn unseal(&self, nonce: &[u8; 12], aad: &[u8], text: &mut [u8], tag: &[u8; 16]) -> bool {
        let expected = tag_by(&self.cipher, &self.powers, nonce, aad, text);
        if differs(&expected, tag) {
            return false;
        }
        apply(&self.cipher, nonce, text);
        true
    }

    ghost reopens = { λ g. opens_once g };
}
