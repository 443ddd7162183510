// Sealing: authenticated encryption in place.
ghost use Rattle.std.specs.Prelude.{◌≡◌, ◌↔◌, ◌≤◌, ℕ, List, length, IsTrue};
ghost use Rattle.std.specs.Bool.{OnTrue, OnFalse};
ghost use Rattle.eleos_base.specs.Gcm.{OpensFrom, OpensOnce, ciphertext_of, tag_of};

/// The largest aad and the largest text that is sealed, in bytes.
pub const LONGEST_SEALED: usize = 16_777_216;

/// GCM under a key. A nonce may seal one text under a key, and no second one.
pub trait Sealer {
    /// The key, in bytes.
    ghost key: { Self → List ℕ };

    /// Puts the ciphertext in the text's place, and answers its tag.
    fn seal(&self, nonce: &[u8; 12], aad: &[u8], text: &mut [u8]) -> [u8; 16]
        requires aad_fits { length aad.now ≤ LONGEST_SEALED }
        requires text_fits { length text.old ≤ LONGEST_SEALED }
        ensures text { text.new ≡ ciphertext_of (key self.now) nonce.now text.old }
        ensures tag { result ≡ tag_of (key self.now) nonce.now aad.now text.new };

    /// Opens a ciphertext whose tag is `tag`, and leaves any other as it is.
    fn unseal(&self, nonce: &[u8; 12], aad: &[u8], text: &mut [u8], tag: &[u8; 16]) -> bool
        requires aad_fits { length aad.now ≤ LONGEST_SEALED }
        requires text_fits { length text.old ≤ LONGEST_SEALED }
        ensures passes { IsTrue result
            ↔ (tag_of (key self.now) nonce.now aad.now text.old ≡ tag.now) }
        ensures opened { OnTrue result (OpensFrom (key self.now) nonce.now text.new text.old) }
        ensures kept { OnFalse result (text.new ≡ text.old) };

    /// What was sealed unseals: no other text opens from its ciphertext.
    ghost reopens: { (sealer : Self) → OpensOnce (key sealer) };
}
