// What a line asks the ciphers.
ghost use Rattle.std.specs.Prelude.{◌≡◌, ◌≤◌, length};
ghost use Rattle.eleos_vectors.specs.Rooms.{answer_room};
ghost use Rattle.eleos_vectors.specs.Vectors.{short};

use crate::keys::Key;
use eleos_base::Bytes;
use eleos_texts::printing::hex_length;
use std::marker::Model;

/// Bytes of an aad or of a text.
const MOST_BYTES: usize = 1_048_576;

/// The bytes of an aad or of a text, at most 1 MiB.
#[derive(Drop)]
pub struct ShortText {
    bytes: Bytes,
}

impl Model for ShortText {
    ghost use Rattle.std.specs.Prelude.{◌≤◌, List, ℕ, length};

    ghost Value = { List ℕ };

    ghost view = { λ t. t.bytes };

    ghost invariant = { λ t. length t.bytes ≤ 1048576 };
}

impl ShortText {
    pub fn of(bytes: Bytes) -> Option<Self>
        ensures { result ≡ short bytes }
    {
        if bytes.len() > MOST_BYTES {
            return None;
        }
        Some(ShortText { bytes })
    }

    pub fn as_slice(&self) -> &[u8]
        ensures same { result.now ≡ self.now }
        ensures short { length result.now ≤ 1048576 }
    {
        self.bytes.as_slice()
    }

    /// Takes no memory.
    pub(crate) fn into_vec(self) -> Vec<u8>
        ensures same { result.items ≡ self }
        ensures short { length result.items ≤ 1048576 }
    {
        self.bytes.into_vec()
    }
}

/// What a line asks the ciphers. The key of each has the length of one.
#[derive(Drop)]
pub enum Vector {
    /// A block to encrypt.
    Aes {
        key: Key,
        block: [u8; 16],
    },
    /// A text to seal.
    Seal {
        key: Key,
        nonce: [u8; 12],
        aad: ShortText,
        text: ShortText,
    },
    /// A ciphertext to open where its tag passes.
    Open {
        key: Key,
        nonce: [u8; 12],
        aad: ShortText,
        ciphertext: ShortText,
        tag: [u8; 16],
    },
}

impl Vector {
    /// Bytes of the longest line that answers such a vector: digits of a block, of a text and a
    /// tag, or of a text or `fail`.
    pub(crate) fn answer_room(&self) -> usize
        ensures { result ≡ answer_room self.now }
    {
        match self {
            Vector::Aes { .. } => 33,
            Vector::Seal { text, .. } => hex_length(text.as_slice().len()) + 34,
            Vector::Open { ciphertext, .. } => hex_length(ciphertext.as_slice().len()).max(4) + 1,
        }
    }
}
