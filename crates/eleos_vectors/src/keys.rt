// Keys, blocks and nonces from bytes of any number.
ghost use Rattle.std.specs.Prelude.{◌≡◌, ◌↔◌, ◌+◌, ◌≤◌, length, take, drop, IsSome, IsTrue, Some};
ghost use Rattle.eleos_vectors.specs.Vectors.{keyed, sized};

use eleos_aes::Aes;
use eleos_base::Bytes;
use eleos_gcm::Gcm;
use eleos_lanes::differs;
use eleos_texts::heads::is_key_length;
use std::marker::Model;

/// A key of 16, 24 or 32 bytes. It is expanded where it is used, so that many vectors take little
/// memory.
#[derive(Drop)]
pub struct Key {
    bytes: Bytes,
}

impl Model for Key {
    ghost use Rattle.std.specs.Prelude.{List, ℕ, length};
    ghost use Rattle.eleos_base.specs.AesKey.{IsKeyLength};

    ghost Value = { List ℕ };

    ghost view = { λ k. k.bytes };

    ghost invariant = { λ k. IsKeyLength (length k.bytes) };
}

impl Key {
    pub fn of(bytes: Bytes) -> Option<Self>
        ensures { result ≡ keyed bytes }
    {
        if !is_key_length(bytes.len()) {
            return None;
        }
        Some(Key { bytes })
    }

    /// The cipher under the key.
    pub fn cipher(&self) -> Aes
        ensures { result ≡ self.now }
    {
        match Aes::new(self.bytes.as_slice()) {
            Ok(cipher) => cipher,
            Err(_) => unreachable!(),
        }
    }

    /// The sealer under the key.
    pub fn sealer(&self) -> Gcm
        ensures { result ≡ self.now }
    {
        match Gcm::new(self.bytes.as_slice()) {
            Ok(sealer) => sealer,
            Err(_) => unreachable!(),
        }
    }

    /// Whether the keys are the same, found in the same steps wherever keys of one length differ.
    fn is_same(&self, other: &Key) -> bool
        ensures { IsTrue result ↔ (self.now ≡ other.now) }
    {
        let (a, b) = (self.bytes.as_slice(), other.bytes.as_slice());
        let size = a.len();
        if b.len() != size {
            return false;
        }
        let fronts_differ = differs(&block_at(a, 0), &block_at(b, 0));
        let ends_differ = differs(&block_at(a, size - 16), &block_at(b, size - 16));
        !fronts_differ && !ends_differ
    }
}

/// 16 bytes from this place on.
fn block_at(bytes: &[u8], at: usize) -> [u8; 16]
    requires { at + 16 ≤ length bytes.now }
    ensures { result ≡ take 16 (drop at bytes.now) }
{
    let mut block = [0; 16];
    block.copy_from_slice(&bytes[at..at + 16]);
    block
}

/// A key with its sealer, which vectors in a row that have the same key share.
#[derive(Drop)]
pub struct KeptSealer {
    key: Key,
    sealer: Gcm,
}

impl Model for KeptSealer {
    ghost use Rattle.std.specs.Prelude.{◌≡◌, List, ℕ};

    ghost Value = { List ℕ };

    ghost view = { λ k. k.key };

    ghost invariant = { λ k. k.sealer ≡ k.key };
}

impl KeptSealer {
    fn of(key: Key) -> Self
        ensures { result ≡ key }
    {
        let sealer = key.sealer();
        KeptSealer { key, sealer }
    }

    fn is_under(&self, key: &Key) -> bool
        ensures { IsTrue result ↔ (self.now ≡ key.now) }
    {
        self.key.is_same(key)
    }
}

/// Keeps the sealer under this key: the one that is kept already, where it has this key.
pub fn keep(kept: &mut Option<KeptSealer>, key: Key)
    ensures { kept.new ≡ Some key }
{
    let is_kept = match kept {
        Some(kept) => kept.is_under(&key),
        None => false,
    };
    if !is_kept {
        *kept = Some(KeptSealer::of(key));
    }
}

/// The sealer that is kept.
pub fn kept_sealer(kept: &Option<KeptSealer>) -> &Gcm
    requires { IsSome kept.now }
    ensures { kept.now ≡ Some result.now }
{
    match kept {
        Some(kept) => &kept.sealer,
        None => unreachable!(),
    }
}

/// A block or a tag.
pub fn block_of(bytes: &[u8]) -> Option<[u8; 16]>
    ensures { result ≡ sized 16 bytes.now }
{
    if bytes.len() != 16 {
        return None;
    }
    let mut block = [0; 16];
    block.copy_from_slice(bytes);
    Some(block)
}

pub fn nonce_of(bytes: &[u8]) -> Option<[u8; 12]>
    ensures { result ≡ sized 12 bytes.now }
{
    if bytes.len() != 12 {
        return None;
    }
    let mut nonce = [0; 12];
    nonce.copy_from_slice(bytes);
    Some(nonce)
}
