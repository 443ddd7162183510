// Counter mode.
ghost use Rattle.std.specs.Prelude.{◌≡◌};
ghost use Rattle.eleos_base.specs.Gcm.{gctr, inc32, pre_counter};
ghost use Rattle.eleos_gcm.specs.Stream.{later, stream};

use eleos_aes::Aes;
use eleos_lanes::xor_into;

/// The pre-counter block of a nonce.
pub(crate) fn pre_counter(nonce: &[u8; 12]) -> [u8; 16]
    ensures { result ≡ pre_counter nonce.now }
{
    let mut block = [0; 16];
    block[..12].copy_from_slice(nonce);
    block[15] = 1;
    block
}

/// Adds one to the counter in the last four bytes.
pub(crate) fn inc32(block: &mut [u8; 16])
    ensures { block.new ≡ inc32 block.old }
{
    let count = u32::from_be_bytes([block[12], block[13], block[14], block[15]]);
    block[12..].copy_from_slice(&count.wrapping_add(1).to_be_bytes());
}

/// The next eight encrypted counter blocks.
fn stream(cipher: &Aes, counter: &mut [u8; 16]) -> [u8; 128]
    ensures stream { result ≡ stream cipher.now counter.old 8 }
    ensures counter { counter.new ≡ later 8 counter.old }
{
    let mut counters = [0; 128];
    for k in 0..8 {
        counters[16 * k..16 * k + 16].copy_from_slice(counter);
        inc32(counter);
    }
    cipher.encrypt_eight(&mut counters);
    counters
}

/// Encrypts or decrypts a text in place, eight blocks at a time and then what is left.
pub(crate) fn gctr(cipher: &Aes, first: &[u8; 16], text: &mut [u8])
    ensures { text.new ≡ gctr cipher.now first.now text.old }
{
    let mut counter = *first;
    let len = text.len();
    let mut at = 0;
    while at < len {
        let size = (len - at).min(128);
        let blocks = stream(cipher, &mut counter);
        xor_into(&mut text[at..at + size], &blocks[..size]);
        at += size;
    }
}
