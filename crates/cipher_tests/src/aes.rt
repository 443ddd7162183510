use eleos_aes::{Aes, BadKeyLength};

/// The plaintext of FIPS 197, appendix C.
const PLAINTEXT: [u8; 16] = [
    0x00, 0x11, 0x22, 0x33, 0x44, 0x55, 0x66, 0x77, 0x88, 0x99, 0xaa, 0xbb, 0xcc, 0xdd, 0xee, 0xff,
];

/// The key of FIPS 197, appendix C, of which the shorter ones are the front.
const KEY: [u8; 32] = [
    0x00, 0x01, 0x02, 0x03, 0x04, 0x05, 0x06, 0x07, 0x08, 0x09, 0x0a, 0x0b, 0x0c, 0x0d, 0x0e, 0x0f,
    0x10, 0x11, 0x12, 0x13, 0x14, 0x15, 0x16, 0x17, 0x18, 0x19, 0x1a, 0x1b, 0x1c, 0x1d, 0x1e, 0x1f,
];

/// The ciphertexts of C.1, C.2 and C.3.
const CIPHERTEXTS: [[u8; 16]; 3] = [
    [
        0x69, 0xc4, 0xe0, 0xd8, 0x6a, 0x7b, 0x04, 0x30, 0xd8, 0xcd, 0xb7, 0x80, 0x70, 0xb4, 0xc5,
        0x5a,
    ],
    [
        0xdd, 0xa9, 0x7c, 0xa4, 0x86, 0x4c, 0xdf, 0xe0, 0x6e, 0xaf, 0x70, 0xa0, 0xec, 0x0d, 0x71,
        0x91,
    ],
    [
        0x8e, 0xa2, 0xb7, 0xca, 0x51, 0x67, 0x45, 0xbf, 0xea, 0xfc, 0x49, 0x90, 0x4b, 0x49, 0x60,
        0x89,
    ],
];

fn encrypts(key: &[u8], ciphertext: &[u8; 16]) -> bool {
    let Ok(cipher) = Aes::new(key) else {
        return false;
    };
    let mut block = PLAINTEXT;
    cipher.encrypt(&mut block);
    block == *ciphertext
}

#[test]
fn encrypts_the_vectors_of_the_standard(rt: HostRuntime) {
    assert!(rt; encrypts(&KEY[..16], &CIPHERTEXTS[0]));
    assert!(rt; encrypts(&KEY[..24], &CIPHERTEXTS[1]));
    assert!(rt; encrypts(&KEY, &CIPHERTEXTS[2]));
}

#[test]
fn refuses_other_lengths(rt: HostRuntime) {
    assert!(rt; matches!(Aes::new(&KEY[..17]), Err(BadKeyLength)));
    assert!(rt; matches!(Aes::new(&[]), Err(BadKeyLength)));
}

fn encrypts_four(key: &[u8]) -> bool {
    let Ok(cipher) = Aes::new(key) else {
        return false;
    };
    let mut blocks = [0; 64];
    blocks[32..48].copy_from_slice(&PLAINTEXT);
    cipher.encrypt_four(&mut blocks);
    blocks[32..48].starts_with(&CIPHERTEXTS[0])
}

#[test]
fn encrypts_each_of_four_blocks(rt: HostRuntime) {
    assert!(rt; encrypts_four(&KEY[..16]));
}
