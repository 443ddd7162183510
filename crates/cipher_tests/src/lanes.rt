use eleos_lanes::{differs, mix_columns, sub_bytes, xor_into};

#[test]
fn adds_65_bytes(rt: HostRuntime) {
    let mut bytes = [0x0f; 65];
    xor_into(&mut bytes, &[0xff; 65]);
    assert!(rt; bytes.iter().all(|byte| *byte == 0xf0));
}

#[test]
fn substitutes_65_bytes_and_none(rt: HostRuntime) {
    let mut bytes = [0; 65];
    bytes[64] = 0x53;
    sub_bytes(&mut bytes);
    assert!(rt; bytes[..64].iter().all(|byte| *byte == 0x63) && bytes[64] == 0xed);
    sub_bytes(&mut []);
}

/// A column of FIPS 197's examples and what it is mixed to, four times.
const COLUMNS: [u8; 16] = [
    0xdb, 0x13, 0x53, 0x45, 0xdb, 0x13, 0x53, 0x45, 0xdb, 0x13, 0x53, 0x45, 0xdb, 0x13, 0x53, 0x45,
];

const MIXED: [u8; 16] = [
    0x8e, 0x4d, 0xa1, 0xbc, 0x8e, 0x4d, 0xa1, 0xbc, 0x8e, 0x4d, 0xa1, 0xbc, 0x8e, 0x4d, 0xa1, 0xbc,
];

#[test]
fn mixes_four_columns(rt: HostRuntime) {
    let mut columns = COLUMNS;
    mix_columns(&mut columns);
    assert!(rt; columns == MIXED);
}

#[test]
fn tells_tags_apart_by_the_last_byte(rt: HostRuntime) {
    let mut other = COLUMNS;
    other[15] ^= 0x80;
    assert!(rt; differs(&COLUMNS, &other) && !differs(&COLUMNS, &COLUMNS));
}
