// A look at a cell beside another thread's port.
use eleos_words::{Glance, ID, LENGTH, RING_WORDS, RingPort, RingSpace, WordRing};
use std::test::Fail;

// Stores a word by a port of its own.
fn store(ring: &WordRing, at: u32, word: u64) {
    let mut port = ring.port(2);
    port.store(at, word);
}

#[test]
fn a_word_is_copied_once(rt: HostRuntime) -> Result<(), Fail> {
    let ring = WordRing::make(rt.alloc(), RING_WORDS)?;
    let mut port = (&ring).port(1);
    store(&ring, 136 + ID, 7);
    let mut glance = Glance::of(&mut port, 1);
    assert_eq!(rt; glance.id(), 7);
    store(&ring, 136 + ID, 8);
    store(&ring, 136 + LENGTH, 9);
    assert_eq!(rt; (glance.id(), glance.len()), (7, 9));
    Ok(())
}

#[test]
fn a_place_outside_reads_as_0(rt: HostRuntime) -> Result<(), Fail> {
    let ring = WordRing::make(rt.alloc(), RING_WORDS)?;
    let mut port = (&ring).port(1);
    port.store(RING_WORDS, 5);
    port.store(u32::MAX, 5);
    assert_eq!(rt; port.load(RING_WORDS), 0);
    assert_eq!(rt; port.load(u32::MAX), 0);
    Ok(())
}
