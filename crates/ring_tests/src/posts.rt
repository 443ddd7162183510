// What posts store, and in which cells.
ghost use Rattle.std.specs.Prelude.{◌≡◌, ◌<◌, ◌≤◌, ◌+◌};

use crate::script::{LastRung, Script, end};
use eleos_ring::Ring;
use eleos_words::{RING_WORDS, RingPort, RingSpace, WordRing};
use std::process::Abort;
use std::sync::Wait;
use std::test::*;

#[test]
fn a_fifth_post_is_refused(rt: HostRuntime) -> Result<(), Fail> {
    let mut port = Script::of(rt.alloc(), &[2])?;
    let mut ring = Ring::make(1);
    assert_eq!(rt; fill(&rt, &mut port, &mut ring, 9), 4);
    assert_eq!(rt; fill(&rt, &mut port, &mut ring, 3), 3);
    Ok(())
}

// Posts until one is refused, at most so many, and then ends their tickets.
// It answers how many were posted.
fn fill<R: Wait + Abort>(rt: &R, port: &mut Script, ring: &mut Ring, more: u32) -> u32
    requires few { ring.old.posts + more < 100 }
    ensures client { ring.new.client ≡ ring.old.client }
    ensures out { ring.new.out ≡ ring.old.out }
    ensures posts { ring.new.posts ≤ ring.old.posts + more }
{
    if more == 0 {
        return 0;
    }
    let mut bell = LastRung { cell: None };
    let Ok(ticket) = ring.post(port, &mut bell, 5, b"") else {
        return 0;
    };
    assert_eq!(rt; bell.cell, Some(ticket.cell()));
    let rest = fill(rt, port, ring, more - 1);
    end(rt, ring, port, ticket);
    rest.saturating_add(1)
}

#[test]
fn a_post_stores_the_words_of_its_job(rt: HostRuntime) -> Result<(), Fail> {
    let alloc = rt.alloc();
    let words = WordRing::make(alloc, RING_WORDS)?;
    let mut port = (&words).port(1);
    let mut ring = Ring::make(0);
    let mut over = Script::of(alloc, &[2])?;
    let mut bell = LastRung { cell: None };
    let Ok(ticket) = ring.post(&mut port, &mut bell, 5, b"ABCDEFGHIJ") else {
        return Err("a cell is free".into());
    };
    end(&rt, &mut ring, &mut over, ticket);
    let want = [
        1,
        1,
        5,
        10,
        0,
        0,
        0,
        0,
        0x4142_4344_4546_4748,
        0x494a << 48,
        0,
    ];
    assert!(rt; shows(&words, &want));
    Ok(())
}

// Whether the ring begins with these words.
fn shows(words: &WordRing, want: &[u64]) -> bool {
    let mut port = words.port(2);
    let mut all = true;
    for (i, word) in (0..).zip(want.iter()) {
        all = all && port.load(i) == *word;
    }
    all
}
