// The host's store, call after call.
ghost use Rattle.eleos_work.specs.Passes.{IsOf};

use crate::passes::two_of;
use eleos_ring::{Called, Ring, RingWhy};
use eleos_words::{RING_WORDS, RingSpace, WordRing};
use eleos_work::{HostCall, JobPass, Jobs};
use std::process::Abort;
use std::sync::Wait;
use std::test::*;

const KEY: &[u8] = b"abcdefgh";

/// A call with its bytes, what it comes to, and then the room for its reply, zeros before.
const ROWS: [(HostCall, &[u8], Called, &[u8]); 7] = [
    (
        HostCall::Put,
        b"abcdefghAB",
        Called::Reply { len: 0, status: 0 },
        b"",
    ),
    (
        HostCall::Get,
        KEY,
        Called::Reply { len: 2, status: 0 },
        b"AB",
    ),
    (
        HostCall::Get,
        KEY,
        Called::Refused {
            why: RingWhy::TooLong,
            seen: 2,
        },
        b"\0",
    ),
    (HostCall::Cut, KEY, Called::Reply { len: 0, status: 0 }, b""),
    (HostCall::Cut, KEY, Called::Reply { len: 0, status: 1 }, b""),
    (
        HostCall::Put,
        b"a",
        Called::Reply { len: 0, status: 3 },
        b"",
    ),
    (
        HostCall::Clock,
        b"",
        Called::Reply { len: 8, status: 0 },
        b"\0\0\0\0\0\0\0\x06",
    ),
];

#[test]
fn the_store_keeps_gives_and_forgets(rt: HostRuntime) -> Result<(), Fail> {
    let words = WordRing::make(rt.alloc(), RING_WORDS)?;
    let (jobs, passes) = Jobs::make(rt.alloc(), 8)?;
    let mut passes = passes;
    let Some(two) = two_of(&jobs, &mut passes) else {
        return Err("passes".into());
    };
    make_all(&rt, &jobs, &words, two)
}

// One client makes all the calls, and its aide does the jobs.
fn make_all<R: Wait + Abort>(
    rt: &R,
    jobs: &Jobs,
    words: &WordRing,
    two: (JobPass, JobPass),
) -> Result<(), Fail>
    requires { IsOf jobs.now two.0 × IsOf jobs.now two.1 }
{
    let mut port = words.port(8);
    let mut bell = jobs.bell(rt, two.0);
    let mut aide = jobs.aide(rt, two.1, words.port(8));
    let mut ring = Ring::make(7);
    for (call, text, came, reply) in ROWS {
        let mut bytes = [0; 8];
        let room = &mut bytes[..reply.len().min(8)];
        let text = &text[..text.len().min(10)];
        let called = ring.call(
            rt,
            &mut port,
            &mut bell,
            &mut aide,
            call.number(),
            text,
            room,
        );
        assert_eq!(rt; called, came);
        assert_eq!(rt; &*room, reply);
    }
    Ok(())
}
