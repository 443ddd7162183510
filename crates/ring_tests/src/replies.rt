// What polls and calls make of a side that shows any words.
use crate::script::{Counted, LastRung, Script, end};
use eleos_ring::{Called, Polled, Ring, RingWhy};
use std::alloc::{AllocError, Global};
use std::sync::Wait;
use std::test::Fail;

// What a poll found, without its ticket.
#[derive(Clone, Copy, Debug, PartialEq, Eq)]
enum Seen {
    Full,
    Pending(u64),
    Refused(RingWhy, u64),
    Reply(u32, u64),
}

// What is shown to a poll of job 1 with room for four bytes that were all 9.
struct Row<'a> {
    shown: &'a [u64],
    seen: Seen,
    room: [u8; 4],
}

const KEPT: [u8; 4] = [9; 4];

// The words of 'ABCDEFGH' and 'IJKLMNOP'.
const FIRST: u64 = 0x4142_4344_4546_4748;

const SECOND: u64 = 0x494a_4b4c_4d4e_4f50;

fn polled<R: Wait>(rt: &R, alloc: Global, shown: &[u64]) -> Result<(Seen, [u8; 4]), AllocError> {
    let mut port = Script::of(alloc, shown)?;
    let mut over = Script::of(alloc, &[2])?;
    let mut ring = Ring::make(0);
    let mut room = KEPT;
    let Ok(ticket) = ring.post(&mut port, &mut LastRung { cell: None }, 1, b"ab") else {
        return Ok((Seen::Full, room));
    };
    let seen = match ring.poll(&mut port, ticket, &mut room) {
        Polled::Pending { ticket, state } => {
            end(rt, &mut ring, &mut over, ticket);
            Seen::Pending(state)
        }
        Polled::Refused { why, seen } => Seen::Refused(why, seen),
        Polled::Reply { len, status } => Seen::Reply(len, status),
    };
    Ok((seen, room))
}

const ROWS: [Row<'static>; 16] = [
    // No state but that of a reply is one.
    Row {
        shown: &[],
        seen: Seen::Pending(0),
        room: KEPT,
    },
    Row {
        shown: &[1],
        seen: Seen::Pending(1),
        room: KEPT,
    },
    Row {
        shown: &[3, 1, 4, 0, FIRST],
        seen: Seen::Pending(3),
        room: KEPT,
    },
    Row {
        shown: &[u64::MAX],
        seen: Seen::Pending(u64::MAX),
        room: KEPT,
    },
    // It becomes a reply while it is looked at.
    Row {
        shown: &[1, 1, 4, 0, 2],
        seen: Seen::Pending(1),
        room: KEPT,
    },
    // The id of the job before, of the next, and of none.
    Row {
        shown: &[2, 0, 4, 0, FIRST],
        seen: Seen::Refused(RingWhy::WrongId, 0),
        room: KEPT,
    },
    Row {
        shown: &[2, 2, 4, 0, FIRST],
        seen: Seen::Refused(RingWhy::WrongId, 2),
        room: KEPT,
    },
    Row {
        shown: &[2],
        seen: Seen::Refused(RingWhy::WrongId, 2),
        room: KEPT,
    },
    // The first that is not good is named.
    Row {
        shown: &[2, 9, 5, 4],
        seen: Seen::Refused(RingWhy::WrongId, 9),
        room: KEPT,
    },
    Row {
        shown: &[2, 1, 5, 4],
        seen: Seen::Refused(RingWhy::TooLong, 5),
        room: KEPT,
    },
    Row {
        shown: &[2, 1, u64::MAX, 0],
        seen: Seen::Refused(RingWhy::TooLong, u64::MAX),
        room: KEPT,
    },
    Row {
        shown: &[2, 1, 4, 4, FIRST],
        seen: Seen::Refused(RingWhy::BadStatus, 4),
        room: KEPT,
    },
    // The length that was judged is the one that is used, whatever is shown later.
    Row {
        shown: &[2, 1, 0, 1, 4096],
        seen: Seen::Reply(0, 1),
        room: KEPT,
    },
    Row {
        shown: &[2, 1, 3, 0, FIRST, 4096],
        seen: Seen::Reply(3, 0),
        room: [0x41, 0x42, 0x43, 9],
    },
    Row {
        shown: &[2, 1, 4, 3, SECOND],
        seen: Seen::Reply(4, 3),
        room: [0x49, 0x4a, 0x4b, 0x4c],
    },
    Row {
        shown: &[2, 1, 1, 0, u64::MAX],
        seen: Seen::Reply(1, 0),
        room: [0xff, 9, 9, 9],
    },
];

#[test]
fn a_poll_judges_the_copies(rt: HostRuntime) -> Result<(), Fail> {
    let alloc = rt.alloc();
    for row in ROWS.iter() {
        let (seen, room) = polled(&rt, alloc, row.shown)?;
        assert_eq!(rt; seen, row.seen);
        assert_eq!(rt; room, row.room);
    }
    Ok(())
}

#[test]
fn a_call_waits_for_the_reply(rt: HostRuntime) -> Result<(), Fail> {
    let alloc = rt.alloc();
    let mut port = Script::of(alloc, &[0, 1, 4, 0, 1, 1, 4, 0, 2, 1, 4, 0, FIRST])?;
    let mut bell = LastRung { cell: None };
    let mut aide = Counted { turns: 0 };
    let mut ring = Ring::make(7);
    let mut room = KEPT;
    let called = ring.call(&rt, &mut port, &mut bell, &mut aide, 1, b"ab", &mut room);
    assert_eq!(rt; called, Called::Reply { len: 4, status: 0 });
    assert_eq!(rt; &room, b"ABCD");
    assert_eq!(rt; aide.turns, 2);
    assert_eq!(rt; bell.cell, Some(28));
    Ok(())
}

#[test]
fn a_call_is_refused_by_the_copy(rt: HostRuntime) -> Result<(), Fail> {
    let alloc = rt.alloc();
    let mut port = Script::of(alloc, &[1, 1, 4, 0, 2, 7, 5, 4])?;
    let mut bell = LastRung { cell: None };
    let mut aide = Counted { turns: 0 };
    let mut ring = Ring::make(0);
    let mut room = KEPT;
    let called = ring.call(&rt, &mut port, &mut bell, &mut aide, 1, b"", &mut room);
    let why = RingWhy::WrongId;
    assert_eq!(rt; called, Called::Refused { why, seen: 7 });
    assert_eq!(rt; room, KEPT);
    assert!(rt; !ring.is_full());
    Ok(())
}
