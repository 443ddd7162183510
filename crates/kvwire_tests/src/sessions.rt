// What comes out of a session's text, whole and in pieces of 1, 2 and 7 bytes.

use eleos_base::EnclavePlan;
use eleos_kvwire::{KvAct, KvCommand, KvTrace, Session};
use eleos_texts::{TraceRefused, Why};
use std::alloc::Global;
use std::process::Abort;
use std::test::*;

const HEADER: &str = "eleos-kv 1
pages 4 frames 1
shards 3
clients 2
wear 1000
key 000102030405060708090a0b0c0d0e0F
start
";

/// Commands with a value that has newlines and looks like a command.
const COMMANDS: &str = "1 set color 4
blue
2 get color
1 set - 12
end
1 get a

2 stat ~!
1 delete color
end
";

const KEY: [u8; 16] = [0, 1, 2, 3, 4, 5, 6, 7, 8, 9, 10, 11, 12, 13, 14, 15];

/// Bytes of a piece; the last is more than any text has.
const SIZES: [usize; 4] = [1, 2, 7, 1_000_000];

/// The header, and then these lines.
fn session_with(alloc: Global, lines: &str) -> Result<String, Fail> {
    let mut text = String::new(alloc);
    text.push_str(HEADER)?;
    text.push_str(lines)?;
    Ok(text)
}

/// What comes of the text in pieces of so many bytes. After a refusal it is fed on.
fn fed(alloc: Global, text: &str, size: usize) -> Result<KvTrace, TraceRefused> {
    let Ok(mut session) = Session::make(alloc) else {
        return Err(TraceRefused::NoMemory);
    };
    for piece in text.as_bytes().chunks(size.max(1)) {
        let _ = session.feed(piece);
    }
    session.finish()
}

fn is_act(act: &KvAct, verb: &str, key: &str, value: &str) -> bool {
    let (found, at, bytes) = match act {
        KvAct::Set { key, value } => ("set", key, value.as_slice()),
        KvAct::Get { key } => ("get", key, b"".as_slice()),
        KvAct::Delete { key } => ("delete", key, b"".as_slice()),
        KvAct::Stat { key } => ("stat", key, b"".as_slice()),
    };
    found == verb && at.as_slice() == key.as_bytes() && bytes == value.as_bytes()
}

fn has_header<R: Abort>(rt: &R, trace: &KvTrace) {
    let plan = &trace.plan;
    let enclave = EnclavePlan {
        pages: 4,
        frames: 1,
    };
    assert_eq!(rt; plan.enclaves.as_slice(), [enclave].as_slice());
    assert_eq!(rt; plan.callers.as_slice(), [0, 0, 0].as_slice());
    assert_eq!(rt; (plan.spare, plan.wear, plan.blocks.len()), (0, 1000, 0));
    assert_eq!(rt; trace.key.as_slice(), KEY.as_slice());
    assert_eq!(rt; (trace.shards, trace.clients), (3, 2));
}

/// A command as a client writes it: who gives it, its verb and key, and the value of a set.
type Row = (u32, &'static str, &'static str, &'static str);

fn has_commands<R: Abort>(rt: &R, commands: &[KvCommand], wanted: &[Row]) {
    assert_eq!(rt; commands.len(), wanted.len());
    for (command, (client, verb, key, value)) in commands.iter().zip(wanted.iter()) {
        assert_eq!(rt; command.client, *client);
        assert!(rt; is_act(&command.act, verb, key, value));
    }
}

#[test]
fn one_session_comes_of_every_cutting(rt: HostRuntime) -> Result<(), Fail> {
    let wanted: [Row; 5] = [
        (1, "set", "color", "blue"),
        (2, "get", "color", ""),
        (1, "set", "-", "end\n1 get a\n"),
        (2, "stat", "~!", ""),
        (1, "delete", "color", ""),
    ];
    let text = session_with(rt.alloc(), COMMANDS)?;
    for size in SIZES {
        let trace = fed(rt.alloc(), text.as_str(), size)?;
        has_header(&rt, &trace);
        has_commands(&rt, trace.commands.as_slice(), wanted.as_slice());
    }
    Ok(())
}

/// A session of one client on one shard.
const SMALL: &str = "eleos-kv 1
pages 4 frames 1
shards 1
clients 1
wear 1000
key 000102030405060708090a0b0c0d0e0f
start
1 set color 4
blue
1 get color
1 stat color
1 delete color
1 get color
end
";

#[test]
fn a_small_session_is_read(rt: HostRuntime) -> Result<(), Fail> {
    let wanted: [Row; 5] = [
        (1, "set", "color", "blue"),
        (1, "get", "color", ""),
        (1, "stat", "color", ""),
        (1, "delete", "color", ""),
        (1, "get", "color", ""),
    ];
    for size in SIZES {
        let trace = fed(rt.alloc(), SMALL, size)?;
        assert_eq!(rt; (trace.shards, trace.clients), (1, 1));
        assert_eq!(rt; trace.key.as_slice(), KEY.as_slice());
        has_commands(&rt, trace.commands.as_slice(), wanted.as_slice());
    }
    Ok(())
}

/// What stands before these lines, the lines, and at which line they are refused for which reason.
type Refusal = (&'static str, &'static str, u32, Why);

/// Texts that are refused: in their header, and behind it.
const REFUSALS: [Refusal; 37] = [
    ("", "", 1, Why::Cut),
    ("", "eleos-kv 1", 1, Why::Cut),
    ("", "eleos-kv 2\n", 1, Why::Form),
    ("", "eleos-kv 1\npages 0 frames 1\n", 2, Why::Range),
    ("", "eleos-kv 1\npages 1025 frames 1\n", 2, Why::Range),
    ("", "eleos-kv 1\npages 4 frames 513\n", 2, Why::Range),
    ("", "eleos-kv 1\npages 04 frames 1\n", 2, Why::Form),
    (
        "",
        "eleos-kv 1\npages 4 frames 0\nclients 1\n",
        3,
        Why::Form,
    ),
    (
        "",
        "eleos-kv 1\npages 4 frames 0\nshards 9\n",
        3,
        Why::Range,
    ),
    (
        "",
        "eleos-kv 1\npages 4 frames 0\nshards 8\nclients 0\n",
        4,
        Why::Range,
    ),
    (
        "",
        "eleos-kv 1\npages 4 frames 0\nshards 8\nclients 8\nwear 0\n",
        5,
        Why::Range,
    ),
    (
        "",
        "eleos-kv 1\npages 4 frames 0\nshards 8\nclients 8\nwear 9223372036854775809\n",
        5,
        Why::Range,
    ),
    (
        "",
        "eleos-kv 1\npages 4 frames 0\nshards 8\nclients 8\nwear 1\nkey -\n",
        6,
        Why::Range,
    ),
    (
        "",
        "eleos-kv 1\npages 4 frames 0\nshards 8\nclients 8\nwear 1\nkey 0\n",
        6,
        Why::Form,
    ),
    (
        "",
        "eleos-kv 1\npages 4 frames 0\nshards 8\nclients 8\nwear 1\nkey 00112233445566778899aabbccddeeff\nstart \n",
        7,
        Why::Form,
    ),
    (HEADER, "", 8, Why::Cut),
    (HEADER, "end", 8, Why::Cut),
    (HEADER, "end\nx", 9, Why::After),
    (HEADER, "end\n\n", 9, Why::After),
    (HEADER, "3 get a\n", 8, Why::Range),
    (HEADER, "0 get a\n", 8, Why::Range),
    (HEADER, "4294967297 get a\n", 8, Why::Range),
    (HEADER, "01 get a\n", 8, Why::Form),
    (HEADER, "1 get  a\n", 8, Why::Form),
    (HEADER, "1 get a b\n", 8, Why::Form),
    (HEADER, "1 put a\n", 8, Why::Form),
    (HEADER, "9 get a\u{7f}\n", 8, Why::Form),
    (
        HEADER,
        "1 get aaaaaaaaaaaaaaaaaaaaaaaaaaaaaaaaaaaaaaaaaaaaaaaaaaaaaaaaaaaaaaaaa\n",
        8,
        Why::Form,
    ),
    (HEADER, "1 set a 0\n", 8, Why::Range),
    (HEADER, "1 set a 513\n", 8, Why::Range),
    (HEADER, "1 set a 3", 8, Why::Cut),
    (HEADER, "1 set a 3\n", 9, Why::Cut),
    (HEADER, "1 set a 3\nabc", 9, Why::Cut),
    (HEADER, "1 set a 3\nabcd\n", 9, Why::Form),
    (HEADER, "1 set a 3\nab\n\n\nend\n", 10, Why::Form),
    (HEADER, "1 set a 3\na\nb\n9 get b\n", 10, Why::Range),
    (HEADER, "1 get a\n\nend\n", 9, Why::Form),
];

/// The refusal of the text, in pieces of each size.
fn is_refused<R: Abort>(rt: &R, alloc: Global, text: &str, line: u32, why: Why) {
    for size in SIZES {
        let refused = fed(alloc, text, size).err();
        assert_eq!(rt; refused, Some(TraceRefused::Bad { line, why }));
    }
}

#[test]
fn each_refusal_is_one_for_every_cutting(rt: HostRuntime) -> Result<(), Fail> {
    for (header, lines, line, why) in REFUSALS {
        let mut text = String::from_str(rt.alloc(), header)?;
        text.push_str(lines)?;
        is_refused(&rt, rt.alloc(), text.as_str(), line, why);
    }
    Ok(())
}

#[test]
fn a_refusal_stands(rt: HostRuntime) -> Result<(), Fail> {
    let Ok(mut session) = Session::make(rt.alloc()) else {
        return Err("no memory")?;
    };
    let form = TraceRefused::Bad {
        line: 2,
        why: Why::Form,
    };
    assert_eq!(rt; session.feed(b"eleos-kv 1\n").err(), None);
    assert_eq!(rt; session.feed(b"pages\n").err(), Some(form));
    assert_eq!(rt; session.feed(b"").err(), Some(form));
    assert_eq!(rt; session.finish().err(), Some(form));
    Ok(())
}

#[test]
fn one_command_too_many_is_refused(rt: HostRuntime) -> Result<(), Fail> {
    let mut text = session_with(rt.alloc(), "")?;
    for _ in 0..100_000 {
        text.push_str("1 get a\n")?;
    }
    let Ok(mut session) = Session::make(rt.alloc()) else {
        return Err("no memory")?;
    };
    assert_eq!(rt; session.feed(text.as_bytes()).err(), None);
    let many = TraceRefused::Bad {
        line: 100_008,
        why: Why::Many,
    };
    assert_eq!(rt; session.feed(b"9 set a 1\n").err(), Some(many));
    Ok(())
}

#[test]
fn one_byte_too_many_is_refused(rt: HostRuntime) -> Result<(), Fail> {
    let Ok(mut session) = Session::make(rt.alloc()) else {
        return Err("no memory")?;
    };
    let piece = vec![in rt.alloc(); b'x'; 65_536]?;
    for _ in 0..256 {
        assert_eq!(rt; session.feed(&piece).err(), None);
    }
    let too_large = TraceRefused::Bad {
        line: 0,
        why: Why::TooLarge,
    };
    assert_eq!(rt; session.feed(b"\n").err(), Some(too_large));
    Ok(())
}
