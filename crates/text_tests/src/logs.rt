// Logs that are read and printed. No command of the program reads a log.

use eleos_report::{read_log, write_line};
use eleos_texts::{TraceRefused, Why};
use eleos_trace::Kind;
use std::alloc::Global;
use std::test::*;

/// A log of a replay with each command and each reply of its kind.
const REPLAYED: &str = "0 c1 alloc a 5000 = at 0
- c2 alloc b 70000 = badsize
1 c2 alloc b 8192 = nospace
- c2 free b = skipped
2 c1 write a 4095 00ff = ok
3 c1 write a 0 - = badrange
4 c1 read a 0 2 = got 41f0
5 c1 read a 9 0 = got -
6 c2 read g 0 1 = notyours 1
7 c2 read g 8192 1 = unallocated
8 c1 read a 0 1 = tampered 3
9 c1 write a 0 41 = worn 0
10 c1 share a = ok
11 c1 free a = notablock
- c1 tie a 4294967295 = illegal absent
- c1 untie a 0 = illegal untied
12 s fill 1 0 = ok
- s fill 1 0 = illegal present
- s fill 0 0 = illegal frame
13 s evict 1 0 = put 4
- s evict 1 0 = illegal linked
14 b move 0 1 - = ok
15 b move 0 - 0 = ok
- b move 0 1 - = illegal owner
- h flip 7 8191 = ok
- h swap 0 1 = ok
- h keep 2 = ok
- h restore 3 = none
end 18446744073709551615
";

/// A log of a run with a block that did not pass, which is left out here, one without a frame,
/// rounds of the swapper, changes of shares, and calls of the host.
const RAN: [&str; 2] = [
    "0 c1 alloc a 1 = at 0\n1 c8 write a 0 41 = ok\n2 c2 read a 0 1 = tampered 3 ",
    "\n3 c1 read a 0 1 = noframe\n4 c1 read a 0 1 = noframe 0:1 12:18446744073709551615\n5 s evict 0 0 = put 0
6 s swap 0 1 = enough 1 0:0
7 c1 swap 4294967295 0 = enough 0
8 c1 swap 0 2 = swept 1 0:0 3:258
9 b move 2 - 0 = ok
10 b balloon 0 2 = done 2
11 c2 balloon 1 512 = short 4 7:1
12 c1 balloon 0 0 = pinned 2 0:258 1:18446744073709551615
- h swap 0 1 = ok
- c1 call echo 0102 2 = reply 0 0102
- c1 call put - 1024 = wrongid 18446744073709551615
- c2 call get 00 4294967295 = toolong 3
- c2 call cut ff 0 = badstatus 4
- c8 call clock - 8 = reply 18446744073709551615 -
end 13
",
];

/// The text of the lines that are read.
fn again(alloc: Global, text: &str, kind: Kind) -> Result<String, Fail> {
    let lines = read_log(alloc, text.as_bytes(), 1, kind)?;
    let mut again = String::new(alloc);
    for line in lines.as_slice() {
        let text = write_line(alloc, line).map_err(|_| "no memory")?;
        again.push_str(text.as_str())?;
    }
    Ok(again)
}

#[test]
fn reads_and_prints_each_line(rt: HostRuntime) -> Result<(), Fail> {
    let alloc = rt.alloc();
    assert_eq!(rt; again(alloc, REPLAYED, Kind::Replay)?.as_str(), REPLAYED);
    let mut block = String::new(alloc);
    for _ in 0..1024u32 {
        block.push_str("5a")?;
    }
    let [before, behind] = RAN;
    let ran = format!(in alloc; "{before}{block}{behind}")?;
    assert_eq!(rt;
        again(alloc, ran.as_str(), Kind::Run)?.as_str(),
        ran.as_str()
    );
    let capitals = "0 c1 write a 0 4B = got Ab\nend 1\n";
    assert_eq!(rt;
        again(alloc, capitals, Kind::Run)?.as_str(),
        "0 c1 write a 0 4b = got ab\nend 1\n"
    );
    Ok(())
}

/// Logs that begin at line 7, with the bad line and its reason.
const BAD: [(Kind, &str, u32, Why); 35] = [
    (Kind::Replay, "", 7, Why::Cut),
    (Kind::Replay, "end 0", 7, Why::Cut),
    (Kind::Replay, "- c1 free a = skipped\n", 8, Why::Cut),
    (Kind::Replay, "end 0\n\n", 8, Why::After),
    (Kind::Replay, "end 0\nend 0\n", 8, Why::After),
    (Kind::Replay, "end 00\n", 7, Why::Form),
    (Kind::Replay, "end 18446744073709551616\n", 7, Why::Form),
    (Kind::Replay, "\nend 0\n", 7, Why::Form),
    (Kind::Replay, "00 c1 free a = ok\nend 1\n", 7, Why::Form),
    (
        Kind::Replay,
        "18446744073709551616 c1 free a = ok\nend 1\n",
        7,
        Why::Form,
    ),
    (Kind::Replay, "0 c9 free a = ok\nend 1\n", 7, Why::Form),
    (Kind::Replay, "0 c1 free A = ok\nend 1\n", 7, Why::Form),
    (
        Kind::Replay,
        "0 c1 alloc a 4294967296 = at 0\nend 1\n",
        7,
        Why::Form,
    ),
    (Kind::Replay, "0 c1 free a ok\nend 1\n", 7, Why::Form),
    (Kind::Replay, "0 c1 free a = ok \nend 1\n", 7, Why::Form),
    (Kind::Replay, "0 c1 free a = ok = ok\nend 1\n", 7, Why::Form),
    (Kind::Replay, "0 b move 0 0 1 = ok\nend 1\n", 7, Why::Form),
    (
        Kind::Replay,
        "0 c1 read a 0 1 = noframe\nend 1\n",
        7,
        Why::Form,
    ),
    (
        Kind::Replay,
        "0 c1 read a 0 1 = got 4\nend 1\n",
        7,
        Why::Form,
    ),
    (
        Kind::Run,
        "0 c1 read a 0 1 = tampered 3\nend 1\n",
        7,
        Why::Form,
    ),
    (
        Kind::Run,
        "0 c1 read a 0 1 = tampered 3 00\nend 1\n",
        7,
        Why::Form,
    ),
    (
        Kind::Run,
        "0 c1 read a 0 1 = noframe 0:\nend 1\n",
        7,
        Why::Form,
    ),
    (
        Kind::Run,
        "0 s fill 0 0 = ok\n- s fill 0 0 = illegal present\nend 1\n",
        8,
        Why::Form,
    ),
    (Kind::Run, "0 c1 tie a 0 = ok\nend 1\n", 7, Why::Form),
    (Kind::Run, "0 c1 untie a 0 = ok\nend 1\n", 7, Why::Form),
    (
        Kind::Run,
        "- c1 call tell - 0 = reply 0 -\nend 0\n",
        7,
        Why::Form,
    ),
    (
        Kind::Run,
        "- c1 call echo - 0 = reply 0\nend 0\n",
        7,
        Why::Form,
    ),
    (
        Kind::Run,
        "- c1 call echo - 0 = toolong 18446744073709551616\nend 0\n",
        7,
        Why::Form,
    ),
    (
        Kind::Replay,
        "- c1 call echo - 0 = reply 0 -\nend 0\n",
        7,
        Why::Form,
    ),
    (
        Kind::Replay,
        "- c1 free a = wrongid 1\nend 0\n",
        7,
        Why::Form,
    ),
    (Kind::Run, "0 c1 swap 0 1 = enough\nend 1\n", 7, Why::Form),
    (
        Kind::Run,
        "0 b balloon 0 1 = done 1 0:0\nend 1\n",
        7,
        Why::Form,
    ),
    (
        Kind::Run,
        "0 b balloon 0 4294967296 = done 1\nend 1\n",
        7,
        Why::Form,
    ),
    (Kind::Replay, "0 b balloon 0 1 = ok\nend 1\n", 7, Why::Form),
    (
        Kind::Replay,
        "0 h swap 0 1 = swept 0\nend 1\n",
        7,
        Why::Form,
    ),
];

#[test]
fn refuses_the_first_bad_line(rt: HostRuntime) -> Result<(), Fail> {
    let alloc = rt.alloc();
    for (kind, text, line, why) in BAD {
        let refused = match read_log(alloc, text.as_bytes(), 7, kind) {
            Ok(_) => return Err(Fail::from("no refusal")),
            Err(refused) => refused,
        };
        assert_eq!(rt; refused, TraceRefused::Bad { line, why });
    }
    Ok(())
}
