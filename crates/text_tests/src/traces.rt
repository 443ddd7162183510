// What a trace has of its text. The texts that are read or refused are cases of the program.

use eleos_base::{BlockPlan, EnclavePlan};
use eleos_report::read_log;
use eleos_trace::{Kind, Trace, line_count, parse, parse_prefix};
use std::process::Abort;
use std::test::*;

const TEXT: &str = "eleos 1 replay
enclave 0 pages 4 frames 2
enclave 1 pages 2 frames 1
spare 1
caller 1 enclave 0
caller 2 enclave 1
wear 2
key 000102030405060708090a0b0c0d0e0F
block top enclave 0 bytes 1024 owner 0
block low enclave 1 bytes 1 owner 2
start
end
";

const KEY: [u8; 16] = [0, 1, 2, 3, 4, 5, 6, 7, 8, 9, 10, 11, 12, 13, 14, 15];

const ENCLAVES: [EnclavePlan; 2] = [
    EnclavePlan {
        pages: 4,
        frames: 2,
    },
    EnclavePlan {
        pages: 2,
        frames: 1,
    },
];

const BLOCKS: [BlockPlan; 2] = [
    BlockPlan {
        enclave: 0,
        bytes: 1024,
        owner: 0,
    },
    BlockPlan {
        enclave: 1,
        bytes: 1,
        owner: 2,
    },
];

#[test]
fn a_header_is_read(rt: HostRuntime) -> Result<(), Fail> {
    let trace = parse(rt.alloc(), Kind::Replay, TEXT.as_bytes())?;
    has_plan(&rt, &trace);
    assert_eq!(rt; trace.kind, Kind::Replay);
    assert_eq!(rt; trace.key.as_slice(), KEY.as_slice());
    assert_eq!(rt; trace.lines.len(), 0);
    let names = trace.names.as_slice();
    assert_eq!(rt; names.len(), 2);
    assert_eq!(rt; names[0].as_slice(), b"top".as_slice());
    assert_eq!(rt; names[1].as_slice(), b"low".as_slice());
    Ok(())
}

#[test]
fn a_log_stands_behind_a_trace(rt: HostRuntime) -> Result<(), Fail> {
    let alloc = rt.alloc();
    let log = "- c1 free a = skipped\nend 0\n";
    let text = format!(in alloc; "{TEXT}{log}")?;
    let (trace, after) = parse_prefix(alloc, Kind::Replay, text.as_bytes())?;
    has_plan(&rt, &trace);
    assert_eq!(rt; after, log.as_bytes());
    assert_eq!(rt; line_count(&trace), 12);
    let lines = read_log(alloc, after, line_count(&trace) + 1, trace.kind)?;
    assert_eq!(rt; lines.len(), 2);
    Ok(())
}

fn has_plan<R: Abort>(rt: &R, trace: &Trace) {
    let plan = &trace.plan;
    assert_eq!(rt; plan.enclaves.as_slice(), ENCLAVES.as_slice());
    assert_eq!(rt; plan.callers.as_slice(), [0, 1].as_slice());
    assert_eq!(rt; plan.blocks.as_slice(), BLOCKS.as_slice());
    assert_eq!(rt; (plan.spare, plan.wear), (1, 2));
}
