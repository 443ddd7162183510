// Rounds of the swapper and changes of shares, of callers and beside them.

use crate::calls::{Call, Came, OpenGate, made};
use eleos_base::Status;
use std::alloc::{AllocError, Global};
use std::process::Abort;
use std::sync::Wait;
use std::test::*;
use std::thread::Threads;

/// Two enclaves of a page and a frame each, with one frame of the pool.
const SPARE: &str = "eleos 1 run
enclave 0 pages 1 frames 1
enclave 1 pages 1 frames 1
spare 1
caller 1 enclave 0
caller 2 enclave 1
wear 9
key 000102030405060708090a0b0c0d0e0f
start
c1 balloon 0 2
c1 balloon 0 3
c1 balloon 0 0
c1 swap 0 0
c1 swap 0 1
end
";

/// What comes of it: the frames go to the pool from the front of the enclave's list.
const SPARED: &str = "0 c1 move 2 - 0 = ok
1 c1 balloon 0 2 = done 2
2 c1 balloon 0 3 = short 2
3 c1 move 0 0 - = ok
4 c1 move 2 0 - = ok
5 c1 balloon 0 0 = done 0
6 c1 swap 0 0 = enough 0
7 c1 swap 0 1 = swept 0
end 8
";

#[test]
fn frames_go_from_the_pool_and_back(rt: HostRuntime) -> Result<(), Fail> {
    let came = ran(&rt, rt.alloc(), SPARE)?;
    assert_eq!(rt; came.status, Status::Done);
    assert_eq!(rt; came.put.as_str(), SPARED);
    Ok(())
}

/// Two callers, the swapper and the balloon over eight frames.
const BESIDE: &str = "eleos 1 run
enclave 0 pages 4 frames 4
enclave 1 pages 4 frames 3
spare 1
caller 1 enclave 0
caller 2 enclave 1
wear 1000
key 000102030405060708090a0b0c0d0e0f
start
c1 alloc a 4096
c1 write a 0 41
c1 read a 0 1
c1 swap 0 4
c1 balloon 0 2
c1 write a 1024 42
c1 read a 1024 1
c2 alloc b 4096
c2 write b 0 43
c2 balloon 1 5
c2 read b 0 1
c2 swap 1 1
s swap 0 2
s swap 1 3
s swap 0 8
b balloon 0 3
b balloon 1 2
b balloon 0 5
b balloon 1 0
end
";

#[test]
fn the_swapper_and_the_balloon_run_beside_callers(rt: HostRuntime) -> Result<(), Fail> {
    for _run in 0..100u32 {
        let came = ran(&rt, rt.alloc(), BESIDE)?;
        assert_eq!(rt; came.status, Status::Done);
        are_counted(&rt, came.put.as_str())?;
    }
    Ok(())
}

/// Two callers for each of four enclaves of four pages, each with eight frames.
const CROWD: &str = "eleos 1 run
enclave 0 pages 8 frames 8
enclave 1 pages 8 frames 8
enclave 2 pages 8 frames 8
enclave 3 pages 8 frames 8
spare 0
caller 1 enclave 0
caller 2 enclave 0
caller 3 enclave 1
caller 4 enclave 1
caller 5 enclave 2
caller 6 enclave 2
caller 7 enclave 3
caller 8 enclave 3
wear 1000
key 000102030405060708090a0b0c0d0e0f
start
";

/// The balloon moves every frame to the pool and back, while callers write and read.
#[test]
fn every_frame_goes_to_the_pool_and_back_beside_callers(rt: HostRuntime) -> Result<(), Fail> {
    let trace = crowded(rt.alloc())?;
    let came = ran(&rt, rt.alloc(), trace.as_str())?;
    assert_eq!(rt; came.status, Status::Done);
    are_counted(&rt, came.put.as_str())
}

fn crowded(alloc: Global) -> Result<String, AllocError> {
    let mut trace = CROWD.to_string(alloc)?;
    for caller in 1..9u32 {
        trace.push_str(format!(in alloc; "c{caller} alloc a 4096\n")?.as_str())?;
        for _time in 0..50u32 {
            let both = format!(in alloc; "c{caller} write a 0 41\nc{caller} read a 0 1\n")?;
            trace.push_str(both.as_str())?;
        }
    }
    for time in 0..50u32 {
        for enclave in 0..4u32 {
            let to = if time % 2 == 0 { 0 } else { 8 };
            let line = format!(in alloc; "b balloon {enclave} {to}\n")?;
            trace.push_str(line.as_str())?;
        }
    }
    trace.push_str("end\n")?;
    Ok(trace)
}

fn ran<R: Threads + Wait + Sync>(rt: &R, alloc: Global, input: &str) -> Result<Came, Fail> {
    let call = Call {
        word: "run",
        input,
        failing_take: None,
        failing_put: None,
    };
    made(rt, alloc, &OpenGate, call)
}

/// The number in the last line of the log is that of its lines with a stamp.
fn are_counted<R: Abort>(rt: &R, log: &str) -> Result<(), Fail> {
    let mut stamped: u32 = 0;
    let mut told: Option<u32> = None;
    for line in log.lines() {
        let Some((first, rest)) = line.split_once(' ') else {
            return Err(Fail::from("no line"));
        };
        if first == "end" {
            told = rest.parse().ok();
        } else if first != "-" {
            stamped = stamped.saturating_add(1);
        }
    }
    assert!(rt; told == Some(stamped));
    Ok(())
}
