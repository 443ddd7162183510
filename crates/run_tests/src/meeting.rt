// Two callers beside each other, where a gate holds one until the other has come further.

use crate::calls::{Call, made};
use eleos_base::{Gate, Status};
use std::alloc::{AllocError, Global};
use std::process::Abort;
use std::sync::Wait;
use std::sync::atomic::{AtomicBool, Ordering};
use std::test::*;
use std::thread::Threads;

/// Two callers in one enclave of a page, with a block that both may use.
const INPUT: &str = "eleos 1 run
enclave 0 pages 1 frames 0
spare 0
caller 1 enclave 0
caller 2 enclave 0
wear 9
key 000102030405060708090a0b0c0d0e0f
block note enclave 0 bytes 1024 owner 0
start
c1 alloc a 1
c1 write a 0 4142
c1 read a 1 1
c1 share a
c2 alloc b 2000
c2 write b 1024 43
c2 read b 1024 2
c2 read note 0 1025
c2 write note 0 44
end
";

/// What comes behind the commands that take blocks in the log, without its stamps.
const BEHIND: &str = "c2 write b 1024 43 = ok
c2 read b 1024 2 = got 4300
c2 read note 0 1025 = badrange
c2 write note 0 44 = ok
9
";

/// How often a caller that is held looks for the other one.
const MOST_LOOKS: u32 = 100_000_000;

/// It holds a caller before its first command until another one is before its second.
#[derive(Drop)]
struct Meeting {
    held: u32,
    has_other_come: AtomicBool,
    is_missed: AtomicBool,
}

impl Meeting {
    fn holding(held: u32) -> Self {
        Meeting {
            held,
            has_other_come: AtomicBool::new(false),
            is_missed: AtomicBool::new(false),
        }
    }

    fn wait(&self) {
        for _look in 0..MOST_LOOKS {
            if self.has_other_come.load(Ordering::SeqCst) {
                return;
            }
        }
        self.is_missed.store(true, Ordering::SeqCst);
    }
}

impl Gate for Meeting {
    fn reach(&self, who: u32, command: u32) {
        if who == self.held && command == 0 {
            self.wait();
        }
        if who != self.held && command == 1 {
            self.has_other_come.store(true, Ordering::SeqCst);
        }
    }
}

#[test]
fn two_callers_run_beside_each_other(rt: HostRuntime) -> Result<(), Fail> {
    meet(&rt, rt.alloc(), 1, (3072, 1024))?;
    meet(&rt, rt.alloc(), 2, (1024, 2048))
}

/// The log without its stamps, where the blocks of the two callers begin at these places.
fn log_of(alloc: Global, (first, second): (u32, u32)) -> Result<String, AllocError> {
    format!(in alloc;
        "c1 alloc a 1 = at {first}
c1 write a 0 4142 = ok
c1 read a 1 1 = got 42
c1 share a = ok
c2 alloc b 2000 = at {second}
{BEHIND}"
    )
}

/// Both callers have to be there at a time. The one that was not held has its block first.
fn meet<R: Threads + Wait + Sync + Abort>(
    rt: &R,
    alloc: Global,
    held: u32,
    blocks: (u32, u32),
) -> Result<(), Fail> {
    let gate = Meeting::holding(held);
    let call = Call {
        word: "run",
        input: INPUT,
        failing_take: None,
        failing_put: None,
    };
    let came = made(rt, alloc, &gate, call)?;
    assert!(rt; !gate.is_missed.load(Ordering::SeqCst));
    assert_eq!(rt; came.status, Status::Done);
    assert_eq!(rt;
        unstamped(alloc, came.put.as_str())?,
        log_of(alloc, blocks)?
    );
    Ok(())
}

/// The lines without the first word of each.
fn unstamped(alloc: Global, log: &str) -> Result<String, AllocError> {
    let mut text = String::new(alloc);
    for line in log.lines() {
        if let Some((_stamp, rest)) = line.split_once(' ') {
            text.push_str(rest)?;
            text.push_str("\n")?;
        }
    }
    Ok(text)
}
