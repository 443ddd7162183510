// A host that replies what it likes to the calls of a run: the log tells what its ring showed.

use crate::calls::{Call, OpenGate, made_by};
use eleos_words::{CELL_WORDS, DONE, ID, LENGTH, PortNotes, RingPort, RingSpace, STATE, STATUS};
use std::test::*;

/// A ring that shows the same reply in each cell, whatever is stored there.
#[derive(Clone, Copy)]
struct Shown {
    id: u64,
    length: u64,
    status: u64,
}

/// A way to such a ring.
#[derive(Drop)]
struct ShownPort {
    shown: Shown,
    notes: PortNotes,
}

impl RingSpace for Shown {
    type Port = ShownPort;

    fn port(&self, _who: u32) -> ShownPort {
        ShownPort {
            shown: *self,
            notes: PortNotes::new(),
        }
    }
}

impl RingPort for ShownPort {
    ghost showed = { λ i word. Unit {0} };

    ghost wrote = { λ i word. Unit {0} };

    ghost loaded = { λ port. port.notes.loaded };

    ghost stored = { λ port. port.notes.stored };

    ghost calls = { λ port. port.notes.calls };

    fn glance(&mut self) {
        self.notes.glance();
    }

    fn load(&mut self, i: u32) -> u64 {
        let word = match i % CELL_WORDS {
            STATE => DONE,
            ID => self.shown.id,
            LENGTH => self.shown.length,
            STATUS => self.shown.status,
            _ => 0x4142_4344_4546_4748,
        };
        self.notes.load(i, word);
        word
    }

    fn store(&mut self, i: u32, word: u64) {
        self.notes.store(i, word);
    }
}

const RUN: &str = "eleos 1 run
enclave 0 pages 1 frames 0
spare 0
caller 1 enclave 0
wear 1000
key 000102030405060708090a0b0c0d0e0f
start
c1 call echo 01 2
end
";

/// What the ring shows, and what the log tells of it.
const LIES: [(Shown, &str); 5] = [
    (
        Shown {
            id: 0,
            length: 1,
            status: 0,
        },
        "- c1 call echo 01 2 = wrongid 0\nend 0\n",
    ),
    (
        Shown {
            id: 2,
            length: 3,
            status: 4,
        },
        "- c1 call echo 01 2 = wrongid 2\nend 0\n",
    ),
    (
        Shown {
            id: 1,
            length: 3,
            status: 4,
        },
        "- c1 call echo 01 2 = toolong 3\nend 0\n",
    ),
    (
        Shown {
            id: 1,
            length: 2,
            status: 4,
        },
        "- c1 call echo 01 2 = badstatus 4\nend 0\n",
    ),
    (
        Shown {
            id: 1,
            length: 2,
            status: 3,
        },
        "- c1 call echo 01 2 = reply 3 4142\nend 0\n",
    ),
];

#[test]
fn the_log_tells_what_the_ring_showed(rt: HostRuntime) -> Result<(), Fail> {
    let call = Call {
        word: "run",
        input: RUN,
        failing_take: None,
        failing_put: None,
    };
    for (shown, log) in LIES {
        let came = made_by(&rt, rt.alloc(), &shown, &OpenGate, call)?;
        assert_eq!(rt; came.put.as_str(), log);
    }
    Ok(())
}
