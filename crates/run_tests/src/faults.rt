// Sources and sinks that fail in mid-stream: what was put before, and with which status the call
// ends.

use crate::calls::{Call, OpenGate, made};
use eleos_base::Status;
use std::alloc::{AllocError, Global};
use std::test::*;

/// What comes in.
#[derive(Clone, Copy)]
enum Input {
    /// A trace of the word that the call has.
    Trace,
    Vectors,
    Refused,
}

/// A trace of a caller behind its first line.
const BEHIND: &str = "enclave 0 pages 4 frames 1
spare 0
caller 1 enclave 0
wear 1000
key 000102030405060708090a0b0c0d0e0f
start
c1 alloc a 1
c1 write a 0 41
c1 read a 0 1
end
";

const VECTORS: &str = "seal 00000000000000000000000000000000 000000000000000000000000 - -
aes 000102030405060708090a0b0c0d0e0f 00112233445566778899aabbccddeeff
end
";

const REFUSED: &str = "eleos 2 run\n";

const NOTHING: &str = "";

fn text_of(alloc: Global, word: &str, input: Input) -> Result<String, AllocError> {
    match input {
        Input::Trace => format!(in alloc; "eleos 1 {word}\n{BEHIND}"),
        Input::Vectors => VECTORS.to_string(alloc),
        Input::Refused => REFUSED.to_string(alloc),
    }
}

/// A word, what comes in, and the number of the take that fails, from 0.
const TAKES: [(&str, Input, u64); 6] = [
    ("replay", Input::Trace, 0),
    ("replay", Input::Trace, 1),
    ("run", Input::Trace, 0),
    ("run", Input::Trace, 1),
    ("gcm", Input::Vectors, 0),
    ("gcm", Input::Vectors, 1),
];

#[test]
fn a_failed_take_puts_nothing(rt: HostRuntime) -> Result<(), Fail> {
    for (word, input, failing) in TAKES {
        let text = text_of(rt.alloc(), word, input)?;
        let call = Call {
            word,
            input: &text,
            failing_take: Some(failing),
            failing_put: None,
        };
        let came = made(&rt, rt.alloc(), &OpenGate, call)?;
        assert_eq!(rt; came.status, Status::ReadFault, "{word}: take {failing}");
        assert!(rt;
            came.put.is_empty() && came.lines.is_none(),
            "{word}: take {failing}"
        );
    }
    Ok(())
}

/// A word, what comes in, the number of the put that fails, the status, what was put before, and
/// how many lines the log of a run has.
const PUTS: [(&str, Input, u64, Status, &str, Option<usize>); 8] = [
    ("replay", Input::Trace, 0, Status::WriteFault, NOTHING, None),
    (
        "replay",
        Input::Trace,
        2,
        Status::WriteFault,
        "0 c1 alloc a 1 = at 0\n1 c1 write a 0 41 = ok\n",
        None,
    ),
    ("run", Input::Trace, 0, Status::WriteFault, NOTHING, Some(4)),
    (
        "run",
        Input::Trace,
        2,
        Status::WriteFault,
        "0 c1 alloc a 1 = at 0\n1 c1 write a 0 41 = ok\n",
        Some(4),
    ),
    ("gcm", Input::Vectors, 0, Status::WriteFault, NOTHING, None),
    ("replay", Input::Refused, 0, Status::Refused, NOTHING, None),
    ("run", Input::Refused, 0, Status::Refused, NOTHING, None),
    ("gcm", Input::Refused, 0, Status::Refused, NOTHING, None),
];

#[test]
fn a_failed_put_leaves_what_was_put_before(rt: HostRuntime) -> Result<(), Fail> {
    for (word, input, failing, status, put, lines) in PUTS {
        let text = text_of(rt.alloc(), word, input)?;
        let call = Call {
            word,
            input: &text,
            failing_take: None,
            failing_put: Some(failing),
        };
        let came = made(&rt, rt.alloc(), &OpenGate, call)?;
        assert_eq!(rt; came.status, status, "{word}: put {failing}");
        assert_eq!(rt; came.put.as_str(), put, "{word}: put {failing}");
        assert_eq!(rt; came.lines, lines, "{word}: put {failing}");
    }
    Ok(())
}
