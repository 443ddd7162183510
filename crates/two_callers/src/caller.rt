//! A caller: a pass of the machine and a way to the host, as one thread has them.
ghost use Rattle.std.specs.Prelude.{◌≡◌, Ok};
ghost use Rattle.two_callers.specs.Callers.{IsReady};

use eleos_base::{Addr, NoMemory, Sealer};
use eleos_direct::{read, write};
use eleos_host::{HostPort, Tap};
use eleos_machine::{Machine, Pass};
use std::alloc::Global;
use std::sync::Wait;

/// The bytes of one access.
pub type Text = [u8; 5];

/// The first bytes of the block that both callers share.
const START: Addr = Addr { enclave: 0, at: 0 };

/// What one thread works with.
#[derive(Drop)]
pub struct Caller<P: HostPort> {
    pub pass: Pass,
    pub tap: Tap<P>,
}

/// A caller with this pass, which reaches the host through this port.
pub fn caller_of<P: HostPort + Drop>(
    alloc: Global,
    port: P,
    pass: Pass,
) -> Result<Caller<P>, NoMemory>
    ensures { (caller : _) → result ≡ Ok caller → caller.pass ≡ pass }
{
    let tap = Tap::make(alloc, port)?;
    Ok(Caller { pass, tap })
}

/// Writes the text, and answers whether that was done.
pub fn write_text<S: Sealer, P: HostPort, R: Wait>(
    rt: &R,
    machine: &Machine<S>,
    caller: &mut Caller<P>,
    text: Text,
) -> bool
    requires { IsReady machine.now caller.old.pass }
    ensures { IsReady machine.now caller.new.pass }
{
    if caller.pass.left() == 0 {
        return false;
    }
    write(rt, machine, &mut caller.pass, &mut caller.tap, START, &text).is_ok()
}

/// Reads a text, where the read is not refused.
pub fn read_text<S: Sealer, P: HostPort, R: Wait>(
    rt: &R,
    machine: &Machine<S>,
    caller: &mut Caller<P>,
) -> Option<Text>
    requires { IsReady machine.now caller.old.pass }
    ensures { IsReady machine.now caller.new.pass }
{
    if caller.pass.left() == 0 {
        return None;
    }
    let mut text = [0; 5];
    read(
        rt,
        machine,
        &mut caller.pass,
        &mut caller.tap,
        START,
        &mut text,
    )
    .ok()?;
    Some(text)
}
