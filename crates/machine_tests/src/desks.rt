// A caller's pass as a memory, used by a function that knows the trait alone.
ghost use Rattle.std.specs.Prelude.{◌≡◌, ◌≤◌, length};
ghost use Rattle.eleos_turn.specs.Hands.{fresh};
ghost use Rattle.eleos_machine.specs.Machines.{plan_at};
ghost use Rattle.eleos_direct.specs.Desks.{IsAtDesk, IsExchanged};

use crate::setups::{tap_of, two_callers};
use eleos_base::{AccessRefused, Addr, SubMemory};
use eleos_direct::{Desk, read};
use eleos_gcm::Gcm;
use eleos_host::{HostPort, SharedHost, Tap};
use eleos_machine::{Machine, Pass};
use std::alloc::Global;
use std::process::Abort;
use std::sync::Wait;
use std::test::*;

// Keeps a word in a block of its own, reads it back and frees the block.
fn keep<M: SubMemory>(memory: &mut M, word: [u8; 4]) -> Option<[u8; 4]>
    requires left { 4 ≤ (M.state memory.old).left }
    ensures origin { (M.state memory.new).origin ≡ (M.state memory.old).origin }
{
    let mut found = [0; 4];
    let at = memory.alloc(1024).ok()?;
    memory.write(at, &word).ok()?;
    memory.read(at, &mut found).ok()?;
    memory.free(at).ok()?;
    Some(found)
}

// The same with a caller's pass, which is one at its machine still.
fn keep_by_desk<R: Wait, P: HostPort>(
    rt: &R,
    machine: &Machine<Gcm>,
    pass: &mut Pass,
    tap: &mut Tap<P>,
    word: [u8; 4],
) -> Option<[u8; 4]>
    requires fits { IsAtDesk machine.now pass.old }
    requires exchanged { IsExchanged P.gave P.took machine.now pass.old }
    requires left { 4 ≤ pass.old.hand.left }
    ensures fits { IsAtDesk machine.now pass.new }
    ensures exchanged { IsExchanged P.gave P.took machine.now pass.new }
{
    let mut desk = Desk::of(rt, machine, pass, tap);
    keep(&mut desk, word)
}

#[test]
fn a_pass_is_a_memory(rt: HostRuntime) -> Result<(), Fail> {
    let Ok(host) = SharedHost::make(rt.alloc(), 8) else {
        return Err("host".into());
    };
    keep_over(&rt, rt.alloc(), &host)
}

fn keep_over<R: Wait + Abort>(rt: &R, alloc: Global, host: &SharedHost) -> Result<(), Fail> {
    let mut tap = tap_of(alloc, host)?;
    let (machine, one, _, _) = two_callers(alloc)?;
    keep_and_look(rt, &machine, one, &mut tap);
    Ok(())
}

// The word is there until the block is freed.
fn keep_and_look<R: Wait + Abort, P: HostPort>(
    rt: &R,
    machine: &Machine<Gcm>,
    pass: Pass,
    tap: &mut Tap<P>,
)
    requires callers { length (plan_at machine.now).callers ≡ 2 }
    requires pass { pass.hand ≡ fresh machine.now 1 }
{
    let mut pass = pass;
    if pass.left() < 4 {
        return;
    }
    let kept = keep_by_desk(rt, machine, &mut pass, tap, *b"mine");
    assert_eq!(rt; kept, Some(*b"mine"));
    if pass.left() == 0 {
        return;
    }
    let at = Addr {
        enclave: 1,
        at: 3072,
    };
    let mut found = [0; 4];
    let answer = read(rt, machine, &mut pass, tap, at, &mut found);
    assert_eq!(rt; answer, Err(AccessRefused::Unallocated));
}
