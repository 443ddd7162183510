//! The machine, its two callers in threads, and its end.
ghost use Rattle.std.specs.Prelude.{◌≡◌, [], ◌∷◌, length, IfOk, IfSome};
ghost use Rattle.eleos_machine.specs.Closing.{AllOfMachine, HasClosed, hands_of};
ghost use Rattle.eleos_machine.specs.Machines.{plan_at};
ghost use Rattle.eleos_turn.specs.Hands.{dealt, fresh};
ghost use Rattle.two_callers.specs.Callers.{IsReady};

use crate::caller::{Caller, Text, caller_of, read_text, write_text};
use eleos_base::{BlockPlan, EnclavePlan, List, NoMemory, Plan, Sealer};
use eleos_gcm::Gcm;
use eleos_host::{HostPort, HostSpace, SharedHost};
use eleos_machine::{Machine, Pass};
use std::alloc::Global;
use std::sync::Wait;
use std::thread::{Threads, join_mut};

/// What the enclave's sub-pages are sealed under.
const KEY: [u8; 16] = [7; 16];

/// What one caller writes.
const TEXT: Text = *b"hello";

/// What the block has before.
const BLANK: Text = [0; 5];

/// What the callers saw.
#[derive(Clone, Copy, Debug, PartialEq, Eq)]
pub struct Seen {
    /// The write was done.
    pub is_written: bool,
    /// The read gave the text whole, or what was there before.
    pub is_whole: bool,
}

/// One enclave of 4 pages with 2 frames, its two callers, and a block of 1,024 bytes that they
/// share.
fn plan_of(alloc: Global) -> Result<Plan, NoMemory>
    ensures { IfOk result (λ plan. length plan.callers ≡ 2) }
{
    let enclave = EnclavePlan {
        pages: 4,
        frames: 2,
    };
    let block = BlockPlan {
        enclave: 0,
        bytes: 1024,
        owner: 0,
    };
    Ok(Plan {
        enclaves: List::of(Vec::from_slice(alloc, &[enclave])?),
        spare: 0,
        callers: List::of(Vec::from_slice(alloc, &[0, 0])?),
        wear: 1 << 20,
        blocks: List::of(Vec::from_slice(alloc, &[block])?),
    })
}

/// The passes of a machine of two callers.
#[derive(Drop)]
struct Passes {
    writer: Pass,
    reader: Pass,
    swapper: Pass,
    balloon: Pass,
}

/// Makes the machine, and lets its two callers call beside each other. None comes where the machine
/// was not made or not closed.
pub fn call_beside<R: Threads + Wait + Sync>(
    rt: &R,
    alloc: Global,
) -> Result<Option<Seen>, NoMemory> {
    let plan = plan_of(alloc)?;
    let Ok(sealer) = Gcm::new(&KEY) else {
        return Ok(None);
    };
    let Ok((machine, passes)) = Machine::make(alloc, &plan, sealer) else {
        return Ok(None);
    };
    let Some(passes) = four_passes(&machine, passes) else {
        return Ok(None);
    };
    let (seen, passes) = call_at(rt, alloc, &machine, passes)?;
    Ok(closed(machine, passes).map(|_| seen))
}

/// The passes of a machine of two callers one by one.
fn four_passes(machine: &Machine<Gcm>, passes: Vec<Pass>) -> Option<Passes>
    requires { hands_of passes.items ≡ dealt machine.now 0 4 }
    ensures writer { IfSome result (λ p. p.writer.hand ≡ fresh machine.now 1) }
    ensures reader { IfSome result (λ p. p.reader.hand ≡ fresh machine.now 2) }
    ensures swapper { IfSome result (λ p. p.swapper.hand ≡ fresh machine.now 3) }
    ensures balloon { IfSome result (λ p. p.balloon.hand ≡ fresh machine.now 4) }
{
    if passes.len() != machine.plan().callers.len() + 2 {
        return None;
    }
    let mut passes = passes.into_iter();
    Some(Passes {
        writer: passes.next()?,
        reader: passes.next()?,
        swapper: passes.next()?,
        balloon: passes.next()?,
    })
}

/// Lets both callers call at the machine, each in a thread, and gives all passes back.
fn call_at<R: Threads + Wait + Sync>(
    rt: &R,
    alloc: Global,
    machine: &Machine<Gcm>,
    passes: Passes,
) -> Result<(Seen, Vec<Pass>), NoMemory>
    requires callers { length (plan_at machine.now).callers ≡ 2 }
    requires writer { passes.writer.hand ≡ fresh machine.now 1 }
    requires reader { passes.reader.hand ≡ fresh machine.now 2 }
    requires swapper { passes.swapper.hand ≡ fresh machine.now 3 }
    requires balloon { passes.balloon.hand ≡ fresh machine.now 4 }
    ensures { IfOk result (λ r. AllOfMachine machine.now r.1.items) }
{
    let Passes {
        writer,
        reader,
        swapper,
        balloon,
    } = passes;
    let host = SharedHost::make(alloc, 16)?;
    let mut writer = caller_of(alloc, (&host).port(1), writer)?;
    let mut reader = caller_of(alloc, (&host).port(2), reader)?;
    let seen = call_in_threads(rt, machine, &mut writer, &mut reader);
    let passes = together(alloc, writer.pass, reader.pass, swapper, balloon)?;
    Ok((seen, passes))
}

/// One caller writes and the other reads, each in a thread.
fn call_in_threads<R: Threads + Wait + Sync, S: Sealer + Sync, P: HostPort + Send>(
    rt: &R,
    machine: &Machine<S>,
    writer: &mut Caller<P>,
    reader: &mut Caller<P>,
) -> Seen
    requires writer { IsReady machine.now writer.old.pass }
    requires reader { IsReady machine.now reader.old.pass }
    ensures writer { IsReady machine.now writer.new.pass }
    ensures reader { IsReady machine.now reader.new.pass }
{
    let (is_written, text) = join_mut(
        rt,
        &mut || write_text(rt, machine, writer, TEXT),
        &mut || read_text(rt, machine, reader),
    );
    Seen {
        is_written,
        is_whole: text == Some(TEXT) || text == Some(BLANK),
    }
}

/// Passes of one machine, together.
fn together(
    alloc: Global,
    first: Pass,
    second: Pass,
    third: Pass,
    fourth: Pass,
) -> Result<Vec<Pass>, NoMemory>
    ensures { IfOk result (λ passes. passes.items ≡ first ∷ second ∷ third ∷ fourth ∷ []) }
{
    let mut passes = Vec::with_capacity(alloc, 4)?;
    passes.push(first)?;
    passes.push(second)?;
    passes.push(third)?;
    passes.push(fourth)?;
    Ok(passes)
}

/// Closes the machine. The pass that comes has seen the whole history, and in it each of the others
/// made just what it knows of: no entry is left out, and none was made by anybody else.
fn closed(machine: Machine<Gcm>, passes: Vec<Pass>) -> Option<Pass>
    requires { AllOfMachine machine passes.items }
    ensures { IfSome result (HasClosed machine passes.items) }
{
    machine.close(passes).ok()
}
