// Rounds of the swapper over an enclave of one frame, which is free.
ghost use Rattle.std.specs.Prelude.{◌≡◌, length};
ghost use Rattle.eleos_base.specs.Places.{all_frames};
ghost use Rattle.eleos_turn.specs.Hands.{fresh};
ghost use Rattle.eleos_machine.specs.Machines.{plan_at};

use crate::setups::{tap_of, two_callers};
use eleos_gcm::Gcm;
use eleos_host::{HostPort, SharedHost, Tap};
use eleos_machine::{Machine, Pass};
use eleos_swap::{RoundEnd, swap_round};
use std::alloc::Global;
use std::process::Abort;
use std::sync::Wait;
use std::test::*;

// The enclave of the callers.
const ENCLAVE: u16 = 1;

#[test]
fn a_round_counts_the_free_frame(rt: HostRuntime) -> Result<(), Fail> {
    let Ok(host) = SharedHost::make(rt.alloc(), 8) else {
        return Err("host".into());
    };
    swap_over(&rt, rt.alloc(), &host)
}

fn swap_over<R: Wait + Abort>(rt: &R, alloc: Global, host: &SharedHost) -> Result<(), Fail> {
    let mut tap = tap_of(alloc, host)?;
    let (machine, _, _, swapper) = two_callers(alloc)?;
    swap_twice(rt, &machine, swapper, &mut tap);
    Ok(())
}

// A frame is enough where one is wanted; where two are, no page is found that could leave its own.
fn swap_twice<R: Wait + Abort, P: HostPort>(
    rt: &R,
    machine: &Machine<Gcm>,
    pass: Pass,
    tap: &mut Tap<P>,
)
    requires enclaves { length (plan_at machine.now).enclaves ≡ 2 }
    requires callers { length (plan_at machine.now).callers ≡ 2 }
    requires frames { all_frames (plan_at machine.now) ≡ 2 }
    requires pass { pass.hand ≡ fresh machine.now 3 }
{
    let mut pass = pass;
    if pass.left() < 3 {
        return;
    }
    let end = swap_round(rt, machine, &mut pass, ENCLAVE, 1, tap);
    assert_eq!(rt; end, RoundEnd::Enough { free: 1 });
    if pass.left() < 3 {
        return;
    }
    let end = swap_round(rt, machine, &mut pass, ENCLAVE, 2, tap);
    assert_eq!(rt; end, RoundEnd::Swept { free: 1 });
}
