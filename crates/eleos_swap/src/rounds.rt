// A round of the swapper.
ghost use Rattle.std.specs.Prelude.{◌≡◌};
ghost use Rattle.eleos_swap.specs.Rounds.{Begins, CanSwap, Swaps};

use crate::ends::{RoundEnd, end_round};
use crate::evicts::evict_until;
use eleos_base::Sealer;
use eleos_clock::{clock, note_free};
use eleos_host::{HostPort, Tap};
use eleos_machine::{ClockTurn, Machine, Pass};
use std::sync::Wait;

/// Counts the enclave's frames that it finds free, and evicts pages that nobody links until the
/// free frames are no fewer than `low` or there is no such page left. Each evict begins the tap
/// anew. Waits for the turn of the enclave's clock cell, and takes no memory.
///
/// It is `begin_round`, `evict_one` while fewer than `low` are noted, and `end_round`: who wants to
/// know of each evict calls these three.
pub fn swap_round<R: Wait, S: Sealer, P: HostPort>(
    rt: &R,
    m: &Machine<S>,
    pass: &mut Pass,
    enclave: u16,
    low: u32,
    tap: &mut Tap<P>,
) -> RoundEnd
    requires can { CanSwap m.now enclave pass.old }
    ensures { Swaps P.HostPort.own P.HostStore.own pass.old tap.old
        enclave low result pass.new tap.new }
{
    let mut clock = begin_round(rt, m, pass, enclave);
    // What it has seen is a legal history.
    let _ = pass.left();
    evict_until(m, pass, &mut clock, low, tap);
    end_round(m, pass, clock, enclave, low)
}

/// Begins a round: empties the pass's sweep, takes the turn of the enclave's clock cell, and notes
/// the frames that it finds free. Waits for that turn.
pub fn begin_round<R: Wait, S: Sealer>(
    rt: &R,
    m: &Machine<S>,
    pass: &mut Pass,
    enclave: u16,
) -> ClockTurn
    requires can { CanSwap m.now enclave pass.old }
    ensures { Begins m.now pass.old enclave result pass.new }
{
    let _ = pass.left();
    m.sweep_clear(pass, true);
    let taken = clock(rt, m, pass, enclave);
    note_free(m, pass, &taken);
    taken
}
