// An enclave's share of the frames.
ghost use Rattle.std.specs.Prelude.{◌≡◌, ◌+◌, ◌*◌, ◌<◌, ◌≤◌, [], false, true, length};
ghost use Rattle.eleos_base.specs.Places.{all_frames};
ghost use Rattle.eleos_machine.specs.Passes.{plan_of};
ghost use Rattle.eleos_balloon.specs.Gathers.{BeginsGather};
ghost use Rattle.eleos_balloon.specs.Holds.{Begins, CanShare, Holds};
ghost use Rattle.eleos_balloon.specs.Shares.{EndsShare, Gets, MayEndGather, MayEndRelease, Shares};

use crate::ends::{BalloonEnd, end_of, survey};
use crate::gathers::gather_to;
use crate::pool::pool_clock;
use crate::releases::release_to;
use eleos_base::Sealer;
use eleos_clock::{clock, give_clock};
use eleos_host::{HostPort, Tap};
use eleos_machine::{ClockTurn, Machine, Pass};
use std::sync::Wait;

/// Changes the number of the enclave's frames to `to`, at most 512, as far as it can: gives free
/// frames and those of pages that nobody links to the pool, or brings frames of the pool that are
/// not busy. Each evict begins the tap anew. Waits for the turns of the enclave's clock cell and of
/// the pool's, and takes no memory.
pub fn set_share<R: Wait, S: Sealer, P: HostPort>(
    rt: &R,
    m: &Machine<S>,
    pass: &mut Pass,
    enclave: u16,
    to: u32,
    tap: &mut Tap<P>,
) -> BalloonEnd
    requires can { CanShare m.now enclave pass.old }
    requires most { to ≤ 512 }
    ensures { Shares P.HostPort.own P.HostStore.own pass.old tap.old enclave to result
        pass.new tap.new }
{
    let taken = begin_share(rt, m, pass, enclave);
    // What it has seen is a legal history.
    let _ = pass.left();
    if taken.clock.len() < to as usize {
        get_frames(rt, m, pass, taken, enclave, to)
    } else {
        give_frames(rt, m, pass, taken, enclave, to, tap)
    }
}

/// Begins a change: empties the pass's sweep, and takes the turn of the enclave's clock cell. Waits
/// for that turn.
pub fn begin_share<R: Wait, S: Sealer>(
    rt: &R,
    m: &Machine<S>,
    pass: &mut Pass,
    enclave: u16,
) -> ClockTurn
    requires can { CanShare m.now enclave pass.old }
    ensures { Begins pass.old enclave result pass.new }
{
    let _ = pass.left();
    m.sweep_clear(pass, true);
    clock(rt, m, pass, enclave)
}

/// Begins to bring frames of the pool: takes the turn of the pool's clock cell too. Waits for it.
pub fn begin_gather<R: Wait, S: Sealer>(
    rt: &R,
    m: &Machine<S>,
    pass: &mut Pass,
    enclave: u16,
    clock: &ClockTurn,
) -> ClockTurn
    requires own { pass.old.hand.home ≡ m.now }
    requires holds { Holds enclave clock.now pass.old }
    requires empty { pass.old.sweep.words ≡ [] }
    ensures { BeginsGather pass.old enclave clock.now result pass.new }
{
    let _ = pass.left();
    pool_clock(rt, m, pass)
}

/// Ends a change in which the enclave gave frames: stamps its survey with what the pass noted, and
/// gives the turn of the clock cell back. Never waits.
pub fn end_release<S: Sealer>(
    m: &Machine<S>,
    pass: &mut Pass,
    clock: ClockTurn,
    enclave: u16,
    to: u32,
) -> BalloonEnd
    requires own { pass.old.hand.home ≡ m.now }
    requires may { MayEndRelease pass.old enclave clock to }
    ensures { EndsShare pass.old enclave to false result pass.new }
{
    let _ = pass.left();
    let reached = clock.clock.len() as u32;
    let end = end_of(m, pass, false, reached, to);
    survey(m, pass, &clock, enclave, to, end);
    give_clock(m, pass, clock);
    end
}

/// Ends a change in which the enclave got frames: stamps its survey with what the pass noted, and
/// gives the turns of both clock cells back. Never waits.
pub fn end_gather<S: Sealer>(
    m: &Machine<S>,
    pass: &mut Pass,
    clock: ClockTurn,
    pool: ClockTurn,
    enclave: u16,
    to: u32,
) -> BalloonEnd
    requires own { pass.old.hand.home ≡ m.now }
    requires may { MayEndGather pass.old enclave clock pool to }
    ensures { EndsShare pass.old enclave to true result pass.new }
{
    let _ = pass.left();
    let reached = clock.clock.len() as u32;
    let end = end_of(m, pass, true, reached, to);
    survey(m, pass, &clock, enclave, to, end);
    give_clock(m, pass, pool);
    give_clock(m, pass, clock);
    end
}

/// The enclave gives frames until it has `to`.
fn give_frames<R: Wait, S: Sealer, P: HostPort>(
    rt: &R,
    m: &Machine<S>,
    pass: &mut Pass,
    taken: ClockTurn,
    enclave: u16,
    to: u32,
    tap: &mut Tap<P>,
) -> BalloonEnd
    requires own { pass.old.hand.home ≡ m.now }
    requires holds { Holds enclave taken pass.old }
    requires more { to ≤ length taken.clock }
    requires left { 2 * all_frames (plan_of pass.old) + 1 ≤ pass.old.hand.left }
    ensures { Shares P.HostPort.own P.HostStore.own pass.old tap.old enclave to result
        pass.new tap.new }
{
    let _ = pass.left();
    let mut clock = taken;
    release_to(rt, m, pass, enclave, &mut clock, to, tap);
    end_release(m, pass, clock, enclave, to)
}

/// The enclave gets frames until it has `to`.
fn get_frames<R: Wait, S: Sealer>(
    rt: &R,
    m: &Machine<S>,
    pass: &mut Pass,
    taken: ClockTurn,
    enclave: u16,
    to: u32,
) -> BalloonEnd
    requires own { pass.old.hand.home ≡ m.now }
    requires holds { Holds enclave taken pass.old }
    requires empty { pass.old.sweep.words ≡ [] }
    requires fewer { length taken.clock < to }
    requires left { 2 * all_frames (plan_of pass.old) + 1 ≤ pass.old.hand.left }
    ensures { Gets pass.old enclave to result pass.new }
{
    let _ = pass.left();
    let mut clock = taken;
    let mut pool = begin_gather(rt, m, pass, enclave, &clock);
    let _ = pass.left();
    gather_to(m, pass, enclave, &mut clock, &mut pool, to);
    end_gather(m, pass, clock, pool, enclave, to)
}
