// Frames that an enclave gives to the pool.
ghost use Rattle.std.specs.Prelude.{◌≡◌, ◌*◌, ◌-◌, ◌<◌, ◌≤◌, length};
ghost use Rattle.eleos_core.specs.Legal.{IsActor};
ghost use Rattle.eleos_machine.specs.Holding.{HasSole};
ghost use Rattle.eleos_machine.specs.Machines.{plan_at};
ghost use Rattle.eleos_machine.specs.Passes.{last_stamp};
ghost use Rattle.eleos_pages.specs.Evicted.{HasEvicted};
ghost use Rattle.eleos_plot.specs.Terms.{core_terms};
ghost use Rattle.eleos_turn.specs.Hands.{entries};
ghost use Rattle.eleos_balloon.specs.Holds.{Holds};
ghost use Rattle.eleos_balloon.specs.Releases.{MayRelease, Releases, ReleasesOne, ReleasesTo};

use crate::moves::move_frame;
use crate::pool::pool_clock;
use crate::went::Went;
use eleos_base::Sealer;
use eleos_clock::{Found, NoVictim, give_clock, victim};
use eleos_host::{HostPort, Tap};
use eleos_machine::{ClockTurn, FreeFrame, Machine, Pass, SolePage};
use eleos_pages::evict;
use eleos_swap::Evicted;
use std::sync::Wait;

/// Gives one frame of the enclave to the pool: a free one, or that of a page that nobody links,
/// which leaves it first. None comes where there is no such frame; then the pass's notes have each
/// frame once. Waits for the turn of the pool's clock cell.
pub fn release_one<R: Wait, S: Sealer, P: HostPort>(
    rt: &R,
    m: &Machine<S>,
    pass: &mut Pass,
    enclave: u16,
    clock: &mut ClockTurn,
    tap: &mut Tap<P>,
) -> Option<Went>
    requires own { pass.old.hand.home ≡ m.now }
    requires holds { Holds enclave clock.old pass.old }
    requires left { 2 ≤ pass.old.hand.left }
    ensures { ReleasesOne P.HostPort.own P.HostStore.own pass.old tap.old enclave clock.old
        result pass.new tap.new clock.new }
{
    let _ = pass.left();
    m.sweep_clear(pass, true);
    match victim(m, pass, clock, true) {
        Err(NoVictim) => None,
        Ok(Found::Free(free)) => {
            let frame = free.frame;
            let stamp = release(rt, m, pass, enclave, clock, free);
            Some(Went {
                evicted: None,
                frame,
                stamp,
            })
        }
        Ok(Found::Sole(sole)) => {
            let (free, left) = evict_from(m, pass, sole, tap);
            let frame = free.frame;
            let stamp = release(rt, m, pass, enclave, clock, free);
            Some(Went {
                evicted: Some(left),
                frame,
                stamp,
            })
        }
    }
}

/// Evicts a page, and answers its frame with what is to be told of the evict.
fn evict_from<S: Sealer, P: HostPort>(
    m: &Machine<S>,
    pass: &mut Pass,
    sole: SolePage,
    tap: &mut Tap<P>,
) -> (FreeFrame, Evicted)
    requires own { pass.old.hand.home ≡ m.now }
    requires actor { IsActor (plan_at m.now) pass.old.hand.number }
    requires left { 0 < pass.old.hand.left }
    requires has { HasSole pass.old sole }
    ensures evicted { HasEvicted P.HostPort.own P.HostStore.own pass.old tap.old
        sole result.0 result.1.puts pass.new tap.new }
    ensures told { result.1 ≡ record {
      stamp = last_stamp (entries core_terms pass.new.hand);
      page = sole.page;
      frame = result.0.frame;
      puts = result.1.puts;
    } }
{
    let page = sole.page;
    let (free, puts) = evict(m, pass, sole, tap);
    let left = Evicted {
        stamp: pass.last_stamp(),
        page,
        frame: free.frame,
        puts,
    };
    (free, left)
}

/// Moves a free frame of the enclave to the pool, and answers the place of the move in the history.
fn release<R: Wait, S: Sealer>(
    rt: &R,
    m: &Machine<S>,
    pass: &mut Pass,
    enclave: u16,
    clock: &mut ClockTurn,
    free: FreeFrame,
) -> u64
    requires own { pass.old.hand.home ≡ m.now }
    requires may { MayRelease enclave clock.old free pass.old }
    requires left { 0 < pass.old.hand.left }
    ensures { Releases pass.old enclave free.frame clock.old result pass.new clock.new }
{
    let _ = pass.left();
    let mut pool = pool_clock(rt, m, pass);
    move_frame(m, pass, free, Some(enclave), clock, None, &mut pool);
    let stamp = pass.last_stamp();
    give_clock(m, pass, pool);
    stamp
}

/// Gives frames of the enclave to the pool until it has `to`, as long as there is one to give.
pub(crate) fn release_to<R: Wait, S: Sealer, P: HostPort>(
    rt: &R,
    m: &Machine<S>,
    pass: &mut Pass,
    enclave: u16,
    clock: &mut ClockTurn,
    to: u32,
    tap: &mut Tap<P>,
)
    requires own { pass.old.hand.home ≡ m.now }
    requires holds { Holds enclave clock.old pass.old }
    requires more { to ≤ length clock.old.clock }
    requires left { 2 * (length clock.old.clock - to) ≤ pass.old.hand.left }
    ensures { ReleasesTo P.HostPort.own P.HostStore.own pass.old tap.old enclave clock.old to
        pass.new tap.new clock.new }
{
    let _ = pass.left();
    let most = clock.clock.len() - to as usize;
    for _done in 0..most {
        let Some(_) = release_one(rt, m, pass, enclave, clock, tap) else {
            return;
        };
    }
}
