// Pages that leave their frames.
ghost use Rattle.std.specs.Prelude.{◌≡◌, ◌<◌, length};
ghost use Rattle.eleos_base.specs.Places.{all_frames};
ghost use Rattle.eleos_core.specs.Legal.{IsActor};
ghost use Rattle.eleos_clock.specs.Frees.{AreFree};
ghost use Rattle.eleos_clock.specs.Searches.{MaySearch};
ghost use Rattle.eleos_machine.specs.Machines.{plan_at};
ghost use Rattle.eleos_swap.specs.Evicts.{Evicts, EvictsOne};
ghost use Rattle.eleos_swap.specs.Making.{HandMoves};

use eleos_base::Sealer;
use eleos_clock::{Found, NoVictim, note, victim};
use eleos_host::{HostPort, Tap};
use eleos_machine::{ClockTurn, Machine, Pass};
use eleos_pages::evict;

/// A page that left its frame.
#[derive(Clone, Copy, Debug, PartialEq, Eq)]
pub struct Evicted {
    /// The place of its entry in the history.
    pub stamp: u64,
    pub page: u32,
    pub frame: u32,
    /// How many blocks went to the host.
    pub puts: u32,
}

/// Evicts one page of the clock's enclave that nobody links, and notes its frame as free. None
/// comes where no frame has such a page; then each frame is noted once. Never waits.
pub fn evict_one<S: Sealer, P: HostPort>(
    m: &Machine<S>,
    pass: &mut Pass,
    clock: &mut ClockTurn,
    tap: &mut Tap<P>,
) -> Option<Evicted>
    requires may { MaySearch m.now pass.old clock.old }
    requires free { AreFree clock.old.clock pass.old.sweep.words }
    requires actor { IsActor (plan_at m.now) pass.old.hand.number }
    requires left { 0 < pass.old.hand.left }
    ensures evicts { EvictsOne P.HostPort.own P.HostStore.own pass.old tap.old
        clock.old.clock result pass.new tap.new }
    ensures clock { HandMoves clock.old clock.new }
{
    let _ = pass.left();
    match victim(m, pass, clock, false) {
        Err(NoVictim) => None,
        Ok(Found::Free(_)) => unreachable!(),
        Ok(Found::Sole(sole)) => {
            let page = sole.page;
            m.sweep_clear(pass, false);
            let (free, puts) = evict(m, pass, sole, tap);
            let frame = free.frame;
            note(m, pass, free);
            Some(Evicted {
                stamp: pass.last_stamp(),
                page,
                frame,
                puts,
            })
        }
    }
}

/// Evicts pages while fewer than `low` frames are noted as free, as long as there is one to evict.
pub(crate) fn evict_until<S: Sealer, P: HostPort>(
    m: &Machine<S>,
    pass: &mut Pass,
    clock: &mut ClockTurn,
    low: u32,
    tap: &mut Tap<P>,
)
    requires may { MaySearch m.now pass.old clock.old }
    requires free { AreFree clock.old.clock pass.old.sweep.words }
    requires actor { IsActor (plan_at m.now) pass.old.hand.number }
    requires left { all_frames (plan_at m.now) < pass.old.hand.left }
    ensures evicts { Evicts P.HostPort.own P.HostStore.own pass.old tap.old
        clock.old.clock low pass.new tap.new }
    ensures clock { HandMoves clock.old clock.new }
{
    let _ = pass.left();
    let most = count_of(clock);
    for _done in 0..most + 1 {
        if pass.sweep().len() >= low as usize {
            return;
        }
        let Some(_) = evict_one(m, pass, clock, tap) else {
            return;
        };
    }
    unreachable!()
}

/// How many frames there are.
fn count_of(clock: &ClockTurn) -> usize
    ensures { result ≡ length clock.now.clock }
{
    clock.clock.len()
}
