// The turn of the pool's clock cell.
ghost use Rattle.std.specs.Prelude.{◌≡◌, ◌<◌, None};
ghost use Rattle.eleos_base.specs.Ties.{Has};
ghost use Rattle.eleos_core.specs.Parts.{clock_cell};
ghost use Rattle.eleos_machine.specs.Machines.{plan_at};
ghost use Rattle.eleos_balloon.specs.Holds.{TookPool};

use eleos_base::Sealer;
use eleos_machine::{ClockTurn, Machine, Pass, clock_cell};
use std::sync::Wait;

/// Takes the turn of the pool's clock cell. Waits where somebody has it.
pub(crate) fn pool_clock<R: Wait, S: Sealer>(rt: &R, m: &Machine<S>, pass: &mut Pass) -> ClockTurn
    requires own { pass.old.hand.home ≡ m.now }
    requires made { 0 < pass.old.hand.number }
    requires free { Has (clock_cell (plan_at m.now) None) pass.old.hand.turns → ⊥ }
    ensures { TookPool pass.old result pass.new }
{
    let number = clock_cell(m.plan(), None);
    let taken = m.take(rt, pass, number, false);
    ClockTurn::of(pass, number, taken.value)
}
