// The turn of an enclave's clock cell.
ghost use Rattle.std.specs.Prelude.{◌≡◌, ◌<◌, length, Some, IfOk, IfErr};
ghost use Rattle.eleos_base.specs.Places.{Owner};
ghost use Rattle.eleos_base.specs.Ties.{Has};
ghost use Rattle.eleos_base.specs.Words.{IsBusy};
ghost use Rattle.eleos_core.specs.Parts.{clock_cell};
ghost use Rattle.eleos_turn.specs.Hands.{refused_at};
ghost use Rattle.eleos_machine.specs.Holding.{HasClock};
ghost use Rattle.eleos_machine.specs.Machines.{plan_at};
ghost use Rattle.eleos_machine.specs.Passes.{gave};
ghost use Rattle.eleos_clock.specs.Turns.{TookClock};

use eleos_base::Sealer;
use eleos_machine::{ClockTurn, Machine, Pass, clock_cell};
use eleos_turn::Busy;
use std::sync::Wait;

/// Takes the turn of an enclave's clock cell. Waits where somebody has it.
pub fn clock<R: Wait, S: Sealer>(rt: &R, m: &Machine<S>, pass: &mut Pass, enclave: u16) -> ClockTurn
    requires own { pass.old.hand.home ≡ m.now }
    requires enclave { enclave < length (plan_at m.now).enclaves }
    requires made { 0 < pass.old.hand.number }
    requires free { Has (clock_cell (plan_at m.now) (Some enclave)) pass.old.hand.turns → ⊥ }
    ensures { TookClock pass.old enclave result pass.new }
{
    let number = clock_cell(m.plan(), Some(enclave));
    let taken = m.take(rt, pass, number, false);
    ClockTurn::of(pass, number, taken.value)
}

/// Takes the turn of an enclave's clock cell unless somebody has it.
pub fn try_clock<S: Sealer>(
    m: &Machine<S>,
    pass: &mut Pass,
    enclave: u16,
) -> Result<ClockTurn, Busy>
    requires own { pass.old.hand.home ≡ m.now }
    requires enclave { enclave < length (plan_at m.now).enclaves }
    requires made { 0 < pass.old.hand.number }
    requires free { Has (clock_cell (plan_at m.now) (Some enclave)) pass.old.hand.turns → ⊥ }
    ensures took { IfOk result (λ clock. TookClock pass.old enclave clock pass.new) }
    ensures busy { IfErr result (λ b. IsBusy b.word) }
    ensures refused { IfErr result (λ b. pass.new ≡ record pass.old {
      hand = refused_at pass.old.hand (clock_cell (plan_at m.now) (Some enclave)) b.word;
    }) }
{
    let number = clock_cell(m.plan(), Some(enclave));
    let taken = m.try_take(pass, number, false)?;
    Ok(ClockTurn::of(pass, number, taken.value))
}

/// Gives the turn of a clock cell back.
pub fn give_clock<S: Sealer>(m: &Machine<S>, pass: &mut Pass, clock: ClockTurn)
    requires own { pass.old.hand.home ≡ m.now }
    requires has { (owner : Owner) × HasClock pass.old owner clock }
    ensures { pass.new ≡ gave pass.old clock.number }
{
    let (number, cell) = clock.parts();
    m.give(pass, number, cell);
}
