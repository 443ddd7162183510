// A machine is made of a plan, with its passes.
ghost use Rattle.std.specs.Prelude.{vec_capacity, ◌≡◌, ◌↔◌, ◌≤◌, [], Some, Err, IfOk, map};
ghost use Rattle.eleos_plot.specs.Terms.{core_terms};
ghost use Rattle.eleos_turn.specs.Hands.{dealt, entries};
ghost use Rattle.eleos_machine.specs.declared.judging.PlanField.{PlanField as Fields};
ghost use Rattle.eleos_machine.specs.declared.making.MakeRefused.TheVariants as refusals;
ghost use Rattle.eleos_machine.specs.Closing.{hands_of};
ghost use Rattle.eleos_machine.specs.Judging.{CanBeMade, plan_fault};
ghost use Rattle.eleos_machine.specs.Machines.{IsMachine, all_passes, plan_at};
ghost use Rattle.eleos_machine.specs.Passes.{last_stamp, new_pass};

use crate::cells::opening_cells;
use crate::judging::{PlanField, fault_of};
use crate::machine::Machine;
use crate::numbers::first_frame;
use crate::opening::open;
use crate::pass::{Local, Pass};
use eleos_base::{NoMemory, Plan, Sealer};
use eleos_plot::CorePlot;
use eleos_turn::{Hand, Turnstile};
use std::alloc::Global;

/// Why no machine was made.
#[derive(Clone, Copy, Debug, PartialEq, Eq)]
pub enum MakeRefused {
    NoMemory,
    /// The first field of the plan that no machine can have.
    BadPlan { field: PlanField },
}

impl From<NoMemory> for MakeRefused {
    ghost from_gives = { λ _ refused. refused ≡ refusals.NoMemory };

    fn from(_: NoMemory) -> Self {
        MakeRefused::NoMemory
    }
}

impl<S: Sealer + Drop> Machine<S> {
    /// Makes the machine of a plan, with its passes: those of the callers first, then the swapper's
    /// and the balloon's. All room for later calls is taken here.
    pub fn make(
        alloc: Global,
        plan: &Plan,
        sealer: S,
    ) -> Result<(Machine<S>, Vec<Pass>), MakeRefused>
        ensures bad_plan { (field : Fields)
            → (result ≡ Err (refusals.BadPlan field)) ↔ (plan_fault plan.now ≡ Some field) }
        ensures plan { IfOk result (λ r. r.0.base.grounds.plan ≡ plan.now) }
        ensures key { IfOk result (λ r. r.0.base.grounds.key ≡ S.key sealer) }
        ensures machine { IfOk result (λ r. IsMachine r.0) }
        ensures passes { IfOk result (λ r. hands_of r.1.items ≡ dealt r.0 0 (all_passes plan.now)) }
        ensures new { IfOk result (λ r. r.1.items ≡ map new_pass (hands_of r.1.items)) }
    {
        if let Some(field) = fault_of(plan) {
            return Err(MakeRefused::BadPlan { field });
        }
        Ok(make_good(alloc, plan, sealer)?)
    }
}

/// Makes the machine of a plan that has no fault.
fn make_good<S: Sealer + Drop>(
    alloc: Global,
    plan: &Plan,
    sealer: S,
) -> Result<(Machine<S>, Vec<Pass>), NoMemory>
    requires can { CanBeMade plan.now }
    ensures plan { IfOk result (λ r. r.0.base.grounds.plan ≡ plan.now) }
    ensures key { IfOk result (λ r. r.0.base.grounds.key ≡ S.key sealer) }
    ensures machine { IfOk result (λ r. IsMachine r.0) }
    ensures passes { IfOk result (λ r. hands_of r.1.items ≡ dealt r.0 0 (all_passes plan.now)) }
    ensures new { IfOk result (λ r. r.1.items ≡ map new_pass (hands_of r.1.items)) }
{
    let count = plan.callers.len() as u32 + 2;
    let cells = opening_cells(alloc, plan)?;
    let (turnstile, hands) = open(alloc, cells, plan, &sealer, count)?;
    let passes = passes_of(alloc, &turnstile, hands, count)?;
    let machine = Machine {
        turnstile,
        plan: plan.copy(alloc)?,
        sealer,
        first_frame: first_frame(plan),
    };
    Ok((machine, passes))
}

/// The passes of these hands, each with room for as many.
fn passes_of(
    alloc: Global,
    _turnstile: &Turnstile<CorePlot>,
    hands: Vec<Hand<CorePlot>>,
    count: u32,
) -> Result<Vec<Pass>, NoMemory>
    requires machine { IsMachine _turnstile.now }
    requires count { count ≡ all_passes (plan_at _turnstile.now) }
    requires dealt { hands.items ≡ dealt _turnstile.now 0 count }
    ensures passes { IfOk result (λ passes. hands_of passes.items ≡ hands.items) }
    ensures new { IfOk result (λ passes. passes.items ≡ map new_pass (hands_of passes.items)) }
{
    let mut passes = Vec::with_capacity(alloc, hands.len())?;
    for hand in hands {
        passes.push(Pass {
            hand,
            local: Local::make(alloc, count)?,
        })?;
    }
    Ok(passes)
}
