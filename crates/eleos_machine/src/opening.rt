// The turnstile of a machine is opened.
ghost use Rattle.std.specs.Prelude.{◌≡◌, ◌<◌, ◌≤◌, ◌^◌, ℕ, List, map, length, IfOk};
ghost use Rattle.eleos_base.specs.declared.plan.Plan.{Plan as Plans};
ghost use Rattle.eleos_plot.specs.Cells.{part_of_cell};
ghost use Rattle.eleos_turn.specs.Hands.{dealt};
ghost use Rattle.eleos_machine.specs.Judging.{CanBeMade};
ghost use Rattle.eleos_machine.specs.Machines.{AreOpening, IsMachine, all_passes, base_over};

use eleos_base::{NoMemory, Plan, Plot, Sealer};
use eleos_plot::{Cell, CorePlot};
use eleos_turn::{Hand, Turnstile};
use std::alloc::Global;

/// Stamps of each pass.
const STAMPS: u64 = 1 << 40;

/// What never changes in a machine of this plan under this key.
trait Grounded: Plot {
    ghost grounds: { Plans → List ℕ → Self.Ground };
}

impl Grounded for CorePlot {
    ghost grounds = { λ plan key. record { plan = plan; key = key } };
}

/// Opens the turnstile over the cells. Its ground is the plan and the sealer's key.
pub(crate) fn open<S: Sealer>(
    alloc: Global,
    cells: Vec<Cell>,
    plan: &Plan,
    sealer: &S,
    count: u32,
) -> Result<(Turnstile<CorePlot>, Vec<Hand<CorePlot>>), NoMemory>
    requires can { CanBeMade plan.now }
    requires cells { AreOpening plan.now (map part_of_cell cells.items) }
    requires count { count ≡ all_passes plan.now }
    ensures plan { IfOk result (λ r. r.0.base.grounds.plan ≡ plan.now) }
    ensures key { IfOk result (λ r. r.0.base.grounds.key ≡ S.key sealer.now) }
    ensures machine { IfOk result (λ r. IsMachine r.0) }
    ensures hands { IfOk result (λ r. r.1.items ≡ dealt r.0 0 count) }
{
    open_with::<CorePlot, S>(alloc, cells, plan, sealer, count)
}

fn open_with<P: Grounded, S: Sealer>(
    alloc: Global,
    cells: Vec<P::Cell>,
    plan: &Plan,
    sealer: &S,
    count: u32,
) -> Result<(Turnstile<P>, Vec<Hand<P>>), NoMemory>
    requires count { (0 < count) × (count ≤ 16) }
    requires few { length cells.items < 2 ^ 31 }
    ensures base { IfOk result (λ r. r.0.base ≡ base_over
        (P.grounds plan.now (S.key sealer.now)) (map P.terms.part cells.items) count) }
    ensures hands { IfOk result (λ r. r.1.items ≡ dealt r.0 0 count) }
{
    open_on::<P, S>(alloc, cells, plan, sealer, count)
}

/// Opens a turnstile on this ground, which is picked by the plan and the sealer.
fn open_on<P: Plot, S: Sealer>(
    alloc: Global,
    cells: Vec<P::Cell>,
    _plan: &Plan,
    _sealer: &S,
    count: u32,
) -> Result<(Turnstile<P>, Vec<Hand<P>>), NoMemory>
    ghost grounds: { P.Ground }
    requires count { (0 < count) × (count ≤ 16) }
    requires few { length cells.items < 2 ^ 31 }
    ensures base { IfOk result (λ r. r.0.base ≡ base_over
        grounds (map P.terms.part cells.items) count) }
    ensures hands { IfOk result (λ r. r.1.items ≡ dealt r.0 0 count) }
{
    Turnstile::<P>::make(alloc, cells, count, STAMPS)
}
