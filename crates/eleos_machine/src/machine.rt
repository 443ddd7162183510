// The machine.
ghost use Rattle.std.specs.Prelude.{◌≡◌};
ghost use Rattle.eleos_machine.specs.Machines.{IsMachine};

use eleos_base::{Plan, Sealer};
use eleos_plot::CorePlot;
use eleos_turn::Turnstile;
use std::marker::Model;

/// A machine whose cells threads share, with its plan and its sealer.
#[derive(Drop)]
pub struct Machine<S: Sealer> {
    pub(crate) turnstile: Turnstile<CorePlot>,
    pub(crate) plan: Plan,
    pub(crate) sealer: S,
    /// The number of the first frame's cell, behind the alloc cells, the clock cells and the pages.
    pub(crate) first_frame: u32,
}

impl<S: Sealer> Model for Machine<S> {
    ghost use Rattle.std.specs.Prelude.{◌≡◌};
    ghost use Rattle.eleos_core.specs.Parts.{frame_cell};
    ghost use Rattle.eleos_machine.specs.Machines.{IsMachine, Site};

    ghost Value = { Site };

    ghost view = { λ a. a.turnstile };

    ghost invariant = { λ a. IsMachine a.turnstile × (a.plan ≡ a.turnstile.base.grounds.plan)
        × (S.key a.sealer ≡ a.turnstile.base.grounds.key) × (a.first_frame ≡ frame_cell a.plan 0) };
}

impl<S: Sealer> Machine<S> {
    /// The plan of which it was made.
    pub fn plan(&self) -> &Plan
        ensures plan { result.now ≡ self.now.base.grounds.plan }
        ensures made { IsMachine self.now }
    {
        &self.plan
    }

    /// The sealer that has the machine's key.
    pub fn sealer(&self) -> &S
        ensures { S.key result.now ≡ self.now.base.grounds.key }
    {
        &self.sealer
    }
}
