// The plot of the machine.

use crate::cell::Cell;
use crate::draft::Draft;
use crate::kinds::{EventKind, ReplyKind};
use eleos_base::{Bytes, Plan, Plot, Tied};
use std::marker::Model;

/// What never changes: the plan of the machine, and the key under which it seals.
#[derive(Drop)]
pub struct Ground {
    pub plan: Plan,
    pub key: Bytes,
}

/// What the history fixes of a cell, which contracts see as the cell's part. No value of it is
/// made.
pub struct CellPart {}

impl Model for CellPart {
    ghost use Rattle.eleos_core.specs.Parts.{Part, no_part};

    ghost Value = { Part };

    ghost view = { λ _. no_part };
}

/// The machine, as a turnstile is told of it.
pub struct CorePlot;

impl Plot for CorePlot {
    ghost use Rattle.eleos_plot.specs.Terms.{core_terms};
    ghost use Rattle.eleos_plot.specs.Locality.{core_local};

    type Cell = Cell;

    type Draft = Draft;

    type Part = CellPart;

    type Ground = Ground;

    ghost terms = { core_terms };

    fn tied(draft: &Draft) -> Tied {
        match draft.event {
            EventKind::Link { at: _ } => match draft.reply {
                ReplyKind::Got(_) | ReplyKind::Done | ReplyKind::Text(()) => Tied::Adds,
                _ => Tied::No,
            },
            EventKind::Unlink { page: _ } => Tied::Takes,
            _ => Tied::No,
        }
    }

    ghost local = { core_local };
}
