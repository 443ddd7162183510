// The rule of the queue of cell numbers.
use crossbeam_queue::protocol::{Lesson, Outcome, Protocol};
use std::collections::LinkedList;

/// What a pass of the queue has pushed, and what it has popped. No value of it is made.
pub struct JobView {
    pub pushed: LinkedList<u32>,
    pub popped: LinkedList<u32>,
}

/// Each number in the queue is that of a cell. All passes together pushed it as often as they
/// popped it and it stands in the queue: no number is popped more often than it was pushed.
pub struct JobRule;

impl Protocol<u32, JobView> for JobRule {
    ghost use Rattle.std.specs.Prelude.{[]};
    ghost use Rattle.eleos_work.specs.Rules.{Kept, job_view};

    ghost holds = { Kept };

    ghost first = { job_view [] [] };
}

/// A pass pushes a number.
pub(crate) struct Pushed;

impl Outcome<u32, JobView> for Pushed {
    ghost use Rattle.std.specs.Prelude.{◌≡◌, ◌++◌, ◌∷◌, []};
    ghost use Rattle.eleos_work.specs.Rules.{job_view};

    ghost then = { λ v x w. w ≡ job_view (v.pushed ++ x ∷ []) v.popped };
}

impl Lesson<u32, JobView> for Pushed {
    ghost use Rattle.eleos_work.specs.Rules.{Stood};

    ghost fact = { Stood };
}

/// A pass pops a number.
pub(crate) struct Popped;

impl Outcome<u32, JobView> for Popped {
    ghost use Rattle.std.specs.Prelude.{◌≡◌, ◌++◌, ◌∷◌, [], ◌<◌};
    ghost use Rattle.eleos_words.specs.declared.layout.TheConstants.{CELLS};
    ghost use Rattle.eleos_work.specs.Rules.{job_view};

    ghost then = { λ v x w. (x < CELLS) × (w ≡ job_view v.pushed (v.popped ++ x ∷ [])) };
}

impl Lesson<u32, JobView> for Popped {
    ghost use Rattle.eleos_work.specs.Rules.{Stood};

    ghost fact = { Stood };
}
