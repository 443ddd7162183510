// What is printed of a round of the swapper.
ghost use Rattle.std.specs.Prelude.{◌≡◌, ◌+◌, ◌<◌, ◌≤◌, [], length, vec_capacity};
ghost use Rattle.eleos_base.specs.Places.{all_frames};
ghost use Rattle.eleos_clock.specs.Frees.{AreFree};
ghost use Rattle.eleos_clock.specs.Searches.{MaySearch};
ghost use Rattle.eleos_core.specs.Legal.{IsActor};
ghost use Rattle.eleos_machine.specs.Machines.{plan_at};
ghost use Rattle.eleos_meaning.specs.Names.{Names};
ghost use Rattle.eleos_meaning.specs.Told.{survey_answer};
ghost use Rattle.eleos_swap.specs.Ends.{MayStop, end_reply};
ghost use Rattle.eleos_swap.specs.Making.{HandMoves};
ghost use Rattle.eleos_swap.specs.Rounds.{CanSwap};
ghost use Rattle.eleos_trace.specs.declared.word.Word.TheVariants.{SwapRound};
ghost use Rattle.eleos_run.specs.Surveys.{SpeaksAround, TellsEvicts};
ghost use Rattle.eleos_run.specs.Tasks.{IsWords};

use crate::answers::{Spoken, stamped};
use crate::frame_lines::{push_evict, words_in};
use eleos_base::{List, Looked, Sealer};
use eleos_host::{HostPort, Tap};
use eleos_machine::{ClockTurn, Machine, Pass};
use eleos_report::{Answer, LogLine};
use eleos_swap::{RoundEnd, begin_round, end_round, evict_one};
use eleos_trace::Actor;
use std::sync::Wait;

/// Keeps frames of the enclave free, and writes the line of each page that leaves its frame.
pub(crate) fn answer_round<S: Sealer, P: HostPort, R: Wait>(
    rt: &R,
    machine: &Machine<S>,
    pass: &mut Pass,
    tap: &mut Tap<P>,
    lines: &mut Vec<LogLine>,
    actor: Actor,
    enclave: u16,
    low: u32,
    words: Vec<Looked>,
) -> Spoken
    requires can { CanSwap machine.now enclave pass.old }
    requires room { length lines.old.items + all_frames (plan_at machine.now)
        ≤ vec_capacity lines.old }
    requires words { IsWords words }
    ensures { (names : Names) → SpeaksAround P.gave P.took machine.now (SwapRound enclave low)
        result pass.old pass.new names names actor lines.old lines.new }
{
    let mut clock = begin_round(rt, machine, pass, enclave);
    evict_pages(machine, pass, &mut clock, tap, lines, actor, low);
    let end = end_round(machine, pass, clock, enclave, low);
    // What it has seen is a legal history.
    let _ = pass.left();
    let sweep = words_in(words, pass.sweep());
    stamped(pass, round_answer(end, sweep))
}

/// The end of a round, as it is printed.
fn round_answer(end: RoundEnd, sweep: List<Looked>) -> Answer
    ensures { result ≡ survey_answer (end_reply end) sweep }
{
    match end {
        RoundEnd::Enough { free } => Answer::Enough { free, sweep },
        RoundEnd::Swept { free } => Answer::Swept { free, sweep },
    }
}

/// Evicts pages while fewer than `low` frames are noted as free, as long as there is one to evict,
/// and writes the line of each.
fn evict_pages<S: Sealer, P: HostPort>(
    machine: &Machine<S>,
    pass: &mut Pass,
    clock: &mut ClockTurn,
    tap: &mut Tap<P>,
    lines: &mut Vec<LogLine>,
    actor: Actor,
    low: u32,
)
    requires may { MaySearch machine.now pass.old clock.old }
    requires free { AreFree clock.old.clock pass.old.sweep.words }
    requires number { IsActor (plan_at machine.now) pass.old.hand.number }
    requires left { all_frames (plan_at machine.now) < pass.old.hand.left }
    requires room { length lines.old.items + all_frames (plan_at machine.now)
        ≤ vec_capacity lines.old }
    ensures tells { TellsEvicts P.gave P.took machine.now pass.old pass.new
        actor lines.old lines.new }
    ensures stop { MayStop clock.old.clock low pass.new.sweep.words }
    ensures clock { HandMoves clock.old clock.new }
{
    let _ = pass.left();
    let most = clock.clock.len();
    for _done in 0..most + 1 {
        if pass.sweep().len() >= low as usize {
            return;
        }
        let Some(one) = evict_one(machine, pass, clock, tap) else {
            return;
        };
        push_evict(lines, actor, one);
    }
    unreachable!()
}
