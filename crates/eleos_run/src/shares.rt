// What is printed of a change of an enclave's share.
ghost use Rattle.std.specs.Prelude.{◌≡◌, ◌+◌, ◌*◌, ◌<◌, ◌≤◌, [], false, true};
ghost use Rattle.std.specs.Prelude.{length, vec_capacity};
ghost use Rattle.eleos_balloon.specs.Ends.{end_reply};
ghost use Rattle.eleos_balloon.specs.Gathers.{Gathering};
ghost use Rattle.eleos_balloon.specs.Holds.{CanShare, Holds};
ghost use Rattle.eleos_balloon.specs.Shares.{MayEndGather, MayEndRelease};
ghost use Rattle.eleos_base.specs.Places.{all_frames};
ghost use Rattle.eleos_machine.specs.Machines.{plan_at};
ghost use Rattle.eleos_meaning.specs.Names.{Names};
ghost use Rattle.eleos_meaning.specs.Told.{survey_answer};
ghost use Rattle.eleos_trace.specs.declared.word.Word.TheVariants.{SetShare};
ghost use Rattle.eleos_run.specs.Surveys.{GathersTold, SpeaksAround, TellsShare, TellsWent};
ghost use Rattle.eleos_run.specs.Surveys.{no_block};
ghost use Rattle.eleos_run.specs.Tasks.{IsWords};

use crate::answers::{Spoken, stamped};
use crate::frame_lines::{push_went, words_in};
use eleos_balloon::{
    BalloonEnd, begin_gather, begin_share, end_gather, end_release, gather_one, release_one,
};
use eleos_base::{List, Looked, Sealer};
use eleos_host::{HostPort, Tap};
use eleos_machine::{ClockTurn, Machine, Pass};
use eleos_report::{Answer, LogLine};
use eleos_trace::Actor;
use std::sync::Wait;

/// Changes the enclave's share, and writes the lines of each frame that goes.
pub(crate) fn answer_share<S: Sealer, P: HostPort, R: Wait>(
    rt: &R,
    machine: &Machine<S>,
    pass: &mut Pass,
    tap: &mut Tap<P>,
    lines: &mut Vec<LogLine>,
    actor: Actor,
    enclave: u16,
    to: u32,
    words: Vec<Looked>,
) -> Spoken
    requires can { CanShare machine.now enclave pass.old }
    requires most { to ≤ 512 }
    requires room { length lines.old.items + 2 * all_frames (plan_at machine.now)
        ≤ vec_capacity lines.old }
    requires words { IsWords words }
    ensures { (names : Names) → SpeaksAround P.gave P.took machine.now (SetShare enclave to)
        result pass.old pass.new names names actor lines.old lines.new }
{
    let end = change_share(rt, machine, pass, tap, lines, actor, enclave, to);
    // What it has seen is a legal history.
    let _ = pass.left();
    let sweep = words_in(words, pass.sweep());
    stamped(pass, share_answer(end, sweep))
}

/// The end of a change of a share, as it is printed.
fn share_answer(end: BalloonEnd, sweep: List<Looked>) -> Answer
    ensures { result ≡ survey_answer (end_reply end) sweep }
{
    match end {
        BalloonEnd::Done { reached } => Answer::Reached { share: reached },
        BalloonEnd::Short { reached } => Answer::Short {
            share: reached,
            sweep,
        },
        BalloonEnd::Pinned { reached } => Answer::Pinned {
            share: reached,
            sweep,
        },
    }
}

/// The change itself: the enclave gets frames or gives them.
fn change_share<S: Sealer, P: HostPort, R: Wait>(
    rt: &R,
    machine: &Machine<S>,
    pass: &mut Pass,
    tap: &mut Tap<P>,
    lines: &mut Vec<LogLine>,
    actor: Actor,
    enclave: u16,
    to: u32,
) -> BalloonEnd
    requires can { CanShare machine.now enclave pass.old }
    requires most { to ≤ 512 }
    requires room { length lines.old.items + 2 * all_frames (plan_at machine.now)
        ≤ vec_capacity lines.old }
    ensures { TellsShare P.gave P.took machine.now pass.old pass.new enclave to result
        actor lines.old lines.new }
{
    let clock = begin_share(rt, machine, pass, enclave);
    // What it has seen is a legal history.
    let _ = pass.left();
    if clock.clock.len() < to as usize {
        get_frames(rt, machine, pass, lines, actor, clock, enclave, to)
    } else {
        give_frames(rt, machine, pass, tap, lines, actor, clock, enclave, to)
    }
}

/// The enclave gives frames until it has `to`, as far as it can, and the change ends.
fn give_frames<S: Sealer, P: HostPort, R: Wait>(
    rt: &R,
    machine: &Machine<S>,
    pass: &mut Pass,
    tap: &mut Tap<P>,
    lines: &mut Vec<LogLine>,
    actor: Actor,
    taken: ClockTurn,
    enclave: u16,
    to: u32,
) -> BalloonEnd
    requires own { pass.old.hand.home ≡ machine.now }
    requires holds { Holds enclave taken pass.old }
    requires more { to ≤ length taken.clock }
    requires left { 2 * all_frames (plan_at machine.now) + 1 ≤ pass.old.hand.left }
    requires room { length lines.old.items + 2 * all_frames (plan_at machine.now)
        ≤ vec_capacity lines.old }
    ensures { TellsShare P.gave P.took machine.now pass.old pass.new enclave to result
        actor lines.old lines.new }
{
    let mut clock = taken;
    release_frames(
        rt, machine, pass, tap, lines, actor, &mut clock, enclave, to,
    );
    end_release(machine, pass, clock, enclave, to)
}

/// The enclave gives frames until it has `to`, as long as there is one to give.
fn release_frames<S: Sealer, P: HostPort, R: Wait>(
    rt: &R,
    machine: &Machine<S>,
    pass: &mut Pass,
    tap: &mut Tap<P>,
    lines: &mut Vec<LogLine>,
    actor: Actor,
    clock: &mut ClockTurn,
    enclave: u16,
    to: u32,
)
    requires own { pass.old.hand.home ≡ machine.now }
    requires holds { Holds enclave clock.old pass.old }
    requires more { to ≤ length clock.old.clock }
    requires left { 2 * all_frames (plan_at machine.now) + 1 ≤ pass.old.hand.left }
    requires room { length lines.old.items + 2 * all_frames (plan_at machine.now)
        ≤ vec_capacity lines.old }
    ensures tells { TellsWent P.gave P.took machine.now pass.old pass.new false enclave
        actor lines.old lines.new }
    ensures may { MayEndRelease pass.new enclave clock.new to }
{
    let _ = pass.left();
    let most = clock.clock.len() - to as usize;
    for _done in 0..most {
        let Some(went) = release_one(rt, machine, pass, enclave, clock, tap) else {
            return;
        };
        push_went(lines, actor, false, enclave, went);
    }
}

/// The enclave gets frames of the pool until it has `to`, as far as there are such, and the change
/// ends.
fn get_frames<S: Sealer, R: Wait>(
    rt: &R,
    machine: &Machine<S>,
    pass: &mut Pass,
    lines: &mut Vec<LogLine>,
    actor: Actor,
    taken: ClockTurn,
    enclave: u16,
    to: u32,
) -> BalloonEnd
    requires own { pass.old.hand.home ≡ machine.now }
    requires holds { Holds enclave taken pass.old }
    requires empty { pass.old.sweep.words ≡ [] }
    requires fewer { length taken.clock < to }
    requires left { 2 * all_frames (plan_at machine.now) + 1 ≤ pass.old.hand.left }
    requires room { length lines.old.items + 2 * all_frames (plan_at machine.now)
        ≤ vec_capacity lines.old }
    ensures { TellsShare no_block no_block machine.now pass.old pass.new
        enclave to result actor lines.old lines.new }
{
    let mut clock = taken;
    let mut pool = begin_gather(rt, machine, pass, enclave, &clock);
    gather_frames(
        machine, pass, lines, actor, &mut clock, &mut pool, enclave, to,
    );
    end_gather(machine, pass, clock, pool, enclave, to)
}

/// The enclave gets frames of the pool until it has `to`, as long as there is one to try.
fn gather_frames<S: Sealer>(
    machine: &Machine<S>,
    pass: &mut Pass,
    lines: &mut Vec<LogLine>,
    actor: Actor,
    clock: &mut ClockTurn,
    pool: &mut ClockTurn,
    enclave: u16,
    to: u32,
)
    requires own { pass.old.hand.home ≡ machine.now }
    requires holds { Gathering enclave clock.old pool.old pass.old }
    requires empty { pass.old.sweep.words ≡ [] }
    requires fewer { length clock.old.clock ≤ to }
    requires left { 2 * all_frames (plan_at machine.now) + 1 ≤ pass.old.hand.left }
    requires room { length lines.old.items + 2 * all_frames (plan_at machine.now)
        ≤ vec_capacity lines.old }
    ensures tells { TellsWent no_block no_block machine.now pass.old pass.new true enclave
        actor lines.old lines.new }
    ensures may { MayEndGather pass.new enclave clock.new pool.new to }
{
    let _ = pass.left();
    let most = pool.clock.len();
    for _done in 0..most {
        if clock.clock.len() >= to as usize {
            return;
        }
        try_frame(machine, pass, lines, actor, clock, pool, enclave);
    }
}

/// Tries the next frame of the pool, and writes the line of its move where it goes to the enclave.
fn try_frame<S: Sealer>(
    machine: &Machine<S>,
    pass: &mut Pass,
    lines: &mut Vec<LogLine>,
    actor: Actor,
    clock: &mut ClockTurn,
    pool: &mut ClockTurn,
    enclave: u16,
)
    requires own { pass.old.hand.home ≡ machine.now }
    requires holds { Gathering enclave clock.old pool.old pass.old }
    requires more { length pass.old.sweep.words < length pool.old.clock }
    requires left { 0 < pass.old.hand.left }
    requires room { length lines.old.items + 2 ≤ vec_capacity lines.old }
    ensures { GathersTold pass.old enclave clock.old pool.old pass.new clock.new pool.new
        actor lines.old lines.new }
{
    let Some(went) = gather_one(machine, pass, enclave, clock, pool) else {
        return;
    };
    push_went(lines, actor, true, enclave, went);
}
